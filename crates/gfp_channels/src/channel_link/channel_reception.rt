//! The receiver of a stream with its cuts, and the lines of the frames that it delivers.
ghost use Rattle.std.specs.Prelude.{◌≡◌, ℕ, ◌+◌, ◌<◌, ◌≤◌, List, [], ◌∷◌, ◌++◌, length};
ghost use Rattle.law_model.specs.Common.{Start, longest_frame, Segment};
ghost use Rattle.text_got.specs.TextSoFar.{HasText};
ghost use Rattle.gfp_model.specs.linear_model.ChannelArea.{LinearOutcome};
ghost use Rattle.gfp_channels.specs.channel_link.Plan.{AreCuts};
ghost use Rattle.gfp_channels.specs.channel_link.ChannelReportText.{got_text};
ghost use Rattle.gfp_channels.specs.channel_link.Run.{Received, ReceivedIn, longer_by};

use crate::channel_link::channel_report::{FRAME_ROOM, LINE_ROOM, got_head, got_tail};
use crate::gfp_linear::{LinearDelineator, LinearStep};
use gfp_model::linear_model::Cut;
use octet_io::ByteSink;
use text_got::GotLines;

/// What octets came to so far.
pub(super) struct Reception<'a, K> {
    /// The receiver.
    pub delineator: LinearDelineator,
    /// The lines of the frames that were delivered.
    pub lines: GotLines<'a, K>,
    /// How many were delivered.
    pub got: u64,
    /// How many octets were sent.
    pub place: u64,
    /// How many cuts have ended.
    pub ended: usize,
}

/// Writes the line of a delivered frame.
fn write_frame<K: ByteSink>(cid: u8, frame: &[u8], lines: &mut GotLines<K>)
    requires { length frame.now ≤ longest_frame }
    ensures { (start : Start) (before : List ℕ) →
        HasText K.written K.faults lines.old start before →
        HasText K.written K.faults lines.new start
        (before ++ got_text (record { cid = cid; frame = frame.now })) }
{
    let mut head = [0u8; LINE_ROOM];
    let end = got_head(cid, &mut head);
    lines.line(&head[..end]);
    let mut tail = [0u8; FRAME_ROOM];
    let end = got_tail(frame, &mut tail);
    lines.line(&tail[..end]);
}

/// Receives the next octet that arrives.
fn receive<K: ByteSink>(reception: &mut Reception<K>, o: u8)
    requires stands { (start : Start) × ((segment : Segment) × ((before : List LinearOutcome) ×
        ReceivedIn K.written K.faults reception.old start before segment)) }
    requires few { reception.old.got < 18446744073709551615 }
    ensures received { (start : Start) (segment : Segment) (before : List LinearOutcome) →
        ReceivedIn K.written K.faults reception.old start before segment →
        ReceivedIn K.written K.faults reception.new start before (longer_by segment o) }
    ensures more { reception.new.got ≤ reception.old.got + 1 }
    ensures place { reception.new.place ≡ reception.old.place }
    ensures ended { reception.new.ended ≡ reception.old.ended }
{
    match reception.delineator.byte(o) {
        LinearStep::Nothing => {}
        LinearStep::Dropped(_) => {}
        LinearStep::Frame { cid } => {
            write_frame(cid, reception.delineator.frame(), &mut reception.lines);
            reception.got += 1;
        }
    }
}

/// Sends the next octet, which arrives where no cut has it. Where a cut begins the receiver is told of a break.
fn send<K: ByteSink>(reception: &mut Reception<K>, cuts: &[Cut], o: u8)
    requires order { (most : ℕ) × AreCuts 0 most cuts.now }
    requires stands { (start : Start) × ((sent : List ℕ) ×
        Received K.written K.faults reception.old start cuts.now sent) }
    requires few { reception.old.got ≤ reception.old.place }
    requires small { reception.old.place < 18446744073709551615 }
    ensures received { (start : Start) (sent : List ℕ) →
        Received K.written K.faults reception.old start cuts.now sent →
        Received K.written K.faults reception.new start cuts.now (sent ++ o ∷ []) }
    ensures more { reception.new.got ≤ reception.new.place }
    ensures place { reception.new.place ≡ reception.old.place + 1 }
{
    let place = reception.place;
    reception.place += 1;
    if reception.ended < cuts.len() && place >= cuts[reception.ended].first {
        let cut = cuts[reception.ended];
        if place == cut.first {
            reception.delineator.broken();
        }
        if place + 1 >= cut.end {
            reception.ended += 1;
        }
        return;
    }
    receive(reception, o);
}

/// Sends octets.
pub(super) fn send_all<K: ByteSink>(reception: &mut Reception<K>, cuts: &[Cut], octets: &[u8])
    requires order { (most : ℕ) × AreCuts 0 most cuts.now }
    requires stands { (start : Start) × ((sent : List ℕ) ×
        Received K.written K.faults reception.old start cuts.now sent) }
    requires few { reception.old.got ≤ reception.old.place }
    requires small { reception.old.place + length octets.now ≤ 100000000 }
    ensures place { reception.new.place ≡ reception.old.place + length octets.now }
    ensures more { reception.new.got ≤ reception.new.place }
    ensures received { (start : Start) (sent : List ℕ) →
        Received K.written K.faults reception.old start cuts.now sent →
        Received K.written K.faults reception.new start cuts.now (sent ++ octets.now) }
{
    for o in octets {
        send(reception, cuts, *o);
    }
}
