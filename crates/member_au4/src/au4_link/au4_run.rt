//! The frames of a link, from a source to a sink, and what comes of them.
ghost use Rattle.std.specs.Prelude.{◌≡◌, ◌≤◌, [], length, OnOk, OnErr};
ghost use Rattle.law_model.specs.Common.{Start, Appends, AppendsPart};
ghost use Rattle.member_au4.specs.au4_link.Link.{IsLink};
ghost use Rattle.member_au4.specs.au4_pointer.SentFrames.{AreAccepted};
ghost use Rattle.member_au4.specs.au4_link.LinkReportText.{back_of, cut_after, end_text, counts_text};
ghost use Rattle.member_au4.specs.au4_link.LinkReportText.{text_of, link_text, HasVcs};

use crate::au4_link::au4_draft::Link;
use crate::au4_link::au4_report::{Au4Counts, END_ROOM, VcTexts, end_line};
use crate::au4_link::numbered_vcs::NumberedVcs;
use crate::au4_pointer::{Action, AuFrame, PointerSink, PointerSource, VC, relay};
use octet_io::{ByteSink, Failed, take_back};
use text_got::GotLines;

/// How many VC-4s are cut with a frame more, where so many began before it and so many came whole: a new
/// pointer cuts those in progress.
fn cut_after(cut: u64, begun: u64, back: u64, a: Action) -> u64
    requires { back ≤ begun }
    ensures { result ≡ cut_after cut begun back a }
{
    match a {
        Action::Keep | Action::Up | Action::Down => cut,
        Action::New(_) => begun - back,
    }
}

/// Carries numbered VC-4s in frames of these actions.
fn carry_all<K: ByteSink>(start: u16, actions: &[Action], out: &mut VcTexts<K>) -> Au4Counts
    requires start { start ≤ 782 }
    requires few { length actions.now ≤ 100000 }
    requires accepted { AreAccepted actions.now }
    requires fresh { (to : Start) × HasVcs K.written K.faults out.old.lines out.old.back to [] }
    ensures given { (to : Start) → HasVcs K.written K.faults out.old.lines out.old.back to [] →
        HasVcs K.written K.faults out.new.lines out.new.back to (back_of start actions.now) }
    ensures counts { end_text result.frames result.begun result.back result.cut
        ≡ counts_text start actions.now }
{
    let mut source = PointerSource::new(start);
    let mut sink = PointerSink::new();
    let mut feed = NumberedVcs::new();
    let mut frame = AuFrame {
        word: 0,
        h3: [0; 3],
        body: [0; VC],
    };
    let mut cut = 0;
    for a in actions {
        cut = cut_after(cut, feed.next, out.back, *a);
        match relay(&mut source, &mut sink, *a, &mut feed, &mut frame, out) {
            Ok(()) => {}
            Err(_) => unreachable!(),
        }
    }
    Au4Counts {
        frames: actions.len() as u64,
        begun: feed.next,
        back: out.back,
        cut,
    }
}

/// Carries numbered VC-4s in frames of these actions, and writes what comes of them.
fn write_actions<K: ByteSink>(start: u16, actions: &[Action], out: &mut K) -> Result<(), Failed>
    requires start { start ≤ 782 }
    requires few { length actions.now ≤ 100000 }
    requires accepted { AreAccepted actions.now }
    ensures ok { OnOk result
        (Appends K.written K.faults out.old out.new (text_of start actions.now)) }
    ensures err { OnErr result
        (AppendsPart K.written K.faults out.old out.new (text_of start actions.now)) }
{
    let mut lines = VcTexts {
        lines: GotLines::new(out),
        back: 0,
    };
    let counts = carry_all(start, actions, &mut lines);
    let VcTexts {
        lines: mut rest,
        back: _,
    } = lines;
    let mut line = [0u8; END_ROOM];
    let end = end_line(counts, &mut line);
    rest.line(&line[..end]);
    let (back, end) = rest.finish();
    take_back(back);
    end
}

/// Carries VC-4s in the order of their numbers over all frames of a link, and writes the line of each that
/// comes whole, and last the counts. No call takes memory.
pub fn write_link<K: ByteSink>(link: &Link, out: &mut K) -> Result<(), Failed>
    requires { IsLink link.now }
    ensures ok { OnOk result (Appends K.written K.faults out.old out.new (link_text link.now)) }
    ensures err { OnErr result
        (AppendsPart K.written K.faults out.old out.new (link_text link.now)) }
{
    write_actions(link.start, link.actions.0.as_slice(), out)
}
