//! The receiver of a stream, and the lines of the frames that it delivers.
ghost use Rattle.std.specs.Prelude.{◌≡◌, ℕ, ◌+◌, ◌<◌, ◌≤◌, List, [], ◌∷◌, ◌++◌};
ghost use Rattle.law_model.specs.Common.{Start};
ghost use Rattle.gfp_noise.specs.noise_link.ReceivedSoFar.{Received};

use crate::gfp_fcs::{FcsDelineator, FcsStep};
use law_model::FrameOut;
use octet_io::ByteSink;
use text_got::GotLines;

/// What octets came to so far.
pub(super) struct Reception<'a, K> {
    /// The receiver.
    pub delineator: FcsDelineator,
    /// The lines of the frames that were delivered.
    pub lines: GotLines<'a, K>,
    /// How many were delivered.
    pub got: u64,
    /// How many were dropped.
    pub dropped: u64,
}

/// Receives the next octet.
fn receive<K: ByteSink>(reception: &mut Reception<K>, o: u8)
    requires stands { (start : Start) × ((octets : List ℕ) ×
        Received K.written K.faults reception.old start octets) }
    requires few { reception.old.got + reception.old.dropped < 18446744073709551615 }
    ensures received { (start : Start) (octets : List ℕ) →
        Received K.written K.faults reception.old start octets →
        Received K.written K.faults reception.new start (octets ++ o ∷ []) }
    ensures more { reception.new.got + reception.new.dropped
        ≤ reception.old.got + reception.old.dropped + 1 }
{
    match reception.delineator.byte(o) {
        FcsStep::Nothing => {}
        FcsStep::Frame => {
            reception.lines.frame(reception.delineator.frame());
            reception.got += 1;
        }
        FcsStep::Dropped(_) => reception.dropped += 1,
    }
}

/// Receives octets.
pub(super) fn receive_all<K: ByteSink>(reception: &mut Reception<K>, octets: &[u8])
    requires stands { (start : Start) × Received K.written K.faults reception.old start [] }
    requires few { reception.old.got + reception.old.dropped ≡ 0 }
    ensures { (start : Start) → Received K.written K.faults reception.old start [] →
        Received K.written K.faults reception.new start octets.now }
{
    for o in octets {
        receive(reception, *o);
    }
}
