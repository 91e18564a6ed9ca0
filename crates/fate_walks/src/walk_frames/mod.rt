//! The client's frames in a walk that was made: which of them have landed, and why others are refused; and the
//! stream that they make tick by tick. It holds nothing of a walk, and says of no frame what became of it. Begin
//! with `FrameCursor`; `stream_law` is a law of definitions alone.

ghost use Rattle.std.specs.Prelude.{◌≡◌, ℕ, ◌+◌, ◌<◌, ◌≤◌, List, length, Some, None};
ghost use Rattle.law_model.specs.Common.{Leg, Stream, frame_refusal, offered, reached};
ghost use Rattle.law_model.specs.declared.item_refusals.AcceptFault.{AcceptFault};
ghost use Rattle.fate_engine.specs.Common.{new_ruler, ruler_of, with_waiting};
ghost use Rattle.fate_walks.specs.walk_frames.StreamInTicks.{place_in, stream_in, Between};

mod landed_cursor;

pub use landed_cursor::{FrameCursor, LandedFrame};

/// The stream of a leg, frame by frame and tick by tick, and its ruler.
pub fn stream_law()
    ensures start { (leg : Leg) → ruler_of (stream_in leg 0 0) ≡ new_ruler }
    ensures tick { (leg : Leg) (frames from t to : ℕ) → Between leg frames from to → from ≤ t →
        t < to →
        reached (place_in leg (t + 1)) (stream_in leg t frames) ≡ stream_in leg (t + 1) frames }
    ensures refused { (stream : Stream) (octets : List ℕ) (why : AcceptFault) →
        frame_refusal octets stream ≡ Some why → offered stream octets ≡ stream }
    ensures accepted { (stream : Stream) (octets : List ℕ) → frame_refusal octets stream ≡ None →
        ruler_of (offered stream octets) ≡ with_waiting (ruler_of stream) (length octets) }
{}
