//! The frames that wait, and the stream of GFP frames that is made of them. It knows nothing of rows, lines or
//! time: the caller says how many octets come next, and offers frames between. Begin with `FrameQueue` and
//! `Filler`; what is promised of the two together is `FillerStands` in `specs/FilledStream.antt`, over the streams of
//! law_model's `specs/source/Client.antt`. `filling_law`: a filler at a place of a stream goes with one queue
//! at most.
//!
//! Below it `AreaSender` writes payload areas, whatever is in them, and idle frames, by `StandsIn` of
//! `specs/SentAreas.antt`, and `FrameStore` keeps frames in buffers that are taken once. A queue of frames of
//! another kind stands on both too, and a `Filler` takes it as `WaitingFrames`.
#![tactic(auto)]

ghost use Rattle.std.specs.Prelude.{◌≡◌, ℕ, ◌+◌, ◌≤◌, List, [], ◌++◌, length, take, drop};
ghost use Rattle.law_model.specs.frames.Piece.{opening};
ghost use Rattle.law_model.specs.Common.{Piece, stream_of, size, Stream, offered, reached, IsFewest};
ghost use Rattle.law_model.specs.source.Client.{begun};
ghost use Rattle.gfp_fill.specs.SentAreas.{Sender};
ghost use Rattle.gfp_fill.specs.Queue.{Held};
ghost use Rattle.gfp_fill.specs.FilledStream.{next_pieces, unsent, FillerStands};

mod area_sender;
mod copy_octets;
mod frame_queue;
mod frame_store;
mod stream_filler;
mod waiting_frames;

pub use area_sender::AreaSender;
pub use frame_queue::{FrameQueue, MIN_FRAME};
pub use frame_store::{BegunFrame, FrameStore};
pub use law_model::AcceptFault;
pub use stream_filler::Filler;
pub use waiting_frames::WaitingFrames;

/// The pieces of a stream that reaches a place are the fewest, a place can be reached in parts, and octets
/// that are written stand in each longer stream. Where all frames wait from the start, the pieces are those
/// of the opening. For a filler and a place in a stream there is at most one queue with which it stands there:
/// one that holds the frame that it is sending.
pub fn filling_law()
    ensures fewest { (place : ℕ) (stream : Stream) →
        IsFewest stream.pieces place (reached place stream).pieces }
    ensures parts { (sooner later : ℕ) (stream : Stream) → sooner ≤ later →
        reached later (reached sooner stream) ≡ reached later stream }
    ensures begun { (place : ℕ) (stream : Stream) →
        (n : ℕ) × (reached place stream ≡ begun n stream) }
    ensures next { (n : ℕ) (stream : Stream) → begun n stream ≡
        record { pieces = stream.pieces ++ next_pieces n stream.waiting; waiting = drop n stream.waiting } }
    ensures opening { (frames : List (List ℕ)) (idles : ℕ) →
        begun (length frames + idles) (unsent frames) ≡ record { pieces = opening frames idles; waiting = [] } }
    ensures queue { (sender : Sender) (queue other : Held) (stream : Stream) (place : ℕ) →
        FillerStands sender queue stream place → FillerStands sender other stream place →
        other ≡ queue }
    ensures offers { (stream : Stream) (frame : List ℕ) →
        (offered stream frame).pieces ≡ stream.pieces }
    ensures long { (pieces : List Piece) → length (stream_of pieces) ≡ size pieces }
    ensures written { (pieces more : List Piece) (place : ℕ) → place ≤ size pieces →
        take place (stream_of (pieces ++ more)) ≡ take place (stream_of pieces) }
{}
