//! Client frames of channels that share a stream by linear extension headers (G.7041): the queues of the
//! channels, from which a `Filler` of gfp_fill writes their stream in turns that go round them, and the receiver
//! that tells the channel of each frame. What a frame is on the stream, what comes of one, and whose turn it is
//! stands in gfp_model's `specs/linear_model`. Begin with `LinearQueue` and `LinearDelineator`. Whether an
//! offered frame is refused depends on its length, on how many channels there are, and on what waits of its own
//! channel; `turns_law`: turns lose and reorder no frame of a channel.

ghost use Rattle.std.specs.Prelude.{◌≡◌, ◌<◌, ◌≤◌, ℕ, List, ◌∷◌, ◌++◌, length, replicate, true, false, Some, None};
ghost use Rattle.law_model.specs.Limits.{shortest_frame, longest_frame};
ghost use Rattle.gfp_model.specs.linear_model.Channels.{Channels, waiting_of, channel_refusal};
ghost use Rattle.gfp_model.specs.linear_model.ChannelArea.{linear_header, linear_outcome, dropping};
ghost use Rattle.gfp_model.specs.linear_model.ChannelStream.{Shared, size, one_more, reached, IsFewest, accepted_of};

mod busy_channels;
mod linear_delineator;
mod linear_queue;

pub use gfp_model::linear_model::{ChannelFault, LinearWhy};
pub use law_model::TypeFault;
pub use linear_delineator::{LinearDelineator, LinearStep};
pub use linear_queue::LinearQueue;

/// The pieces of a stream that reaches a place are the fewest, and each is the oldest frame of the channel
/// whose turn it is, or an idle where none waits. Turns lose no frame of a channel and change their order
/// nowhere: those that are begun, followed by those that wait, stay the same however far the stream is made.
pub fn turns_law()
    ensures fewest { (place : ℕ) (shared : Shared) →
        IsFewest shared.pieces place (reached place shared).pieces }
    ensures next { (place : ℕ) (shared : Shared) → size shared.pieces < place →
        reached place shared ≡ reached place (one_more shared) }
    ensures keeps { (place cid : ℕ) (shared : Shared) →
        accepted_of cid (reached place shared) ≡ accepted_of cid shared }
{}

/// Why a frame of a channel is refused, the first cause that holds: with how many channels there are, with its length,
/// or with the 16 that wait. Else it isn't.
pub fn refusal_law()
    ensures unknown { (cid : ℕ) (frame : List ℕ) (channels : Channels) →
        length channels.waiting ≤ cid →
        channel_refusal cid frame channels
        ≡ Some (ChannelFault.Unknown (length channels.waiting)) }
    ensures short { (cid : ℕ) (frame : List ℕ) (channels : Channels) →
        cid < length channels.waiting → length frame < shortest_frame →
        channel_refusal cid frame channels ≡ Some (ChannelFault.Length (length frame)) }
    ensures long { (cid : ℕ) (frame : List ℕ) (channels : Channels) →
        cid < length channels.waiting → longest_frame < length frame →
        channel_refusal cid frame channels ≡ Some (ChannelFault.Length (length frame)) }
    ensures full { (cid : ℕ) (frame : List ℕ) (channels : Channels) →
        cid < length channels.waiting → shortest_frame ≤ length frame →
        length frame ≤ longest_frame → 16 ≤ length (waiting_of cid channels) →
        channel_refusal cid frame channels ≡ Some (ChannelFault.QueueFull 16) }
    ensures none { (cid : ℕ) (frame : List ℕ) (channels : Channels) →
        cid < length channels.waiting → shortest_frame ≤ length frame →
        length frame ≤ longest_frame → length (waiting_of cid channels) < 16 →
        channel_refusal cid frame channels ≡ None }
{}

/// Worked: what each cause tells of an area.
pub fn cause_law()
    ensures unsettled { (area : List ℕ) →
        linear_outcome false area ≡ dropping LinearWhy.Unsettled }
    ensures too_long { (area : List ℕ) → 9608 < length area →
        linear_outcome true area ≡ dropping (LinearWhy.TooLong (length area)) }
    ensures header { linear_outcome true (0x01 ∷ 0x01 ∷ replicate 6 0)
        ≡ dropping (LinearWhy.Header (TypeFault.Check 0 0x2310)) }
    ensures short { linear_outcome true (linear_header ++ replicate 3 0)
        ≡ dropping (LinearWhy.Short 7) }
    ensures extension { linear_outcome true (linear_header ++ 5 ∷ replicate 3 0)
        ≡ dropping (LinearWhy.Extension (record { said = 0; found = 0xfff5 })) }
{}
