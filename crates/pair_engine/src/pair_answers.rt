//! What a step of a pair answers.

ghost use Rattle.std.specs.Prelude.{◌≡◌};
ghost use Rattle.pair_engine.specs.PairAfterEvent.{moved_on};

use law_model::{Refusal, StallCause};
use law_pair::Way;
use walk_engine::walk_core::Moved;

/// What a step of a pair gave.
#[derive(Clone, Copy, Debug, PartialEq, Eq)]
pub enum PairMoved {
    /// It moved.
    Yes,
    /// It moved nothing, or nothing but cells that a Take popped: for this cause, in this way.
    Stalled(Way, StallCause),
    /// An item has landed and is refused.
    Refused(Refusal),
}

/// What a step of one way gave, as a step of the pair.
pub(crate) fn moved_on(way: Way, moved: Moved) -> PairMoved
    ensures { result ≡ moved_on way moved }
{
    match moved {
        Moved::Yes => PairMoved::Yes,
        Moved::Stalled(cause) => PairMoved::Stalled(way, cause),
        Moved::Refused(why) => PairMoved::Refused(why),
    }
}
