//! What can be wrong with a live text of both ways.
ghost use Rattle.std.specs.Prelude.{◌≡◌};
ghost use Rattle.pair_live.specs.PairNotes.{pair_line_kind};

use text_lines::LineKind;
use text_live::{LiveKeyword, LiveLineFault};
use text_pairs::PairFault;

/// What is wrong with a line of a live text of both ways and with no line of a script.
#[derive(Clone, Copy, Debug)]
pub enum PairLineFault {
    /// What a line of a live text of one way can have.
    Live(LiveLineFault),
    /// Behind `keyword`, which takes a way and one word, there are `follow` words.
    Count { keyword: LiveKeyword, follow: u64 },
    /// The word behind the first names no way.
    Way,
}

impl PairLineFault {
    /// Its kind.
    pub(crate) fn kind(self) -> LineKind
        ensures { result ≡ pair_line_kind self }
    {
        match self {
            PairLineFault::Live(fault) => fault.kind(),
            PairLineFault::Count { .. } | PairLineFault::Way => LineKind::Word,
        }
    }
}

/// Why a live text of both ways isn't read on. Lines of the text are counted from 1.
#[derive(Clone, Copy, Debug)]
pub enum LivePairFault {
    /// A line has a fault that lines of scripts have, none divides them, they don't fit together, or memory is short.
    Pair(PairFault),
    /// Line `number` has a fault that lines of scripts don't have.
    Line { number: u32, fault: PairLineFault },
}
