//! What can be wrong with a live text.
ghost use Rattle.std.specs.Prelude.{◌≡◌};
ghost use Rattle.text_live.specs.declared.live_fault.LiveLineFault.TheVariants as wrong;
ghost use Rattle.text_live.specs.LiveHelpTexts.{live_kind};

use crate::live_keyword::{EarlierPart, LiveKeyword};
use text_lines::{FieldFault, LineKind};
use text_scripts::script_read::ScriptFault;

/// What is wrong with a line of a live text and with no line of a script.
#[derive(Clone, Copy, Debug)]
pub enum LiveLineFault {
    /// The first word is none that begins a line.
    First,
    /// Behind `keyword`, which takes one word, there are `follow` of them.
    Count { keyword: LiveKeyword, follow: u64 },
    /// The word behind the first isn't what it has to be.
    Field(FieldFault),
    /// The line is of this part of a script, and stands behind a live line.
    Behind(EarlierPart),
    /// Line `line` of the group has 256 failures already.
    FullLine { line: u8 },
    /// All ticks have passed.
    LastTick,
    /// Line `line` of the group is cut already.
    CutAlready { line: u8 },
    /// The failure before of the same line hasn't ended: it does in tick `end`.
    FailureBefore { end: u32 },
    /// Line `line` of the group isn't cut.
    NotCut { line: u8 },
}

impl LiveLineFault {
    /// Its kind.
    pub fn kind(self) -> LineKind
        ensures { result ≡ live_kind self }
    {
        match self {
            LiveLineFault::First | LiveLineFault::Count { .. } => LineKind::Word,
            LiveLineFault::Field(fault) => fault.kind(),
            LiveLineFault::FullLine { .. } => LineKind::Range,
            LiveLineFault::Behind(_)
            | LiveLineFault::LastTick
            | LiveLineFault::CutAlready { .. }
            | LiveLineFault::FailureBefore { .. }
            | LiveLineFault::NotCut { .. } => LineKind::Order,
        }
    }
}

impl From<FieldFault> for LiveLineFault {
    ghost from_gives = { λ fault given. given ≡ wrong.Field fault };

    fn from(fault: FieldFault) -> LiveLineFault {
        LiveLineFault::Field(fault)
    }
}

/// Why a live text isn't read on. Lines of the text are counted from 1.
#[derive(Clone, Copy, Debug)]
pub enum LiveFault {
    /// A line has a fault that lines of scripts have, the slips, the spread or the lag don't fit, or memory is short.
    Script(ScriptFault),
    /// Line `number` has a fault that lines of scripts don't have.
    Line { number: u32, fault: LiveLineFault },
}
