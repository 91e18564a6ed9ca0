//! What can be wrong with a script.
ghost use Rattle.std.specs.Prelude.{◌≡◌};
ghost use Rattle.text_scripts.specs.declared.script_read.script_fault.LineFault.TheVariants as wrong;
ghost use Rattle.text_scripts.specs.declared.script_read.script_fault.LineStop.TheVariants as stop;
ghost use Rattle.text_scripts.specs.script_read.Lifted.{lifted};

use crate::script_read::script_keyword::{Keyword, Part};
use std::alloc::{AllocError, AllocFailed};
use text_lines::{FieldFault, FieldStop};
use thiserror::Error;

/// What is wrong with the sizes of the frames of a stream.
#[derive(Clone, Copy, Debug)]
pub enum SizesFault {
    /// One of them isn't one to ten decimal digits.
    Digits,
    /// There are more than 16 of them.
    Count,
    /// One of them isn't from 64 to 9,600.
    Range,
}

/// What is wrong with a line of a script, with what can be said of how to write it.
#[derive(Clone, Copy, Debug)]
pub enum LineFault {
    /// The first word is none that begins a line.
    First,
    /// Behind `keyword`, which takes `takes` words, there are `follow` of them.
    Count {
        keyword: Keyword,
        takes: u64,
        follow: u64,
    },
    /// A word isn't what it has to be.
    Field(FieldFault),
    /// Word 2 doesn't say the sizes of frames.
    Sizes(SizesFault),
    /// Word 6 isn't a number of one to twenty decimal digits.
    LongNumber,
    /// Word 5 of a failure says by a minus how much longer a path gets.
    LongerPath,
    /// This line of the configuration has to stand here.
    Missing(Keyword),
    /// The line is of the part `this`, which stands before `begun`, which has begun.
    Part {
        this: Part,
        begun: Part,
    },
    /// The line of the configuration, or the option, stands already in line `line`, and a later part has begun.
    Stands {
        keyword: Keyword,
        line: u32,
    },
    /// The container stands behind the configuration, which has none.
    ContainerFirst,
    /// The option stands already.
    Twice(Keyword),
    /// Line `line` of the group has 256 failures already.
    FullLine {
        line: u8,
    },
    /// The return path has 256 losses already.
    FullPath,
    /// With this line there are `items` items, which are too many.
    TooMany {
        items: u64,
    },
    /// A failure begins before the one before it of its line has ended, in tick `end`.
    FailureBefore {
        end: u32,
    },
    /// A loss begins before the one before it has ended, at return packet `end`.
    LossBefore {
        end: u32,
    },
    /// A frame is due before the frame before it, which is due in tick `due`.
    FrameBefore {
        due: u32,
    },
    /// A command is due before the command before it, which is due in tick `due`.
    CommandBefore {
        due: u32,
    },
}

/// Why a line wasn't read.
#[derive(Clone, Copy)]
pub(super) enum LineStop {
    /// It has a fault.
    Fault(LineFault),
    /// There was no memory.
    Memory,
}

impl From<FieldFault> for LineFault {
    ghost from_gives = { λ fault given. given ≡ wrong.Field fault };

    fn from(fault: FieldFault) -> LineFault {
        LineFault::Field(fault)
    }
}

impl From<LineFault> for LineStop {
    ghost from_gives = { λ fault given. given ≡ stop.Fault fault };

    fn from(fault: LineFault) -> LineStop {
        LineStop::Fault(fault)
    }
}

impl From<FieldFault> for LineStop {
    ghost from_gives = { λ fault given. given ≡ stop.Fault (wrong.Field fault) };

    fn from(fault: FieldFault) -> LineStop {
        LineStop::Fault(LineFault::Field(fault))
    }
}

impl From<FieldStop> for LineStop {
    ghost from_gives = { λ why given. given ≡ lifted why };

    fn from(why: FieldStop) -> LineStop {
        match why {
            FieldStop::Fault(fault) => LineStop::Fault(LineFault::Field(fault)),
            FieldStop::Memory => LineStop::Memory,
        }
    }
}

impl From<AllocError> for LineStop {
    ghost from_gives = { λ _ given. given ≡ stop.Memory };

    fn from(_: AllocError) -> LineStop {
        LineStop::Memory
    }
}

impl<T: Drop> From<AllocFailed<T>> for LineStop {
    ghost from_gives = { λ _ given. given ≡ stop.Memory };

    fn from(_failed: AllocFailed<T>) -> LineStop {
        LineStop::Memory
    }
}

/// Why a text gives no script. Lines of the text are counted from 1; lines of the group and their windows from 0.
#[derive(Clone, Copy, Debug, Error)]
pub enum ScriptFault {
    /// Line `number` is the first faulty one.
    #[error("line {number} is faulty")]
    Line {
        number: u32,
        fault: LineFault,
    },
    /// Window `window` of line `line` lets `slip` containers vanish, which is as many as it damages, or more.
    #[error("window {window} of line {line} lets {slip} containers vanish")]
    Slip {
        line: u8,
        window: u16,
        slip: u16,
    },
    /// A ring of `ring` cells can't hold what lies between the delays `slow` and `fast`, in frames, and the
    /// greatest slip.
    #[error("delays from {fast} to {slow} and slips of {slip} don't fit a ring of {ring}")]
    Spread {
        slow: u16,
        fast: u16,
        slip: u32,
        ring: u16,
    },
    /// The lag is below the least one that the delay `slow` and the greatest slip allow, in packets.
    #[error("a lag of {lag} is below {least}")]
    Lag {
        lag: u16,
        least: u32,
        slow: u16,
        slip: u32,
    },
    /// There was no memory.
    #[error("memory is short")]
    Memory,
}
