//! What the calls of a group answer.

ghost use Rattle.std.specs.Prelude.{◌≡◌};
ghost use Rattle.thread_group.specs.SubmitFaults.{fault_of};

use law_model::Refusal;
use terminal_source::source_core::{AcceptFault, CommandFault};

/// Why an item isn't accepted.
#[derive(Clone, Copy, Debug, PartialEq, Eq)]
pub enum SubmitFault {
    /// It isn't the next of its kind, which has this number, if there is one.
    NotNext { next: Option<u32> },
    /// It isn't due: only so many ticks are made.
    Early { now: u32 },
    /// It has landed, and is a frame that is refused.
    Frame(AcceptFault),
    /// It has landed, and is a command that is refused.
    Command(CommandFault),
    /// The source would take it, but the journal has no entry left for it, or too few octets: this is what is left.
    JournalFull { entries: u32, bytes: u64 },
}

/// What came of a tick.
#[derive(Clone, Copy, Debug, PartialEq, Eq)]
pub enum TickAnswer {
    /// A container was pushed for each line.
    Ticked,
    /// An item that is due now hasn't landed; it is the one of the least number.
    Held { item: u32 },
    /// The look found no slot in the send ring of this line, the first such.
    TxFull { line: u8 },
    /// The return cell that is needed, of this number, hasn't come, and the look found none.
    BackMissing { packet: u32 },
    /// All ticks were made before.
    Done,
}

/// The answer for an item that has landed and is refused.
pub(crate) fn refused(why: Refusal) -> SubmitFault
    ensures { result ≡ fault_of why }
{
    match why {
        Refusal::Frame(fault) => SubmitFault::Frame(fault),
        Refusal::Command(fault) => SubmitFault::Command(fault),
    }
}
