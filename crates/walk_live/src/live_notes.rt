//! The notes on what is wrong with a live text.
ghost use Rattle.std.specs.Prelude.{◌≡◌, ◌≢◌};
ghost use Rattle.command_parts.specs.Common.{IsRefusedAs};
ghost use Rattle.text_live.specs.LiveReaderStands.{no_memory};
ghost use Rattle.walk_live.specs.Notes.{live_fault_text, live_why};

use command_parts::{Stop, line_fault, stop_of};
use text_live::{LiveFault, live_help};

/// Room for what is said of how to write a line.
const HELP_ROOM: usize = 192;

/// Why a fault stops a conversation.
pub(crate) fn stop_of_live(fault: LiveFault) -> Stop
    ensures refused { fault ≢ no_memory →
        IsRefusedAs (live_why fault) (live_fault_text fault) result }
    ensures short { fault ≡ no_memory → result ≡ Stop.Memory }
{
    match fault {
        LiveFault::Script(fault) => stop_of(fault),
        LiveFault::Line { number, fault } => {
            let mut help = [0u8; HELP_ROOM];
            let end = live_help(fault, &mut help);
            Stop::Refused(line_fault(u64::from(number), fault.kind(), &help[..end]))
        }
    }
}
