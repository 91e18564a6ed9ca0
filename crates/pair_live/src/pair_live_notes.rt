//! The notes on what is wrong with a live text of both ways.
ghost use Rattle.std.specs.Prelude.{◌≡◌, ◌≢◌, ◌≤◌, length, take};
ghost use Rattle.command_parts.specs.Common.{IsRefusedAs};
ghost use Rattle.pair_live.specs.PairNotes.{live_pair_fault_text, live_pair_why, pair_line_help};
ghost use Rattle.pair_live.specs.PairReaderStands.{no_pair_memory};

use crate::live_pair_fault::{LivePairFault, PairLineFault};
use command_parts::{Stop, line_fault};
use text_help::count_help;
use text_live::{keyword_word, live_help};
use text_pairs::stop_of_pair;
use text_report::TextCursor;

/// Room for what is said of how to write a line.
const HELP_ROOM: usize = 192;

/// Writes which words name a way.
fn way_help(out: &mut [u8]) -> usize
    requires { 192 ≤ length out.old }
    ensures within { result ≤ 192 }
    ensures text { take result out.new ≡ pair_line_help PairLineFault.Way }
{
    let mut line = TextCursor::new(out);
    line.text(b"word 2 is there or back");
    line.end()
}

/// Writes how a live line has to be that has this fault, in at most 192 octets.
fn pair_help(fault: PairLineFault, out: &mut [u8]) -> usize
    requires { 192 ≤ length out.old }
    ensures within { result ≤ 192 }
    ensures text { take result out.new ≡ pair_line_help fault }
{
    match fault {
        PairLineFault::Live(fault) => live_help(fault, out),
        PairLineFault::Count { keyword, follow } => {
            count_help(keyword_word(keyword), 2, follow, out)
        }
        PairLineFault::Way => way_help(out),
    }
}

/// Why a fault stops a conversation.
pub(crate) fn stop_of_live_pair(fault: LivePairFault) -> Stop
    ensures refused { fault ≢ no_pair_memory →
        IsRefusedAs (live_pair_why fault) (live_pair_fault_text fault) result }
    ensures short { fault ≡ no_pair_memory → result ≡ Stop.Memory }
{
    match fault {
        LivePairFault::Pair(fault) => stop_of_pair(fault),
        LivePairFault::Line { number, fault } => {
            let mut help = [0u8; HELP_ROOM];
            let end = pair_help(fault, &mut help);
            Stop::Refused(line_fault(u64::from(number), fault.kind(), &help[..end]))
        }
    }
}
