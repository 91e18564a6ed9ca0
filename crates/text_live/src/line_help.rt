//! What is said of how to write a live line that is faulty, put together in a slice with room for it.
ghost use Rattle.std.specs.Prelude.{◌≡◌, ◌++◌, ◌≤◌, length, take, codes, decimal};
ghost use Rattle.text_live.specs.LiveHelpTexts.{keyword_text, part_text, live_help_text};

use crate::live_fault::LiveLineFault;
use crate::live_keyword::{EarlierPart, LiveKeyword};
use text_help::{count_help, field_help, number_help, order_help};
use text_report::TextCursor;

/// The words that a line may begin with.
const ALL_WORDS: &[u8] =
    b"container, lines, delays, ring, lag, ticks, sink, holdoff, restore, statuses, fail, lost, \
    frame, add, remove, cut, mend, pass";

/// A keyword as texts have it.
pub fn keyword_word(keyword: LiveKeyword) -> &'static [u8]
    ensures word { result.now ≡ keyword_text keyword }
    ensures short { length result.now ≤ 6 }
{
    match keyword {
        LiveKeyword::Frame => b"frame",
        LiveKeyword::Add => b"add",
        LiveKeyword::Remove => b"remove",
        LiveKeyword::Cut => b"cut",
        LiveKeyword::Mend => b"mend",
        LiveKeyword::Pass => b"pass",
    }
}

/// The lines of a part of a script.
fn part_words(part: EarlierPart) -> &'static [u8]
    ensures words { result.now ≡ part_text part }
    ensures short { length result.now ≤ 13 }
{
    match part {
        EarlierPart::Configuration => b"configuration",
        EarlierPart::Windows => b"fail and lost",
    }
}

/// Writes a text as it is.
fn whole_help(text: &[u8], out: &mut [u8]) -> usize
    requires short { length text.now ≤ 192 }
    requires room { 192 ≤ length out.old }
    ensures within { result ≤ 192 }
    ensures text { take result out.new ≡ text.now }
{
    let mut line = TextCursor::new(out);
    line.text(text);
    line.end()
}

/// Writes which words begin a line.
fn first_help(out: &mut [u8]) -> usize
    requires { 192 ≤ length out.old }
    ensures within { result ≤ 192 }
    ensures text { take result out.new ≡ live_help_text LiveLineFault.First }
{
    let mut line = TextCursor::new(out);
    line.text(b"a line begins with one of ");
    line.text(ALL_WORDS);
    line.end()
}

/// Writes what a line of the group is.
fn member_help(member: u8, what: &[u8], out: &mut [u8]) -> usize
    requires short { length what.now ≤ 64 }
    requires room { 192 ≤ length out.old }
    ensures within { result ≤ 192 }
    ensures text { take result out.new ≡ codes "line " ++ decimal member ++ what.now }
{
    let mut line = TextCursor::new(out);
    line.number(b"line ", member);
    line.text(what);
    line.end()
}

/// Writes how a live line has to be that has this fault, in at most 192 octets.
pub fn live_help(fault: LiveLineFault, out: &mut [u8]) -> usize
    requires { 192 ≤ length out.old }
    ensures within { result ≤ 192 }
    ensures text { take result out.new ≡ live_help_text fault }
{
    match fault {
        LiveLineFault::First => first_help(out),
        LiveLineFault::Count { keyword, follow } => {
            count_help(keyword_word(keyword), 1, follow, out)
        }
        LiveLineFault::Field(fault) => field_help(fault, out),
        LiveLineFault::Behind(part) => order_help(part_words(part), b"live lines", out),
        LiveLineFault::FullLine { line } => member_help(line, b" has 256 failures already", out),
        LiveLineFault::LastTick => whole_help(b"the last tick has passed", out),
        LiveLineFault::CutAlready { line } => member_help(line, b" is cut already", out),
        LiveLineFault::FailureBefore { end } => {
            number_help(b"the failure before ends at ", u64::from(end), out)
        }
        LiveLineFault::NotCut { line } => member_help(line, b" isn't cut", out),
    }
}
