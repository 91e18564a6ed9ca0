//! What is said of how to write what a script has wrong. Each text is put together in a slice with room for it.
ghost use Rattle.std.specs.Prelude.{◌≡◌, ◌≤◌, length, take};
ghost use Rattle.command_parts.specs.ScriptHelpTexts.{keyword_text, part_text, sizes_text, line_help_text};
ghost use Rattle.command_parts.specs.ScriptHelpTexts.{slip_help_text, spread_help_text};
ghost use Rattle.command_parts.specs.ScriptHelpTexts.{lag_help_text};
ghost use Rattle.text_scripts.specs.declared.script_read.script_fault.LineFault.{LineFault};

use text_help::{count_help, field_help, missing_help, number_help, order_help};
use text_report::TextCursor;
use text_scripts::script_read::{Keyword, LineFault, Part, SizesFault};

/// The words that a line may begin with.
const FIRST_WORDS: &[u8] =
    b"a line begins with one of container, lines, delays, ring, lag, ticks, sink, holdoff, restore, statuses, \
    fail, lost, frame, stream, add, remove, client, operator, tick, carry, back, take, round, drain";

/// How the slip of a failure has to be, where it says how much longer a path gets.
const LONGER_PATH: &[u8] =
    b"word 5 is a number of one to ten digits; a path that gets longer is no slip: SLIP is 0, \
    and delays has the longer delay";

/// A keyword as scripts have it.
fn keyword_word(keyword: Keyword) -> &'static [u8]
    ensures word { result.now ≡ keyword_text keyword }
    ensures short { length result.now ≤ 9 }
{
    match keyword {
        Keyword::Container => b"container",
        Keyword::Lines => b"lines",
        Keyword::Delays => b"delays",
        Keyword::Ring => b"ring",
        Keyword::Lag => b"lag",
        Keyword::Ticks => b"ticks",
        Keyword::Sink => b"sink",
        Keyword::Holdoff => b"holdoff",
        Keyword::Restore => b"restore",
        Keyword::Statuses => b"statuses",
        Keyword::Fail => b"fail",
        Keyword::Lost => b"lost",
        Keyword::Frame => b"frame",
        Keyword::Stream => b"stream",
        Keyword::Add => b"add",
        Keyword::Remove => b"remove",
        Keyword::Client => b"client",
        Keyword::Operator => b"operator",
        Keyword::Tick => b"tick",
        Keyword::Carry => b"carry",
        Keyword::Back => b"back",
        Keyword::Take => b"take",
        Keyword::Round => b"round",
        Keyword::Drain => b"drain",
    }
}

/// The lines of a part of a script.
fn part_words(part: Part) -> &'static [u8]
    ensures words { result.now ≡ part_text part }
    ensures short { length result.now ≤ 29 }
{
    match part {
        Part::Configuration => b"configuration",
        Part::Windows => b"fail and lost",
        Part::Items => b"frame, stream, add and remove",
        Part::Events => b"event lines",
    }
}

/// How the sizes of frames have to be that have this fault.
fn sizes_words(fault: SizesFault) -> &'static [u8]
    ensures words { result.now ≡ sizes_text fault }
    ensures short { length result.now ≤ 64 }
{
    match fault {
        SizesFault::Digits => b"word 2 is numbers of one to ten digits with commas between",
        SizesFault::Count => b"word 2 has 1 to 16 numbers",
        SizesFault::Range => b"each number of word 2 is from 64 to 9600",
    }
}

/// Writes a text as it is.
fn whole_help(text: &[u8], out: &mut [u8]) -> usize
    requires short { length text.now ≤ 200 }
    requires room { 200 ≤ length out.old }
    ensures within { result ≤ 200 }
    ensures text { take result out.new ≡ text.now }
{
    let mut line = TextCursor::new(out);
    line.text(text);
    line.end()
}

/// Writes in which line a line of the configuration, or an option, stands already.
fn stands_help(keyword: Keyword, number: u32, out: &mut [u8]) -> usize
    requires { 200 ≤ length out.old }
    ensures within { result ≤ 200 }
    ensures text { take result out.new ≡ line_help_text (LineFault.Stands keyword number) }
{
    let mut line = TextCursor::new(out);
    line.text(b"the line ");
    line.text(keyword_word(keyword));
    line.number(b" stands already in line ", number);
    line.end()
}

/// Writes that an option stands already.
fn twice_help(option: Keyword, out: &mut [u8]) -> usize
    requires { 200 ≤ length out.old }
    ensures within { result ≤ 200 }
    ensures text { take result out.new ≡ line_help_text (LineFault.Twice option) }
{
    let mut line = TextCursor::new(out);
    line.text(b"there is a ");
    line.text(keyword_word(option));
    line.text(b" line already");
    line.end()
}

/// Writes that a line of the group has as many failures as it may.
fn full_help(member: u8, out: &mut [u8]) -> usize
    requires { 200 ≤ length out.old }
    ensures within { result ≤ 200 }
    ensures text { take result out.new ≡ line_help_text (LineFault.FullLine member) }
{
    let mut line = TextCursor::new(out);
    line.number(b"line ", member);
    line.text(b" has 256 failures already");
    line.end()
}

/// Writes that a script has more items than it may.
fn many_help(items: u64, out: &mut [u8]) -> usize
    requires { 200 ≤ length out.old }
    ensures within { result ≤ 200 }
    ensures text { take result out.new ≡ line_help_text (LineFault.TooMany items) }
{
    let mut line = TextCursor::new(out);
    line.number(
        b"a script has at most 268435456 items, and this line brings it to ",
        items,
    );
    line.end()
}

/// Writes how a line has to be that has this fault.
pub(crate) fn line_help(fault: LineFault, out: &mut [u8]) -> usize
    requires { 200 ≤ length out.old }
    ensures within { result ≤ 200 }
    ensures text { take result out.new ≡ line_help_text fault }
{
    match fault {
        LineFault::First => whole_help(FIRST_WORDS, out),
        LineFault::Count {
            keyword,
            takes,
            follow,
        } => count_help(keyword_word(keyword), takes, follow, out),
        LineFault::Field(fault) => field_help(fault, out),
        LineFault::Sizes(fault) => whole_help(sizes_words(fault), out),
        LineFault::LongNumber => whole_help(b"word 6 is a number of one to twenty digits", out),
        LineFault::LongerPath => whole_help(LONGER_PATH, out),
        LineFault::Missing(keyword) => missing_help(keyword_word(keyword), out),
        LineFault::Part { this, begun } => order_help(part_words(this), part_words(begun), out),
        LineFault::Stands { keyword, line } => stands_help(keyword, line, out),
        LineFault::ContainerFirst => {
            whole_help(b"the line container stands before the line lines", out)
        }
        LineFault::Twice(option) => twice_help(option, out),
        LineFault::FullLine { line } => full_help(line, out),
        LineFault::FullPath => whole_help(b"there are 256 lost lines already", out),
        LineFault::TooMany { items } => many_help(items, out),
        LineFault::FailureBefore { end } => {
            number_help(b"the failure before ends at ", u64::from(end), out)
        }
        LineFault::LossBefore { end } => {
            number_help(b"the loss before ends at ", u64::from(end), out)
        }
        LineFault::FrameBefore { due } => {
            number_help(b"the frame before is due at ", u64::from(due), out)
        }
        LineFault::CommandBefore { due } => {
            number_help(b"the command before is due at ", u64::from(due), out)
        }
    }
}

/// Writes how long a failure with this slip has to be.
pub(crate) fn slip_help(slip: u16, out: &mut [u8]) -> usize
    requires { 200 ≤ length out.old }
    ensures within { result ≤ 128 }
    ensures text { take result out.new ≡ slip_help_text slip }
{
    let mut line = TextCursor::new(out);
    line.text(b"a slip of ");
    line.decimal(slip);
    line.text(b" needs a failure of at least ");
    line.decimal(u32::from(slip) + 1);
    line.text(b" frames");
    line.end()
}

/// Writes how many cells a ring has to hold.
pub(crate) fn spread_help(slow: u16, fast: u16, slip: u32, out: &mut [u8]) -> usize
    requires { 200 ≤ length out.old }
    ensures within { result ≤ 128 }
    ensures text { take result out.new ≡ spread_help_text slow fast slip }
{
    let mut line = TextCursor::new(out);
    line.number(b"delays from ", fast);
    line.number(b" to ", slow);
    line.number(b" and slips of ", slip);
    line.number(
        b" need a ring of at least ",
        u64::from(slow.saturating_sub(fast)) + u64::from(slip) + 1,
    );
    line.end()
}

/// Writes how great the lag has to be.
pub(crate) fn lag_help(slow: u16, slip: u32, least: u32, out: &mut [u8]) -> usize
    requires { 200 ≤ length out.old }
    ensures within { result ≤ 128 }
    ensures text { take result out.new ≡ lag_help_text slow slip least }
{
    let mut line = TextCursor::new(out);
    line.number(b"a delay of ", slow);
    line.number(b" and slips of ", slip);
    line.number(b" need a lag of at least ", least);
    line.end()
}
