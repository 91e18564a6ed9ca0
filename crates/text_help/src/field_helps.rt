//! The texts. Each is put together in a slice with room for it, and its length is the answer.
ghost use Rattle.std.specs.Prelude.{◌≡◌, ◌++◌, ◌≤◌, length, take, codes, decimal};
ghost use Rattle.text_lines.specs.declared.text_faults.FieldFault.{FieldFault};
ghost use Rattle.text_help.specs.LineHelpTexts.{word_text, bounds_text, field_text, count_text, missing_text};
ghost use Rattle.text_help.specs.LineHelpTexts.{order_text, takes_text, follow_text};
ghost use Rattle.text_help.specs.LineHelpTexts.{first_text, fault_text};

use text_lines::{FieldFault, LineFault, Names};
use text_report::TextCursor;

/// A word of a line, by its place, and what it is.
fn word_help(at: u64, rest: &[u8], out: &mut [u8]) -> usize
    requires short { length rest.now ≤ 80 }
    requires room { 128 ≤ length out.old }
    ensures within { result ≤ 128 }
    ensures text { take result out.new ≡ word_text at rest.now }
{
    let mut line = TextCursor::new(out);
    line.number(b"word ", at);
    line.text(rest);
    line.end()
}

/// A word that is a number within two bounds.
fn within_help(at: u64, least: u64, most: u64, out: &mut [u8]) -> usize
    requires some { least ≤ most }
    requires room { 128 ≤ length out.old }
    ensures within { result ≤ 128 }
    ensures text { take result out.new ≡ word_text at (bounds_text least most) }
{
    let mut line = TextCursor::new(out);
    line.number(b"word ", at);
    line.number(b" is from ", least);
    line.number(b" to ", most);
    line.end()
}

/// A word that is a number, of which none is above the lower bound and not above the upper one.
fn most_help(at: u64, most: u64, out: &mut [u8]) -> usize
    requires room { 128 ≤ length out.old }
    ensures within { result ≤ 128 }
    ensures text { take result out.new ≡ word_text at (codes " is at most " ++ decimal most) }
{
    let mut line = TextCursor::new(out);
    line.number(b"word ", at);
    line.number(b" is at most ", most);
    line.end()
}

/// A word that is a number.
fn range_help(at: u64, least: u64, most: u64, out: &mut [u8]) -> usize
    requires room { 128 ≤ length out.old }
    ensures within { result ≤ 128 }
    ensures text { take result out.new ≡ field_text (FieldFault.Range at least most) }
{
    if least <= most {
        within_help(at, least, most, out)
    } else {
        most_help(at, most, out)
    }
}

/// A word that says octets.
fn size_help(at: u64, least: u64, most: u64, out: &mut [u8]) -> usize
    requires room { 128 ≤ length out.old }
    ensures within { result ≤ 128 }
    ensures text { take result out.new ≡ field_text (FieldFault.Size at least most) }
{
    let mut line = TextCursor::new(out);
    line.number(b"word ", at);
    line.number(b" has ", least);
    line.number(b" to ", most);
    line.text(b" octets");
    line.end()
}

/// Writes what a word has to be that has this fault. Its place is counted from 1.
pub fn field_help(fault: FieldFault, out: &mut [u8]) -> usize
    requires room { 128 ≤ length out.old }
    ensures within { result ≤ 128 }
    ensures text { take result out.new ≡ field_text fault }
{
    match fault {
        FieldFault::Number { word } => word_help(word, b" is a number of one to ten digits", out),
        FieldFault::Hex { word } => {
            word_help(word, b" is an even number of hexadecimal digits", out)
        }
        FieldFault::Range { word, least, most } => range_help(word, least, most, out),
        FieldFault::Size { word, least, most } => size_help(word, least, most, out),
        FieldFault::Name { word, names } => match names {
            Names::Containers => word_help(word, b" is vc3 or vc4", out),
            Names::Sinks => word_help(word, b" is stops or infers", out),
            Names::Statuses => word_help(word, b" is 16 or 32", out),
        },
    }
}

/// The word behind how many words are taken.
fn takes_word(n: u64) -> &'static [u8]
    ensures word { result.now ≡ takes_text n }
    ensures short { length result.now ≤ 6 }
{
    if n == 1 { b" word" } else { b" words" }
}

/// The word behind how many follow.
fn follow_word(n: u64) -> &'static [u8]
    ensures word { result.now ≡ follow_text n }
    ensures short { length result.now ≤ 8 }
{
    if n == 1 { b" follows" } else { b" follow" }
}

/// Writes how many words a line takes behind its first one, and how many follow it.
pub fn count_help(first: &[u8], takes: u64, follow: u64, out: &mut [u8]) -> usize
    requires short { length first.now ≤ 32 }
    requires room { 128 ≤ length out.old }
    ensures within { result ≤ 128 }
    ensures text { take result out.new ≡ count_text first.now takes follow }
{
    let mut line = TextCursor::new(out);
    line.text(first);
    line.number(b" takes ", takes);
    line.text(takes_word(takes));
    line.number(b", and ", follow);
    line.text(follow_word(follow));
    line.end()
}

/// Writes which line has to stand there, by its first word.
pub fn missing_help(first: &[u8], out: &mut [u8]) -> usize
    requires short { length first.now ≤ 32 }
    requires room { 128 ≤ length out.old }
    ensures within { result ≤ 128 }
    ensures text { take result out.new ≡ missing_text first.now }
{
    let mut line = TextCursor::new(out);
    line.text(b"the line ");
    line.text(first);
    line.text(b" has to stand here");
    line.end()
}

/// Writes what stands before what.
pub fn order_help(this: &[u8], that: &[u8], out: &mut [u8]) -> usize
    requires this_short { length this.now ≤ 32 }
    requires that_short { length that.now ≤ 32 }
    requires room { 128 ≤ length out.old }
    ensures within { result ≤ 128 }
    ensures text { take result out.new ≡ order_text this.now that.now }
{
    let mut line = TextCursor::new(out);
    line.text(this);
    line.text(b" stands before ");
    line.text(that);
    line.end()
}

/// Writes a text and the number that it ends with.
pub fn number_help(text: &[u8], n: u64, out: &mut [u8]) -> usize
    requires short { length text.now ≤ 64 }
    requires room { 128 ≤ length out.old }
    ensures within { result ≤ 128 }
    ensures text { take result out.new ≡ text.now ++ decimal n }
{
    let mut line = TextCursor::new(out);
    line.text(text);
    line.decimal(n);
    line.end()
}

/// What the lines of a language begin with.
pub trait LineWords: Copy {
    ghost use Rattle.std.specs.Prelude.{ℕ, List, ◌≡◌, ◌≤◌, length};

    /// The word of a keyword.
    ghost text: { Self → List ℕ };

    /// The words of all keywords, one after another.
    ghost all: { List ℕ };

    /// The word of a keyword.
    fn word(self) -> &'static [u8]
        ensures word { result.now ≡ text self }
        ensures short { length result.now ≤ 32 };

    /// The words of all keywords, one after another.
    fn all_words() -> &'static [u8]
        ensures words { result.now ≡ all }
        ensures short { length result.now ≤ 64 };
}

/// What can be wrong with a line of one language alone.
pub trait OwnFault: Copy {
    ghost use Rattle.std.specs.Prelude.{ℕ, List, ◌≡◌, ◌≤◌, length, take};

    /// What is said of how to write the line.
    ghost told: { Self → List ℕ };

    /// Writes how the line has to be.
    fn help(self, out: &mut [u8]) -> usize
        requires { 128 ≤ length out.old }
        ensures within { result ≤ 128 }
        ensures text { take result out.new ≡ told self };
}

/// Writes which words begin a line.
fn first_help(all: &[u8], out: &mut [u8]) -> usize
    requires short { length all.now ≤ 64 }
    requires room { 128 ≤ length out.old }
    ensures within { result ≤ 128 }
    ensures text { take result out.new ≡ first_text all.now }
{
    let mut line = TextCursor::new(out);
    line.text(b"a line begins with one of ");
    line.text(all);
    line.end()
}

/// Writes how a line has to be that has this fault.
pub fn line_help<K: LineWords, O: OwnFault>(fault: LineFault<K, O>, out: &mut [u8]) -> usize
    requires room { 128 ≤ length out.old }
    ensures within { result ≤ 128 }
    ensures text { take result out.new ≡ fault_text K.text K.all O.told fault }
{
    match fault {
        LineFault::First => first_help(K::all_words(), out),
        LineFault::Count {
            keyword,
            takes,
            follow,
        } => count_help(keyword.word(), takes, follow, out),
        LineFault::Field(fault) => field_help(fault, out),
        LineFault::Missing(keyword) => missing_help(keyword.word(), out),
        LineFault::Order { this, before } => order_help(this.word(), before.word(), out),
        LineFault::Own(fault) => fault.help(out),
    }
}
