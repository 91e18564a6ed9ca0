//! Languages of lines that are tables: a text is read line by line.
ghost use Rattle.std.specs.Prelude.{◌≡◌, ◌≤◌, length, IfOk, IfErr, OnOk, Ok, None, Some};
ghost use Rattle.text_lines.specs.WordsOfLine.{words, number_at};
ghost use Rattle.text_lines.specs.LineFaults.{IsLineStop, IsTextFault};
ghost use Rattle.text_lines.specs.LanguageTable.{told, next_after, place_fault, words_fault, words_after};
ghost use Rattle.text_lines.specs.LanguageTable.{one_fault, said_in};
ghost use Rattle.text_lines.specs.declared.text_faults.LineFault.TheVariants as wrong;

use crate::read_fields::number_within;
use crate::split_text::next_line;
use crate::split_words::{count_words, first_word, one_word};
use crate::text_faults::{LineFault, LineStop, TextFault};
use std::alloc::Global;

/// What the lines of a text say so far, in a language of lines that is a table.
pub trait LineTable: Drop {
    /// The words that may begin a line.
    type Keyword: Copy;
    /// What can be wrong with a line in this language alone.
    type Own: Copy;

    ghost use Rattle.std.specs.Prelude.{◌≡◌, IfErr, OnOk, None};
    ghost use Rattle.text_lines.specs.WordsOfLine.{words};
    ghost use Rattle.text_lines.specs.LineFaults.{IsLineStop};
    ghost use Rattle.text_lines.specs.LanguageTable.{Table, rest_fault};

    /// The language.
    ghost table: { Table Self Self.Keyword Self.Own };

    /// What is said before the first line.
    fn at_start(alloc: Global) -> Self
        ensures { result ≡ table.first };

    /// The keyword that a word is.
    fn keyword(word: &[u8]) -> Option<Self::Keyword>
        ensures { result ≡ table.keyword word.now };

    /// The place of its lines.
    fn place(keyword: Self::Keyword) -> u64
        ensures { result ≡ table.place keyword };

    /// How many lines have to be there.
    fn must() -> u64
        ensures { result ≡ table.must };

    /// The keyword of the line that has to be at a place.
    fn awaited(next: u64) -> Self::Keyword
        ensures { result ≡ table.awaited next };

    /// Adds what the words behind a keyword say.
    fn add(
        &mut self,
        alloc: Global,
        keyword: Self::Keyword,
        rest: &[u8],
    ) -> Result<(), LineStop<Self::Keyword, Self::Own>>
        ensures sound { OnOk result (rest_fault table self.old keyword (words rest.now) ≡ None) }
        ensures adds { OnOk result (self.new ≡ table.after self.old keyword (words rest.now)) }
        ensures err { IfErr result (λ stop.
            IsLineStop stop (rest_fault table self.old keyword (words rest.now))) };
}

/// What is wrong where other than so many words follow a keyword.
pub fn count_fault<K: Copy, O: Copy>(keyword: K, takes: u64, rest: &[u8]) -> LineFault<K, O>
    ensures { result ≡ wrong.Count keyword takes (length (words rest.now)) }
{
    LineFault::Count {
        keyword,
        takes,
        follow: count_words(rest) as u64,
    }
}

/// The only word behind a keyword, a number from `least` to `most`.
pub fn one_number<K: Copy, O: Copy>(
    keyword: K,
    rest: &[u8],
    least: u64,
    most: u64,
) -> Result<u64, LineFault<K, O>>
    ensures ok { IfOk result (λ n. (one_fault {O = O} keyword least most (words rest.now) ≡ None)
        × (n ≡ number_at 0 (words rest.now))) }
    ensures fits { IfOk result (λ n. (least ≤ n) × (n ≤ most)) }
    ensures err { IfErr result (λ fault.
        one_fault keyword least most (words rest.now) ≡ Some fault) }
{
    let Some(word) = one_word(rest) else {
        return Err(count_fault(keyword, 1, rest));
    };
    match number_within(word, 2, least, most) {
        Ok(n) => Ok(n),
        Err(fault) => Err(LineFault::Field(fault)),
    }
}

/// The place from which on the next line may stand.
fn next_after<D: LineTable>(last: Option<D::Keyword>) -> u64
    ensures { result ≡ next_after D.table last }
{
    let Some(keyword) = last else {
        return 0;
    };
    let at = D::place(keyword);
    if at < D::must() { at + 1 } else { at }
}

/// Tests whether a line may stand behind the last one.
fn check_place<D: LineTable>(
    last: Option<D::Keyword>,
    keyword: D::Keyword,
) -> Result<(), LineFault<D::Keyword, D::Own>>
    ensures ok { OnOk result (place_fault D.table last keyword ≡ None) }
    ensures err { IfErr result (λ fault. place_fault D.table last keyword ≡ Some fault) }
{
    let next = next_after::<D>(last);
    let at = D::place(keyword);
    if next < D::must() && at != next {
        return Err(LineFault::Missing(D::awaited(next)));
    }
    let Some(before) = last else {
        return Ok(());
    };
    if at < next {
        return Err(LineFault::Order {
            this: keyword,
            before,
        });
    }
    Ok(())
}

/// Adds what a line says.
fn read_line<D: LineTable>(
    alloc: Global,
    draft: &mut D,
    last: &mut Option<D::Keyword>,
    line: &[u8],
) -> Result<(), LineStop<D::Keyword, D::Own>>
    ensures sound { OnOk result
        (words_fault D.table (told draft.old last.old) (words line.now) ≡ None) }
    ensures adds { OnOk result (told draft.new last.new
        ≡ words_after D.table (told draft.old last.old) (words line.now)) }
    ensures err { IfErr result (λ stop. IsLineStop stop
        (words_fault D.table (told draft.old last.old) (words line.now))) }
{
    let Some((word, rest)) = first_word(line) else {
        return Ok(());
    };
    let Some(keyword) = D::keyword(word) else {
        return Err(LineStop::Fault(LineFault::First));
    };
    if let Err(fault) = check_place::<D>(*last, keyword) {
        return Err(LineStop::Fault(fault));
    }
    match draft.add(alloc, keyword, rest) {
        Ok(()) => {
            *last = Some(keyword);
            Ok(())
        }
        Err(stop) => Err(stop),
    }
}

/// What a text says. Else its first fault: that of the first faulty line. Want of memory may come in place of any
/// answer.
pub fn read_text<D: LineTable>(
    alloc: Global,
    text: &[u8],
) -> Result<D, TextFault<D::Keyword, D::Own>>
    requires { length text.now ≤ 4294967295 }
    ensures ok { IfOk result (λ draft. said_in D.table text.now ≡ Ok draft) }
    ensures err { IfErr result (λ fault. IsTextFault (said_in D.table text.now) fault) }
{
    let mut draft = D::at_start(alloc);
    let mut last = None;
    let mut rest = text;
    let mut number = 1;
    while let Some((line, later)) = next_line(rest) {
        rest = later;
        match read_line(alloc, &mut draft, &mut last, line) {
            Ok(()) => number += 1,
            Err(stop) => return Err(stop.at(number)),
        }
    }
    let next = next_after::<D>(last);
    let must = D::must();
    if next < must {
        return Err(TextFault::Line {
            number,
            fault: LineFault::Missing(D::awaited(next)),
        });
    }
    Ok(draft)
}
