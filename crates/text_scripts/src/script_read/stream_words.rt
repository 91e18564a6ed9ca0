//! The words of a stream: the sizes of its frames, how fast and when they come, and the number they are drawn from.
ghost use Rattle.std.specs.Prelude.{◌≡◌, ◌≤◌, ◌<◌, ◌∷◌, [], length, true, false};
ghost use Rattle.std.specs.Prelude.{IfSome, IfNone, IfOk, IfErr, None, Some};
ghost use Rattle.std.specs.List.{list_all};
ghost use Rattle.law_rates.specs.Limits.{most_sizes};
ghost use Rattle.text_lines.specs.WordsOfLine.{words, is_number, number_of};
ghost use Rattle.text_scripts.specs.script_read.Statements.{rest_fault, said};
ghost use Rattle.text_scripts.specs.script_read.Statements.{parts_of, sizes_of, sizes_fault, is_size};
ghost use Rattle.text_scripts.specs.script_read.Statements.{are_digits, long_fault, rate_in};
ghost use Rattle.text_scripts.specs.script_read.Drafts.{IsDraft, rate_fault};

use crate::script_read::item_words::check_room;
use crate::script_read::script_draft::{Draft, Statement};
use crate::script_read::script_fault::{LineFault, SizesFault};
use crate::script_read::script_keyword::Keyword;
use crate::script_read::word_count_fault::count_fault;
use law_model::LONGEST_FRAME;
use law_rates::{MOST_SIZES, Rate, Sizes, count};
use text_lines::{FieldFault, cut, four_words, next_word, number_within};

/// The most megabits a second.
const MOST_MBITS: u64 = 400_000;

/// The shortest frame.
const SHORTEST_FRAME: u64 = 64;

/// The first part of a word that has commas, or all of it, and what stands behind that comma.
fn next_part(word: &[u8]) -> (&[u8], Option<&[u8]>)
    ensures more { IfSome result.1 (λ later.
        parts_of word.now ≡ result.0.now ∷ parts_of later.now) }
    ensures moves { IfSome result.1 (λ later. length later.now < length word.now) }
    ensures last { IfNone result.1 (parts_of word.now ≡ result.0.now ∷ []) }
{
    match cut(word, b',') {
        Some((part, later)) => (part, Some(later)),
        None => (word, None),
    }
}

/// The value of so many decimal digits, or fewer, but one.
pub(super) fn read_digits(word: &[u8], most: usize) -> Option<u128>
    requires { most ≤ 20 }
    ensures some { IfSome result (λ n.
        (are_digits most word.now ≡ true) × (n ≡ number_of word.now)) }
    ensures none { IfNone result (are_digits most word.now ≡ false) }
{
    if word.is_empty() || word.len() > most {
        return None;
    }
    let mut n = 0u128;
    for c in word {
        if !c.is_ascii_digit() {
            return None;
        }
        n = 10 * n + u128::from(*c - b'0');
    }
    Some(n)
}

/// How many parts a word has, where each is one to ten digits.
fn count_numbers(word: &[u8]) -> Option<usize>
    ensures some { IfSome result (λ n. (list_all is_number (parts_of word.now) ≡ true)
        × (n ≡ length (parts_of word.now))) }
    ensures none { IfNone result (list_all is_number (parts_of word.now) ≡ false) }
{
    let mut rest = word;
    let mut count = 0;
    loop {
        let (part, later) = next_part(rest);
        if read_digits(part, 10).is_none() {
            return None;
        }
        count += 1;
        match later {
            Some(behind) => rest = behind,
            None => return Some(count),
        }
    }
}

/// The size that a number is.
fn size_of(part: &[u8]) -> Option<u16>
    requires { is_number part.now ≡ true }
    ensures some { IfSome result (λ n.
        (is_size (number_of part.now) ≡ true) × (n ≡ number_of part.now)) }
    ensures none { IfNone result (is_size (number_of part.now) ≡ false) }
{
    match number_within(part, 2, SHORTEST_FRAME, LONGEST_FRAME as u64) {
        Ok(size) => Some(size as u16),
        Err(_) => None,
    }
}

/// The sizes of a word whose parts are numbers, where each is one.
fn ranged_sizes(word: &[u8]) -> Option<Sizes>
    requires numbers { list_all is_number (parts_of word.now) ≡ true }
    requires few { length (parts_of word.now) ≤ most_sizes }
    ensures some { IfSome result (λ sizes.
        (list_all is_size (sizes_of word.now) ≡ true) × (sizes ≡ sizes_of word.now)) }
    ensures none { IfNone result (list_all is_size (sizes_of word.now) ≡ false) }
{
    let mut sizes = Sizes::new();
    let mut rest = word;
    loop {
        let (part, later) = next_part(rest);
        let Some(size) = size_of(part) else {
            return None;
        };
        sizes.push(size);
        match later {
            Some(behind) => rest = behind,
            None => return Some(sizes),
        }
    }
}

/// The sizes of a word.
fn read_sizes(word: &[u8]) -> Result<Sizes, SizesFault>
    ensures ok { IfOk result (λ sizes.
        (sizes_fault word.now ≡ None) × (sizes ≡ sizes_of word.now)) }
    ensures err { IfErr result (λ fault. sizes_fault word.now ≡ Some fault) }
{
    let Some(count) = count_numbers(word) else {
        return Err(SizesFault::Digits);
    };
    if count > MOST_SIZES {
        return Err(SizesFault::Count);
    }
    match ranged_sizes(word) {
        Some(sizes) => Ok(sizes),
        None => Err(SizesFault::Range),
    }
}

/// A number of one to twenty digits, below 2^64.
fn read_long(word: &[u8]) -> Result<u64, LineFault>
    ensures ok { IfOk result (λ n. (long_fault word.now ≡ None) × (n ≡ number_of word.now)) }
    ensures err { IfErr result (λ fault. long_fault word.now ≡ Some fault) }
{
    let Some(n) = read_digits(word, 20) else {
        return Err(LineFault::LongNumber);
    };
    if n > u128::from(u64::MAX) {
        return Err(LineFault::Field(FieldFault::Range {
            word: 6,
            least: 0,
            most: u64::MAX,
        }));
    }
    Ok(n as u64)
}

/// The rate of five words.
fn read_rate(draft: &Draft, rest: &[u8]) -> Result<Rate, LineFault>
    requires stands { 6 ≤ draft.now.next }
    requires config { IsDraft draft.now }
    ensures ok { IfOk result (λ rate. (rate_fault draft.now (words rest.now) ≡ None)
        × (rate ≡ rate_in (words rest.now))) }
    ensures err { IfErr result (λ fault. rate_fault draft.now (words rest.now) ≡ Some fault) }
{
    let Some((sizes, others)) = next_word(rest) else {
        return Err(count_fault(Keyword::Stream, 5, rest));
    };
    let Some((mbits, first, end, number)) = four_words(others) else {
        return Err(count_fault(Keyword::Stream, 5, rest));
    };
    let sizes = match read_sizes(sizes) {
        Ok(sizes) => sizes,
        Err(fault) => return Err(LineFault::Sizes(fault)),
    };
    let mbits = number_within(mbits, 3, 1, MOST_MBITS)?;
    let first = number_within(first, 4, 0, 9_999_999_999)?;
    let end = number_within(end, 5, first + 1, u64::from(draft.config.ticks))?;
    let number = read_long(number)?;
    Ok(Rate {
        sizes,
        mbits: mbits as u32,
        first: first as u32,
        end: end as u32,
        number,
    })
}

/// Frames at a rate.
pub(super) fn read_stream(draft: &Draft, rest: &[u8]) -> Result<Statement, LineFault>
    requires stands { 6 ≤ draft.now.next }
    requires config { IsDraft draft.now }
    ensures ok { IfOk result (λ read. (rest_fault draft.now Keyword.Stream (words rest.now) ≡ None)
        × (read ≡ said Keyword.Stream (words rest.now))) }
    ensures err { IfErr result (λ fault.
        rest_fault draft.now Keyword.Stream (words rest.now) ≡ Some fault) }
{
    let rate = read_rate(draft, rest)?;
    check_room(draft, count(&rate))?;
    if rate.first < draft.frame_due {
        return Err(LineFault::FrameBefore {
            due: draft.frame_due,
        });
    }
    Ok(Statement::Stream(rate))
}
