//! The words of the lines that say what the network is: delays, the container, windows of lines and of the return path.
ghost use Rattle.std.specs.Prelude.{◌≡◌, ◌≤◌, ◌<◌, length, IfOk, IfErr, None, Some, slice_index_or, []};
ghost use Rattle.text_lines.specs.WordsOfLine.{words, number_of};
ghost use Rattle.text_scripts.specs.script_read.Lifted.{IsStop};
ghost use Rattle.text_scripts.specs.script_read.Statements.{rest_fault, said, last_end, last_lost};
ghost use Rattle.text_scripts.specs.script_read.Statements.{is_longer, longer_fault};
ghost use Rattle.text_scripts.specs.script_read.Drafts.{IsDraft, container_fault, delays_fault};

use crate::script_read::script_draft::{Draft, Statement};
use crate::script_read::script_fault::{LineFault, LineStop};
use crate::script_read::script_keyword::Keyword;
use crate::script_read::stream_words::read_digits;
use crate::script_read::word_count_fault::count_fault;
use law_model::{
    Delays, LONGEST_DELAY, LONGEST_SLIP, LostList, MOST_PACKETS, MOST_WINDOWS, Window, WindowList,
    WindowLists,
};
use std::alloc::Global;
use text_lines::{
    FieldFault, Names, count_words, four_words, next_word, number_within, one_word, spells,
    two_words,
};

/// The container that a line names.
pub(super) fn read_container(rest: &[u8]) -> Result<Statement, LineFault>
    ensures ok { IfOk result (λ read. (container_fault (words rest.now) ≡ None)
        × (read ≡ said Keyword.Container (words rest.now))) }
    ensures err { IfErr result (λ fault. container_fault (words rest.now) ≡ Some fault) }
{
    let Some(word) = one_word(rest) else {
        return Err(count_fault(Keyword::Container, 1, rest));
    };
    if spells(word, b"vc3") {
        Ok(Statement::Container(756))
    } else if spells(word, b"vc4") {
        Ok(Statement::Container(2340))
    } else {
        Err(LineFault::Field(FieldFault::Name {
            word: 2,
            names: Names::Containers,
        }))
    }
}

/// The delays of a number of lines.
pub(super) fn read_delays(alloc: Global, rest: &[u8], lines: u8) -> Result<Statement, LineStop>
    ensures ok { IfOk result (λ read. (delays_fault lines (words rest.now) ≡ None)
        × (read ≡ said Keyword.Delays (words rest.now))) }
    ensures err { IfErr result (λ stop. IsStop stop (delays_fault lines (words rest.now))) }
{
    if count_words(rest) != usize::from(lines) {
        return Err(LineStop::Fault(count_fault(Keyword::Delays, u64::from(lines), rest)));
    }
    let mut delays = Vec::with_capacity(alloc, usize::from(lines))?;
    let mut further = rest;
    while let Some((word, later)) = next_word(further) {
        further = later;
        let delay = match number_within(word, delays.len() as u64 + 2, 0, LONGEST_DELAY) {
            Ok(delay) => delay as u16,
            Err(fault) => return Err(LineStop::Fault(LineFault::Field(fault))),
        };
        delays.push(delay)?;
    }
    Ok(Statement::Delays(Delays(delays)))
}

/// The windows of a line.
fn windows_at(lists: &WindowLists, m: u8) -> &WindowList
    requires { m < length lists.now }
    ensures { result.now ≡ slice_index_or lists.now m [] }
{
    &lists.0[usize::from(m)]
}

/// The end of the last of some windows.
fn last_end_of(list: &WindowList) -> u32
    ensures { result ≡ last_end list.now }
{
    match list.0.last() {
        Some(window) => window.end,
        None => 0,
    }
}

/// The end of the last of some return windows.
fn last_lost_of(list: &LostList) -> u32
    ensures { result ≡ last_lost list.now }
{
    match list.0.last() {
        Some(window) => window.1,
        None => 0,
    }
}

/// Whether a word says how much longer a path gets.
fn is_longer(word: &[u8]) -> bool
    ensures { result ≡ is_longer word.now }
{
    match word {
        [b'-', digits @ ..] => read_digits(digits, 10).is_some(),
        _ => false,
    }
}

/// How many containers vanish when a failure ends.
fn read_slip(word: &[u8]) -> Result<u16, LineFault>
    ensures ok { IfOk result (λ slip. (longer_fault word.now ≡ None) × (slip ≡ number_of word.now)) }
    ensures err { IfErr result (λ fault. longer_fault word.now ≡ Some fault) }
{
    if is_longer(word) {
        return Err(LineFault::LongerPath);
    }
    match number_within(word, 5, 0, LONGEST_SLIP) {
        Ok(slip) => Ok(slip as u16),
        Err(fault) => Err(LineFault::Field(fault)),
    }
}

/// A window, and the line that has it.
pub(super) fn read_fail(draft: &Draft, rest: &[u8]) -> Result<Statement, LineFault>
    requires stands { 6 ≤ draft.now.next }
    requires config { IsDraft draft.now }
    ensures ok { IfOk result (λ read. (rest_fault draft.now Keyword.Fail (words rest.now) ≡ None)
        × (read ≡ said Keyword.Fail (words rest.now))) }
    ensures err { IfErr result (λ fault.
        rest_fault draft.now Keyword.Fail (words rest.now) ≡ Some fault) }
{
    let Some((line, first, end, slip)) = four_words(rest) else {
        return Err(count_fault(Keyword::Fail, 4, rest));
    };
    let m = match number_within(line, 2, 0, u64::from(draft.config.lines) - 1) {
        Ok(m) => m as u8,
        Err(fault) => return Err(LineFault::Field(fault)),
    };
    let first = match number_within(first, 3, 0, 9_999_999_999) {
        Ok(first) => first,
        Err(fault) => return Err(LineFault::Field(fault)),
    };
    let end = match number_within(end, 4, first + 1, u64::from(draft.config.ticks)) {
        Ok(end) => end,
        Err(fault) => return Err(LineFault::Field(fault)),
    };
    let slip = match read_slip(slip) {
        Ok(slip) => slip,
        Err(fault) => return Err(fault),
    };
    let windows = windows_at(&draft.config.windows, m);
    if windows.0.len() >= MOST_WINDOWS {
        return Err(LineFault::FullLine { line: m });
    }
    let end_before = last_end_of(windows);
    if first < u64::from(end_before) {
        return Err(LineFault::FailureBefore { end: end_before });
    }
    Ok(Statement::Fail(
        m,
        Window {
            first: first as u32,
            end: end as u32,
            slip,
        },
    ))
}

/// A return window.
pub(super) fn read_lost(draft: &Draft, rest: &[u8]) -> Result<Statement, LineFault>
    ensures ok { IfOk result (λ read. (rest_fault draft.now Keyword.Lost (words rest.now) ≡ None)
        × (read ≡ said Keyword.Lost (words rest.now))) }
    ensures err { IfErr result (λ fault.
        rest_fault draft.now Keyword.Lost (words rest.now) ≡ Some fault) }
{
    let Some((first, end)) = two_words(rest) else {
        return Err(count_fault(Keyword::Lost, 2, rest));
    };
    let first = match number_within(first, 2, 0, 9_999_999_999) {
        Ok(first) => first,
        Err(fault) => return Err(LineFault::Field(fault)),
    };
    let end = match number_within(end, 3, first + 1, MOST_PACKETS) {
        Ok(end) => end,
        Err(fault) => return Err(LineFault::Field(fault)),
    };
    let lost = &draft.config.lost;
    if lost.0.len() >= MOST_WINDOWS {
        return Err(LineFault::FullPath);
    }
    let end_before = last_lost_of(lost);
    if first < u64::from(end_before) {
        return Err(LineFault::LossBefore { end: end_before });
    }
    Ok(Statement::Lost(first as u32, end as u32))
}
