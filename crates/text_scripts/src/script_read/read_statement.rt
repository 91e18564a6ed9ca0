//! A line of a script: which one it is, and what it says.
ghost use Rattle.std.specs.Prelude.{◌≡◌, ◌≤◌, ℕ, List, true, IfOk, IfErr, None, Some};
ghost use Rattle.text_lines.specs.WordsOfLine.{words, number_at};
ghost use Rattle.text_scripts.specs.script_read.Lifted.{IsStop};
ghost use Rattle.text_scripts.specs.script_read.Statements.{place, rest_fault, words_fault, words_said, said};
ghost use Rattle.text_scripts.specs.script_read.Drafts.{IsDraft, IsPlaced, one_fault};
ghost use Rattle.text_scripts.specs.script_read.Drafts.{says_number, most_of, is_plain};

use crate::script_read::item_words::{read_carry, read_due_line, read_frame};
use crate::script_read::line_place::check_place;
use crate::script_read::network_words::{read_container, read_delays, read_fail, read_lost};
use crate::script_read::option_words::read_option;
use crate::script_read::script_draft::{Draft, Statement};
use crate::script_read::script_fault::{LineFault, LineStop};
use crate::script_read::script_keyword::Keyword;
use crate::script_read::stream_words::read_stream;
use crate::script_read::word_count_fault::count_fault;
use law_model::{
    EventLine, Item, ItemKind, LARGEST_RING, LONGEST_LAG, MOST_COUNT, MOST_LINES, MOST_TICKS,
};
use std::alloc::Global;
use text_lines::{first_word, next_word, number_within, one_word};

/// The only word behind a keyword, a number from `least` to `most`.
fn one_number(keyword: Keyword, rest: &[u8], least: u64, most: u64) -> Result<u64, LineFault>
    ensures ok { IfOk result (λ n. (one_fault keyword least most (words rest.now) ≡ None)
        × (n ≡ number_at 0 (words rest.now))) }
    ensures fits { IfOk result (λ n. (least ≤ n) × (n ≤ most)) }
    ensures err { IfErr result (λ fault.
        one_fault keyword least most (words rest.now) ≡ Some fault) }
{
    let Some(word) = one_word(rest) else {
        return Err(count_fault(keyword, 1, rest));
    };
    match number_within(word, 2, least, most) {
        Ok(n) => Ok(n),
        Err(fault) => Err(LineFault::Field(fault)),
    }
}

/// The most that the number may be which stands alone behind a keyword.
fn most_of(keyword: Keyword) -> u64
    ensures { result ≡ most_of keyword }
{
    match keyword {
        Keyword::Lines => MOST_LINES as u64,
        Keyword::Ring => LARGEST_RING,
        Keyword::Lag => LONGEST_LAG,
        Keyword::Ticks => MOST_TICKS,
        _ => MOST_COUNT,
    }
}

/// What a number says that stands alone behind a keyword.
fn number_said(keyword: Keyword, n: u64) -> Statement
    requires number { says_number keyword ≡ true }
    requires most { n ≤ most_of keyword }
    ensures { (ws : List (List ℕ)) → n ≡ number_at 0 ws → result ≡ said keyword ws }
{
    match keyword {
        Keyword::Lines => Statement::Lines(n as u8),
        Keyword::Ring => Statement::Ring(n as u16),
        Keyword::Lag => Statement::Lag(n as u16),
        Keyword::Ticks => Statement::Ticks(n as u32),
        Keyword::Client => Statement::Event(EventLine::Client(n as u32)),
        Keyword::Operator => Statement::Event(EventLine::Operator(n as u32)),
        Keyword::Tick => Statement::Event(EventLine::Tick(n as u32)),
        Keyword::Back => Statement::Event(EventLine::Back(n as u32)),
        Keyword::Take => Statement::Event(EventLine::Take(n as u32)),
        Keyword::Round => Statement::Event(EventLine::Round(n as u32)),
        _ => unreachable!(),
    }
}

/// What a line says that has one number behind its keyword.
fn read_number(keyword: Keyword, rest: &[u8]) -> Result<Statement, LineFault>
    requires { says_number keyword ≡ true }
    ensures ok { (d : Draft) → IfOk result (λ read.
        (rest_fault d keyword (words rest.now) ≡ None) × (read ≡ said keyword (words rest.now))) }
    ensures err { (d : Draft) → IfErr result (λ fault.
        rest_fault d keyword (words rest.now) ≡ Some fault) }
{
    match one_number(keyword, rest, 1, most_of(keyword)) {
        Ok(n) => Ok(number_said(keyword, n)),
        Err(fault) => Err(fault),
    }
}

/// What the words after a keyword say, other than delays and frames.
fn read_plain(draft: &Draft, keyword: Keyword, rest: &[u8]) -> Result<Statement, LineFault>
    requires plain { is_plain keyword ≡ true }
    requires stands { IsPlaced draft.now.next (place keyword) }
    requires config { IsDraft draft.now }
    ensures ok { IfOk result (λ read. (rest_fault draft.now keyword (words rest.now) ≡ None)
        × (read ≡ said keyword (words rest.now))) }
    ensures err { IfErr result (λ fault.
        rest_fault draft.now keyword (words rest.now) ≡ Some fault) }
{
    match keyword {
        Keyword::Container => read_container(rest),
        Keyword::Lines
        | Keyword::Ring
        | Keyword::Lag
        | Keyword::Ticks
        | Keyword::Client
        | Keyword::Operator
        | Keyword::Tick
        | Keyword::Back
        | Keyword::Take
        | Keyword::Round => read_number(keyword, rest),
        Keyword::Sink | Keyword::Holdoff | Keyword::Restore | Keyword::Statuses => {
            read_option(draft, keyword, rest)
        }
        Keyword::Fail => read_fail(draft, rest),
        Keyword::Lost => read_lost(draft, rest),
        Keyword::Add => match read_due_line(draft, keyword, rest) {
            Ok((due, line)) => Ok(Statement::Item(Item {
                due,
                kind: ItemKind::Add(line),
            })),
            Err(fault) => Err(fault),
        },
        Keyword::Remove => match read_due_line(draft, keyword, rest) {
            Ok((due, line)) => Ok(Statement::Item(Item {
                due,
                kind: ItemKind::Remove(line),
            })),
            Err(fault) => Err(fault),
        },
        Keyword::Stream => read_stream(draft, rest),
        Keyword::Carry => read_carry(draft, rest),
        Keyword::Drain => match next_word(rest) {
            None => Ok(Statement::Event(EventLine::Drain)),
            Some(_) => Err(count_fault(Keyword::Drain, 0, rest)),
        },
        Keyword::Delays | Keyword::Frame => unreachable!(),
    }
}

/// What the words after a keyword say that stands in its place.
fn read_rest(
    alloc: Global,
    draft: &Draft,
    keyword: Keyword,
    rest: &[u8],
) -> Result<Statement, LineStop>
    requires stands { IsPlaced draft.now.next (place keyword) }
    requires config { IsDraft draft.now }
    ensures ok { IfOk result (λ read. (rest_fault draft.now keyword (words rest.now) ≡ None)
        × (read ≡ said keyword (words rest.now))) }
    ensures err { IfErr result (λ stop.
        IsStop stop (rest_fault draft.now keyword (words rest.now))) }
{
    match keyword {
        Keyword::Delays => read_delays(alloc, rest, draft.config.lines),
        Keyword::Frame => read_frame(alloc, draft, rest),
        _ => match read_plain(draft, keyword, rest) {
            Ok(said) => Ok(said),
            Err(fault) => Err(LineStop::Fault(fault)),
        },
    }
}

/// What a line says after those of a draft.
pub(super) fn read_line(alloc: Global, draft: &Draft, line: &[u8]) -> Result<Statement, LineStop>
    requires { IsDraft draft.now }
    ensures ok { IfOk result (λ read. (words_fault draft.now (words line.now) ≡ None)
        × (read ≡ words_said (words line.now))) }
    ensures err { IfErr result (λ stop. IsStop stop (words_fault draft.now (words line.now))) }
{
    let Some((word, rest)) = first_word(line) else {
        return Ok(Statement::Nothing);
    };
    let Some(keyword) = Keyword::of(word) else {
        return Err(LineStop::Fault(LineFault::First));
    };
    match check_place(draft, keyword) {
        Ok(()) => read_rest(alloc, draft, keyword, rest),
        Err(fault) => Err(LineStop::Fault(fault)),
    }
}
