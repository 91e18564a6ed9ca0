//! The words of options: what the sink does, the two timers, and how many return packets tell all statuses.
ghost use Rattle.std.specs.Prelude.{◌≡◌, ◌≤◌, IfOk, IfErr, None, Some};
ghost use Rattle.text_lines.specs.WordsOfLine.{words, word_at, number_at};
ghost use Rattle.text_scripts.specs.script_read.Statements.{place, rest_fault, said, infers_of, statuses_of};
ghost use Rattle.text_scripts.specs.script_read.Drafts.{sink_fault, timer_fault, statuses_fault};

use crate::script_read::script_draft::{Draft, Statement};
use crate::script_read::script_fault::LineFault;
use crate::script_read::script_keyword::Keyword;
use crate::script_read::word_count_fault::count_fault;
use law_model::{LONGEST_HOLDOFF, LONGEST_RESTORE};
use text_lines::{FieldFault, Names, number_within, one_word, spells};

/// Whether the sink goes on without some control packets, where no line says it already.
fn read_sink(rest: &[u8], stands: bool) -> Result<bool, LineFault>
    ensures ok { IfOk result (λ infers. (sink_fault stands (words rest.now) ≡ None)
        × (infers_of (word_at 0 (words rest.now)) ≡ Some infers)) }
    ensures err { IfErr result (λ fault. sink_fault stands (words rest.now) ≡ Some fault) }
{
    let Some(word) = one_word(rest) else {
        return Err(count_fault(Keyword::Sink, 1, rest));
    };
    let infers = if spells(word, b"stops") {
        false
    } else if spells(word, b"infers") {
        true
    } else {
        return Err(LineFault::Field(FieldFault::Name {
            word: 2,
            names: Names::Sinks,
        }));
    };
    if stands {
        return Err(LineFault::Twice(Keyword::Sink));
    }
    Ok(infers)
}

/// The packets of a timer, up to `most`, where its option doesn't stand already.
fn read_timer(keyword: Keyword, rest: &[u8], most: u64, stands: bool) -> Result<u64, LineFault>
    ensures ok { IfOk result (λ n. (timer_fault keyword most stands (words rest.now) ≡ None)
        × (n ≡ number_at 0 (words rest.now))) }
    ensures fits { IfOk result (λ n. n ≤ most) }
    ensures err { IfErr result (λ fault.
        timer_fault keyword most stands (words rest.now) ≡ Some fault) }
{
    let Some(word) = one_word(rest) else {
        return Err(count_fault(keyword, 1, rest));
    };
    let packets = match number_within(word, 2, 0, most) {
        Ok(packets) => packets,
        Err(fault) => return Err(LineFault::Field(fault)),
    };
    if stands {
        return Err(LineFault::Twice(keyword));
    }
    Ok(packets)
}

/// How many return packets tell all statuses, where no line says it already.
fn read_statuses(rest: &[u8], stands: bool) -> Result<u8, LineFault>
    ensures ok { IfOk result (λ n. (statuses_fault stands (words rest.now) ≡ None)
        × (statuses_of (word_at 0 (words rest.now)) ≡ Some n)) }
    ensures err { IfErr result (λ fault. statuses_fault stands (words rest.now) ≡ Some fault) }
{
    let Some(word) = one_word(rest) else {
        return Err(count_fault(Keyword::Statuses, 1, rest));
    };
    let statuses = if spells(word, b"16") {
        16
    } else if spells(word, b"32") {
        32
    } else {
        return Err(LineFault::Field(FieldFault::Name {
            word: 2,
            names: Names::Statuses,
        }));
    };
    if stands {
        return Err(LineFault::Twice(Keyword::Statuses));
    }
    Ok(statuses)
}

/// What the words after the keyword of an option say.
pub(super) fn read_option(
    draft: &Draft,
    keyword: Keyword,
    rest: &[u8],
) -> Result<Statement, LineFault>
    requires { place keyword ≡ 6 }
    ensures ok { IfOk result (λ read. (rest_fault draft.now keyword (words rest.now) ≡ None)
        × (read ≡ said keyword (words rest.now))) }
    ensures err { IfErr result (λ fault.
        rest_fault draft.now keyword (words rest.now) ≡ Some fault) }
{
    match keyword {
        Keyword::Sink => match read_sink(rest, draft.standing.sink > 0) {
            Ok(infers) => Ok(Statement::Sink(infers)),
            Err(fault) => Err(fault),
        },
        Keyword::Holdoff => match read_timer(
            keyword,
            rest,
            LONGEST_HOLDOFF,
            draft.standing.holdoff > 0,
        ) {
            Ok(packets) => Ok(Statement::Holdoff(packets as u16)),
            Err(fault) => Err(fault),
        },
        Keyword::Restore => match read_timer(
            keyword,
            rest,
            LONGEST_RESTORE,
            draft.standing.restore > 0,
        ) {
            Ok(packets) => Ok(Statement::Restore(packets as u16)),
            Err(fault) => Err(fault),
        },
        Keyword::Statuses => match read_statuses(rest, draft.standing.statuses > 0) {
            Ok(statuses) => Ok(Statement::Statuses(statuses)),
            Err(fault) => Err(fault),
        },
        _ => unreachable!(),
    }
}
