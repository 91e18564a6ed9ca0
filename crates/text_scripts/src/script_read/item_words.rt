//! The words of items and of event lines that name a line.
ghost use Rattle.std.specs.Prelude.{◌≡◌, ◌≤◌, ◌+◌, ℕ, List, nat_lt, length, true, false};
ghost use Rattle.std.specs.Prelude.{IfSome, IfOk, IfErr, OnOk, None, Some};
ghost use Rattle.law_model.specs.Common.{most_items};
ghost use Rattle.text_lines.specs.WordsOfLine.{words, number_at};
ghost use Rattle.text_scripts.specs.declared.script_read.script_fault.LineFault.{LineFault};
ghost use Rattle.text_scripts.specs.script_read.Lifted.{IsStop};
ghost use Rattle.text_scripts.specs.script_read.Statements.{rest_fault, said};
ghost use Rattle.text_scripts.specs.script_read.Drafts.{IsDraft, command_fault, IsFrameOf};

use crate::script_read::script_draft::{Draft, Statement};
use crate::script_read::script_fault::{LineFault, LineStop};
use crate::script_read::script_keyword::Keyword;
use crate::script_read::word_count_fault::count_fault;
use law_model::{EventLine, Item, ItemKind, LONGEST_OFFER, MOST_COUNT, MOST_ITEMS, Octets};
use std::alloc::Global;
use text_lines::{next_word, number_within, octets_within, two_words};

/// Tests whether there may be so many items more.
pub(super) fn check_room(draft: &Draft, more: u64) -> Result<(), LineFault>
    requires { more ≤ 700000000000000 }
    ensures ok { OnOk result (nat_lt most_items (length draft.now.items + more) ≡ false) }
    ensures full { IfErr result (λ _.
        nat_lt most_items (length draft.now.items + more) ≡ true) }
    ensures err { IfErr result (λ fault.
        fault ≡ LineFault.TooMany (length draft.now.items + more)) }
{
    let items = u64::from(draft.items.len()) + more;
    if items > u64::from(MOST_ITEMS) {
        return Err(LineFault::TooMany { items });
    }
    Ok(())
}

/// The word of when a frame is due, and its octets, where nothing but a space stands between the two and its digits
/// end the line. Digits have no space among them, so that they aren't searched for one.
fn plain_frame(alloc: Global, rest: &[u8]) -> Option<(&[u8], Vec<u8>)>
    ensures { IfSome result (λ read. IsFrameOf read.0.now read.1.items (words rest.now)) }
{
    let Some((due, digits)) = next_word(rest) else {
        return None;
    };
    match octets_within(alloc, digits, 3, 1, LONGEST_OFFER) {
        Ok(octets) => Some((due, octets)),
        Err(_) => None,
    }
}

/// A frame of these octets, and when it is due by this word.
fn due_frame(draft: &Draft, due: &[u8], octets: Vec<u8>) -> Result<Statement, LineStop>
    requires stands { 6 ≤ draft.now.next }
    requires config { IsDraft draft.now }
    ensures ok { (ws : List (List ℕ)) → IsFrameOf due.now octets.items ws →
        IfOk result (λ read. (rest_fault draft.now Keyword.Frame ws ≡ None)
        × (read ≡ said Keyword.Frame ws)) }
    ensures err { (ws : List (List ℕ)) → IsFrameOf due.now octets.items ws →
        IfErr result (λ stop. IsStop stop (rest_fault draft.now Keyword.Frame ws)) }
{
    let due = match number_within(due, 2, 0, u64::from(draft.config.ticks) - 1) {
        Ok(due) => due as u32,
        Err(fault) => return Err(LineStop::Fault(LineFault::Field(fault))),
    };
    if let Err(fault) = check_room(draft, 1) {
        return Err(LineStop::Fault(fault));
    }
    if due < draft.frame_due {
        return Err(LineStop::Fault(LineFault::FrameBefore {
            due: draft.frame_due,
        }));
    }
    Ok(Statement::Item(Item {
        due,
        kind: ItemKind::Frame(Octets(octets)),
    }))
}

/// The same of a line with other spaces, or with a fault.
fn spaced_frame(alloc: Global, draft: &Draft, rest: &[u8]) -> Result<Statement, LineStop>
    requires stands { 6 ≤ draft.now.next }
    requires config { IsDraft draft.now }
    ensures ok { IfOk result (λ read. (rest_fault draft.now Keyword.Frame (words rest.now) ≡ None)
        × (read ≡ said Keyword.Frame (words rest.now))) }
    ensures err { IfErr result (λ stop.
        IsStop stop (rest_fault draft.now Keyword.Frame (words rest.now))) }
{
    let Some((due, digits)) = two_words(rest) else {
        return Err(LineStop::Fault(count_fault(Keyword::Frame, 2, rest)));
    };
    let due = match number_within(due, 2, 0, u64::from(draft.config.ticks) - 1) {
        Ok(due) => due as u32,
        Err(fault) => return Err(LineStop::Fault(LineFault::Field(fault))),
    };
    let octets = octets_within(alloc, digits, 3, 1, LONGEST_OFFER)?;
    if let Err(fault) = check_room(draft, 1) {
        return Err(LineStop::Fault(fault));
    }
    if due < draft.frame_due {
        return Err(LineStop::Fault(LineFault::FrameBefore {
            due: draft.frame_due,
        }));
    }
    Ok(Statement::Item(Item {
        due,
        kind: ItemKind::Frame(Octets(octets)),
    }))
}

/// A frame, and when it is due.
pub(super) fn read_frame(alloc: Global, draft: &Draft, rest: &[u8]) -> Result<Statement, LineStop>
    requires stands { 6 ≤ draft.now.next }
    requires config { IsDraft draft.now }
    ensures ok { IfOk result (λ read. (rest_fault draft.now Keyword.Frame (words rest.now) ≡ None)
        × (read ≡ said Keyword.Frame (words rest.now))) }
    ensures err { IfErr result (λ stop.
        IsStop stop (rest_fault draft.now Keyword.Frame (words rest.now))) }
{
    match plain_frame(alloc, rest) {
        Some((due, octets)) => due_frame(draft, due, octets),
        None => spaced_frame(alloc, draft, rest),
    }
}

/// When a command is due, and the line that it names.
pub(super) fn read_due_line(
    draft: &Draft,
    keyword: Keyword,
    rest: &[u8],
) -> Result<(u32, u8), LineFault>
    requires stands { 6 ≤ draft.now.next }
    requires config { IsDraft draft.now }
    ensures ok { IfOk result (λ read. (command_fault draft.now keyword (words rest.now) ≡ None)
        × (read.0 ≡ number_at 0 (words rest.now)) × (read.1 ≡ number_at 1 (words rest.now))) }
    ensures err { IfErr result (λ fault.
        command_fault draft.now keyword (words rest.now) ≡ Some fault) }
{
    let Some((due, line)) = two_words(rest) else {
        return Err(count_fault(keyword, 2, rest));
    };
    let due = match number_within(due, 2, 0, u64::from(draft.config.ticks) - 1) {
        Ok(due) => due as u32,
        Err(fault) => return Err(LineFault::Field(fault)),
    };
    let line = match number_within(line, 3, 0, 255) {
        Ok(line) => line as u8,
        Err(fault) => return Err(LineFault::Field(fault)),
    };
    check_room(draft, 1)?;
    if due < draft.command_due {
        return Err(LineFault::CommandBefore {
            due: draft.command_due,
        });
    }
    Ok((due, line))
}

/// A line that carries, and how often it tries.
pub(super) fn read_carry(draft: &Draft, rest: &[u8]) -> Result<Statement, LineFault>
    requires stands { 6 ≤ draft.now.next }
    requires config { IsDraft draft.now }
    ensures ok { IfOk result (λ read. (rest_fault draft.now Keyword.Carry (words rest.now) ≡ None)
        × (read ≡ said Keyword.Carry (words rest.now))) }
    ensures err { IfErr result (λ fault.
        rest_fault draft.now Keyword.Carry (words rest.now) ≡ Some fault) }
{
    let Some((line, count)) = two_words(rest) else {
        return Err(count_fault(Keyword::Carry, 2, rest));
    };
    let m = match number_within(line, 2, 0, u64::from(draft.config.lines) - 1) {
        Ok(m) => m as u8,
        Err(fault) => return Err(LineFault::Field(fault)),
    };
    let count = match number_within(count, 3, 1, MOST_COUNT) {
        Ok(count) => count as u32,
        Err(fault) => return Err(LineFault::Field(fault)),
    };
    Ok(Statement::Event(EventLine::Carry(m, count)))
}
