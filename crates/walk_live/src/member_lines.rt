//! The lines that tell what became of members in a decision step, put together in a slice.
ghost use Rattle.std.specs.Prelude.{◌≡◌, ◌+◌, ◌*◌, ◌<◌, ◌≤◌, ℕ, length, slice_index_or, take};
ghost use Rattle.law_model.specs.Common.{most_lines, state_of};
ghost use Rattle.law_model.specs.declared.lcas_states.SourceState.TheVariants.{Idle};
ghost use Rattle.law_live.specs.Common.{member_code, told_among, told_of};
ghost use Rattle.text_report.specs.TextCursor.{Extends, HasTextRoom};
ghost use Rattle.walk_live.specs.MemberWriting.{worded_member, worded_members};

use law_model::{MOST_LINES, SourceState};
use terminal_source::lcas_source::SourceTable;
use text_lines::spells;
use text_report::TextCursor;

/// Room for the lines of 128 members, in octets.
pub const MEMBERS_ROOM: usize = 5120;

/// The word by which the state of a line is told.
fn code_word(state: SourceState) -> &'static [u8]
    ensures word { result.now ≡ member_code state }
    ensures short { length result.now ≤ 4 }
{
    match state {
        SourceState::Add => b"add",
        SourceState::Norm => b"norm",
        SourceState::Dnu => b"dnu",
        SourceState::Idle | SourceState::Remove => b"idle",
    }
}

/// The states of so many lines.
pub fn states_of(table: &SourceTable, lines: u8) -> [SourceState; MOST_LINES]
    requires { lines ≤ most_lines }
    ensures { (m : ℕ) → m < lines →
        slice_index_or result m Idle ≡ state_of table.now.source.table m }
{
    let mut states = [SourceState::Idle; MOST_LINES];
    for line in 0..lines {
        states[usize::from(line)] = table.state(line);
    }
    states
}

/// Adds the line of a member, behind its first words.
fn add_told(text: &mut TextCursor, words: &[u8], ticks: u32, line: u8, word: &[u8])
    requires room { HasTextRoom text.old 40 }
    requires words { length words.now ≤ 13 }
    requires short { length word.now ≤ 4 }
    ensures text { Extends text.old text.new
        (worded_member words.now (record { ticks = ticks; line = line; code = word.now })) }
    ensures end { text.new.at ≤ text.old.at + 40 }
{
    text.number(words, ticks);
    text.number(b" ", line);
    text.text(b" ");
    text.text(word);
    text.text(b"\n");
}

/// Adds the line of a member, where it is told by another word than before.
fn add_member(
    text: &mut TextCursor,
    words: &[u8],
    ticks: u32,
    line: u8,
    was: SourceState,
    now: SourceState,
)
    requires room { HasTextRoom text.old 40 }
    requires words { length words.now ≤ 13 }
    ensures text { Extends text.old text.new
        (worded_members words.now (told_of ticks line (member_code was) (member_code now))) }
    ensures end { text.new.at ≤ text.old.at + 40 }
{
    let word = code_word(now);
    if !spells(code_word(was), word) {
        add_told(text, words, ticks, line, word);
    }
}

/// Adds the lines of those members.
fn add_members(
    text: &mut TextCursor,
    words: &[u8],
    ticks: u32,
    was: &[SourceState],
    table: &SourceTable,
    lines: u8,
)
    requires room { HasTextRoom text.old (40 * lines) }
    requires words { length words.now ≤ 13 }
    requires states { lines ≤ length was.now }
    ensures text { Extends text.old text.new (worded_members words.now (told_among ticks
        (λ m. member_code (slice_index_or was.now m Idle))
        (λ m. member_code (state_of table.now.source.table m)) lines)) }
    ensures end { text.new.at ≤ text.old.at + 40 * lines }
{
    for line in 0..lines {
        add_member(
            text,
            words,
            ticks,
            line,
            was[usize::from(line)],
            table.state(line),
        );
    }
}

/// Writes a line for each of so many members that is told by another word than by these states: its first words, the
/// ticks made by now, the line and the word. Answers the length.
pub fn lines_of_members(
    words: &[u8],
    ticks: u32,
    was: &[SourceState],
    table: &SourceTable,
    lines: u8,
    out: &mut [u8],
) -> usize
    requires room { 5120 ≤ length out.old }
    requires words { length words.now ≤ 13 }
    requires lines { lines ≤ most_lines }
    requires states { lines ≤ length was.now }
    ensures within { result ≤ 5120 }
    ensures lines { take result out.new ≡ worded_members words.now (told_among ticks
        (λ m. member_code (slice_index_or was.now m Idle))
        (λ m. member_code (state_of table.now.source.table m)) lines) }
{
    let mut text = TextCursor::new(out);
    add_members(&mut text, words, ticks, was, table, lines);
    text.end()
}
