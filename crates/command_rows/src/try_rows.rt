//! Rows of words, an input and answers, and a runner that tries them on a program.
//!
//! A row is `WORDS;INPUT => ANSWER THEN ANSWER` and so on, with one answer for each turn, and `N TIMES` before one
//! that comes in N turns. An answer is `STATUS;OUT;NOTES`, where `+` follows the status if a walk or a session is
//! handed back. `|` stands for LF, `07*9` at the end of a line for nine octets of 07, `@9 ` at its beginning for nine
//! such lines, in each of which `%` is its number from 0 on, `~` at its end for what is said of the first word of a
//! script, and `..` at the end of an answer for any rest. Nothing here stops at want of memory: a text that is cut by
//! it is another than the wanted one.

use octet_io::{MemSink, MemSource};
use std::alloc::{AllocError, Global};

/// How a call of the program ended.
#[derive(Clone, Copy)]
pub struct Called {
    /// The status.
    pub status: u8,
    /// Whether a walk or a session was handed back.
    pub is_handed: bool,
    /// Whether a worker waited in vain.
    pub missed: bool,
}

/// What is special in a turn, of which the first has number 0.
#[derive(Clone, Copy)]
pub enum Turns {
    /// Nothing.
    Whole,
    /// The workers meet: each waits at its first pass until all have come, and the sink until all others have moved.
    Meeting,
    /// The input comes seven octets at a time, and the call of the source fails that has the turn's number.
    Takes,
    /// The input comes octet by octet, and the call of the source fails that has the turn's number.
    Octets,
    /// The input comes seven octets at a time.
    Pieces,
    /// The call of `out` fails that has the turn's number.
    Puts,
    /// The same, where the notes may have other lines before those of the answer.
    TracedPuts,
    /// The call of `notes` fails that has the turn's number.
    Tells,
    /// Of the input as many octets come as the turn's number.
    Beginnings,
    /// The answer is one line of the notes.
    Lines,
}

/// What is called, and how.
#[derive(Clone, Copy)]
struct Case<'a> {
    turns: Turns,
    words: &'a str,
    input: &'a [u8],
}

/// An input and both outputs.
#[derive(Drop)]
pub struct Ends {
    /// The input.
    pub source: MemSource,
    /// Where answers go.
    pub out: MemSink,
    /// Where notes go.
    pub notes: MemSink,
}

/// Appends octets, if memory is there.
fn say(text: &mut Vec<u8>, octets: &[u8]) {
    let _ = text.extend_from_slice(octets);
}

/// What is said of the first word of a line of a script.
const FIRST: &str =
    "a line begins with one of container, lines, delays, ring, lag, ticks, sink, holdoff, restore, \
    statuses, fail, lost, frame, stream, add, remove, client, operator, tick, carry, back, take, round, drain";

/// Appends a line, with what `*` or `~` stands for.
fn say_line(text: &mut Vec<u8>, line: &str) {
    if let Some(front) = line.strip_suffix("~") {
        say(text, front.as_bytes());
        say(text, FIRST.as_bytes());
        return;
    }
    let (head, count) = line.split_once('*').unwrap_or((line, "1"));
    let head = head.as_bytes();
    say(text, head);
    for _ in 1..count.parse::<usize>().unwrap_or(1) {
        say(text, &head[head.len().saturating_sub(2)..]);
    }
}

/// Appends a line that has this number in the place of each `%`.
fn say_numbered(alloc: Global, text: &mut Vec<u8>, line: &str, number: u32) {
    let Ok(number) = format!(in alloc; "{number}") else {
        return;
    };
    let mut between = b"".as_slice();
    for part in line.split('%') {
        say(text, between);
        say_line(text, part);
        between = number.as_bytes();
    }
}

/// Appends a line, or as many as `@` stands for.
fn say_lines(alloc: Global, text: &mut Vec<u8>, line: &str) {
    let Some(counted) = line.strip_prefix("@") else {
        say_line(text, line);
        return;
    };
    let (count, line) = counted.split_once(' ').unwrap_or(("1", counted));
    for number in 0..count.parse::<u32>().unwrap_or(1) {
        if number > 0 {
            say(text, b"\n");
        }
        say_numbered(alloc, text, line, number);
    }
}

/// The text that a row says.
fn unfolded(alloc: Global, folded: &str) -> Vec<u8> {
    let mut text = Vec::new(alloc);
    let mut between = b"".as_slice();
    for line in folded.split('|') {
        say(&mut text, between);
        say_lines(alloc, &mut text, line);
        between = b"\n".as_slice();
    }
    text
}

/// Appends a word.
fn push_word(alloc: Global, words: &mut Vec<String>, word: &str) {
    if let Ok(word) = String::from_str(alloc, word) {
        let _ = words.push(word);
    }
}

/// Words that stand one space apart.
pub fn words_of(alloc: Global, text: &str) -> Vec<String> {
    let mut words = Vec::new(alloc);
    for word in text.split(' ') {
        push_word(alloc, &mut words, word);
    }
    words
}

/// The one number where it is chosen, or none.
fn chosen(number: &[u32; 1], is_chosen: bool) -> &[u32] {
    if is_chosen { &number[..] } else { &number[..0] }
}

/// The source of a turn.
fn source_of(alloc: Global, case: Case<'_>, number: u32) -> Result<MemSource, AllocError> {
    let octets = case.input;
    match case.turns {
        Turns::Takes => MemSource::in_steps(alloc, octets, &[number], 7),
        Turns::Octets => MemSource::in_steps(alloc, octets, &[number], 1),
        Turns::Pieces => MemSource::in_steps(alloc, octets, &[], 7),
        Turns::Beginnings => MemSource::new(
            alloc,
            &octets[..octets.len().min(number as usize)],
            &[],
        ),
        _ => MemSource::new(alloc, octets, &[]),
    }
}

/// The ends of a turn.
fn ends_of(alloc: Global, case: Case<'_>, number: u32) -> Result<Ends, AllocError> {
    let number_alone = [number];
    let puts = chosen(
        &number_alone,
        matches!(case.turns, Turns::Puts | Turns::TracedPuts),
    );
    let tells = chosen(&number_alone, matches!(case.turns, Turns::Tells));
    Ok(Ends {
        source: source_of(alloc, case, number)?,
        out: MemSink::new(alloc, 1 << 20, puts)?,
        notes: MemSink::new(alloc, 1 << 16, tells)?,
    })
}

/// Appends what a turn is answered, with the ends that it has.
fn say_answer<F: Fn(Global, &[String], &mut Ends, bool) -> Called>(
    alloc: Global,
    call: &F,
    case: Case<'_>,
    words: &[String],
    ends: &mut Ends,
    answer: &mut Vec<u8>,
)
    requires { F.IsAlwaysCallable call.now }
{
    let called = call(alloc, words, ends, matches!(case.turns, Turns::Meeting));
    say(answer, &[b'0'.wrapping_add(called.status)]);
    say(answer, if called.is_handed { b"+;" } else { b";" });
    say(answer, ends.out.bytes());
    say(answer, b";");
    say(answer, ends.notes.bytes());
    if called.missed {
        say(answer, b"missed");
    }
}

/// What a turn is answered.
fn answer_of<F: Fn(Global, &[String], &mut Ends, bool) -> Called>(
    alloc: Global,
    call: &F,
    case: Case<'_>,
    number: u32,
) -> Vec<u8>
    requires { F.IsAlwaysCallable call.now }
{
    let mut answer = Vec::new(alloc);
    let words = words_of(alloc, case.words);
    if let Ok(mut ends) = ends_of(alloc, case, number) {
        say_answer(alloc, call, case, words.as_slice(), &mut ends, &mut answer);
    }
    answer
}

/// Whether a line of the notes is the wanted one.
fn has_line(answer: &[u8], want: &str) -> bool {
    let mut found = false;
    let notes = str::from_utf8(answer).unwrap_or("no UTF-8");
    let (_, notes) = notes.rsplit_once(';').unwrap_or(("", ""));
    for line in notes.lines() {
        found = found || line == want;
    }
    found
}

/// Whether an answer is the wanted one but for lines before its notes.
fn is_traced(alloc: Global, answer: &[u8], want: &str) -> bool {
    let (before, notes) = want.rsplit_once(';').unwrap_or((want, ""));
    let mut before = unfolded(alloc, before);
    say(&mut before, b";");
    let notes = unfolded(alloc, notes);
    answer.starts_with(before.as_slice()) && answer.ends_with(notes.as_slice())
}

/// Whether an answer is the wanted one, of which `..` at the end stands for any rest.
fn is_whole(alloc: Global, answer: &[u8], want: &str) -> bool {
    match want.strip_suffix("..") {
        Some(front) => answer.starts_with(unfolded(alloc, front).as_slice()),
        None => answer == unfolded(alloc, want).as_slice(),
    }
}

/// Whether an answer is the wanted one.
fn is_right(alloc: Global, turns: Turns, answer: &[u8], want: &str) -> bool {
    match turns {
        Turns::Lines => has_line(answer, want),
        Turns::TracedPuts => is_traced(alloc, answer, want),
        _ => is_whole(alloc, answer, want),
    }
}

/// Says what was wanted and what came, where nothing wrong is said yet.
fn say_wrong(wrong: &mut String, want: &str, answer: &[u8]) {
    if wrong.is_empty() {
        let _ = wrong.push_str(want);
        let _ = wrong.push_str(" BUT ");
        let _ = wrong.push_str(str::from_utf8(answer).unwrap_or("no UTF-8"));
    }
}

/// Tries one turn.
fn try_turn<F: Fn(Global, &[String], &mut Ends, bool) -> Called>(
    alloc: Global,
    call: &F,
    case: Case<'_>,
    number: u32,
    want: &str,
    wrong: &mut String,
)
    requires { F.IsAlwaysCallable call.now }
{
    let answer = answer_of(alloc, call, case, number);
    if !is_right(alloc, case.turns, answer.as_slice(), want) {
        say_wrong(wrong, want, answer.as_slice());
    }
}

/// Tries a row, with these words or, where there are none, with its own.
fn try_row<F: Fn(Global, &[String], &mut Ends, bool) -> Called>(
    alloc: Global,
    call: &F,
    turns: Turns,
    words: &str,
    row: &str,
    wrong: &mut String,
)
    requires { F.IsAlwaysCallable call.now }
{
    let (words, row) = match words {
        "" => row.split_once(';').unwrap_or(("", row)),
        _ => (words, row),
    };
    let (folded, wants) = row.split_once(" => ").unwrap_or((row, "an answer"));
    let input = unfolded(alloc, folded);
    let case = Case {
        turns,
        words,
        input: input.as_slice(),
    };
    let mut number = 0u32;
    for part in wants.split(" THEN ") {
        let (times, want) = part.split_once(" TIMES ").unwrap_or(("1", part));
        for _ in 0..times.parse::<u32>().unwrap_or(1) {
            try_turn(alloc, call, case, number, want, wrong);
            number = number.wrapping_add(1);
        }
    }
}

/// Tries rows on a call of the program, which is given words, ends, and whether the workers meet: what is special in
/// the turns of rows, the words of all of them, which may be several with a comma between, or none where each row has
/// its own, and the rows. The first answer that is not the wanted one is said.
pub fn wrong_of<F: Fn(Global, &[String], &mut Ends, bool) -> Called>(
    alloc: Global,
    call: &F,
    all: &[(Turns, &str, &str)],
) -> String
    requires { F.IsAlwaysCallable call.now }
{
    let mut wrong = String::new(alloc);
    for (turns, words, rows) in all {
        for row in rows.lines() {
            for words in words.split(',') {
                try_row(alloc, call, *turns, words, row, &mut wrong);
            }
        }
    }
    wrong
}
