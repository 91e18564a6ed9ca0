//! Why a command stopped, its exit status, and the note on it.
ghost use Rattle.std.specs.Prelude.{◌≡◌, ◌≤◌, length};
ghost use Rattle.law_model.specs.Common.{Tells};
ghost use Rattle.command_parts.specs.Task.{refused_status};
ghost use Rattle.command_parts.specs.Stops.{status_at, note_of};

use arrayvec::ArrayVec;
use octet_io::{ByteSink, Failed, put_all};

/// What about an input isn't as a command takes it.
#[derive(Clone, Copy)]
pub enum Refusal {
    /// One of its lines.
    Line,
    /// What it asks for as a whole is beyond a limit.
    Limit,
}

/// An input isn't what a command takes, and the note on that.
#[derive(Drop)]
pub struct Fault {
    /// Whether it is one of the lines, or what they ask for as a whole.
    pub why: Refusal,
    /// The text of the note, up to 512 octets.
    pub note: ArrayVec<u8, 512>,
}

impl Fault {
    /// A fault with its note.
    pub fn new(why: Refusal, text: &[u8]) -> Fault
        requires { length text.now ≤ 512 }
        ensures why { result.why ≡ why }
        ensures note { result.note.items ≡ text.now }
    {
        let mut note = ArrayVec::new();
        match note.try_extend_from_slice(text) {
            Ok(()) => Fault { why, note },
            Err(_) => unreachable!(),
        }
    }
}

/// Why a command stopped before it was done.
#[derive(Drop)]
pub enum Stop {
    /// The input can't be read.
    Read,
    /// The input has more octets than it may have.
    TooLong,
    /// The input was read, and isn't what the command takes.
    Refused(Fault),
    /// An output can't be written.
    Write,
    /// Memory is short.
    Memory,
}

/// What a command made that came to write its answer.
#[derive(Drop)]
pub struct Ran<T> {
    /// What was made.
    pub made: T,
    /// Whether all was written, or a write failed.
    pub written: Result<(), Failed>,
}

/// The exit status of an input that isn't what a command takes.
fn status_of_refusal(why: Refusal) -> u8
    ensures { result ≡ refused_status why }
{
    match why {
        Refusal::Line => 5,
        Refusal::Limit => 6,
    }
}

/// Puts a note, as far as `notes` take it.
fn put_note<E: ByteSink>(note: &[u8], notes: &mut E)
    ensures { Tells E.written E.faults notes.old notes.new note.now }
{
    let _ = put_all(notes, note);
}

/// Says on `notes` why a command stopped, as far as they take it, and answers the exit status: 3 and 8 for an
/// input that can't be read or is too long, 5 and 6 for one that isn't what the command takes, 4 for an
/// output that can't be written, and 7 where memory is short.
pub fn tell<E: ByteSink>(stop: &Stop, notes: &mut E) -> u8
    ensures status { result ≡ status_at stop.now }
    ensures told { Tells E.written E.faults notes.old notes.new (note_of stop.now) }
{
    match stop {
        Stop::Read => {
            put_note(b"fault: read failed\n", notes);
            3
        }
        Stop::TooLong => {
            put_note(b"fault: too long\n", notes);
            8
        }
        Stop::Refused(fault) => {
            put_note(fault.note.as_slice(), notes);
            status_of_refusal(fault.why)
        }
        Stop::Write => {
            put_note(b"fault: write failed\n", notes);
            4
        }
        Stop::Memory => {
            put_note(b"fault: no memory\n", notes);
            7
        }
    }
}

/// Says on `notes` which commands a program has, as far as they take it, and answers the exit status for
/// words that are none of them.
pub fn tell_usage<E: ByteSink>(usage: &[u8], notes: &mut E) -> u8
    ensures status { result ≡ 2 }
    ensures told { Tells E.written E.faults notes.old notes.new usage.now }
{
    put_note(usage, notes);
    2
}
