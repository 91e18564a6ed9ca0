//! A script whose text comes in pieces.
ghost use Rattle.std.specs.Prelude.{◌≡◌, ◌⊎◌, ℕ, ◌+◌, ◌≤◌, List, [], ◌++◌, length, take, drop, IfOk, OnOk, IfErr};
ghost use Rattle.std.specs.Prelude.{Ok, Err, None};
ghost use Rattle.std.specs.Str.Lines.{lines};
ghost use Rattle.text_lines.specs.Language.{said_from};
ghost use Rattle.text_lines.specs.WordsOfLine.{words};
ghost use Rattle.text_scripts.specs.script_read.Statements.{words_fault, words_said, after, at_first};
ghost use Rattle.text_scripts.specs.script_read.Script.{script_of, script_of_draft, script_in, script_lines};
ghost use Rattle.text_scripts.specs.script_read.Script.{missing_line};
ghost use Rattle.text_scripts.specs.script_read.ScriptInPieces.{ReaderStands, HasNumbersLeft, IsReader, Follows};
ghost use Rattle.text_scripts.specs.script_read.ScriptInPieces.{next_number, drafted, IsAt, IsToldAt};
ghost use Rattle.text_scripts.specs.script_read.ScriptInPieces.{IsUntested};
ghost use Rattle.text_scripts.specs.script_read.Drafts.{fault_at};
ghost use Rattle.law_model.specs.Common.{IsValid, HasFewLosses, longest_input};

use crate::script_read::grow_draft::{add, no_lines};
use crate::script_read::read_statement::read_line;
use crate::script_read::script_draft::Draft;
use crate::script_read::script_fault::{LineFault, LineStop, ScriptFault};
use crate::script_read::script_keyword::awaited;
use crate::script_read::script_limits::limit_fault;
use law_model::Script;
use std::alloc::Global;
use text_lines::{next_line, next_whole_line};

/// Reads a script whose text comes in pieces, each line once it is whole.
#[derive(Drop)]
pub struct ScriptReader {
    // What the lines so far say.
    draft: Draft,
    // The number of the next line.
    number: u32,
}

/// The fault of a line that wasn't read.
fn fault_of(number: u32, stop: LineStop) -> ScriptFault
    ensures { result ≡ fault_at number stop }
{
    match stop {
        LineStop::Fault(fault) => ScriptFault::Line { number, fault },
        LineStop::Memory => ScriptFault::Memory,
    }
}

/// A text without so many octets at its front, in the memory that it has.
fn without_front(mut text: Vec<u8>, n: usize) -> Vec<u8>
    requires { n ≤ length text.items }
    ensures { result.items ≡ drop n text.items }
{
    let left = text.len() - n;
    text.copy_within(n.., 0);
    text.truncate(left);
    text
}

impl ScriptReader {
    /// A reader that has read nothing.
    pub fn new(alloc: Global) -> ScriptReader
        ensures reader { IsReader result }
        ensures stands { ReaderStands result [] }
        ensures room { HasNumbersLeft result longest_input }
    {
        ScriptReader {
            draft: no_lines(alloc),
            number: 1,
        }
    }

    /// Reads one line, without its end.
    fn take_line(&mut self, alloc: Global, line: &[u8]) -> Result<(), ScriptFault>
        requires reader { IsReader self.old }
        requires room { HasNumbersLeft self.old 1 }
        ensures reader { OnOk result (IsReader self.new) }
        ensures number { OnOk result (self.new.number ≡ self.old.number + 1) }
        ensures sound { OnOk result (words_fault self.old.draft (words line.now) ≡ None) }
        ensures adds { OnOk result
            (self.new.draft ≡ after self.old.number self.old.draft (words_said (words line.now))) }
        ensures fault { IfErr result (λ fault. (fault ≡ ScriptFault.Memory) ⊎
            IsToldAt self.old.number (words_fault self.old.draft (words line.now)) fault) }
    {
        let said = match read_line(alloc, &self.draft, line) {
            Ok(said) => said,
            Err(stop) => return Err(fault_of(self.number, stop)),
        };
        match add(alloc, &mut self.draft, self.number, said) {
            Ok(()) => {
                self.number += 1;
                Ok(())
            }
            Err(_) => Err(ScriptFault::Memory),
        }
    }

    /// Reads the whole lines at the front of a piece, and says how many octets they have. What is left has to
    /// stand at the front of the next piece.
    fn read_lines(&mut self, alloc: Global, piece: &[u8]) -> Result<usize, ScriptFault>
        requires reader { IsReader self.old }
        requires room { HasNumbersLeft self.old (length piece.now) }
        ensures reader { IfOk result (λ _. IsReader self.new) }
        ensures within { IfOk result (λ read. read ≤ length piece.now) }
        ensures stands { (text : List ℕ) → ReaderStands self.old text →
            IfOk result (λ read. ReaderStands self.new (text ++ take read piece.now)) }
        ensures fault { (text : List ℕ) → ReaderStands self.old text → IfErr result (λ fault.
            (fault ≡ ScriptFault.Memory)
            ⊎ ((more : List ℕ) → script_of (text ++ (piece.now ++ more)) ≡ Err fault)) }
    {
        let mut rest = piece;
        while let Some((line, later)) = next_whole_line(rest) {
            match self.take_line(alloc, line) {
                Ok(()) => rest = later,
                Err(fault) => return Err(fault),
            }
        }
        Ok(piece.len() - rest.len())
    }

    /// Reads the whole lines at the front of the rest of a text, and gives what is left then.
    pub fn read_on(
        self,
        alloc: Global,
        rest: Vec<u8>,
    ) -> Result<(ScriptReader, Vec<u8>), ScriptFault>
        requires reader { IsReader self }
        requires room { HasNumbersLeft self (length rest.items) }
        ensures reader { IfOk result (λ read. IsReader read.0) }
        ensures follows { (all : List ℕ) → Follows self rest.items all →
            IfOk result (λ read. Follows read.0 read.1.items all) }
        ensures fault { (all : List ℕ) → Follows self rest.items all → IfErr result (λ fault.
            (fault ≡ ScriptFault.Memory)
            ⊎ ((more : List ℕ) → script_of (all ++ more) ≡ Err fault)) }
    {
        let mut reader = self;
        match reader.read_lines(alloc, rest.as_slice()) {
            Ok(used) => Ok((reader, without_front(rest, used))),
            Err(fault) => Err(fault),
        }
    }

    /// Reads the rest of a text, line by line.
    fn read_rest(&mut self, alloc: Global, text: &[u8]) -> Result<(), ScriptFault>
        requires reader { IsReader self.old }
        requires room { HasNumbersLeft self.old (length text.now) }
        ensures reader { OnOk result (IsReader self.new) }
        ensures small { OnOk result (HasNumbersLeft self.new 0) }
        ensures said { OnOk result
            (said_from script_lines self.old.number self.old.draft (lines text.now)
            ≡ said_from script_lines self.new.number self.new.draft []) }
        ensures fault { IfErr result (λ fault. (fault ≡ ScriptFault.Memory) ⊎ (script_of_draft
            (said_from script_lines self.old.number self.old.draft (lines text.now)) ≡ Err fault)) }
    {
        let mut rest = text;
        while let Some((line, later)) = next_line(rest) {
            match self.take_line(alloc, line) {
                Ok(()) => rest = later,
                Err(fault) => return Err(fault),
            }
        }
        Ok(())
    }

    /// The script of a text whose last piece this is.
    pub fn finish(self, alloc: Global, piece: &[u8]) -> Result<Script, ScriptFault>
        requires reader { IsReader self }
        requires room { HasNumbersLeft self (length piece.now) }
        ensures script { (text : List ℕ) → ReaderStands self text →
            IfOk result (λ script. script_of (text ++ piece.now) ≡ Ok script) }
        ensures valid { IfOk result IsValid }
        ensures few_lost { IfOk result HasFewLosses }
        ensures fault { (text : List ℕ) → ReaderStands self text → IfErr result (λ fault.
            (fault ≡ ScriptFault.Memory) ⊎ (script_of (text ++ piece.now) ≡ Err fault)) }
    {
        let mut reader = self;
        match reader.read_rest(alloc, piece) {
            Ok(()) => {}
            Err(fault) => return Err(fault),
        }
        let script = match reader.end() {
            Ok(script) => script,
            Err(fault) => return Err(fault),
        };
        match limit_fault(&script) {
            Some(fault) => Err(fault),
            None => Ok(script),
        }
    }
}

impl ScriptReader {
    /// A reader of a script whose first line has this number in a text.
    pub fn from_line(alloc: Global, number: u32) -> ScriptReader
        requires { 1 ≤ number }
        ensures reader { IsReader result }
        ensures at { IsAt result number at_first }
    {
        ScriptReader {
            draft: no_lines(alloc),
            number,
        }
    }

    /// The number of the line that is read next.
    pub fn next_number(&self) -> u32
        ensures { result ≡ next_number self.now }
    {
        self.number
    }

    /// Reads one line, without its end.
    pub fn read_next(self, alloc: Global, line: &[u8]) -> Result<ScriptReader, ScriptFault>
        requires reader { IsReader self }
        requires room { HasNumbersLeft self 1 }
        ensures reader { IfOk result IsReader }
        ensures sound { IfOk result (λ _. words_fault (drafted self) (words line.now) ≡ None) }
        ensures at { IfOk result (λ read. IsAt read (next_number self + 1)
            (after (next_number self) (drafted self) (words_said (words line.now)))) }
        ensures fault { IfErr result (λ fault. (fault ≡ ScriptFault.Memory) ⊎
            IsToldAt (next_number self) (words_fault (drafted self) (words line.now)) fault) }
    {
        let mut reader = self;
        match reader.take_line(alloc, line) {
            Ok(()) => Ok(reader),
            Err(fault) => Err(fault),
        }
    }

    /// The script that its lines say after the last of them. Its slips, spread and lag aren't tested.
    pub fn end(self) -> Result<Script, ScriptFault>
        requires reader { IsReader self }
        requires room { HasNumbersLeft self 0 }
        ensures whole { IfOk result (λ _. missing_line (drafted self) ≡ None) }
        ensures script { IfOk result (λ script. script ≡ script_in (drafted self)) }
        ensures untested { IfOk result IsUntested }
        ensures fault { IfErr result (λ fault.
            IsToldAt (next_number self) (missing_line (drafted self)) fault) }
    {
        if self.draft.next < 6 {
            return Err(ScriptFault::Line {
                number: self.number,
                fault: LineFault::Missing(awaited(self.draft.next)),
            });
        }
        Ok(finished(self.draft))
    }
}

/// The script that a draft has become.
fn finished(draft: Draft) -> Script
    ensures { result ≡ script_in draft }
{
    Script {
        config: draft.config,
        items: draft.items,
        events: draft.events,
    }
}
