//! Two scripts whose text comes in pieces.
ghost use Rattle.std.specs.Prelude.{◌≡◌, ◌⊎◌, ℕ, ◌+◌, ◌≤◌, List, [], ◌++◌, length, take, drop, IfOk, IfErr};
ghost use Rattle.std.specs.Prelude.{None, Ok, Err, option_map};
ghost use Rattle.text_lines.specs.Cut.{Lacks};
ghost use Rattle.text_lines.specs.WordsOfLine.{words};
ghost use Rattle.text_scripts.specs.script_read.Script.{missing_line};
ghost use Rattle.text_scripts.specs.script_read.ScriptInPieces.{IsReader, IsUntested, HasNumbersLeft};
ghost use Rattle.text_scripts.specs.script_read.ScriptInPieces.{next_number, drafted};
ghost use Rattle.law_model.specs.Common.{longest_input};
ghost use Rattle.law_pair.specs.Common.{IsPair};
ghost use Rattle.text_pairs.specs.PairTextLines.{of_script, is_division, divides, divided};
ghost use Rattle.text_pairs.specs.PairTextLines.{half_fault, half_after};
ghost use Rattle.text_pairs.specs.PairTextLines.{half_missing};
ghost use Rattle.text_pairs.specs.PairOfText.{pair_in, pair_of, pair_of_halves};
ghost use Rattle.text_pairs.specs.Pieces.{no_memory, line_at, halves_of, said_after, IsPairAt, IsPairToldAt};
ghost use Rattle.text_pairs.specs.Pieces.{IsPairReader, StandsAt, HasPairRoom, FollowsIn};

use crate::pair_limits::limits_fault;
use crate::script_pair::{PairFault, ScriptPair};
use law_model::Script;
use std::alloc::Global;
use text_lines::{next_whole_line, one_word};
use text_scripts::script_read::{ScriptFault, ScriptReader};

/// Reads two scripts whose text comes in pieces, each line once it is whole.
#[derive(Drop)]
pub(crate) struct PairReader {
    // The first script, where the line that divides has come.
    there: Option<Script>,
    // The lines so far of the script that goes on.
    reader: ScriptReader,
}

/// Whether a line has the one word that divides.
pub fn is_division(line: &[u8]) -> bool
    ensures { result ≡ is_division (words line.now) }
{
    match one_word(line) {
        Some(word) => word == b"other".as_slice(),
        None => false,
    }
}

/// Ends the first script at the line that divides.
fn divide(alloc: Global, first: ScriptReader) -> Result<PairReader, PairFault>
    requires reader { IsReader first }
    requires room { HasNumbersLeft first 1 }
    ensures reader { IfOk result IsPairReader }
    ensures whole { IfOk result (λ _. missing_line (drafted first) ≡ None) }
    ensures at { IfOk result (λ read. IsPairAt read (next_number first + 1)
        (divided (drafted first))) }
    ensures fault { IfErr result (λ fault. IsPairToldAt (next_number first)
        (option_map of_script (missing_line (drafted first))) fault) }
{
    let number = first.next_number();
    match first.end() {
        Ok(there) => Ok(PairReader {
            there: Some(there),
            reader: ScriptReader::from_line(alloc, number + 1),
        }),
        Err(fault) => Err(PairFault::Script(fault)),
    }
}

impl PairReader {
    /// A reader that has read nothing.
    pub(crate) fn new(alloc: Global) -> PairReader
        ensures reader { IsPairReader result }
        ensures stands { StandsAt result [] }
        ensures room { HasPairRoom result longest_input }
    {
        PairReader {
            there: None,
            reader: ScriptReader::from_line(alloc, 1),
        }
    }

    /// Whether a line is the one that divides.
    fn divides(&self, line: &[u8]) -> bool
        ensures { result ≡ divides (halves_of self.now) (words line.now) }
    {
        match self.there {
            None => is_division(line),
            Some(_) => false,
        }
    }

    /// Reads one line, without its end.
    fn read_next(self, alloc: Global, line: &[u8]) -> Result<PairReader, PairFault>
        requires reader { IsPairReader self }
        requires room { HasPairRoom self 1 }
        ensures reader { IfOk result IsPairReader }
        ensures sound { IfOk result (λ _. half_fault (halves_of self) (words line.now) ≡ None) }
        ensures at { IfOk result (λ read. IsPairAt read (line_at self + 1)
            (half_after (line_at self) (halves_of self) (words line.now))) }
        ensures fault { IfErr result (λ fault. (fault ≡ no_memory) ⊎
            IsPairToldAt (line_at self) (half_fault (halves_of self) (words line.now)) fault) }
    {
        if self.divides(line) {
            return divide(alloc, self.reader);
        }
        match self.reader.read_next(alloc, line) {
            Ok(reader) => Ok(PairReader {
                there: self.there,
                reader,
            }),
            Err(fault) => Err(PairFault::Script(fault)),
        }
    }

    /// Reads the whole lines at the front of a piece, and says how many octets they have.
    fn read_lines(self, alloc: Global, piece: &[u8]) -> Result<(PairReader, usize), PairFault>
        requires reader { IsPairReader self }
        requires room { HasPairRoom self (length piece.now) }
        ensures reader { IfOk result (λ read. IsPairReader read.0) }
        ensures within { IfOk result (λ read. read.1 ≤ length piece.now) }
        ensures count { IfOk result (λ read. line_at read.0 ≤ line_at self + read.1) }
        ensures cut { IfOk result (λ read. Lacks 10 (drop read.1 piece.now)) }
        ensures said { IfOk result (λ read. (more : List ℕ) →
            said_after self (take read.1 piece.now ++ more) ≡ said_after read.0 more) }
        ensures fault { IfErr result (λ fault. (fault ≡ no_memory) ⊎ ((more : List ℕ) →
            pair_of_halves (said_after self (piece.now ++ more)) ≡ Err fault)) }
    {
        let mut reader = self;
        let mut rest = piece;
        while let Some((line, later)) = next_whole_line(rest) {
            match reader.read_next(alloc, line) {
                Ok(next) => reader = next,
                Err(fault) => return Err(fault),
            }
            rest = later;
        }
        Ok((reader, piece.len() - rest.len()))
    }

    /// Reads the whole lines at the front of the rest of a text, and gives what is left then.
    pub(crate) fn read_on(
        self,
        alloc: Global,
        rest: Vec<u8>,
    ) -> Result<(PairReader, Vec<u8>), PairFault>
        requires reader { IsPairReader self }
        requires room { HasPairRoom self (length rest.items) }
        ensures reader { IfOk result (λ read. IsPairReader read.0) }
        ensures follows { (all : List ℕ) → FollowsIn self rest.items all →
            IfOk result (λ read. FollowsIn read.0 read.1.items all) }
        ensures fault { (all : List ℕ) → FollowsIn self rest.items all → IfErr result (λ fault.
            (fault ≡ no_memory) ⊎ ((more : List ℕ) → pair_of (all ++ more) ≡ Err fault)) }
    {
        match self.read_lines(alloc, rest.as_slice()) {
            Ok((reader, used)) => match Vec::from_slice(alloc, &rest[used..]) {
                Ok(left) => Ok((reader, left)),
                Err(_) => Err(PairFault::Script(ScriptFault::Memory)),
            },
            Err(fault) => Err(fault),
        }
    }

    /// Reads what is left behind the whole lines of a text: nothing, or a line that lacks its end.
    fn read_tail(self, alloc: Global, last: &[u8]) -> Result<PairReader, PairFault>
        requires reader { IsPairReader self }
        requires room { HasPairRoom self (length last.now) }
        requires lacks { Lacks 10 last.now }
        ensures reader { IfOk result IsPairReader }
        ensures room { IfOk result (λ read. HasPairRoom read 0) }
        ensures said { IfOk result (λ read. said_after self last.now ≡ said_after read []) }
        ensures fault { IfErr result (λ fault. (fault ≡ no_memory) ⊎
            (pair_of_halves (said_after self last.now) ≡ Err fault)) }
    {
        if last.is_empty() {
            return Ok(self);
        }
        self.read_next(alloc, last)
    }

    /// Reads the rest of a text, whose last line may lack its end.
    fn read_last(self, alloc: Global, rest: &[u8]) -> Result<PairReader, PairFault>
        requires reader { IsPairReader self }
        requires room { HasPairRoom self (length rest.now) }
        ensures reader { IfOk result IsPairReader }
        ensures room { IfOk result (λ read. HasPairRoom read 0) }
        ensures said { IfOk result (λ read. said_after self rest.now ≡ said_after read []) }
        ensures fault { IfErr result (λ fault. (fault ≡ no_memory) ⊎
            (pair_of_halves (said_after self rest.now) ≡ Err fault)) }
    {
        match self.read_lines(alloc, rest) {
            Ok((reader, used)) => reader.read_tail(alloc, &rest[used..]),
            Err(fault) => Err(fault),
        }
    }

    /// The scripts that its lines say after the last of them, of which neither is tested as a whole.
    fn end(self) -> Result<ScriptPair, PairFault>
        requires reader { IsPairReader self }
        requires room { HasPairRoom self 0 }
        ensures whole { IfOk result (λ _. half_missing (halves_of self) ≡ None) }
        ensures pair { IfOk result (λ pair. pair ≡ pair_in (halves_of self)) }
        ensures there { IfOk result (λ pair. IsUntested pair.there) }
        ensures back { IfOk result (λ pair. IsUntested pair.back) }
        ensures fault { IfErr result (λ fault.
            IsPairToldAt (line_at self) (half_missing (halves_of self)) fault) }
    {
        let number = self.reader.next_number();
        let back = match self.reader.end() {
            Ok(back) => back,
            Err(fault) => return Err(PairFault::Script(fault)),
        };
        match self.there {
            Some(there) => Ok(ScriptPair { there, back }),
            None => Err(PairFault::Undivided { number }),
        }
    }

    /// The scripts of a text whose last piece this is.
    pub(crate) fn finish(self, alloc: Global, piece: &[u8]) -> Result<ScriptPair, PairFault>
        requires reader { IsPairReader self }
        requires room { HasPairRoom self (length piece.now) }
        ensures pair { (text : List ℕ) → StandsAt self text →
            IfOk result (λ pair. pair_of (text ++ piece.now) ≡ Ok pair) }
        ensures fits { IfOk result (λ pair. IsPair pair.there pair.back) }
        ensures fault { (text : List ℕ) → StandsAt self text → IfErr result (λ fault.
            (fault ≡ no_memory) ⊎ (pair_of (text ++ piece.now) ≡ Err fault)) }
    {
        let reader = match self.read_last(alloc, piece) {
            Ok(reader) => reader,
            Err(fault) => return Err(fault),
        };
        let pair = match reader.end() {
            Ok(pair) => pair,
            Err(fault) => return Err(fault),
        };
        match limits_fault(&pair) {
            Some(fault) => Err(fault),
            None => Ok(pair),
        }
    }
}
