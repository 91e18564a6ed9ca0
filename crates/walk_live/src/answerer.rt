//! What answers a live text.

use crate::asked::Asked;
use command_parts::Stop;
use octet_io::{ByteSink, Failed};
use std::alloc::{AllocError, Global};
use text_got::TextBlock;

/// What answers the lines of a live text, and how they are read. It is made at the first line that says that something
/// happens.
pub trait Answerer: Drop {
    /// What reads the lines.
    type Reader: Drop;
    /// What a line says that happens.
    type Line: Copy;

    ghost use Rattle.std.specs.Prelude.{◌≡◌, ◌<◌, ℕ, List, [], ◌∷◌, ◌++◌, length, None, false};
    ghost use Rattle.std.specs.Prelude.{IfOk, IfErr, IfSome, OnOk, OnErr};
    ghost use Rattle.law_model.specs.Common.{AppendsPart, longest_input};
    ghost use Rattle.text_got.specs.TextSoFar.{Holds};
    ghost use Rattle.walk_live.specs.declared.asked.Asked.{Asked};
    ghost use Rattle.walk_live.specs.LiveTexts.{LiveText};
    ghost use Rattle.walk_live.specs.Answering.{AnswersLine, IsLive, IsQuiet, StopsReader};

    /// What is replied to the lines.
    ghost text: { LiveText };

    /// A reader has read these lines, none of which is faulty.
    ghost HasRead: { Self.Reader → List (List ℕ) → Type 0 };

    /// These lines were answered, with what is asked for.
    ghost HasAnswered: { Self → Asked → List (List ℕ) → Type 0 };

    /// Nothing happened by these lines, and a reader has what an answerer is made of.
    ghost Waits: { Self.Reader → List (List ℕ) → Type 0 };

    /// By a line behind these this happens, whose octets a reader has.
    ghost Says: { Self.Reader → Self.Line → List (List ℕ) → List ℕ → Type 0 };

    /// A reader that has read nothing.
    fn new_reader(alloc: Global) -> Result<Self::Reader, AllocError>
        ensures begins { text.begun [] ≡ false }
        ensures reads { IfOk result (λ reader. HasRead reader []) };

    /// Reads a line. Answers what it says that happens.
    fn read(reader: &mut Self::Reader, line: &[u8]) -> Result<Option<Self::Line>, Stop>
        requires { (ls : List (List ℕ)) × HasRead reader.old ls × (length ls < longest_input) }
        ensures fine { (ls : List (List ℕ)) → HasRead reader.old ls →
            OnOk result (text.fault ls line.now ≡ None) }
        ensures reads { (ls : List (List ℕ)) → HasRead reader.old ls →
            OnOk result (HasRead reader.new (ls ++ line.now ∷ [])) }
        ensures quiet { (ls : List (List ℕ)) → HasRead reader.old ls →
            IfOk result (λ says. says ≡ None → IsQuiet text HasAnswered ls line.now) }
        ensures live { (ls : List (List ℕ)) → HasRead reader.old ls →
            IfOk result (λ says. IfSome says
            (λ says. IsLive text Waits Says reader.new says ls line.now)) }
        ensures stops { (ls : List (List ℕ)) → HasRead reader.old ls →
            IfErr result (StopsReader (text.begun ls) (text.fault ls line.now)) };

    /// One that has answered nothing, by what a reader has.
    fn open(alloc: Global, reader: &mut Self::Reader, tells: Asked) -> Result<Self, AllocError>
        requires { (ls : List (List ℕ)) × Waits reader.old ls }
        ensures answers { (ls : List (List ℕ)) → Waits reader.old ls →
            IfOk result (λ own. HasAnswered own tells ls) }
        ensures reads { (ls : List (List ℕ)) → HasRead reader.old ls → HasRead reader.new ls }
        ensures says { (says : Self.Line) (ls : List (List ℕ)) (line : List ℕ) →
            Says reader.old says ls line → Says reader.new says ls line };

    /// Ends the text.
    fn end(reader: &mut Self::Reader) -> Result<(), Stop>
        requires { (ls : List (List ℕ)) × HasRead reader.old ls }
        ensures whole { (ls : List (List ℕ)) → HasRead reader.old ls →
            OnOk result (text.missing ls ≡ None) }
        ensures waits { (ls : List (List ℕ)) → HasRead reader.old ls → text.begun ls ≡ false →
            OnOk result (Waits reader.new ls) }
        ensures stops { (ls : List (List ℕ)) → HasRead reader.old ls →
            IfErr result (StopsReader (text.begun ls) (text.missing ls)) };

    /// Answers a line by which this happens.
    fn say<K: ByteSink>(
        &mut self,
        says: Self::Line,
        reader: &Self::Reader,
        block: &mut TextBlock,
        out: &mut K,
    ) -> Result<(), Failed>
        requires { (asked : Asked) × (ls : List (List ℕ)) × (line : List ℕ)
            × HasAnswered self.old asked ls × Says reader.now says ls line }
        ensures answers { (asked : Asked) (ls : List (List ℕ)) (line : List ℕ) →
            HasAnswered self.old asked ls → Says reader.now says ls line →
            OnOk result (AnswersLine text HasAnswered K.written K.faults out.old out.new block.old
            block.new self.new asked ls line) }
        ensures part { (asked : Asked) (ls : List (List ℕ)) (line : List ℕ) →
            HasAnswered self.old asked ls → Says reader.now says ls line →
            OnErr result (AppendsPart K.written K.faults out.old out.new
            (block.old ++ text.answer asked ls line)) };

    /// Answers the end of the text.
    fn say_last<K: ByteSink>(&self, block: &mut TextBlock, out: &mut K) -> Result<(), Failed>
        ensures told { (asked : Asked) (ls : List (List ℕ)) → HasAnswered self.now asked ls →
            OnOk result (Holds K.written K.faults out.old out.new block.new
            (block.old ++ text.last ls)) }
        ensures part { (asked : Asked) (ls : List (List ℕ)) → HasAnswered self.now asked ls →
            OnErr result (AppendsPart K.written K.faults out.old out.new
            (block.old ++ text.last ls)) };
}
