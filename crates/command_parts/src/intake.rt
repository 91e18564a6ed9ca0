//! The octets of an input that have come and weren't heard yet, and the one call that takes more.
ghost use Rattle.std.specs.Prelude.{◌≡◌, ◌≤◌, ℕ, List, [], ◌++◌, length, drop, IfOk, OnOk, OnErr};
ghost use Rattle.std.specs.Io.KnownBytes.{prepend_known, IsAtEnd};
ghost use Rattle.octet_io.specs.FaultCounts.{one_more};
ghost use Rattle.text_lines.specs.Cut.{Lacks};

use octet_io::{ByteSource, Failed};
use std::marker::Model;
use text_got::TextBlock;

/// Room for a line with its LF, or for one that is too long.
const ROOM: usize = 262_145;

/// Octets that have come and weren't heard yet.
#[derive(Drop)]
pub(crate) struct Intake {
    /// They stand at the front.
    octets: [u8; ROOM],
    /// How many there are.
    len: usize,
}

impl Model for Intake {
    ghost use Rattle.std.specs.Prelude.{ℕ, List, ◌≤◌, take};

    ghost Value = { List ℕ };

    ghost view = { λ intake. take intake.len intake.octets };

    ghost invariant = { λ intake. intake.len ≤ 262145 };
}

impl Intake {
    /// Nothing has come.
    pub(crate) fn new() -> Intake
        ensures { result ≡ [] }
    {
        Intake {
            octets: [0; ROOM],
            len: 0,
        }
    }

    /// Takes octets of an input while nothing waits to be written and no whole line is unheard: whoever waits for an
    /// answer has it by then. Nothing else reads the input of a conversation.
    pub(crate) fn take_quiet<S: ByteSource>(
        &mut self,
        source: &mut S,
        block: &TextBlock,
    ) -> Result<usize, Failed>
        requires quiet { block.now ≡ [] }
        requires room { length self.old ≤ 262144 }
        requires whole { Lacks 10 self.old }
        ensures took { IfOk result (λ n. (piece : List ℕ) × (length piece ≡ n)
            × (length piece ≤ 262145) × (self.new ≡ self.old ++ piece)
            × (S.left source.old ≡ prepend_known piece (S.left source.new))) }
        ensures end { IfOk result (λ n. n ≡ 0 → IsAtEnd (S.left source.new)) }
        ensures stays { OnErr result (S.left source.new ≡ S.left source.old) }
        ensures unfailed { OnOk result (S.faults source.new ≡ S.faults source.old) }
        ensures counted { OnErr result (S.faults source.new ≡ one_more (S.faults source.old)) }
    {
        let _ = block;
        match source.take(&mut self.octets[self.len..]) {
            Ok(n) => {
                self.len += n;
                Ok(n)
            }
            Err(Failed) => Err(Failed),
        }
    }

    /// The octets that have come.
    pub(crate) fn octets(&self) -> &[u8]
        ensures { result.now ≡ self.now }
    {
        &self.octets[..self.len]
    }

    /// Lets octets go that were heard, and moves the others down.
    pub(crate) fn let_go(&mut self, n: usize)
        requires { n ≤ length self.old }
        ensures { self.new ≡ drop n self.old }
    {
        self.octets[..].copy_within(n..self.len, 0);
        self.len -= n;
    }
}
