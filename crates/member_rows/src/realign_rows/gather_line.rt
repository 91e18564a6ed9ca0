//! One line of a group.

ghost use Rattle.std.specs.Prelude.{◌≡◌, ℕ, ◌+◌, ◌%◌, ◌<◌, List, [], Some, IfSome};
ghost use Rattle.law_model.specs.Common.{Container, Cell, verdict, upper_of};
ghost use Rattle.member_path.specs.cell_numbers.SignsAsCells.{told_by};
ghost use Rattle.member_path.specs.cell_numbers.Numbers.{IsOpen};
ghost use Rattle.member_rows.specs.realign_rows.Line.{LineStands};

use crate::realign_rows::packet_nibbles::PacketNibbles;
use check_nibbles::nibble_hi;
use member_cells::Container;
use member_path::cell_numbers::{LineNumbers, Verdict};
use std::marker::Model;

/// The numbers of a line, and the nibbles of its packets.
#[derive(Drop)]
pub(super) struct GatherLine {
    pub(super) numbers: LineNumbers,
    pub(super) nibbles: PacketNibbles,
}

impl Model for GatherLine {
    ghost use Rattle.member_rows.specs.realign_rows.Line.{Line};

    ghost Value = { Line };

    ghost view = { λ line. record { numbers = line.numbers; begun = line.nibbles } };
}

impl GatherLine {
    /// A line of which no cell has come.
    pub(super) fn new() -> GatherLine
        ensures stands { (place : Container) → LineStands result place [] 0 }
        ensures open { IsOpen result.numbers }
    {
        GatherLine {
            numbers: LineNumbers::new(),
            nibbles: PacketNibbles::new(),
        }
    }

    /// What is said of the next number, which is decided.
    pub(super) fn verdict<'a>(&self, place: &'a Container) -> Verdict<'a>
        requires decided { IsOpen self.now.numbers → ⊥ }
        ensures told { (own : List Cell) (t : ℕ) → LineStands self.now place.now own t →
            verdict own t ≡ Some (told_by result) }
    {
        match self.numbers.verdict(place) {
            Some(verdict) => verdict,
            None => unreachable!(),
        }
    }

    /// Passes the next number, which is decided, and is number `j` of a packet.
    pub(super) fn pass(&mut self, place: &Container, j: usize)
        requires decided { IsOpen self.old.numbers → ⊥ }
        requires place { j < 16 }
        ensures stands { (own : List Cell) (t : ℕ) → LineStands self.old place.now own t →
            j ≡ (t + 8) % 16 → LineStands self.new place.now own (t + 1) }
    {
        let upper = upper_half(self.verdict(place));
        self.nibbles.take(j, upper);
        self.numbers.next();
    }
}

/// The upper half of the H4 of a number, where it is whole.
fn upper_half(verdict: Verdict<'_>) -> Option<u8>
    ensures value { result ≡ upper_of (Some (told_by verdict.entry)) }
    ensures below { IfSome result (λ nibble. nibble < 16) }
{
    match verdict {
        Verdict::Whole(container) => Some(nibble_hi(container.h4)),
        Verdict::Bad => None,
    }
}
