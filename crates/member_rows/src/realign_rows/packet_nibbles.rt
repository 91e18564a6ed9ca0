//! The nibbles of a control packet of a line, number by number.

ghost use Rattle.std.specs.Prelude.{◌≡◌, ◌==◌, ◌||◌, ℕ, ◌+◌, ◌%◌, ◌<◌, List, IfSome};
ghost use Rattle.law_model.specs.Common.{Cell, verdict, upper_of};
ghost use Rattle.member_rows.specs.realign_rows.BegunNibbles.{HasNibbles, packet_at};

use crate::lcas_packet::{Packet, read};
use std::marker::Model;

/// The numbers of a packet.
pub(super) const NIBBLES: usize = 16;

/// The nibbles of the packet that a line has begun.
#[derive(Clone, Copy)]
pub(super) struct PacketNibbles {
    nibbles: [u8; NIBBLES],
    /// Whether its numbers so far are all whole.
    whole: bool,
}

impl Model for PacketNibbles {
    ghost use Rattle.std.specs.Prelude.{◌≡◌, ◌<◌, All};
    ghost use Rattle.member_rows.specs.realign_rows.BegunNibbles.{Begun};

    ghost Value = { Begun };

    ghost invariant = { λ begun. All (λ nibble. nibble < 16) begun.nibbles };

    ghost view = { λ begun. record { nibbles = begun.nibbles; whole = begun.whole } };

    ghost inverse = { λ begun. record { nibbles = begun.nibbles; whole = begun.whole } };
}

impl PacketNibbles {
    /// The nibbles of a line of which no number was passed.
    pub(super) fn new() -> PacketNibbles
        ensures { (own : List Cell) → HasNibbles result own 0 }
    {
        PacketNibbles {
            nibbles: [0; NIBBLES],
            whole: false,
        }
    }

    /// Takes the next number, which is number `j` of a packet: the upper half of its H4, where it is whole.
    pub(super) fn take(&mut self, j: usize, upper: Option<u8>)
        requires place { j < 16 }
        requires nibble { IfSome upper (λ nibble. nibble < 16) }
        ensures nibbles { (own : List Cell) (t : ℕ) → HasNibbles self.old own t → j ≡ (t + 8) % 16 →
            upper_of (verdict own t) ≡ upper → HasNibbles self.new own (t + 1) }
    {
        match upper {
            Some(nibble) => {
                self.nibbles[j] = nibble;
                self.whole = goes_on(j, self.whole);
            }
            None => self.whole = false,
        }
    }

    /// The packet whose last number was passed just now, if it is one.
    pub(super) fn packet(&self) -> Option<Packet>
        ensures { (own : List Cell) (t : ℕ) → HasNibbles self.now own t → t % 16 ≡ 8 →
            result ≡ packet_at own t }
    {
        if self.whole {
            read(&self.nibbles).ok()
        } else {
            None
        }
    }
}

/// A packet goes on where it begins, or was whole so far.
fn goes_on(j: usize, whole: bool) -> bool
    ensures { result ≡ ((j == 0) || whole) }
{
    j == 0 || whole
}
