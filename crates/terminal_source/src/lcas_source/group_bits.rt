//! The bits of a group (GID), packet by packet.

ghost use Rattle.std.specs.Prelude.{◌≡◌, ◌∷◌, [], ◌++◌, false, drop, slice_index_or};
ghost use Rattle.law_model.specs.Common.{xor, bits_from};

use std::marker::Model;

/// The bits of a packet and of the fourteen after it.
#[derive(Clone, Copy)]
pub struct GroupBits {
    /// Fifteen bits, the first one the most significant.
    register: u16,
}

impl Model for GroupBits {
    ghost use Rattle.std.specs.Prelude.{List, Bool, ◌<◌, ◌^◌};
    ghost use Rattle.law_model.specs.Common.{bits, number};
    ghost use Rattle.std.proofs.Common.{◌∙◌, ap, mod-eq_of_lt};
    ghost use Rattle.check_remainder.proofs.NumberAndOctetBitsLaws.{number-bits};

    ghost Value = { List Bool };

    ghost view = { λ group. bits 15 group.register };

    ghost invariant = { λ group. group.register < 2 ^ 15 };

    ghost inverse = { λ group. record { register = number group } };

    ghost inverse_ok = { λ group within. ap (λ register. record { register = register })
        (number-bits 15 group.register ∙ mod-eq_of_lt within) };
}

impl GroupBits {
    /// Those from the first packet on.
    pub fn new() -> GroupBits
        ensures { result ≡ bits_from 0 }
    {
        GroupBits { register: 0x7fff }
    }

    /// The bit of the packet.
    pub fn first(&self) -> bool
        ensures { result ≡ slice_index_or self.now 0 false }
    {
        self.register >> 14 == 1
    }

    /// Goes on to the next packet.
    pub fn advance(&mut self)
        ensures { self.new ≡ drop 1 self.old
            ++ xor (slice_index_or self.old 0 false) (slice_index_or self.old 1 false) ∷ [] }
    {
        let first = self.register >> 14;
        let second = (self.register >> 13) % 2;
        self.register = self.register % (1 << 14) * 2 + (first ^ second);
    }
}
