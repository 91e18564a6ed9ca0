//! The descrambler, by octets, words and areas.

ghost use Rattle.std.specs.Prelude.{◌≡◌, ℕ, ◌%◌, ◌↔◌, Bool, true, false, List, [], ◌∷◌, length, IsTrue};
ghost use Rattle.std.specs.Int.{to_be_bytes, w64};
ghost use Rattle.gfp_scramble.specs.Descrambler.{DescramblerStands, IsKnown, Continues, DescramblesTo};

use crate::scrambler::{octets_of_word, word_of};
use std::marker::Model;

// How many octets have the 43 bits that a descrambler looks back on.
const SETTLED: u8 = 6;

/// Descrambles a list of octets, in pieces of any length.
#[derive(Clone, Copy, Debug)]
pub struct Descrambler {
    // The last 43 bits that were given.
    register: u64,
    // How many octets were given since it forgot, up to SETTLED.
    given: u8,
}

impl Model for Descrambler {
    ghost use Rattle.std.specs.Prelude.{◌^◌, ◌<◌, ◌≤◌};
    ghost use Rattle.law_model.specs.Common.{bits, number};
    ghost use Rattle.gfp_scramble.specs.Descrambler.{Descrambling};
    ghost use Rattle.std.proofs.Common.{◌∙◌, ap, mod-eq_of_lt};
    ghost use Rattle.check_remainder.proofs.NumberAndOctetBitsLaws.{number-bits};

    ghost Value = { Descrambling };

    ghost view = { λ descrambler. record { last = bits 43 descrambler.register; given = descrambler.given } };

    ghost invariant = { λ descrambler. (descrambler.register < 2 ^ 43) × (descrambler.given ≤ 6) };

    ghost inverse = { λ descrambling. record { register = number descrambling.last; given = descrambling.given } };

    ghost inverse_ok = { λ descrambler within. ap (λ register. record {
      register = register;
      given = descrambler.given;
    }) (number-bits 43 descrambler.register ∙ mod-eq_of_lt within.0) };
}

impl Descrambler {
    /// A descrambler that is settled: before its octets there are 43 bits of 0.
    pub fn new() -> Descrambler
        ensures { DescramblerStands result true [] }
    {
        Descrambler {
            register: 0,
            given: SETTLED,
        }
    }

    /// The next octet, descrambled.
    #[inline]
    pub fn byte(&mut self, o: u8) -> u8
        ensures stands { Continues self.old self.new (o ∷ []) }
        ensures answer { DescramblesTo self.old (o ∷ []) (result ∷ []) }
    {
        let descrambled = o ^ (self.register >> 35) as u8;
        self.register = self.register % (1 << 35) * 256 + u64::from(o);
        self.given = (self.given + 1).min(SETTLED);
        descrambled
    }

    /// The next eight octets, descrambled. The first one is the most significant of the word.
    #[inline]
    pub fn word(&mut self, w: u64) -> u64
        ensures stands { Continues self.old self.new (to_be_bytes w64 w) }
        ensures answer { DescramblesTo self.old (to_be_bytes w64 w) (to_be_bytes w64 result) }
    {
        let descrambled = w ^ (self.register * (1 << 21) + (w >> 43));
        self.register = w % (1 << 43);
        self.given = SETTLED;
        descrambled
    }

    /// The next octets, descrambled in place.
    pub fn area(&mut self, area: &mut [u8])
        ensures stands { Continues self.old self.new area.old }
        ensures answer { DescramblesTo self.old area.old area.new }
    {
        let whole = area.len() / 8 * 8;
        let (words, rest) = area.split_at_mut(whole);
        let mut local = *self;
        local.words(words);
        local.octets(rest);
        *self = local;
    }

    #[inline]
    fn words(&mut self, area: &mut [u8])
        requires { length area.old % 8 ≡ 0 }
        ensures stands { Continues self.old self.new area.old }
        ensures answer { DescramblesTo self.old area.old area.new }
    {
        for i in 0..area.len() / 8 {
            self.eight(&mut area[8 * i..8 * i + 8]);
        }
    }

    #[inline]
    fn eight(&mut self, area: &mut [u8])
        requires { length area.old ≡ 8 }
        ensures stands { Continues self.old self.new area.old }
        ensures answer { DescramblesTo self.old area.old area.new }
    {
        let descrambled = self.word(word_of(area));
        area.copy_from_slice(&octets_of_word(descrambled));
    }

    #[inline]
    fn octets(&mut self, area: &mut [u8])
        ensures stands { Continues self.old self.new area.old }
        ensures answer { DescramblesTo self.old area.old area.new }
    {
        for octet in area.iter_mut() {
            *octet = self.byte(*octet);
        }
    }

    /// Whether the octets that come are those that were scrambled: it is settled, or six octets were given since it
    /// forgot. That this is enough says `later` of `scrambling_law`.
    pub fn known(&self) -> bool
        ensures { (settled : Bool) (octets : List ℕ) → DescramblerStands self.now settled octets →
            IsTrue result ↔ IsKnown settled octets }
    {
        self.given == SETTLED
    }

    /// Forgets the octets before, and is settled again once six octets were given. From the seventh on, in whatever
    /// calls they come, they are those that were scrambled, by `later` of `scrambling_law`.
    pub fn forget(&mut self)
        ensures { DescramblerStands self.new false [] }
    {
        self.given = 0;
    }
}
