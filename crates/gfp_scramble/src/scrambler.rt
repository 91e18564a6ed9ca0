//! The scrambler, by octets, words and areas.

ghost use Rattle.std.specs.Prelude.{◌≡◌, ◌%◌, [], ◌∷◌, length};
ghost use Rattle.std.specs.Int.{to_be_bytes, w64};
ghost use Rattle.gfp_scramble.specs.Scrambler.{ScramblerStands, Continues, ScramblesTo};

use std::marker::Model;

/// Scrambles a list of octets, in pieces of any length.
#[derive(Clone, Copy, Debug)]
pub struct Scrambler {
    // The last 43 scrambled bits, in the upper bits of a word: the chain from word to word is two operations
    // shorter so.
    last: u64,
}

impl Model for Scrambler {
    ghost use Rattle.std.specs.Prelude.{◌^◌, ◌<◌};
    ghost use Rattle.law_model.specs.Common.{bits, number};
    ghost use Rattle.gfp_scramble.specs.Scrambler.{Scrambling};
    ghost use Rattle.std.specs.Prelude.{◌≡◌, ◌*◌, ◌/◌};
    ghost use Rattle.std.proofs.Common.{◌∙◌, ap, mod-eq_of_lt};
    ghost use Rattle.check_remainder.proofs.NumberAndOctetBitsLaws.{number-bits};

    ghost Value = { Scrambling };

    ghost view = { λ scrambler. record { last = bits 43 (scrambler.last / 2 ^ 21) } };

    ghost invariant = { λ scrambler. (scrambler.last / 2 ^ 21 < 2 ^ 43)
        × (scrambler.last / 2 ^ 21 * 2 ^ 21 ≡ scrambler.last) };

    ghost inverse = { λ scrambling. record { last = number scrambling.last * 2 ^ 21 } };

    ghost inverse_ok = { λ scrambler within. ap (λ last. record { last = last })
        (ap (λ r. r * 2 ^ 21) (number-bits 43 (scrambler.last / 2 ^ 21) ∙ mod-eq_of_lt within.0) ∙ within.1) };
}

impl Scrambler {
    /// A scrambler before whose octets there are 43 bits of 0.
    pub fn new() -> Scrambler
        ensures { ScramblerStands result [] }
    {
        Scrambler { last: 0 }
    }

    /// The next octet, scrambled.
    #[inline]
    pub fn byte(&mut self, o: u8) -> u8
        ensures stands { Continues self.old self.new (o ∷ []) }
        ensures answer { ScramblesTo self.old (o ∷ []) (result ∷ []) }
    {
        let scrambled = o ^ (self.last >> 56) as u8;
        self.last = self.last % (1 << 56) * 256 + u64::from(scrambled) * (1 << 21);
        scrambled
    }

    /// The next eight octets, scrambled. The first one is the most significant of the word.
    #[inline]
    pub fn word(&mut self, w: u64) -> u64
        ensures stands { Continues self.old self.new (to_be_bytes w64 w) }
        ensures answer { ScramblesTo self.old (to_be_bytes w64 w) (to_be_bytes w64 result) }
    {
        let upper = w ^ self.last;
        let scrambled = upper ^ (upper >> 43);
        self.last = scrambled % (1 << 43) * (1 << 21);
        scrambled
    }

    /// The next octets, scrambled in place.
    pub fn area(&mut self, area: &mut [u8])
        ensures stands { Continues self.old self.new area.old }
        ensures answer { ScramblesTo self.old area.old area.new }
    {
        let whole = area.len() / 8 * 8;
        let (words, rest) = area.split_at_mut(whole);
        // A copy of its own is kept in registers, where `self` may be what the area lies in.
        let mut local = *self;
        local.words(words);
        local.octets(rest);
        *self = local;
    }

    #[inline]
    fn words(&mut self, area: &mut [u8])
        requires { length area.old % 8 ≡ 0 }
        ensures stands { Continues self.old self.new area.old }
        ensures answer { ScramblesTo self.old area.old area.new }
    {
        for i in 0..area.len() / 8 {
            self.eight(&mut area[8 * i..8 * i + 8]);
        }
    }

    #[inline]
    fn eight(&mut self, area: &mut [u8])
        requires { length area.old ≡ 8 }
        ensures stands { Continues self.old self.new area.old }
        ensures answer { ScramblesTo self.old area.old area.new }
    {
        let scrambled = self.word(word_of(area));
        area.copy_from_slice(&octets_of_word(scrambled));
    }

    #[inline]
    fn octets(&mut self, area: &mut [u8])
        ensures stands { Continues self.old self.new area.old }
        ensures answer { ScramblesTo self.old area.old area.new }
    {
        for octet in area.iter_mut() {
            *octet = self.byte(*octet);
        }
    }
}

// The word that eight octets are.
#[inline]
pub(crate) fn word_of(octets: &[u8]) -> u64
    requires { length octets.now ≡ 8 }
    ensures { to_be_bytes w64 result ≡ octets.now }
{
    u64::from_be_bytes([
        octets[0], octets[1], octets[2], octets[3], octets[4], octets[5], octets[6], octets[7],
    ])
}

// The octets of a word. In this order LLVM makes one exchange of them.
#[inline]
pub(crate) fn octets_of_word(word: u64) -> [u8; 8]
    ensures { result ≡ to_be_bytes w64 word }
{
    word.swap_bytes().to_le_bytes()
}
