//! The check, octet by octet: what an octet leaves of the generator is made by shifts, with no table and no loop.
ghost use Rattle.std.specs.Prelude.{◌≡◌, ◌↔◌, Bool, List, ◌++◌, IsTrue};
ghost use Rattle.check_remainder.specs.Bits.{bits};
ghost use Rattle.check_remainder.specs.Remainder.{IsRemainder, remainder};
ghost use Rattle.check_hec16.specs.Hec.{crc16, hec_of};

/// The header error control of a word: its remainder by `x^16 + x^12 + x^5 + 1` (G.7041; cHEC, tHEC and eHEC).
#[inline]
pub fn hec(word: u16) -> u16
    ensures value { result ≡ hec_of word }
    ensures remainder { IsRemainder crc16 (bits 16 word) (bits 16 result) }
    ensures only { (rest : List Bool) → IsRemainder crc16 (bits 16 word) rest →
        rest ≡ bits 16 result }
{
    let [upper, lower] = word.to_be_bytes();
    with_octet(with_octet(0, upper), lower)
}

/// What an octet leaves of the generator.
#[inline]
fn left_of_octet(o: u8) -> u16
    ensures { bits 16 result ≡ remainder crc16 (bits 8 o) }
{
    let folded = u16::from(o ^ (o >> 4));
    (folded % 16 * 4096) ^ (folded * 32) ^ folded
}

/// The remainder of bits with an octet after them, from that of the bits, which is `register`.
#[inline]
fn with_octet(register: u16, o: u8) -> u16
    ensures { (before : List Bool) → bits 16 register ≡ remainder crc16 before →
        bits 16 result ≡ remainder crc16 (before ++ bits 8 o) }
{
    (register % 256 * 256) ^ left_of_octet((register >> 8) as u8 ^ o)
}

/// Whether a word has this check.
#[inline]
pub fn hec_ok(word: u16, check: u16) -> bool
    ensures { IsTrue result ↔ (check ≡ hec_of word) }
{
    check == hec(word)
}
