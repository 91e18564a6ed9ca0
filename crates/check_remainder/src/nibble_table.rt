//! The remainder of nibbles one by one, with a table of what each of them leaves.
ghost use Rattle.std.specs.Prelude.{◌≡◌, ◌^◌, ◌<◌, ◌≤◌, nat_lt, Bool, List, ◌++◌, length, All, IsTrue};
ghost use Rattle.std.specs.List.{list_all};
ghost use Rattle.check_remainder.specs.Bits.{bits};
ghost use Rattle.check_remainder.specs.Remainder.{remainder};
ghost use Rattle.check_remainder.specs.DivisionTable.{IsTable, nibble_bits};

/// The remainder of a word with a nibble behind it, from that of the word, which is `register`. `table` has the
/// remainders of the nibbles by the generator, whose degree is `DEGREE`.
#[inline]
fn with_nibble<const DEGREE: u32>(table: &[u32; 16], register: u32, nibble: u8) -> u32
    requires least { 4 ≤ DEGREE }
    requires most { DEGREE ≤ 32 }
    requires entries { IsTrue (list_all (λ entry. nat_lt entry (2 ^ DEGREE)) table.now) }
    requires register { register < 2 ^ DEGREE }
    requires nibble { nibble < 16 }
    ensures within { result < 2 ^ DEGREE }
    ensures behind { (lower word : List Bool) → length lower ≡ DEGREE → IsTable lower table.now →
        bits DEGREE register ≡ remainder lower word →
        bits DEGREE result ≡ remainder lower (word ++ bits 4 nibble) }
{
    let upper = register >> (DEGREE - 4);
    let lower = register % (1 << (DEGREE - 4));
    (lower << 4) ^ table[(upper ^ u32::from(nibble)) as usize]
}

/// The remainder of the word that is made of nibbles. `table` has the remainders of the nibbles by the generator, whose
/// degree is `DEGREE`.
#[inline]
pub fn remainder_of_nibbles<const DEGREE: u32>(table: &[u32; 16], nibbles: &[u8]) -> u32
    requires least { 4 ≤ DEGREE }
    requires most { DEGREE ≤ 32 }
    requires entries { IsTrue (list_all (λ entry. nat_lt entry (2 ^ DEGREE)) table.now) }
    requires nibbles { All (λ nibble. nibble < 16) nibbles.now }
    ensures within { result < 2 ^ DEGREE }
    ensures remainder { (lower : List Bool) → length lower ≡ DEGREE → IsTable lower table.now →
        bits DEGREE result ≡ remainder lower (nibble_bits nibbles.now) }
{
    let mut register = 0;
    for nibble in nibbles {
        register = with_nibble::<DEGREE>(table, register, *nibble);
    }
    register
}
