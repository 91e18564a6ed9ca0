//! Remainders of polynomials over 0 and 1, of which checks such as a CRC are made. The remainder of a word is
//! what a generator leaves of it, and of as many zeros after it as the generator's degree. It is computed
//! nibble by nibble, with a table of what each nibble leaves. No generator is known here. Begin with
//! `remainder_of_nibbles`; `remainder_law` says that a word has exactly one remainder.
#![tactic(auto)]

ghost use Rattle.std.specs.Prelude.{◌≡◌, Bool, List};
ghost use Rattle.check_remainder.specs.Remainder.{IsRemainder, remainder};

mod nibble_table;

pub use nibble_table::remainder_of_nibbles;

/// The law of remainders: by each generator each word has exactly one.
pub fn remainder_law()
    ensures exists { (lower word : List Bool) → IsRemainder lower word (remainder lower word) }
    ensures only { (lower word rest : List Bool) → IsRemainder lower word rest →
        rest ≡ remainder lower word }
{}
