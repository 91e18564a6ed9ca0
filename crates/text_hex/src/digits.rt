//! A digit's character and its value, of one digit and of sixteen.

ghost use Rattle.std.specs.Prelude.{◌≡◌, ◌⊎◌, ℕ, ◌<◌, ◌≤◌, length, nat_lt, Some, true, false, slice_index};
ghost use Rattle.hex.specs.Hex.{lower_digits, hex_digit_value, is_hex_digit};

use std::simd::prelude::*;

// The lower-case digit of a value.
#[inline]
pub(crate) fn digit(value: u8) -> u8
    requires { value < 16 }
    ensures { result ≡ slice_index lower_digits value }
{
    if value < 10 {
        value + b'0'
    } else {
        value + (b'a' - 10)
    }
}

// Whether a character is a digit, in either case.
#[inline]
pub(crate) fn is_digit(c: u8) -> bool
    ensures { result ≡ is_hex_digit c }
{
    (c.wrapping_sub(b'0') < 10) | ((c | 0x20).wrapping_sub(b'a') < 6)
}

// The value of a digit; some value where it's none.
#[inline]
pub(crate) fn value(c: u8) -> u8
    ensures within { result < 16 }
    ensures value { is_hex_digit c ≡ true → hex_digit_value c ≡ Some result }
{
    (c % 16 + (c >> 6) * 9) % 16
}

// The values of sixteen digits; more than fifteen where a character is none. A figure is counted from `0`, and
// a letter of either case from `A`; what is neither is far from both.
#[inline]
pub(crate) fn values(chars: u8x16) -> u8x16
    requires { length chars ≡ 16 }
    ensures { (length result ≡ 16) × ((i : ℕ) → i < 16 → let c = slice_index chars i in
        (nat_lt (slice_index result i) 16 ≡ is_hex_digit c)
        × (is_hex_digit c ≡ true → hex_digit_value c ≡ Some (slice_index result i))) }
{
    let figures = (chars + u8x16::splat(198)).simd_max(u8x16::splat(6)) - u8x16::splat(246);
    let letters = ((chars & u8x16::splat(0xdf)) - u8x16::splat(b'A')).simd_min(u8x16::splat(245))
        + u8x16::splat(10);
    figures.simd_min(letters)
}

// Whether values of two times sixteen characters are those of digits.
#[inline]
pub(crate) fn are_digits(upper: u8x16, lower: u8x16) -> bool
    requires uppers { length upper ≡ 16 }
    requires lowers { length lower ≡ 16 }
    ensures upper { result ≡ true → (i : ℕ) → i < 16 → slice_index upper i < 16 }
    ensures lower { result ≡ true → (i : ℕ) → i < 16 → slice_index lower i < 16 }
    ensures other { result ≡ false → (i : ℕ) × (i < 16)
        × ((16 ≤ slice_index upper i) ⊎ (16 ≤ slice_index lower i)) }
{
    (upper | lower).simd_gt(u8x16::splat(15)).to_bitmask() == 0
}
