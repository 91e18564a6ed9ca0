//! Octets to text.

ghost use Rattle.std.specs.Prelude.{◌≡◌, ℕ, ◌+◌, ◌*◌, ◌/◌, ◌%◌, ◌<◌, length, slice_index};
ghost use Rattle.hex.specs.Hex.{encode_lower, lower_digits};

use crate::digits::digit;
use std::simd::prelude::*;

// How many octets are written at once.
const SIDE: usize = 16;

// The lower-case digits.
const DIGITS: [u8; 16] = *b"0123456789abcdef";

/// Writes octets in lower-case digits, two for each, the upper half first. The text has to have room for exactly those.
pub fn encode(octets: &[u8], text: &mut [u8])
    requires { length text.old ≡ 2 * length octets.now }
    ensures { text.new ≡ encode_lower octets.now }
{
    let whole = octets.len() / SIDE * SIDE;
    let (front, back) = text.split_at_mut(2 * whole);
    encode_sixteens(&octets[..whole], front);
    encode_each(&octets[whole..], back);
}

/// Writes octets one by one.
fn encode_each(octets: &[u8], text: &mut [u8])
    requires { length text.old ≡ 2 * length octets.now }
    ensures { text.new ≡ encode_lower octets.now }
{
    for i in 0..octets.len() {
        text[2 * i] = digit(octets[i] / 16);
        text[2 * i + 1] = digit(octets[i] % 16);
    }
}

/// Writes octets sixteen by sixteen.
fn encode_sixteens(octets: &[u8], text: &mut [u8])
    requires sixteens { length octets.now % 16 ≡ 0 }
    requires room { length text.old ≡ 2 * length octets.now }
    ensures { text.new ≡ encode_lower octets.now }
{
    for i in 0..octets.len() / SIDE {
        encode_sixteen(
            &octets[SIDE * i..SIDE * i + SIDE],
            &mut text[2 * SIDE * i..2 * SIDE * i + 2 * SIDE],
        );
    }
}

/// Writes sixteen octets.
#[inline]
fn encode_sixteen(octets: &[u8], text: &mut [u8])
    requires sixteen { length octets.now ≡ 16 }
    requires room { length text.old ≡ 32 }
    ensures { text.new ≡ encode_lower octets.now }
{
    let all = u8x16::from_slice(octets);
    let (front, back) = digits(uppers(all)).interleave(digits(lowers(all)));
    let (first, second) = text.split_at_mut(SIDE);
    front.copy_to_slice(first);
    back.copy_to_slice(second);
}

/// The upper halves of octets.
#[inline]
fn uppers(all: u8x16) -> u8x16
    ensures { (i : ℕ) → i < 16 → slice_index result i ≡ slice_index all i / 16 }
{
    all / u8x16::splat(16)
}

/// The lower halves of octets.
#[inline]
fn lowers(all: u8x16) -> u8x16
    ensures { (i : ℕ) → i < 16 → slice_index result i ≡ slice_index all i % 16 }
{
    all % u8x16::splat(16)
}

/// The digits of values, by a table.
#[inline]
fn digits(values: u8x16) -> u8x16
    requires { (i : ℕ) → i < 16 → slice_index values i < 16 }
    ensures lanes { length result ≡ 16 }
    ensures digits { (i : ℕ) → i < 16 →
        slice_index result i ≡ slice_index lower_digits (slice_index values i) }
{
    u8x16::from_array(DIGITS).swizzle_dyn(values)
}
