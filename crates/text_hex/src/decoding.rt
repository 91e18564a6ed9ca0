//! Text to octets.

ghost use Rattle.std.specs.Prelude.{◌≡◌, ◌≢◌, ℕ, ◌+◌, ◌*◌, ◌/◌, ◌%◌, ◌<◌, ◌≤◌, List, ◌++◌, length, true, false, Result};
ghost use Rattle.std.specs.Prelude.{Ok, Some, OnOk, OnErr, vec_len, slice_index, vec_capacity};
ghost use Rattle.hex.specs.Hex.{decode_of, hex_digit_value, is_hex_digit};

use crate::digits::{are_digits, is_digit, value, values};
use std::simd::prelude::*;

// How many pairs are read at once.
const PAIRS: usize = 16;

/// A text that isn't pairs of hexadecimal digits.
#[derive(Clone, Copy, Debug, PartialEq, Eq)]
pub struct NotHex;

/// Appends the octets that a text says, in digits of either case. Where it says none, the octets stay as they
/// were. There has to be room for half as many octets as the text has characters.
pub fn decode_into(text: &[u8], octets: &mut Vec<u8>) -> Result<(), NotHex>
    requires room { vec_len octets.old + length text.now / 2 ≤ vec_capacity octets.old }
    ensures ok { OnOk result ((bytes : List ℕ) × (decode_of text.now ≡ Ok bytes)
        × (octets.new.items ≡ octets.old.items ++ bytes)) }
    ensures refused { OnErr result ((bytes : List ℕ) → decode_of text.now ≢ Ok bytes) }
    ensures unchanged { OnErr result (octets.new.items ≡ octets.old.items) }
    ensures capacity { vec_capacity octets.old ≤ vec_capacity octets.new }
    ensures len { OnOk result (vec_len octets.new ≡ vec_len octets.old + length text.now / 2) }
{
    if text.len() % 2 == 1 {
        return Err(NotHex);
    }
    let start = octets.len();
    match octets.resize(start + text.len() / 2, 0) {
        Ok(()) => {}
        Err(_) => unreachable!(),
    }
    if decode(text, &mut octets[start..]) {
        Ok(())
    } else {
        octets.truncate(start);
        Err(NotHex)
    }
}

/// Writes the octets that pairs of digits say, and says whether all were digits. It goes on to the last pair
/// in any case, so that no jump stands between the pairs.
fn decode(text: &[u8], octets: &mut [u8]) -> bool
    requires { length text.now ≡ 2 * length octets.old }
    ensures yes { result ≡ true → decode_of text.now ≡ Ok octets.new }
    ensures no { result ≡ false → (bytes : List ℕ) → decode_of text.now ≢ Ok bytes }
{
    let mut right = true;
    let mut done = 0;
    while done + PAIRS <= octets.len() {
        right = right & decode_sixteen(text, 2 * done, &mut octets[done..done + PAIRS]);
        done += PAIRS;
    }
    for i in done..octets.len() {
        let upper = text[2 * i];
        let lower = text[2 * i + 1];
        right = right & is_digit(upper) & is_digit(lower);
        octets[i] = value(upper) * 16 + value(lower);
    }
    right
}

/// Writes the octets that sixteen pairs of digits say, and says whether all were digits.
#[inline]
fn decode_sixteen(text: &[u8], at: usize, octets: &mut [u8]) -> bool
    requires pairs { at + 32 ≤ length text.now }
    requires room { length octets.old ≡ 16 }
    ensures upper { result ≡ true → (i : ℕ) → i < 16 →
        hex_digit_value (slice_index text.now (at + 2 * i)) ≡ Some (slice_index octets.new i / 16) }
    ensures lower { result ≡ true → (i : ℕ) → i < 16 → hex_digit_value
        (slice_index text.now (at + 2 * i + 1)) ≡ Some (slice_index octets.new i % 16) }
    ensures other { result ≡ false → (i : ℕ) × (i < 32)
        × (is_hex_digit (slice_index text.now (at + i)) ≡ false) }
{
    let (upper, lower) = columns(text, at);
    let upper = values(upper);
    let lower = values(lower);
    joined(upper, lower).copy_to_slice(octets);
    are_digits(upper, lower)
}

/// The first digits of sixteen pairs, and the second ones.
#[inline]
fn columns(text: &[u8], at: usize) -> (u8x16, u8x16)
    requires { at + 32 ≤ length text.now }
    ensures upper { (n : ℕ) → n < 16 → slice_index result.0 n ≡ slice_index text.now (at + 2 * n) }
    ensures lower { (n : ℕ) → n < 16 →
        slice_index result.1 n ≡ slice_index text.now (at + 2 * n + 1) }
    ensures uppers { length result.0 ≡ 16 }
    ensures lowers { length result.1 ≡ 16 }
{
    let front = u8x16::from_slice(&text[at..]);
    let back = u8x16::from_slice(&text[at + PAIRS..]);
    front.deinterleave(back)
}

/// The octets of values of two digits each.
#[inline]
fn joined(upper: u8x16, lower: u8x16) -> u8x16
    requires uppers { length upper ≡ 16 }
    requires lowers { length lower ≡ 16 }
    ensures octets { (i : ℕ) → i < 16 → slice_index upper i < 16 → slice_index lower i < 16 →
        slice_index result i ≡ slice_index upper i * 16 + slice_index lower i }
    ensures lanes { length result ≡ 16 }
{
    upper * u8x16::splat(16) + lower
}
