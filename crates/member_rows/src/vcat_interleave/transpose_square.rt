//! Squares of sixteen rows by sixteen columns of octets, each row in a vector.
ghost use Rattle.std.specs.Prelude.{◌≡◌, ℕ, ◌+◌, ◌*◌, ◌/◌, ◌%◌, ◌<◌, ◌≤◌, ◌⊎◌, ◌++◌, length, take, drop, slice_index};
ghost use Rattle.member_rows.specs.vcat_interleave.Square.{octet_at, overhang};

use std::simd::prelude::*;

/// The rows and the columns of a square.
pub(super) const SIDE: usize = 16;

/// The octets of both, one of each in turn.
#[inline]
fn in_turn(a: u8x16, b: u8x16) -> (u8x16, u8x16)
    ensures front { (n : ℕ) → n < 8 →
        (slice_index result.0 (2 * n) ≡ slice_index a n) ×
        (slice_index result.0 (2 * n + 1) ≡ slice_index b n) }
    ensures back { (n : ℕ) → n < 8 →
        (slice_index result.1 (2 * n) ≡ slice_index a (n + 8)) ×
        (slice_index result.1 (2 * n + 1) ≡ slice_index b (n + 8)) }
{
    a.interleave(b)
}

/// The rows of the upper half and those of the lower half, in turn octet by octet.
#[inline]
fn round(rows: [u8x16; 16]) -> [u8x16; 16]
    ensures { (r c : ℕ) → r < 16 → c < 16 →
        octet_at result r c ≡ octet_at rows (r / 2 + 8 * (c % 2)) (8 * (r % 2) + c / 2) }
{
    let mut all = rows;
    for i in 0..8 {
        let (low, high) = in_turn(rows[i], rows[i + 8]);
        all[2 * i] = low;
        all[2 * i + 1] = high;
    }
    all
}

// The columns of a square as rows.
#[inline]
pub(super) fn turned(rows: [u8x16; 16]) -> [u8x16; 16]
    ensures { (r c : ℕ) → r < 16 → c < 16 → octet_at result r c ≡ octet_at rows c r }
{
    round(round(round(round(rows))))
}

// Sixteen octets from a place on.
#[inline]
pub(super) fn octets_of(octets: &[u8], at: usize) -> u8x16
    requires { at + 16 ≤ length octets.now }
    ensures { (i : ℕ) → i < 16 → slice_index result i ≡ slice_index octets.now (at + i) }
{
    u8x16::from_slice(&octets[at..at + SIDE])
}

// Puts sixteen octets at a place.
#[inline]
pub(super) fn put_octets(row: u8x16, at: usize, out: &mut [u8])
    requires { at + 16 ≤ length out.old }
    ensures octets { out.new ≡ take at out.old ++ (row ++ drop (at + 16) out.old) }
    ensures placed { (i : ℕ) → i < 16 → slice_index out.new (at + i) ≡ slice_index row i }
    ensures others { (n : ℕ) → (n < at) ⊎ (at + 16 ≤ n) →
        slice_index out.new n ≡ slice_index out.old n }
{
    let (_, rest) = out.split_at_mut(at);
    let (place, _) = rest.split_at_mut(SIDE);
    row.copy_to_slice(place);
}

// How many squares of places are done by squares: none where there are fewer ranks than a square has.
#[inline]
pub(super) fn squares_of(x: usize, places: usize) -> usize
    ensures within { result * 16 ≤ places }
    ensures least { 0 < result → 16 ≤ x }
{
    if x < SIDE { 0 } else { places / SIDE }
}

// How many squares of places are done in a row: none of one member and of two, which are done by themselves,
// and none that reaches behind its end.
pub(super) fn squares_over(x: usize, len: usize) -> usize
    ensures within { (places : ℕ) → len ≡ places * x → result * 16 ≤ places }
    ensures room { 0 < result → result * 16 * x + overhang x ≤ len }
    ensures some { 0 < result → 1 < x }
{
    let beyond = (SIDE - x % SIDE) % SIDE;
    if x < 3 || len < beyond {
        0
    } else {
        (len - beyond) / x / SIDE
    }
}
