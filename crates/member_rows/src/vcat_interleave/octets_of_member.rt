//! The octets of one member in a row.
ghost use Rattle.std.specs.Prelude.{◌≡◌, ◌≢◌, ℕ, ◌+◌, ◌*◌, ◌%◌, ◌<◌, ◌≤◌, true, ◌++◌, length, slice_index};
ghost use Rattle.law_model.specs.Common.{part_of};
ghost use Rattle.member_rows.specs.vcat_interleave.RepeatedRow.{ComesAgain};

use crate::vcat_interleave::transpose_square::{SIDE, octets_of, put_octets};
use std::simd::prelude::*;

// Puts the octets of a member at the places of its rank.
#[inline]
pub(super) fn put_rank(octets: &[u8], rank: usize, x: usize, row: &mut [u8])
    requires rank { rank < x }
    requires row { length row.old ≡ length octets.now * x }
    ensures placed { (p : ℕ) → p < length octets.now →
        slice_index row.new (p * x + rank) ≡ slice_index octets.now p }
    ensures others { (i : ℕ) → i % x ≢ rank → slice_index row.new i ≡ slice_index row.old i }
{
    for p in 0..octets.len() {
        row[p * x + rank] = octets[p];
    }
}

// Takes the octets of a member from the places of its rank.
#[inline]
pub(super) fn take_rank(row: &[u8], rank: usize, x: usize, octets: &mut [u8])
    requires rank { rank < x }
    requires row { length row.now ≡ length octets.old * x }
    ensures { octets.new ≡ part_of rank x (length octets.old) row.now }
{
    for p in 0..octets.len() {
        octets[p] = row[p * x + rank];
    }
}

// Takes the octets of a member, and by vectors where these come again and again in the row.
#[inline]
pub(super) fn take_part(row: &[u8], rank: usize, x: usize, again: bool, octets: &mut [u8])
    requires rank { rank < x }
    requires row { length row.now ≡ length octets.old * x }
    requires again { again ≡ true → ComesAgain row.now }
    ensures { octets.new ≡ part_of rank x (length octets.old) row.now }
{
    if again && octets.len() > 3 {
        take_again(row, rank, x, octets);
    } else if x == 2 {
        take_half(row, rank, octets);
    } else {
        take_rank(row, rank, x, octets);
    }
}

/// Takes the octets of one of two members.
fn take_half(row: &[u8], rank: usize, octets: &mut [u8])
    requires rank { rank < 2 }
    requires row { length row.now ≡ length octets.old * 2 }
    ensures { octets.new ≡ part_of rank 2 (length octets.old) row.now }
{
    let squares = octets.len() / SIDE;
    for k in 0..squares {
        put_octets(half_of(row, rank, k * SIDE), k * SIDE, octets);
    }
    for p in squares * SIDE..octets.len() {
        octets[p] = row[p * 2 + rank];
    }
}

/// The octets of one of two members at sixteen places.
#[inline]
fn half_of(row: &[u8], rank: usize, place: usize) -> u8x16
    requires rank { rank < 2 }
    requires within { place * 2 + 32 ≤ length row.now }
    ensures { (i : ℕ) → i < 16 →
        slice_index result i ≡ slice_index row.now ((place + i) * 2 + rank) }
{
    let (firsts, seconds) = by_turns(octets_of(row, place * 2), octets_of(row, place * 2 + SIDE));
    if rank == 0 { firsts } else { seconds }
}

/// Of the octets of two vectors, one after the other, those that stand first and those that stand second.
#[inline]
fn by_turns(a: u8x16, b: u8x16) -> (u8x16, u8x16)
    ensures firsts { (i : ℕ) → i < 16 →
        slice_index result.0 i ≡ slice_index (a ++ b) (i * 2) }
    ensures seconds { (i : ℕ) → i < 16 →
        slice_index result.1 i ≡ slice_index (a ++ b) (i * 2 + 1) }
    ensures long { length a ≡ 16 }
{
    a.deinterleave(b)
}

/// Takes the octets of a member where these come again and again in the row.
fn take_again(row: &[u8], rank: usize, x: usize, octets: &mut [u8])
    requires rank { rank < x }
    requires row { length row.now ≡ length octets.old * x }
    requires again { ComesAgain row.now }
    requires some { 3 < length octets.old }
    ensures { octets.new ≡ part_of rank x (length octets.old) row.now }
{
    let sixteen = sixteen_of(row, rank, x);
    let squares = octets.len() / SIDE;
    for k in 0..squares {
        put_octets(sixteen, k * SIDE, octets);
    }
    for p in squares * SIDE..octets.len() {
        octets[p] = row[p * x + rank];
    }
}

/// The octets of a member at sixteen places, where these come again and again in the row.
fn sixteen_of(row: &[u8], rank: usize, x: usize) -> u8x16
    requires rank { rank < x }
    requires some { 4 * x ≤ length row.now }
    requires again { ComesAgain row.now }
    ensures { (p : ℕ) → p * x + rank < length row.now →
        slice_index result (p % 16) ≡ slice_index row.now (p * x + rank) }
{
    let mut sixteen = [0; SIDE];
    for i in 0..SIDE {
        sixteen[i] = row[i % 4 * x + rank];
    }
    u8x16::from_array(sixteen)
}

// Whether each octet of a row is as the fourth one before it, as those of idle frames are.
pub(super) fn comes_again(row: &[u8]) -> bool
    ensures { result ≡ true → ComesAgain row.now }
{
    row.len() > 3 && row[4..] == row[..row.len() - 4]
}

// Puts the octets of two members in turn.
#[inline]
pub(super) fn put_pairs(first: &[u8], second: &[u8], row: &mut [u8])
    requires size { length second.now ≡ length first.now }
    requires row { length row.old ≡ length first.now * 2 }
    ensures firsts { (p : ℕ) → p < length first.now →
        slice_index row.new (p * 2) ≡ slice_index first.now p }
    ensures seconds { (p : ℕ) → p < length first.now →
        slice_index row.new (p * 2 + 1) ≡ slice_index second.now p }
{
    for p in 0..first.len() {
        row[2 * p] = first[p];
        row[2 * p + 1] = second[p];
    }
}
