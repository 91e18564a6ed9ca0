//! The members of a group are gathered into a row.
ghost use Rattle.std.specs.Prelude.{◌≡◌, ◌≢◌, ℕ, [], ◌+◌, ◌*◌, ◌%◌, ◌<◌, ◌≤◌, ◌⊎◌, length, take, slice_index};
ghost use Rattle.std.specs.Prelude.{slice_index_or};
ghost use Rattle.member_cells.specs.HeldPlaces.{held};
ghost use Rattle.law_model.specs.Common.{octets_from, vc4_size};
ghost use Rattle.member_rows.specs.vcat_interleave.Square.{octet_at};
ghost use Rattle.member_rows.specs.vcat_interleave.MemberPayloads.{payloads_of, AreLines};

use crate::vcat_interleave::octets_of_member::{put_pairs, put_rank};
use crate::vcat_interleave::transpose_square::{
    SIDE, octets_of, put_octets, squares_of, squares_over, turned,
};
use member_cells::{HeldContainer, PAYLOAD};
use std::simd::prelude::*;

/// Writes the octets of the member of a rank to the places of its rank in a row, for `size` places. All other
/// places of the row stay as they were.
pub fn gather(part: &[u8; PAYLOAD], rank: usize, x: usize, size: usize, out: &mut [u8])
    requires rank { rank < x }
    requires size { size ≤ vc4_size }
    requires out { length out.old ≡ size * x }
    ensures placed { (p : ℕ) → p < size →
        slice_index out.new (p * x + rank) ≡ slice_index part.now p }
    ensures others { (i : ℕ) → i % x ≢ rank → slice_index out.new i ≡ slice_index out.old i }
{
    put_rank(&part[..size], rank, x, out);
}

/// Writes the row of all members at `places` places from `place` on. `active` has the lines that carry
/// payload, by rank, and `containers` has the container of each line, each in a box.
pub fn gather_places(
    containers: &[Box<HeldContainer>],
    active: &[u8],
    place: usize,
    places: usize,
    out: &mut [u8],
)
    requires lines { AreLines (length containers.now) active.now }
    requires within { place + places ≤ vc4_size }
    requires out { length out.old ≡ places * length active.now }
    ensures { out.new ≡ octets_from place places (payloads_of (held containers.now) active.now) }
{
    let x = active.len();
    let squares = squares_of(x, places);
    let (front, back) = out.split_at_mut(squares * SIDE * x);
    gather_squares(containers, active, place, squares, front);
    let done = squares * SIDE;
    gather_each(containers, active, place + done, places - done, back);
}

/// Writes a row of at least sixteen members at a number of places that sixteen divides.
fn gather_squares(
    containers: &[Box<HeldContainer>],
    active: &[u8],
    place: usize,
    squares: usize,
    out: &mut [u8],
)
    requires lines { AreLines (length containers.now) active.now }
    requires least { 0 < squares → 16 ≤ length active.now }
    requires within { place + squares * 16 ≤ vc4_size }
    requires out { length out.old ≡ squares * 16 * length active.now }
    ensures { out.new ≡ octets_from place (squares * 16)
        (payloads_of (held containers.now) active.now) }
{
    let x = active.len();
    for k in 0..squares {
        let done = k * SIDE;
        let piece = &mut out[done * x..(done + SIDE) * x];
        gather_sixteen(containers, active, place + done, piece);
    }
}

/// Writes a row of at least sixteen members at sixteen places. The last square begins where sixteen ranks are left.
fn gather_sixteen(containers: &[Box<HeldContainer>], active: &[u8], place: usize, out: &mut [u8])
    requires lines { AreLines (length containers.now) active.now }
    requires least { 16 ≤ length active.now }
    requires within { place + 16 ≤ vc4_size }
    requires out { length out.old ≡ 16 * length active.now }
    ensures { out.new ≡ octets_from place 16 (payloads_of (held containers.now) active.now) }
{
    let x = active.len();
    for k in 0..x.div_ceil(SIDE) {
        let rank = (SIDE * k).min(x - SIDE);
        put_rows(
            &turned(rows_of(containers, active, rank, SIDE, place)),
            rank,
            x,
            out,
        );
    }
}

/// Sixteen places of the members of up to sixteen ranks.
#[inline]
fn rows_of(
    containers: &[Box<HeldContainer>],
    active: &[u8],
    rank: usize,
    ranks: usize,
    place: usize,
) -> [u8x16; 16]
    requires lines { AreLines (length containers.now) active.now }
    requires few { ranks ≤ 16 }
    requires ranks { rank + ranks ≤ length active.now }
    requires within { place + 16 ≤ vc4_size }
    ensures { (i j : ℕ) → i < ranks → j < 16 → octet_at result i j
        ≡ octet_at (payloads_of (held containers.now) active.now) (rank + i) (place + j) }
{
    let mut rows = [u8x16::splat(0); 16];
    for i in 0..ranks {
        rows[i] = octets_of(payload(containers, active, rank + i), place);
    }
    rows
}

/// What the member of a rank carries.
#[inline]
fn payload<'a>(
    containers: &'a [Box<HeldContainer>],
    active: &[u8],
    rank: usize,
) -> &'a [u8; PAYLOAD]
    requires lines { AreLines (length containers.now) active.now }
    requires rank { rank < length active.now }
    ensures { result.now ≡ slice_index_or (payloads_of (held containers.now) active.now) rank [] }
{
    &containers[usize::from(active[rank])].container().payload
}

/// Puts sixteen octets of each of sixteen places.
#[inline]
fn put_rows(rows: &[u8x16; 16], rank: usize, x: usize, out: &mut [u8])
    requires rank { rank + 16 ≤ x }
    requires out { length out.old ≡ 16 * x }
    ensures placed { (j i : ℕ) → j < 16 → i < 16 →
        slice_index out.new (j * x + (rank + i)) ≡ octet_at rows.now j i }
    ensures others { (j r : ℕ) → j < 16 → r < x → (r < rank) ⊎ (rank + 16 ≤ r) →
        slice_index out.new (j * x + r) ≡ slice_index out.old (j * x + r) }
{
    for j in 0..SIDE {
        put_octets(rows[j], j * x + rank, out);
    }
}

/// What the member of a rank carries at `places` places from `place` on.
#[inline]
fn piece<'a>(
    containers: &'a [Box<HeldContainer>],
    active: &[u8],
    rank: usize,
    place: usize,
    places: usize,
) -> &'a [u8]
    requires lines { AreLines (length containers.now) active.now }
    requires rank { rank < length active.now }
    requires within { place + places ≤ vc4_size }
    ensures size { length result.now ≡ places }
    ensures octets { (p : ℕ) → p < places → slice_index result.now p
        ≡ octet_at (payloads_of (held containers.now) active.now) rank (place + p) }
{
    &payload(containers, active, rank)[place..place + places]
}

/// Writes a row of one member, of two or of more.
fn gather_each(
    containers: &[Box<HeldContainer>],
    active: &[u8],
    place: usize,
    places: usize,
    out: &mut [u8],
)
    requires lines { AreLines (length containers.now) active.now }
    requires within { place + places ≤ vc4_size }
    requires out { length out.old ≡ places * length active.now }
    ensures { out.new ≡ octets_from place places (payloads_of (held containers.now) active.now) }
{
    match active.len() {
        1 => out.copy_from_slice(piece(containers, active, 0, place, places)),
        2 => {
            let first = piece(containers, active, 0, place, places);
            let second = piece(containers, active, 1, place, places);
            put_pairs(first, second, out);
        }
        _ => gather_some(containers, active, place, places, out),
    }
}

/// Writes a row of some members: by squares as far as these reach, and then member by member.
fn gather_some(
    containers: &[Box<HeldContainer>],
    active: &[u8],
    place: usize,
    places: usize,
    out: &mut [u8],
)
    requires lines { AreLines (length containers.now) active.now }
    requires within { place + places ≤ vc4_size }
    requires out { length out.old ≡ places * length active.now }
    ensures { out.new ≡ octets_from place places (payloads_of (held containers.now) active.now) }
{
    let x = active.len();
    let squares = squares_below(x, out.len());
    let done = squares * SIDE;
    gather_few(containers, active, place, squares, out);
    let back = &mut out[done * x..];
    gather_ranks(containers, active, place + done, places - done, back);
}

/// How many squares of places are gathered where fewer ranks than a square has are there: none that reaches
/// behind the end of the row.
fn squares_below(x: usize, len: usize) -> usize
    ensures within { (places : ℕ) → len ≡ places * x → result * 16 ≤ places }
    ensures few { 0 < result → x ≤ 16 }
    ensures room { 0 < result → result * 16 * x + 16 ≤ len + x }
{
    if x > SIDE { 0 } else { squares_over(x, len) }
}

/// Writes a row of up to sixteen members at a number of places that sixteen divides. The octets behind it change.
fn gather_few(
    containers: &[Box<HeldContainer>],
    active: &[u8],
    place: usize,
    squares: usize,
    out: &mut [u8],
)
    requires lines { AreLines (length containers.now) active.now }
    requires few { 0 < squares → length active.now ≤ 16 }
    requires within { place + squares * 16 ≤ vc4_size }
    requires out { 0 < squares →
        squares * 16 * length active.now + 16 ≤ length out.old + length active.now }
    ensures { take (squares * 16 * length active.now) out.new
        ≡ octets_from place (squares * 16) (payloads_of (held containers.now) active.now) }
{
    let x = active.len();
    for k in 0..squares {
        let done = k * SIDE;
        let piece = &mut out[done * x..];
        gather_square(containers, active, place + done, piece);
    }
}

/// Writes a row of up to sixteen members at sixteen places. The octets behind it change.
fn gather_square(containers: &[Box<HeldContainer>], active: &[u8], place: usize, out: &mut [u8])
    requires lines { AreLines (length containers.now) active.now }
    requires few { length active.now ≤ 16 }
    requires within { place + 16 ≤ vc4_size }
    requires out { 15 * length active.now + 16 ≤ length out.old }
    ensures { take (16 * length active.now) out.new
        ≡ octets_from place 16 (payloads_of (held containers.now) active.now) }
{
    let x = active.len();
    put_places(&turned(rows_of(containers, active, 0, x, place)), x, out);
}

/// Puts the octets of up to sixteen members at sixteen places, one place after another: what is put behind a
/// place is put over.
#[inline]
fn put_places(rows: &[u8x16; 16], x: usize, out: &mut [u8])
    requires few { x ≤ 16 }
    requires out { 15 * x + 16 ≤ length out.old }
    ensures { (j i : ℕ) → j < 16 → i < x →
        slice_index out.new (j * x + i) ≡ octet_at rows.now j i }
{
    for j in 0..SIDE {
        put_octets(rows[j], j * x, out);
    }
}

/// Writes a row member by member.
fn gather_ranks(
    containers: &[Box<HeldContainer>],
    active: &[u8],
    place: usize,
    places: usize,
    out: &mut [u8],
)
    requires lines { AreLines (length containers.now) active.now }
    requires within { place + places ≤ vc4_size }
    requires out { length out.old ≡ places * length active.now }
    ensures { out.new ≡ octets_from place places (payloads_of (held containers.now) active.now) }
{
    let x = active.len();
    for rank in 0..x {
        put_rank(piece(containers, active, rank, place, places), rank, x, out);
    }
}
