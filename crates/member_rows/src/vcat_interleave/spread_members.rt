//! A row is spread over the members of a group.
ghost use Rattle.std.specs.Prelude.{◌≡◌, ◌≢◌, ℕ, ◌+◌, ◌-◌, ◌*◌, ◌/◌, ◌<◌, ◌≤◌, ◌++◌, length, take, drop};
ghost use Rattle.std.specs.Prelude.{true, replicate, slice_index, slice_index_or, slice_set};
ghost use Rattle.law_model.specs.Common.{Container, part_of, vc4_size};
ghost use Rattle.member_rows.specs.vcat_interleave.RepeatedRow.{ComesAgain};
ghost use Rattle.member_rows.specs.vcat_interleave.Square.{octet_at, overhang};
ghost use Rattle.member_cells.specs.HeldPlaces.{held};
ghost use Rattle.member_rows.specs.vcat_interleave.MemberPayloads.{AreLines, with_octets};
ghost use Rattle.member_rows.specs.vcat_interleave.Spread.{SpreadsOver, Spreads, AreDistinct};

use crate::vcat_interleave::octets_of_member::{comes_again, take_part, take_rank};
use crate::vcat_interleave::transpose_square::{SIDE, octets_of, put_octets, squares_over, turned};
use member_cells::{HeldContainer, PAYLOAD};
use std::simd::prelude::*;

/// Writes the octets of a row that the member of a rank carries at `size` places, and zeros at the places
/// from there on.
pub fn spread(bytes: &[u8], rank: usize, x: usize, size: usize, out: &mut [u8; PAYLOAD])
    requires rank { rank < x }
    requires size { size ≤ vc4_size }
    requires bytes { length bytes.now ≡ size * x }
    ensures { out.new ≡ part_of rank x size bytes.now ++ replicate (vc4_size - size) 0 }
{
    let (octets, rest) = out.split_at_mut(size);
    take_rank(bytes, rank, x, octets);
    rest.fill(0);
}

/// Writes a row of `places` places to the payloads of all members, from `place` on. `active` has the lines
/// that carry payload, by rank, and `containers` has the container of each line. Other places, other lines
/// and H4 stay as they were.
pub fn spread_places(
    row: &[u8],
    active: &[u8],
    place: usize,
    places: usize,
    containers: &mut [Box<HeldContainer>],
)
    requires lines { AreLines (length containers.old) active.now }
    requires distinct { AreDistinct active.now }
    requires within { place + places ≤ vc4_size }
    requires row { length row.now ≡ places * length active.now }
    ensures members { (rank : ℕ) (c : Container) → rank < length active.now →
        slice_index_or (held containers.new) (slice_index active.now rank) c
        ≡ with_octets place (part_of rank (length active.now) places row.now)
        (slice_index_or (held containers.old) (slice_index active.now rank) c) }
    ensures others { (line : ℕ) (c : Container) →
        ((rank : ℕ) → rank < length active.now → slice_index active.now rank ≢ line) →
        slice_index_or (held containers.new) line c
        ≡ slice_index_or (held containers.old) line c }
{
    if comes_again(row) {
        spread_each(row, active, place, places, true, containers);
    } else {
        spread_by_squares(row, active, place, places, containers);
    }
}

/// Spreads a row by squares as far as these reach, and then member by member.
fn spread_by_squares(
    row: &[u8],
    active: &[u8],
    place: usize,
    places: usize,
    containers: &mut [Box<HeldContainer>],
)
    requires lines { AreLines (length containers.old) active.now }
    requires distinct { AreDistinct active.now }
    requires within { place + places ≤ vc4_size }
    requires row { length row.now ≡ places * length active.now }
    ensures { Spreads place places row.now active.now
        (held containers.old) (held containers.new) }
{
    let x = active.len();
    let squares = squares_over(x, row.len());
    let done = squares * SIDE;
    spread_squares(row, active, place, squares, containers);
    let back = &row[done * x..];
    spread_each(back, active, place + done, places - done, false, containers);
}

/// Spreads a row at a number of places that sixteen divides. No more than sixteen payloads are written at
/// once: caches follow these.
fn spread_squares(
    row: &[u8],
    active: &[u8],
    place: usize,
    squares: usize,
    containers: &mut [Box<HeldContainer>],
)
    requires lines { AreLines (length containers.old) active.now }
    requires distinct { AreDistinct active.now }
    requires within { place + squares * 16 ≤ vc4_size }
    requires room { 0 < squares →
        squares * 16 * length active.now + overhang (length active.now) ≤ length row.now }
    ensures { Spreads place (squares * 16) row.now active.now
        (held containers.old) (held containers.new) }
{
    let x = active.len();
    for k in 0..x / SIDE {
        spread_ranks(row, active, SIDE * k, SIDE, place, squares, containers);
    }
    spread_last(row, active, x / SIDE * SIDE, place, squares, containers);
}

/// Spreads a row over the last members, fewer than sixteen, once those of all ranks before them have it.
fn spread_last(
    row: &[u8],
    active: &[u8],
    rank: usize,
    place: usize,
    squares: usize,
    containers: &mut [Box<HeldContainer>],
)
    requires lines { AreLines (length containers.old) active.now }
    requires distinct { AreDistinct active.now }
    requires rank { rank ≡ length active.now / 16 * 16 }
    requires within { place + squares * 16 ≤ vc4_size }
    requires room { 0 < squares →
        squares * 16 * length active.now + overhang (length active.now) ≤ length row.now }
    ensures { SpreadsOver rank (length active.now) place (squares * 16) row.now active.now
        (held containers.old) (held containers.new) }
{
    // Of few ranks, where their number is known, only their columns are made.
    match active.len() - rank {
        0 => {}
        1 => spread_ranks(row, active, rank, 1, place, squares, containers),
        2 => spread_ranks(row, active, rank, 2, place, squares, containers),
        4 => spread_ranks(row, active, rank, 4, place, squares, containers),
        8 => spread_ranks(row, active, rank, 8, place, squares, containers),
        ranks => spread_ranks(row, active, rank, ranks, place, squares, containers),
    }
}

/// Spreads a row over the members of up to sixteen ranks.
#[inline]
fn spread_ranks(
    row: &[u8],
    active: &[u8],
    rank: usize,
    ranks: usize,
    place: usize,
    squares: usize,
    containers: &mut [Box<HeldContainer>],
)
    requires lines { AreLines (length containers.old) active.now }
    requires distinct { AreDistinct active.now }
    requires few { ranks ≤ 16 }
    requires ranks { rank + ranks ≤ length active.now }
    requires within { place + squares * 16 ≤ vc4_size }
    requires room { 0 < squares →
        squares * 16 * length active.now + (rank + 16) ≤ length row.now + length active.now }
    ensures { SpreadsOver rank (rank + ranks) place (squares * 16) row.now active.now
        (held containers.old) (held containers.new) }
{
    let x = active.len();
    for k in 0..squares {
        let done = k * SIDE;
        let rest = &row[done * x..];
        spread_square(rest, active, rank, ranks, place + done, containers);
    }
}

/// Spreads a row over the members of up to sixteen ranks at sixteen places.
#[inline]
fn spread_square(
    row: &[u8],
    active: &[u8],
    rank: usize,
    ranks: usize,
    place: usize,
    containers: &mut [Box<HeldContainer>],
)
    requires lines { AreLines (length containers.old) active.now }
    requires distinct { AreDistinct active.now }
    requires few { ranks ≤ 16 }
    requires ranks { rank + ranks ≤ length active.now }
    requires within { place + 16 ≤ vc4_size }
    requires room { 15 * length active.now + (rank + 16) ≤ length row.now }
    ensures { SpreadsOver rank (rank + ranks) place 16 row.now active.now
        (held containers.old) (held containers.new) }
{
    let columns = turned(rows_between(row, rank, active.len()));
    for i in 0..ranks {
        put_member(columns[i], place, usize::from(active[rank + i]), containers);
    }
}

/// Sixteen octets from a rank on at each of sixteen places of a row.
#[inline]
fn rows_between(row: &[u8], rank: usize, x: usize) -> [u8x16; 16]
    requires room { 15 * x + (rank + 16) ≤ length row.now }
    ensures { (j i : ℕ) → j < 16 → i < 16 →
        octet_at result j i ≡ slice_index row.now (j * x + (rank + i)) }
{
    let mut rows = [u8x16::splat(0); 16];
    for j in 0..SIDE {
        rows[j] = octets_of(row, j * x + rank);
    }
    rows
}

/// Puts sixteen octets at a place of a line's payload.
#[inline]
fn put_member(octets: u8x16, place: usize, line: usize, containers: &mut [Box<HeldContainer>])
    requires line { line < length containers.old }
    requires within { place + 16 ≤ vc4_size }
    ensures put { (c : Container) → held containers.new
        ≡ slice_set (held containers.old) line
        (with_octets place octets (slice_index_or (held containers.old) line c)) }
    ensures octets { length octets ≡ 16 }
    ensures size { (c : Container) →
        length (slice_index_or (held containers.old) line c).payload ≡ vc4_size }
{
    put_octets(octets, place, &mut containers[line].container_mut().payload);
}

/// Spreads a row member by member, whose octets come again and again where `again` says so.
fn spread_each(
    row: &[u8],
    active: &[u8],
    place: usize,
    places: usize,
    again: bool,
    containers: &mut [Box<HeldContainer>],
)
    requires lines { AreLines (length containers.old) active.now }
    requires distinct { AreDistinct active.now }
    requires within { place + places ≤ vc4_size }
    requires row { length row.now ≡ places * length active.now }
    requires again { again ≡ true → ComesAgain row.now }
    ensures { Spreads place places row.now active.now
        (held containers.old) (held containers.new) }
{
    let x = active.len();
    for rank in 0..x {
        let line = usize::from(active[rank]);
        put_part(row, rank, x, place, places, again, line, containers);
    }
}

/// Puts the part of a row that a rank carries at a place of a line's payload.
fn put_part(
    row: &[u8],
    rank: usize,
    x: usize,
    place: usize,
    places: usize,
    again: bool,
    line: usize,
    containers: &mut [Box<HeldContainer>],
)
    requires rank { rank < x }
    requires line { line < length containers.old }
    requires within { place + places ≤ vc4_size }
    requires row { length row.now ≡ places * x }
    requires again { again ≡ true → ComesAgain row.now }
    ensures put { (c : Container) → held containers.new ≡ slice_set (held containers.old) line
        (with_octets place (part_of rank x places row.now)
        (slice_index_or (held containers.old) line c)) }
    ensures size { (c : Container) →
        length (slice_index_or (held containers.old) line c).payload ≡ vc4_size }
{
    let payload = &mut containers[line].container_mut().payload;
    put_piece(row, rank, x, place, places, again, payload);
}

/// Puts the part of a row that a rank carries at a place of a payload.
#[inline]
fn put_piece(
    row: &[u8],
    rank: usize,
    x: usize,
    place: usize,
    places: usize,
    again: bool,
    payload: &mut [u8],
)
    requires rank { rank < x }
    requires within { place + places ≤ length payload.old }
    requires row { length row.now ≡ places * x }
    requires again { again ≡ true → ComesAgain row.now }
    ensures { payload.new ≡ take place payload.old
        ++ (part_of rank x places row.now ++ drop (place + places) payload.old) }
{
    let (_, rest) = payload.split_at_mut(place);
    let (octets, _) = rest.split_at_mut(places);
    take_part(row, rank, x, again, octets);
}
