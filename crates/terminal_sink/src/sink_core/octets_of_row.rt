//! The octets of the members of a row, given to a receiver, and the frames that they complete.

ghost use Rattle.std.specs.Prelude.{◌≡◌, ℕ, ◌+◌, ◌*◌, ◌/◌, ◌%◌, ◌<◌, ◌≤◌, Bool, true, false, List, [], ◌++◌, length};
ghost use Rattle.std.specs.Prelude.{take, drop, slice_index, IfSome, IsSome, option_to_list};
ghost use Rattle.std.specs.Int.{to_le_bytes, w64};
ghost use Rattle.member_cells.specs.HeldPlaces.{held};
ghost use Rattle.terminal_sink.specs.marked_delineator.Marks.{frame_of, StandsIn};
ghost use Rattle.gfp_delineate.specs.Repeated.{idles_from};
ghost use Rattle.law_model.specs.Common.{core_header, octets_from, Start, longest_frame, vc4_size, most_lines};
ghost use Rattle.member_rows.specs.vcat_interleave.MemberPayloads.{payload_at, payloads_of, AreLines};
ghost use Rattle.terminal_sink.specs.sink_core.RowsInReceiver.{IsKnown, Grows, Gives, IsIdle};

use crate::marked_delineator::MarkedDelineator;
use gfp_delineate::{Step, word_run};
use law_model::FrameOut;
use member_cells::{HeldContainer, PAYLOAD};
use member_rows::vcat_interleave::gather_places;

/// The octets of a block.
pub(super) const BLOCK: usize = 4096;

/// A number of places that gathering likes.
const SIDE: usize = 16;

/// Gives the frame that a receiver holds to `out`.
fn give<F: FrameOut>(delineator: &MarkedDelineator, out: &mut F)
    requires held { IsSome (frame_of delineator.now) }
    requires short { IfSome (frame_of delineator.now) (λ frame. length frame ≤ longest_frame) }
    ensures { (start : Start) (frames : List (List ℕ)) → F.stands_for out.old start frames →
        F.stands_for out.new start (frames ++ option_to_list (frame_of delineator.now)) }
{
    out.frame(delineator.frame());
}

/// Gives octets to a receiver, up to the first that completes a frame, and that frame to `out`. The answer is
/// their number.
fn take_some<F: FrameOut>(delineator: &mut MarkedDelineator, piece: &[u8], out: &mut F) -> usize
    requires { IsKnown delineator.old }
    ensures within { result ≤ length piece.now }
    ensures some { 0 < length piece.now → 0 < result }
    ensures grows { Grows delineator.old delineator.new (take result piece.now) }
    ensures gives { (start : Start) →
        Gives (λ o. F.stands_for o start) delineator.old (take result piece.now) out.old out.new }
{
    let (taken, step) = delineator.feed(piece);
    match step {
        Step::Frame => give(delineator, out),
        Step::Nothing | Step::Dropped(_) => {}
    }
    taken
}

/// Gives octets to a receiver, and the frames that they complete to `out`.
fn take_piece<F: FrameOut>(delineator: &mut MarkedDelineator, piece: &[u8], out: &mut F)
    requires { IsKnown delineator.old }
    ensures grows { Grows delineator.old delineator.new piece.now }
    ensures gives { (start : Start) →
        Gives (λ o. F.stands_for o start) delineator.old piece.now out.old out.new }
{
    let mut at = 0;
    while at < piece.len() {
        at += take_some(delineator, &piece[at..], out);
    }
}

/// How many places of a number of members go into a block: the most that fit of those that gathering likes.
fn places_of(x: usize) -> usize
    requires some { 0 < x }
    requires few { x ≤ most_lines }
    ensures some { 0 < result }
    ensures fits { result * x ≤ 4096 }
    ensures sixteens { result % 16 ≡ 0 }
    ensures most { 4096 < (result + 16) * x }
{
    BLOCK / x / SIDE * SIDE
}

/// An octet of the header of an idle frame, by its place among the octets of idle frames.
#[inline]
fn idle_octet(i: usize) -> u8
    ensures { result ≡ slice_index (core_header 0) (i % 4) }
{
    [0xb6, 0xab, 0x31, 0xe0][i % 4]
}

/// The word that octets are, the first one least significant.
#[inline]
fn word_of(octets: &[u8; 8]) -> u64
    ensures { to_le_bytes w64 result ≡ octets.now }
{
    u64::from_le_bytes(*octets)
}

/// The octets of idle frames at eight places of a member, which carries one of each `x`, the first of them
/// octet `first`.
fn idle_word(first: usize, x: usize) -> u64
    requires first { first < 256 }
    requires few { x ≤ most_lines }
    ensures { (i : ℕ) → i < 8 → slice_index (to_le_bytes w64 result) i
        ≡ slice_index (core_header 0) ((first + i * x) % 4) }
{
    word_of(&[
        idle_octet(first),
        idle_octet(first + x),
        idle_octet(first + 2 * x),
        idle_octet(first + 3 * x),
        idle_octet(first + 4 * x),
        idle_octet(first + 5 * x),
        idle_octet(first + 6 * x),
        idle_octet(first + 7 * x),
    ])
}

/// What a line carries.
#[inline]
fn payload_of(containers: &[Box<HeldContainer>], line: u8) -> &[u8; PAYLOAD]
    requires { line < length containers.now }
    ensures { result.now ≡ payload_at (held containers.now) line }
{
    &containers[usize::from(line)].container().payload
}

/// The octets that a line carries at some places.
#[inline]
fn part_of(containers: &[Box<HeldContainer>], line: u8, place: usize, places: usize) -> &[u8]
    requires line { line < length containers.now }
    requires within { place + places ≤ vc4_size }
    ensures size { length result.now ≡ places }
    ensures octets { result.now ≡ take places (drop place (payload_at (held containers.now) line)) }
{
    &payload_of(containers, line)[place..place + places]
}

/// Whether what a line carries at some places, a multiple of eight, is a word again and again.
fn carries_word(
    containers: &[Box<HeldContainer>],
    line: u8,
    place: usize,
    places: usize,
    word: u64,
) -> bool
    requires line { line < length containers.now }
    requires within { place + places ≤ vc4_size }
    requires eights { places % 8 ≡ 0 }
    ensures { result ≡ true → (p : ℕ) → p < places →
        slice_index (payload_at (held containers.now) line) (place + p)
        ≡ slice_index (to_le_bytes w64 word) (p % 8) }
{
    word_run(part_of(containers, line, place, places), word) == places / 8
}

/// Whether the octets of a row at some places, a multiple of eight, are those of idle frames from place
/// `have` of a header on.
fn are_idle(
    containers: &[Box<HeldContainer>],
    active: &[u8],
    place: usize,
    places: usize,
    have: usize,
) -> bool
    requires lines { AreLines (length containers.now) active.now }
    requires few { length active.now ≤ most_lines }
    requires within { place + places ≤ vc4_size }
    requires eights { places % 8 ≡ 0 }
    requires have { have < 4 }
    ensures { result ≡ true →
        octets_from place places (payloads_of (held containers.now) active.now)
        ≡ idles_from have (places / 4 * length active.now) }
{
    let x = active.len();
    for rank in 0..x {
        if !carries_word(
            containers,
            active[rank],
            place,
            places,
            idle_word(have + rank, x),
        ) {
            return false;
        }
    }
    true
}

/// How many places from one on have the octets of idle frames that change nothing of a receiver: all that are
/// left, to a multiple of eight, or none.
fn idle_places(
    delineator: &MarkedDelineator,
    containers: &[Box<HeldContainer>],
    active: &[u8],
    place: usize,
    size: usize,
) -> usize
    requires lines { AreLines (length containers.now) active.now }
    requires few { length active.now ≤ most_lines }
    requires place { place ≤ size }
    requires size { size ≤ vc4_size }
    ensures within { place + result ≤ size }
    ensures idle { IsIdle delineator.now
        (octets_from place result (payloads_of (held containers.now) active.now)) }
{
    let places = (size - place) / 8 * 8;
    match delineator.idle_place() {
        Some(have) if are_idle(containers, active, place, places, have) => places,
        _ => 0,
    }
}

/// The octets of a row that one line carries alone.
fn only_payload(containers: &[Box<HeldContainer>], line: u8, size: usize) -> &[u8]
    requires line { line < length containers.now }
    requires size { size ≤ vc4_size }
    ensures size { length result.now ≡ size }
    ensures octets { result.now ≡ take size (payload_at (held containers.now) line) }
{
    &containers[usize::from(line)].container().payload[..size]
}

/// Gives the octets of a row to a receiver, block by block, or as they lie where one line carries them alone.
/// Where all that are left are idle frames that change nothing, they aren't gathered. `active` has the lines
/// that carry payload, by rank, and `containers` has the container of each line, each in a box.
pub(super) fn take_members<F: FrameOut>(
    delineator: &mut MarkedDelineator,
    block: &mut [u8],
    containers: &[Box<HeldContainer>],
    active: &[u8],
    size: usize,
    out: &mut F,
)
    requires known { IsKnown delineator.old }
    requires lines { AreLines (length containers.now) active.now }
    requires few { length active.now ≤ most_lines }
    requires size { size ≤ vc4_size }
    requires block { length block.old ≡ 4096 }
    ensures grows { Grows delineator.old delineator.new
        (octets_from 0 size (payloads_of (held containers.now) active.now)) }
    ensures gives { (start : Start) → Gives (λ o. F.stands_for o start) delineator.old
        (octets_from 0 size (payloads_of (held containers.now) active.now)) out.old out.new }
{
    if active.is_empty() {
        return;
    }
    if let [line] = active {
        take_piece(delineator, only_payload(containers, *line, size), out);
        return;
    }
    let most = places_of(active.len());
    let mut place = 0;
    while place < size {
        place += idle_places(delineator, containers, active, place, size);
        let places = most.min(size - place);
        let piece = &mut block[..places * active.len()];
        gather_places(containers, active, place, places, piece);
        take_piece(delineator, piece, out);
        place += places;
    }
}

/// Tells a receiver of a break of the stream.
pub(super) fn take_break(delineator: &mut MarkedDelineator)
    ensures { (first : Bool) (octets : List ℕ) →
        StandsIn delineator.old longest_frame first octets →
        StandsIn delineator.new longest_frame false [] }
{
    delineator.broken();
}
