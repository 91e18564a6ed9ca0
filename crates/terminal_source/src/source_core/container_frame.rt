//! The containers of a frame.

ghost use Rattle.std.specs.Prelude.{◌≡◌, ℕ, ◌+◌, ◌-◌, ◌*◌, ◌<◌, ◌≤◌, if◌then◌else◌, All, false, length, take};
ghost use Rattle.std.specs.Prelude.{drop, replicate, slice_index_or};
ghost use Rattle.law_model.specs.Common.{stream_of, Stream, reached, vc4_size, most_lines};
ghost use Rattle.gfp_fill.specs.FilledStream.{FillerStands};
ghost use Rattle.member_cells.specs.HeldPlaces.{held};
ghost use Rattle.member_rows.specs.vcat_interleave.MemberPayloads.{AreLines, with_octets};
ghost use Rattle.member_rows.specs.vcat_interleave.Spread.{Spreads};
ghost use Rattle.terminal_source.specs.source_core.FrameContainers.{h4_by, carries, IsBegun, AreBegun};
ghost use Rattle.terminal_source.specs.source_core.StepOfTerminal.{AreMembers, AreNibbles};

use crate::source_core::packets_of_step::NIBBLES;
use gfp_fill::{Filler, FrameQueue};
use law_model::MOST_LINES;
use member_cells::{Container, HeldContainer};
use member_path::h4_multiframe::h4;
use member_rows::vcat_interleave::spread_places;

/// Writes H4 of all lines, by the nibbles of their packets, and zeros where no octet of the stream is carried.
pub(super) fn begin_all(
    ticks: u32,
    nibbles: &[[u8; NIBBLES]],
    active: &[u8],
    size: usize,
    out: &mut [Box<HeldContainer>],
)
    requires lines { length nibbles.now ≡ length out.old }
    requires few { length out.old ≤ most_lines }
    requires below { AreNibbles nibbles.now }
    requires members { AreMembers (length out.old) active.now }
    requires size { size ≤ vc4_size }
    ensures { AreBegun ticks nibbles.now active.now size (length out.old) (held out.new) }
{
    let carry = carriers(active);
    for line in 0..out.len() {
        let filled = filled(carry[line], size);
        begin(h4_of(ticks, &nibbles[line]), filled, &mut out[line]);
    }
}

/// Which lines carry payload.
fn carriers(active: &[u8]) -> [bool; MOST_LINES]
    requires lines { AreLines most_lines active.now }
    ensures { (line : ℕ) → line < most_lines →
        slice_index_or result line false ≡ carries active.now line }
{
    let mut carry = [false; MOST_LINES];
    for rank in 0..active.len() {
        carry[usize::from(active[rank])] = true;
    }
    carry
}

/// How many octets of the stream a container has.
fn filled(carries: bool, size: usize) -> usize
    ensures { result ≡ (if carries then size else 0) }
{
    if carries { size } else { 0 }
}

/// The H4 octet of a frame of a line, by the nibbles of its packet.
fn h4_of(ticks: u32, nibbles: &[u8; NIBBLES]) -> u8
    requires below { All (λ nibble. nibble < 16) nibbles.now }
    ensures { result ≡ h4_by ticks nibbles.now }
{
    let place = (ticks % 16 + 8) as usize % NIBBLES;
    h4(u64::from(ticks), nibbles[place])
}

/// Writes H4, and zeros behind the octets that are filled.
fn begin(h4: u8, filled: usize, container: &mut HeldContainer)
    requires { filled ≤ vc4_size }
    ensures { IsBegun h4 filled container.new }
{
    if filled == 0 {
        container.begin_blank(h4);
        return;
    }
    let written = container.container_mut();
    written.h4 = h4;
    blank(&mut written.payload[filled..]);
}

/// Writes zeros.
fn blank(octets: &mut [u8])
    ensures { octets.new ≡ replicate (length octets.old) 0 }
{
    octets.fill(0);
}

/// Writes the next octets of the stream over the lines that carry payload. Their row is a place to work in.
pub(super) fn fill_all(
    filler: &mut Filler,
    queue: &mut FrameQueue,
    active: &[u8],
    size: usize,
    row: &mut [u8],
    out: &mut [Box<HeldContainer>],
)
    requires members { AreMembers (length out.old) active.now }
    requires size { size ≤ vc4_size }
    requires room { size * length active.now ≤ length row.old }
    ensures stands { (stream : Stream) (place : ℕ) →
        FillerStands filler.old queue.old stream place →
        let further = place + size * length active.now in
        FillerStands filler.new queue.new (reached further stream) further }
    ensures spreads { (stream : Stream) (place : ℕ) →
        FillerStands filler.old queue.old stream place →
        let len = size * length active.now in
        let octets = take len (drop place (stream_of (reached (place + len) stream).pieces)) in
        Spreads 0 size octets active.now (held out.old) (held out.new) }
{
    match active {
        // The row of one member is what it carries.
        [line] => {
            let container = out[usize::from(*line)].container_mut();
            fill_one(filler, queue, size, container);
        }
        _ => {
            let row = &mut row[..size * active.len()];
            filler.fill(queue, row);
            spread_places(row, active, 0, size, out);
        }
    }
}

/// Writes the next octets of the stream to the front of a payload.
fn fill_one(filler: &mut Filler, queue: &mut FrameQueue, size: usize, container: &mut Container)
    requires { size ≤ vc4_size }
    ensures stands { (stream : Stream) (place : ℕ) →
        FillerStands filler.old queue.old stream place →
        FillerStands filler.new queue.new (reached (place + size) stream) (place + size) }
    ensures octets { (stream : Stream) (place : ℕ) →
        FillerStands filler.old queue.old stream place →
        container.new ≡ with_octets 0
        (take size (drop place (stream_of (reached (place + size) stream).pieces))) container.old }
{
    filler.fill(queue, &mut container.payload[..size]);
}
