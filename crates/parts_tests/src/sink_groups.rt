//! Worked groups: which frames come through, and which return packets are said.

mod worked_groups;

ghost use Rattle.std.specs.Prelude.{◌≡◌, ◌<◌, IfSome};
ghost use Rattle.member_rows.specs.realign_rows.Gather.{line_count, IsOpenAt};

use crate::cell_in_hand::{new_box, put};
use gfp_headers::{core_bytes, type_bytes};
use gfp_scramble::Scrambler;
use law_model::{FrameOut, Options};
use member_cells::{Cell, Container, Ctrl, HeldContainer, PAYLOAD};
use member_path::h4_multiframe::h4;
use member_rows::lcas_packet::Packet;
use member_rows::realign_rows::RowGather;
use std::alloc::{AllocError, Global};
use terminal_sink::sink_core::{SinkCore, TakeAnswer};
use worked_groups::{Case, Said, case_of, case_rows, number};

/// Octet `j` of frame `number`.
fn octet(number: u32, j: u32) -> u8 {
    (number.wrapping_mul(37).wrapping_add(j) % 256) as u8
}

/// Appends a number of idle frames to a stream.
fn push_idles(stream: &mut Vec<u8>, count: u32) -> Result<(), AllocError> {
    for _ in 0..count {
        stream.extend_from_slice(&core_bytes(0))?;
    }
    Ok(())
}

/// Appends a client frame of so many octets to a stream.
fn push_frame(
    stream: &mut Vec<u8>,
    scrambler: &mut Scrambler,
    number: u32,
    size: u16,
) -> Result<(), AllocError> {
    stream.extend_from_slice(&core_bytes(size.wrapping_add(4)))?;
    for octet in type_bytes() {
        stream.push(scrambler.byte(octet))?;
    }
    for j in 0..u32::from(size) {
        stream.push(scrambler.byte(octet(number, j)))?;
    }
    Ok(())
}

/// The octets of a stream.
fn stream_of(alloc: Global, pieces: &str) -> Result<Vec<u8>, AllocError> {
    let mut stream = Vec::new(alloc);
    let mut scrambler = Scrambler::new();
    for piece in pieces.split(' ') {
        let pushed = match piece.split_once(':') {
            None => push_idles(&mut stream, number(piece)),
            Some((frame, size)) => {
                let size = size.parse::<u16>().unwrap_or(0);
                push_frame(&mut stream, &mut scrambler, number(frame), size)
            }
        };
        pushed?;
    }
    Ok(stream)
}

/// What the packets say that have number `k`.
fn said(packets: &[Said], k: u32) -> Option<&Said> {
    packets.iter().filter(|said| said.0 <= k).last()
}

/// Whether a line carries payload.
fn carries(ctrl: Ctrl) -> bool {
    matches!(ctrl, Ctrl::Norm | Ctrl::Eos)
}

/// How many lines carry payload.
fn width(said: &Said) -> usize {
    said.3.iter().filter(|line| carries(line.0)).count()
}

/// The rank of a line that carries payload.
fn rank(said: &Said, sq: u8) -> usize {
    said.3
        .iter()
        .filter(|line| carries(line.0) && line.1 < sq)
        .count()
}

/// The place of the stream at which row `t` begins.
fn place(case: &Case, t: u32) -> usize {
    let mut place = 0usize;
    for row in 24..t {
        if let Some(said) = said(&case.packets, (row - 24) / 16) {
            place = place.wrapping_add(width(said).wrapping_mul(usize::from(case.size)));
        }
    }
    place
}

/// The nibble that a line has at container `n`, which is at least 8.
fn nibble(case: &Case, line: u8, n: u32) -> u8 {
    let k = n.wrapping_sub(8) / 16;
    let Some(said) = said(&case.packets, k) else {
        return 0;
    };
    let Some((ctrl, sq)) = said.3.get(usize::from(line)) else {
        return 0;
    };
    let packet = Packet {
        mst: 0,
        rs_ack: false,
        chg: said.1,
        sq: *sq,
        mfi2: (k.wrapping_add(1) % 256) as u8,
        ctrl: *ctrl,
        gid: false,
        act: said.2,
    };
    packet.nibbles()[(n.wrapping_sub(8) % 16) as usize] % 16
}

/// The payload that a line has at container `n`, which is at least 24.
fn payload(case: &Case, stream: &[u8], line: u8, n: u32) -> [u8; PAYLOAD] {
    let mut payload = [0; PAYLOAD];
    if let Some(said) = said(&case.packets, n.wrapping_sub(24) / 16) {
        if let Some((ctrl, sq)) = said.3.get(usize::from(line)) {
            if carries(*ctrl) {
                let mut at = place(case, n).wrapping_add(rank(said, *sq));
                for p in 0..usize::from(case.size).min(PAYLOAD) {
                    payload[p] = stream.get(at).copied().unwrap_or(0);
                    at = at.wrapping_add(width(said));
                }
            }
        }
    }
    payload
}

/// Container `n` of a line.
fn container(case: &Case, stream: &[u8], line: u8, n: u32) -> Container {
    let nibble = if n < 8 { 0 } else { nibble(case, line, n) };
    let payload = if n < 24 {
        [0; PAYLOAD]
    } else {
        payload(case, stream, line, n)
    };
    Container {
        h4: h4(u64::from(n), nibble % 16),
        payload,
    }
}

/// What comes of container `n` that lies in a window: a sign of the failure, or nothing.
fn damage(window: &[u32; 3], n: u32) -> Option<Option<Cell>> {
    let [first, end, slip] = *window;
    if n < first || n >= end {
        return None;
    }
    Some(if end - n > slip {
        Some(Cell::Fail)
    } else {
        None
    })
}

/// The cell of container `n` of a line, if it gives one.
fn cell(case: &Case, stream: &[u8], line: u8, n: u32) -> Option<Cell> {
    if n >= case.rows {
        return Some(Cell::End);
    }
    match damage(case.windows.get(usize::from(line))?, n) {
        Some(cell) => cell,
        None => Some(Cell::Good(container(case, stream, line, n))),
    }
}

/// What the lines of a group are given next: the number of each one's container, and a box for a container.
#[derive(Drop)]
struct Next {
    numbers: [u32; 3],
    hand: Box<HeldContainer>,
}

/// Gives a line the cell of its next container.
fn give(rows: &mut RowGather, case: &Case, stream: &[u8], line: u8, next: &mut Next)
    requires line { line < line_count rows.old }
    requires open { IsOpenAt rows.old line }
    ensures lines { line_count rows.new ≡ line_count rows.old }
    ensures rows { rows.new.rows ≡ rows.old.rows }
{
    let n = match next.numbers.get_mut(usize::from(line)) {
        Some(next) => {
            let n = *next;
            *next = n.wrapping_add(1);
            n
        }
        None => 0,
    };
    if let Some(cell) = cell(case, stream, line, n) {
        let sign = put(&cell, &mut next.hand);
        rows.offer(line, sign, &mut next.hand);
    }
}

/// Whether the return packet that row `t` makes, if it makes one, is that of the group.
fn is_back(case: &Case, t: u32, back: Option<Packet>) -> bool {
    let Some(packet) = back else {
        return t < 23 || t % 16 != 7;
    };
    if t < 23 || t % 16 != 7 {
        return false;
    }
    let k = (t - 23) / 16;
    let mut wanted = (0, false);
    for row in case.backs.split(' ') {
        let mut words = row.split(',');
        if number(words.next().unwrap_or("")) <= k {
            let mst = number(words.next().unwrap_or(""));
            wanted = (mst, words.next() == Some("+"));
        }
    }
    let found = (u32::from(packet.mst), packet.rs_ack);
    packet.mfi2 == (k.wrapping_add(1) % 256) as u8 && found == wanted
}

/// How many octets a frame has, where the stream holds it.
fn length(case: &Case, frame: &str) -> Option<usize> {
    for piece in case.pieces.split(' ') {
        match piece.split_once(':') {
            Some((other, size)) if other == frame => return size.parse::<usize>().ok(),
            _ => {}
        }
    }
    None
}

/// Whether a frame is that of a number.
fn is_frame(case: &Case, frame: &str, found: &[u8]) -> bool {
    let number = number(frame);
    length(case, frame) == Some(found.len())
        && found
            .iter()
            .enumerate()
            .all(|(j, found)| *found == octet(number, (j % 256) as u32))
}

/// Compares the frames that come through with those of a group.
#[derive(Drop)]
struct Wanted {
    case: Case,
    left: &'static str,
    are_right: bool,
}

impl FrameOut for Wanted {
    ghost stands_for = { λ wanted start frames. Unit {0} };

    fn frame(&mut self, frame: &[u8]) {
        let (first, left) = self.left.split_once(' ').unwrap_or((self.left, ""));
        self.are_right = self.are_right && is_frame(&self.case, first, frame);
        self.left = left;
    }
}

/// Takes all rows of a group. Tells whether they are all taken, and each return packet is that of the group.
fn take_all(
    case: &Case,
    stream: &[u8],
    rows: &mut RowGather,
    sink: &mut SinkCore,
    out: &mut Wanted,
    next: &mut Next,
) -> bool
    requires lines { line_count rows.old ≡ sink.old.lines }
    requires rows { rows.old.rows ≡ sink.old.taken }
{
    for _ in 0..10_000 {
        let t = sink.taken();
        if t >= case.rows {
            return true;
        }
        match sink.take(rows, out) {
            TakeAnswer::Waiting { line } => give(rows, case, stream, line, next),
            TakeAnswer::Taken { back } => {
                if !is_back(case, t, back) {
                    return false;
                }
            }
        }
    }
    false
}

/// The sink of a group, and what gathers its rows.
fn sink_of(alloc: Global, case: &Case) -> Option<(RowGather, SinkCore)>
    ensures lines { IfSome result (λ both. line_count both.0 ≡ both.1.lines) }
    ensures rows { IfSome result (λ both. both.0.rows ≡ both.1.taken) }
{
    let (lines, size) = (case.lines, case.size);
    if lines < 1 || lines > 3 || size != 756 && size != 2340 {
        return None;
    }
    let rows = RowGather::new(alloc, lines).ok()?;
    let sink = SinkCore::new(alloc, lines, size, Options::default()).ok()?;
    Some((rows, sink))
}

/// Whether the rows, the return packets and the frames are those of a group.
fn is_right(alloc: Global, case: &Case) -> Option<bool> {
    let stream = stream_of(alloc, case.pieces).ok()?;
    let mut out = Wanted {
        case: *case,
        left: case.frames,
        are_right: true,
    };
    let (mut rows, mut sink) = sink_of(alloc, case)?;
    let mut next = Next {
        numbers: [0; 3],
        hand: new_box(alloc)?,
    };
    let taken = take_all(case, &stream, &mut rows, &mut sink, &mut out, &mut next);
    Some(taken && out.are_right && out.left.is_empty())
}

/// How many groups there are before the first one that is not right.
fn right_groups(alloc: Global) -> u32 {
    let mut right = 0u32;
    for row in case_rows().lines() {
        if is_right(alloc, &case_of(row)) != Some(true) {
            return right;
        }
        right = right.saturating_add(1);
    }
    right
}

#[test]
fn groups(rt: HostRuntime) {
    assert_eq!(rt; right_groups(rt.alloc()), 6);
}
