//! Worked groups.

mod rows_of_paths;

ghost use Rattle.std.specs.Prelude.{◌≡◌, ◌<◌, OnSome};
ghost use Rattle.member_rows.specs.realign_rows.Gather.{line_count, AreDecided};

use crate::cell_in_hand::{new_box, put};
use member_cells::{Cell, Container, Ctrl, HeldContainer, PAYLOAD};
use member_path::cell_numbers::Verdict;
use member_path::h4_multiframe::h4;
use member_rows::lcas_packet::Packet;
use member_rows::realign_rows::{RowAnswer, RowGather};
use rows_of_paths::{Cells, Path, cell_rows, cells_of, path_of, path_rows};
use std::alloc::Global;

/// What the packets of the worked lines say, but for the number of the multiframe.
const PACKET: Packet = Packet {
    mst: 0,
    rs_ack: false,
    chg: true,
    sq: 0,
    mfi2: 0,
    ctrl: Ctrl::Eos,
    gid: false,
    act: 1,
};

/// Packet `k` of a worked line.
fn packet(k: u32) -> Packet {
    let mut packet = PACKET;
    packet.mfi2 = (k.wrapping_add(1) % 256) as u8;
    packet
}

/// Container `n` of a worked line: its first octets are its number.
fn container(n: u32) -> Container {
    let nibble = match n.checked_sub(8) {
        Some(place) => packet(place / 16).nibbles()[(place % 16) as usize],
        None => 0,
    };
    let mut payload = [0; PAYLOAD];
    payload[..4].copy_from_slice(&n.to_be_bytes());
    Container {
        h4: h4(u64::from(n), nibble % 16),
        payload,
    }
}

/// Whether one of the stretches from one number up to another has this number.
fn has(stretches: &[u32], n: u32) -> bool {
    for stretch in stretches.chunks(2) {
        if let [first, end] = stretch {
            if *first <= n && n < *end {
                return true;
            }
        }
    }
    false
}

/// The cell of container `n` of a path, where it gives one.
fn sent(path: &Path, n: u32) -> Option<Cell> {
    if n >= path.total {
        return Some(Cell::End);
    }
    for window in path.windows.chunks(3) {
        if let [first, end, slip] = window {
            if *first <= n && n < *end {
                return if end - n > *slip {
                    Some(Cell::Fail)
                } else {
                    None
                };
            }
        }
    }
    Some(Cell::Good(container(n)))
}

/// Cell `i` of a list: its payload begins with its place there.
fn listed(cells: &Cells, i: u32) -> Option<Cell> {
    let digits = cells.cells.as_bytes().chunks(2).nth(i as usize)?;
    let mut octet = [0; 1];
    if hex::decode_to_slice(digits, &mut octet).is_err() {
        return Some(Cell::Fail);
    }
    let mut payload = [0; PAYLOAD];
    payload[..4].copy_from_slice(&i.to_be_bytes());
    Some(Cell::Good(Container {
        h4: octet[0],
        payload,
    }))
}

/// What is said of number `t`, where it is decided: it is whole with the container of a cell, or bad.
fn told(cells: &Cells, t: u32) -> Option<Option<u32>> {
    let mut left = t;
    let mut words = cells.told.split(' ');
    for _ in 0..20 {
        let count = words.next()?.parse::<u32>().ok()?;
        let word = words.next()?;
        if left < count {
            return match word.parse::<u32>() {
                Ok(cell) => Some(Some(left.wrapping_add(cell))),
                Err(_) => Some(None),
            };
        }
        left -= count;
    }
    None
}

/// What a line of cells is given by.
#[derive(Clone, Copy)]
enum Line {
    Path(Path),
    Listed(Cells),
}

/// Cell `i` of a line, where there is one.
fn cell(line: Line, i: u32) -> Option<Cell> {
    match line {
        Line::Path(path) => sent(&path, i),
        Line::Listed(cells) => listed(&cells, i),
    }
}

/// No fewer than the cells of a line, and no fewer than the numbers that they decide.
fn most(line: Line) -> (u32, u32) {
    match line {
        Line::Path(path) => (path.total, path.total),
        Line::Listed(_) => (100, 200_000),
    }
}

/// The H4 octet and the first octets of a container.
type Octets = (u8, [u8; 4]);

fn octets(container: &Container) -> Octets {
    let payload = &container.payload;
    let first = [payload[0], payload[1], payload[2], payload[3]];
    (container.h4, first)
}

/// What is to be said of number `t`, where it is decided: it is whole with a container, or bad.
fn wanted(line: Line, t: u32) -> Option<Option<Octets>> {
    match line {
        Line::Path(path) => {
            if has(&path.bad, t) {
                Some(None)
            } else {
                Some(Some(octets(&container(t))))
            }
        }
        Line::Listed(cells) => match told(&cells, t)? {
            None => Some(None),
            Some(i) => match listed(&cells, i)? {
                Cell::Good(container) => Some(Some(octets(&container))),
                _ => None,
            },
        },
    }
}

/// Whether the packet that ended with number `t`, if one did, is that of a path.
fn is_packet(line: Line, t: u32, packets: &[Option<Packet>]) -> bool {
    match line {
        Line::Path(path) if t >= 23 && t % 16 == 7 => {
            let k = (t - 23) / 16;
            let read = if has(&path.unread, k) {
                None
            } else {
                Some(packet(k))
            };
            packets == [read].as_slice()
        }
        _ => true,
    }
}

/// Gives the cells of a line from place `i` on, until the next number is decided.
fn feed(rows: &mut RowGather, hand: &mut Box<HeldContainer>, line: Line, i: u32) -> u32
    ensures lines { line_count rows.new ≡ line_count rows.old }
    ensures rows { rows.new.rows ≡ rows.old.rows }
{
    let mut i = i;
    for _ in 0..=most(line).0 {
        match rows.row() {
            RowAnswer::Row => return i,
            RowAnswer::Waiting { line: waiting } => {
                if let Some(cell) = cell(line, i) {
                    let sign = put(&cell, hand);
                    rows.offer(waiting, sign, hand);
                }
            }
        }
        i = i.wrapping_add(1);
    }
    i
}

/// What is said of the next number of the first line, where it is decided.
fn said(rows: &RowGather) -> Option<Option<Octets>>
    requires { 0 < line_count rows.now }
    ensures { OnSome result (AreDecided rows.now) }
{
    match rows.row() {
        RowAnswer::Row => match rows.verdict(0) {
            Verdict::Bad => Some(None),
            Verdict::Whole(found) => Some(Some(octets(found))),
        },
        RowAnswer::Waiting { .. } => None,
    }
}

/// Gives the cells of a line to a group of one line. Tells whether each number that they decide, and each
/// packet, is that of the line.
fn are_right(rows: &mut RowGather, hand: &mut Box<HeldContainer>, line: Line) -> bool
    requires lines { line_count rows.old ≡ 1 }
    requires rows { rows.old.rows ≡ 0 }
{
    let mut i = 0;
    for t in 0..most(line).1 {
        i = feed(rows, hand, line, i);
        let said = said(rows);
        if said != wanted(line, t) {
            return false;
        }
        match said {
            Some(_) => rows.advance(),
            None => return true,
        }
        if !is_packet(line, t, rows.packets()) {
            return false;
        }
    }
    true
}

/// The same for a group that is made for it.
fn is_right(alloc: Global, line: Line) -> bool {
    let Some(mut hand) = new_box(alloc) else {
        return false;
    };
    match RowGather::new(alloc, 1) {
        Ok(mut rows) => are_right(&mut rows, &mut hand, line),
        Err(_) => false,
    }
}

/// How many paths there are before the first one that is not right.
fn right_paths(alloc: Global) -> u32 {
    let mut right = 0u32;
    for row in path_rows().lines() {
        if !is_right(alloc, Line::Path(path_of(row))) {
            return right;
        }
        right = right.saturating_add(1);
    }
    right
}

/// How many lists there are before the first one that is not right.
fn right_lists(alloc: Global) -> u32 {
    let mut right = 0u32;
    for row in cell_rows().lines() {
        if !is_right(alloc, Line::Listed(cells_of(row))) {
            return right;
        }
        right = right.saturating_add(1);
    }
    right
}

#[test]
fn paths_and_lists(rt: HostRuntime) {
    let alloc = rt.alloc();
    assert_eq!(rt; (right_paths(alloc), right_lists(alloc)), (61, 40));
}
