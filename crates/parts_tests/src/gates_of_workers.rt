//! Worked rows of bursts, with all ends on one thread, and how often the worker passes a gate and says there that it
//! moved.

ghost use Rattle.std.specs.Prelude.{◌≡◌, []};
ghost use Rattle.thread_rings.specs.EndsOfRing.{in_passed};

use law_model::Options;
use member_cells::{Cell, Container, PAYLOAD};
use member_path::failure_window::Window;
use member_path::path_delay::{LineCore, Windows};
use octet_io::MemSink;
use std::alloc::Global;
use std::sync::atomic::{AtomicU64, Ordering};
use thread_rings::{
    Burst, Gate, IdleCause, LineEnds, LineWorker, RingIn, RingOut, Who, back_ring, line_rings,
};
use thread_sink::{SinkBurst, SinkIdle, SinkWorker};

/// Counts how often one of those who pass a gate passes, and how often it moved.
#[derive(Drop)]
struct Counter {
    who: Who,
    passed: AtomicU64,
    moved: AtomicU64,
}

impl Counter {
    fn new(who: Who) -> Counter {
        Counter {
            who,
            passed: AtomicU64::new(0),
            moved: AtomicU64::new(0),
        }
    }

    /// How often it passed, and how often it moved.
    fn counts(&self) -> (u64, u64) {
        (
            self.passed.load(Ordering::SeqCst),
            self.moved.load(Ordering::SeqCst),
        )
    }
}

impl Gate for Counter {
    fn pass(&self, who: Who) {
        if who == self.who {
            self.passed.fetch_add(1, Ordering::SeqCst);
        }
    }

    fn moved(&self, who: Who) {
        if who == self.who {
            self.moved.fetch_add(1, Ordering::SeqCst);
        }
    }
}

/// A container that tells its number.
fn container(n: u8) -> Container {
    Container {
        h4: n,
        payload: [n; PAYLOAD],
    }
}

/// The slots of both rings of a line, its delay, windows and containers; letters, and the answers to them;
/// and how often its worker passes and moves. The letter `b` is a burst, `n` pops the next cell, and a digit
/// pushes its container.
type Row = (
    u16,
    u16,
    &'static [Window],
    u32,
    &'static [u8],
    &'static [u8],
    (u64, u64),
);

/// The second of two containers fails, and then one vanishes.
const WINDOW: [Window; 1] = [Window {
    first: 1,
    end: 3,
    slip: 1,
}];

/// A burst goes as far as its rings; the end is pushed once; each burst passes the gate. A delay is filled and flushed,
/// and may be longer than the line; a window fails and slips.
const ROWS: [Row; 6] = [
    (2, 0, &[], 41, b"b012bbnnnbnb", b"e...mf01-m2e", (5, 2)),
    (4, 1, &[], 1, b"9bbbbnnn", b".mddd9E-", (4, 1)),
    (4, 0, &[], 2, b"b9bb9bb", b"e.me.md", (5, 2)),
    (4, 2, &[], 3, b"012bnnnnb", b"...m012Ed", (2, 1)),
    (4, 3, &[], 1, b"0bnnnb", b".m0E-d", (2, 1)),
    (4, 0, &WINDOW, 4, b"0123bnnnnb", b"....m0F3Ed", (2, 1)),
];

/// A worker of line 3, and the far ends of its rings.
type Line = (LineWorker, RingOut<Container>, RingIn<Cell>);

/// The line of a row.
fn line(alloc: Global, row: &Row) -> Option<Line> {
    let (ring, delay, list, total, ..) = *row;
    if list.len() > 256 {
        return None;
    }
    let windows = Windows::new(alloc, list).ok()?;
    let core = LineCore::new(alloc, delay, windows, total).ok()?;
    let LineEnds {
        tx,
        tx_out,
        rx,
        rx_out,
    } = line_rings(alloc, ring).ok()?;
    Some((LineWorker::new(3, tx_out, core, rx), tx, rx_out))
}

/// The letter of what a burst did.
fn burst_letter(burst: Burst) -> u8 {
    match burst {
        Burst::Moved => b'm',
        Burst::Idle(IdleCause::Empty) => b'e',
        Burst::Idle(IdleCause::Full) => b'f',
        Burst::Done => b'd',
    }
}

/// The letter of the next cell in a ring: the digit of its container, or a letter.
fn cell_letter(ring: &mut RingIn<Cell>) -> u8 {
    if !ring.ready() {
        return b'-';
    }
    match ring.pop() {
        Cell::Good(found) if found == container(found.h4) => found.h4,
        Cell::Good(_) => b'?',
        Cell::Fail => b'F',
        Cell::End => b'E',
    }
}

/// The answer to a letter.
fn answer(letter: u8, line: &mut Line, gate: &Counter) -> u8 {
    match letter {
        b'b' => burst_letter(line.0.burst(gate)),
        b'n' => cell_letter(&mut line.2),
        digit if line.1.ready() => {
            line.1.push(container(digit));
            b'.'
        }
        _ => b'f',
    }
}

/// Whether each letter of a row is answered so, and the worker passes and moves as often.
fn is_answered(row: &Row, line: &mut Line, gate: &Counter) -> bool {
    let (.., letters, answers, counts) = *row;
    for (letter, want) in letters.iter().zip(answers) {
        if answer(*letter, line, gate) != *want {
            return false;
        }
    }
    gate.counts() == counts
}

/// The same of a line that is made for it.
fn is_right(alloc: Global, row: &Row) -> bool {
    let gate = Counter::new(Who::Line(3));
    match line(alloc, row) {
        Some(mut line) => is_answered(row, &mut line, &gate),
        None => false,
    }
}

/// The place of the first row that is answered otherwise.
fn first_wrong(alloc: Global) -> Option<usize> {
    for (place, row) in ROWS.iter().enumerate() {
        if !is_right(alloc, row) {
            return Some(place);
        }
    }
    None
}

#[test]
fn bursts_of_a_line(rt: HostRuntime) {
    assert_eq!(rt; first_wrong(rt.alloc()), None);
}

/// The sink of one line and one row, over a fresh end. Nobody pops what it returns.
fn sink(alloc: Global, end: RingIn<Cell>) -> Option<SinkWorker>
    requires { in_passed end ≡ [] }
{
    let ends = vec![in alloc; end].ok()?;
    let (back, _back_out) = back_ring(alloc).ok()?;
    SinkWorker::new(alloc, 1, 1, 756, Options::default(), ends, back).ok()
}

/// What three bursts do, where a cell comes after the first one.
fn three_bursts(
    sink: &mut SinkWorker,
    cells: &mut RingOut<Cell>,
    out: &mut MemSink,
    gate: &Counter,
) -> [SinkBurst; 3] {
    let first = sink.burst(out, gate);
    if cells.ready() {
        cells.push(Cell::Fail);
    }
    let second = sink.burst(out, gate);
    [first, second, sink.burst(out, gate)]
}

/// The same of a sink that is made for it, and how many rows are taken and frames delivered then.
fn one_row(alloc: Global, gate: &Counter) -> Option<([SinkBurst; 3], u32, u64)> {
    let mut out = MemSink::new(alloc, 100, &[]).ok()?;
    let LineEnds { mut rx, rx_out, .. } = line_rings(alloc, 2).ok()?;
    let mut sink = sink(alloc, rx_out)?;
    let bursts = three_bursts(&mut sink, &mut rx, &mut out, gate);
    Some((bursts, sink.taken(), sink.got()))
}

#[test]
fn one_row_is_taken(rt: HostRuntime) {
    let gate = Counter::new(Who::Sink);
    let seen = one_row(rt.alloc(), &gate);
    let waiting = SinkBurst::Idle(SinkIdle::Waiting { line: 0 });
    let bursts = [waiting, SinkBurst::Moved, SinkBurst::Done];
    assert!(rt; seen == Some((bursts, 1, 0)) && gate.counts() == (3, 1));
}
