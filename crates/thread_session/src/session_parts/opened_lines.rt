//! The lines of a session are opened.
ghost use Rattle.std.specs.Prelude.{◌≡◌, ◌<◌, [], slice_index_or, All, length, IfOk};
ghost use Rattle.member_path.specs.path_delay.CallsOnDelayedLine.{DelayStands, opened};
ghost use Rattle.law_model.specs.Common.{IsNetwork, AreWindows, greatest, greatest_slip as greatest_slip_of};
ghost use Rattle.thread_session.specs.session_parts.LinesOpened.{AreOpened, IsLineOpened, slots_of};

use law_model::{Config, Delays, WindowLists};
use member_cells::{Cell, Container};
use member_path::failure_window::greatest_slip;
use member_path::path_delay::{LineCore, Windows};
use std::alloc::{AllocError, Global};
use thread_rings::{LineWorker, RingIn, RingOut, line_rings};

/// So many slots a receive ring has beyond those that it needs, for bursts.
const BURSTS: u32 = 64;

/// The workers of lines, in the order of the lines, and the other ends of their rings.
#[derive(Drop)]
pub struct OpenedLines {
    /// Where the containers of each line are pushed.
    pub tx: Vec<RingOut<Container>>,
    /// The workers.
    pub workers: Vec<LineWorker>,
    /// Where the cells of each line are popped.
    pub rx: Vec<RingIn<Cell>>,
}

/// The path of a line.
fn open_core(alloc: Global, config: &Config, m: usize) -> Result<LineCore, AllocError>
    requires network { IsNetwork config.now }
    requires line { m < config.now.lines }
    ensures { IfOk result (λ core. DelayStands core (opened (slice_index_or config.now.delays m 0)
        (slice_index_or config.now.windows m []) config.now.ticks)) }
{
    let Ok(windows) = Windows::new(alloc, &config.windows.0[m].0) else {
        return Err(AllocError);
    };
    LineCore::new(alloc, config.delays.0[m], windows, config.ticks)
}

/// The greatest delay.
fn greatest_delay(delays: &Delays) -> u16
    ensures { result ≡ greatest delays.now }
{
    let mut most = 0;
    for delay in &delays.0 {
        most = most.max(*delay);
    }
    most
}

/// The greatest slip of a line.
fn greatest_of_slips(lists: &WindowLists) -> u32
    requires { All (λ list. AreWindows 0 list) lists.now }
    ensures { result ≡ greatest_slip_of lists.now }
{
    let mut most = 0;
    for list in &lists.0 {
        most = most.max(greatest_slip(&list.0));
    }
    most
}

/// The slots of the receive ring of line m. It holds what the line is ahead of one with the greatest delay and
/// slip, and some more; but the ring has no more slots than its configuration gives it.
fn slots(config: &Config, m: usize, slow: u16, slip: u32) -> u16
    requires line { m < length config.now.delays }
    requires slow { slow ≡ greatest config.now.delays }
    requires slip { slip ≡ greatest_slip_of config.now.windows }
    ensures { result ≡ slots_of config.now m }
{
    let ahead = u32::from(slow.saturating_sub(config.delays.0[m]));
    let needed = ahead.saturating_add(slip).saturating_add(BURSTS);
    needed.min(u32::from(config.ring)) as u16
}

/// Opens a line, over a send ring and a receive ring of so many slots.
fn open_line(
    alloc: Global,
    config: &Config,
    line: u8,
    slots: u16,
) -> Result<(RingOut<Container>, LineWorker, RingIn<Cell>), AllocError>
    requires network { IsNetwork config.now }
    requires line { line < config.now.lines }
    ensures { IfOk result (λ l. IsLineOpened config.now line slots l.0 l.1 l.2) }
{
    let core = open_core(alloc, config, usize::from(line))?;
    let ends = line_rings(alloc, slots)?;
    let worker = LineWorker::new(line, ends.tx_out, core, ends.rx);
    Ok((ends.tx, worker, ends.rx_out))
}

/// Opens the lines of a session, over fresh rings.
pub fn open_lines(alloc: Global, config: &Config) -> Result<OpenedLines, AllocError>
    requires { IsNetwork config.now }
    ensures { IfOk result (λ lines. AreOpened config.now config.now.lines lines.tx.items
        lines.workers.items lines.rx.items) }
{
    let count = usize::from(config.lines);
    let mut tx = Vec::with_capacity(alloc, count)?;
    let mut workers = Vec::with_capacity(alloc, count)?;
    let mut rx = Vec::with_capacity(alloc, count)?;
    let slow = greatest_delay(&config.delays);
    let slip = greatest_of_slips(&config.windows);
    for line in 0..config.lines {
        let slots = slots(config, usize::from(line), slow, slip);
        let (out, worker, into) = open_line(alloc, config, line, slots)?;
        tx.push_reserved(out);
        workers.push_reserved(worker);
        rx.push_reserved(into);
    }
    Ok(OpenedLines { tx, workers, rx })
}
