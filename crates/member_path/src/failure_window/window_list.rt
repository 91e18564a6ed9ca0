//! A list of windows without a fault, which may grow.
ghost use Rattle.std.specs.Prelude.{◌≡◌, ◌+◌, ◌<◌, ◌≤◌, nat_lt, if◌then◌else◌, List, length, IfOk, IfSome};
ghost use Rattle.std.specs.Prelude.{IfNone, IsOkUnless, vec_capacity};
ghost use Rattle.law_model.specs.Common.{carried_in, AreWindows, slip_of, most_windows};
ghost use Rattle.law_model.specs.declared.window_types.Window.{Window};
ghost use Rattle.law_model.specs.members.Damage.{carried};
ghost use Rattle.member_path.specs.failure_window.WindowsAbove.{IsFirstAbove};
ghost use Rattle.member_path.specs.failure_window.FaultOfList.{window_fault};
ghost use Rattle.member_path.specs.failure_window.OpenWindows.{AreKept, CanClose, closed_at, last_end, opened_at};

use crate::failure_window::window_fault::{WindowFault, first_fault};
use law_model::{Carried, MOST_WINDOWS, Window};
use std::alloc::{AllocError, Global};
use std::marker::Model;

// Windows are near where fewer containers lie between them.
const NEAR: u32 = 17;

// How many windows a line has room for.
const ROOM: usize = MOST_WINDOWS;

/// The failures of a line: its windows, in the order of their containers. A contract sees the list. Only its
/// making takes memory.
#[derive(Drop)]
pub struct Windows {
    list: Vec<Window>,
}

impl Model for Windows {
    ghost Value = { List Window };

    ghost view = { λ windows. windows.list.items };

    ghost invariant = { λ windows. AreKept windows.list.items (vec_capacity windows.list) };
}

impl Windows {
    /// The windows of a list, at most 256, or its first fault. They are tested in their order, each for
    /// Empty, then for Overlap, then for SlipTooLong; memory is asked for after that.
    pub fn new(alloc: Global, list: &[Window]) -> Result<Windows, WindowFault>
        requires { length list.now ≤ most_windows }
        ensures fault { IfSome (window_fault list.now) (λ fault. result ≡ Err fault) }
        ensures no_fault { IfNone (window_fault list.now) (IsOkUnless result WindowFault.Memory) }
        ensures value { IfOk result (λ windows. windows ≡ list.now) }
    {
        if let Some(fault) = first_fault(list) {
            return Err(fault);
        }
        match copied(alloc, list) {
            Ok(list) => Ok(Windows { list }),
            Err(_) => Err(WindowFault::Memory),
        }
    }

    /// What comes of container `n` on the line.
    pub fn at(&self, n: u32) -> Carried
        ensures { result ≡ carried self.now n }
    {
        carried_at(&self.list, n)
    }

    /// Puts a window from container `first` on at the end of the list. Until it is closed it lasts as long as
    /// its line, which carries `total` containers in all, so that no limit on lines has to be known here.
    pub fn open(&mut self, first: u32, total: u32)
        requires few { length self.old < most_windows }
        requires after { last_end self.old ≤ first }
        requires some { first < total }
        ensures { self.new ≡ opened_at self.old first total }
    {
        self.list.push_reserved(Window {
            first,
            end: total,
            slip: 0,
        });
    }

    /// Ends the last window at container `end`, and takes it away if that is its first one.
    pub fn close(&mut self, end: u32)
        requires { CanClose self.old end }
        ensures { self.new ≡ closed_at self.old end }
    {
        if let Some(Window { first, .. }) = self.list.pop() {
            if first < end {
                self.list.push_reserved(Window {
                    first,
                    end,
                    slip: 0,
                });
            }
        }
    }
}

/// What comes of a container: the first window that ends above it damages it, or none does.
fn carried_at(list: &[Window], n: u32) -> Carried
    requires { AreWindows 0 list.now }
    ensures { result ≡ carried list.now n }
{
    let passed = list.partition_point(|window| window.end <= n);
    carried_by_first(&list[passed..], n)
}

/// What comes of a container that the first window, if any, or none at all damages.
fn carried_by_first(list: &[Window], n: u32) -> Carried
    requires { IsFirstAbove n list.now }
    ensures { result ≡ carried list.now n }
{
    match list.first() {
        Some(window) => {
            if window.first <= n {
                carried_in_window(window, n)
            } else {
                Carried::Whole
            }
        }
        None => Carried::Whole,
    }
}

/// The slip of windows that stand in order, apart, and give a sign each: the greatest sum of slips over a run
/// of near ones.
pub fn greatest_slip(list: &[Window]) -> u32
    requires { AreWindows 0 list.now }
    ensures { result ≡ slip_of list.now }
{
    let mut end = 0;
    let mut run = 0;
    let mut most = 0;
    for window in list {
        run = run_with(run, end, window);
        most = run.max(most);
        end = window.end;
    }
    most
}

/// What comes of a container of a window.
fn carried_in_window(window: &Window, n: u32) -> Carried
    requires { n < window.now.end }
    ensures { result ≡ carried_in window.now n }
{
    if window.end - n > u32::from(window.slip) {
        Carried::Fails
    } else {
        Carried::Vanishes
    }
}

/// A list of one's own, with room for each window that a line may have.
fn copied(alloc: Global, list: &[Window]) -> Result<Vec<Window>, AllocError>
    ensures items { IfOk result (λ copy. copy.items ≡ list.now) }
    ensures room { IfOk result (λ copy. most_windows ≤ vec_capacity copy) }
{
    let mut copy = Vec::with_capacity(alloc, ROOM)?;
    copy.extend_from_slice(list)?;
    Ok(copy)
}

/// The sum of slips of the run that a window ends, after a run of this sum up to this end.
fn run_with(run: u32, end: u32, window: &Window) -> u32
    requires sum { run ≤ end }
    requires apart { end ≤ window.now.first }
    requires sign { window.now.slip + window.now.first < window.now.end }
    ensures sum { result ≡ (if nat_lt window.now.first (end + 17)
        then run + window.now.slip else window.now.slip) }
    ensures within { result ≤ window.now.end }
{
    let Window {
        first,
        end: _next,
        slip,
    } = *window;
    if first - end < NEAR {
        run + u32::from(slip)
    } else {
        u32::from(slip)
    }
}
