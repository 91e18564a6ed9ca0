//! A line with its delay and its windows.
ghost use Rattle.std.specs.Prelude.{◌≡◌, ◌≢◌, ◌-◌, ◌<◌, ◌≤◌, ◌↔◌, ◌++◌, IfOk, Some, IfSome, IfNone, IsTrue};
ghost use Rattle.std.specs.Prelude.{Contains, length};
ghost use Rattle.law_model.specs.members.Damage.{carried};
ghost use Rattle.member_path.specs.failure_window.OpenWindows.{CanClose, closed_at, last_end, opened_at};
ghost use Rattle.member_path.specs.path_delay.Carry.{carry_cells};
ghost use Rattle.member_path.specs.path_delay.CallsOnDelayedLine.{Line, IsLine, Calls, opened, and_push, and_flush};
ghost use Rattle.member_path.specs.path_delay.CallsOnDelayedLine.{path_cells, DelayStands, Counts};
ghost use Rattle.member_path.specs.path_delay.CallsOnDelayedLine.{IsEnded, and_cut, and_mend};
ghost use Rattle.law_model.specs.Common.{most_windows};

use crate::cell_numbers::CellSign;
use crate::failure_window::Windows;
use crate::path_delay::delay_store::Store;
use law_model::Carried;
use member_cells::{Cell, HeldContainer};
use std::alloc::{AllocError, Global};
use std::marker::Model;

/// A line: containers are pushed into it one by one, and after the last of them it is flushed. Each push and
/// each flush is a carry, which gives a cell or nothing. Only the making of a line takes memory.
#[derive(Drop)]
pub struct LineCore {
    windows: Windows,
    store: Store,
    delay: u16,
    total: u32,
    pushed: u32,
    flushed: u32,
}

impl Model for LineCore {
    ghost Value = { Line };

    ghost view = { λ line. record {
      delay = line.delay;
      windows = line.windows;
      total = line.total;
      stored = line.store.items;
      pushed = line.pushed;
      flushed = line.flushed;
    } };

    ghost invariant = { λ line. IsLine line.store line.delay line.total line.pushed line.flushed };
}

impl LineCore {
    /// A line with a delay in containers, and with room for as many; with its windows; and with the number of
    /// containers that it will carry in all.
    pub fn new(
        alloc: Global,
        delay: u16,
        windows: Windows,
        total: u32,
    ) -> Result<LineCore, AllocError>
        ensures { IfOk result (λ line. DelayStands line (opened delay windows total)) }
    {
        Ok(LineCore {
            windows,
            store: Store::new(alloc, delay, total)?,
            delay,
            total,
            pushed: 0,
            flushed: 0,
        })
    }

    /// Carries a container on, and gives the sign of the cell that comes out, or `None`. It takes the
    /// container's box, and leaves another one in `container`. Where the cell is good, the box of its
    /// container lies in `out` afterwards; else the container there stays as it was.
    pub fn push(
        &mut self,
        container: &mut Box<HeldContainer>,
        out: &mut Box<HeldContainer>,
    ) -> Option<CellSign>
        requires { self.old.pushed < self.old.total }
        ensures stands { (calls : Calls) → DelayStands self.old calls →
            DelayStands self.new (and_push calls container.old.value) }
        ensures cells { (calls : Calls) → DelayStands self.old calls →
            path_cells (and_push calls container.old.value)
            ≡ path_cells calls ++ carry_cells result out.new.value }
        ensures kept { result ≢ Some CellSign.Good → out.new.value ≡ out.old.value }
        ensures counts { Counts self.old self.new 1 0 }
    {
        let fate = self.next_fate();
        self.pushed += 1;
        match fate {
            Some(fate) => self.store.pass(fate, container, out),
            None => {
                self.store.keep(container);
                None
            }
        }
    }

    /// Makes a carry once all containers were pushed, and gives the sign of the cell that comes out, or
    /// `None`. After the cell of the last container one carry gives the end. Where the cell is good, the box
    /// of its container lies in `out` afterwards; else the container there stays as it was.
    pub fn flush(&mut self, out: &mut Box<HeldContainer>) -> Option<CellSign>
        requires pushed { self.old.pushed ≡ self.old.total }
        requires runs { self.old.flushed ≤ self.old.delay }
        ensures stands { (calls : Calls) → DelayStands self.old calls →
            DelayStands self.new (and_flush calls) }
        ensures cells { (calls : Calls) → DelayStands self.old calls →
            path_cells (and_flush calls) ≡ path_cells calls ++ carry_cells result out.new.value }
        ensures kept { result ≢ Some CellSign.Good → out.new.value ≡ out.old.value }
        ensures counts { Counts self.old self.new 0 1 }
    {
        let left = u32::from(self.delay) - self.flushed;
        self.flushed += 1;
        if left > self.total {
            None
        } else if left == 0 {
            Some(CellSign::End)
        } else {
            let fate = self.windows.at(self.total - left);
            self.store.let_go(fate, out)
        }
    }

    /// What comes of the container that the next push lets go, once the delay is filled.
    fn next_fate(&self) -> Option<Carried>
        requires { self.now.pushed < self.now.total }
        ensures filled { IfSome result (λ fate. (self.now.delay ≤ self.now.pushed)
            × (fate ≡ carried self.now.windows (self.now.pushed - self.now.delay))) }
        ensures filling { IfNone result (self.now.pushed < self.now.delay) }
    {
        if self.store.kept.is_full() {
            Some(self.windows.at(self.pushed - u32::from(self.delay)))
        } else {
            None
        }
    }

    /// Damages the containers from number `first` on, of which none was pushed yet, until the line is mended. What
    /// is on its way comes out as it would have.
    pub fn cut(&mut self, first: u32)
        requires few { length self.old.windows < most_windows }
        requires after { last_end self.old.windows ≤ first }
        requires left { first < self.old.total }
        requires pushed { self.old.pushed ≤ first }
        ensures line { self.new ≡ record self.old {
          windows = opened_at self.old.windows first self.old.total;
        } }
        ensures stands { (calls : Calls) → DelayStands self.old calls →
            DelayStands self.new (and_cut calls first) }
        ensures cells { (calls : Calls) → DelayStands self.old calls →
            path_cells (and_cut calls first) ≡ path_cells calls }
    {
        self.windows.open(first, self.total);
    }

    /// Damages the containers from number `end` on no longer, of which none was pushed yet.
    pub fn mend(&mut self, end: u32)
        requires cut { CanClose self.old.windows end }
        requires pushed { self.old.pushed ≤ end }
        ensures line { self.new ≡ record self.old { windows = closed_at self.old.windows end } }
        ensures stands { (calls : Calls) → DelayStands self.old calls →
            DelayStands self.new (and_mend calls end) }
        ensures cells { (calls : Calls) → DelayStands self.old calls →
            path_cells (and_mend calls end) ≡ path_cells calls }
    {
        self.windows.close(end);
    }

    /// Whether all containers were pushed.
    pub fn all_pushed(&self) -> bool
        ensures all { IsTrue result ↔ (self.now.pushed ≡ self.now.total) }
        ensures within { self.now.pushed ≤ self.now.total }
    {
        self.pushed == self.total
    }

    /// Whether the end was given.
    pub fn ended(&self) -> bool
        ensures ended { IsTrue result ↔ IsEnded self.now }
        ensures given { (calls : Calls) → DelayStands self.now calls →
            IsTrue result ↔ Contains (path_cells calls) Cell.End }
    {
        self.flushed > u32::from(self.delay)
    }
}
