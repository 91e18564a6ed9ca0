//! A line of a walk with its receive ring.

ghost use Rattle.std.specs.Prelude.{◌≡◌, ◌≢◌, ℕ, ◌+◌, ◌-◌, ◌<◌, ◌≤◌, ◌↔◌, true, List, length, slice_get};
ghost use Rattle.std.specs.Prelude.{slice_set, IfOk, IsTrue, is_some};
ghost use Rattle.law_model.specs.Common.{Cell, AreWindows, verdict, first_open, most_ticks};
ghost use Rattle.member_path.specs.failure_window.OpenWindows.{CanClose, last_end};
ghost use Rattle.member_path.specs.path_delay.CallsOnDelayedLine.{Calls, opened, and_push, and_flush};
ghost use Rattle.member_path.specs.path_delay.CallsOnDelayedLine.{path_cells, and_cut, and_mend};
ghost use Rattle.member_rows.specs.realign_rows.Gather.{GatherStands as Gathers, line_count, IsOpenAt};
ghost use Rattle.walk_engine.specs.walk_parts.Ringed.{Ringed, ring_of, Has, popped_cells, IsNext, IsPopped};
ghost use Rattle.walk_engine.specs.walk_parts.Ringed.{popped_until};
ghost use Rattle.walk_engine.specs.walk_parts.Ringed.{leaves_open, with_sign, count_of, is_at};
ghost use Rattle.law_model.specs.Common.{longest_delay, most_windows};

use member_cells::{HeldContainer, blank_boxes};
use member_path::cell_numbers::CellSign;
use member_path::failure_window::{Window, Windows};
use member_path::path_delay::LineCore;
use member_rows::realign_rows::{RowAnswer, RowGather};
use std::alloc::{AllocError, Global};
use std::marker::Model;

/// A line with its receive ring: the cells that it gave and that weren't popped. Only its making takes
/// memory, and a container is copied nowhere on its way into the line, through it and out of the ring.
#[derive(Drop)]
pub(crate) struct WalkLine {
    core: LineCore,
    /// Which cells carries gave: cell `y` at place `y` modulo the size of the ring.
    signs: Vec<CellSign>,
    /// The containers of those that are good, each in a box that it may come from the line and go into a row in.
    places: Vec<Box<HeldContainer>>,
    /// How many carries were made.
    carried: u32,
    /// How many cells came out.
    given: u32,
    /// How many of them were popped.
    popped: u32,
}

impl Model for WalkLine {
    ghost use Rattle.member_cells.specs.HeldPlaces.{held};
    ghost use Rattle.walk_engine.specs.walk_parts.Ringed.{Ringed, IsRinged};

    ghost Value = { Ringed };

    ghost view = { λ line. record {
      core = line.core;
      signs = line.signs.items;
      places = held line.places.items;
      carried = line.carried;
      given = line.given;
      popped = line.popped;
    } };

    ghost invariant = { λ line. IsRinged (record {
      core = line.core;
      signs = line.signs.items;
      places = held line.places.items;
      carried = line.carried;
      given = line.given;
      popped = line.popped;
    }) };
}

impl WalkLine {
    /// A line with a delay in containers, its windows, and the number of containers that it will carry, whose
    /// ring holds `ring` cells.
    pub(crate) fn new(
        alloc: Global,
        delay: u16,
        windows: &[Window],
        total: u32,
        ring: u16,
    ) -> Result<WalkLine, AllocError>
        requires delay { delay ≤ longest_delay }
        requires few { length windows.now ≤ most_windows }
        requires apart { AreWindows 0 windows.now }
        requires total { total ≤ most_ticks }
        requires ring { 1 ≤ ring }
        ensures has { IfOk result (λ line. Has line (opened delay windows.now total)) }
        ensures ring { IfOk result (λ line. ring_of line ≡ ring) }
        ensures popped { IfOk result (λ line. line.popped ≡ 0) }
    {
        let Ok(windows) = Windows::new(alloc, windows) else {
            return Err(AllocError);
        };
        Ok(WalkLine {
            core: LineCore::new(alloc, delay, windows, total)?,
            signs: vec![in alloc; CellSign::Fail; usize::from(ring)]?,
            places: blank_boxes(alloc, usize::from(ring))?,
            carried: 0,
            given: 0,
            popped: 0,
        })
    }

    /// How many carries were made.
    pub(crate) fn carried(&self) -> u32
        ensures { result ≡ self.now.carried }
    {
        self.carried
    }

    /// The line without its ring.
    pub(crate) fn core(&self) -> &LineCore
        ensures { result.now ≡ self.now.core }
    {
        &self.core
    }

    /// Whether the receive ring holds as many cells as it may.
    pub(crate) fn is_full(&self) -> bool
        ensures full { IsTrue result ↔ (self.now.given ≡ self.now.popped + ring_of self.now) }
        ensures within { self.now.given ≤ self.now.popped + ring_of self.now }
    {
        (self.given - self.popped) as usize == self.signs.len()
    }

    /// Carries a container on, and keeps the cell that comes out, if any. It takes the container's box, and
    /// leaves another one.
    pub(crate) fn push(&mut self, container: &mut Box<HeldContainer>)
        requires left { self.old.core.pushed < self.old.core.total }
        requires room { self.old.given < self.old.popped + ring_of self.old }
        ensures has { (calls : Calls) → Has self.old calls →
            Has self.new (and_push calls container.old.value) }
        ensures ring { ring_of self.new ≡ ring_of self.old }
        ensures carried { self.new.carried ≡ self.old.carried + 1 }
        ensures popped { self.new.popped ≡ self.old.popped }
    {
        let size = self.signs.len();
        let slot = self.given as usize % size;
        exchange(
            &mut self.places,
            slot,
            (self.popped as usize + size - 1) % size,
        );
        let carry = self.core.push(container, &mut self.places[slot]);
        self.carried += 1;
        self.given += keep(&mut self.signs, slot, carry);
    }

    /// Makes a carry after the last container, and keeps the cell that comes out, if any.
    pub(crate) fn flush(&mut self)
        requires pushed { self.old.core.pushed ≡ self.old.core.total }
        requires runs { self.old.core.flushed ≤ self.old.core.delay }
        requires room { self.old.given < self.old.popped + ring_of self.old }
        ensures has { (calls : Calls) → Has self.old calls → Has self.new (and_flush calls) }
        ensures ring { ring_of self.new ≡ ring_of self.old }
        ensures carried { self.new.carried ≡ self.old.carried + 1 }
        ensures popped { self.new.popped ≡ self.old.popped }
    {
        let slot = self.given as usize % self.signs.len();
        let carry = self.core.flush(&mut self.places[slot]);
        self.carried += 1;
        self.given += keep(&mut self.signs, slot, carry);
    }

    /// Damages the containers from number `first` on, of which none was pushed yet, until the line is mended. What
    /// is on its way, and what waits in the ring, stays as it is.
    pub(crate) fn cut(&mut self, first: u32)
        requires few { length self.old.core.windows < most_windows }
        requires after { last_end self.old.core.windows ≤ first }
        requires left { first < self.old.core.total }
        requires pushed { self.old.core.pushed ≤ first }
        ensures has { (calls : Calls) → Has self.old calls → Has self.new (and_cut calls first) }
        ensures cells { (calls : Calls) → Has self.old calls →
            path_cells (and_cut calls first) ≡ path_cells calls }
        ensures ring { ring_of self.new ≡ ring_of self.old }
        ensures carried { self.new.carried ≡ self.old.carried }
        ensures popped { self.new.popped ≡ self.old.popped }
    {
        self.core.cut(first);
    }

    /// Damages the containers from number `end` on no longer, of which none was pushed yet.
    pub(crate) fn mend(&mut self, end: u32)
        requires cut { CanClose self.old.core.windows end }
        requires pushed { self.old.core.pushed ≤ end }
        ensures has { (calls : Calls) → Has self.old calls → Has self.new (and_mend calls end) }
        ensures cells { (calls : Calls) → Has self.old calls →
            path_cells (and_mend calls end) ≡ path_cells calls }
        ensures ring { ring_of self.new ≡ ring_of self.old }
        ensures carried { self.new.carried ≡ self.old.carried }
        ensures popped { self.new.popped ≡ self.old.popped }
    {
        self.core.mend(end);
    }

    /// Pops cells of line number `line` into `rows` until it decides the next row, or its ring is empty.
    /// Answers whether it does. What then lies in the places of the cells that were popped says nothing.
    pub(crate) fn pop_into(&mut self, rows: &mut RowGather, line: u8) -> bool
        ensures popped { (calls : Calls) (cells : List (List Cell)) →
            IsNext self.old calls rows.old cells line →
            self.new.popped ≡ popped_until (self.old.given - self.old.popped)
            (λ y. leaves_open (path_cells calls) rows.old.rows y) self.old.popped }
        ensures decides { (calls : Calls) (cells : List (List Cell)) →
            IsNext self.old calls rows.old cells line →
            result ≡ is_some (verdict (popped_cells self.new calls) rows.old.rows) }
        ensures has { (calls : Calls) → Has self.old calls → Has self.new calls }
        ensures gathers { (calls : Calls) (cells : List (List Cell)) →
            IsNext self.old calls rows.old cells line →
            Gathers rows.new (slice_set cells line (popped_cells self.new calls)) }
        ensures others { IsPopped self.old self.new }
        ensures lines { line_count rows.new ≡ line_count rows.old }
        ensures rows { rows.new.rows ≡ rows.old.rows }
    {
        while self.popped < self.given {
            if !waits_for(rows, line) {
                return true;
            }
            let slot = self.popped as usize % self.signs.len();
            rows.offer(line, self.signs[slot], &mut self.places[slot]);
            self.popped += 1;
        }
        !waits_for(rows, line)
    }
}

/// Changes the boxes of two places for each other. A place that is to be filled gets the box that was emptied
/// last, since this lies nearest in the caches of the processor.
fn exchange(places: &mut Vec<Box<HeldContainer>>, a: usize, b: usize)
    requires first { a < length places.old.items }
    requires second { b < length places.old.items }
    ensures size { length places.new.items ≡ length places.old.items }
    ensures others { (k : ℕ) → k ≢ a → k ≢ b →
        slice_get places.new.items k ≡ slice_get places.old.items k }
{
    places.swap(a, b);
}

/// Puts the sign of the cell that a carry gave, if any, at its place. Answers how many cells it gave.
fn keep(signs: &mut Vec<CellSign>, slot: usize, carry: Option<CellSign>) -> u32
    requires { slot < length signs.old.items }
    ensures signs { signs.new.items ≡ with_sign carry slot signs.old.items }
    ensures count { result ≡ count_of carry }
{
    match carry {
        None => 0,
        Some(sign) => {
            signs[slot] = sign;
            1
        }
    }
}

/// Whether a line is the first one that doesn't decide the next row.
fn waits_for(rows: &RowGather, line: u8) -> bool
    ensures waits { (cells : List (List Cell)) → Gathers rows.now cells →
        result ≡ is_at line (first_open cells rows.now.rows) }
    ensures allows { result ≡ true → (line < line_count rows.now) × IsOpenAt rows.now line }
{
    match rows.row() {
        RowAnswer::Row => false,
        RowAnswer::Waiting { line: least } => least == line,
    }
}
