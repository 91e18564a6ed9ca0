//! One direction of a group without its way back, call by call.

ghost use Rattle.std.specs.Prelude.{◌≡◌, ℕ, ◌+◌, ◌<◌, ◌≤◌, List, [], length, map};
ghost use Rattle.std.specs.Prelude.{slice_index_or, slice_set};
ghost use Rattle.std.specs.Prelude.{Option, Some, None, IfOk, is_some};
ghost use Rattle.law_model.specs.Common.{begin, full, Leg, Scenario, source_at, steps_in, Told, IsNetwork};
ghost use Rattle.law_model.specs.declared.script_types.Config.{Config};
ghost use Rattle.law_model.specs.declared.walk_events.Event.TheVariants.{Tick, Carry};
ghost use Rattle.terminal_source.specs.source_core.GivenScenario.{SourceStands as HasMade};
ghost use Rattle.terminal_source.specs.source_core.Terminal.{needed, SameKind};
ghost use Rattle.member_path.specs.failure_window.OpenWindows.{CanClose, closed_at, last_end, opened_at};
ghost use Rattle.law_walk.specs.Common.{is_client, totals_of, walk_plan};
ghost use Rattle.law_walk.specs.Common.{landed_scenario, table_in, told_before};
ghost use Rattle.terminal_group.specs.ReturnInbox.{empty_inbox, with_come, cell_for, rest_for};
ghost use Rattle.terminal_group.specs.Item.{kind_of};
ghost use Rattle.terminal_group.specs.SourceByCounts.{missing_from};
ghost use Rattle.walk_engine.specs.walk_core.Landing.{landing_of};
ghost use Rattle.walk_engine.specs.walk_core.WalkAfterEvent.{answer_by, refusal_in_event, GivesRows};
ghost use Rattle.walk_engine.specs.declared.walk_core.step_answers.Moved.TheVariants.{Yes};
ghost use Rattle.walk_engine.specs.walk_core.OpenedWay.{HasWindows, IsNew, IsAlike};
ghost use Rattle.walk_engine.specs.walk_core.WayParts.{counts_of, line_counts, windows_in};
ghost use Rattle.walk_engine.specs.walk_core.WayParts.{StandsForSome, WayStands};
ghost use Rattle.walk_engine.specs.walk_core.Take.{take_cause};
ghost use Rattle.walk_engine.specs.walk_core.EventAnswers.{Makes, IsDue, with_passed, CanTick, Takes};

use crate::walk_core::open_way::{Ends, Opened, Paths, open};
use crate::walk_core::send_rings::{carry_on, carry_stall, first_full, next_place};
use crate::walk_core::take_rows::{pop_lines, take_counted_row};
use crate::walk_parts::WalkLine;
use law_model::{Config, FrameOut, Refusal, StallCause, Totals};
use member_cells::{BackCell, HeldContainer};
use member_rows::lcas_packet::Packet;
use member_rows::realign_rows::RowGather;
use std::alloc::{AllocError, Global};
use std::marker::Model;
use terminal_group::{CountedSource, ItemRef};
use terminal_sink::sink_core::{SinkCore, TakeAnswer};
use terminal_source::lcas_source::SourceTable;

/// One direction of a group without its way back: its source side, its lines with their rings, and its sink
/// side. Who calls it says which item lands, and brings the return cells. It knows no item beforehand and keeps
/// none. What its calls do is said of each leg and each number of return packets for which it stands. Only its
/// making takes memory.
pub struct WayCore {
    source: CountedSource,
    /// The send rings of all lines: each place holds the containers of a frame, of a number modulo 32, each
    /// until its line carried it.
    sent: Vec<Vec<Box<HeldContainer>>>,
    lines: Vec<WalkLine>,
    rows: RowGather,
    sink: SinkCore,
    /// How many frames were delivered.
    got: u64,
}

/// A call of its own, so that a function which drops one doesn't go through its parts.
impl Drop for WayCore {
    fn drop(self) {
        let WayCore {
            source: _,
            sent: _,
            lines: _,
            rows: _,
            sink: _,
            got: _,
        } = self;
    }
}

impl Model for WayCore {
    ghost use Rattle.walk_engine.specs.walk_core.WayParts.{Parts, sent_frames};

    ghost Value = { Parts };

    ghost view = { λ w. record {
      source = w.source;
      sent = sent_frames w.sent;
      lines = w.lines.items;
      rows = w.rows;
      sink = w.sink;
      got = w.got;
    } };
}

impl WayCore {
    /// Makes room for the direction of a network, before any event, whatever lands in it. It may also be one
    /// whose lines are damaged or whose return packets are lost in some other way, and whose packets tell something.
    pub fn new(alloc: Global, config: &Config) -> Result<WayCore, AllocError>
        requires { IsNetwork config.now }
        ensures stands { IfOk result (λ way. (leg : Leg) → IsAlike leg config.now →
            WayStands leg 0 way) }
        ensures counts { IfOk result (λ way. (leg : Leg) → IsAlike leg config.now →
            counts_of way 0 ≡ begin (walk_plan leg)) }
        ensures inbox { IfOk result (λ way. way.source.inbox
            ≡ empty_inbox config.now.lost config.now.lag) }
        ensures windows { IfOk result (λ way. HasWindows config.now way.lines) }
    {
        let opened = open(alloc, config)?;
        Ok(WayCore::from_opened(opened))
    }

    /// Its source side.
    pub fn source(&self) -> &CountedSource
        ensures { result.now ≡ self.now.source }
    {
        &self.source
    }

    /// Its sink.
    pub fn sink(&self) -> &SinkCore
        ensures { result.now ≡ self.now.sink }
    {
        &self.sink
    }

    /// Its gathered rows.
    pub fn rows(&self) -> &RowGather
        ensures { result.now ≡ self.now.rows }
    {
        &self.rows
    }

    /// How many lines there are.
    pub fn lines(&self) -> u8
        requires { StandsForSome self.now }
        ensures { result ≡ length self.now.lines }
    {
        self.lines.len() as u8
    }

    /// The table of the lines after the last decision step and the commands that were accepted since.
    pub fn table(&self) -> &SourceTable
        ensures source { (leg : Leg) (backs : ℕ) → WayStands leg backs self.now →
            result.now.source ≡ source_at (landed_scenario leg (counts_of self.now backs))
            (told_before leg self.now.source.core.ticks) (steps_in self.now.source.core.ticks) }
        ensures table { (leg : Leg) (backs : ℕ) → WayStands leg backs self.now →
            result.now.source.table ≡ table_in leg self.now.source.core.ticks }
        ensures steps { result.now.steps ≡ steps_in self.now.source.core.ticks }
    {
        self.source.core().table()
    }

    /// What came of it so far, in numbers.
    pub fn totals(&self) -> Totals
        ensures { (leg : Leg) (backs : ℕ) → WayStands leg backs self.now →
            result ≡ totals_of leg (counts_of self.now backs) }
    {
        let landed = self.source.landed();
        Totals {
            ticks: self.source.core().ticks(),
            taken: self.sink.taken(),
            frames: landed.accepted(true),
            commands: landed.accepted(false),
            refused: landed.all_refused(),
            got: self.got,
        }
    }

    /// Lands an item now. Answers why it is refused, where it is.
    pub fn land(&mut self, item: ItemRef) -> Option<Refusal>
        ensures makes { (leg : Leg) (backs : ℕ) → WayStands leg backs self.old →
            IsDue leg (counts_of self.old backs) (kind_of item.entry) →
            Makes leg backs (landing_of (is_client (kind_of item.entry)))
            self.old self.new (answer_by None result) }
        ensures refusal { (leg : Leg) (backs : ℕ) → WayStands leg backs self.old →
            IsDue leg (counts_of self.old backs) (kind_of item.entry) →
            result ≡ refusal_in_event leg (counts_of self.old backs)
            (landing_of (is_client (kind_of item.entry))) }
        ensures ticks { self.new.source.core.ticks ≡ self.old.source.core.ticks }
        ensures inbox { self.new.source.inbox ≡ self.old.source.inbox }
        ensures rest { self.new ≡ record self.old { source = self.new.source } }
    {
        self.source.land(item)
    }

    /// The first line whose send ring holds as many containers as it may.
    pub fn first_full(&self) -> Option<u8>
        requires { StandsForSome self.now }
        ensures { (leg : Leg) (backs : ℕ) → WayStands leg backs self.now → result
            ≡ full leg.config.ticks self.now.source.core.ticks 0 (map line_counts self.now.lines) }
    {
        first_full(
            &self.lines,
            self.source.total_ticks(),
            self.source.core().ticks(),
        )
    }

    /// Takes a return cell that has come, or its loss where a return window holds it.
    pub fn put(&mut self, cell: BackCell)
        requires room { length self.old.source.inbox.cells < self.old.source.inbox.room }
        requires few { self.old.source.inbox.come < 4294967295 }
        ensures { self.new ≡ record self.old {
          source = record self.old.source
              { inbox = with_come self.old.source.inbox cell };
        } }
    {
        self.source.put(cell);
    }

    /// Makes the next frame, and answers the return cell that it took. Where it makes a decision step, its packets
    /// pass on `told`, a return packet of the other way of a pair; without one they tell nothing. Between two steps
    /// `makes` speaks only of calls without one.
    pub fn make(&mut self, told: Option<Packet>) -> Option<BackCell>
        requires stands { StandsForSome self.old }
        requires left { self.old.source.core.ticks < self.old.source.total }
        requires cell { missing_from self.old.source ≡ None }
        ensures makes { (leg : Leg) (backs : ℕ) → WayStands leg backs self.old →
            CanTick leg backs self.old told result → Makes leg backs Tick self.old self.new Yes }
        ensures cell { result
            ≡ cell_for (is_some (needed self.old.source.core)) self.old.source.inbox.cells }
        ensures inbox { self.new.source.inbox ≡ record self.old.source.inbox {
          cells = rest_for (is_some (needed self.old.source.core)) self.old.source.inbox.cells;
        } }
        ensures landed { self.new.source.landed ≡ self.old.source.landed }
        ensures ticks { self.new.source.core.ticks ≡ self.old.source.core.ticks + 1 }
        ensures rest { self.new
            ≡ record self.old { source = self.new.source; sent = self.new.sent } }
    {
        let ticks = self.source.core().ticks();
        let place = next_place(&mut self.sent, &self.lines, ticks);
        pass_on(&mut self.source, told);
        self.source.make(&mut self.sent[place])
    }

    /// Makes a carry of a line. Answers why it carries nothing, where it doesn't; then nothing changes.
    pub fn carry(&mut self, line: u8) -> Option<StallCause>
        requires line { line < length self.old.lines }
        requires stands { StandsForSome self.old }
        ensures makes { (leg : Leg) (backs : ℕ) → WayStands leg backs self.old →
            Makes leg backs (Carry line) self.old self.new (answer_by result None) }
        ensures rest { self.new ≡ record self.old { sent = self.new.sent; lines = self.new.lines } }
        ensures windows { windows_in self.new.lines ≡ windows_in self.old.lines }
    {
        let m = usize::from(line);
        match carry_stall(&self.lines[m], line, self.source.core().ticks()) {
            Some(cause) => Some(cause),
            None => {
                carry_on(&mut self.lines[m], m, &mut self.sent);
                None
            }
        }
    }

    /// Pops the cells of the next row, and takes it where the lines decide it. Frames that it delivers are
    /// given to `out`. `takes` and `gives` speak only of calls while a row is left and the return path has room.
    pub fn take<F: FrameOut>(&mut self, out: &mut F) -> TakeAnswer
        requires { StandsForSome self.old }
        ensures takes { (leg : Leg) (backs : ℕ) → WayStands leg backs self.old →
            None ≡ take_cause leg.config.ticks (counts_of self.old backs) →
            Takes leg backs self.old self.new result }
        ensures gives { (leg : Leg) (backs : ℕ) → WayStands leg backs self.old →
            None ≡ take_cause leg.config.ticks (counts_of self.old backs) →
            GivesRows F.stands_for out.old out.new leg self.old.sink.taken self.new.sink.taken }
        ensures rest { self.new ≡ record self.old {
          lines = self.new.lines;
          rows = self.new.rows;
          sink = self.new.sink;
          got = self.new.got;
        } }
        ensures windows { windows_in self.new.lines ≡ windows_in self.old.lines }
    {
        if let Some(line) = pop_lines(&mut self.lines, &mut self.rows) {
            return TakeAnswer::Waiting { line };
        }
        let (back, got) = take_counted_row(&mut self.sink, &mut self.rows, self.got, out);
        self.got = got;
        TakeAnswer::Taken { back }
    }

    /// Damages the containers of a line that are made from now on, until it is mended.
    pub fn cut(&mut self, line: u8)
        requires line { line < length self.old.lines }
        requires stands { StandsForSome self.old }
        requires few { length (slice_index_or (windows_in self.old.lines) line []) < 256 }
        requires after { last_end (slice_index_or (windows_in self.old.lines) line [])
            ≤ self.old.source.core.ticks }
        requires left { self.old.source.core.ticks < self.old.source.total }
        ensures stands { (leg : Leg) (backs : ℕ) → WayStands leg backs self.old →
            WayStands leg backs self.new }
        ensures counts { (backs : ℕ) → counts_of self.new backs ≡ counts_of self.old backs }
        ensures windows { windows_in self.new.lines ≡ slice_set (windows_in self.old.lines) line
            (opened_at (slice_index_or (windows_in self.old.lines) line [])
            self.old.source.core.ticks self.old.source.total) }
        ensures rest { self.new ≡ record self.old { lines = self.new.lines } }
    {
        let m = usize::from(line);
        let first = self.source.core().ticks();
        self.lines[m].cut(first);
    }

    /// Damages the containers of a line that are made from now on no longer.
    pub fn mend(&mut self, line: u8)
        requires line { line < length self.old.lines }
        requires stands { StandsForSome self.old }
        requires cut { CanClose (slice_index_or (windows_in self.old.lines) line [])
            self.old.source.core.ticks }
        ensures stands { (leg : Leg) (backs : ℕ) → WayStands leg backs self.old →
            WayStands leg backs self.new }
        ensures counts { (backs : ℕ) → counts_of self.new backs ≡ counts_of self.old backs }
        ensures windows { windows_in self.new.lines ≡ slice_set (windows_in self.old.lines) line
            (closed_at (slice_index_or (windows_in self.old.lines) line [])
            self.old.source.core.ticks) }
        ensures rest { self.new ≡ record self.old { lines = self.new.lines } }
    {
        let m = usize::from(line);
        let end = self.source.core().ticks();
        self.lines[m].mend(end);
    }

    /// A direction before any event, of what was opened for it.
    fn from_opened(opened: Opened) -> WayCore
        ensures stands { (leg : Leg) (config : Config) → IsNew config opened → IsAlike leg config →
            WayStands leg 0 result }
        ensures counts { (leg : Leg) (config : Config) → IsNew config opened → IsAlike leg config →
            counts_of result 0 ≡ begin (walk_plan leg) }
        ensures source { result.source ≡ opened.ends.source }
        ensures windows { (config : Config) → IsNew config opened →
            HasWindows config result.lines }
    {
        let Opened { paths, rows, ends } = opened;
        let Ends { source, sink } = ends;
        let Paths { sent, lines } = paths;
        WayCore {
            source,
            sent,
            lines,
            rows,
            sink,
            got: 0,
        }
    }
}

/// Has the packets of the next decision step pass on a return packet, where there is one.
fn pass_on(source: &mut CountedSource, told: Option<Packet>)
    ensures made { (scenario : Scenario) (cells : List (Option Told)) →
        HasMade source.old.core scenario cells →
        HasMade source.new.core
        (with_passed scenario (steps_in source.old.core.ticks) told) cells }
    ensures ticks { source.new.core.ticks ≡ source.old.core.ticks }
    ensures kind { SameKind source.new.core source.old.core }
    ensures rest { source.new ≡ record source.old { core = source.new.core } }
{
    if let Some(packet) = told {
        source.tell(packet);
    }
}
