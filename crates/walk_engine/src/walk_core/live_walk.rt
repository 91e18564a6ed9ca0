//! A walk of which nobody says beforehand what will land, or which lines will be cut.

ghost use Rattle.std.specs.Prelude.{[], slice_index_or, slice_set};
ghost use Rattle.std.specs.Prelude.{◌≡◌, ◌/◌, ◌%◌, ◌==◌, ◌<◌, ◌≤◌, if◌then◌else◌, length, Some, None, IfOk};
ghost use Rattle.law_model.specs.Common.{IsNetwork, Leg, begin, step};
ghost use Rattle.law_model.specs.declared.walk_events.Event.TheVariants.{Tick, Carry, Back, Take};
ghost use Rattle.law_walk.specs.Common.{is_client, last_packet, totals_of, walk_plan};
ghost use Rattle.member_path.specs.failure_window.OpenWindows.{CanClose, closed_at, last_end, opened_at};
ghost use Rattle.terminal_group.specs.Item.{kind_of};
ghost use Rattle.terminal_group.specs.SourceByCounts.{missing_from};
ghost use Rattle.walk_engine.specs.walk_core.Landing.{landing_of};
ghost use Rattle.walk_engine.specs.walk_core.LiveWalking.{AgreesNow, IsLegOver, IsLive, IsReady, LiveMakes};
ghost use Rattle.walk_engine.specs.walk_core.LiveWalking.{LiveFinishes};
ghost use Rattle.walk_engine.specs.walk_core.LiveWalking.{LiveRounds, LiveStands, walking_counts};
ghost use Rattle.walk_engine.specs.walk_core.WalkAfterEvent.{answer_by, refusal_in_event, GivesRows};
ghost use Rattle.walk_engine.specs.walk_core.OpenedWay.{HasWindows};
ghost use Rattle.walk_engine.specs.walk_core.WayParts.{WayStands, counts_of, note_of, windows_in};
ghost use Rattle.walk_engine.specs.walk_core.Take.{take_cause};
ghost use Rattle.walk_engine.specs.walk_core.EventAnswers.{IsDue, IsNoneHeld};

use crate::walk_core::one_way::WayCore;
use crate::walk_core::step_answers::{Moved, StepNote};
use crate::walk_parts::ReturnRing;
use law_model::{Config, FrameOut, Refusal, StallCause, Totals};
use member_cells::BackCell;
use std::alloc::{AllocError, Global};
use std::marker::Model;
use terminal_group::ItemRef;
use terminal_sink::sink_core::{TakeAnswer, ends_packet};

/// A walk that is told what lands as it lands, and which lines are cut and mended. What its calls do is said of
/// each leg for which it stands: of each session that went so far as this one did, whatever lands in it later and
/// whichever lines are damaged then. Only its making takes memory.
pub struct LiveWalk {
    way: WayCore,
    /// The return packets that were said and haven't come.
    ring: ReturnRing,
    /// The last decision step.
    last: Option<StepNote>,
}

/// A call of its own, so that a function which drops one doesn't go through its parts.
impl Drop for LiveWalk {
    fn drop(self) {
        let LiveWalk {
            way: _,
            ring: _,
            last: _,
        } = self;
    }
}

impl Model for LiveWalk {
    ghost use Rattle.walk_engine.specs.walk_core.LiveWalking.{Walking};

    ghost Value = { Walking };

    ghost view = { λ w. record { way = w.way; ring = w.ring; last = w.last } };
}

impl LiveWalk {
    /// Makes room for a walk over a network, before anything has landed. It stands for each leg over it, whatever
    /// windows that has: those of the lines are the network's.
    pub fn new(alloc: Global, config: &Config) -> Result<LiveWalk, AllocError>
        requires { IsNetwork config.now }
        ensures stands { IfOk result (λ live. (leg : Leg) → IsLegOver config.now leg →
            LiveStands leg live) }
        ensures counts { IfOk result (λ live. (leg : Leg) → IsLegOver config.now leg →
            walking_counts live ≡ begin (walk_plan leg)) }
        ensures windows { IfOk result (λ live. HasWindows config.now live.way.lines) }
    {
        let ring = ReturnRing::new(alloc)?;
        let way = WayCore::new(alloc, config)?;
        Ok(LiveWalk {
            way,
            ring,
            last: None,
        })
    }

    /// Lands an item now. Answers why it is refused, where it is.
    pub fn say(&mut self, item: ItemRef) -> Option<Refusal>
        ensures makes { (leg : Leg) → LiveStands leg self.old →
            IsDue leg (walking_counts self.old) (kind_of item.entry) →
            LiveMakes leg (landing_of (is_client (kind_of item.entry)))
            self.old self.new (answer_by None result) }
        ensures refusal { (leg : Leg) → LiveStands leg self.old →
            IsDue leg (walking_counts self.old) (kind_of item.entry) →
            result ≡ refusal_in_event leg (walking_counts self.old)
            (landing_of (is_client (kind_of item.entry))) }
        ensures windows { windows_in self.new.way.lines ≡ windows_in self.old.way.lines }
    {
        self.way.land(item)
    }

    /// Tries a tick, a carry of each line, a return packet and a row, each once, where nothing that is due has to
    /// land first. Frames that the row delivers are given to `out`. It asks of a leg that its windows say of the
    /// containers that are made now what the lines' own windows do.
    pub fn round<F: FrameOut>(&mut self, out: &mut F)
        requires ready { IsReady self.old }
        requires left { self.old.way.source.core.ticks < self.old.way.source.total }
        ensures rounds { (leg : Leg) → LiveStands leg self.old →
            IsNoneHeld leg (walking_counts self.old) → AgreesNow leg self.old →
            LiveRounds leg self.old self.new }
        ensures gives { (leg : Leg) → LiveStands leg self.old →
            IsNoneHeld leg (walking_counts self.old) → AgreesNow leg self.old →
            GivesRows F.stands_for out.old out.new leg
            (walking_counts self.old).rows (walking_counts self.new).rows }
        ensures windows { windows_in self.new.way.lines ≡ windows_in self.old.way.lines }
    {
        let _ = self.tick();
        self.finish_round(out);
    }

    /// Damages the containers of a line that are made from now on, until it is mended. It stands for the same
    /// legs, and the next round goes on with those of which the windows say so.
    pub fn cut(&mut self, line: u8)
        requires line { line < length self.old.way.lines }
        requires live { IsLive self.old }
        requires few { length (slice_index_or (windows_in self.old.way.lines) line []) < 256 }
        requires after { last_end (slice_index_or (windows_in self.old.way.lines) line [])
            ≤ (walking_counts self.old).ticks }
        requires left { (walking_counts self.old).ticks < self.old.way.source.total }
        ensures stands { (leg : Leg) → LiveStands leg self.old → LiveStands leg self.new }
        ensures counts { walking_counts self.new ≡ walking_counts self.old }
        ensures windows { windows_in self.new.way.lines
            ≡ slice_set (windows_in self.old.way.lines) line
            (opened_at (slice_index_or (windows_in self.old.way.lines) line [])
            (walking_counts self.old).ticks self.old.way.source.total) }
    {
        self.way.cut(line);
    }

    /// Damages the containers of a line that are made from now on no longer.
    pub fn mend(&mut self, line: u8)
        requires line { line < length self.old.way.lines }
        requires live { IsLive self.old }
        requires cut { CanClose (slice_index_or (windows_in self.old.way.lines) line [])
            (walking_counts self.old).ticks }
        ensures stands { (leg : Leg) → LiveStands leg self.old → LiveStands leg self.new }
        ensures counts { walking_counts self.new ≡ walking_counts self.old }
        ensures windows { windows_in self.new.way.lines
            ≡ slice_set (windows_in self.old.way.lines) line
            (closed_at (slice_index_or (windows_in self.old.way.lines) line [])
            (walking_counts self.old).ticks) }
    {
        self.way.mend(line);
    }

    /// How many ticks were made.
    pub fn ticks(&self) -> u32
        ensures { result ≡ (walking_counts self.now).ticks }
    {
        self.way.source().core().ticks()
    }

    /// What came of the walk so far, in numbers.
    pub fn totals(&self) -> Totals
        ensures { (leg : Leg) → LiveStands leg self.now →
            result ≡ totals_of leg (walking_counts self.now) }
    {
        self.way.totals()
    }

    /// The last decision step, where one was made.
    pub fn last_step(&self) -> Option<StepNote>
        ensures last { result ≡ self.now.last }
        ensures step { (leg : Leg) → LiveStands leg self.now →
            result ≡ note_of leg (last_packet (walking_counts self.now).ticks) }
    {
        self.last
    }

    /// Its direction. It stands for the same legs.
    pub fn way(&self) -> &WayCore
        ensures way { result.now ≡ self.now.way }
        ensures stands { (leg : Leg) → LiveStands leg self.now →
            WayStands leg (walking_counts self.now).backs result.now }
        ensures counts { counts_of result.now (walking_counts self.now).backs
            ≡ walking_counts self.now }
    {
        &self.way
    }

    /// Tries a tick alone: makes the next frame, where no send ring is full and no return cell is missing. With
    /// `finish_round` behind it, it is a round.
    pub fn tick(&mut self) -> Moved
        requires stands { IsLive self.old }
        requires left { self.old.way.source.core.ticks < self.old.way.source.total }
        ensures makes { (leg : Leg) → LiveStands leg self.old →
            IsNoneHeld leg (walking_counts self.old) → AgreesNow leg self.old →
            LiveMakes leg Tick self.old self.new result }
        ensures landed { self.new.way.source.landed ≡ self.old.way.source.landed }
        ensures windows { windows_in self.new.way.lines ≡ windows_in self.old.way.lines }
    {
        if let Some(cause) = self.tick_stall() {
            return Moved::Stalled(cause);
        }
        let ticks = self.way.source().core().ticks();
        let back = self.way.make(None);
        self.last = next_note(ticks, back, self.last);
        Moved::Yes
    }

    /// Makes a carry of a line.
    pub(super) fn carry(&mut self, line: u8) -> Moved
        requires line { line < length self.old.way.lines }
        requires stands { IsLive self.old }
        ensures makes { (leg : Leg) → LiveStands leg self.old →
            LiveMakes leg (Carry line) self.old self.new result }
        ensures landed { self.new.way.source.landed ≡ self.old.way.source.landed }
        ensures windows { windows_in self.new.way.lines ≡ windows_in self.old.way.lines }
    {
        carried(self.way.carry(line))
    }

    /// Moves a return packet to the source.
    pub(super) fn back(&mut self) -> Moved
        requires { IsLive self.old }
        ensures makes { (leg : Leg) → LiveStands leg self.old →
            LiveMakes leg Back self.old self.new result }
        ensures landed { self.new.way.source.landed ≡ self.old.way.source.landed }
        ensures windows { windows_in self.new.way.lines ≡ windows_in self.old.way.lines }
    {
        match self.ring.pop() {
            Some(cell) => {
                self.way.put(cell);
                Moved::Yes
            }
            None => Moved::Stalled(StallCause::BackEmpty),
        }
    }

    /// Takes the next row, where the lines decide it. Frames that it delivers are given to `out`.
    pub(super) fn take<F: FrameOut>(&mut self, out: &mut F) -> Moved
        requires { IsLive self.old }
        ensures makes { (leg : Leg) → LiveStands leg self.old →
            LiveMakes leg Take self.old self.new result }
        ensures landed { self.new.way.source.landed ≡ self.old.way.source.landed }
        ensures windows { windows_in self.new.way.lines ≡ windows_in self.old.way.lines }
        ensures gives { (leg : Leg) → LiveStands leg self.old →
            GivesRows F.stands_for out.old out.new leg
            (walking_counts self.old).rows (walking_counts self.new).rows }
    {
        match self.take_stall() {
            Some(cause) => Moved::Stalled(cause),
            None => self.take_next(out),
        }
    }

    /// Tries a carry of each line, a return packet and a row, each once. Frames that the row delivers are given
    /// to `out`; by then no more ticks are made than before.
    pub fn finish_round<F: FrameOut>(&mut self, out: &mut F)
        requires { IsLive self.old }
        ensures finishes { (leg : Leg) → LiveStands leg self.old →
            LiveFinishes leg self.old self.new }
        ensures landed { self.new.way.source.landed ≡ self.old.way.source.landed }
        ensures windows { windows_in self.new.way.lines ≡ windows_in self.old.way.lines }
        ensures gives { (leg : Leg) → LiveStands leg self.old →
            GivesRows F.stands_for out.old out.new leg
            (walking_counts self.old).rows (walking_counts self.new).rows }
    {
        for line in 0..self.way.lines() {
            let _ = self.carry(line);
        }
        let _ = self.back();
        let _ = self.take(out);
    }

    /// Why no frame is made, where ticks are left and nothing is held.
    fn tick_stall(&self) -> Option<StallCause>
        requires stands { IsLive self.now }
        requires left { self.now.way.source.core.ticks < self.now.way.source.total }
        ensures cause { (leg : Leg) → LiveStands leg self.now →
            IsNoneHeld leg (walking_counts self.now) →
            result ≡ (step (walk_plan leg) (walking_counts self.now) Tick).cause }
        ensures cell { result ≡ None → missing_from self.now.way.source ≡ None }
    {
        if let Some(line) = self.way.first_full() {
            return Some(StallCause::TxFull { line });
        }
        match self.way.source().missing() {
            Some(packet) => Some(StallCause::BackMissing { packet }),
            None => None,
        }
    }

    /// Pops the cells of the next row, and takes it where the lines decide it.
    fn take_next<F: FrameOut>(&mut self, out: &mut F) -> Moved
        requires stands { IsLive self.old }
        requires free { take_cause self.old.way.source.total (walking_counts self.old) ≡ None }
        ensures makes { (leg : Leg) → LiveStands leg self.old →
            LiveMakes leg Take self.old self.new result }
        ensures landed { self.new.way.source.landed ≡ self.old.way.source.landed }
        ensures windows { windows_in self.new.way.lines ≡ windows_in self.old.way.lines }
        ensures gives { (leg : Leg) → LiveStands leg self.old →
            GivesRows F.stands_for out.old out.new leg
            (walking_counts self.old).rows (walking_counts self.new).rows }
    {
        match self.way.take(out) {
            TakeAnswer::Waiting { line } => Moved::Stalled(StallCause::Waiting { line }),
            TakeAnswer::Taken { back } => {
                self.ring.say(back);
                Moved::Yes
            }
        }
    }

    /// Why no row is taken and no cell popped.
    fn take_stall(&self) -> Option<StallCause>
        requires { IsLive self.now }
        ensures { result ≡ take_cause self.now.way.source.total (walking_counts self.now) }
    {
        let row = self.way.sink().taken();
        if row >= self.way.source().total_ticks() {
            Some(StallCause::Done)
        } else if ends_packet(row) && self.ring.is_full() {
            Some(StallCause::BackFull)
        } else {
            None
        }
    }
}

/// What a carry answers, which stalls for a cause or not.
fn carried(cause: Option<StallCause>) -> Moved
    ensures { result ≡ answer_by cause None }
{
    match cause {
        Some(cause) => Moved::Stalled(cause),
        None => Moved::Yes,
    }
}

/// The note of the last decision step after a tick.
fn next_note(ticks: u32, back: Option<BackCell>, last: Option<StepNote>) -> Option<StepNote>
    ensures { result ≡ (if ticks % 16 == 8
        then Some (record { packet = ticks / 16; back = back }) else last) }
{
    if ticks % 16 == 8 {
        Some(StepNote {
            packet: ticks / 16,
            back,
        })
    } else {
        last
    }
}
