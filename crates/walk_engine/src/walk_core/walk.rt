//! A walk of a script, event by event.

ghost use Rattle.std.specs.Prelude.{◌≡◌, ℕ, suc};
ghost use Rattle.std.specs.Prelude.{length, replicate, None, IfOk};
ghost use Rattle.law_model.specs.declared.walk_events.Event.TheVariants.{Tick};
ghost use Rattle.law_model.specs.Common.{IsValid, begin, run, round, drain, bound, leg_of};
ghost use Rattle.law_progress.specs.Progress.{HasLine};
ghost use Rattle.law_walk.specs.Common.{totals_of, walk_plan, IsWalked};
ghost use Rattle.walk_engine.specs.walk_core.WalkAfterEvent.{answer_by, counts_after, moved_of, GivesRows};
ghost use Rattle.terminal_group.specs.Item.{bare_items};
ghost use Rattle.terminal_group.specs.Landed.{none_landed};
ghost use Rattle.walk_engine.specs.walk_core.Landing.{landing_of, early_cause};
ghost use Rattle.walk_engine.specs.walk_core.LiveWalking.{LiveStands, walking_counts};
ghost use Rattle.walk_engine.specs.walk_core.WayParts.{windows_in, AgreesAt, HasLanded};

use crate::walk_core::live_walk::LiveWalk;
use crate::walk_core::step_answers::Moved;
use law_model::{Event, FrameOut, FrameRoom, Refusal, Script, StallCause, Totals};
use std::alloc::{AllocError, Global};
use std::marker::Model;
use terminal_group::{Landing, lent_item};

/// A walk of a script.
pub struct Walk {
    script: Script,
    /// Which of its items have landed.
    landing: Landing,
    live: LiveWalk,
    /// A frame that is drawn is lent from here.
    room: FrameRoom,
}

/// A call of its own, so that a function which drops one doesn't go through its parts.
impl Drop for Walk {
    fn drop(self) {
        let Walk {
            script: _,
            landing: _,
            live: _,
            room: _,
        } = self;
    }
}

impl Model for Walk {
    ghost use Rattle.law_model.specs.Common.{leg_of, IsValid};
    ghost use Rattle.walk_engine.specs.walk_core.WalkAfterEvent.{Walked};
    ghost use Rattle.walk_engine.specs.walk_core.LiveWalking.{IsWalk, walking_counts};

    ghost Value = { Walked };

    ghost view = { λ w. record {
      script = w.script;
      counts = walking_counts w.live;
    } };

    ghost invariant = { λ w. IsValid w.script × IsWalk (leg_of w.script) w.live w.landing };
}

impl Walk {
    /// Makes room for a walk of a script, before any event: for its rings, its inbox, a frame that is drawn, and
    /// a refusal of each item.
    pub fn new(alloc: Global, script: Script) -> Result<Walk, AllocError>
        requires { IsValid script }
        ensures script { IfOk result (λ walk. walk.script ≡ script) }
        ensures counts { IfOk result (λ walk. walk.counts ≡ begin (walk_plan (leg_of script))) }
    {
        let landing = Landing::of(alloc, &script)?;
        let live = LiveWalk::new(alloc, &script.config)?;
        let room = FrameRoom::new(alloc)?;
        Ok(Walk::begun(script, landing, live, room))
    }

    /// Makes an event. One that stalls changes nothing, but that a Take which waits keeps the cells that it
    /// popped. Frames that a taken row delivers are given to `out`.
    pub fn step<F: FrameOut>(&mut self, event: Event, out: &mut F) -> Moved
        requires { HasLine (walk_plan (leg_of self.old.script)) event }
        ensures script { self.new.script ≡ self.old.script }
        ensures counts { self.new.counts
            ≡ counts_after (leg_of self.old.script) self.old.counts event }
        ensures moved { result ≡ moved_of (leg_of self.old.script) self.old.counts event }
        ensures gives { GivesRows F.stands_for out.old out.new (leg_of self.old.script)
            self.old.counts.rows self.new.counts.rows }
    {
        match event {
            Event::Accept => self.land(true),
            Event::Command => self.land(false),
            Event::Tick => self.tick(),
            Event::Carry(line) => self.live.carry(line),
            Event::Back => self.live.back(),
            Event::Take => self.live.take(out),
        }
    }

    /// Lands frames and then commands until each kind stalls, and tries each other event once, in the order
    /// of the lines.
    pub fn round<F: FrameOut>(&mut self, out: &mut F)
        ensures script { self.new.script ≡ self.old.script }
        ensures counts { self.new.counts ≡ run (walk_plan (leg_of self.old.script)) self.old.counts
            (round (walk_plan (leg_of self.old.script))) }
        ensures gives { GivesRows F.stands_for out.old out.new (leg_of self.old.script)
            self.old.counts.rows self.new.counts.rows }
    {
        self.land_all(true);
        self.land_all(false);
        let _ = self.tick();
        self.live.finish_round(out);
    }

    /// Makes rounds until all rows are taken.
    pub fn drain<F: FrameOut>(&mut self, out: &mut F)
        ensures script { self.new.script ≡ self.old.script }
        ensures counts { self.new.counts ≡ drain (bound (walk_plan (leg_of self.old.script)))
            (walk_plan (leg_of self.old.script)) self.old.counts }
        ensures all { self.new.counts.rows ≡ self.old.script.config.ticks }
        ensures gives { GivesRows F.stands_for out.old out.new (leg_of self.old.script)
            self.old.counts.rows self.old.script.config.ticks }
    {
        while self.live.way().sink().taken() < self.script.config.ticks {
            self.round(out);
        }
    }

    /// What came of the walk so far, in numbers.
    pub fn totals(&self) -> Totals
        ensures { result ≡ totals_of (leg_of self.now.script) self.now.counts }
    {
        self.live.totals()
    }

    /// The script. It can be walked, and the counts of the walk are those of some list of its events.
    pub fn script(&self) -> &Script
        ensures script { result.now ≡ self.now.script }
        ensures valid { IsValid self.now.script }
        ensures walked { IsWalked (leg_of self.now.script) self.now.counts }
    {
        &self.script
    }

    /// Which of its items have landed, and which of them were refused.
    pub fn landing(&self) -> &Landing
        ensures { HasLanded (leg_of self.now.script) self.now.counts result.now }
    {
        &self.landing
    }

    /// The walk without its script. It stands for the script's leg.
    pub fn live(&self) -> &LiveWalk
        ensures stands { LiveStands (leg_of self.now.script) result.now }
        ensures counts { walking_counts result.now ≡ self.now.counts }
    {
        &self.live
    }

    /// A walk of a script before any event.
    fn begun(script: Script, landing: Landing, live: LiveWalk, room: FrameRoom) -> Walk
        requires script { IsValid script }
        requires landing { landing ≡ none_landed script.config.lines (bare_items script.items) }
        requires stands { LiveStands (leg_of script) live }
        requires known { (t : ℕ) → AgreesAt (leg_of script) t (windows_in live.way.lines) }
        requires counts { walking_counts live ≡ begin (walk_plan (leg_of script)) }
        ensures script { result.script ≡ script }
        ensures counts { result.counts ≡ begin (walk_plan (leg_of script)) }
    {
        Walk {
            script,
            landing,
            live,
            room,
        }
    }

    /// Lands frames, or commands, until one stalls.
    fn land_all(&mut self, client: bool)
        ensures script { self.new.script ≡ self.old.script }
        ensures counts { self.new.counts ≡ run (walk_plan (leg_of self.old.script)) self.old.counts
            (replicate (suc (length (walk_plan (leg_of self.old.script)).items)) (landing_of client)) }
        ensures rows { self.new.counts.rows ≡ self.old.counts.rows }
    {
        loop {
            if let Moved::Stalled(_) = self.land(client) {
                return;
            }
        }
    }

    /// Lands the next frame, or the next command, where there is one and it is due.
    fn land(&mut self, client: bool) -> Moved
        ensures script { self.new.script ≡ self.old.script }
        ensures counts { self.new.counts
            ≡ counts_after (leg_of self.old.script) self.old.counts (landing_of client) }
        ensures moved { result
            ≡ moved_of (leg_of self.old.script) self.old.counts (landing_of client) }
    {
        let Some(number) = self.landing.next(client) else {
            return Moved::Stalled(StallCause::Done);
        };
        let due = self.landing.due(client, number);
        if self.live.ticks() < due {
            return Moved::Stalled(StallCause::NotDue { due });
        }
        let lent = self.script.items.lend(number, &mut self.room);
        let why = self.live.say(lent_item(lent, &self.room));
        self.landing.land(client, number, why);
        landed(why)
    }

    /// Makes the next frame.
    fn tick(&mut self) -> Moved
        ensures script { self.new.script ≡ self.old.script }
        ensures counts { self.new.counts
            ≡ counts_after (leg_of self.old.script) self.old.counts Tick }
        ensures moved { result ≡ moved_of (leg_of self.old.script) self.old.counts Tick }
    {
        match self.early_stall() {
            Some(cause) => Moved::Stalled(cause),
            None => self.live.tick(),
        }
    }

    /// Why no frame is made, before the send rings are looked at: all are made, or an item is due now and hasn't
    /// landed.
    fn early_stall(&self) -> Option<StallCause>
        ensures { result ≡ early_cause (walk_plan (leg_of self.now.script)) self.now.counts }
    {
        let ticks = self.live.ticks();
        if ticks >= self.script.config.ticks {
            return Some(StallCause::Done);
        }
        match self.landing.held(ticks) {
            Some(item) => Some(StallCause::Held { item }),
            None => None,
        }
    }
}

/// What an item answers that lands, and is refused or not.
fn landed(why: Option<Refusal>) -> Moved
    ensures { result ≡ answer_by None why }
{
    match why {
        None => Moved::Yes,
        Some(why) => Moved::Refused(why),
    }
}
