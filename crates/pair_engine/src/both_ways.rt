//! A pair of sessions, event by event.

ghost use Rattle.std.specs.Prelude.{◌≡◌, ◌<◌, suc, [], ◌∷◌, length, replicate, IfOk};
ghost use Rattle.law_walk.specs.Common.{refusals_of, totals_of};
ghost use Rattle.law_pair.specs.Common.{IsPair, carries_on, counts_on, is_over, plan_on, pair_begin, pair_round};
ghost use Rattle.law_pair.specs.Common.{pair_run, HasWayLine, pair_plan, pair_drained, IsPairWalked};
ghost use Rattle.law_pair.specs.declared.pair_events.Way.TheVariants.{There as THERE, Back as BACK};
ghost use Rattle.law_pair.specs.declared.pair_events.PairEvent.TheVariants.{Item, Tick, Carry, Take};
ghost use Rattle.pair_engine.specs.PairAfterEvent.{after, leg_on, moved_of, plan_of, script_on, with_counts, GivesWay};
ghost use Rattle.pair_engine.specs.PairAfterEvent.{SameRows, MoreRows};
ghost use Rattle.pair_engine.specs.Ways.{IsNewWay};

use crate::pair_answers::{PairMoved, moved_on};
use crate::pair_way::PairWay;
use crate::ways_meet::{take_way_row, tick_both, tick_stall};
use law_model::{FrameOut, Script, Totals};
use law_pair::{PairEvent, Way};
use std::alloc::{AllocError, Global};
use std::marker::Model;
use terminal_group::Refusals;

/// Two sessions, one each way, that tick together.
pub struct Pair {
    there: PairWay,
    back: PairWay,
}

/// A call of its own, so that a function which drops one doesn't go through its parts.
impl Drop for Pair {
    fn drop(self) {
        let Pair { there: _, back: _ } = self;
    }
}

impl Model for Pair {
    ghost use Rattle.pair_engine.specs.PairAfterEvent.{Paired};
    ghost use Rattle.pair_engine.specs.Ways.{pair_counts, IsPairWalk};

    ghost Value = { Paired };

    ghost view = { λ p. record {
      there = p.there.script;
      back = p.back.script;
      counts = pair_counts p.there p.back;
    } };

    ghost invariant = { λ p. IsPairWalk p.there p.back };
}

impl Pair {
    /// Makes room for two scripts, before any event. No later call takes memory.
    pub fn new(alloc: Global, there: Script, back: Script) -> Result<Pair, AllocError>
        requires { IsPair there back }
        ensures there { IfOk result (λ pair. pair.there ≡ there) }
        ensures back { IfOk result (λ pair. pair.back ≡ back) }
        ensures counts { IfOk result (λ pair. pair.counts ≡ pair_begin (pair_plan there back)) }
    {
        let there = PairWay::open(alloc, there)?;
        let back = PairWay::open(alloc, back)?;
        Ok(Pair::begun(there, back))
    }

    /// Makes an event. One that stalls changes nothing, but that a Take which waits keeps the cells that it
    /// popped. Frames that a taken row delivers are given to the place of its way.
    pub fn step<F: FrameOut, G: FrameOut>(
        &mut self,
        event: PairEvent,
        there: &mut F,
        back: &mut G,
    ) -> PairMoved
        requires { HasWayLine (plan_of self.old) event }
        ensures pair { self.new ≡ after self.old event }
        ensures moved { result ≡ moved_of self.old event }
        ensures gives_there { GivesWay F.stands_for there.old there.new self.old self.new THERE }
        ensures gives_back { GivesWay G.stands_for back.old back.new self.old self.new BACK }
    {
        match event {
            PairEvent::Item(way) => self.land(way),
            PairEvent::Tick => self.tick(),
            PairEvent::Carry(way, line) => self.carry(way, line),
            PairEvent::Take(way) => self.take(way, there, back),
        }
    }

    /// Whether all rows of both ways are taken. Both scripts can go together, and the counts are those of some
    /// list of a pair's events.
    pub fn is_over(&self) -> bool
        ensures over { result ≡ is_over (plan_of self.now) self.now.counts }
        ensures fits { IsPair self.now.there self.now.back }
        ensures walked { IsPairWalked self.now.there self.now.back self.now.counts }
    {
        self.there.live.core.sink().taken() >= self.there.script.config.ticks
            && self.back.live.core.sink().taken() >= self.back.script.config.ticks
    }

    /// Makes a round but for its rows: lands items of each way until one stalls, and tries a tick and a carry
    /// of each line, the way there first.
    pub fn prepare(&mut self)
        ensures scripts { self.new ≡ with_counts self.old self.new.counts }
        ensures counts { pair_run (plan_of self.old) self.new.counts
            (Take THERE ∷ Take BACK ∷ [])
            ≡ pair_run (plan_of self.old) self.old.counts (pair_round (plan_of self.old)) }
        ensures rows { SameRows self.old self.new }
    {
        self.land_all(Way::There);
        self.land_all(Way::Back);
        let _ = self.tick();
        self.carry_all(Way::There);
        self.carry_all(Way::Back);
    }

    /// Makes a round: what `prepare` makes, and then tries a row of each way, the way there first.
    pub fn round<F: FrameOut, G: FrameOut>(&mut self, there: &mut F, back: &mut G)
        ensures pair { self.new ≡ with_counts self.old
            (pair_run (plan_of self.old) self.old.counts (pair_round (plan_of self.old))) }
        ensures rises { MoreRows self.old self.new }
        ensures gives_there { GivesWay F.stands_for there.old there.new self.old self.new THERE }
        ensures gives_back { GivesWay G.stands_for back.old back.new self.old self.new BACK }
    {
        self.prepare();
        let _ = self.take(Way::There, there, back);
        let _ = self.take(Way::Back, there, back);
    }

    /// Makes rounds until all rows of both ways are taken.
    pub fn drain<F: FrameOut, G: FrameOut>(&mut self, there: &mut F, back: &mut G)
        ensures pair { self.new ≡ with_counts self.old
            (pair_drained self.old.there self.old.back self.old.counts) }
        ensures there { self.new.counts.there.rows ≡ self.old.there.config.ticks }
        ensures back { self.new.counts.back.rows ≡ self.old.back.config.ticks }
        ensures gives_there { GivesWay F.stands_for there.old there.new self.old self.new THERE }
        ensures gives_back { GivesWay G.stands_for back.old back.new self.old self.new BACK }
    {
        while !self.is_over() {
            self.round(there, back);
        }
    }

    /// What came of a way so far, in numbers.
    pub fn totals(&self, way: Way) -> Totals
        ensures { result ≡ totals_of (leg_on self.now way) (counts_on self.now.counts way) }
    {
        match way {
            Way::There => self.there.live.core.totals(),
            Way::Back => self.back.live.core.totals(),
        }
    }

    /// The items of a way that were refused, in the order of its script.
    pub fn refusals(&self, way: Way) -> Refusals<'_>
        ensures { result ≡ refusals_of (leg_on self.now way) (counts_on self.now.counts way) }
    {
        match way {
            Way::There => self.there.landing.refusals(),
            Way::Back => self.back.landing.refusals(),
        }
    }

    /// The script of a way. Both can go together, and the counts are those of some list of a pair's events.
    pub fn script(&self, way: Way) -> &Script
        ensures script { result.now ≡ script_on self.now way }
        ensures pair { IsPair self.now.there self.now.back }
        ensures walked { IsPairWalked self.now.there self.now.back self.now.counts }
    {
        match way {
            Way::There => &self.there.script,
            Way::Back => &self.back.script,
        }
    }

    /// A pair before any event.
    fn begun(there: PairWay, back: PairWay) -> Pair
        requires pair { IsPair there.script back.script }
        requires there { IsNewWay there.script there }
        requires back { IsNewWay back.script back }
        ensures there { result.there ≡ there.script }
        ensures back { result.back ≡ back.script }
        ensures counts { result.counts ≡ pair_begin (pair_plan there.script back.script) }
    {
        Pair { there, back }
    }

    /// Lands items of a way until one stalls.
    fn land_all(&mut self, way: Way)
        ensures pair { self.new ≡ with_counts self.old
            (pair_run (plan_of self.old) self.old.counts
            (replicate (suc (length (plan_on (plan_of self.old) way).items)) (Item way))) }
        ensures rows { SameRows self.old self.new }
    {
        loop {
            if let PairMoved::Stalled(_, _) = self.land(way) {
                return;
            }
        }
    }

    /// Tries one carry of each line of a way.
    fn carry_all(&mut self, way: Way)
        ensures pair { self.new ≡ with_counts self.old (pair_run (plan_of self.old) self.old.counts
            (carries_on way 0 (plan_on (plan_of self.old) way).paths)) }
        ensures rows { SameRows self.old self.new }
    {
        for line in 0..self.lines(way) {
            let _ = self.carry(way, line);
        }
    }

    /// How many lines a way has.
    fn lines(&self, way: Way) -> u8
        ensures lines { result ≡ (script_on self.now way).config.lines }
        ensures paths { result ≡ length (plan_on (plan_of self.now) way).paths }
    {
        match way {
            Way::There => self.there.script.config.lines,
            Way::Back => self.back.script.config.lines,
        }
    }

    /// Lands the next item of a way.
    fn land(&mut self, way: Way) -> PairMoved
        ensures pair { self.new ≡ after self.old (Item way) }
        ensures moved { result ≡ moved_of self.old (Item way) }
        ensures rows { SameRows self.old self.new }
        ensures fits { IsPair self.new.there self.new.back }
        ensures walked { IsPairWalked self.new.there self.new.back self.new.counts }
    {
        match way {
            Way::There => moved_on(way, self.there.land()),
            Way::Back => moved_on(way, self.back.land()),
        }
    }

    /// Makes the next frame of both ways.
    fn tick(&mut self) -> PairMoved
        ensures pair { self.new ≡ after self.old Tick }
        ensures moved { result ≡ moved_of self.old Tick }
        ensures rows { SameRows self.old self.new }
    {
        match tick_stall(&self.there, &self.back) {
            Some((way, cause)) => PairMoved::Stalled(way, cause),
            None => {
                tick_both(&mut self.there.live, &mut self.back.live);
                PairMoved::Yes
            }
        }
    }

    /// Makes a carry of a line of a way.
    fn carry(&mut self, way: Way, line: u8) -> PairMoved
        requires { line < length (plan_on (plan_of self.old) way).paths }
        ensures pair { self.new ≡ after self.old (Carry way line) }
        ensures moved { result ≡ moved_of self.old (Carry way line) }
        ensures rows { SameRows self.old self.new }
    {
        match way {
            Way::There => moved_on(way, self.there.carry(line)),
            Way::Back => moved_on(way, self.back.carry(line)),
        }
    }

    /// Takes the next row of a way.
    fn take<F: FrameOut, G: FrameOut>(&mut self, way: Way, there: &mut F, back: &mut G) -> PairMoved
        ensures pair { self.new ≡ after self.old (Take way) }
        ensures moved { result ≡ moved_of self.old (Take way) }
        ensures gives_there { GivesWay F.stands_for there.old there.new self.old self.new THERE }
        ensures gives_back { GivesWay G.stands_for back.old back.new self.old self.new BACK }
    {
        match way {
            Way::There => moved_on(
                way,
                take_way_row(&mut self.there.live, &mut self.back.live, there),
            ),
            Way::Back => moved_on(
                way,
                take_way_row(&mut self.back.live, &mut self.there.live, back),
            ),
        }
    }
}
