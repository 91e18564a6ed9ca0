//! A pair of which nobody says beforehand what will land, or which lines will be cut.

ghost use Rattle.std.specs.Prelude.{◌≡◌, ◌<◌, ◌≤◌, [], length, slice_index_or, slice_set, Some, None, IfOk};
ghost use Rattle.law_model.specs.Common.{steps_in};
ghost use Rattle.law_model.specs.declared.script_types.Script.{Script};
ghost use Rattle.law_pair.specs.Common.{carries_on, counts_on, pair_begin, pair_plan, pair_run, pair_step, plan_on};
ghost use Rattle.law_pair.specs.declared.pair_events.PairEvent.TheVariants.{Item, Carry, Take};
ghost use Rattle.law_live.specs.Common.{leg_on, IsPairNetwork};
ghost use Rattle.law_walk.specs.Common.{is_client, last_packet, table_in, totals_of};
ghost use Rattle.member_path.specs.failure_window.OpenWindows.{CanClose, closed_at, last_end, opened_at};
ghost use Rattle.terminal_group.specs.Item.{kind_of};
ghost use Rattle.walk_engine.specs.Common.{GivesRows, HasWindows, landing_of, note_of, refusal_in_event};
ghost use Rattle.walk_engine.specs.Common.{waiting_in};
ghost use Rattle.pair_engine.specs.LivePairs.{CanTurn, GoesOn, IsLivePair, IsPairOver, IsShownAs};
ghost use Rattle.pair_engine.specs.LivePairs.{LandsNext};
ghost use Rattle.pair_engine.specs.LivePairs.{PairLives, SameWindows, TicksBoth, walking_counts, walking_on};
ghost use Rattle.pair_engine.specs.LivePairs.{way_beside, windows_of_way};
ghost use Rattle.pair_engine.specs.WayCalls.{KeepsRows};

use crate::live_way::LiveWay;
use crate::ways_meet::{live_stall, take_way_row, tick_both};
use law_model::{Config, FrameOut, Refusal, Totals};
use law_pair::Way;
use std::alloc::{AllocError, Global};
use std::marker::Model;
use terminal_group::ItemRef;
use terminal_source::lcas_source::SourceTable;
use walk_engine::walk_core::StepNote;

/// Two sessions, one each way, that tick together, and are told what lands as it lands and which lines are cut and
/// mended. What its calls do is said of each pair of scripts for which it stands: of each that went so far as this
/// one did, whatever lands in them later and whichever lines are damaged then. Only its making takes memory.
pub struct LivePair {
    there: LiveWay,
    back: LiveWay,
}

/// A call of its own, so that a function which drops one doesn't go through its parts.
impl Drop for LivePair {
    fn drop(self) {
        let LivePair { there: _, back: _ } = self;
    }
}

impl Model for LivePair {
    ghost use Rattle.pair_engine.specs.LivePairs.{PairWalking};
    ghost use Rattle.pair_engine.specs.Ways.{walking_of};

    ghost Value = { PairWalking };

    ghost view = { λ p. record { there = walking_of p.there; back = walking_of p.back } };
}

impl LivePair {
    /// Makes room for a pair over two networks, before anything has landed. It stands for each two scripts over them
    /// that are a pair, whatever windows these have: those of its lines are the networks'.
    pub fn new(alloc: Global, mut there: Config, mut back: Config) -> Result<LivePair, AllocError>
        requires { IsPairNetwork there back }
        ensures lives { IfOk result (λ pair. (one other : Script) →
            IsPairOver there back one other → PairLives one other pair) }
        ensures counts { IfOk result (λ pair. (one other : Script) →
            IsPairOver there back one other →
            walking_counts pair ≡ pair_begin (pair_plan one other)) }
        ensures there { IfOk result (λ pair. HasWindows there pair.there.core.lines) }
        ensures back { IfOk result (λ pair. HasWindows back pair.back.core.lines) }
    {
        open_both(alloc, &mut there, &mut back)
    }

    /// Lands an item of a way now. Answers why it is refused, where it is.
    pub fn say(&mut self, way: Way, item: ItemRef) -> Option<Refusal>
        ensures lands { (one other : Script) → PairLives one other self.old →
            LandsNext one other way (walking_counts self.old) (kind_of item.entry) →
            GoesOn one other (pair_step (pair_plan one other) (walking_counts self.old)
            (Item way)).counts self.new }
        ensures refusal { (one other : Script) → PairLives one other self.old →
            LandsNext one other way (walking_counts self.old) (kind_of item.entry) →
            result ≡ refusal_in_event (leg_on one other way) (counts_on (walking_counts self.old) way)
            (landing_of (is_client (kind_of item.entry))) }
        ensures windows { SameWindows self.old self.new }
    {
        match way {
            Way::There => self.there.core.land(item),
            Way::Back => self.back.core.land(item),
        }
    }

    /// Tries a tick of both ways alone. With `carry_all` there and then back behind it, and then `take` there and then
    /// back, it is a round.
    pub fn tick(&mut self)
        requires ready { (one : Script) × (other : Script) × CanTurn one other self.old }
        requires left { self.old.there.core.source.core.ticks < self.old.there.core.source.total }
        ensures ticks { (one other : Script) → CanTurn one other self.old →
            TicksBoth one other self.old self.new }
        ensures windows { SameWindows self.old self.new }
    {
        match live_stall(&self.there, &self.back) {
            Some(_) => {}
            None => tick_both(&mut self.there, &mut self.back),
        }
    }

    /// Tries a carry of each line of a way, from the first to the last, each once. No row is taken.
    pub fn carry_all(&mut self, way: Way)
        requires { IsLivePair self.old }
        ensures carries { (one other : Script) → PairLives one other self.old →
            GoesOn one other (pair_run (pair_plan one other) (walking_counts self.old)
            (carries_on way 0 (plan_on (pair_plan one other) way).paths)) self.new }
        ensures rows { KeepsRows self.old self.new }
        ensures windows { SameWindows self.old self.new }
    {
        for line in 0..self.lines(way) {
            self.carry(way, line);
        }
    }

    /// Tries a row of a way, which changes nothing where a line lacks what the row needs, or no row is left. Frames
    /// that a row delivers are given to `out`, so both ways can have the same place for theirs.
    pub fn take<F: FrameOut>(&mut self, way: Way, out: &mut F)
        requires { IsLivePair self.old }
        ensures takes { (one other : Script) → PairLives one other self.old →
            GoesOn one other (pair_step (pair_plan one other) (walking_counts self.old)
            (Take way)).counts self.new }
        ensures windows { SameWindows self.old self.new }
        ensures gives { (one other : Script) → PairLives one other self.old →
            GivesRows F.stands_for out.old out.new (leg_on one other way)
            (counts_on (walking_counts self.old) way).rows
            (counts_on (walking_counts self.new) way).rows }
    {
        let _ = match way {
            Way::There => take_way_row(&mut self.there, &mut self.back, out),
            Way::Back => take_way_row(&mut self.back, &mut self.there, out),
        };
    }

    /// Damages the containers of a line of a way that are made from now on, until it is mended. It stands for the
    /// same pairs of scripts, and the next tick goes on with those of which the windows say so.
    pub fn cut(&mut self, way: Way, line: u8)
        requires line { line < length (walking_on self.old way).core.lines }
        requires lives { IsLivePair self.old }
        requires few { length (slice_index_or (windows_of_way self.old way) line []) < 256 }
        requires after { last_end (slice_index_or (windows_of_way self.old way) line [])
            ≤ (counts_on (walking_counts self.old) way).ticks }
        requires left { (counts_on (walking_counts self.old) way).ticks
            < (walking_on self.old way).core.source.total }
        ensures lives { (one other : Script) → PairLives one other self.old →
            PairLives one other self.new }
        ensures counts { walking_counts self.new ≡ walking_counts self.old }
        ensures windows { windows_of_way self.new way
            ≡ slice_set (windows_of_way self.old way) line
            (opened_at (slice_index_or (windows_of_way self.old way) line [])
            (counts_on (walking_counts self.old) way).ticks
            (walking_on self.old way).core.source.total) }
        ensures beside { windows_of_way self.new (way_beside way)
            ≡ windows_of_way self.old (way_beside way) }
    {
        match way {
            Way::There => self.there.core.cut(line),
            Way::Back => self.back.core.cut(line),
        }
    }

    /// Damages the containers of a line of a way that are made from now on no longer.
    pub fn mend(&mut self, way: Way, line: u8)
        requires line { line < length (walking_on self.old way).core.lines }
        requires lives { IsLivePair self.old }
        requires cut { CanClose (slice_index_or (windows_of_way self.old way) line [])
            (counts_on (walking_counts self.old) way).ticks }
        ensures lives { (one other : Script) → PairLives one other self.old →
            PairLives one other self.new }
        ensures counts { walking_counts self.new ≡ walking_counts self.old }
        ensures windows { windows_of_way self.new way
            ≡ slice_set (windows_of_way self.old way) line
            (closed_at (slice_index_or (windows_of_way self.old way) line [])
            (counts_on (walking_counts self.old) way).ticks) }
        ensures beside { windows_of_way self.new (way_beside way)
            ≡ windows_of_way self.old (way_beside way) }
    {
        match way {
            Way::There => self.there.core.mend(line),
            Way::Back => self.back.core.mend(line),
        }
    }

    /// How many ticks were made there; back as many.
    pub fn ticks(&self) -> u32
        ensures { result ≡ (walking_counts self.now).there.ticks }
    {
        self.there.core.source().core().ticks()
    }

    /// How many frames of a way wait, at most 256: those that were accepted and of which no octet is made.
    pub fn waiting(&self, way: Way) -> u16
        ensures most { result ≤ 256 }
        ensures waits { (one other : Script) → PairLives one other self.now →
            result ≡ waiting_in (leg_on one other way) (counts_on (walking_counts self.now) way) }
    {
        match way {
            Way::There => self.there.core.source().core().queue().waiting(),
            Way::Back => self.back.core.source().core().queue().waiting(),
        }
    }

    /// What came of a way so far, in numbers.
    pub fn totals(&self, way: Way) -> Totals
        ensures { (one other : Script) → PairLives one other self.now →
            result ≡ totals_of (leg_on one other way) (counts_on (walking_counts self.now) way) }
    {
        match way {
            Way::There => self.there.core.totals(),
            Way::Back => self.back.core.totals(),
        }
    }

    /// The last decision step of a way, where one was made: its packet, and what is shown of the return cell that it
    /// took: its statuses and RS-Ack.
    pub fn last_step(&self, way: Way) -> Option<StepNote>
        ensures last { result ≡ (walking_on self.now way).last }
        ensures step { (one other : Script) → PairLives one other self.now →
            IsShownAs result (note_of (leg_on one other way)
            (last_packet (counts_on (walking_counts self.now) way).ticks)) }
    {
        match way {
            Way::There => self.there.last,
            Way::Back => self.back.last,
        }
    }

    /// The table of the lines of a way after the last decision step and the commands that were accepted since.
    pub fn table(&self, way: Way) -> &SourceTable
        ensures table { (one other : Script) → PairLives one other self.now →
            result.now.source.table
            ≡ table_in (leg_on one other way) (counts_on (walking_counts self.now) way).ticks }
        ensures steps { result.now.steps
            ≡ steps_in (counts_on (walking_counts self.now) way).ticks }
    {
        match way {
            Way::There => self.there.core.table(),
            Way::Back => self.back.core.table(),
        }
    }

    /// Tries a carry of a line of a way.
    fn carry(&mut self, way: Way, line: u8)
        requires line { line < length (walking_on self.old way).core.lines }
        requires lives { IsLivePair self.old }
        ensures carries { (one other : Script) → PairLives one other self.old →
            GoesOn one other (pair_step (pair_plan one other) (walking_counts self.old)
            (Carry way line)).counts self.new }
        ensures rows { KeepsRows self.old self.new }
        ensures windows { SameWindows self.old self.new }
    {
        let _ = match way {
            Way::There => self.there.core.carry(line),
            Way::Back => self.back.core.carry(line),
        };
    }

    /// How many lines a way has.
    fn lines(&self, way: Way) -> u8
        requires { IsLivePair self.now }
        ensures { result ≡ length (walking_on self.now way).core.lines }
    {
        match way {
            Way::There => self.there.core.lines(),
            Way::Back => self.back.core.lines(),
        }
    }
}

/// Makes room for both ways. The networks are lent, so that they are let go once.
fn open_both(alloc: Global, there: &mut Config, back: &mut Config) -> Result<LivePair, AllocError>
    requires { IsPairNetwork there.old back.old }
    ensures lives { IfOk result (λ pair. (one other : Script) →
        IsPairOver there.old back.old one other → PairLives one other pair) }
    ensures counts { IfOk result (λ pair. (one other : Script) →
        IsPairOver there.old back.old one other →
        walking_counts pair ≡ pair_begin (pair_plan one other)) }
    ensures there { IfOk result (λ pair. HasWindows there.old pair.there.core.lines) }
    ensures back { IfOk result (λ pair. HasWindows back.old pair.back.core.lines) }
{
    let there = LiveWay::open(alloc, there)?;
    let back = LiveWay::open(alloc, back)?;
    Ok(LivePair { there, back })
}
