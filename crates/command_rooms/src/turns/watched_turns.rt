//! A walk is made turn by turn, while somebody watches.
ghost use Rattle.std.specs.Prelude.{◌≡◌, ◌+◌, ◌≤◌, OnOk};
ghost use Rattle.law_model.specs.session.Leg.{leg_of};
ghost use Rattle.law_model.specs.session.ValidScript.{IsValid};
ghost use Rattle.law_model.specs.session.Counts.{begin, run};
ghost use Rattle.law_walk.specs.Walk.{walk_plan};
ghost use Rattle.law_headline.specs.WalkTexts.{counts_in};
ghost use Rattle.walk_engine.specs.walk_core.WalkAfterEvent.{GivesRows};
ghost use Rattle.command_rooms.specs.TracedWalk.{events_of, IsTurn};

use crate::turns::next_turns::TurnsLeft;
use law_model::{Event, EventLine, FrameOut};
use walk_engine::walk_core::Walk;

/// What is done with a walk at once: one tick comes of it at most.
#[derive(Clone, Copy)]
pub enum Turn {
    /// An event is tried.
    Try(Event),
    /// A round is made.
    Round,
}

/// Makes a turn.
pub(crate) fn make_turn<F: FrameOut>(walk: &mut Walk, turn: Turn, out: &mut F)
    requires { IsTurn (walk_plan (leg_of walk.old.script)) turn }
    ensures script { walk.new.script ≡ walk.old.script }
    ensures counts { let plan = walk_plan (leg_of walk.old.script) in
        walk.new.counts ≡ run plan walk.old.counts (events_of plan turn) }
    ensures gives { GivesRows F.stands_for out.old out.new (leg_of walk.old.script)
        walk.old.counts.rows walk.new.counts.rows }
    ensures rows { walk.old.counts.rows ≤ walk.new.counts.rows }
    ensures one { walk.new.counts.rows ≤ walk.old.counts.rows + 1 }
    ensures least { walk.old.counts.ticks ≤ walk.new.counts.ticks }
    ensures most { walk.new.counts.ticks ≤ walk.old.counts.ticks + 1 }
{
    match turn {
        Turn::Try(event) => {
            walk.step(event, out);
        }
        Turn::Round => walk.round(out),
    }
}

/// Makes the turns of a walk, and sees what comes of each.
pub trait Watcher {
    /// Why it sees no more.
    type Fault;

    ghost use Rattle.std.specs.Prelude.{◌≡◌, OnOk};
    ghost use Rattle.law_model.specs.session.Leg.{leg_of};
    ghost use Rattle.law_model.specs.session.ValidScript.{IsValid};
    ghost use Rattle.law_model.specs.session.Counts.{run};
    ghost use Rattle.law_walk.specs.Walk.{walk_plan, IsWalked};
    ghost use Rattle.walk_engine.specs.walk_core.WalkAfterEvent.{Walked};
    ghost use Rattle.command_rooms.specs.TracedWalk.{events_of, IsTurn};

    /// What there was before it saw anything.
    ghost Before: { Type 0 };

    /// It has seen all of a walk so far.
    ghost has_seen: { Self → Self.Before → Walked → Type 0 };

    /// Makes a turn, and sees what comes of it.
    fn turn(&mut self, walk: &mut Walk, turn: Turn) -> Result<(), Self::Fault>
        requires valid { IsValid walk.old.script }
        requires walked { IsWalked (leg_of walk.old.script) walk.old.counts }
        requires turn { IsTurn (walk_plan (leg_of walk.old.script)) turn }
        requires seen { (before : Self.Before) × has_seen self.old before walk.old }
        ensures script { walk.new.script ≡ walk.old.script }
        ensures counts { let plan = walk_plan (leg_of walk.old.script) in
            walk.new.counts ≡ run plan walk.old.counts (events_of plan turn) }
        ensures seen { (before : Self.Before) → has_seen self.old before walk.old →
            OnOk result (has_seen self.new before walk.new) };
}

/// Makes what the event lines of a walk's script say, while somebody watches. Where there are none, it drains.
pub(crate) fn drive<W: Watcher>(
    walk: &mut Walk,
    lines: &[EventLine],
    ticks: u32,
    watcher: &mut W,
) -> Result<(), W::Fault>
    requires valid { IsValid walk.old.script }
    requires events { lines.now ≡ walk.old.script.events }
    requires begun { walk.old.counts ≡ begin (walk_plan (leg_of walk.old.script)) }
    requires ticks { ticks ≡ walk.old.script.config.ticks }
    requires seen { (before : W.Before) × W.has_seen watcher.old before walk.old }
    ensures script { walk.new.script ≡ walk.old.script }
    ensures counts { OnOk result (walk.new.counts ≡ counts_in walk.old.script) }
    ensures seen { (before : W.Before) → W.has_seen watcher.old before walk.old →
        OnOk result (W.has_seen watcher.new before walk.new) }
{
    let mut turns = TurnsLeft::new(lines, ticks);
    while let Some(turn) = turns.next(walk.totals().taken) {
        match watcher.turn(walk, turn) {
            Ok(()) => {}
            Err(fault) => return Err(fault),
        }
    }
    Ok(())
}
