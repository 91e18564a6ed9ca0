//! One way of a pair: its script, what of it has landed, and its direction.

ghost use Rattle.std.specs.Prelude.{◌≡◌, ◌<◌, None, IfOk};
ghost use Rattle.law_model.specs.Common.{carry};
ghost use Rattle.law_model.specs.declared.script_types.Script.{Script};
ghost use Rattle.law_pair.specs.Common.{IsWay, way_of, land_item, done_at, held_at};
ghost use Rattle.law_walk.specs.Common.{walk_plan};
ghost use Rattle.terminal_group.specs.Item.{bare_items};
ghost use Rattle.terminal_group.specs.Landed.{none_landed};
ghost use Rattle.walk_engine.specs.Common.{answer_by};
ghost use Rattle.pair_engine.specs.PairAfterEvent.{next_refusal};
ghost use Rattle.pair_engine.specs.WayCalls.{Goes, IsQuiet};
ghost use Rattle.pair_engine.specs.Ways.{StandsAs, LandedAs, way_counts, walking_of, IsNewLive, IsNewWay};

use crate::live_way::LiveWay;
use crate::next_items::{landed, next_item};
use law_model::{FrameRoom, Script, StallCause};
use std::alloc::{AllocError, Global};
use terminal_group::{Landing, lent_item};
use walk_engine::walk_core::Moved;

/// One way of a pair.
pub(crate) struct PairWay {
    /// Its script. Its direction has twice the lag.
    pub(crate) script: Script,
    /// Which of its items have landed.
    pub(crate) landing: Landing,
    /// A frame that is drawn is lent from here.
    room: FrameRoom,
    /// Its direction, and what was said of it.
    pub(crate) live: LiveWay,
}

/// A call of its own, so that a function which drops one doesn't go through its parts.
impl Drop for PairWay {
    fn drop(self) {
        let PairWay {
            script: _,
            landing: _,
            room: _,
            live: _,
        } = self;
    }
}

impl PairWay {
    /// Makes room for a way of a script, before any event.
    pub(crate) fn open(alloc: Global, mut script: Script) -> Result<PairWay, AllocError>
        requires { IsWay script }
        ensures { IfOk result (λ own. IsNewWay script own) }
    {
        let (landing, live) = open_parts(alloc, &mut script)?;
        let room = FrameRoom::new(alloc)?;
        Ok(PairWay {
            script,
            landing,
            room,
            live,
        })
    }

    /// Lands the next item, where there is one and it is due.
    pub(crate) fn land(&mut self) -> Moved
        requires { (other : Script) × StandsAs (way_of self.old.script other) self.old
            × LandedAs (way_of self.old.script other) self.old }
        ensures goes { (other : Script) → StandsAs (way_of self.old.script other) self.old →
            LandedAs (way_of self.old.script other) self.old →
            Goes (way_of self.old.script other) self.new
            (land_item (walk_plan (way_of self.old.script other)) (way_counts self.old))
            (next_refusal (way_of self.old.script other) (way_counts self.old)) result }
        ensures quiet { IsQuiet self.old self.new }
    {
        let Some(next) = next_item(&self.landing) else {
            return Moved::Stalled(StallCause::Done);
        };
        if self.live.core.source().core().ticks() < next.due {
            return Moved::Stalled(StallCause::NotDue { due: next.due });
        }
        let lent = self.script.items.lend(next.number, &mut self.room);
        let why = self.live.core.land(lent_item(lent, &self.room));
        self.landing.land(next.client, next.number, why);
        landed(why)
    }

    /// Makes a carry of a line.
    pub(crate) fn carry(&mut self, line: u8) -> Moved
        requires line { line < self.old.script.config.lines }
        requires stands { (other : Script) × StandsAs (way_of self.old.script other) self.old }
        ensures goes { (other : Script) → StandsAs (way_of self.old.script other) self.old →
            LandedAs (way_of self.old.script other) self.old →
            Goes (way_of self.old.script other) self.new
            (carry (walk_plan (way_of self.old.script other)) (way_counts self.old) line)
            None result }
        ensures quiet { IsQuiet self.old self.new }
    {
        carried(self.live.core.carry(line))
    }

    /// All its ticks are made.
    pub(crate) fn done(&self) -> Option<StallCause>
        ensures { (other : Script) → result
            ≡ done_at (walk_plan (way_of self.now.script other)) (way_counts self.now) }
    {
        if self.live.core.source().core().ticks() >= self.script.config.ticks {
            Some(StallCause::Done)
        } else {
            None
        }
    }

    /// An item is due now and hasn't landed.
    pub(crate) fn held(&self) -> Option<StallCause>
        ensures { (other : Script) → LandedAs (way_of self.now.script other) self.now → result
            ≡ held_at (walk_plan (way_of self.now.script other)) (way_counts self.now) }
    {
        match self.landing.held(self.live.core.source().core().ticks()) {
            Some(item) => Some(StallCause::Held { item }),
            None => None,
        }
    }
}

/// What a carry answers, which stalls for a cause or not.
fn carried(cause: Option<StallCause>) -> Moved
    ensures { result ≡ answer_by cause None }
{
    match cause {
        Some(cause) => Moved::Stalled(cause),
        None => Moved::Yes,
    }
}

/// Makes room for what a way of a script has beside it, before any event. The script is lent, so that it is let go
/// once.
fn open_parts(alloc: Global, script: &mut Script) -> Result<(Landing, LiveWay), AllocError>
    requires { IsWay script.old }
    ensures script { IfOk result (λ parts. script.new ≡ script.old) }
    ensures landing { IfOk result (λ parts. parts.0 ≡ none_landed
        script.old.config.lines (bare_items script.old.items)) }
    ensures live { IfOk result (λ parts. IsNewLive script.old.config (walking_of parts.1)) }
{
    let landing = Landing::of(alloc, script)?;
    let live = LiveWay::open(alloc, &mut script.config)?;
    Ok((landing, live))
}
