//! A walk is made turn by turn, and after each turn it is seen which lines carry payload under the packet
//! that was begun, whether the row that was taken is whole and why not, and what is confirmed after it.
//! Behind the last turn stand the places of the frames.
ghost use Rattle.std.specs.Prelude.{◌≡◌, IfOk, IfErr, OnOk};
ghost use Rattle.law_model.specs.declared.script_types.Script.{Script};
ghost use Rattle.law_model.specs.session.Leg.{leg_of};
ghost use Rattle.law_model.specs.session.ValidScript.{IsValid};
ghost use Rattle.law_model.specs.session.Counts.{begin};
ghost use Rattle.law_walk.specs.Walk.{walk_plan};
ghost use Rattle.law_headline.specs.WalkTexts.{counts_in};
ghost use Rattle.command_parts.specs.Task.{Answer};
ghost use Rattle.command_parts.specs.Ends.{lent};
ghost use Rattle.command_parts.specs.Scripts.{HasScript, script_answer};
ghost use Rattle.command_parts.specs.Stops.{StopsReading};
ghost use Rattle.fate_walks.specs.walk_fates.MadeWalk.{SeesWalk};

use crate::turns::ready_walk::{LinesAndTicks, read_walk};
use crate::turns::watched_turns::{Turn, Watcher, drive, make_turn};
use command_parts::Stop;
use fate_walks::walk_fates::{SeenRows, SeenWalk, nothing_seen, place_frames, see_since};
use law_model::{EventLine, Silent};
use octet_io::ByteSource;
use std::alloc::{AllocError, Global};
use walk_engine::walk_core::Walk;

/// The walk of a script at its end, and what was seen of it.
#[derive(Drop)]
pub struct WatchedWalk {
    /// The walk, after its last event.
    pub walk: Walk,
    /// What was seen of it, with the places of its frames.
    pub seen: SeenWalk,
}

impl Watcher for SeenRows {
    type Fault = AllocError;

    ghost use Rattle.law_model.specs.session.Leg.{leg_of};
    ghost use Rattle.fate_walks.specs.walk_fates.Seen.{Sees};

    ghost Before = { Unit {0} };

    ghost has_seen = { λ seen before walk.
        Sees (leg_of walk.script) walk.counts.ticks walk.counts.rows seen };

    fn turn(&mut self, walk: &mut Walk, turn: Turn) -> Result<(), AllocError> {
        let totals = walk.totals();
        make_turn(walk, turn, &mut Silent);
        see_since(walk, totals.ticks, totals.taken, self)
    }
}

/// Makes the walk of a script, and sees it.
fn see_walk(
    alloc: Global,
    walk: &mut Walk,
    lines: &[EventLine],
    size: LinesAndTicks,
) -> Result<SeenWalk, AllocError>
    requires valid { IsValid walk.old.script }
    requires events { lines.now ≡ walk.old.script.events }
    requires begun { walk.old.counts ≡ begin (walk_plan (leg_of walk.old.script)) }
    requires ticks { size.ticks ≡ walk.old.script.config.ticks }
    ensures script { walk.new.script ≡ walk.old.script }
    ensures counts { OnOk result (walk.new.counts ≡ counts_in walk.old.script) }
    ensures seen { IfOk result (SeesWalk (leg_of walk.new.script) walk.new.counts) }
{
    let mut rows = nothing_seen(alloc, walk.script().config.size);
    drive(walk, lines, size.ticks, &mut rows)?;
    let ruler = place_frames(alloc, walk, &rows.packets)?;
    Ok(SeenWalk { rows, ruler })
}

/// Reads a script, makes its walk and sees it.
pub(crate) fn see_script<S: ByteSource>(alloc: Global, source: &mut S) -> Result<WatchedWalk, Stop>
    ensures script { IfOk result (λ watched.
        HasScript (lent S.left S.faults source.old source.new) watched.walk.script) }
    ensures counts { IfOk result (λ watched.
        watched.walk.counts ≡ counts_in watched.walk.script) }
    ensures seen { IfOk result (λ watched.
        SeesWalk (leg_of watched.walk.script) watched.walk.counts watched.seen) }
    ensures stopped { (writes : Script → Answer) → IfErr result
        (StopsReading (lent S.left S.faults source.old source.new) (script_answer writes)) }
{
    let begun = match read_walk(alloc, source) {
        Ok(begun) => begun,
        Err(stop) => return Err(stop),
    };
    let mut walk = begun.walk;
    match see_walk(alloc, &mut walk, begun.lines.as_slice(), begun.size) {
        Ok(seen) => Ok(WatchedWalk { walk, seen }),
        Err(AllocError) => Err(Stop::Memory),
    }
}
