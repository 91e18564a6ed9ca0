//! The turns that the event lines of a script say, one after another.
ghost use Rattle.std.specs.Prelude.{◌≡◌, ◌≤◌, ℕ, length, IfSome, IfNone};
ghost use Rattle.law_model.specs.declared.script_types.Script.{Script};
ghost use Rattle.law_model.specs.session.Leg.{leg_of};
ghost use Rattle.law_model.specs.session.ValidScript.{IsValid, IsEvent};
ghost use Rattle.law_model.specs.session.Counts.{Plan, Counts, begin, run_line};
ghost use Rattle.law_walk.specs.Walk.{walk_plan};
ghost use Rattle.law_headline.specs.WalkTexts.{counts_in};
ghost use Rattle.command_rooms.specs.TurnsLeft.{once, turns_once, line_turns, IsPending, AreLeft, GivesTurn};

use crate::turns::watched_turns::Turn;
use law_model::{Event, EventLine};

/// What is left of an event line.
#[derive(Clone, Copy)]
pub enum Pending {
    /// A turn, so many times.
    Tries(Turn, u32),
    /// Rounds, until all rows are taken.
    Rounds,
}

/// What an event line says.
fn pending_of(line: EventLine) -> Pending
    ensures once { (plan : Plan) (s : Counts) → once plan result s ≡ run_line plan s line }
    ensures fits { (plan : Plan) (lines : ℕ) → IsEvent lines line → lines ≤ length plan.paths →
        IsPending plan result }
    ensures turns { (plan : Plan) (s : Counts) → turns_once plan result s ≤ line_turns plan line }
{
    match line {
        EventLine::Client(n) => Pending::Tries(Turn::Try(Event::Accept), n),
        EventLine::Operator(n) => Pending::Tries(Turn::Try(Event::Command), n),
        EventLine::Tick(n) => Pending::Tries(Turn::Try(Event::Tick), n),
        EventLine::Carry(line, n) => Pending::Tries(Turn::Try(Event::Carry(line)), n),
        EventLine::Back(n) => Pending::Tries(Turn::Try(Event::Back), n),
        EventLine::Take(n) => Pending::Tries(Turn::Try(Event::Take), n),
        EventLine::Round(n) => Pending::Tries(Turn::Round, n),
        EventLine::Drain => Pending::Rounds,
    }
}

/// The turns that are left of a walk.
#[derive(Clone, Copy)]
pub struct TurnsLeft<'a> {
    /// What is left of the line that was begun.
    pending: Pending,
    /// The lines behind it.
    lines: &'a [EventLine],
    /// How many rows there are.
    ticks: u32,
}

impl<'a> TurnsLeft<'a> {
    /// All turns of a script with these event lines. Where there are none, it drains.
    pub fn new(lines: &'a [EventLine], ticks: u32) -> TurnsLeft<'a>
        ensures { (script : Script) → IsValid script → lines.now ≡ script.events →
            ticks ≡ script.config.ticks →
            AreLeft script result (begin (walk_plan (leg_of script))) }
    {
        if lines.is_empty() {
            return TurnsLeft {
                pending: Pending::Rounds,
                lines,
                ticks,
            };
        }
        TurnsLeft {
            pending: Pending::Tries(Turn::Round, 0),
            lines,
            ticks,
        }
    }

    /// The next turn of the line that was begun, where so many rows are taken.
    fn of_line(&mut self, taken: u32) -> Option<Turn>
        ensures some { (script : Script) (s : Counts) → AreLeft script self.old s → taken ≡ s.rows →
            IfSome result (GivesTurn script self.old self.new s) }
        ensures none { (script : Script) (s : Counts) → AreLeft script self.old s → taken ≡ s.rows →
            IfNone result (once (walk_plan (leg_of script)) self.old.pending s ≡ s) }
        ensures kept { IfNone result (self.new ≡ self.old) }
    {
        match self.pending {
            Pending::Tries(turn, count) => {
                if count == 0 {
                    return None;
                }
                self.pending = Pending::Tries(turn, count - 1);
                Some(turn)
            }
            Pending::Rounds => {
                if taken < self.ticks {
                    Some(Turn::Round)
                } else {
                    None
                }
            }
        }
    }

    /// The next turn, where so many rows are taken.
    pub fn next(&mut self, taken: u32) -> Option<Turn>
        ensures some { (script : Script) (s : Counts) → AreLeft script self.old s → taken ≡ s.rows →
            IfSome result (GivesTurn script self.old self.new s) }
        ensures none { (script : Script) (s : Counts) → AreLeft script self.old s → taken ≡ s.rows →
            IfNone result (s ≡ counts_in script) }
    {
        loop {
            if let Some(turn) = self.of_line(taken) {
                return Some(turn);
            }
            match self.lines {
                [line, rest @ ..] => {
                    self.pending = pending_of(*line);
                    self.lines = rest;
                }
                [] => return None,
            }
        }
    }
}
