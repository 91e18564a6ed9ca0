//! Whatever events were tried in whatever order, a walk is a course of its session.

ghost use Rattle.std.specs.Prelude.{◌≡◌, ℕ, ◌+◌, ◌-◌, ◌*◌, ◌/◌, ◌%◌, ◌<◌, ◌≤◌, ◌==◌, List, Some, None};
ghost use Rattle.std.specs.Prelude.{if◌then◌else◌};
ghost use Rattle.law_model.specs.Common.{Leg, scenario_by, steps_in, after, source_at, stream_before};
ghost use Rattle.law_model.specs.Common.{payload_of, row_at, is_whole_row, frame_of, Counts, used_in, step, begin};
ghost use Rattle.law_model.specs.Common.{drain, walked, carriers_at, known_lines};
ghost use Rattle.law_model.specs.declared.script_types.EventLine.{EventLine};
ghost use Rattle.law_model.specs.declared.walk_events.Event.{Event};
ghost use Rattle.law_model.specs.session.Scenario.{packets_in};
ghost use Rattle.law_line.specs.StableRows.{AreDecidedAt};
ghost use Rattle.law_terminal.specs.SessionLines.{ComeOfLines};
ghost use Rattle.law_terminal.specs.Course.{told_of, IsCourse};
ghost use Rattle.law_walk.specs.Walk.{session_of, told_first, walk_plan, CanWalk, IsWalked, popped_cells};
ghost use Rattle.law_walk.specs.LastDecisionStep.{last_packet, table_in};
ghost use Rattle.law_walk.specs.LandedOfLeg.{landed_scenario, told_before};

/// Each event leads from a walk to a walk, and so do a drain and any event lines. After any list
/// of events: the frames made by the return cells that have come are the session's, and so are the source's
/// table and the client's stream; the cells that were popped come of them, and decide all rows that were
/// taken; each of these rows is whole exactly where the session's is, with its octets; the sink knows which
/// lines carry payload exactly where the definition says so; and the return cells that have come are the
/// session's first.
pub fn walk_law()
    ensures begins { (leg : Leg) → IsWalked leg (begin (walk_plan leg)) }
    ensures steps { (leg : Leg) (s : Counts) (event : Event) → IsWalked leg s →
        IsWalked leg (step (walk_plan leg) s event).counts }
    ensures drains { (leg : Leg) (s : Counts) (k : ℕ) → IsWalked leg s →
        IsWalked leg (drain k (walk_plan leg) s) }
    ensures event_lines { (leg : Leg) (lines : List EventLine) →
        IsWalked leg (walked (walk_plan leg) lines) }
    ensures course { (leg : Leg) (s : Counts) → CanWalk leg → IsWalked leg s →
        IsCourse (scenario_by leg) s.ticks s.backs (popped_cells leg s.lines) }
    ensures frames { (leg : Leg) (s : Counts) (t : ℕ) → CanWalk leg → IsWalked leg s →
        t < s.ticks → frame_of (scenario_by leg) (told_first leg s.backs) t
        ≡ frame_of (scenario_by leg) (session_of leg) t }
    ensures sources { (leg : Leg) (s : Counts) (j : ℕ) → CanWalk leg →
        IsWalked leg s → j ≤ steps_in s.ticks →
        after (scenario_by leg) (told_first leg s.backs) j
        ≡ after (scenario_by leg) (session_of leg) j }
    ensures streams { (leg : Leg) (s : Counts) (t : ℕ) → CanWalk leg →
        IsWalked leg s → t ≤ s.ticks →
        stream_before (scenario_by leg) (told_first leg s.backs) t
        ≡ stream_before (scenario_by leg) (session_of leg) t }
    ensures come { (leg : Leg) (s : Counts) → CanWalk leg → IsWalked leg s →
        ComeOfLines (scenario_by leg) (session_of leg) s.ticks
        (popped_cells leg s.lines) }
    ensures decided { (leg : Leg) (s : Counts) (t : ℕ) → CanWalk leg →
        IsWalked leg s → t < s.rows → AreDecidedAt (popped_cells leg s.lines) t }
    ensures rows { (leg : Leg) (s : Counts) (t : ℕ) → CanWalk leg → IsWalked leg s →
        t < s.rows → row_at leg.config.options leg.config.size (popped_cells leg s.lines) t
        ≡ (if is_whole_row (scenario_by leg) (session_of leg) t
        then Some (payload_of (scenario_by leg) (session_of leg) t)
        else None) }
    ensures carriers { (leg : Leg) (s : Counts) (k : ℕ) → CanWalk leg → IsWalked leg s →
        16 * k + 23 < s.rows → carriers_at leg.config.options (popped_cells leg s.lines) k
        ≡ known_lines (scenario_by leg) (session_of leg) k }
    ensures backs { (leg : Leg) (s : Counts) → CanWalk leg → IsWalked leg s →
        told_of (scenario_by leg) (popped_cells leg s.lines) s.backs
        ≡ told_first leg s.backs }
{}

/// The last decision step: which it is, which return cell the next one needs, and the table after it. Which return
/// packet a row ends; one that came was ended by a row that was taken.
pub fn step_law()
    ensures last { (t : ℕ) →
        last_packet (t + 1) ≡ (if t % 16 == 8 then Some (t / 16) else last_packet t) }
    ensures needs { (lag t : ℕ) → t % 16 ≡ 8 → lag ≤ t / 16 → used_in lag t ≡ t / 16 - lag }
    ensures number { (t : ℕ) → 22 < t → t % 16 ≡ 7 → (t - 23) / 16 ≡ packets_in t }
    ensures told { (leg : Leg) (s : Counts) (k : ℕ) → CanWalk leg → IsWalked leg s →
        k < s.backs → 16 * k + 23 < s.rows }
    ensures table { (leg : Leg) (s : Counts) → CanWalk leg → IsWalked leg s →
        (source_at (landed_scenario leg s) (told_before leg s.ticks) (steps_in s.ticks)).table
        ≡ table_in leg s.ticks }
{}
