//! Worked sessions, computed.

ghost use Rattle.std.specs.Prelude.{◌≡◌};
ghost use Rattle.law_session.specs.ComputedSessions.{shown_in, three_lines, three_lines_shown, other_line};
ghost use Rattle.law_session.specs.ComputedSessions.{other_line_shown};
ghost use Rattle.law_session.specs.ComputedSessions.{failing_line, failing_line_shown, silent_line, silent_line_shown};
ghost use Rattle.law_session.specs.WorkedTimers.{short_holdoff, short_holdoff_shown, long_holdoff};
ghost use Rattle.law_session.specs.WorkedTimers.{long_holdoff_shown, long_restore, long_restore_shown};
ghost use Rattle.law_session.specs.WorkedTimers.{held_over_change, held_over_change_shown, slow_statuses};
ghost use Rattle.law_session.specs.WorkedTimers.{slow_statuses_shown};

/// Worked sessions, computed: what packets show of the lines.
pub fn worked_law()
    ensures three_lines { shown_in three_lines three_lines_shown ≡ three_lines_shown }
    ensures other_line { shown_in other_line other_line_shown ≡ other_line_shown }
    ensures failing_line { shown_in failing_line failing_line_shown ≡ failing_line_shown }
    ensures silent_line { shown_in silent_line silent_line_shown ≡ silent_line_shown }
{}

/// Worked sessions with timers, computed: what packets show of the lines.
pub fn worked_timers_law()
    ensures short_holdoff { shown_in short_holdoff short_holdoff_shown ≡ short_holdoff_shown }
    ensures long_holdoff { shown_in long_holdoff long_holdoff_shown ≡ long_holdoff_shown }
    ensures long_restore { shown_in long_restore long_restore_shown ≡ long_restore_shown }
    ensures held_over_change { shown_in held_over_change held_over_change_shown
        ≡ held_over_change_shown }
    ensures sixteen { shown_in (slow_statuses 16) (slow_statuses_shown 16) ≡ slow_statuses_shown 16 }
    ensures thirty_two { shown_in (slow_statuses 32) (slow_statuses_shown 32) ≡ slow_statuses_shown 32 }
{}
