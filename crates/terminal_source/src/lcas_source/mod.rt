//! The source's side of LCAS (G.7042): which lines of a group are members, and what the source tells of each.
//! Begin with `SourceTable`. It makes one decision step after the other; when a step is made, and what a line
//! carries, is not said here. `course_law`: the table after these steps is that of a scenario. The rules by
//! which a line is added, removed, passed over and brought forward are this project's own.

ghost use Rattle.std.specs.Prelude.{◌≡◌, ℕ, ◌+◌, ◌-◌, ◌<◌, [], ◌∷◌, ◌++◌, true, List, Option, length};
ghost use Rattle.law_model.specs.Common.{xor, Scenario, Told, after, Call, called, course_of, calls_before, group_bit};

mod group_bits;
mod member_table;
mod source_table;

pub use law_model::{CommandFault, SourceState};
pub use source_table::SourceTable;

/// A table over a list of calls is the course of that list: before the first one it is the course of none,
/// and each further call makes of it what it makes of the course.
pub fn calls_law()
    ensures { (lines statuses : ℕ) (calls : List Call) (call : Call) →
        course_of lines statuses (calls ++ call ∷ []) ≡ called (course_of lines statuses calls) call }
{}

/// The calls of a scenario, with any return cells, lead to the scenario's own source: so what a table is
/// after a list of calls is what a session's definitions say.
pub fn course_law()
    ensures source { (scenario : Scenario) (cells : List (Option Told)) (j : ℕ) →
        (course_of (length scenario.windows) scenario.options.statuses
        (calls_before scenario cells j)).source
        ≡ after scenario cells j }
    ensures taken { (scenario : Scenario) (cells : List (Option Told)) (j : ℕ) →
        (course_of (length scenario.windows) scenario.options.statuses
        (calls_before scenario cells j)).taken
        ≡ j - scenario.lag }
    ensures steps { (scenario : Scenario) (cells : List (Option Told)) (j : ℕ) →
        (course_of (length scenario.windows) scenario.options.statuses
        (calls_before scenario cells j)).steps ≡ j }
{}

/// The bit of a group is 1 in the first fifteen packets, and then the sum modulo 2 of the bits fifteen and
/// fourteen packets before.
pub fn group_bit_law()
    ensures first { (k : ℕ) → k < 15 → group_bit k ≡ true }
    ensures later { (k : ℕ) → group_bit (k + 15) ≡ xor (group_bit k) (group_bit (k + 1)) }
{}
