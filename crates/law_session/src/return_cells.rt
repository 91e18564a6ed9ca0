//! The return cells of a session.

ghost use Rattle.std.specs.Prelude.{◌≡◌, ◌<◌, ◌+◌, ◌-◌, ℕ, List, Option, take};
ghost use Rattle.law_model.specs.Common.{Scenario, Told, table_of, cells_before};
ghost use Rattle.law_session.specs.ReturnedCells.{IsReturned, AgreeBefore};

/// The return cells of a session. Each is made from the tables that the cells before it lead to; more cells
/// after a list change no table that was made before.
pub fn session_law()
    ensures cells { (scenario : Scenario) (n k : ℕ) → 0 < scenario.lag → k < n →
        IsReturned scenario n k }
    ensures prefix { (scenario : Scenario) (n more : ℕ) →
        take n (cells_before scenario (n + more)) ≡ cells_before scenario n }
    ensures tables { (scenario : Scenario) (a b : List (Option Told)) (j : ℕ) →
        AgreeBefore (j + 1 - scenario.lag) a b → table_of scenario a j ≡ table_of scenario b j }
{}
