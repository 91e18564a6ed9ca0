//! What was refused changes nothing of a session.

ghost use Rattle.std.specs.Prelude.{◌≡◌, ◌≤◌, ℕ, List, Option, filter};
ghost use Rattle.law_model.specs.Common.{Scenario, DueCommand, DueFrame, steps_in, lands_at, comes_at, Told, after};
ghost use Rattle.law_model.specs.Common.{stream_before, orders_before, offers_before, replayed};
ghost use Rattle.law_session.specs.LandingByStep.{AreOrdersInOrder, AreOffersInOrder, landed, is_landed, is_come};

/// What was refused changes nothing: the session of what was accepted alone goes as the session, and accepts
/// all of it again. Items land in the order of the script.
pub fn journal_law()
    ensures tables { (scenario : Scenario) (cells : List (Option Told)) (t j : ℕ) → j ≤ steps_in t →
        after (replayed scenario cells t) cells j ≡ after scenario cells j }
    ensures streams { (scenario : Scenario) (cells : List (Option Told)) (t n : ℕ) → n ≤ t →
        stream_before (replayed scenario cells t) cells n ≡ stream_before scenario cells n }
    ensures orders_again { (scenario : Scenario) (cells : List (Option Told)) (t j : ℕ) →
        j ≤ steps_in t →
        orders_before (replayed scenario cells t) cells j ≡ orders_before scenario cells j }
    ensures offers_again { (scenario : Scenario) (cells : List (Option Told)) (t n : ℕ) → n ≤ t →
        offers_before (replayed scenario cells t) cells n ≡ offers_before scenario cells n }
    ensures orders_land { (orders : List DueCommand) (j : ℕ) → AreOrdersInOrder orders →
        landed lands_at orders j ≡ filter (is_landed j) orders }
    ensures offers_land { (offers : List DueFrame) (t : ℕ) → AreOffersInOrder offers →
        landed comes_at offers t ≡ filter (is_come t) offers }
{}
