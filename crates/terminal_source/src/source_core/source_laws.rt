//! Laws of what a source terminal sends, over the definitions alone.

ghost use Rattle.std.specs.Prelude.{◌≡◌, ◌↔◌, ◌<◌, ◌≤◌, ◌+◌, ◌-◌, ◌*◌, ℕ, [], List, Option, Some, None, All, drop};
ghost use Rattle.std.specs.Prelude.{length, replicate};
ghost use Rattle.law_model.specs.Common.{Scenario, steps_in, Told, active, after, table_of, stream_before, payload_of};
ghost use Rattle.law_model.specs.Common.{replayed, rank_of, active_at, container_of, frame_of, vc4_size};
ghost use Rattle.law_session.specs.ReturnedCells.{AgreeBefore};
ghost use Rattle.member_rows.specs.vcat_interleave.Spread.{AreDistinct};
ghost use Rattle.terminal_source.specs.source_core.Terminal.{needed_at};
ghost use Rattle.terminal_source.specs.source_core.GivenScenario.{ComesAlike, first_items};
ghost use Rattle.terminal_source.specs.source_core.Dealt.{IsDealt};

/// What lands later, and return cells that come later, change nothing of what was sent before: so what a
/// terminal makes of the items that have landed is what the definitions say of the whole session.
pub fn landed_law()
    ensures frames { (one other : Scenario) (a b : List (Option Told)) (t : ℕ) →
        ComesAlike one other (t + 1) → AgreeBefore (steps_in (t + 1) - one.lag) a b →
        frame_of one a t ≡ frame_of other b t }
    ensures streams { (one other : Scenario) (a b : List (Option Told)) (t : ℕ) →
        ComesAlike one other t → AgreeBefore (steps_in t - one.lag) a b →
        stream_before one a t ≡ stream_before other b t }
    ensures tables { (one other : Scenario) (a b : List (Option Told)) (t j : ℕ) →
        ComesAlike one other t → AgreeBefore (steps_in t - one.lag) a b → j ≤ steps_in t →
        after one a j ≡ after other b j }
    ensures prefix { (scenario : Scenario) (n m t : ℕ) →
        All (λ order. t ≤ order.due) (drop n scenario.orders) →
        All (λ offer. t ≤ offer.due) (drop m scenario.offers) →
        ComesAlike (first_items scenario n m) scenario t }
{}

/// What was refused changes no container: the session of what was accepted alone has the same ones.
pub fn accepted_law()
    ensures { (scenario : Scenario) (cells : List (Option Told)) (t u : ℕ) → u < t →
        frame_of (replayed scenario cells t) cells u ≡ frame_of scenario cells u }
{}

/// The octets of a frame are dealt to the lines that the table of its packet has in NORM, all of them and no
/// other; each octet is carried once. A change of membership takes effect for all lines in the same frame:
/// packet `k` governs frames `16 k + 24` to `16 k + 39`, and nothing is carried before frame 24.
pub fn membership_law()
    ensures governed { (scenario : Scenario) (cells : List (Option Told)) (k i : ℕ) → i < 16 →
        active_at scenario cells (16 * k + 24 + i) ≡ active (table_of scenario cells k) }
    ensures none { (scenario : Scenario) (cells : List (Option Told)) (t : ℕ) → t < 24 →
        active_at scenario cells t ≡ [] }
    ensures distinct { (scenario : Scenario) (cells : List (Option Told)) (t : ℕ) →
        AreDistinct (active_at scenario cells t) }
    ensures size { (scenario : Scenario) (cells : List (Option Told)) (t : ℕ) →
        length (payload_of scenario cells t)
        ≡ scenario.size * length (active_at scenario cells t) }
    ensures dealt { (scenario : Scenario) (cells : List (Option Told)) (t i : ℕ) →
        i < length (payload_of scenario cells t) → IsDealt scenario cells t i }
    ensures others { (scenario : Scenario) (cells : List (Option Told)) (t line : ℕ) →
        rank_of (active_at scenario cells t) line ≡ None →
        (container_of scenario cells line t).payload ≡ replicate vc4_size 0 }
{}

/// A tick needs return cell `k` exactly where it makes frame `16 (k + lag) + 8`.
pub fn needed_law()
    ensures { (lag t k : ℕ) → (needed_at lag t ≡ Some k) ↔ (t ≡ 16 * (k + lag) + 8) }
{}
