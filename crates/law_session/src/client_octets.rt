//! The client's stream of octets.

ghost use Rattle.std.specs.Prelude.{◌≡◌, ◌≤◌, ◌++◌, ◌-◌, ◌*◌, ◌/◌, ℕ, List, Option, suc, length};
ghost use Rattle.law_model.specs.Common.{Scenario, Told, size, width, place_of, stream_before, frames_in};
ghost use Rattle.law_model.specs.Common.{IsFewest, payload_of, frames_before};
ghost use Rattle.law_session.specs.ReturnedCells.{AgreeBefore};

/// The client's stream. Each accepted frame is begun or waits, in order; the pieces are the fewest that reach
/// the place at which the next tick begins, so that each tick has all octets that it carries; and more
/// return cells after a list change nothing of what was sent before.
pub fn client_law()
    ensures frames { (scenario : Scenario) (cells : List (Option Told)) (t : ℕ) →
        frames_in (stream_before scenario cells t).pieces
        ++ (stream_before scenario cells t).waiting
        ≡ frames_before scenario cells t }
    ensures reaches { (scenario : Scenario) (cells : List (Option Told)) (t : ℕ) →
        place_of scenario cells t ≤ size (stream_before scenario cells t).pieces }
    ensures fewest { (scenario : Scenario) (cells : List (Option Told)) (t : ℕ) →
        IsFewest (stream_before scenario cells t).pieces (place_of scenario cells (suc t))
        (stream_before scenario cells (suc t)).pieces }
    ensures payload { (scenario : Scenario) (cells : List (Option Told)) (t : ℕ) →
        length (payload_of scenario cells t) ≡ scenario.size * width scenario cells t }
    ensures cells { (scenario : Scenario) (a b : List (Option Told)) (t : ℕ) →
        AgreeBefore ((t - 8) / 16 - scenario.lag) a b →
        stream_before scenario a t ≡ stream_before scenario b t }
{}
