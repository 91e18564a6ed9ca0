//! What has come of the lines, whatever the source was told.

ghost use Rattle.std.specs.Prelude.{◌≡◌, ℕ, ◌+◌, ◌*◌, ◌<◌, ◌≤◌, min, List, take, Option};
ghost use Rattle.law_model.specs.Common.{Cell, Scenario, packets, Told, container_of};
ghost use Rattle.law_line.specs.StableRows.{AreDecidedAt};
ghost use Rattle.law_row.specs.Received.{HasPackets, TellsRow};
ghost use Rattle.law_terminal.specs.SessionLines.{HasLines, given, ComesOfLine, ComeOfLines};

/// What has come of the lines, whatever the source was told: any first cells that they give of the containers
/// made so far, which are those that they give of all containers. A number that is decided on each line tells
/// its containers where they are good, and the packets that can be read are those that were sent.
pub fn cells_law()
    ensures made { (scenario : Scenario) (returns : List (Option Told))
        (line frames delay carries : ℕ) → frames ≤ scenario.ticks →
        min carries scenario.ticks ≤ frames →
        given scenario returns line frames delay carries
        ≡ given scenario returns line scenario.ticks delay carries }
    ensures first { (scenario : Scenario) (returns : List (Option Told))
        (line frames delay carries popped : ℕ) → min carries scenario.ticks ≤ frames →
        ComesOfLine scenario returns line frames
        (take popped (given scenario returns line frames delay carries)) }
    ensures packets { (scenario : Scenario) (returns : List (Option Told)) (frames k : ℕ)
        (cells : List (List Cell)) → HasLines scenario → ComeOfLines scenario returns frames cells →
        16 * k + 23 < scenario.ticks → AreDecidedAt cells (16 * k + 23) →
        HasPackets scenario returns cells k }
    ensures row { (scenario : Scenario) (returns : List (Option Told)) (frames t : ℕ)
        (cells : List (List Cell)) → HasLines scenario → ComeOfLines scenario returns frames cells →
        t < scenario.ticks → AreDecidedAt cells t →
        TellsRow scenario returns (λ line. container_of scenario returns line t) cells t }
{}
