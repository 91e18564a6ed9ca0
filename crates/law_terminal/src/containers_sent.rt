//! The containers that the source makes.

ghost use Rattle.std.specs.Prelude.{◌≡◌, ℕ, ◌+◌, ◌-◌, ◌*◌, ◌/◌, ◌<◌, ◌≤◌, All, List, length, Option};
ghost use Rattle.law_model.specs.Common.{Scenario, packets, Told, IsPacket, packet_nibbles, sent_packet, AreSent};
ghost use Rattle.law_model.specs.Common.{sent_nibbles, container_of, containers_of, vc4_size, most_lines};
ghost use Rattle.law_session.specs.ReturnedCells.{AgreeBefore};
ghost use Rattle.law_row.specs.Received.{IsDealtRow};
ghost use Rattle.law_terminal.specs.WorkedSession.{dealt};

/// The containers that the source makes, whatever it was told. Their H4 octets say their numbers, and the
/// nibbles of each packet stand in them in their order; their payload is that of a VC-4 in length, in octets,
/// and the lines that carry payload are dealt the octets of the client's stream. Return cells change no
/// container of a frame before the decision steps that take them.
pub fn sent_law()
    ensures places { (scenario : Scenario) (returns : List (Option Told)) (line frames : ℕ) →
        length scenario.windows ≤ most_lines → AreSent (containers_of scenario returns line frames) }
    ensures packets { (scenario : Scenario) (returns : List (Option Told)) (line k : ℕ) →
        length scenario.windows ≤ most_lines →
        IsPacket (sent_packet scenario returns line k) }
    ensures nibbles { (scenario : Scenario) (returns : List (Option Told)) (line frames k : ℕ) →
        length scenario.windows ≤ most_lines → 16 * k + 23 < frames →
        sent_nibbles (containers_of scenario returns line frames) k
        ≡ packet_nibbles (sent_packet scenario returns line k) }
    ensures payload { (scenario : Scenario) (returns : List (Option Told)) (line t : ℕ) →
        scenario.size ≤ vc4_size → length (container_of scenario returns line t).payload ≡ vc4_size }
    ensures octets { (scenario : Scenario) (returns : List (Option Told)) (line t : ℕ) →
        All (λ o. o < 256) (container_of scenario returns line t).payload }
    ensures dealt { (scenario : Scenario) (returns : List (Option Told)) (t : ℕ) →
        IsDealtRow scenario returns (λ line. container_of scenario returns line t) t }
    ensures cells { (scenario : Scenario) (a b : List (Option Told)) (line t : ℕ) →
        AgreeBefore ((t + 8) / 16 - scenario.lag) a b →
        container_of scenario a line t ≡ container_of scenario b line t }
{}
