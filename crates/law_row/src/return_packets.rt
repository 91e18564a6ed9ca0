//! What the sink's return packets tell the source.

ghost use Rattle.std.specs.Prelude.{◌≡◌, ℕ, ◌<◌, List, Some};
ghost use Rattle.member_cells.specs.declared.containers_and_cells.BackCell.TheVariants.{Packet as Nibbles};
ghost use Rattle.law_model.specs.Common.{Cell, IsPacket, packet_nibbles, Scenario, cells_before, return_packet};
ghost use Rattle.law_model.specs.Common.{told_by, told_in, return_at};
ghost use Rattle.law_model.specs.declared.control_packet.Packet.{Packet};
ghost use Rattle.law_model.specs.declared.script_types.Options.{Options};
ghost use Rattle.law_row.specs.Received.{HasPackets};

/// What the return packet that a sink makes of its cells tells the source, and what its nibbles tell, is what
/// the definition of a session says: where the return cells that the source was told are the session's, one
/// change bit stands for one count of changes, so that a line said last to the sink what it said last by the
/// source's table.
pub fn return_law()
    ensures told { (scenario : Scenario) (n k : ℕ) (cells : List (List Cell)) → 0 < scenario.lag →
        HasPackets scenario (cells_before scenario n) cells k →
        told_by (return_at scenario.options cells k)
        ≡ return_packet scenario (cells_before scenario n) k }
    ensures said { (scenario : Scenario) (n k : ℕ) (cells : List (List Cell)) → 0 < scenario.lag →
        HasPackets scenario (cells_before scenario n) cells k →
        told_in (Nibbles (packet_nibbles (return_at scenario.options cells k)))
        ≡ Some (return_packet scenario (cells_before scenario n) k) }
    ensures packet { (options : Options) (cells : List (List Cell)) (k : ℕ) →
        IsPacket (return_at options cells k) }
    ensures wire { (packet : Packet) → IsPacket packet →
        told_in (Nibbles (packet_nibbles packet)) ≡ Some (told_by packet) }
{}
