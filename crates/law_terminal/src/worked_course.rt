//! A worked session, computed.

ghost use Rattle.std.specs.Prelude.{◌≡◌, [], ◌∷◌, take};
ghost use Rattle.law_model.specs.Common.{session_cells};
ghost use Rattle.law_terminal.specs.SessionLines.{HasLines};
ghost use Rattle.law_terminal.specs.Course.{told_of};
ghost use Rattle.law_terminal.specs.WorkedSession.{two_lines, h4_from, no_packet, first_added, first_in_use};
ghost use Rattle.law_terminal.specs.WorkedSession.{second_added};
ghost use Rattle.law_terminal.specs.WorkedSession.{first_told, first_cells, dealt};

/// A worked session that meets what is asked, computed: H4 octets, what the sink tells of the first cells,
/// and a row that is dealt.
pub fn worked_law()
    ensures met { HasLines two_lines }
    ensures zeros { h4_from 0 0 8 ≡ no_packet }
    ensures add { h4_from 0 8 16 ≡ first_added }
    ensures eos { h4_from 0 40 16 ≡ first_in_use }
    ensures add_second { h4_from 1 40 16 ≡ second_added }
    ensures told { told_of two_lines first_cells 1 ≡ first_told }
    ensures cells { take 1 (session_cells two_lines) ≡ first_told }
    ensures first { dealt 1 ≡ 10 ∷ 12 ∷ 0 ∷ 0 ∷ [] }
    ensures second { dealt 0 ≡ 11 ∷ 13 ∷ 0 ∷ 0 ∷ [] }
{}
