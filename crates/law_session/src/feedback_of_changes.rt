//! What the source may conclude from a return packet.

ghost use Rattle.std.specs.Prelude.{◌≡◌, ◌↔◌, ◌<◌, ◌≤◌, ℕ, Bool, true, Some, Contains};
ghost use Rattle.law_model.specs.Common.{Scenario, is_heard, said, kept_of, Told, table_of, told_at, cells_before};
ghost use Rattle.law_model.specs.Common.{active, is_read, last_read, was_member};
ghost use Rattle.law_session.specs.Feedback.{Takes, Acknowledges, TellsOf, SameLines, WasSaid, HaveOneChg};

/// A line that carries payload was last read as a member's: it stood among the members in the last of its packets
/// that could be read. So none that carries payload is missing among those that are read and those that are silent.
pub fn silent_law()
    ensures { (scenario : Scenario) (n k line : ℕ) → 0 < scenario.lag →
        Contains (active (table_of scenario (cells_before scenario n) k)) line →
        was_member scenario (cells_before scenario n) line (last_read (is_read scenario line) k) ≡ true }
{}

/// Feedback. By its one bit a return packet acknowledges the change that is out exactly where it tells of the
/// whole count of changes. Then each line still has the SQ that it had in the packet that was read, and each
/// status that a step acts on was said of that line, an OK by what this line said last. Where all packets that
/// are heard from one on have its change bit, its count of changes is the one that is said.
pub fn feedback_law()
    ensures whole_count { (scenario : Scenario) (n j k : ℕ) (told : Told) →
        Takes scenario (cells_before scenario n) j k told →
        Acknowledges scenario (cells_before scenario n) j told
        ↔ TellsOf scenario (cells_before scenario n) j k }
    ensures same_lines { (scenario : Scenario) (n j k : ℕ) (told : Told) →
        Takes scenario (cells_before scenario n) j k told →
        TellsOf scenario (cells_before scenario n) j k →
        SameLines scenario (cells_before scenario n) j k }
    ensures statuses { (scenario : Scenario) (n j sq : ℕ) (ok : Bool) → 0 < scenario.lag →
        kept_of (told_at scenario (cells_before scenario n) j) sq ≡ Some ok →
        WasSaid scenario (cells_before scenario n) j sq ok }
    ensures one_count { (scenario : Scenario) (n from k : ℕ) → 0 < scenario.lag → from ≤ k →
        is_heard scenario from ≡ true →
        HaveOneChg scenario (cells_before scenario n) from k ↔
        ((table_of scenario (cells_before scenario n) from).count
        ≡ said scenario (cells_before scenario n) k) }
{}
