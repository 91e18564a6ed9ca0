//! Laws of the numbers of a line's cells: that they are the numbers of its containers, although cells vanish
//! and a number is sent modulo 4,096. It has no code of its own: each function is a theorem of the definitions
//! in `law_model`, which is its contract. Begin with `numbering_law`. How a sink locks on the multiframe, and
//! which number is decided when, are this project's own definitions: G.707 has the multiframe alone.
//! `reading_law` and `sight_law` say that what is computed of cells is what these definitions say in words, and
//! `stable_law` that more cells change nothing of what is decided.
#![tactic(auto)]

ghost use Rattle.law_line.specs.Numbering.{AreNumbered, AreAt, AreInStep, AreExpected, ArePackets, AreReadable};
ghost use Rattle.law_line.specs.Numbering.{AreRead};
ghost use Rattle.law_line.specs.Wording.{IsWorded, IsOnlyCount, AreWhole, AreDecided, EndDecides};
ghost use Rattle.law_line.specs.SightsAsWorded.{AreAtSights, AreLockingSights, AreUnknownSights};
ghost use Rattle.law_line.specs.StableVerdicts.{VerdictsStay, OctetsStay, CellsStay};
ghost use Rattle.law_line.specs.StableRows.{PacketsStay, GoverningStay, CarriersStay, RowsStay, ReturnsStay};
ghost use Rattle.law_line.specs.WorkedLines.{IsMet, AreSummed, AreSeventeen};

/// The cells of a line with windows of failures, whose slip is below 4,096, have the numbers of its containers.
pub fn numbering_law()
    ensures numbered { AreNumbered }
    ensures at { AreAt }
    ensures in_step { AreInStep }
    ensures due { AreExpected }
    ensures packets { ArePackets }
    ensures readable { AreReadable }
    ensures read { AreRead }
{}

/// The recursion over the cells of a line is what is worded of them, and nothing else is.
pub fn reading_law()
    ensures worded { IsWorded }
    ensures only { IsOnlyCount }
    ensures whole { AreWhole }
    ensures decided { AreDecided }
    ensures end { EndDecides }
{}

/// What is computed of each cell of a line is the one thing that this project words of it.
pub fn sight_law()
    ensures at { AreAtSights }
    ensures locks { AreLockingSights }
    ensures unknown { AreUnknownSights }
{}

/// What is decided of a line, and of all lines of a group, stays so.
pub fn stable_law()
    ensures verdicts { VerdictsStay }
    ensures octets { OctetsStay }
    ensures cells { CellsStay }
    ensures packets { PacketsStay }
    ensures governing { GoverningStay }
    ensures carriers { CarriersStay }
    ensures rows { RowsStay }
    ensures returns { ReturnsStay }
{}

/// There are lines as the law asks for. Of near windows the slips have to be summed, and windows are near up
/// to sixteen whole containers.
pub fn worked_law()
    ensures met { IsMet }
    ensures summed { AreSummed }
    ensures seventeen { AreSeventeen }
{}
