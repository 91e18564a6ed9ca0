//! Legs that meet what the laws ask, and worked walks.

ghost use Rattle.std.specs.Prelude.{◌≡◌, true, false};
ghost use Rattle.law_model.specs.Common.{IsSound, scenario_by};
ghost use Rattle.law_session.specs.LineInUse.{AddsUndamaged, AddsAmongSilent};
ghost use Rattle.law_walk.specs.DeliveredFrames.{delivered_of};
ghost use Rattle.law_walk.specs.WalkReport.{report_of};
ghost use Rattle.law_walk.specs.WorkedLegs.{worked_leg, three_landed, at_the_end, first_refusals, all_refusals};
ghost use Rattle.law_walk.specs.WorkedLegs.{first_totals, all_totals, two_frames, worked_report, delivering_leg};
ghost use Rattle.law_walk.specs.WorkedLegs.{one_frame, failing_leg, seen_rows, seen_whole, whole_rows, silent_leg};
ghost use Rattle.law_walk.specs.WorkedLegs.{near_leg, near_rows, near_whole};
ghost use Rattle.law_walk.specs.Promise.{accepted_frames, ConfirmsTrue, FailsAlone};
ghost use Rattle.law_walk.specs.LandedOfLeg.{refusals_of, totals_of};

/// Legs that meet what `failure_law`, `member_law` and `near_law` ask. In one, whose only line fails, what is
/// confirmed after each break is the place of a piece, and the line was added undamaged before that; in another a
/// line is added beside one of which nothing arrives; and in one a container of one of two lines fails alone.
pub fn met_law()
    ensures failing { IsSound failing_leg }
    ensures starts { ConfirmsTrue failing_leg failing_leg.config.ticks }
    ensures undamaged { AddsUndamaged (scenario_by failing_leg) 0 0 }
    ensures silent { IsSound silent_leg }
    ensures others_silent { AddsAmongSilent (scenario_by silent_leg) 1 1 }
    ensures near { IsSound (near_leg true) }
    ensures alone { FailsAlone (near_leg true) 1 914 }
{}

/// Worked legs, computed: what is refused, counted, accepted and reported; a frame that is delivered; which rows
/// a failure of three containers spoils; and which one of container 900, where the sink goes on, 900 to 913, and
/// where it stops, 900 to 935.
pub fn worked_law()
    ensures first_refusals { refusals_of worked_leg three_landed ≡ first_refusals }
    ensures first_totals { totals_of worked_leg three_landed ≡ first_totals }
    ensures refusals { refusals_of worked_leg at_the_end ≡ all_refusals }
    ensures totals { totals_of worked_leg at_the_end ≡ all_totals }
    ensures accepted { accepted_frames worked_leg ≡ two_frames }
    ensures report { report_of worked_leg at_the_end ≡ worked_report }
    ensures delivered { delivered_of delivering_leg 41 ≡ one_frame }
    ensures spoiled { whole_rows failing_leg seen_rows ≡ seen_whole }
    ensures inferred { whole_rows (near_leg true) near_rows ≡ near_whole 14 }
    ensures stopped { whole_rows (near_leg false) near_rows ≡ near_whole 36 }
{}
