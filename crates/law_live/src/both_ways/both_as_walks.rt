//! Each way of a conversation goes as a walk, and a walk of both scripts begins as they did.

ghost use Rattle.std.specs.Prelude.{◌≡◌, List, ◌++◌};
ghost use Rattle.text_report.specs.ReportLines.{got_texts, refused_texts, total_text};
ghost use Rattle.law_model.specs.declared.script_types.Config.{Config};
ghost use Rattle.law_model.specs.declared.script_types.Script.{Script};
ghost use Rattle.law_walk.specs.Common.{IsWalked, delivered_of, final_report, numbered, totals_among};
ghost use Rattle.law_walk.specs.DeliveredFrames.{delivered_since};
ghost use Rattle.law_pair.specs.declared.pair_events.Way.{Way};
ghost use Rattle.law_pair.specs.declared.pair_events.Way.TheVariants.{There, Back};
ghost use Rattle.law_pair.specs.Common.{IsPair, counts_on};
ghost use Rattle.law_live.specs.Common.{IsPairNetwork, IsPairSaid, PairSaying, answers_on, frames_got, items_refused};
ghost use Rattle.law_live.specs.Common.{leg_on, pair_answers, pair_counts, script_on};

/// In each pair of scripts each way goes as a walk of its session, which has twice the lag: what is proved of those
/// holds of the frames that were answered. Of the scripts of what was said a walk that takes all rows reports the
/// frames that were answered first, and some more where rows were left; and just the items that were refused.
pub fn both_walk_law()
    ensures walks { (one other : Script) (said : List PairSaying) (way : Way) → IsPair one other →
        IsWalked (leg_on one other way) (counts_on (pair_counts one other said) way) }
    ensures first { (one other : Script) (said : List PairSaying) (way : Way) → IsPair one other →
        (let leg = leg_on one other way in
        let s = counts_on (pair_counts one other said) way in
        delivered_of leg leg.config.ticks
        ≡ frames_got (answers_on way (pair_answers one other said))
        ++ delivered_since leg s.rows leg.config.ticks) }
    ensures report { (there back : Config) (said : List PairSaying) (way : Way) →
        IsPairNetwork there back → IsPairSaid there back said →
        (let one = script_on there There said in let other = script_on back Back said in
        let leg = leg_on one other way in
        let s = counts_on (pair_counts one other said) way in
        let told = answers_on way (pair_answers one other said) in
        final_report leg
        ≡ got_texts (frames_got told ++ delivered_since leg s.rows leg.config.ticks)
        ++ refused_texts (items_refused told)
        ++ total_text
        (totals_among leg leg.config.ticks leg.config.ticks (numbered 0 leg.items))) }
{}
