//! A pair drains, and the report of each way is written.
ghost use Rattle.std.specs.Prelude.{◌≡◌, false, OnOk, OnErr};
ghost use Rattle.law_model.specs.Common.{Appends, AppendsPart};
ghost use Rattle.text_report.specs.ReportLines.{got_texts};
ghost use Rattle.law_walk.specs.Common.{delivered_of, report_of};
ghost use Rattle.text_got.specs.TextSoFar.{HasText, name_of, start_at};
ghost use Rattle.command_parts.specs.Common.{lent, WritesAll, WritesPart, writes_both};
ghost use Rattle.law_pair.specs.Common.{IsPair, counts_on, pair_begin, pair_round, pair_run, pair_drained};
ghost use Rattle.law_pair.specs.declared.pair_events.Way.TheVariants.{There as THERE, Back as BACK};
ghost use Rattle.pair_engine.specs.PairAfterEvent.{leg_on, plan_of, with_counts, GivesWay, MoreRows};
ghost use Rattle.pair_walk.specs.Rounds.{FailsOne, FewRows};
ghost use Rattle.text_pairs.specs.ReportsOfWays.{way_text};

use command_parts::write_rest;
use law_model::Silent;
use octet_io::{ByteSink, Failed, take_back};
use pair_engine::{Pair, PairEvent, Way};
use text_got::{GotLines, MayFail};

/// Makes a round, and writes what it delivers. Answers whether a write has failed; it is the last one. A row of one way
/// gives the other no frames, so the place of the other is left out.
fn write_round<F: MayFail, G: MayFail>(pair: &mut Pair, there: &mut F, back: &mut G) -> bool
    requires there { F.has_failed there.old ≡ false }
    requires back { G.has_failed back.old ≡ false }
    ensures scripts { pair.new ≡ with_counts pair.old pair.new.counts }
    ensures counts { result ≡ false → pair.new ≡ with_counts pair.old
        (pair_run (plan_of pair.old) pair.old.counts (pair_round (plan_of pair.old))) }
    ensures rises { MoreRows pair.old pair.new }
    ensures few { FewRows pair.old → FewRows pair.new }
    ensures gives_there { GivesWay F.stands_for there.old there.new pair.old pair.new THERE }
    ensures gives_back { GivesWay G.stands_for back.old back.new pair.old pair.new BACK }
    ensures failed { FailsOne result (F.has_failed there.new) (G.has_failed back.new) }
{
    pair.prepare();
    let _ = pair.step(PairEvent::Take(Way::There), there, &mut Silent);
    if there.failed() {
        return true;
    }
    let _ = pair.step(PairEvent::Take(Way::Back), &mut Silent, back);
    back.failed()
}

/// Makes rounds until all rows of both ways are taken, or a write fails. Answers whether one has failed.
fn write_rounds<F: MayFail, G: MayFail>(pair: &mut Pair, there: &mut F, back: &mut G) -> bool
    requires there { F.has_failed there.old ≡ false }
    requires back { G.has_failed back.old ≡ false }
    ensures scripts { pair.new ≡ with_counts pair.old pair.new.counts }
    ensures drained { result ≡ false → pair.new ≡ with_counts pair.old
        (pair_drained pair.old.there pair.old.back pair.old.counts) }
    ensures fits { IsPair pair.old.there pair.old.back }
    ensures few { FewRows pair.old → FewRows pair.new }
    ensures gives_there { GivesWay F.stands_for there.old there.new pair.old pair.new THERE }
    ensures gives_back { GivesWay G.stands_for back.old back.new pair.old pair.new BACK }
    ensures failed { FailsOne result (F.has_failed there.new) (G.has_failed back.new) }
{
    while !pair.is_over() {
        if write_round(pair, there, back) {
            return true;
        }
    }
    false
}

/// Writes the end of the report of a way, whose frames are written or wait. Answers where it was written, and whether
/// all of it was.
fn end_way<'a, K: ByteSink>(
    pair: &Pair,
    way: Way,
    mut got: GotLines<'a, K>,
) -> (&'a mut K, Result<(), Failed>)
    ensures name { (first : K) → HasText K.written K.faults got.entry
        (start_at K.written K.faults first (name_of got.entry))
        (got_texts (delivered_of (leg_on pair.now way) (counts_on pair.now.counts way).rows)) →
        result.0.ghost_name ≡ name_of got.entry }
    ensures ok { (first : K) → HasText K.written K.faults got.entry
        (start_at K.written K.faults first (name_of got.entry))
        (got_texts (delivered_of (leg_on pair.now way) (counts_on pair.now.counts way).rows)) →
        OnOk result.1 (Appends K.written K.faults first result.0.now
        (report_of (leg_on pair.now way) (counts_on pair.now.counts way))) }
    ensures err { (first : K) → HasText K.written K.faults got.entry
        (start_at K.written K.faults first (name_of got.entry))
        (got_texts (delivered_of (leg_on pair.now way) (counts_on pair.now.counts way).rows)) →
        OnErr result.1 (AppendsPart K.written K.faults first result.0.now
        (report_of (leg_on pair.now way) (counts_on pair.now.counts way))) }
{
    write_rest(pair.refusals(way), &pair.totals(way), &mut got);
    got.finish()
}

/// Makes a pair until all rows of both ways are taken, and writes the report of the way there on `out` and that of the
/// way back on `notes`. A write that fails, on either, is the last one.
pub fn write_pair<K: ByteSink, E: ByteSink>(
    pair: &mut Pair,
    out: &mut K,
    notes: &mut E,
) -> Result<(), Failed>
    requires begun { pair.old.counts ≡ pair_begin (plan_of pair.old) }
    ensures pair { OnOk result (pair.new ≡ with_counts pair.old
        (pair_drained pair.old.there pair.old.back pair.old.counts)) }
    ensures ok { OnOk result (WritesAll
        (lent K.written K.faults out.old out.new) (lent E.written E.faults notes.old notes.new)
        (writes_both (way_text pair.old.there pair.old.back)
        (way_text pair.old.back pair.old.there))) }
    ensures err { OnErr result (WritesPart
        (lent K.written K.faults out.old out.new) (lent E.written E.faults notes.old notes.new)
        (writes_both (way_text pair.old.there pair.old.back)
        (way_text pair.old.back pair.old.there))) }
{
    let mut there = GotLines::new(out);
    let mut back = GotLines::new(notes);
    if write_rounds(pair, &mut there, &mut back) {
        let lent_out = there.abandon();
        take_back(lent_out);
        let lent_notes = back.abandon();
        take_back(lent_notes);
        return Err(Failed);
    }
    let (lent_out, end) = end_way(pair, Way::There, there);
    take_back(lent_out);
    match end {
        Ok(()) => {
            let (lent_notes, last) = end_way(pair, Way::Back, back);
            take_back(lent_notes);
            last
        }
        Err(Failed) => {
            let lent_notes = back.abandon();
            take_back(lent_notes);
            Err(Failed)
        }
    }
}
