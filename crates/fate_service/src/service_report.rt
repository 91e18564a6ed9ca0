//! What is found of a walk that was seen, and the text that is written of it.
ghost use Rattle.std.specs.Prelude.{◌≡◌, ℕ, ◌+◌, ◌*◌, ◌<◌, ◌≤◌, ◌++◌, List, length, map, Option};
ghost use Rattle.std.specs.Prelude.{All, IfOk, OnOk, OnErr};
ghost use Rattle.std.specs.List.{flat_map, range_with_len};
ghost use Rattle.law_model.specs.Common.{Start, Appends, AppendsPart, leg_of, Scenario, scenario_by, IsWithin, Told};
ghost use Rattle.law_model.specs.Common.{width, most_lines, most_ticks};
ghost use Rattle.text_got.specs.TextSoFar.{HasText};
ghost use Rattle.law_walk.specs.Common.{session_of};
ghost use Rattle.fate_engine.specs.Common.{ArePackets, row_cause as cause_of, ended_of};
ghost use Rattle.fate_walks.specs.walk_fates.MadeWalk.{SeesWalk};
ghost use Rattle.fate_service.specs.declared.landed_frames.OfferedFrame.{OfferedFrame as OfferedData};
ghost use Rattle.fate_service.specs.FrameColumns.{carried_of};
ghost use Rattle.fate_service.specs.Outages.{losses as losses_of, next_first};
ghost use Rattle.fate_service.specs.Stretches.{told_on, spans_of, stretch_of};
ghost use Rattle.fate_service.specs.MemberRuns.{runs_of};
ghost use Rattle.fate_service.specs.Delays.{delays_of};
ghost use Rattle.fate_service.specs.Surveyed.{IsSurveyed, next_run, run_text};
ghost use Rattle.fate_service.specs.ServiceText.{members_text, outage_text, outages_text, stretch_text};
ghost use Rattle.fate_service.specs.ServiceText.{stretches_text, delays_text};
ghost use Rattle.fate_service.specs.ServiceText.{known_of, ends_of, last_text, service_text};

use crate::frame_delays::{find_delays, greatest_delay};
use crate::landed_frames::{LandedFrames, OfferedFrame, land_frames};
use crate::outages::{Outage, find_outages, losses};
use crate::row_states::{RowState, row_states};
use crate::service_text::{
    Ends, SERVICE_LINE_ROOM, delays_line, members_line, outage_line, service_line, stretch_line,
};
use crate::stretch_counts::count_stretch;
use crate::width_run::WidthRun;
use fate_engine::fate_core::{Packets, row_cause, starts_true};
use fate_walks::walk_fates::SeenWalk;
use octet_io::{ByteSink, Failed, take_back};
use std::alloc::{AllocError, Global};
use text_got::GotLines;
use walk_engine::walk_core::Walk;

/// What is found of a walk that was seen.
#[derive(Drop)]
pub struct Survey {
    /// The frames that have landed.
    pub landed: LandedFrames,
    /// What each of the taken rows is.
    pub states: Vec<RowState>,
    /// The outages, in order.
    pub outages: Vec<Outage>,
}

/// Finds all that the text needs, so that writing it takes no memory.
pub fn survey_walk(alloc: Global, walk: &Walk, seen: &SeenWalk) -> Result<Survey, AllocError>
    requires { SeesWalk (leg_of walk.now.script) walk.now.counts seen.now }
    ensures { IfOk result (IsSurveyed (leg_of walk.now.script) walk.now.counts) }
{
    let landed = land_frames(alloc, walk, seen)?;
    let states = row_states(alloc, seen)?;
    let outages = find_outages(alloc, &states)?;
    Ok(Survey {
        landed,
        states,
        outages,
    })
}

/// Writes the line of rows in which as many members carry payload.
fn write_run<K: ByteSink>(run: WidthRun, size: u16, got: &mut GotLines<K>)
    requires { run.members ≤ most_lines }
    ensures { (start : Start) (before : List ℕ) →
        HasText K.written K.faults got.old start before →
        HasText K.written K.faults got.new start (before ++ members_text size run) }
{
    let mut line = [0u8; SERVICE_LINE_ROOM];
    let end = members_line(run, size, &mut line);
    got.line(&line[..end]);
}

/// Goes on with a run by a row with its number of members; at another number its line is written, and the next
/// run begins.
fn add_row<K: ByteSink>(run: WidthRun, members: u32, size: u16, got: &mut GotLines<K>) -> WidthRun
    requires few { run.members ≤ most_lines }
    requires end { run.end < 4294967295 }
    ensures run { result ≡ next_run run members }
    ensures text { (start : Start) (before : List ℕ) →
        HasText K.written K.faults got.old start before →
        HasText K.written K.faults got.new start (before ++ run_text size run members) }
{
    if members == run.members {
        return WidthRun {
            first: run.first,
            end: run.end + 1,
            members,
        };
    }
    write_run(run, size, got);
    WidthRun {
        first: run.end,
        end: run.end + 1,
        members,
    }
}

/// Writes the lines of members, of so many rows.
fn write_members<K: ByteSink>(packets: &Packets, rows: u32, size: u16, got: &mut GotLines<K>)
    requires { rows ≤ 16 * length packets.now.active + 24 }
    ensures { (scenario : Scenario) (cells : List (Option Told)) →
        ArePackets scenario cells packets.now →
        (start : Start) (before : List ℕ) →
        HasText K.written K.faults got.old start before → HasText K.written K.faults got.new start
        (before ++ flat_map (members_text size)
        (runs_of (map (width scenario cells) (range_with_len 0 rows)))) }
{
    if rows == 0 {
        return;
    }
    let mut run = WidthRun {
        first: 0,
        end: 1,
        members: packets.width_in(0),
    };
    for row in 1..rows {
        run = add_row(run, packets.width_in(row), size, got);
    }
    write_run(run, size, got);
}

/// The first row of the first of some outages, or the number of rows where there is none.
fn first_of(outages: &[Outage], rows: u32) -> u32
    ensures { result ≡ next_first rows outages.now }
{
    match outages.first() {
        Some(next) => next.first,
        None => rows,
    }
}

/// Writes the line of an outage.
fn write_outage<K: ByteSink>(
    outage: Outage,
    end: u32,
    walk: &Walk,
    seen: &SeenWalk,
    survey: &Survey,
    got: &mut GotLines<K>,
)
    requires seen { SeesWalk (leg_of walk.now.script) walk.now.counts seen.now }
    requires survey { IsSurveyed (leg_of walk.now.script) walk.now.counts survey.now }
    requires within { outage.first < walk.now.counts.rows }
    ensures { (start : Start) (before : List ℕ) →
        HasText K.written K.faults got.old start before → HasText K.written K.faults got.new start
        (before ++ outage_text outage
        (losses_of (carried_of (ended_of (leg_of walk.now.script) walk.now.counts)) outage.first end)
        (cause_of (scenario_by (leg_of walk.now.script)) (session_of (leg_of walk.now.script)) outage.first)) }
{
    let lost = losses(&survey.landed.carried, outage.first, end);
    let windows = &walk.script().config.windows;
    let cause = row_cause(windows, &seen.rows.packets, outage.first);
    let mut line = [0u8; SERVICE_LINE_ROOM];
    let end = outage_line(outage, lost, cause, &mut line);
    got.line(&line[..end]);
}

/// Writes the lines of outages.
fn write_outages<K: ByteSink>(walk: &Walk, seen: &SeenWalk, survey: &Survey, got: &mut GotLines<K>)
    requires seen { SeesWalk (leg_of walk.now.script) walk.now.counts seen.now }
    requires survey { IsSurveyed (leg_of walk.now.script) walk.now.counts survey.now }
    ensures { (start : Start) (before : List ℕ) →
        HasText K.written K.faults got.old start before → HasText K.written K.faults got.new start
        (before ++ outages_text
        (cause_of (scenario_by (leg_of walk.now.script)) (session_of (leg_of walk.now.script)))
        (carried_of (ended_of (leg_of walk.now.script) walk.now.counts))
        walk.now.counts.rows survey.now.outages.items) }
{
    let rows = walk.totals().taken;
    for i in 0..survey.outages.len() {
        let end = first_of(&survey.outages[i + 1..], rows);
        write_outage(survey.outages[i], end, walk, seen, survey, got);
    }
}

/// How many ticks are told: those that were made, and one more where a frame landed before it.
fn told_ticks(ticks: u32, offered: &[OfferedFrame]) -> u32
    requires few { ticks ≤ most_ticks + 1 }
    requires early { All (λ (frame : OfferedData). frame.due < most_ticks) offered.now }
    ensures told { result ≡ told_on ticks offered.now }
    ensures few { result ≤ most_ticks + 1 }
{
    let mut told = ticks;
    for frame in offered {
        told = told.max(frame.due + 1);
    }
    told
}

/// Writes the line of a stretch.
fn write_stretch<K: ByteSink>(
    first: u32,
    end: u32,
    walk: &Walk,
    seen: &SeenWalk,
    survey: &Survey,
    got: &mut GotLines<K>,
)
    requires seen { SeesWalk (leg_of walk.now.script) walk.now.counts seen.now }
    requires survey { IsSurveyed (leg_of walk.now.script) walk.now.counts survey.now }
    ensures { (start : Start) (before : List ℕ) →
        HasText K.written K.faults got.old start before → HasText K.written K.faults got.new start
        (before ++ stretch_text first end
        (stretch_of (known_of (leg_of walk.now.script) walk.now.counts) first end)) }
{
    let counts = count_stretch(&survey.landed, &survey.states, walk, seen, first, end);
    let mut line = [0u8; SERVICE_LINE_ROOM];
    let end = stretch_line(first, end, counts, &mut line);
    got.line(&line[..end]);
}

/// Writes the lines of stretches.
fn write_stretches<K: ByteSink>(
    walk: &Walk,
    seen: &SeenWalk,
    survey: &Survey,
    interval: u32,
    told: u32,
    got: &mut GotLines<K>,
)
    requires seen { SeesWalk (leg_of walk.now.script) walk.now.counts seen.now }
    requires survey { IsSurveyed (leg_of walk.now.script) walk.now.counts survey.now }
    requires interval { IsWithin 1 most_ticks interval }
    requires told { told ≤ most_ticks + 1 }
    ensures { (start : Start) (before : List ℕ) →
        HasText K.written K.faults got.old start before → HasText K.written K.faults got.new start
        (before ++ stretches_text (known_of (leg_of walk.now.script) walk.now.counts)
        (spans_of interval told)) }
{
    let mut first = 0;
    while first < told {
        write_stretch(first, told.min(first + interval), walk, seen, survey, got);
        first += interval;
    }
}

/// Writes the line of delays, with the greatest one of a line.
fn write_delays<K: ByteSink>(survey: &Survey, path: u16, got: &mut GotLines<K>)
    requires { length survey.now.landed.carried.items < 4294967296 }
    ensures { (start : Start) (before : List ℕ) →
        HasText K.written K.faults got.old start before → HasText K.written K.faults got.new start
        (before ++ delays_text (delays_of survey.now.landed.carried.items) path) }
{
    let mut line = [0u8; SERVICE_LINE_ROOM];
    let end = delays_line(find_delays(&survey.landed.carried), path, &mut line);
    got.line(&line[..end]);
}

/// Writes the last line.
fn write_end<K: ByteSink>(
    walk: &Walk,
    seen: &SeenWalk,
    survey: &Survey,
    told: u32,
    got: &mut GotLines<K>,
)
    requires seen { SeesWalk (leg_of walk.now.script) walk.now.counts seen.now }
    requires survey { IsSurveyed (leg_of walk.now.script) walk.now.counts survey.now }
    ensures { (start : Start) (before : List ℕ) →
        HasText K.written K.faults got.old start before → HasText K.written K.faults got.new start
        (before ++ last_text told
        (stretch_of (known_of (leg_of walk.now.script) walk.now.counts) 0 told)
        (ends_of (leg_of walk.now.script) walk.now.counts)) }
{
    let totals = walk.totals();
    let counts = count_stretch(&survey.landed, &survey.states, walk, seen, 0, told);
    let ends = Ends {
        outages: survey.outages.len(),
        waits: survey.landed.waits,
        ticks: totals.ticks,
        taken: totals.taken,
        starts: starts_true(&seen.ruler, &seen.rows.segments),
    };
    let mut line = [0u8; SERVICE_LINE_ROOM];
    let end = service_line(told, counts, ends, &mut line);
    got.line(&line[..end]);
}

/// Writes what a walk was worth to its client, by stretches of so many ticks.
pub fn write_service<K: ByteSink>(
    walk: &Walk,
    seen: &SeenWalk,
    survey: &Survey,
    interval: u32,
    out: &mut K,
) -> Result<(), Failed>
    requires seen { SeesWalk (leg_of walk.now.script) walk.now.counts seen.now }
    requires survey { IsSurveyed (leg_of walk.now.script) walk.now.counts survey.now }
    requires interval { IsWithin 1 most_ticks interval }
    ensures ok { OnOk result (Appends K.written K.faults out.old out.new
        (service_text (leg_of walk.now.script) walk.now.counts interval)) }
    ensures err { OnErr result (AppendsPart K.written K.faults out.old out.new
        (service_text (leg_of walk.now.script) walk.now.counts interval)) }
{
    let totals = walk.totals();
    let told = told_ticks(totals.ticks, &survey.landed.offered);
    let config = &walk.script().config;
    let path = greatest_delay(&config.delays);
    let mut got = GotLines::new(out);
    write_members(&seen.rows.packets, totals.taken, config.size, &mut got);
    write_outages(walk, seen, survey, &mut got);
    write_stretches(walk, seen, survey, interval, told, &mut got);
    write_delays(survey, path, &mut got);
    write_end(walk, seen, survey, told, &mut got);
    let (back, end) = got.finish();
    take_back(back);
    end
}
