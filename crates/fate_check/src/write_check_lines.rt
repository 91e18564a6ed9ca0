//! The text that is written of a walk: what in its script is unused, idle, early or refused.
ghost use Rattle.std.specs.Prelude.{◌≡◌, ℕ, ◌+◌, ◌*◌, ◌<◌, ◌≤◌, [], ◌∷◌, ◌++◌, List, length, OnOk, OnErr};
ghost use Rattle.std.specs.List.{flat_map};
ghost use Rattle.octet_io.specs.Start.{Start};
ghost use Rattle.octet_io.specs.Transfer.{Appends, AppendsPart};
ghost use Rattle.text_got.specs.TextSoFar.{HasText};
ghost use Rattle.law_model.specs.session.Leg.{leg_of};
ghost use Rattle.law_walk.specs.LandedOfLeg.{refusals_of};
ghost use Rattle.fate_walks.specs.walk_fates.MadeWalk.{SeesWalk};
ghost use Rattle.fate_check.specs.UsedLines.{unused_among, unused_lines};
ghost use Rattle.fate_check.specs.IdleWindows.{idle_among, idle_on, idle_windows};
ghost use Rattle.fate_check.specs.EarlyFrames.{payload_row, early_frames};
ghost use Rattle.fate_check.specs.CheckText.{unused_text, idle_texts, early_if_any, refused_items, last_text};
ghost use Rattle.fate_check.specs.CheckText.{check_text};
ghost use Rattle.law_model.specs.Common.{most_ticks};

use crate::check_lines::{
    CHECK_LINE_ROOM, Found, check_line, early_line, idle_line, refused_line, unused_line,
};
use crate::early_frames::count_early;
use crate::idle_windows::{is_idle, windows_of};
use crate::used_lines::{first_payload, is_unused};
use fate_walks::walk_fates::SeenWalk;
use law_model::Window;
use octet_io::{ByteSink, Failed, take_back};
use text_got::GotLines;
use walk_engine::walk_core::Walk;

/// How many rows were taken, whose packets were seen.
fn rows_taken(walk: &Walk, seen: &SeenWalk) -> u32
    requires { SeesWalk (leg_of walk.now.script) walk.now.counts seen.now }
    ensures rows { result ≡ walk.now.counts.rows }
    ensures few { result ≤ most_ticks }
    ensures governed { result ≤ 16 * length seen.now.rows.packets.active + 24 }
    ensures known { result ≤ 16 * length seen.now.rows.packets.known + 24 }
{
    walk.totals().taken
}

/// Writes the line of a line, if it carried payload in no row. Answers how many lines were written.
fn write_if_unused<K: ByteSink>(
    member: u8,
    walk: &Walk,
    seen: &SeenWalk,
    got: &mut GotLines<K>,
) -> u32
    requires { SeesWalk (leg_of walk.now.script) walk.now.counts seen.now }
    ensures text { (start : Start) (before : List ℕ) →
        HasText K.written K.faults got.old start before → HasText K.written K.faults got.new start
        (before ++ flat_map unused_text
        (unused_among (leg_of walk.now.script) walk.now.counts.rows (member ∷ []))) }
    ensures count { result
        ≡ length (unused_among (leg_of walk.now.script) walk.now.counts.rows (member ∷ [])) }
{
    let rows = rows_taken(walk, seen);
    if !is_unused(&seen.rows.packets, rows, member) {
        return 0;
    }
    let mut line = [0u8; CHECK_LINE_ROOM];
    let end = unused_line(member, &mut line);
    got.line(&line[..end]);
    1
}

/// Writes the lines of lines that carried payload in no row. Answers how many there are.
fn write_unused<K: ByteSink>(walk: &Walk, seen: &SeenWalk, got: &mut GotLines<K>) -> u32
    requires { SeesWalk (leg_of walk.now.script) walk.now.counts seen.now }
    ensures text { (start : Start) (before : List ℕ) →
        HasText K.written K.faults got.old start before → HasText K.written K.faults got.new start
        (before ++ flat_map unused_text
        (unused_lines (leg_of walk.now.script) walk.now.counts.rows)) }
    ensures count { result ≡ length (unused_lines (leg_of walk.now.script) walk.now.counts.rows) }
{
    let mut unused = 0;
    for member in 0..walk.script().config.lines {
        unused += write_if_unused(member, walk, seen, got);
    }
    unused
}

/// Writes the line of a failure of a line, if it is told idle. Answers how many lines were written.
fn write_if_idle<K: ByteSink>(
    member: u8,
    window: Window,
    walk: &Walk,
    seen: &SeenWalk,
    got: &mut GotLines<K>,
) -> u32
    requires seen { SeesWalk (leg_of walk.now.script) walk.now.counts seen.now }
    requires end { window.end ≤ most_ticks }
    ensures text { (start : Start) (before : List ℕ) →
        HasText K.written K.faults got.old start before → HasText K.written K.faults got.new start
        (before ++ idle_texts
        (idle_among (leg_of walk.now.script) walk.now.counts.rows member (window ∷ []))) }
    ensures count { result
        ≡ length (idle_among (leg_of walk.now.script) walk.now.counts.rows member (window ∷ [])) }
{
    let config = &walk.script().config;
    let rows = rows_taken(walk, seen);
    if !is_idle(
        config.options,
        &config.windows,
        &seen.rows.packets,
        rows,
        member,
        window,
    ) {
        return 0;
    }
    let mut line = [0u8; CHECK_LINE_ROOM];
    let end = idle_line(member, window, &mut line);
    got.line(&line[..end]);
    1
}

/// Writes the lines of the failures of a line that are told idle. Answers how many there are.
fn write_idle_on<K: ByteSink>(
    member: u8,
    walk: &Walk,
    seen: &SeenWalk,
    got: &mut GotLines<K>,
) -> u32
    requires seen { SeesWalk (leg_of walk.now.script) walk.now.counts seen.now }
    requires there { member < walk.now.script.config.lines }
    ensures text { (start : Start) (before : List ℕ) →
        HasText K.written K.faults got.old start before → HasText K.written K.faults got.new start
        (before ++ idle_texts (idle_on (leg_of walk.now.script) walk.now.counts.rows member)) }
    ensures count { result
        ≡ length (idle_on (leg_of walk.now.script) walk.now.counts.rows member) }
    ensures few { result ≤ 256 }
{
    let windows = windows_of(&walk.script().config.windows, member);
    let mut idle = 0;
    for window in windows {
        idle += write_if_idle(member, *window, walk, seen, got);
    }
    idle
}

/// Writes the lines of failures that are told idle. Answers how many there are.
fn write_idle<K: ByteSink>(walk: &Walk, seen: &SeenWalk, got: &mut GotLines<K>) -> u32
    requires { SeesWalk (leg_of walk.now.script) walk.now.counts seen.now }
    ensures text { (start : Start) (before : List ℕ) →
        HasText K.written K.faults got.old start before → HasText K.written K.faults got.new start
        (before ++ idle_texts (idle_windows (leg_of walk.now.script) walk.now.counts.rows)) }
    ensures count { result ≡ length (idle_windows (leg_of walk.now.script) walk.now.counts.rows) }
{
    let mut idle = 0;
    for member in 0..walk.script().config.lines {
        idle += write_idle_on(member, walk, seen, got);
    }
    idle
}

/// Writes the line of accepted frames that are due before the first taken row in which a line carried payload,
/// if there are any. Answers how many there are.
fn write_early<K: ByteSink>(walk: &Walk, seen: &SeenWalk, got: &mut GotLines<K>) -> u32
    requires { SeesWalk (leg_of walk.now.script) walk.now.counts seen.now }
    ensures text { (start : Start) (before : List ℕ) →
        HasText K.written K.faults got.old start before → HasText K.written K.faults got.new start
        (before ++ early_if_any (length (early_frames (leg_of walk.now.script) walk.now.counts))
        (payload_row (leg_of walk.now.script) walk.now.counts)) }
    ensures count { result ≡ length (early_frames (leg_of walk.now.script) walk.now.counts) }
{
    let row = first_payload(&seen.rows.packets, rows_taken(walk, seen));
    let early = count_early(walk, row);
    if early == 0 {
        return 0;
    }
    let mut line = [0u8; CHECK_LINE_ROOM];
    let end = early_line(early, row, &mut line);
    got.line(&line[..end]);
    early
}

/// Writes the lines of items that were refused. Answers how many there are.
fn write_refused<K: ByteSink>(walk: &Walk, got: &mut GotLines<K>) -> u32
    ensures text { (start : Start) (before : List ℕ) →
        HasText K.written K.faults got.old start before → HasText K.written K.faults got.new start
        (before ++ refused_items (refusals_of (leg_of walk.now.script) walk.now.counts)) }
    ensures count { result ≡ length (refusals_of (leg_of walk.now.script) walk.now.counts) }
{
    let mut refusals = walk.landing().refusals();
    let mut line = [0u8; CHECK_LINE_ROOM];
    while let Some((item, why)) = refusals.next() {
        let end = refused_line(item, why, &mut line);
        got.line(&line[..end]);
    }
    walk.totals().refused
}

/// Writes the last line.
fn write_end<K: ByteSink>(found: Found, got: &mut GotLines<K>)
    ensures { (start : Start) (before : List ℕ) →
        HasText K.written K.faults got.old start before →
        HasText K.written K.faults got.new start (before ++ last_text found) }
{
    let mut line = [0u8; CHECK_LINE_ROOM];
    let end = check_line(found, &mut line);
    got.line(&line[..end]);
}

/// Writes what in the script of a walk is unused, idle, early or refused.
pub fn write_check<K: ByteSink>(walk: &Walk, seen: &SeenWalk, out: &mut K) -> Result<(), Failed>
    requires { SeesWalk (leg_of walk.now.script) walk.now.counts seen.now }
    ensures ok { OnOk result (Appends K.written K.faults out.old out.new
        (check_text (leg_of walk.now.script) walk.now.counts)) }
    ensures err { OnErr result (AppendsPart K.written K.faults out.old out.new
        (check_text (leg_of walk.now.script) walk.now.counts)) }
{
    let mut got = GotLines::new(out);
    let unused = write_unused(walk, seen, &mut got);
    let idle = write_idle(walk, seen, &mut got);
    let early = write_early(walk, seen, &mut got);
    let refused = write_refused(walk, &mut got);
    let found = Found {
        unused,
        idle,
        early,
        refused,
    };
    write_end(found, &mut got);
    let (back, end) = got.finish();
    take_back(back);
    end
}
