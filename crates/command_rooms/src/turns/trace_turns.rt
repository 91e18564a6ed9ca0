//! What the event lines of a script say is made, and what comes of it is written: the lines of delivered
//! frames, of refused items and of totals, and after each decision step its line on `notes`.
ghost use Rattle.std.specs.Prelude.{◌≡◌, ◌+◌, ◌-◌, ◌≤◌, ◌<◌, ℕ, List, ◌++◌, OnOk, OnErr};
ghost use Rattle.octet_io.specs.Transfer.{Appends, AppendsPart};
ghost use Rattle.law_model.specs.session.Leg.{leg_of};
ghost use Rattle.law_model.specs.session.ValidScript.{IsValid};
ghost use Rattle.law_model.specs.session.Scenario.{steps_in};
ghost use Rattle.law_model.specs.session.Counts.{begin};
ghost use Rattle.octet_io.specs.Start.{Start};
ghost use Rattle.law_walk.specs.Walk.{walk_plan};
ghost use Rattle.law_walk.specs.LandedOfLeg.{refusals_of, totals_of};
ghost use Rattle.text_report.specs.ReportLines.{refused_texts, total_text};
ghost use Rattle.text_got.specs.TextSoFar.{HasText, name_of};
ghost use Rattle.command_rooms.specs.HandedWalk.{StopsBoth};
ghost use Rattle.law_headline.specs.WalkTexts.{counts_in, walk_text};
ghost use Rattle.command_rooms.specs.commands.Trace.{decision_text, decisions_text, trace_text};
ghost use Rattle.command_rooms.specs.TracedWalk.{HasRows, IsTold, HasTraced, untold};
ghost use Rattle.walk_engine.specs.walk_core.WalkAfterEvent.{Walked};
ghost use Rattle.law_model.specs.Common.{most_lines};

use crate::turns::ready_walk::LinesAndTicks;
use crate::turns::watched_turns::{Turn, Watcher, drive, make_turn};
use law_model::{EventLine, Silent};
use octet_io::{ByteSink, Failed, put_all, take_back};
use std::convert::Infallible;
use text_captures::packet_trace::{TRACE_ROOM, trace_line};
use text_got::{GotLines, MayFail};
use walk_engine::walk_core::{Walk, is_step};

/// Writes the line of the last decision step.
fn tell_step<E: ByteSink>(walk: &Walk, lines: u8, notes: &mut E) -> Result<(), Failed>
    requires few { lines ≤ most_lines }
    requires lines { lines ≡ walk.now.script.config.lines }
    requires some { 0 < steps_in walk.now.counts.ticks }
    ensures ok { let step = steps_in walk.now.counts.ticks - 1 in
        OnOk result (Appends E.written E.faults notes.old notes.new
        (decision_text walk.now.script step)) }
    ensures err { let step = steps_in walk.now.counts.ticks - 1 in
        OnErr result (AppendsPart E.written E.faults notes.old notes.new
        (decision_text walk.now.script step)) }
{
    let Some(note) = walk.live().last_step() else {
        return Ok(());
    };
    let mut line = [0u8; TRACE_ROOM];
    let end = trace_line(
        note.packet,
        note.back,
        walk.live().way().table(),
        lines,
        &mut line,
    );
    put_all(notes, &line[..end])
}

/// Writes the line of the decision step that was made since a number of ticks, where one was.
fn tell_since<E: ByteSink>(walk: &Walk, ticks: u32, lines: u8, notes: &mut E) -> Result<(), Failed>
    requires few { lines ≤ most_lines }
    requires lines { lines ≡ walk.now.script.config.lines }
    requires least { ticks ≤ walk.now.counts.ticks }
    requires most { walk.now.counts.ticks ≤ ticks + 1 }
    ensures ok { (first : E) →
        Appends E.written E.faults first notes.old (decisions_text walk.now.script ticks) →
        OnOk result (Appends E.written E.faults first notes.new
        (decisions_text walk.now.script walk.now.counts.ticks)) }
    ensures err { (first : E) →
        Appends E.written E.faults first notes.old (decisions_text walk.now.script ticks) →
        OnErr result (AppendsPart E.written E.faults first notes.new
        (decisions_text walk.now.script walk.now.counts.ticks)) }
{
    if is_step(ticks, walk.totals().ticks) {
        tell_step(walk, lines, notes)
    } else {
        Ok(())
    }
}

/// Tells what came of a turn, after a number of ticks. Answers whether a write has failed.
fn tell_turn<K: ByteSink, E: ByteSink>(
    walk: &Walk,
    ticks: u32,
    lines: u8,
    got: &GotLines<K>,
    notes: &mut E,
) -> bool
    requires few { lines ≤ most_lines }
    requires lines { lines ≡ walk.now.script.config.lines }
    requires least { ticks ≤ walk.now.counts.ticks }
    requires most { walk.now.counts.ticks ≤ ticks + 1 }
    ensures { (start : Start) (first : E) →
        HasRows K.written K.faults got.now start walk.now walk.now.counts.rows →
        Appends E.written E.faults first notes.old (decisions_text walk.now.script ticks) →
        IsTold K.written K.faults E.written E.faults result start first
        got.now notes.new walk.now }
{
    if got.failed() {
        return true;
    }
    match tell_since(walk, ticks, lines, notes) {
        Ok(()) => false,
        Err(Failed) => true,
    }
}

/// Writes the lines of the frames of a walk, and on `notes` that of each decision step, up to the first write that
/// fails.
struct Tracer<'a, 'b, K, E> {
    got: GotLines<'a, K>,
    notes: &'b mut E,
    lines: u8,
    over: bool,
}

impl<'a, 'b, K: ByteSink, E: ByteSink> Tracer<'a, 'b, K, E> {
    /// Nothing was written, of the walk of a script with so many lines.
    fn new(out: &'a mut K, notes: &'b mut E, lines: u8) -> Tracer<'a, 'b, K, E>
        ensures out { name_of result.got ≡ out.entry.ghost_name }
        ensures notes { result.notes.ghost_name ≡ notes.entry.ghost_name }
        ensures begun { (walk : Walked) → walk.counts ≡ begin (walk_plan (leg_of walk.script)) →
            lines ≡ walk.script.config.lines →
            HasTraced K.written K.faults E.written E.faults result
            (untold K.written K.faults result out.old notes.old) walk }
    {
        Tracer {
            got: GotLines::new(out),
            notes,
            lines,
            over: false,
        }
    }
}

impl<'a, 'b, K: ByteSink, E: ByteSink> Watcher for Tracer<'a, 'b, K, E> {
    type Fault = Infallible;

    ghost use Rattle.command_rooms.specs.TracedWalk.{Untold, HasTraced};

    ghost Before = { Untold E };

    ghost has_seen = { λ tracer before walk.
        HasTraced K.written K.faults E.written E.faults tracer before walk };

    fn turn(&mut self, walk: &mut Walk, turn: Turn) -> Result<(), Infallible> {
        if self.over {
            make_turn(walk, turn, &mut Silent);
            return Ok(());
        }
        let ticks = walk.totals().ticks;
        make_turn(walk, turn, &mut self.got);
        self.over = tell_turn(walk, ticks, self.lines, &self.got, self.notes);
        Ok(())
    }
}

/// Writes what follows the lines of delivered frames: those of refused items, and that of totals.
pub(crate) fn write_rest<K: ByteSink>(walk: &Walk, got: &mut GotLines<K>)
    ensures { (start : Start) (before : List ℕ) →
        HasText K.written K.faults got.old start before →
        HasText K.written K.faults got.new start
        (before ++ refused_texts (refusals_of (leg_of walk.now.script) walk.now.counts)
        ++ total_text (totals_of (leg_of walk.now.script) walk.now.counts)) }
{
    command_parts::write_rest(walk.landing().refusals(), &walk.totals(), got);
}

/// Makes a walk, and writes what comes of it and its trace.
pub(crate) fn write_trace<K: ByteSink, E: ByteSink>(
    walk: &mut Walk,
    lines: &[EventLine],
    size: LinesAndTicks,
    out: &mut K,
    notes: &mut E,
) -> Result<(), Failed>
    requires valid { IsValid walk.old.script }
    requires events { lines.now ≡ walk.old.script.events }
    requires begun { walk.old.counts ≡ begin (walk_plan (leg_of walk.old.script)) }
    requires lines { size.lines ≡ walk.old.script.config.lines }
    requires ticks { size.ticks ≡ walk.old.script.config.ticks }
    ensures script { walk.new.script ≡ walk.old.script }
    ensures counts { walk.new.counts ≡ counts_in walk.old.script }
    ensures walked { OnOk result
        (Appends K.written K.faults out.old out.new (walk_text walk.old.script)) }
    ensures traced { OnOk result
        (Appends E.written E.faults notes.old notes.new (trace_text walk.old.script)) }
    ensures err { OnErr result
        (StopsBoth K.written K.faults out.old out.new (walk_text walk.old.script)
        E.written E.faults notes.old notes.new (trace_text walk.old.script)) }
{
    let mut tracer = Tracer::new(out, notes, size.lines);
    let Ok(()) = drive(walk, lines, size.ticks, &mut tracer);
    let Tracer {
        mut got,
        notes,
        lines: _,
        over,
    } = tracer;
    take_back(notes);
    if over {
        let back = got.abandon();
        take_back(back);
        return Err(Failed);
    }
    write_rest(walk, &mut got);
    let (back, end) = got.finish();
    take_back(back);
    end
}
