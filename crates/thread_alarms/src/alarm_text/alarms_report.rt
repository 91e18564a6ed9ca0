//! The lines of alarms are written, those of the first line of the group first.
ghost use Rattle.std.specs.Prelude.{ℕ, List, [], ◌∷◌, ◌++◌};
ghost use Rattle.law_model.specs.Common.{Start};
ghost use Rattle.text_got.specs.TextSoFar.{HasText};
ghost use Rattle.thread_alarms.specs.alarm_log.Alarms.{of_line};
ghost use Rattle.thread_alarms.specs.alarm_text.AlarmTextLines.{alarm_texts, lines_text};

use crate::alarm_text::text_of_alarm::{ALARM_ROOM, alarm_line};
use octet_io::ByteSink;
use text_got::GotLines;
use thread_rings::Alarm;

/// Writes an alarm, where it is of this line of the group.
#[tactic(auto, using(crate::proofs::AlarmsByPostAndLineLaws::own_text, crate::proofs::AlarmsByPostAndLineLaws::other_text))]
fn write_one<K: ByteSink>(line: u8, alarm: &Alarm, got: &mut GotLines<K>)
    ensures { (start : Start) (before : List ℕ) →
        HasText K.written K.faults got.old start before →
        HasText K.written K.faults got.new start
        (before ++ alarm_texts (of_line line (alarm.now ∷ []))) }
{
    if alarm.line == line {
        let mut text = [0u8; ALARM_ROOM];
        let end = alarm_line(alarm, &mut text);
        got.line(&text[..end]);
    }
}

/// Writes the alarms of one line of the group, in their order.
fn write_line<K: ByteSink>(line: u8, alarms: &[Alarm], got: &mut GotLines<K>)
    ensures { (start : Start) (before : List ℕ) →
        HasText K.written K.faults got.old start before →
        HasText K.written K.faults got.new start (before ++ alarm_texts (of_line line alarms.now)) }
{
    for alarm in alarms {
        write_one(line, alarm, got);
    }
}

/// Writes the alarms of so many lines of a group, a line of text for each: those of line 0 in their order,
/// then those of line 1, and so on.
pub fn write_alarms<K: ByteSink>(lines: u8, alarms: &[Alarm], got: &mut GotLines<K>)
    ensures { (start : Start) (before : List ℕ) →
        HasText K.written K.faults got.old start before →
        HasText K.written K.faults got.new start (before ++ lines_text lines alarms.now) }
{
    for line in 0..lines {
        write_line(line, alarms, got);
    }
}
