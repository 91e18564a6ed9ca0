//! The line of an alarm.
ghost use Rattle.std.specs.Prelude.{◌≡◌, ◌≤◌, length, take};
ghost use Rattle.thread_alarms.specs.alarm_text.AlarmTextLines.{kind_text, alarm_text};

use text_report::TextCursor;
use thread_rings::{Alarm, AlarmKind};

/// Room for the line of an alarm.
pub(crate) const ALARM_ROOM: usize = 64;

/// What an alarm says, as a word.
fn kind_word(kind: AlarmKind) -> &'static [u8]
    ensures word { result.now ≡ kind_text kind }
    ensures short { length result.now ≤ 7 }
{
    match kind {
        AlarmKind::Fails => b"fails",
        AlarmKind::Returns => b"returns",
        AlarmKind::Ends => b"ends",
    }
}

/// Puts the line of an alarm together at the front of `out`. Answers how many octets it has.
pub(crate) fn alarm_line(alarm: &Alarm, out: &mut [u8]) -> usize
    requires room { 64 ≤ length out.old }
    ensures within { result ≤ 64 }
    ensures line { take result out.new ≡ alarm_text alarm.now }
{
    let mut line = TextCursor::new(out);
    line.text(b"alarm ");
    line.decimal(alarm.line);
    line.text(b" ");
    line.decimal(alarm.place);
    line.text(b" ");
    line.text(kind_word(alarm.kind));
    line.text(b"\n");
    line.end()
}
