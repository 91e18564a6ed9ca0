//! The text of all lines.
ghost use Rattle.std.specs.Prelude.{◌≡◌, ◌<◌, ◌↔◌, length, OnOk, OnErr, IsTrue};
ghost use Rattle.law_model.specs.Common.{Appends, AppendsPart, longest_input};
ghost use Rattle.law_rates.specs.Rates.{IsRate};
ghost use Rattle.text_scripts.specs.rate_load.RateTexts.{rate_text};

use crate::rate_load::frame_line::{frame_line, line_start};
use law_rates::{LONGEST_FRAME, Rate, RateCursor, RatePlace};
use octet_io::{ByteSink, Failed, put_all};

/// The most octets of a text that can be read again.
pub(crate) const LONGEST: u64 = 67_108_864;

/// Room for the line of a frame.
const LINE_ROOM: usize = 19_264;

/// Whether the text has more than 67,108,864 octets. None of it is made.
pub fn is_too_long(rate: &Rate) -> bool
    requires { IsRate rate.now }
    ensures { IsTrue result ↔ (longest_input < length (rate_text rate.now)) }
{
    let mut start = [0u8; 64];
    let mut total = 0;
    let mut place = RatePlace::first(rate);
    while let Some(due) = place.due(rate) {
        let end = line_start(due, &mut start);
        total += end as u64 + 2 * u64::from(place.size(rate)) + 1;
        if total > LONGEST {
            return true;
        }
        place = place.after(rate);
    }
    false
}

/// Writes the text, line by line.
pub fn write_lines<K: ByteSink>(rate: &Rate, out: &mut K) -> Result<(), Failed>
    requires { IsRate rate.now }
    ensures ok { OnOk result (Appends K.written K.faults out.old out.new (rate_text rate.now)) }
    ensures err { OnErr result (AppendsPart K.written K.faults out.old out.new (rate_text rate.now)) }
{
    let mut cursor = RateCursor::new(rate);
    let mut frame = [0u8; LONGEST_FRAME];
    let mut line = [0u8; LINE_ROOM];
    while let Some((due, size)) = cursor.next(&mut frame) {
        let end = frame_line(due, &frame[..size], &mut line);
        match put_all(out, &line[..end]) {
            Ok(()) => {}
            Err(Failed) => return Err(Failed),
        }
    }
    Ok(())
}
