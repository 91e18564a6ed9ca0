//! The end of a report, behind the lines of delivered frames.
ghost use Rattle.std.specs.Prelude.{ℕ, List, ◌++◌};
ghost use Rattle.text_report.specs.ReportLines.{refused_texts, total_text};
ghost use Rattle.law_model.specs.Common.{Start};
ghost use Rattle.text_got.specs.TextSoFar.{HasText};

use law_model::Totals;
use octet_io::ByteSink;
use terminal_group::Refusals;
use text_got::GotLines;
use text_report::{REFUSED_ROOM, TOTAL_ROOM, refused_line, total_line};

/// Writes the lines of refused items.
fn write_refusals<K: ByteSink>(refusals: Refusals<'_>, got: &mut GotLines<K>)
    ensures { (start : Start) (before : List ℕ) →
        HasText K.written K.faults got.old start before →
        HasText K.written K.faults got.new start (before ++ refused_texts refusals.entry) }
{
    let mut left = refusals;
    let mut line = [0u8; REFUSED_ROOM];
    while let Some((item, why)) = left.next() {
        let end = refused_line(item, &why, &mut line);
        got.line(&line[..end]);
    }
}

/// Writes what follows the lines of delivered frames: those of refused items, each with its number, and that of totals.
pub fn write_rest<K: ByteSink>(refusals: Refusals<'_>, totals: &Totals, got: &mut GotLines<K>)
    ensures { (start : Start) (before : List ℕ) →
        HasText K.written K.faults got.old start before →
        HasText K.written K.faults got.new start
        (before ++ refused_texts refusals.entry ++ total_text totals.now) }
{
    write_refusals(refusals, got);
    let mut line = [0u8; TOTAL_ROOM];
    let end = total_line(totals, &mut line);
    got.line(&line[..end]);
}
