//! Which failures are told idle: for certain they spoil none of the rows that were taken.
ghost use Rattle.std.specs.Prelude.{◌≡◌, ◌+◌, ◌*◌, ◌<◌, ◌≤◌, List, [], length, slice_index_or, All, Option};
ghost use Rattle.law_model.specs.members.Damage.{AreWindows};
ghost use Rattle.law_model.specs.session.Scenario.{Scenario};
ghost use Rattle.law_model.specs.source.Table.{Told};
ghost use Rattle.fate_engine.specs.fate_core.Packets.{ArePackets};
ghost use Rattle.fate_check.specs.IdleWindows.{is_spared, is_idle};
ghost use Rattle.law_model.specs.Common.{most_ticks};

use crate::used_lines::{next_governed, used_lines};
use fate_engine::fate_core::{Packets, row_cause};
use law_model::{Options, Window, WindowLists};

/// How many rows after its end the last row lies that a failure can spoil.
const LAST_AFTER: u32 = 38;

/// Whether a failure of a line spares a row: the line carries no payload in it, and if none does, the row is
/// whole.
fn is_spared(windows: &WindowLists, packets: &Packets, row: u32, line: u8) -> bool
    requires apart { All (AreWindows 0) windows.now }
    requires governed { row < 16 * length packets.now.active + 24 }
    requires known { row < 16 * length packets.now.known + 24 }
    ensures { (scenario : Scenario) (cells : List (Option Told)) → scenario.windows ≡ windows.now →
        ArePackets scenario cells packets.now → result ≡ is_spared scenario cells line row }
{
    let used = used_lines(packets, row);
    if used.is_empty() {
        row_cause(windows, packets, row).is_none()
    } else {
        !used.contains(&line)
    }
}

/// Whether a failure of a line spares all of the first rows that it can spoil, and the sink doesn't go on.
pub(crate) fn is_idle(
    options: Options,
    windows: &WindowLists,
    packets: &Packets,
    rows: u32,
    line: u8,
    window: Window,
) -> bool
    requires apart { All (AreWindows 0) windows.now }
    requires few { rows ≤ most_ticks }
    requires governed { rows ≤ 16 * length packets.now.active + 24 }
    requires known { rows ≤ 16 * length packets.now.known + 24 }
    requires end { window.end ≤ most_ticks }
    ensures { (scenario : Scenario) (cells : List (Option Told)) → scenario.options ≡ options →
        scenario.windows ≡ windows.now → ArePackets scenario cells packets.now →
        result ≡ is_idle scenario cells rows line window }
{
    if options.infers {
        return false;
    }
    let end = rows.min(window.end + LAST_AFTER + 1);
    let mut row = window.first;
    while row < end {
        if !is_spared(windows, packets, row, line) {
            return false;
        }
        row = next_governed(row);
    }
    true
}

/// The failures of a line, which is one of those that are configured.
pub(crate) fn windows_of(windows: &WindowLists, line: u8) -> &[Window]
    requires { line < length windows.now }
    ensures { result.now ≡ slice_index_or windows.now line [] }
{
    &windows.0[usize::from(line)].0
}
