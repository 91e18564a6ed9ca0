//! Which lines carry payload in the rows that were taken.
ghost use Rattle.std.specs.Prelude.{◌≡◌, ℕ, ◌+◌, ◌*◌, ◌<◌, ◌≤◌, List, length, Option};
ghost use Rattle.law_model.specs.session.Scenario.{Scenario};
ghost use Rattle.law_model.specs.source.Table.{Told};
ghost use Rattle.fate_engine.specs.fate_core.Packets.{ArePackets};
ghost use Rattle.fate_check.specs.UsedLines.{used_lines, is_unused, first_payload, AreAlike};
ghost use Rattle.law_model.specs.Common.{most_ticks};

use fate_engine::fate_core::Packets;

/// The first row that a packet governs.
const FIRST: u32 = 24;

/// The rows that each packet governs.
const ROWS: u32 = 16;

/// The lines that carry payload in a row.
pub(crate) fn used_lines(packets: &Packets, row: u32) -> &[u8]
    requires { row < 16 * length packets.now.active + 24 }
    ensures { (scenario : Scenario) (cells : List (Option Told)) →
        ArePackets scenario cells packets.now → result.now ≡ used_lines scenario cells row }
{
    if row < FIRST {
        return &[];
    }
    packets.active(((row - FIRST) / ROWS) as usize)
}

/// The first row after a row that isn't governed by the same packet.
pub(crate) fn next_governed(row: u32) -> u32
    requires { row ≤ most_ticks }
    ensures later { row < result }
    ensures alike { (t : ℕ) → row ≤ t → t < result → AreAlike t row }
{
    if row < FIRST {
        FIRST
    } else {
        row + ROWS - (row - FIRST) % ROWS
    }
}

/// Whether a line carries payload in none of the first rows.
pub(crate) fn is_unused(packets: &Packets, rows: u32, line: u8) -> bool
    requires few { rows ≤ most_ticks }
    requires governed { rows ≤ 16 * length packets.now.active + 24 }
    ensures { (scenario : Scenario) (cells : List (Option Told)) →
        ArePackets scenario cells packets.now → result ≡ is_unused scenario cells rows line }
{
    let mut row = 0;
    while row < rows {
        if used_lines(packets, row).contains(&line) {
            return false;
        }
        row = next_governed(row);
    }
    true
}

/// The first of the first rows in which a line carries payload.
pub(crate) fn first_payload(packets: &Packets, rows: u32) -> Option<u32>
    requires few { rows ≤ most_ticks }
    requires governed { rows ≤ 16 * length packets.now.active + 24 }
    ensures { (scenario : Scenario) (cells : List (Option Told)) →
        ArePackets scenario cells packets.now → result ≡ first_payload scenario cells rows }
{
    let mut row = 0;
    while row < rows {
        if !used_lines(packets, row).is_empty() {
            return Some(row);
        }
        row = next_governed(row);
    }
    None
}
