//! Why a row isn't whole.
ghost use Rattle.std.specs.Prelude.{◌≡◌, ◌+◌, ◌-◌, ◌*◌, ◌^◌, ◌<◌, ◌≤◌, length, List, All, Option};
ghost use Rattle.std.specs.List.{list_any};
ghost use Rattle.law_model.specs.Common.{AreWindows, Scenario, Told, is_readable, lock_of, most_packets};
ghost use Rattle.law_model.specs.members.Damage.{carried};
ghost use Rattle.fate_engine.specs.fate_law.RowCauses.{row_cause as cause_of, lesser as lesser_of, least_failing};
ghost use Rattle.fate_engine.specs.fate_law.RowCauses.{packet_cause, container_cause};
ghost use Rattle.fate_engine.specs.fate_core.WholeContainers.{whole_in, whole_on};
ghost use Rattle.fate_engine.specs.fate_core.Packets.{ArePackets};

use crate::fate_core::packet_rows::{FIRST, Packets};
use crate::fate_law::Cause;
use law_model::{Window, WindowLists};

/// Whether containers of a line, from one on, are whole.
fn are_whole(windows: &[Window], from: u32, count: u32) -> bool
    requires apart { AreWindows 0 windows.now }
    requires some { 0 < count }
    requires fits { from + count < 2 ^ 32 }
    ensures { result ≡ whole_in windows.now from count }
{
    let passed = windows.partition_point(|window| window.end <= from);
    match windows[passed..].first() {
        Some(window) => from + count <= window.first,
        None => true,
    }
}

/// The same of a line by its number; one that isn't configured has no failures.
fn are_whole_on(windows: &WindowLists, line: u8, from: u32, count: u32) -> bool
    requires apart { All (AreWindows 0) windows.now }
    requires some { 0 < count }
    requires fits { from + count < 2 ^ 32 }
    ensures { result ≡ whole_on windows.now from count line }
{
    let line = usize::from(line);
    line >= windows.0.len() || are_whole(&windows.0[line].0, from, count)
}

/// Whether some line has a readable packet, by the failures of each line.
pub fn is_heard(windows: &WindowLists, packet: u32) -> bool
    requires apart { All (AreWindows 0) windows.now }
    requires fits { 16 * packet + 24 < 2 ^ 32 }
    ensures { result ≡ list_any (λ list. is_readable (carried list) packet) windows.now }
{
    for list in &windows.0 {
        if are_whole(&list.0, 16 * packet, 24) {
            return true;
        }
    }
    false
}

/// The lesser of a line and another, if there is one.
fn lesser(line: u8, other: Option<u8>) -> u8
    ensures { result ≡ lesser_of line other }
{
    match other {
        Some(other) => line.min(other),
        None => line,
    }
}

/// The least of some lines of which not all these containers are whole.
fn least_cut(windows: &WindowLists, lines: &[u8], from: u32, count: u32) -> Option<u8>
    requires apart { All (AreWindows 0) windows.now }
    requires some { 0 < count }
    requires fits { from + count < 2 ^ 32 }
    ensures { result ≡ least_failing (whole_on windows.now from count) lines.now }
{
    let mut least = None;
    for i in (0..lines.len()).rev() {
        let line = lines[i];
        if !are_whole_on(windows, line, from, count) {
            least = Some(lesser(line, least));
        }
    }
    least
}

/// Why a row isn't whole where it isn't known which lines carry payload: the least of them without a readable
/// packet.
fn packet_cause(windows: &WindowLists, active: &[u8], packet: u32) -> Option<Cause>
    requires apart { All (AreWindows 0) windows.now }
    requires fits { packet ≤ most_packets }
    ensures { result ≡ packet_cause
        (least_failing (whole_on windows.now (16 * packet) 24) active.now) }
{
    match least_cut(windows, active, 16 * packet, 24) {
        Some(line) => Some(Cause::PacketOf { line }),
        None => None,
    }
}

/// Why a row isn't whole where it is known: the least of them without a good container, if there is one.
fn container_cause(windows: &WindowLists, active: &[u8], row: u32) -> Option<Cause>
    requires apart { All (AreWindows 0) windows.now }
    requires late { 24 ≤ row }
    requires fits { row < 100000024 }
    ensures { result ≡ container_cause
        (least_failing (whole_on windows.now (lock_of row) (row + 1 - lock_of row)) active.now) }
{
    let lock = (row - 2) / 16 * 16;
    match least_cut(windows, active, lock, row + 1 - lock) {
        Some(line) => Some(Cause::Container { line }),
        None => None,
    }
}

/// Why a row isn't whole, by the failures of each line and the packet that governs the row, or `None` where
/// it is. Of the lines that spoil it the least is told.
pub fn row_cause(windows: &WindowLists, packets: &Packets, row: u32) -> Option<Cause>
    requires apart { All (AreWindows 0) windows.now }
    requires governed { row < 16 * length packets.now.active + 24 }
    requires known { row < 16 * length packets.now.known + 24 }
    ensures { (scenario : Scenario) (cells : List (Option Told)) → scenario.windows ≡ windows.now →
        ArePackets scenario cells packets.now → result ≡ cause_of scenario cells row }
{
    if row < FIRST {
        return None;
    }
    let packet = packets.packet_of(row);
    let active = packets.active(packet as usize);
    if packets.is_known(packet as usize) {
        container_cause(windows, active, row)
    } else if is_heard(windows, packet) {
        packet_cause(windows, active, packet)
    } else {
        Some(Cause::Packet)
    }
}
