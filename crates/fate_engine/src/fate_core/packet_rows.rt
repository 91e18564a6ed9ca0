//! The rows that control packets govern: which lines carry payload in them, whether the sink knows these lines,
//! and where in the stream they begin.
ghost use Rattle.std.specs.Prelude.{◌≡◌, ◌≢◌, ℕ, suc, ◌+◌, ◌-◌, ◌*◌, ◌/◌, ◌≤◌, ◌<◌, [], ◌∷◌, ◌++◌, length, List, OnOk};
ghost use Rattle.std.specs.Prelude.{OnErr, IfSome, IfNone, IsTrue, false, Option, Some, slice_get};
ghost use Rattle.fate_engine.specs.declared.fate_core.packet_rows.Run.{Run as RunData};
ghost use Rattle.law_model.specs.Common.{Scenario, Told, active, is_known, table_of, place_of, width};
ghost use Rattle.law_model.specs.Common.{most_lines, most_packets};
ghost use Rattle.fate_engine.specs.fate_core.Packets.{ArePackets, AreApart, ArePacketRuns, IsRun, active_in};
ghost use Rattle.fate_engine.specs.fate_core.Packets.{octets_of, start_by};

use arrayvec::ArrayVec;
use law_model::{MOST_LINES, MOST_PACKETS};
use std::alloc::{AllocError, Global};
use std::marker::Model;

/// The first row that a packet governs.
pub(super) const FIRST: u32 = 24;

/// The rows that each packet governs.
pub(super) const ROWS: u32 = 16;

/// The most packets.
const MOST: u32 = MOST_PACKETS as u32;

/// Control packets in turn under which the same lines are active.
#[derive(Drop)]
struct Run {
    /// The lines that carry payload in their rows.
    lines: ArrayVec<u8, MOST_LINES>,
    /// How many packets there are.
    packets: u32,
    /// The first row that they govern.
    row: u32,
    /// The place of the stream at which it begins.
    start: u64,
}

/// Whether one more packet goes on with the last run.
fn goes_on(runs: &[Run], lines: &ArrayVec<u8, MOST_LINES>) -> bool
    ensures some { IsTrue result → 0 < length runs.now }
    ensures same { (run : RunData) → IsTrue result →
        slice_get runs.now (length runs.now - 1) ≡ Some run → run.lines.items ≡ lines.now.items }
    ensures other { (run : RunData) → result ≡ false →
        slice_get runs.now (length runs.now - 1) ≡ Some run → run.lines.items ≢ lines.now.items }
{
    match runs.last() {
        Some(last) => last.lines == *lines,
        None => false,
    }
}

/// Adds a packet behind those of the runs, with the first row that it governs and its place. Where memory is
/// short nothing changes.
fn add_packet(
    runs: &mut Vec<Run>,
    lines: ArrayVec<u8, MOST_LINES>,
    row: u32,
    start: u64,
) -> Result<(), AllocError>
    requires few { length (active_in runs.old.items) < most_packets }
    requires lines { length lines.items ≤ most_lines }
    requires row { row ≡ 24 + 16 * length (active_in runs.old.items) }
    ensures active { OnOk result
        (active_in runs.new.items ≡ active_in runs.old.items ++ lines.items ∷ []) }
    ensures begin { (size : ℕ) → ArePacketRuns size runs.old.items →
        start ≡ octets_of size (active_in runs.old.items) →
        OnOk result (ArePacketRuns size runs.new.items) }
    ensures longest { AreApart runs.old.items → OnOk result (AreApart runs.new.items) }
    ensures err { OnErr result (runs.new.items ≡ runs.old.items) }
{
    if goes_on(runs, &lines) {
        let last = runs.len() - 1;
        runs[last].packets += 1;
        return Ok(());
    }
    runs.push(Run {
        lines,
        packets: 1,
        row,
        start,
    })?;
    Ok(())
}

/// The packets of a group in their order: packet `k` governs rows `16 k + 24` to `16 k + 39`, and the rows
/// before have no octets. A contract sees the octets of payload that a line has in a row, the active lines
/// under each packet, and of the first packets whether the sink knows these lines: that is decided once row
/// `16 k + 23` is taken, with which packet `k` ends.
#[derive(Drop)]
pub struct Packets {
    size: u16,
    /// Their runs: one more only where a command or a failure changes the active lines.
    runs: Vec<Run>,
    /// How many packets there are.
    count: u32,
    /// Of the first packets, whether the sink knows which lines are active.
    known: Vec<bool>,
    /// The place at which the rows of all packets end.
    end: u64,
}

impl Model for Packets {
    ghost use Rattle.fate_engine.specs.fate_core.Packets.{PacketList, packets_in, IsPacketList};

    ghost Value = { PacketList };

    ghost view = { λ p. packets_in p.size p.runs.items p.known.items };

    ghost invariant = { λ p. IsPacketList p.size p.runs.items p.count p.end };
}

impl Packets {
    /// No packet, of a group whose lines have so many octets of payload in a row.
    pub fn new(alloc: Global, size: u16) -> Packets
        ensures { result ≡ record { size = size; active = []; known = [] } }
    {
        Packets {
            size,
            runs: Vec::new(alloc),
            count: 0,
            known: Vec::new(alloc),
            end: 0,
        }
    }

    /// Takes the active lines under the next packet, as the decision step of that packet leaves them. Where
    /// memory is short nothing changes.
    pub fn push(&mut self, active: ArrayVec<u8, MOST_LINES>) -> Result<(), AllocError>
        requires { length self.old.active < most_packets }
        ensures ok { OnOk result (self.new
            ≡ record self.old { active = self.old.active ++ active.items ∷ [] }) }
        ensures err { OnErr result (self.new ≡ self.old) }
    {
        let octets = u64::from(self.size) * active.len() as u64 * u64::from(ROWS);
        add_packet(&mut self.runs, active, FIRST + ROWS * self.count, self.end)?;
        self.count += 1;
        self.end += octets;
        Ok(())
    }

    /// Takes whether the sink knows the active lines under the next packet of which it isn't told yet. Where
    /// memory is short nothing changes.
    pub fn push_known(&mut self, known: bool) -> Result<(), AllocError>
        ensures ok { OnOk result (self.new
            ≡ record self.old { known = self.old.known ++ known ∷ [] }) }
        ensures err { OnErr result (self.new ≡ self.old) }
    {
        match self.known.push(known) {
            Ok(()) => Ok(()),
            Err(_) => Err(AllocError),
        }
    }

    /// The place of the stream at which a row begins.
    pub fn place(&self, row: u32) -> u64
        requires { row ≤ 16 * length self.now.active + 24 }
        ensures { (scenario : Scenario) (cells : List (Option Told)) →
            ArePackets scenario cells self.now → result ≡ place_of scenario cells row }
    {
        if row <= FIRST {
            return 0;
        }
        let run = self.run_of(row - 1);
        run.start + u64::from(row - run.row) * self.width(run)
    }

    /// The row that has the octet at a place, or `None` where it comes after the rows of all packets.
    pub fn row_of(&self, place: u64) -> Option<u32>
        ensures from { (scenario : Scenario) (cells : List (Option Told)) →
            ArePackets scenario cells self.now →
            IfSome result (λ row. place_of scenario cells row ≤ place) }
        ensures below { (scenario : Scenario) (cells : List (Option Told)) →
            ArePackets scenario cells self.now →
            IfSome result (λ row. place < place_of scenario cells (suc row)) }
        ensures governed { IfSome result (λ row. row < 16 * length self.now.active + 24) }
        ensures beyond { (scenario : Scenario) (cells : List (Option Told)) →
            ArePackets scenario cells self.now → IfNone result
            (place_of scenario cells (16 * length self.now.active + 24) ≤ place) }
    {
        if place >= self.end {
            return None;
        }
        let run = self.run_at(place);
        let row = (place - run.start) / self.width(run);
        Some(run.row + row as u32)
    }

    /// The active lines under a packet.
    pub fn active(&self, packet: usize) -> &[u8]
        requires { packet < length self.now.active }
        ensures few { length result.now ≤ most_lines }
        ensures lines { (scenario : Scenario) (cells : List (Option Told)) →
            ArePackets scenario cells self.now →
            result.now ≡ active (table_of scenario cells packet) }
    {
        prove!(self.count <= MOST);
        &self.run_of(FIRST + packet as u32 * ROWS).lines
    }

    /// Whether the sink knows the active lines under a packet.
    pub fn is_known(&self, packet: usize) -> bool
        requires { packet < length self.now.known }
        ensures { (scenario : Scenario) (cells : List (Option Told)) →
            ArePackets scenario cells self.now → result ≡ is_known scenario cells packet }
    {
        self.known[packet]
    }

    /// How many lines carry payload in a row.
    pub fn width_in(&self, row: u32) -> u32
        requires { row < 16 * length self.now.active + 24 }
        ensures few { result ≤ most_lines }
        ensures width { (scenario : Scenario) (cells : List (Option Told)) →
            ArePackets scenario cells self.now → result ≡ width scenario cells row }
    {
        if row < FIRST {
            return 0;
        }
        self.run_of(row).lines.len() as u32
    }

    /// The run that governs a row.
    fn run_of(&self, row: u32) -> &Run
        requires late { 24 ≤ row }
        requires governed { row < 16 * length self.now.active + 24 }
        ensures run { IsRun self.now result.now }
        ensures from { result.now.row ≤ row }
        ensures below { row < result.now.row + 16 * result.now.packets }
    {
        let begun = self.runs.partition_point(|run| run.row <= row);
        &self.runs[begun - 1]
    }

    /// The run in whose rows a place lies.
    fn run_at(&self, place: u64) -> &Run
        requires { place < start_by self.now.size self.now.active (length self.now.active) }
        ensures run { IsRun self.now result.now }
        ensures from { result.now.start ≤ place }
        ensures below { place < result.now.start
            + 16 * result.now.packets * (self.now.size * length result.now.lines.items) }
    {
        let begun = self.runs.partition_point(|run| run.start <= place);
        &self.runs[begun - 1]
    }

    /// The packet that governs a row.
    pub(super) fn packet_of(&self, row: u32) -> u32
        requires late { 24 ≤ row }
        requires governed { row < 16 * length self.now.active + 24 }
        ensures packet { result ≡ (row - 24) / 16 }
        ensures few { row < 100000024 }
    {
        prove!(self.count <= MOST);
        (row - FIRST) / ROWS
    }

    /// The octets of a row under a run.
    fn width(&self, run: &Run) -> u64
        ensures { result ≡ self.now.size * length run.now.lines.items }
    {
        u64::from(self.size) * run.lines.len() as u64
    }
}
