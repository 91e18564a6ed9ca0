//! The sink.

ghost use Rattle.std.specs.Prelude.{◌≡◌, ℕ, ◌+◌, ◌^◌, ◌%◌, ◌<◌, ◌≤◌, ◌==◌, ◌&&◌, ◌↔◌, nat_lt, List, ◌++◌, length};
ghost use Rattle.std.specs.Prelude.{IfOk, IsSome, IsTrue};
ghost use Rattle.law_model.specs.Common.{Cell, IsOptions, Start, governing, IsSize, segments_of, most_lines};
ghost use Rattle.member_rows.specs.realign_rows.Gather.{GatherStands as Gathers, line_count, open_line};
ghost use Rattle.terminal_sink.specs.lcas_sink.SinkStates.{SinkTableStands as HasTold};
ghost use Rattle.terminal_sink.specs.sink_core.TakenAndGiven.{answer_at, added_frames, back_at};
ghost use Rattle.terminal_sink.specs.sink_core.TakenAndGiven.{received_rows, read_rows};
ghost use Rattle.terminal_sink.specs.sink_core.TakenAndGiven.{packet_rows};
ghost use Rattle.terminal_sink.specs.sink_core.TakenAndGiven.{rows_taken, waiting_for, back_of, IsPacketEnd};
ghost use Rattle.terminal_sink.specs.sink_core.TakenAndGiven.{IsWaiting, Allows};
ghost use Rattle.terminal_sink.specs.sink_core.TakenAndGiven.{knows_at};
ghost use Rattle.terminal_sink.specs.sink_core.Core.{SinkStands};
ghost use Rattle.terminal_sink.specs.marked_delineator.Marks.{first_place};

use crate::lcas_sink::SinkTable;
use crate::marked_delineator::MarkedDelineator;
use crate::sink_core::octets_of_row::BLOCK;
use crate::sink_core::whole_rows::{FIRST_ROW, take_row};
use law_model::{FrameOut, LONGEST_FRAME, Options};
use member_rows::lcas_packet::Packet;
use member_rows::realign_rows::{RowAnswer, RowGather};
use std::alloc::{AllocError, Global};
use std::marker::Model;

/// The greatest frame that is given, in octets.
const LONGEST: u16 = LONGEST_FRAME as u16;

/// Whether a row was taken.
#[derive(Clone, Copy, Debug, PartialEq, Eq)]
pub enum TakeAnswer {
    /// It was.
    Taken {
        /// The return packet that it makes, at rows 16 k + 23.
        back: Option<Packet>,
    },
    /// The next row isn't decided on some line.
    Waiting {
        /// The least such line.
        line: u8,
    },
}

/// Takes the rows of a group.
#[derive(Drop)]
pub struct SinkCore {
    lines: u8,
    size: u16,
    taken: u32,
    delineator: MarkedDelineator,
    table: SinkTable,
    /// Octets of some places of a row, joined.
    block: Vec<u8>,
}

impl Model for SinkCore {
    ghost use Rattle.std.specs.Prelude.{◌≡◌, ◌≤◌, length};
    ghost use Rattle.law_model.specs.Common.{vc4_size, most_lines};
    ghost use Rattle.terminal_sink.specs.sink_core.RowsInReceiver.{IsKnown};
    ghost use Rattle.terminal_sink.specs.sink_core.TakenAndGiven.{packet_rows};
    ghost use Rattle.terminal_sink.specs.sink_core.Core.{Core};

    ghost Value = { Core };

    ghost view = { λ core. record {
      lines = core.lines;
      size = core.size;
      options = core.table.options;
      taken = core.taken;
      receiver = core.delineator;
      table = core.table;
    } };

    ghost invariant = { λ core. IsKnown core.delineator × (core.lines ≤ most_lines) × (core.size ≤ vc4_size)
        × (core.table.lines ≡ core.lines)
        × (core.table.taken ≡ packet_rows core.taken) × (length core.block.items ≡ 4096) };
}

impl SinkCore {
    /// The sink of a group of `lines` lines whose containers have `size` payload octets. By `options` lines go down
    /// and come up, statuses are told, and the sink goes on or stops where a packet is missing. No row was taken.
    pub fn new(
        alloc: Global,
        lines: u8,
        size: u16,
        options: Options,
    ) -> Result<SinkCore, AllocError>
        requires least { 1 ≤ lines }
        requires most { lines ≤ most_lines }
        requires size { IsSize size }
        requires options { IsOptions options }
        ensures lines { IfOk result (λ core. core.lines ≡ lines) }
        ensures size { IfOk result (λ core. core.size ≡ size) }
        ensures options { IfOk result (λ core. core.options ≡ options) }
        ensures taken { IfOk result (λ core. core.taken ≡ 0) }
        ensures stands { IfOk result (λ core. (cells : List (List Cell)) → length cells ≡ lines →
            SinkStands core cells) }
    {
        Ok(SinkCore {
            lines,
            size,
            taken: 0,
            delineator: MarkedDelineator::new(alloc, LONGEST)?,
            table: SinkTable::new(lines, options),
            block: vec![in alloc; 0; BLOCK]?,
        })
    }

    /// Takes the next row, where it is decided on each line: the frames that it completes are given to `out`,
    /// and at rows 16 k + 23 the answer has return packet k. Else nothing changes.
    pub fn take<F: FrameOut>(&mut self, rows: &mut RowGather, out: &mut F) -> TakeAnswer
        requires lines { line_count rows.old ≡ self.old.lines }
        requires rows { rows.old.rows ≡ self.old.taken }
        requires few { self.old.taken < 4294967295 }
        ensures answer { (cells : List (List Cell)) → Gathers rows.old cells →
            SinkStands self.old cells →
            result ≡ answer_at self.old.options cells self.old.taken }
        ensures taken { self.new.taken ≡ self.old.taken + rows_taken result }
        ensures rows { rows.new.rows ≡ self.new.taken }
        ensures lines { line_count rows.new ≡ line_count rows.old }
        ensures own_lines { self.new.lines ≡ self.old.lines }
        ensures size { self.new.size ≡ self.old.size }
        ensures options { self.new.options ≡ self.old.options }
        ensures gathers { (cells : List (List Cell)) → Gathers rows.old cells →
            Gathers rows.new cells }
        ensures stands { (cells : List (List Cell)) → Gathers rows.old cells →
            SinkStands self.old cells →
            SinkStands self.new cells }
        ensures gives { (cells : List (List Cell)) → Gathers rows.old cells →
            SinkStands self.old cells →
            (start : Start) (frames : List (List ℕ)) → F.stands_for out.old start frames →
            F.stands_for out.new start
            (frames ++ added_frames self.old.options self.old.size cells self.old.taken self.new.taken) }
        ensures least { waiting_for result ≡ open_line rows.old }
        ensures back { IsSome (back_of result) ↔
            ((rows_taken result ≡ 1) × IsPacketEnd self.old.taken) }
        ensures allows { Allows rows.old result }
        ensures waits { IsWaiting result →
            (self.new ≡ self.old) × (rows.new ≡ rows.old) × (out.new ≡ out.old) }
    {
        match rows.row() {
            RowAnswer::Waiting { line } => TakeAnswer::Waiting { line },
            RowAnswer::Row => {
                take_row(
                    &mut self.delineator,
                    self.table.carriers(),
                    &mut self.block,
                    self.size,
                    rows,
                    self.taken,
                    out,
                );
                rows.advance();
                let packets = rows.packets();
                let back = pass_row(&mut self.table, self.taken, packets);
                self.taken += 1;
                TakeAnswer::Taken { back }
            }
        }
    }

    /// The place that is confirmed first in the segment that goes on with the next row, counted from its first octet.
    pub fn first_confirmed(&self) -> Option<u64>
        ensures { (cells : List (List Cell)) → SinkStands self.now cells →
            let rows = received_rows self.now.options self.now.size cells self.now.taken in
            let octets = (segments_of rows).last.octets in
            length octets < 2 ^ 64 → result ≡ first_place octets }
    {
        self.delineator.first_confirmed()
    }

    /// Whether it is known which lines carry payload in the next row.
    pub fn knows(&self) -> bool
        ensures { (cells : List (List Cell)) → SinkStands self.now cells →
            result ≡ knows_at self.now.options cells self.now.taken }
    {
        self.table.carriers().is_some()
    }

    /// How many rows were taken.
    pub fn taken(&self) -> u32
        ensures { result ≡ self.now.taken }
    {
        self.taken
    }
}

/// Whether a packet ends with row `t`.
pub fn ends_packet(t: u32) -> bool
    ensures value { result ≡ (nat_lt 22 t && t % 16 == 7) }
    ensures end { IsTrue result ↔ IsPacketEnd t }
{
    t >= FIRST_ROW - 1 && t % 16 == 7
}

/// Counts row `t`, which was passed, and gives the return packet where a packet ends with it. `packets`
/// govern the row after it.
fn pass_row(table: &mut SinkTable, t: u32, packets: &[Option<Packet>]) -> Option<Packet>
    requires lines { length packets.now ≡ table.old.lines }
    requires few { t < 4294967295 }
    requires taken { table.old.taken ≡ packet_rows t }
    ensures lines { table.new.lines ≡ table.old.lines }
    ensures options { table.new.options ≡ table.old.options }
    ensures taken { table.new.taken ≡ packet_rows (t + 1) }
    ensures stands { (cells : List (List Cell)) → packets.now ≡ governing cells (t + 1) →
        HasTold table.old (read_rows cells (packet_rows t)) →
        HasTold table.new (read_rows cells (packet_rows (t + 1))) }
    ensures back { (cells : List (List Cell)) → packets.now ≡ governing cells (t + 1) →
        HasTold table.old (read_rows cells (packet_rows t)) → result ≡ back_at table.old.options cells t }
    ensures there { IsSome result ↔ IsPacketEnd t }
{
    if ends_packet(t) {
        Some(table.packet_row(packets))
    } else {
        None
    }
}
