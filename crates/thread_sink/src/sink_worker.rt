//! The worker of the sink.
ghost use Rattle.std.specs.Prelude.{◌≡◌, ◌≤◌, length};
ghost use Rattle.member_rows.specs.realign_rows.Gather.{line_count};
ghost use Rattle.law_model.specs.Common.{most_lines};

use crate::burst_answers::SinkBurst;
use crate::burst_steps::take_rows;
use crate::frame_counts::{CountOut, ToldOut};
use law_model::Options;
use member_cells::{BackCell, Cell};
use member_rows::realign_rows::RowGather;
use octet_io::{ByteSink, take_back};
use std::alloc::{AllocError, Global};
use terminal_sink::sink_core::SinkCore;
use text_got::{LentGotLines, TextBlock};
use thread_rings::{CellPlace, Gate, Placed, RingIn, RingOut, Who};

/// The worker of the sink: it pops cells, takes rows, writes the lines of frames, and sends return packets.
#[derive(Drop)]
pub struct SinkWorker {
    rows: RowGather,
    core: SinkCore,
    /// Where it pops the cells of each line.
    pub rx: Vec<RingIn<Cell>>,
    /// The place of the cell that was popped last.
    place: CellPlace,
    /// Where it pushes return cells.
    pub back: RingOut<BackCell>,
    ticks: u32,
    got: u64,
    failed: bool,
    /// Where lines wait in a burst. Nothing waits between bursts.
    block: Box<TextBlock>,
    ghost lines: { line_count rows ≡ core.lines },
    ghost rings: { length rx.items ≡ core.lines },
    ghost places: { rows.rows ≡ core.taken },
    ghost within: { core.taken ≤ ticks },
}

impl SinkWorker {
    ghost use Rattle.std.specs.Prelude.{◌≡◌, ◌≢◌, ◌+◌, ◌<◌, ◌≤◌, ◌↔◌, [], replicate, length, false, IfOk};
    ghost use Rattle.law_model.specs.Common.{IsOptions, IsSize};
    ghost use Rattle.thread_rings.specs.EndsOfRing.{out_passed};
    ghost use Rattle.text_report.specs.ReportLines.{got_texts};
    ghost use Rattle.terminal_sink.specs.sink_core.TakenAndGiven.{given_frames, added_frames};
    ghost use Rattle.thread_sink.specs.Told.{Writes, count_of};
    ghost use Rattle.thread_sink.specs.ReceivedByRings.{received, backs};
    ghost use Rattle.thread_sink.specs.SinkParts.{Does};
    ghost use Rattle.thread_sink.specs.WorkerOfSink.{cells_of, parts_of, lines_of, size_of, options_of};
    ghost use Rattle.thread_sink.specs.WorkerOfSink.{ticks_of, taken_of};
    ghost use Rattle.thread_sink.specs.WorkerOfSink.{got_of, has_failed, IsLater, SinkWorkerStands};

    /// The worker of the sink of a group of `lines` lines, whose containers have `size` payload octets, for
    /// `ticks` rows, over fresh rings, one for each line, and a fresh return ring. By `options` lines go down and
    /// come up, statuses are told, and the worker goes on or stops where packets can't be read.
    pub fn new(
        alloc: Global,
        lines: u8,
        ticks: u32,
        size: u16,
        options: Options,
        rx: Vec<RingIn<Cell>>,
        back: RingOut<BackCell>,
    ) -> Result<SinkWorker, AllocError>
        requires least { 1 ≤ lines }
        requires most { lines ≤ most_lines }
        requires size { IsSize size }
        requires options { IsOptions options }
        requires rings { length rx.items ≡ lines }
        requires fresh { received rx.items ≡ replicate lines [] }
        requires back { out_passed back ≡ [] }
        ensures lines { IfOk result (λ worker. lines_of worker ≡ lines) }
        ensures size { IfOk result (λ worker. size_of worker ≡ size) }
        ensures options { IfOk result (λ worker. options_of worker ≡ options) }
        ensures ticks { IfOk result (λ worker. ticks_of worker ≡ ticks) }
        ensures taken { IfOk result (λ worker. taken_of worker ≡ 0) }
        ensures got { IfOk result (λ worker. got_of worker ≡ 0) }
        ensures failed { IfOk result (λ worker. has_failed worker ≡ false) }
        ensures ends { IfOk result (λ worker. (worker.rx ≡ rx) × (worker.back ≡ back)) }
        ensures stands { IfOk result (λ worker. SinkWorkerStands worker) }
    {
        let rows = RowGather::new(alloc, lines)?;
        let core = SinkCore::new(alloc, lines, size, options)?;
        let place = Cell::new_place(alloc)?;
        let block = Box::new(alloc, TextBlock::new())?;
        Ok(SinkWorker {
            rows,
            core,
            rx,
            place,
            back,
            ticks,
            got: 0,
            failed: false,
            block,
        })
    }

    /// Passes the gate, and then pops cells and takes rows as far as cells and slots are there: up to 16 rows, in
    /// 4,096 steps at most. One cell is popped or one row taken where that can be, and no clause says that more
    /// are. Of each frame that comes through the line is written on `out`. After a write that failed nothing
    /// more is written, then or later, and rows are taken as before.
    pub fn burst<K: ByteSink, G: Gate>(&mut self, out: &mut K, gate: &G) -> SinkBurst
        ensures stands { SinkWorkerStands self.old → SinkWorkerStands self.new }
        ensures sent { SinkWorkerStands self.old →
            out_passed self.new.back
            ≡ backs (options_of self.new) (cells_of self.new) (taken_of self.new) }
        ensures written { SinkWorkerStands self.old →
            Writes K.written K.faults (has_failed self.old) (has_failed self.new) out.old out.new
            (got_texts (added_frames (options_of self.new) (size_of self.new) (cells_of self.new)
            (taken_of self.old) (taken_of self.new))) }
        ensures done { (result ≡ SinkBurst.Done) ↔ (taken_of self.old ≡ ticks_of self.old) }
        ensures still { result ≡ SinkBurst.Done → (self.new ≡ self.old) × (out.new ≡ out.old) }
        ensures does { SinkWorkerStands self.old →
            Does (parts_of self.old) (parts_of self.new) result }
        ensures most { taken_of self.new ≤ taken_of self.old + 16 }
        ensures later { IsLater self.old self.new }
    {
        gate.pass(Who::Sink);
        if self.core.taken() == self.ticks {
            return SinkBurst::Done;
        }
        let first = if self.failed {
            self.take_silent()
        } else {
            self.take_told(out)
        };
        if first == SinkBurst::Moved {
            gate.moved(Who::Sink);
        }
        first
    }

    /// Takes rows, and writes nothing.
    fn take_silent(&mut self) -> SinkBurst
        requires { self.old.core.taken < self.old.ticks }
        ensures stands { SinkWorkerStands self.old → SinkWorkerStands self.new }
        ensures failed { has_failed self.new ≡ has_failed self.old }
        ensures never { result ≢ SinkBurst.Done }
        ensures does { SinkWorkerStands self.old →
            Does (parts_of self.old) (parts_of self.new) result }
        ensures most { taken_of self.new ≤ taken_of self.old + 16 }
        ensures later { IsLater self.old self.new }
    {
        let mut silent = CountOut { count: 0 };
        let first = take_rows(
            &mut self.rows,
            &mut self.core,
            &mut self.rx,
            &mut self.place,
            &mut self.back,
            &mut silent,
            self.ticks,
        );
        self.got = self.got.saturating_add(silent.count);
        first
    }

    /// Takes rows, and writes the lines of their frames.
    fn take_told<K: ByteSink>(&mut self, out: &mut K) -> SinkBurst
        requires { self.old.core.taken < self.old.ticks }
        ensures stands { SinkWorkerStands self.old → SinkWorkerStands self.new }
        ensures written { SinkWorkerStands self.old →
            Writes K.written K.faults false (has_failed self.new) out.old out.new
            (got_texts (added_frames (options_of self.new) (size_of self.new) (cells_of self.new)
            (taken_of self.old) (taken_of self.new))) }
        ensures never { result ≢ SinkBurst.Done }
        ensures does { SinkWorkerStands self.old →
            Does (parts_of self.old) (parts_of self.new) result }
        ensures most { taken_of self.new ≤ taken_of self.old + 16 }
        ensures later { IsLater self.old self.new }
    {
        let mut told = ToldOut {
            lines: LentGotLines::new(out, &mut self.block),
            counted: CountOut { count: 0 },
        };
        let first = take_rows(
            &mut self.rows,
            &mut self.core,
            &mut self.rx,
            &mut self.place,
            &mut self.back,
            &mut told,
            self.ticks,
        );
        let ToldOut { lines, counted } = told;
        let (back, end) = lines.finish();
        take_back(back);
        self.failed = end.is_err();
        self.got = self.got.saturating_add(counted.count);
        first
    }

    /// Whether a write failed.
    pub fn failed(&self) -> bool
        ensures { result ≡ has_failed self.now }
    {
        self.failed
    }

    /// How many rows were taken.
    pub fn taken(&self) -> u32
        ensures { result ≡ taken_of self.now }
    {
        self.core.taken()
    }

    /// How many frames were delivered, written or not. The count stops at 2^64 - 1.
    pub fn got(&self) -> u64
        ensures count { result ≡ got_of self.now }
        ensures frames { SinkWorkerStands self.now → result
            ≡ count_of (given_frames (options_of self.now) (size_of self.now) (cells_of self.now)
            (taken_of self.now)) }
    {
        self.got
    }
}
