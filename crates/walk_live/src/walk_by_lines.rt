//! A walk that answers the lines of a live text.
ghost use Rattle.std.specs.Prelude.{◌++◌, OnOk, OnErr};
ghost use Rattle.law_model.specs.Common.{AppendsPart};
ghost use Rattle.text_got.specs.TextSoFar.{Holds};
ghost use Rattle.text_report.specs.ReportLines.{total_text};

use crate::answered_walk::AnsweredWalk;
use crate::answerer::Answerer;
use crate::asked::Asked;
use crate::live_notes::stop_of_live;
use command_parts::Stop;
use law_model::Totals;
use octet_io::{ByteSink, Failed};
use std::alloc::{AllocError, Global};
use terminal_group::ItemRef;
use text_got::TextBlock;
use text_live::{LiveLine, LiveReader};
use text_report::{TOTAL_ROOM, total_line};

/// Adds the line of totals.
fn tell_totals<K: ByteSink>(
    totals: &Totals,
    block: &mut TextBlock,
    out: &mut K,
) -> Result<(), Failed>
    ensures ok { let text = block.old ++ total_text totals.now in
        OnOk result (Holds K.written K.faults out.old out.new block.new text) }
    ensures err { let text = block.old ++ total_text totals.now in
        OnErr result (AppendsPart K.written K.faults out.old out.new text) }
{
    let mut line = [0u8; TOTAL_ROOM];
    let end = total_line(totals, &mut line);
    block.add(&line[..end], out)
}

impl Answerer for AnsweredWalk {
    ghost use Rattle.walk_live.specs.LiveReplies.{live_text};
    ghost use Rattle.walk_live.specs.WalkByLines.{HasAnsweredLines, HasReadLines, IsSaidBehind, WaitsForWalk};

    type Reader = LiveReader;

    type Line = LiveLine;

    ghost text = { live_text };

    ghost HasRead = { λ reader ls. HasReadLines reader ls };

    ghost HasAnswered = { λ walk asked ls. HasAnsweredLines walk asked ls };

    ghost Waits = { λ reader ls. WaitsForWalk reader ls };

    ghost Says = { λ reader says ls line. IsSaidBehind reader says ls line };

    fn new_reader(alloc: Global) -> Result<LiveReader, AllocError> {
        LiveReader::new(alloc)
    }

    fn read(reader: &mut LiveReader, line: &[u8]) -> Result<Option<LiveLine>, Stop> {
        let says = match reader.line(line) {
            Ok(says) => says,
            Err(fault) => return Err(stop_of_live(fault)),
        };
        match says {
            LiveLine::Blank | LiveLine::Setting => Ok(None),
            _ => Ok(Some(says)),
        }
    }

    fn open(
        alloc: Global,
        reader: &mut LiveReader,
        tells: Asked,
    ) -> Result<AnsweredWalk, AllocError> {
        match reader.take_config() {
            Some(config) => AnsweredWalk::new(alloc, &config, tells),
            None => unreachable!(),
        }
    }

    fn end(reader: &mut LiveReader) -> Result<(), Stop> {
        match reader.finish() {
            Ok(()) => Ok(()),
            Err(fault) => Err(stop_of_live(fault)),
        }
    }

    fn say<K: ByteSink>(
        &mut self,
        says: LiveLine,
        reader: &LiveReader,
        block: &mut TextBlock,
        out: &mut K,
    ) -> Result<(), Failed> {
        match says {
            LiveLine::Blank | LiveLine::Setting => Ok(()),
            LiveLine::Frame => self.land(ItemRef::Frame(reader.frame()), block, out),
            LiveLine::Add(line) => self.land(ItemRef::Add(line), block, out),
            LiveLine::Remove(line) => self.land(ItemRef::Remove(line), block, out),
            LiveLine::Cut(line) => {
                self.walk.cut(line);
                Ok(())
            }
            LiveLine::Mend(line) => {
                self.walk.mend(line);
                Ok(())
            }
            LiveLine::Pass(ticks) => self.pass(ticks, block, out),
        }
    }

    fn say_last<K: ByteSink>(&self, block: &mut TextBlock, out: &mut K) -> Result<(), Failed> {
        let totals = self.walk.totals();
        tell_totals(&totals, block, out)
    }
}
