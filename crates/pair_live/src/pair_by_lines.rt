//! A pair that answers the lines of a live text of both ways.

use crate::answered_pair::AnsweredPair;
use crate::live_pair_line::LivePairLine;
use crate::live_pair_reader::LivePairReader;
use crate::pair_live_notes::stop_of_live_pair;
use crate::way_lines::tell_both_totals;
use command_parts::Stop;
use law_pair::Way;
use octet_io::{ByteSink, Failed};
use std::alloc::{AllocError, Global};
use terminal_group::ItemRef;
use text_got::TextBlock;
use walk_live::{Answerer, Asked};

impl Answerer for AnsweredPair {
    ghost use Rattle.pair_live.specs.PairDialogue.{pair_text};
    ghost use Rattle.pair_live.specs.PairByLines.{HasAnsweredLines, HasReadLines, IsSaidBehind, WaitsForPair};

    type Reader = LivePairReader;

    type Line = LivePairLine;

    ghost text = { pair_text };

    ghost HasRead = { λ reader ls. HasReadLines reader ls };

    ghost HasAnswered = { λ pair asked ls. HasAnsweredLines pair asked ls };

    ghost Waits = { λ reader ls. WaitsForPair reader ls };

    ghost Says = { λ reader says ls line. IsSaidBehind reader says ls line };

    fn new_reader(alloc: Global) -> Result<LivePairReader, AllocError> {
        LivePairReader::new(alloc)
    }

    fn read(reader: &mut LivePairReader, line: &[u8]) -> Result<Option<LivePairLine>, Stop> {
        let says = match reader.line(line) {
            Ok(says) => says,
            Err(fault) => return Err(stop_of_live_pair(fault)),
        };
        match says {
            LivePairLine::Blank | LivePairLine::Setting => Ok(None),
            _ => Ok(Some(says)),
        }
    }

    fn open(
        alloc: Global,
        reader: &mut LivePairReader,
        tells: Asked,
    ) -> Result<AnsweredPair, AllocError> {
        match reader.take_configs() {
            Some((there, back)) => AnsweredPair::new(alloc, there, back, tells),
            None => unreachable!(),
        }
    }

    fn end(reader: &mut LivePairReader) -> Result<(), Stop> {
        match reader.finish() {
            Ok(()) => Ok(()),
            Err(fault) => Err(stop_of_live_pair(fault)),
        }
    }

    fn say<K: ByteSink>(
        &mut self,
        says: LivePairLine,
        reader: &LivePairReader,
        block: &mut TextBlock,
        out: &mut K,
    ) -> Result<(), Failed> {
        match says {
            LivePairLine::Blank | LivePairLine::Setting => Ok(()),
            LivePairLine::Frame(way) => self.land(way, ItemRef::Frame(reader.frame()), block, out),
            LivePairLine::Add(way, line) => self.land(way, ItemRef::Add(line), block, out),
            LivePairLine::Remove(way, line) => self.land(way, ItemRef::Remove(line), block, out),
            LivePairLine::Cut(way, line) => {
                self.pair.cut(way, line);
                Ok(())
            }
            LivePairLine::Mend(way, line) => {
                self.pair.mend(way, line);
                Ok(())
            }
            LivePairLine::Pass(ticks) => self.pass(ticks, block, out),
        }
    }

    fn say_last<K: ByteSink>(&self, block: &mut TextBlock, out: &mut K) -> Result<(), Failed> {
        let there = self.pair.totals(Way::There);
        let back = self.pair.totals(Way::Back);
        tell_both_totals(&there, &back, block, out)
    }
}
