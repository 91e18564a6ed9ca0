//! What a way of a pair is without its script: its direction, and what was said of it.

ghost use Rattle.std.specs.Prelude.{◌≡◌, ◌≤◌, ◌/◌, ◌%◌, ◌==◌, if◌then◌else◌, ℕ, Some, None, IfOk};
ghost use Rattle.law_model.specs.Common.{Leg};
ghost use Rattle.law_pair.specs.Common.{full_at, missing_at};
ghost use Rattle.law_walk.specs.Common.{walk_plan};
ghost use Rattle.walk_engine.specs.Common.{counts_of, StandsForSome};
ghost use Rattle.walk_engine.specs.walk_core.WayParts.{WayStands};
ghost use Rattle.pair_engine.specs.LivePairs.{way_walked};
ghost use Rattle.pair_engine.specs.ToldAndHeard.{tells_next, told_now, left_untold};
ghost use Rattle.pair_engine.specs.Ways.{CanOpen, IsNewLive, walking_of};

use crate::said_packets::SaidRing;
use law_model::{Config, StallCause};
use member_cells::BackCell;
use member_rows::lcas_packet::Packet;
use std::alloc::{AllocError, Global};
use walk_engine::walk_core::{StepNote, WayCore};

/// A way of a pair without its script.
pub(crate) struct LiveWay {
    /// Its direction.
    pub(crate) core: WayCore,
    /// The return packets that its sink has said and that no packet of the other way has told.
    pub(crate) said: SaidRing,
    /// The packets between a return packet and the other way's packet that tells it. Its direction has twice as many.
    pub(crate) lag: u16,
    /// The last decision step of its source.
    pub(crate) last: Option<StepNote>,
}

/// A call of its own, so that a function which drops one doesn't go through its parts.
impl Drop for LiveWay {
    fn drop(self) {
        let LiveWay {
            core: _,
            said: _,
            lag: _,
            last: _,
        } = self;
    }
}

impl LiveWay {
    /// Makes room for a way over a network, before any event. A return packet needs the lag twice: until it is in a
    /// packet of the other way, and until that has come.
    pub(crate) fn open(alloc: Global, config: &mut Config) -> Result<LiveWay, AllocError>
        requires { CanOpen config.old }
        ensures config { IfOk result (λ own. config.new ≡ config.old) }
        ensures new { IfOk result (λ own. IsNewLive config.old (walking_of own)) }
    {
        let lag = config.lag;
        let said = SaidRing::new(alloc, lag)?;
        config.lag = 2 * lag;
        let core = WayCore::new(alloc, config)?;
        config.lag = lag;
        Ok(LiveWay {
            core,
            said,
            lag,
            last: None,
        })
    }

    /// The send ring of a line is full.
    pub(crate) fn full(&self) -> Option<StallCause>
        requires { StandsForSome self.now.core }
        ensures { (leg : Leg) (backs : ℕ) → WayStands leg backs self.now.core →
            result ≡ full_at (walk_plan leg) (counts_of self.now.core backs) }
    {
        match self.core.first_full() {
            Some(line) => Some(StallCause::TxFull { line }),
            None => None,
        }
    }

    /// The return packet hasn't been said that the other way's next packet is to tell.
    pub(crate) fn unsaid(&self) -> Option<StallCause>
        requires { self.now.lag ≤ 256 }
        ensures { result ≡ missing_at self.now.lag (way_walked (walking_of self.now)) }
    {
        let lag = u32::from(self.lag);
        let ticks = self.core.source().core().ticks();
        if !tells_next(lag, ticks) {
            return None;
        }
        let packet = ticks / 16 - lag;
        if u64::from(self.core.sink().taken()) <= 16 * u64::from(packet) + 23 {
            Some(StallCause::BackMissing { packet })
        } else {
            None
        }
    }

    /// Gives the return packet that the other way's next packet tells, where it tells one.
    pub(crate) fn tell_next(&mut self) -> Option<Packet>
        requires { self.old.lag ≤ 256 }
        ensures told { let tells = tells_next self.old.lag self.old.core.source.core.ticks in
            result ≡ told_now tells self.old.said.packets }
        ensures rest { let tells = tells_next self.old.lag self.old.core.source.core.ticks in
            self.new ≡ record self.old { said = left_untold tells self.old.said } }
    {
        if tells_next(u32::from(self.lag), self.core.source().core().ticks()) {
            self.said.packets.pop_front()
        } else {
            None
        }
    }
}

/// The last decision step of a source, once it has made the frame after some ticks and taken this return cell.
pub(crate) fn next_note(
    ticks: u32,
    back: Option<BackCell>,
    last: Option<StepNote>,
) -> Option<StepNote>
    ensures { result ≡ (if ticks % 16 == 8
        then Some (record { packet = ticks / 16; back = back }) else last) }
{
    if ticks % 16 == 8 {
        Some(StepNote {
            packet: ticks / 16,
            back,
        })
    } else {
        last
    }
}

/// Whether the frame after some ticks begins a packet that tells a return packet.
fn tells_next(lag: u32, ticks: u32) -> bool
    requires { lag ≤ 256 }
    ensures { result ≡ tells_next lag ticks }
{
    16 * lag + 8 <= ticks && ticks % 16 == 8
}
