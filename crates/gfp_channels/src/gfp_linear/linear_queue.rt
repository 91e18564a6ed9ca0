//! The frames that wait, channel by channel, and the one that is being sent.

ghost use Rattle.std.specs.Prelude.{◌≡◌, ℕ, ◌<◌, ◌≤◌, ◌++◌, length, IfOk, OnErr};
ghost use Rattle.std.specs.Prelude.{IfSome, IfNone, Some, None, slice_index_or};
ghost use Rattle.std.specs.Result.{result_err};
ghost use Rattle.law_model.specs.Common.{longest_frame};
ghost use Rattle.gfp_model.specs.linear_model.Channels.{silent, turn, served, oldest, pushed, channel_refusal};
ghost use Rattle.gfp_model.specs.linear_model.ChannelArea.{linear_header, extension_header};
ghost use Rattle.gfp_model.specs.linear_model.ChannelStream.{Shared, offered};
ghost use Rattle.gfp_channels.specs.gfp_linear.Queue.{unbegun, busy_from};
ghost use Rattle.gfp_fill.specs.SentAreas.{Sender};
ghost use Rattle.gfp_channels.specs.gfp_linear.Filler.{LinearFillerStands};

use crate::gfp_linear::busy_channels::{add, count_below};
use gfp_fill::{AreaSender, BegunFrame, FrameStore, MIN_FRAME, WaitingFrames};
use gfp_headers::{extension_bytes, type_bytes_linear};
use gfp_model::linear_model::ChannelFault;
use law_model::LONGEST_FRAME;
use std::alloc::{AllocError, Global};
use std::marker::Model;

// How many frames of a channel may wait.
const MAX_WAITING: usize = 16;

/// The accepted frames that wait, of each channel oldest first, and the one that is being sent.
#[derive(Drop)]
pub struct LinearQueue {
    queues: Vec<FrameStore<MAX_WAITING>>,
    // The channels with a frame, by rising number.
    busy: Vec<u8>,
    // The channel from which the next turn is looked for.
    next: u16,
    begun: BegunFrame,
}

impl Model for LinearQueue {
    ghost use Rattle.gfp_channels.specs.gfp_linear.Queue.{Queued, IsKept};

    ghost Value = { Queued };

    ghost view = { λ queue. record {
      channels = record { waiting = queue.queues.items; next = queue.next };
      begun = queue.begun;
    } };

    ghost invariant = { λ queue. IsKept queue.queues.items queue.busy queue.next };
}

impl LinearQueue {
    /// So many channels, from 1 to 256, without a frame. There is room for 16 frames of 9,600 octets of each, and for
    /// the one that is being sent; no other call takes memory.
    pub fn new(alloc: Global, channels: u16) -> Result<LinearQueue, AllocError>
        requires some { 1 ≤ channels }
        requires most { channels ≤ 256 }
        ensures { IfOk result (λ queue. queue ≡ unbegun (silent channels)) }
    {
        let count = usize::from(channels);
        let mut queues = Vec::with_capacity(alloc, count)?;
        for _ in 0..count {
            queues.push(FrameStore::new(alloc)?)?;
        }
        Ok(LinearQueue {
            queues,
            busy: Vec::with_capacity(alloc, count)?,
            next: 0,
            begun: BegunFrame::new(alloc)?,
        })
    }

    /// Accepts a frame of a channel, or refuses it and stays as it was: there is no such channel; or its length is
    /// outside 64 to 9,600; or 16 frames of this channel wait.
    pub fn push(&mut self, cid: u8, frame: &[u8]) -> Result<(), ChannelFault>
        ensures refusal { result_err result ≡ channel_refusal cid frame.now self.old.channels }
        ensures channels { self.new.channels ≡ pushed cid frame.now self.old.channels }
        ensures sending { self.new.begun ≡ self.old.begun }
        ensures unchanged { OnErr result (self.new ≡ self.old) }
        ensures stands { (sender : Sender) (shared : Shared) (place : ℕ) →
            LinearFillerStands sender self.old shared place →
            LinearFillerStands sender self.new (offered cid frame.now shared) place }
    {
        let channels = self.queues.len() as u16;
        if u16::from(cid) >= channels {
            return Err(ChannelFault::Unknown { channels });
        }
        if frame.len() < MIN_FRAME || frame.len() > LONGEST_FRAME {
            return Err(ChannelFault::Length {
                n: frame.len() as u64,
            });
        }
        let at = usize::from(cid);
        let was_silent = self.queues[at].is_empty();
        if !self.queues[at].push(frame) {
            return Err(ChannelFault::QueueFull {
                waiting: MAX_WAITING as u16,
            });
        }
        if was_silent {
            let place = count_below(self.busy.as_slice(), u16::from(cid));
            add(&mut self.busy, place, cid);
        }
        Ok(())
    }

    /// Begins to send the oldest frame of the channel whose turn it is, and says which channel that is and how many
    /// octets the frame has.
    fn begin(&mut self) -> Option<(u8, usize)>
        ensures none { IfNone result (turn self.old.channels ≡ None) }
        ensures stays { IfNone result (self.new ≡ self.old) }
        ensures turn { IfSome result (λ told. turn self.old.channels ≡ Some told.0) }
        ensures frame { IfSome result (λ told.
            self.new.begun ≡ oldest told.0 self.old.channels) }
        ensures rest { IfSome result (λ told.
            self.new.channels ≡ served told.0 self.old.channels) }
        ensures long { IfSome result (λ told. told.1 ≡ length self.new.begun) }
        ensures within { IfSome result (λ told. told.1 ≤ longest_frame) }
    {
        let at = self.turn()?;
        let cid = self.busy[at];
        let channel = usize::from(cid);
        let n = self.queues[channel].begin(&mut self.begun)?;
        self.next = u16::from(cid) + 1;
        if self.queues[channel].is_empty() {
            self.busy.remove(at);
        }
        Some((cid, n))
    }

    /// The place, among the channels with a frame, of the one whose turn it is.
    fn turn(&self) -> Option<usize>
        ensures none { IfNone result (turn self.now.channels ≡ None) }
        ensures some { IfSome result (λ at. (cid : ℕ) →
            turn self.now.channels ≡ Some (slice_index_or (busy_from 0 self.now.channels.waiting) at cid)) }
        ensures within { IfSome result (λ at. at < length (busy_from 0 self.now.channels.waiting)) }
    {
        let busy = self.busy.as_slice();
        if busy.len() == 0 {
            return None;
        }
        let at = count_below(busy, self.next);
        if at < busy.len() { Some(at) } else { Some(0) }
    }
}

impl WaitingFrames for LinearQueue {
    ghost use Rattle.gfp_channels.specs.gfp_linear.Filler.{in_turns};

    ghost Stream = { Shared };

    ghost order = { in_turns };

    #[inline]
    fn order_law() {}

    #[inline]
    fn left(&self) -> usize {
        self.begun.left()
    }

    #[inline]
    fn send(&mut self, sender: &mut AreaSender, out: &mut [u8]) -> usize {
        sender.send_frame(&mut self.begun, out)
    }

    fn begin_next(&mut self, sender: &mut AreaSender) -> bool {
        let Some((cid, n)) = self.begin() else {
            return false;
        };
        sender.begin(&area_headers(cid), n);
        true
    }
}

/// The two headers in the area of a frame of a channel, as they are before scrambling.
fn area_headers(cid: u8) -> [u8; 8]
    ensures { result ≡ linear_header ++ extension_header cid }
{
    let [a, b, c, d] = type_bytes_linear();
    let [e, f, g, h] = extension_bytes(cid);
    [a, b, c, d, e, f, g, h]
}
