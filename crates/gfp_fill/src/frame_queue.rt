//! The frames that are accepted, and how many wait.

ghost use Rattle.std.specs.Prelude.{◌≡◌, ℕ, ◌<◌, ◌≤◌, ◌↔◌, [], ◌∷◌, ◌++◌, length, IsOk, IfOk, OnOk, OnErr};
ghost use Rattle.std.specs.Result.{result_err};
ghost use Rattle.law_model.specs.Common.{Stream, refusal_while, offered, most_waiting};
ghost use Rattle.gfp_fill.specs.Queue.{IsFrameLength, IsOtherLength, unbegun};
ghost use Rattle.gfp_fill.specs.SentAreas.{Sender};
ghost use Rattle.gfp_fill.specs.FilledStream.{FillerStands};

use crate::area_sender::AreaSender;
use crate::frame_store::{BegunFrame, FrameStore};
use crate::waiting_frames::WaitingFrames;
use gfp_headers::type_bytes;
use law_model::{AcceptFault, LONGEST_FRAME};
use std::alloc::{AllocError, Global};
use std::marker::Model;

/// The least number of octets in a frame that is accepted, from the destination address to the FCS.
pub const MIN_FRAME: usize = 64;

/// How many frames may wait.
const MAX_WAITING: usize = 256;

/// The accepted frames that wait, oldest first, and the one that is being sent.
#[derive(Drop)]
pub struct FrameQueue {
    store: FrameStore<MAX_WAITING>,
    begun: BegunFrame,
}

impl Model for FrameQueue {
    ghost use Rattle.gfp_fill.specs.Queue.{Held};

    ghost Value = { Held };

    ghost view = { λ queue. record { waiting = queue.store; begun = queue.begun } };
}

impl FrameQueue {
    /// An empty queue with room for 256 frames of `LONGEST_FRAME` octets and for the one that is being sent.
    pub fn new(alloc: Global) -> Result<FrameQueue, AllocError>
        ensures { IfOk result (λ queue. queue ≡ unbegun []) }
    {
        Ok(FrameQueue {
            store: FrameStore::new(alloc)?,
            begun: BegunFrame::new(alloc)?,
        })
    }

    /// Accepts a frame, or refuses it and stays as it was.
    pub fn push(&mut self, frame: &[u8]) -> Result<(), AcceptFault>
        ensures length { (result ≡ Err (AcceptFault.Length (length frame.now))) ↔
            IsOtherLength (length frame.now) }
        ensures full { (result ≡ Err (AcceptFault.QueueFull most_waiting)) ↔
            (IsFrameLength (length frame.now) × (length self.old.waiting ≡ most_waiting)) }
        ensures ok { IsOk result ↔
            (IsFrameLength (length frame.now) × (length self.old.waiting < most_waiting)) }
        ensures accepted { OnOk result (self.new.waiting ≡ self.old.waiting ++ frame.now ∷ []) }
        ensures sending { self.new.begun ≡ self.old.begun }
        ensures unchanged { OnErr result (self.new ≡ self.old) }
        ensures refusal { result_err result ≡ refusal_while self.old.waiting frame.now }
        ensures stands { (sender : Sender) (stream : Stream) (place : ℕ) →
            FillerStands sender self.old stream place →
            FillerStands sender self.new (offered stream frame.now) place }
    {
        if frame.len() < MIN_FRAME || frame.len() > LONGEST_FRAME {
            return Err(AcceptFault::Length {
                n: frame.len() as u64,
            });
        }
        if self.store.push(frame) {
            return Ok(());
        }
        Err(AcceptFault::QueueFull {
            waiting: MAX_WAITING as u16,
        })
    }

    /// The first cause for which a frame would be refused now; none where it would be taken.
    pub fn refusal(&self, frame: &[u8]) -> Option<AcceptFault>
        ensures { result ≡ refusal_while self.now.waiting frame.now }
    {
        if frame.len() < MIN_FRAME || frame.len() > LONGEST_FRAME {
            return Some(AcceptFault::Length {
                n: frame.len() as u64,
            });
        }
        if self.store.waiting.len() >= MAX_WAITING {
            return Some(AcceptFault::QueueFull {
                waiting: MAX_WAITING as u16,
            });
        }
        None
    }

    /// How many frames wait.
    pub fn waiting(&self) -> u16
        ensures count { result ≡ length self.now.waiting }
        ensures within { result ≤ most_waiting }
    {
        self.store.waiting.len() as u16
    }
}

impl WaitingFrames for FrameQueue {
    ghost use Rattle.gfp_fill.specs.FilledStream.{oldest_first};

    ghost Stream = { Stream };

    ghost order = { oldest_first };

    #[inline]
    fn order_law() {}

    #[inline]
    fn left(&self) -> usize {
        self.begun.left()
    }

    #[inline]
    fn send(&mut self, sender: &mut AreaSender, out: &mut [u8]) -> usize {
        sender.send_frame(&mut self.begun, out)
    }

    #[inline]
    fn begin_next(&mut self, sender: &mut AreaSender) -> bool {
        let Some(n) = self.store.begin(&mut self.begun) else {
            return false;
        };
        sender.begin(&type_bytes(), n);
        true
    }
}
