//! The stream of GFP frames, octet by octet.

ghost use Rattle.std.specs.Prelude.{◌≡◌, ℕ, ◌+◌, ◌<◌, ◌≤◌, [], ◌∷◌, length, take, drop};
ghost use Rattle.gfp_fill.specs.SentAreas.{StandsIn};
ghost use Rattle.gfp_fill.specs.Multiplex.{octets_of, IsMultiplex, Stands, Writes};

use crate::area_sender::AreaSender;
use crate::waiting_frames::WaitingFrames;
use std::marker::Model;

/// Writes the stream of GFP frames: two idle frames, and then each frame that waits, or an idle frame where
/// none does. The payload areas are scrambled as one list, and the core headers are not. A frame is sent from
/// the buffer in which it waited, so a `Filler` belongs to one queue.
#[derive(Clone, Copy)]
pub struct Filler {
    sender: AreaSender,
}

impl Model for Filler {
    ghost use Rattle.gfp_fill.specs.SentAreas.{Sender};

    ghost Value = { Sender };

    ghost view = { λ filler. filler.sender };

    ghost inverse = { λ sender. record { sender = sender } };
}

impl Filler {
    /// A stream of which nothing is written. Two idle frames are begun.
    pub fn new() -> Filler
        ensures { StandsIn result [] ([] ∷ [] ∷ []) 0 }
    {
        Filler {
            sender: AreaSender::new(),
        }
    }

    /// Writes the next `out.len()` octets of the stream. A frame stops waiting when its first octet is
    /// written. The queue is that of the calls before: with one that doesn't hold the frame that is being
    /// sent the filler stands nowhere.
    pub fn fill<Q: WaitingFrames>(&mut self, waiting: &mut Q, out: &mut [u8])
        ensures stands { (stream : Q.Stream) (place : ℕ) →
            Stands Q.order self.old waiting.old stream place →
            let further = place + length out.old in
            Stands Q.order self.new waiting.new (Q.order.reached further stream) further }
        ensures octets { (stream : Q.Stream) (place : ℕ) →
            Stands Q.order self.old waiting.old stream place →
            let octets = octets_of Q.order (Q.order.reached (place + length out.old) stream) in
            out.new ≡ take (length out.old) (drop place octets) }
    {
        Q::order_law();
        // A copy of its own is kept in registers.
        let mut local = *self;
        let mut filled = 0;
        while filled < out.len() {
            filled += local.fill_some(waiting, &mut out[filled..]);
        }
        *self = local;
    }

    /// Writes at least one octet, and none after the end of the piece, or of the idles, that it sends.
    fn fill_some<Q: WaitingFrames>(&mut self, waiting: &mut Q, out: &mut [u8]) -> usize
        requires order { IsMultiplex Q.order }
        requires room { 0 < length out.old }
        ensures some { 0 < result }
        ensures within { result ≤ length out.old }
        ensures writes { Writes Q.order self.old waiting.old self.new waiting.new
            (take result out.new) }
    {
        if self.sender.left() > 0 {
            return self.sender.send_headers(out);
        }
        if waiting.left() > 0 {
            return waiting.send(&mut self.sender, out);
        }
        if waiting.begin_next(&mut self.sender) {
            return self.sender.send_headers(out);
        }
        self.sender.send_idles(out)
    }
}
