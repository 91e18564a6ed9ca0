//! Frames that wait, whatever the order in which they are sent.

use crate::area_sender::AreaSender;

/// The frames that wait for a filler, and the one that is being sent.
pub trait WaitingFrames {
    ghost use Rattle.std.specs.Prelude.{◌≡◌, ◌≤◌, ℕ, List, [], length, min, take, drop};
    ghost use Rattle.std.specs.Bool.{OnTrue, OnFalse};
    ghost use Rattle.gfp_fill.specs.SentAreas.{head_of, StandsIn, HasWrittenIn};
    ghost use Rattle.gfp_fill.specs.Multiplex.{Multiplex, IsMultiplex, Stands, NoneWaits};

    /// The streams that are made of them.
    ghost Stream: { Type 0 };

    /// The order in which they are sent.
    ghost order: { Multiplex Self Self.Stream };

    /// The laws of that order.
    fn order_law()
        ensures { IsMultiplex order };

    /// How many octets of the frame that is being sent aren't written.
    fn left(&self) -> usize
        ensures { result ≡ length (order.begun self.now) };

    /// Writes as many octets of the frame that is being sent as aren't written and `out` has room for, and
    /// says how many.
    fn send(&mut self, sender: &mut AreaSender, out: &mut [u8]) -> usize
        requires { head_of sender.old ≡ [] }
        ensures count { result ≡ min (length (order.begun self.old)) (length out.old) }
        ensures behind { drop result out.new ≡ drop result out.old }
        ensures writes { (areas : List (List ℕ)) (place : ℕ) →
            StandsIn sender.old (order.begun self.old) areas place →
            HasWrittenIn sender.new (order.begun self.new) areas place (take result out.new) }
        ensures waits { (stream : Self.Stream) →
            order.waits self.old stream → order.waits self.new stream };

    /// Begins the frame that comes next, and answers whether one waits. Else it changes nothing.
    fn begin_next(&mut self, sender: &mut AreaSender) -> bool
        requires { head_of sender.old ≡ [] }
        ensures some { OnTrue result (4 ≤ length (head_of sender.new)) }
        ensures begins { OnTrue result ((stream : Self.Stream) (place : ℕ) →
            order.waits self.old stream → StandsIn sender.old [] (order.areas stream) place →
            Stands order sender.new self.new (order.next stream) place) }
        ensures none { OnFalse result (NoneWaits order self.old) }
        ensures stays { OnFalse result (self.new ≡ self.old) }
        ensures same { OnFalse result (sender.new ≡ sender.old) };
}
