//! The two ends of a ring. Nothing else touches the ring.
ghost use Rattle.std.specs.Prelude.{◌≡◌, ◌+◌, ◌<◌, ◌≤◌, ◌↔◌, [], ◌∷◌, ◌++◌, length, IsTrue, IsFalse, IfOk};
ghost use mathlib.Core.List.{IsPrefix};
ghost use Rattle.law_model.specs.Common.{one_more};
ghost use Rattle.thread_rings.specs.EndsOfRing.{out_passed, out_free, out_misses, out_hand, in_passed};
ghost use Rattle.thread_rings.specs.EndsOfRing.{in_items, in_misses};
ghost use Rattle.thread_rings.specs.EndsOfRing.{in_hand, AreEnds, SameOut, SameIn, AreFresh, AreSpare};

use crate::ring_places::Placed;
use rtrb::{Consumer, Producer, RingBuffer};
use std::alloc::{AllocError, Global};
use std::marker::Model;
use std::mem;

/// The end of a ring that pushes. With each item it hands a place on, and takes one that came back. It counts
/// the looks that found no slot, or no place for one; the count stops at 2^64 - 1.
#[derive(Drop)]
pub struct RingOut<T: Placed> {
    producer: Producer<T::Place>,
    /// The places that came back.
    spares: Consumer<T::Place>,
    /// A place to be written before it is pushed.
    pub(crate) hand: T::Place,
    misses: u64,
}

impl<T: Placed> Model for RingOut<T> {
    ghost use Rattle.std.specs.Prelude.{◌≡◌, map, min, length};
    ghost use Rattle.rtrb.specs.Ring.{sent, received, known_free, known_items, producer_capacity};
    ghost use Rattle.thread_rings.specs.EndsOfRing.{OutEnd, strand_out, strand_in};

    ghost Value = { OutEnd T };

    ghost view = { λ out. record {
      passed = map T.lies_in (sent out.producer);
      free = min (known_free out.producer) (length (known_items out.spares));
      size = producer_capacity out.producer;
      misses = out.misses;
      hand = T.lies_in out.hand;
      forth = strand_out out.producer;
      back = strand_in out.spares;
    } };

    ghost invariant = { λ out. length (received out.spares) ≡ length (sent out.producer) };
}

/// The end of a ring that pops. For each item it gives a place back. It counts the looks that found no item; the
/// count stops at 2^64 - 1.
#[derive(Drop)]
pub struct RingIn<T: Placed> {
    consumer: Consumer<T::Place>,
    /// Where places go back.
    returns: Producer<T::Place>,
    /// The place of the item that was popped last.
    pub(crate) hand: T::Place,
    misses: u64,
}

impl<T: Placed> Model for RingIn<T> {
    ghost use Rattle.std.specs.Prelude.{◌≡◌, ◌+◌, map, take, length};
    ghost use Rattle.rtrb.specs.Ring.{sent, received, known_free, known_items, producer_capacity, consumer_capacity};
    ghost use Rattle.thread_rings.specs.EndsOfRing.{InEnd, strand_out, strand_in};

    ghost Value = { InEnd T };

    ghost view = { λ into. record {
      passed = map T.lies_in (received into.consumer);
      items = take (known_free into.returns) (map T.lies_in (known_items into.consumer));
      size = consumer_capacity into.consumer;
      misses = into.misses;
      hand = T.lies_in into.hand;
      forth = strand_in into.consumer;
      back = strand_out into.returns;
    } };

    ghost invariant = { λ into. length (sent into.returns)
        ≡ length (received into.consumer) + producer_capacity into.returns };
}

/// A ring by which places go back, with so many of them in it.
fn spare_ring<T: Placed>(
    alloc: Global,
    size: usize,
) -> Result<(Producer<T::Place>, Consumer<T::Place>), AllocError>
    ensures { IfOk result (λ ends. AreSpare ends.0 ends.1 size) }
{
    let (mut returns, mut spares) = RingBuffer::new(alloc, size)?;
    for _ in 0..size {
        returns.push_reserved(T::new_place(alloc)?);
    }
    spares.slots_beside(&mut returns);
    Ok((returns, spares))
}

/// A ring of so many slots.
pub(crate) fn make_ring<T: Placed>(
    alloc: Global,
    size: usize,
) -> Result<(RingOut<T>, RingIn<T>), AllocError>
    ensures { IfOk result (λ ends. AreFresh ends.0 ends.1 size) }
{
    let (producer, consumer) = RingBuffer::new(alloc, size)?;
    let (returns, spares) = spare_ring::<T>(alloc, size)?;
    let out = RingOut {
        producer,
        spares,
        hand: T::new_place(alloc)?,
        misses: 0,
    };
    let into = RingIn {
        consumer,
        returns,
        hand: T::new_place(alloc)?,
        misses: 0,
    };
    Ok((out, into))
}

impl<T: Placed> RingOut<T> {
    /// Looks for a free slot. A look that finds none, where none was known, is counted as a miss.
    pub fn ready(&mut self) -> bool
        ensures known { IsTrue result ↔ (0 < out_free self.new) }
        ensures missed { IsFalse result → out_free self.old ≡ 0 }
        ensures counted { IsFalse result →
            out_misses self.new ≡ one_more (out_misses self.old) }
        ensures quiet { IsTrue result → out_misses self.new ≡ out_misses self.old }
        ensures same { SameOut self.old self.new }
        ensures passed { out_passed self.new ≡ out_passed self.old }
        ensures kept { out_free self.old ≤ out_free self.new }
    {
        if self.knows_slot() {
            return true;
        }
        self.producer.slots();
        self.spares.slots();
        if self.knows_slot() {
            return true;
        }
        self.misses = self.misses.saturating_add(1);
        false
    }

    /// Whether a slot is known to be free, and a place for it has come back.
    fn knows_slot(&self) -> bool
        ensures { IsTrue result ↔ (0 < out_free self.now) }
    {
        self.producer.cached_slots() > 0 && self.spares.cached_slots() > 0
    }

    /// Pushes an item into a slot that is known to be free.
    pub fn push(&mut self, item: T)
        requires { 0 < out_free self.old }
        ensures passed { out_passed self.new ≡ out_passed self.old ++ item ∷ [] }
        ensures free { out_free self.old ≡ out_free self.new + 1 }
        ensures quiet { out_misses self.new ≡ out_misses self.old }
        ensures same { SameOut self.old self.new }
    {
        item.put(&mut self.hand);
        self.push_hand();
    }

    /// Pushes an item as `push` does, in its place, and leaves another place for it.
    pub fn push_place(&mut self, place: &mut T::Place)
        requires { 0 < out_free self.old }
        ensures passed { out_passed self.new ≡ out_passed self.old ++ T.lies_in place.old ∷ [] }
        ensures free { out_free self.old ≡ out_free self.new + 1 }
        ensures quiet { out_misses self.new ≡ out_misses self.old }
        ensures same { SameOut self.old self.new }
    {
        mem::swap(place, &mut self.hand);
        self.push_hand();
    }

    /// Pushes what lies in the hand.
    pub(crate) fn push_hand(&mut self)
        requires { 0 < out_free self.old }
        ensures passed { out_passed self.new ≡ out_passed self.old ++ out_hand self.old ∷ [] }
        ensures free { out_free self.old ≡ out_free self.new + 1 }
        ensures quiet { out_misses self.new ≡ out_misses self.old }
        ensures same { SameOut self.old self.new }
    {
        let mut place = self.spares.pop_known();
        mem::swap(&mut place, &mut self.hand);
        self.producer.push_reserved(place);
    }
}

impl<T: Placed> RingIn<T> {
    /// Looks for an item. A look that finds none, where none was known, is counted as a miss.
    pub fn ready(&mut self) -> bool
        ensures known { IsTrue result ↔ (0 < length (in_items self.new)) }
        ensures missed { IsFalse result → in_items self.old ≡ [] }
        ensures counted { IsFalse result → in_misses self.new ≡ one_more (in_misses self.old) }
        ensures quiet { IsTrue result → in_misses self.new ≡ in_misses self.old }
        ensures same { SameIn self.old self.new }
        ensures passed { in_passed self.new ≡ in_passed self.old }
        ensures kept { IsPrefix (in_items self.old) (in_items self.new) }
    {
        if self.knows_item() {
            return true;
        }
        // The other end takes a place before it pushes an item, so that there is room for the place of each item seen.
        self.consumer.slots();
        self.returns.slots();
        if self.knows_item() {
            return true;
        }
        self.misses = self.misses.saturating_add(1);
        false
    }

    /// Whether an item is known to be there, and room for its place.
    fn knows_item(&self) -> bool
        ensures { IsTrue result ↔ (0 < length (in_items self.now)) }
    {
        self.consumer.cached_slots() > 0 && self.returns.cached_slots() > 0
    }

    /// Pops the oldest item, one that is known to be there.
    pub fn pop(&mut self) -> T
        requires { 0 < length (in_items self.old) }
        ensures passed { in_passed self.new ≡ in_passed self.old ++ result ∷ [] }
        ensures item { in_items self.old ≡ result ∷ in_items self.new }
        ensures quiet { in_misses self.new ≡ in_misses self.old }
        ensures same { SameIn self.old self.new }
    {
        self.pop_hand();
        T::of(&self.hand)
    }

    /// Pops the oldest item as `pop` does, in its place, and takes another place for it.
    pub fn pop_place(&mut self, place: &mut T::Place)
        requires { 0 < length (in_items self.old) }
        ensures passed { in_passed self.new ≡ in_passed self.old ++ T.lies_in place.new ∷ [] }
        ensures item { in_items self.old ≡ T.lies_in place.new ∷ in_items self.new }
        ensures quiet { in_misses self.new ≡ in_misses self.old }
        ensures same { SameIn self.old self.new }
    {
        self.pop_hand();
        mem::swap(place, &mut self.hand);
    }

    /// Pops the oldest item, which then lies in the hand.
    pub(crate) fn pop_hand(&mut self)
        requires { 0 < length (in_items self.old) }
        ensures passed { in_passed self.new ≡ in_passed self.old ++ in_hand self.new ∷ [] }
        ensures item { in_items self.old ≡ in_hand self.new ∷ in_items self.new }
        ensures quiet { in_misses self.new ≡ in_misses self.old }
        ensures same { SameIn self.old self.new }
    {
        let mut place = self.consumer.pop_known();
        mem::swap(&mut place, &mut self.hand);
        self.returns.push_reserved(place);
    }

    /// Looks for items while the other end lies beside: what was popped, and then the items that are known,
    /// are what was pushed.
    pub fn beside(&mut self, out: &mut RingOut<T>)
        requires { AreEnds out.old self.old }
        ensures fifo { in_passed self.new ++ in_items self.new ≡ out_passed out.new }
        ensures popped { in_passed self.new ≡ in_passed self.old }
        ensures items { IsPrefix (in_items self.old) (in_items self.new) }
        ensures pushed { out_passed out.new ≡ out_passed out.old }
        ensures free { out_free out.old ≤ out_free out.new }
        ensures in_quiet { in_misses self.new ≡ in_misses self.old }
        ensures out_quiet { out_misses out.new ≡ out_misses out.old }
        ensures same_in { SameIn self.old self.new }
        ensures same_out { SameOut out.old out.new }
        ensures ends { AreEnds out.new self.new }
    {
        self.consumer.slots_beside(&mut out.producer);
        self.returns.slots_beside(&mut out.spares);
    }
}
