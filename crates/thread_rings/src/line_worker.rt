//! A worker that carries the containers of a line from ring to ring.
ghost use Rattle.std.specs.Prelude.{◌≡◌, ◌≢◌, ◌+◌, ◌<◌, ◌≤◌, ◌++◌, [], length, min, false};
ghost use Rattle.law_model.specs.Common.{Container};
ghost use Rattle.member_path.specs.path_delay.CallsOnDelayedLine.{DelayStands, path_cells};
ghost use Rattle.thread_rings.specs.EndsOfRing.{out_passed, out_free, out_misses, out_hand, in_passed};
ghost use Rattle.thread_rings.specs.EndsOfRing.{in_hand, SameOut};
ghost use Rattle.thread_rings.specs.WorkerLineCalls.{calls_on, hand_cells, IsPushed, IsFlushed};
ghost use Rattle.thread_rings.specs.LineAlarms.{failed_after};

use crate::alarm_kinds::Alarm;
use crate::burst_gate::{Gate, Who};
use crate::raised_alarms::Raised;
use crate::ring_ends::{RingIn, RingOut};
use member_cells::{Cell, Container};
use member_path::cell_numbers::CellSign;
use member_path::path_delay::LineCore;

/// The most carries of a burst.
const CARRIES: u32 = 16;

/// Why nothing was carried.
#[derive(Clone, Copy, Debug, PartialEq, Eq)]
pub enum IdleCause {
    /// The look found no container, and not all of them were popped.
    Empty,
    /// The look found no slot for a cell.
    Full,
}

/// What a burst did.
#[derive(Clone, Copy, Debug, PartialEq, Eq)]
pub enum Burst {
    /// At least one carry was made.
    Moved,
    /// No carry was made.
    Idle(IdleCause),
    /// The end had been pushed before.
    Done,
}

/// The worker of a line: it pops containers, and pushes the cells that the line gives for them.
#[derive(Drop)]
pub struct LineWorker {
    line: u8,
    /// Where it pops containers.
    pub consumer: RingIn<Container>,
    core: LineCore,
    /// Where it pushes cells.
    pub producer: RingOut<Cell>,
    /// What the cells of the last burst raised.
    raised: Raised,
    ghost stands: { DelayStands core (calls_on core (in_passed consumer)) },
    ghost sent: { out_passed producer ≡ path_cells (calls_on core (in_passed consumer)) },
    /// No flush is made before all containers were pushed.
    pub ghost order: { 0 < core.flushed → core.pushed ≡ core.total },
    /// The flushes are at most one more than the delay in frames.
    pub ghost flushes: { core.flushed ≤ core.delay + 1 },
    /// No more containers were popped than the line carries.
    pub ghost received: { length (in_passed consumer) ≤ core.total },
    ghost failed: { raised.failed ≡ failed_after false (out_passed producer) },
    ghost next: { raised.place ≡ min (length (out_passed producer)) 4294967295 },
}

impl LineWorker {
    ghost use Rattle.std.specs.Prelude.{◌≡◌, ◌≢◌, ◌+◌, ◌<◌, ◌≤◌, ◌↔◌, ◌++◌, [], length, Contains};
    ghost use Rattle.law_model.specs.Common.{Cell, cells};
    ghost use Rattle.law_model.specs.members.Damage.{carried};
    ghost use Rattle.thread_rings.specs.EndsOfRing.{out_passed, in_passed};
    ghost use Rattle.thread_rings.specs.WorkerLineCalls.{IsOpened};
    ghost use Rattle.thread_rings.specs.WorkerOfLine.{number_of, delay_of, windows_of, total_of, flushes_of};
    ghost use Rattle.thread_rings.specs.WorkerOfLine.{carries_of};
    ghost use Rattle.thread_rings.specs.WorkerOfLine.{IsLater, WasEmpty, WasFull};
    ghost use Rattle.thread_rings.specs.WorkerOfLine.{raised_by, last_raised, HasNoted};

    /// The worker of line number `line`, over fresh rings and a line into which nothing was pushed.
    pub fn new(
        line: u8,
        consumer: RingIn<Container>,
        core: LineCore,
        producer: RingOut<Cell>,
    ) -> LineWorker
        requires consumer { in_passed consumer ≡ [] }
        requires producer { out_passed producer ≡ [] }
        requires core { IsOpened core }
        ensures line { number_of result ≡ line }
        ensures delay { delay_of result ≡ core.delay }
        ensures windows { windows_of result ≡ core.windows }
        ensures total { total_of result ≡ core.total }
        ensures flushes { flushes_of result ≡ 0 }
        ensures ends { (result.consumer ≡ consumer) × (result.producer ≡ producer) }
        ensures none { last_raised result ≡ [] }
    {
        LineWorker {
            line,
            consumer,
            core,
            producer,
            raised: Raised::new(),
        }
    }

    /// Passes the gate, and then makes up to 16 carries. What was sent since the worker was made is, whatever
    /// the bursts were, the cells of the path of its line for the containers that were received. Once the end
    /// was pushed no burst is made, and the alarms are still those of the last one that was made.
    pub fn burst<G: Gate>(&mut self, gate: &G) -> Burst
        ensures sent { out_passed self.new.producer
            ≡ cells (carried (windows_of self.new)) (delay_of self.new) (total_of self.new)
            (in_passed self.new.consumer) (carries_of self.new) }
        ensures moved { (result ≡ Burst.Moved) ↔ (carries_of self.old < carries_of self.new) }
        ensures most { carries_of self.new ≤ carries_of self.old + 16 }
        ensures done { (result ≡ Burst.Done) ↔ Contains (out_passed self.old.producer) Cell.End }
        ensures still { result ≡ Burst.Done → self.new ≡ self.old }
        ensures empty { result ≡ Burst.Idle IdleCause.Empty → WasEmpty self.old self.new }
        ensures full { result ≡ Burst.Idle IdleCause.Full → WasFull self.old self.new }
        ensures later { IsLater self.old self.new }
        ensures cells { length (out_passed self.new.producer) ≤ total_of self.new + 1 }
        ensures alarms { result ≢ Burst.Done → total_of self.new < 4294967296 →
            raised_by self.new ≡ raised_by self.old ++ last_raised self.new }
    {
        gate.pass(Who::Line(self.line));
        if self.core.ended() {
            return Burst::Done;
        }
        self.raised.alarms.clear();
        let first = self.carry();
        if first == Burst::Moved {
            self.carry_on();
            gate.moved(Who::Line(self.line));
        }
        first
    }

    /// What the cells of the last burst raised that was made, in their order; none before the first one. A call of
    /// `burst` that answers `Done` makes none, so who posts them looks at the answer first.
    pub fn alarms(&self) -> &[Alarm]
        ensures last { result.now ≡ last_raised self.now }
        ensures few { length result.now ≤ 16 }
    {
        self.raised.alarms.as_slice()
    }

    /// Makes carries up to the sixteenth of a burst, after the first.
    fn carry_on(&mut self)
        requires { length (last_raised self.old) ≤ 1 }
        ensures noted { HasNoted self.old self.new }
        ensures least { carries_of self.old ≤ carries_of self.new }
        ensures most { carries_of self.new ≤ carries_of self.old + 15 }
        ensures later { IsLater self.old self.new }
    {
        for _ in 1..CARRIES {
            if self.carry() != Burst::Moved {
                return;
            }
        }
    }

    /// Makes a carry if it can.
    fn carry(&mut self) -> Burst
        requires { length (last_raised self.old) < 16 }
        ensures noted { HasNoted self.old self.new }
        ensures few { length (last_raised self.new) ≤ length (last_raised self.old) + 1 }
        ensures moved { result ≡ Burst.Moved → carries_of self.new ≡ carries_of self.old + 1 }
        ensures stays { result ≢ Burst.Moved → carries_of self.new ≡ carries_of self.old }
        ensures done { (result ≡ Burst.Done) ↔ Contains (out_passed self.old.producer) Cell.End }
        ensures still { result ≡ Burst.Done → self.new ≡ self.old }
        ensures empty { result ≡ Burst.Idle IdleCause.Empty → WasEmpty self.old self.new }
        ensures full { result ≡ Burst.Idle IdleCause.Full → WasFull self.old self.new }
        ensures later { IsLater self.old self.new }
    {
        if self.core.ended() {
            return Burst::Done;
        }
        if self.core.all_pushed() {
            return self.flush();
        }
        self.pass()
    }

    /// Carries the next container, where it is there and there is a slot for its cell. It stays in its box, and
    /// so does the one that comes out.
    fn pass(&mut self) -> Burst
        requires more { self.old.core.pushed < self.old.core.total }
        requires room { length (last_raised self.old) < 16 }
        ensures noted { HasNoted self.old self.new }
        ensures few { length (last_raised self.new) ≤ length (last_raised self.old) + 1 }
        ensures moved { result ≡ Burst.Moved → carries_of self.new ≡ carries_of self.old + 1 }
        ensures stays { result ≢ Burst.Moved → carries_of self.new ≡ carries_of self.old }
        ensures never { result ≢ Burst.Done }
        ensures empty { result ≡ Burst.Idle IdleCause.Empty → WasEmpty self.old self.new }
        ensures full { result ≡ Burst.Idle IdleCause.Full → WasFull self.old self.new }
        ensures later { IsLater self.old self.new }
    {
        if !self.consumer.ready() {
            return Burst::Idle(IdleCause::Empty);
        }
        if !self.producer.ready() {
            return Burst::Idle(IdleCause::Full);
        }
        self.consumer.pop_hand();
        let carry = push_hand(&mut self.core, &mut self.consumer, &mut self.producer);
        send(&mut self.producer, carry);
        self.raised.note(self.line, carry);
        Burst::Moved
    }

    /// Makes a carry after the last container, where there is a slot for its cell.
    fn flush(&mut self) -> Burst
        requires pushed { self.old.core.pushed ≡ self.old.core.total }
        requires runs { self.old.core.flushed ≤ self.old.core.delay }
        requires room { length (last_raised self.old) < 16 }
        ensures noted { HasNoted self.old self.new }
        ensures few { length (last_raised self.new) ≤ length (last_raised self.old) + 1 }
        ensures moved { result ≡ Burst.Moved → carries_of self.new ≡ carries_of self.old + 1 }
        ensures stays { result ≢ Burst.Moved → carries_of self.new ≡ carries_of self.old }
        ensures never { result ≢ Burst.Done }
        ensures other { result ≢ Burst.Idle IdleCause.Empty }
        ensures full { result ≡ Burst.Idle IdleCause.Full → WasFull self.old self.new }
        ensures later { IsLater self.old self.new }
    {
        if !self.producer.ready() {
            return Burst::Idle(IdleCause::Full);
        }
        let carry = flush_hand(&mut self.core, &mut self.producer);
        send(&mut self.producer, carry);
        self.raised.note(self.line, carry);
        Burst::Moved
    }
}

/// Pushes the container in the hand of one end into the line, and leaves the cell that comes out, if any, in the
/// hand of the other.
fn push_hand(
    core: &mut LineCore,
    from: &mut RingIn<Container>,
    to: &mut RingOut<Cell>,
) -> Option<CellSign>
    requires { core.old.pushed < core.old.total }
    ensures pushed { IsPushed core.old core.new (in_hand from.old) result (out_hand to.new) }
    ensures from { from.new ≡ record from.old { hand = in_hand from.new } }
    ensures to { to.new ≡ record to.old { hand = out_hand to.new } }
{
    let carry = core.push(&mut from.hand, &mut to.hand.container);
    if let Some(sign) = carry {
        to.hand.sign = sign;
    }
    carry
}

/// Flushes the line, and leaves the cell that comes out, if any, in the hand of the end.
fn flush_hand(core: &mut LineCore, to: &mut RingOut<Cell>) -> Option<CellSign>
    requires pushed { core.old.pushed ≡ core.old.total }
    requires runs { core.old.flushed ≤ core.old.delay }
    ensures flushed { IsFlushed core.old core.new result (out_hand to.new) }
    ensures to { to.new ≡ record to.old { hand = out_hand to.new } }
{
    let carry = core.flush(&mut to.hand.container);
    if let Some(sign) = carry {
        to.hand.sign = sign;
    }
    carry
}

/// Pushes the cell of a carry, if it gave one: that in the hand.
fn send(producer: &mut RingOut<Cell>, carry: Option<CellSign>)
    requires { 0 < out_free producer.old }
    ensures sent { out_passed producer.new
        ≡ out_passed producer.old ++ hand_cells carry (out_hand producer.old) }
    ensures same { SameOut producer.old producer.new }
    ensures quiet { out_misses producer.new ≡ out_misses producer.old }
{
    if carry.is_some() {
        producer.push_hand();
    }
}
