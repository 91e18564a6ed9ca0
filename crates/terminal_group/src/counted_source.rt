//! The source side of a group that keeps no items: its terminal, how much has landed, and the inbox.

ghost use Rattle.std.specs.Prelude.{◌≡◌, ◌+◌, ◌<◌, List, Option, None, length, IsSome, IfOk, is_some};
ghost use Rattle.member_cells.specs.HeldPlaces.{held};
ghost use Rattle.law_model.specs.Common.{IsNetwork, Scenario, steps_in, Told, told_by, frame_of};
ghost use Rattle.terminal_source.specs.source_core.Terminal.{SameKind, needed};
ghost use Rattle.terminal_source.specs.source_core.GivenScenario.{with_cell, with_told, SourceStands as HasMade};
ghost use Rattle.law_walk.specs.Common.{is_client};
ghost use Rattle.terminal_group.specs.Item.{kind_of};
ghost use Rattle.terminal_group.specs.GivenItem.{met_by, with_kind};
ghost use Rattle.terminal_group.specs.ReturnInbox.{with_come, cell_for, rest_for};
ghost use Rattle.terminal_group.specs.SourceByCounts.{IsUnusedOn, SameNetwork, SameCounts, with_landed, missing_from};

use crate::item_ref::ItemRef;
use crate::landed_counts::LandedCounts;
use crate::return_inbox::Inbox;
use law_model::{Config, Refusal};
use member_cells::{BackCell, HeldContainer};
use std::alloc::{AllocError, Global};
use std::marker::Model;
use terminal_source::source_core::{Command, Packet, SourceCore};

/// The source side of a group of which nobody says beforehand what lands. It takes the client's frames and the
/// operator's commands as they come, and makes a row at each tick. Of what has landed it keeps counts alone.
/// Only its making takes memory.
#[derive(Drop)]
pub struct CountedSource {
    core: SourceCore,
    /// How many ticks there are.
    total: u32,
    landed: LandedCounts,
    inbox: Inbox,
}

impl Model for CountedSource {
    ghost use Rattle.std.specs.Prelude.{◌≤◌};
    ghost use Rattle.terminal_group.specs.SourceByCounts.{Counted};
    ghost use Rattle.law_model.specs.Common.{most_ticks};

    ghost Value = { Counted };

    ghost view = { λ s. record { core = s.core; total = s.total; landed = s.landed; inbox = s.inbox } };

    ghost invariant = { λ s. s.total ≤ most_ticks };
}

impl CountedSource {
    /// The source side of a network, before anything has landed.
    pub fn new(alloc: Global, config: &Config) -> Result<CountedSource, AllocError>
        requires { IsNetwork config.now }
        ensures { IfOk result (λ source. IsUnusedOn config.now source) }
    {
        Ok(CountedSource {
            inbox: Inbox::new(alloc, lost_of(config), config.lag)?,
            landed: LandedCounts::none(),
            core: SourceCore::new(
                alloc,
                config.lines,
                config.lag,
                config.size,
                config.options.statuses,
            )?,
            total: config.ticks,
        })
    }

    /// How many ticks there are.
    pub fn total_ticks(&self) -> u32
        ensures { result ≡ self.now.total }
    {
        self.total
    }

    /// The terminal.
    pub fn core(&self) -> &SourceCore
        ensures { result.now ≡ self.now.core }
    {
        &self.core
    }

    /// How much has landed.
    pub fn landed(&self) -> LandedCounts
        ensures { result ≡ self.now.landed }
    {
        self.landed
    }

    /// The inbox.
    pub fn inbox(&self) -> &Inbox
        ensures { result.now ≡ self.now.inbox }
    {
        &self.inbox
    }

    /// Takes a return cell that has come, or its loss where a return window holds it.
    pub fn put(&mut self, cell: BackCell)
        requires room { length self.old.inbox.cells < self.old.inbox.room }
        requires few { self.old.inbox.come < 4294967295 }
        ensures { self.new ≡ record self.old { inbox = with_come self.old.inbox cell } }
    {
        self.inbox.put(cell);
    }

    /// Why the source would refuse an item now, where it would.
    pub fn refusal(&self, item: ItemRef) -> Option<Refusal>
        ensures { result ≡ met_by self.now.core (kind_of item.entry) }
    {
        match item {
            ItemRef::Frame(octets) => self.core.queue().refusal(octets).map(Refusal::Frame),
            ItemRef::Add(line) => self
                .core
                .command_refusal(Command::Add(line))
                .map(Refusal::Command),
            ItemRef::Remove(line) => self
                .core
                .command_refusal(Command::Remove(line))
                .map(Refusal::Command),
        }
    }

    /// Lands an item. Answers why it is refused, where it is; then the terminal is as it was.
    pub fn land(&mut self, item: ItemRef) -> Option<Refusal>
        ensures met { result ≡ met_by self.old.core (kind_of item.entry) }
        ensures unchanged { IsSome result → self.new.core ≡ self.old.core }
        ensures made { (scenario : Scenario) (cells : List (Option Told)) →
            HasMade self.old.core scenario cells →
            HasMade self.new.core (with_kind scenario self.old.core.ticks (kind_of item.entry)) cells }
        ensures ticks { self.new.core.ticks ≡ self.old.core.ticks }
        ensures kind { SameKind self.new.core self.old.core }
        ensures landed { self.new.landed
            ≡ with_landed self.old.landed (is_client (kind_of item.entry)) (is_some result) }
        ensures rest { SameNetwork self.old self.new }
    {
        let why = give(&mut self.core, item);
        self.landed = self.landed.and_one(item.is_frame(), why.is_some());
        why
    }

    /// The return cell that the next tick needs, where the inbox holds none.
    pub fn missing(&self) -> Option<u32>
        ensures { result ≡ missing_from self.now }
    {
        match self.core.needs_back() {
            Some(packet) if self.inbox.cells.is_empty() => Some(packet),
            _ => None,
        }
    }

    /// Has the packets of the next decision step pass on a return packet that is said of the other way of a
    /// pair. Where the call isn't made between two steps they say MST 0, which reads as eight OKs, and RS-Ack 0;
    /// where it is made again the last one counts.
    pub fn tell(&mut self, packet: Packet)
        ensures made { (scenario : Scenario) (cells : List (Option Told)) →
            HasMade self.old.core scenario cells →
            HasMade self.new.core
            (with_told scenario (steps_in self.old.core.ticks) (told_by packet)) cells }
        ensures ticks { self.new.core.ticks ≡ self.old.core.ticks }
        ensures kind { SameKind self.new.core self.old.core }
        ensures rest { self.new ≡ record self.old { core = self.new.core } }
    {
        self.core.tell(packet);
    }

    /// Makes the next row, a container for each line, and takes the return cell that it needs, where it needs one.
    pub fn make(&mut self, frame: &mut Vec<Box<HeldContainer>>) -> Option<BackCell>
        requires places { length frame.old.items ≡ self.old.core.lines }
        requires left { self.old.core.ticks < self.old.total }
        requires cell { missing_from self.old ≡ None }
        ensures cell { result ≡ cell_for (is_some (needed self.old.core)) self.old.inbox.cells }
        ensures inbox { self.new.inbox ≡ record self.old.inbox {
          cells = rest_for (is_some (needed self.old.core)) self.old.inbox.cells;
        } }
        ensures made { (scenario : Scenario) (cells : List (Option Told)) →
            HasMade self.old.core scenario cells →
            HasMade self.new.core scenario (with_cell cells result) }
        ensures frame { (scenario : Scenario) (cells : List (Option Told)) →
            HasMade self.old.core scenario cells →
            held frame.new.items ≡ frame_of scenario (with_cell cells result) self.old.core.ticks }
        ensures places { length frame.new.items ≡ length frame.old.items }
        ensures ticks { self.new.core.ticks ≡ self.old.core.ticks + 1 }
        ensures kind { SameKind self.new.core self.old.core }
        ensures rest { SameCounts self.old self.new }
    {
        let cell = self.inbox.take(self.core.needs_back().is_some());
        self.core.tick(cell, frame);
        cell
    }
}

/// The return windows of a network.
fn lost_of(config: &Config) -> &[(u32, u32)]
    ensures { result.now ≡ config.now.lost }
{
    &config.lost.0
}

/// Gives an item to a terminal, and answers why it is refused, where it is. Then nothing changes.
fn give(core: &mut SourceCore, item: ItemRef) -> Option<Refusal>
    ensures met { result ≡ met_by core.old (kind_of item.entry) }
    ensures unchanged { IsSome result → core.new ≡ core.old }
    ensures stands { (scenario : Scenario) (cells : List (Option Told)) →
        HasMade core.old scenario cells →
        HasMade core.new (with_kind scenario core.old.ticks (kind_of item.entry)) cells }
    ensures ticks { core.new.ticks ≡ core.old.ticks }
    ensures kind { SameKind core.new core.old }
{
    match item {
        ItemRef::Frame(octets) => core.accept(octets).err().map(Refusal::Frame),
        ItemRef::Add(line) => core.add(line).err().map(Refusal::Command),
        ItemRef::Remove(line) => core.remove(line).err().map(Refusal::Command),
    }
}
