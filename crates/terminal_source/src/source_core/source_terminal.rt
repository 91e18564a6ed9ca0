//! The source terminal.

ghost use Rattle.std.specs.Prelude.{◌≡◌, ◌+◌, ◌<◌, ◌≤◌, ◌↔◌, [], List, Option, IfOk, OnErr, IsSome, length};
ghost use Rattle.law_model.specs.declared.lcas_states.Command.TheVariants.{Add as add, Remove as remove};
ghost use Rattle.law_model.specs.Common.{Scenario, steps_in, Told, told_by, refusal, refusal_while, refusal_in};
ghost use Rattle.law_model.specs.Common.{frame_of, vc4_size, IsStatuses, most_lines};
ghost use Rattle.member_cells.specs.HeldPlaces.{held};
ghost use Rattle.terminal_source.specs.source_core.Terminal.{needed, SameKind};
ghost use Rattle.terminal_source.specs.source_core.GivenScenario.{with_frame, with_command, with_cell, with_told};
ghost use Rattle.terminal_source.specs.source_core.GivenScenario.{IsFresh, SourceStands};

use crate::lcas_source::{CommandFault, SourceTable};
use crate::source_core::container_frame::{begin_all, fill_all};
use crate::source_core::packets_of_step::{NIBBLES, no_packets, take_step};
use arrayvec::ArrayVec;
use gfp_fill::{AcceptFault, Filler, FrameQueue};
use law_model::{Command, MOST_LINES};
use member_cells::{BackCell, HeldContainer};
use member_rows::lcas_packet::Packet;
use std::alloc::{AllocError, Global};
use std::marker::Model;

/// The source terminal of a group.
#[derive(Drop)]
pub struct SourceCore {
    /// The accepted frames of which no octet is sent yet.
    queue: FrameQueue,
    /// The stream that the frames are put into.
    filler: Filler,
    /// The table of the lines.
    table: SourceTable,
    /// The return cell of packet `k` is taken in decision step `k + lag`.
    lag: u16,
    /// The payload octets of a container.
    size: u16,
    /// How many ticks were made.
    ticks: u32,
    /// The lines that carry payload.
    active: ArrayVec<u8, MOST_LINES>,
    /// The nibbles of the packet of each line.
    nibbles: Vec<[u8; NIBBLES]>,
    /// The return packet that the packets of the next decision step pass on.
    told: Option<Packet>,
    /// The payload of one row, over all lines.
    row: Vec<u8>,
}

impl Model for SourceCore {
    ghost use Rattle.std.specs.Prelude.{length};
    ghost use Rattle.law_model.specs.Common.{passed_on};
    ghost use Rattle.terminal_source.specs.source_core.Terminal.{Terminal};
    ghost use Rattle.terminal_source.specs.source_core.StepOfTerminal.{terminal_of, IsTerminal};

    ghost Value = { Terminal };

    ghost view = { λ s. terminal_of s.lag s.size s.ticks s.queue s.filler s.table s.active.items s.nibbles.items
        (passed_on s.told) };

    ghost invariant = { λ s. IsTerminal (terminal_of s.lag s.size s.ticks s.queue s.filler s.table s.active.items
        s.nibbles.items (passed_on s.told)) (length s.row.items) };
}

impl SourceCore {
    /// The terminal of a group of `lines` lines, up to 128, with `size` payload octets in a container, up to
    /// 2,340, of which all statuses are told by `statuses` return packets, 16 or 32. The return cell of packet
    /// `k` comes with the tick of frame `16 (k + lag) + 8`.
    pub fn new(
        alloc: Global,
        lines: u8,
        lag: u16,
        size: u16,
        statuses: u8,
    ) -> Result<SourceCore, AllocError>
        requires lines { lines ≤ most_lines }
        requires size { size ≤ vc4_size }
        requires statuses { IsStatuses statuses }
        ensures stands { IfOk result (λ core. (scenario : Scenario) →
            IsFresh scenario lines lag size statuses → SourceStands core scenario []) }
        ensures lines { IfOk result (λ core. core.lines ≡ lines) }
        ensures lag { IfOk result (λ core. core.lag ≡ lag) }
        ensures size { IfOk result (λ core. core.size ≡ size) }
        ensures statuses { IfOk result (λ core. core.statuses ≡ statuses) }
        ensures ticks { IfOk result (λ core. core.ticks ≡ 0) }
    {
        Ok(SourceCore {
            queue: FrameQueue::new(alloc)?,
            filler: Filler::new(),
            table: SourceTable::new(lines, statuses),
            lag,
            size,
            ticks: 0,
            active: ArrayVec::new(),
            nibbles: no_packets(alloc, lines)?,
            told: None,
            row: vec![in alloc; 0u8; usize::from(size) * usize::from(lines)]?,
        })
    }

    /// Takes a frame of the client, from its destination address to its FCS. A refusal tells its first cause,
    /// and changes nothing.
    pub fn accept(&mut self, frame: &[u8]) -> Result<(), AcceptFault>
        ensures refused { refusal_in result ≡ refusal_while self.old.queue.waiting frame.now }
        ensures unchanged { OnErr result (self.new ≡ self.old) }
        ensures stands { (scenario : Scenario) (cells : List (Option Told)) →
            SourceStands self.old scenario cells →
            SourceStands self.new (with_frame scenario self.old.ticks frame.now) cells }
        ensures ticks { self.new.ticks ≡ self.old.ticks }
        ensures kind { SameKind self.new self.old }
    {
        self.queue.push(frame)
    }

    /// Asks for a line to become a member. A refusal tells its first cause, and changes nothing.
    pub fn add(&mut self, line: u8) -> Result<(), CommandFault>
        ensures refused { refusal_in result ≡ refusal self.old.lines (add line) self.old.table.source }
        ensures unchanged { OnErr result (self.new ≡ self.old) }
        ensures stands { (scenario : Scenario) (cells : List (Option Told)) →
            SourceStands self.old scenario cells →
            SourceStands self.new (with_command scenario self.old.ticks (add line)) cells }
        ensures ticks { self.new.ticks ≡ self.old.ticks }
        ensures kind { SameKind self.new self.old }
    {
        self.table.add(line)
    }

    /// Asks for a line to be no member any more. A refusal tells its first cause, and changes nothing.
    pub fn remove(&mut self, line: u8) -> Result<(), CommandFault>
        ensures refused { refusal_in result
            ≡ refusal self.old.lines (remove line) self.old.table.source }
        ensures unchanged { OnErr result (self.new ≡ self.old) }
        ensures stands { (scenario : Scenario) (cells : List (Option Told)) →
            SourceStands self.old scenario cells →
            SourceStands self.new (with_command scenario self.old.ticks (remove line)) cells }
        ensures ticks { self.new.ticks ≡ self.old.ticks }
        ensures kind { SameKind self.new self.old }
    {
        self.table.remove(line)
    }

    /// The first cause for which a command would be refused now; none where it would be taken.
    pub fn command_refusal(&self, command: Command) -> Option<CommandFault>
        ensures { result ≡ refusal self.now.lines command self.now.table.source }
    {
        self.table.refusal(command)
    }

    /// The number of the return cell that the next tick takes. It takes one exactly where it makes decision
    /// step `j`, so that the next frame is `16 j + 8`, and `j` is the lag or more; the cell's number is then
    /// `j` less the lag.
    pub fn needs_back(&self) -> Option<u32>
        ensures { result ≡ needed self.now }
    {
        let step = self.ticks / 16;
        let lag = u32::from(self.lag);
        if self.ticks % 16 == 8 && step >= lag {
            Some(step - lag)
        } else {
            None
        }
    }

    /// Has the packets of the next decision step pass on the return packet that the terminal says of the other
    /// way of a pair: they tell its member status and its RS-Ack. Where the call isn't made between two steps
    /// both are 0, and where it is made again the last one counts.
    pub fn tell(&mut self, packet: Packet)
        ensures stands { (scenario : Scenario) (cells : List (Option Told)) →
            SourceStands self.old scenario cells →
            SourceStands self.new (with_told scenario (steps_in self.old.ticks) (told_by packet)) cells }
        ensures ticks { self.new.ticks ≡ self.old.ticks }
        ensures kind { SameKind self.new self.old }
    {
        self.told = Some(packet);
    }

    /// Makes the next row, the container of each line in its box. The return cell that `needs_back` names is there
    /// exactly where it names one.
    pub fn tick(&mut self, back: Option<BackCell>, out: &mut [Box<HeldContainer>])
        requires places { length out.old ≡ self.old.lines }
        requires back { IsSome back ↔ IsSome (needed self.old) }
        requires few { self.old.ticks < 4294967295 }
        ensures stands { (scenario : Scenario) (cells : List (Option Told)) →
            SourceStands self.old scenario cells →
            SourceStands self.new scenario (with_cell cells back) }
        ensures frame { (scenario : Scenario) (cells : List (Option Told)) →
            SourceStands self.old scenario cells →
            held out.new ≡ frame_of scenario (with_cell cells back) self.old.ticks }
        ensures ticks { self.new.ticks ≡ self.old.ticks + 1 }
        ensures kind { SameKind self.new self.old }
    {
        take_step(
            self.ticks,
            back,
            &mut self.told,
            &mut self.table,
            &mut self.active,
            &mut self.nibbles,
        );
        let size = usize::from(self.size);
        begin_all(self.ticks, &self.nibbles, &self.active, size, out);
        fill_all(
            &mut self.filler,
            &mut self.queue,
            &self.active,
            size,
            &mut self.row,
            out,
        );
        self.ticks += 1;
    }

    /// How many ticks were made.
    pub fn ticks(&self) -> u32
        ensures { result ≡ self.now.ticks }
    {
        self.ticks
    }

    /// The frames that were accepted and aren't sent yet.
    pub fn queue(&self) -> &FrameQueue
        ensures { result.now ≡ self.now.queue }
    {
        &self.queue
    }

    /// The table of the lines after the last decision step.
    pub fn table(&self) -> &SourceTable
        ensures table { result.now ≡ self.now.table }
        ensures steps { result.now.steps ≡ steps_in self.now.ticks }
    {
        &self.table
    }
}
