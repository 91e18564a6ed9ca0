//! The table of a source: what an operator asks for, the decision steps, and what the source tells of each line.

ghost use Rattle.std.specs.Prelude.{◌≡◌, ℕ, ◌+◌, ◌-◌, ◌%◌, ◌<◌, ◌≤◌, [], ◌∷◌, List, length, Some, OnErr, All};
ghost use Rattle.std.specs.Prelude.{nat_lt, option_map};
ghost use Rattle.std.specs.Bool.{OnTrue};
ghost use Rattle.std.specs.List.{list_all};
ghost use Rattle.law_model.specs.Common.{heard, active, packet_read, told_in, read_of, bits_from, refusal, line_of};
ghost use Rattle.law_model.specs.Common.{asks, decides, called, course_of, said_by, count_of, forward_packet, state_of};
ghost use Rattle.law_model.specs.Common.{refusal_in, IsStatuses, most_lines};
ghost use Rattle.law_model.specs.declared.lcas_states.Command.{Command as CommandData};
ghost use Rattle.law_model.specs.declared.lcas_states.Command.TheVariants.{Add as add, Remove as remove};
ghost use Rattle.law_model.specs.packets.ToldToSource.{packet_in};
ghost use Rattle.law_model.specs.source.Source.{is_add};
ghost use Rattle.terminal_source.specs.lcas_source.TableFields.{none_planned, changed_by};

use crate::lcas_source::group_bits::GroupBits;
use crate::lcas_source::member_table::LineTable;
use arrayvec::ArrayVec;
use law_model::{Command, CommandFault, MOST_LINES, SourceState};
use member_cells::BackCell;
use member_rows::lcas_packet::{Packet, read};
use std::marker::Model;

/// The most commands that wait.
const PENDING: usize = 64;

/// The table of the lines of a group at its source (G.7042): what an operator asked for, which lines have a
/// sequence number, and what the sink said of them.
#[derive(Drop)]
pub struct SourceTable {
    lines: u8,
    /// How many return packets tell all statuses.
    statuses: u8,
    table: LineTable,
    /// Which lines accepted commands have added and not removed.
    planned: [bool; MOST_LINES],
    /// The accepted commands that aren't carried out, the oldest first.
    pending: ArrayVec<Command, PENDING>,
    /// How many return cells were taken.
    taken: u32,
    /// How many decision steps were made.
    steps: u32,
    /// The bits of the group from that of the last packet on.
    bits: GroupBits,
}

impl Model for SourceTable {
    ghost use Rattle.law_model.specs.Common.{Course};
    ghost use Rattle.terminal_source.specs.lcas_source.TableFields.{course_in, IsTable};

    ghost Value = { Course };

    ghost view = { λ s. course_in s.lines s.statuses s.table s.planned s.pending s.taken s.steps };

    ghost invariant = { λ s. IsTable
        (course_in s.lines s.statuses s.table s.planned s.pending s.taken s.steps) s.bits };
}

impl SourceTable {
    /// The table of a group of `lines` lines, up to 128, of which none is a member. All statuses are told by
    /// `statuses` return packets, 16 or 32.
    pub fn new(lines: u8, statuses: u8) -> SourceTable
        requires lines { lines ≤ most_lines }
        requires statuses { IsStatuses statuses }
        ensures { result ≡ course_of lines statuses [] }
    {
        SourceTable {
            lines,
            statuses,
            table: LineTable::new(),
            planned: none_planned(),
            pending: ArrayVec::new(),
            taken: 0,
            steps: 0,
            bits: GroupBits::new(),
        }
    }

    /// Asks for a line to become a member. A refusal tells its first cause, and changes nothing.
    pub fn add(&mut self, line: u8) -> Result<(), CommandFault>
        ensures refused { refusal_in result ≡ refusal self.old.lines (add line) self.old.source }
        ensures unchanged { OnErr result (self.new ≡ self.old) }
        ensures asked { self.new ≡ called self.old (asks (add line)) }
    {
        self.ask(Command::Add(line))
    }

    /// Asks for a line to be no member any more. A refusal tells its first cause, and changes nothing.
    pub fn remove(&mut self, line: u8) -> Result<(), CommandFault>
        ensures refused { refusal_in result ≡ refusal self.old.lines (remove line) self.old.source }
        ensures unchanged { OnErr result (self.new ≡ self.old) }
        ensures asked { self.new ≡ called self.old (asks (remove line)) }
    {
        self.ask(Command::Remove(line))
    }

    /// Makes a decision step, which takes a return cell, if one is due. The cell's number is how many
    /// cells earlier steps took, lost ones included; one that holds no packet counts as lost.
    pub fn decide(&mut self, back: Option<BackCell>)
        requires { self.old.steps < 4294967295 }
        ensures { self.new ≡ called self.old (decides (option_map told_in back)) }
    {
        self.taken = take(&mut self.table, self.statuses, self.taken, back);
        self.table.settle();
        change(&mut self.table, &mut self.pending);
        go_on(&mut self.bits, self.steps);
        self.steps += 1;
    }

    /// The control packet of a line since the last decision step, of which one was made at least.
    pub fn packet(&self, line: u8) -> Packet
        requires { 0 < self.now.steps }
        ensures { result ≡ forward_packet self.now.source.table line (self.now.steps - 1) }
    {
        let (ctrl, sq) = self.table.place(line);
        Packet {
            mst: 0,
            rs_ack: false,
            chg: self.table.change_bit(),
            sq,
            mfi2: (self.steps % 256) as u8,
            ctrl,
            gid: self.bits.first(),
            act: self.table.active_count(),
        }
    }

    /// The lines that carry payload, by sequence number.
    pub fn active(&self) -> ArrayVec<u8, MOST_LINES>
        ensures { result.items ≡ active self.now.source.table }
    {
        self.table.active()
    }

    /// The state of a line.
    pub fn state(&self, line: u8) -> SourceState
        ensures { result ≡ state_of self.now.source.table line }
    {
        self.table.state(line)
    }

    /// Answers a command.
    fn ask(&mut self, command: Command) -> Result<(), CommandFault>
        ensures refused { refusal_in result ≡ refusal self.old.lines command self.old.source }
        ensures unchanged { OnErr result (self.new ≡ self.old) }
        ensures asked { self.new ≡ called self.old (asks command) }
    {
        if let Some(fault) = self.refusal(command) {
            return Err(fault);
        }
        self.planned[usize::from(line_of(command))] = is_add(command);
        self.pending.push(command);
        Ok(())
    }

    /// The first cause for which a command would be refused now; none where it would be taken.
    pub fn refusal(&self, command: Command) -> Option<CommandFault>
        ensures { result ≡ refusal self.now.lines command self.now.source }
    {
        let lines = self.lines;
        let line = line_of(command);
        if line >= lines {
            return Some(CommandFault::UnknownLine { lines });
        }
        let planned = self.planned[usize::from(line)];
        if is_add(command) && planned {
            Some(CommandFault::AlreadyIn)
        } else if !is_add(command) && !planned {
            Some(CommandFault::NotIn)
        } else if self.pending.len() >= PENDING {
            Some(CommandFault::TooManyPending { pending: 64 })
        } else {
            None
        }
    }
}

/// The line that a command names.
fn line_of(command: Command) -> u8
    ensures { result ≡ line_of command }
{
    match command {
        Command::Add(line) | Command::Remove(line) => line,
    }
}

/// Whether a command adds a line.
fn is_add(command: Command) -> bool
    ensures { result ≡ is_add command }
{
    matches!(command, Command::Add(_))
}

/// No line is planned.
fn none_planned() -> [bool; MOST_LINES]
    ensures { result ≡ none_planned }
{
    [false; MOST_LINES]
}

/// Takes a return cell, if there is one, and counts it. The groups of statuses come in turn.
fn take(table: &mut LineTable, statuses: u8, taken: u32, back: Option<BackCell>) -> u32
    requires statuses { IsStatuses statuses }
    requires few { taken < 4294967295 }
    ensures table { table.new ≡ heard (taken % statuses) (said_by (option_map told_in back)) table.old }
    ensures taken { result ≡ taken + count_of (option_map told_in back) }
{
    let Some(cell) = back else {
        return taken;
    };
    if let Some(packet) = packet_in(&cell) {
        table.hear((taken % u32::from(statuses)) as usize, &packet);
    }
    taken + 1
}

/// The packet that a return cell holds.
fn packet_in(cell: &BackCell) -> Option<Packet>
    ensures { result ≡ packet_in cell.now }
{
    match cell {
        BackCell::Packet(nibbles) => packet_read(nibbles),
        BackCell::Lost => None,
    }
}

/// The packet that sixteen numbers are.
fn packet_read(nibbles: &[u8; 16]) -> Option<Packet>
    ensures { result ≡ packet_read (read_of nibbles.now) }
{
    if are_nibbles(nibbles) {
        read(nibbles).ok()
    } else {
        None
    }
}

/// Whether each number has four bits.
fn are_nibbles(nibbles: &[u8; 16]) -> bool
    ensures value { result ≡ list_all (λ nibble. nat_lt nibble 16) nibbles.now }
    ensures below { OnTrue result (All (λ nibble. nibble < 16) nibbles.now) }
{
    nibbles.iter().all(|nibble| *nibble < 16)
}

/// Makes a change, where the last one is acknowledged and there is one to make.
fn change(table: &mut LineTable, pending: &mut ArrayVec<Command, PENDING>)
    requires room { (line : ℕ) (commands : List CommandData) →
        pending.old.items ≡ add line ∷ commands →
        length table.old.order < most_lines }
    requires count { table.old.count < 4294967295 }
    ensures table { table.new ≡ (changed_by pending.old.items table.old).table }
    ensures waiting { pending.new.items ≡ (changed_by pending.old.items table.old).waiting }
{
    if !table.is_acknowledged() {
        return;
    }
    if pending.is_empty() {
        table.exchange();
        return;
    }
    match pending.remove(0) {
        Command::Add(line) => table.add(line),
        Command::Remove(line) => table.remove(line),
    }
}

/// The bits go on to those of the next packet, where there was one.
fn go_on(bits: &mut GroupBits, packets: u32)
    requires { bits.old ≡ bits_from (packets - 1) }
    ensures { bits.new ≡ bits_from packets }
{
    if packets > 0 {
        bits.advance();
    }
}
