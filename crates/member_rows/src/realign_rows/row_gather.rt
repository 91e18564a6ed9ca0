//! All lines of a group.

ghost use Rattle.std.specs.Prelude.{◌≡◌, ℕ, ◌+◌, ◌%◌, ◌<◌, ◌≤◌, List, [], length, replicate, slice_get, slice_set};
ghost use Rattle.std.specs.Prelude.{Some, None, IfOk};
ghost use Rattle.law_model.specs.Common.{Container, Cell, verdict, governing, first_open, most_lines};
ghost use Rattle.member_cells.specs.HeldPlaces.{held};
ghost use Rattle.member_path.specs.cell_numbers.SignsAsCells.{cell_with, told_by};
ghost use Rattle.member_path.specs.cell_numbers.Numbers.{IsOpen};
ghost use Rattle.member_rows.specs.realign_rows.Line.{Line};
ghost use Rattle.member_rows.specs.realign_rows.Gather.{GatherStands, line_count, IsOpenAt, AreDecided};
ghost use Rattle.member_rows.specs.realign_rows.Gather.{decided_lines, open_line};
ghost use Rattle.member_rows.specs.realign_rows.Gather.{waiting_of, Allows, with_cell};
ghost use Rattle.member_rows.specs.realign_rows.LineByLine.{AreNew, ArePassed, AreRead};

use crate::lcas_packet::Packet;
use crate::realign_rows::RowAnswer;
use crate::realign_rows::gather_line::GatherLine;
use crate::realign_rows::packet_nibbles::NIBBLES;
use member_cells::{HeldContainer, blank_boxes};
use member_path::cell_numbers::{CellSign, Verdict};
use std::alloc::{AllocError, Global};
use std::marker::Model;

/// Gathers the rows of a group from the cells of its lines.
#[derive(Drop)]
pub struct RowGather {
    lines: Vec<GatherLine>,
    /// The container of each line, in a box that it may be taken into and given back in.
    places: Vec<Box<HeldContainer>>,
    packets: Vec<Option<Packet>>,
    /// How many lines before the first one on which the next row isn't decided.
    decided: usize,
    rows: u32,
}

impl Model for RowGather {
    ghost use Rattle.std.specs.Prelude.{◌≡◌, ◌≤◌, length};
    ghost use Rattle.member_cells.specs.HeldPlaces.{held};
    ghost use Rattle.member_rows.specs.realign_rows.Gather.{Gather, decided_lines};
    ghost use Rattle.law_model.specs.Common.{most_lines};

    ghost Value = { Gather };

    ghost invariant = { λ gather. (length gather.lines.items ≤ most_lines)
        × (length gather.places.items ≡ length gather.lines.items)
        × (length gather.packets.items ≡ length gather.lines.items)
        × (gather.decided ≡ decided_lines gather.lines.items) };

    ghost view = { λ gather. record {
      lines = gather.lines.items;
      places = held gather.places.items;
      packets = gather.packets.items;
      rows = gather.rows;
    } };
}

impl RowGather {
    /// The rows of a group of `lines` lines, of which no cell has come.
    pub fn new(alloc: Global, lines: u8) -> Result<RowGather, AllocError>
        requires least { 1 ≤ lines }
        requires most { lines ≤ most_lines }
        ensures stands { IfOk result (λ gather. GatherStands gather (replicate lines [])) }
        ensures lines { IfOk result (λ gather. line_count gather ≡ lines) }
        ensures rows { IfOk result (λ gather. gather.rows ≡ 0) }
    {
        Ok(RowGather {
            lines: new_lines(alloc, lines)?,
            places: blank_boxes(alloc, usize::from(lines))?,
            packets: no_packets(alloc, lines)?,
            decided: 0,
            rows: 0,
        })
    }

    /// Whether the next row is decided on each line; else the least line on which it isn't.
    pub fn row(&self) -> RowAnswer
        ensures answer { (cells : List (List Cell)) → GatherStands self.now cells →
            waiting_of result ≡ first_open cells self.now.rows }
        ensures least { waiting_of result ≡ open_line self.now }
        ensures allows { Allows self.now result }
    {
        if self.decided < self.lines.len() {
            RowAnswer::Waiting {
                line: self.decided as u8,
            }
        } else {
            RowAnswer::Row
        }
    }

    /// Takes the next cell of a line on which the next row isn't decided. Where the container of a good cell is
    /// whole, the boxes change, so that nothing is copied. What lies in `container` afterwards says nothing.
    pub fn offer(&mut self, line: u8, sign: CellSign, container: &mut Box<HeldContainer>)
        requires line { line < line_count self.old }
        requires open { IsOpenAt self.old line }
        ensures stands { (cells : List (List Cell)) → GatherStands self.old cells →
            GatherStands self.new (with_cell cells line (cell_with sign container.old.value)) }
        ensures lines { line_count self.new ≡ line_count self.old }
        ensures rows { self.new.rows ≡ self.old.rows }
    {
        let m = usize::from(line);
        let own = &mut self.lines[m];
        own.numbers.cell(sign, container, &mut self.places[m]);
        self.decided = decided_after(&self.lines, m, self.decided);
    }

    /// What is said of the next row on a line, once it is decided on each line.
    pub fn verdict(&self, line: u8) -> Verdict<'_>
        requires line { line < line_count self.now }
        requires decided { AreDecided self.now }
        ensures { (cells : List (List Cell)) (own : List Cell) → GatherStands self.now cells →
            slice_get cells line ≡ Some own → verdict own self.now.rows ≡ Some (told_by result) }
    {
        let m = usize::from(line);
        self.lines[m].verdict(self.places[m].container())
    }

    /// The containers of the lines on which the next row is decided as whole, each at the place of its line.
    /// What stands at the other places says nothing.
    pub fn containers(&self) -> &[Box<HeldContainer>]
        ensures lines { length result.now ≡ line_count self.now }
        ensures whole { (cells : List (List Cell)) (m : ℕ) (own : List Cell) (found : Container) →
            GatherStands self.now cells → slice_get cells m ≡ Some own →
            verdict own self.now.rows ≡ Some (Some found) →
            slice_get (held result.now) m ≡ Some found }
    {
        &self.places
    }

    /// Passes the next row, which is decided on each line.
    pub fn advance(&mut self)
        requires decided { AreDecided self.old }
        requires few { self.old.rows < 4294967295 }
        ensures stands { (cells : List (List Cell)) → GatherStands self.old cells →
            GatherStands self.new cells }
        ensures lines { line_count self.new ≡ line_count self.old }
        ensures rows { self.new.rows ≡ self.old.rows + 1 }
    {
        let j = (self.rows % 16 + 8) as usize % NIBBLES;
        pass_all(&mut self.lines, &self.places, j);
        if j == NIBBLES - 1 {
            read_all(&self.lines, &mut self.packets);
        }
        self.decided = decided_lines(&self.lines);
        self.rows += 1;
    }

    /// The packets that govern the next row, by line: those read with the last packet row that was passed,
    /// and none before the first. A line has none where it has no packet that can be read.
    pub fn packets(&self) -> &[Option<Packet>]
        ensures lines { length result.now ≡ line_count self.now }
        ensures governing { (cells : List (List Cell)) → GatherStands self.now cells →
            result.now ≡ governing cells self.now.rows }
    {
        &self.packets
    }
}

/// A count of lines of which no cell has come.
fn new_lines(alloc: Global, count: u8) -> Result<Vec<GatherLine>, AllocError>
    ensures { IfOk result (λ lines. AreNew count lines.items) }
{
    let mut lines = Vec::with_capacity(alloc, usize::from(count))?;
    for _ in 0..count {
        lines.push(GatherLine::new())?;
    }
    Ok(lines)
}

/// No packet on a count of lines.
fn no_packets(alloc: Global, count: u8) -> Result<Vec<Option<Packet>>, AllocError>
    ensures { IfOk result (λ packets. packets.items ≡ replicate count None) }
{
    let mut packets = Vec::with_capacity(alloc, usize::from(count))?;
    for _ in 0..count {
        packets.push(None)?;
    }
    Ok(packets)
}

/// How many lines before the first one on which the next number isn't decided.
fn decided_lines(lines: &[GatherLine]) -> usize
    ensures { result ≡ decided_lines lines.now }
{
    for (m, line) in lines.iter().enumerate() {
        if line.numbers.is_open() {
            return m;
        }
    }
    lines.len()
}

/// How many they are after line `m`, which was one on which it wasn't, has taken a cell, where they were `before`.
fn decided_after(lines: &[GatherLine], m: usize, before: usize) -> usize
    requires line { m < length lines.now }
    requires few { length lines.now ≤ most_lines }
    ensures { (old : List Line) (was now : Line) → lines.now ≡ slice_set old m now →
        before ≡ decided_lines old → slice_get old m ≡ Some was → IsOpen was.numbers →
        result ≡ decided_lines lines.now }
{
    if m == before {
        before + decided_lines(&lines[m..])
    } else {
        before
    }
}

/// Passes the next number of each line, which is number `j` of a packet.
fn pass_all(lines: &mut [GatherLine], places: &[Box<HeldContainer>], j: usize)
    requires places { length places.now ≡ length lines.old }
    requires decided { decided_lines lines.old ≡ length lines.old }
    requires place { j < 16 }
    ensures passed { ArePassed (length lines.old) j (held places.now) lines.old lines.new }
{
    for m in 0..lines.len() {
        lines[m].pass(places[m].container(), j);
    }
}

/// The packet of each line whose last number was passed just now.
fn read_all(lines: &[GatherLine], packets: &mut [Option<Packet>])
    requires packets { length packets.old ≡ length lines.now }
    ensures read { AreRead (length lines.now) lines.now packets.new }
{
    for m in 0..lines.len() {
        let line = &lines[m];
        packets[m] = line.nibbles.packet();
    }
}
