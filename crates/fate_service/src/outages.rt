//! The longest runs of rows that are of no use, and the frames that are lost in each.
ghost use Rattle.std.specs.Prelude.{◌≡◌, ◌<◌, ◌≤◌, ◌==◌, length, All, IfOk, OnOk};
ghost use Rattle.std.specs.List.Sorted.{IsNonDecreasingBy};
ghost use Rattle.fate_service.specs.declared.landed_frames.CarriedFrame.{CarriedFrame as CarriedData};
ghost use Rattle.fate_service.specs.FrameColumns.{no_frames};
ghost use Rattle.fate_service.specs.Outages.{grown, with_dark, with_state, outages_of, lost_on, losses, HasFewSpoiled};

use crate::landed_frames::{CarriedFrame, Tally};
use crate::row_states::RowState;
use std::alloc::{AllocError, Global};

/// Rows that are of no use: as many in turn as there are.
#[derive(Clone, Copy)]
pub struct Outage {
    /// The first of them, counted from 0.
    pub first: u32,
    /// The first row after them.
    pub end: u32,
    /// How many of them aren't whole.
    pub spoiled: u32,
}

/// Whether a row comes right after an outage.
fn goes_on(outage: &Outage, row: u32) -> bool
    ensures { result ≡ (outage.now.end == row) }
{
    outage.end == row
}

/// With one more row at its end.
fn grown(outage: Outage, spoiled: u32) -> Outage
    requires end { outage.end < 4294967295 }
    requires few { outage.spoiled ≤ outage.end }
    requires one { spoiled ≤ 1 }
    ensures { result ≡ grown outage spoiled }
{
    Outage {
        first: outage.first,
        end: outage.end + 1,
        spoiled: outage.spoiled + spoiled,
    }
}

/// A row of no use behind outages before it: it goes on with the last one, where that ends there.
fn add_row(outages: &mut Vec<Outage>, row: u32, spoiled: u32) -> Result<(), AllocError>
    requires row { row < 4294967295 }
    requires one { spoiled ≤ 1 }
    requires few { All HasFewSpoiled outages.old.items }
    ensures ok { OnOk result (outages.new.items ≡ with_dark row spoiled outages.old.items) }
    ensures few { OnOk result (All HasFewSpoiled outages.new.items) }
{
    let n = outages.len();
    if n > 0 && goes_on(&outages[n - 1], row) {
        outages[n - 1] = grown(outages[n - 1], spoiled);
        return Ok(());
    }
    outages.push(Outage {
        first: row,
        end: row + 1,
        spoiled,
    })?;
    Ok(())
}

/// A row behind outages before it.
fn add_state(outages: &mut Vec<Outage>, row: u32, state: RowState) -> Result<(), AllocError>
    requires row { row < 4294967295 }
    requires few { All HasFewSpoiled outages.old.items }
    ensures ok { OnOk result (outages.new.items ≡ with_state row state outages.old.items) }
    ensures few { OnOk result (All HasFewSpoiled outages.new.items) }
{
    match state {
        RowState::Clear => Ok(()),
        RowState::Hunting => add_row(outages, row, 0),
        RowState::Spoiled => add_row(outages, row, 1),
    }
}

/// The outages among rows.
pub(crate) fn find_outages(alloc: Global, states: &[RowState]) -> Result<Vec<Outage>, AllocError>
    requires { length states.now < 4294967296 }
    ensures { IfOk result (λ outages. outages.items ≡ outages_of states.now) }
{
    let mut outages = Vec::new(alloc);
    for i in 0..states.len() {
        add_state(&mut outages, i as u32, states[i])?;
    }
    Ok(outages)
}

/// The frames that are lost, of those that are decided in a row from one on to below another.
pub(crate) fn losses(carried: &[CarriedFrame], first: u32, end: u32) -> Tally
    requires few { length carried.now < 4294967296 }
    requires order { IsNonDecreasingBy (λ (frame : CarriedData). frame.at) carried.now }
    ensures { result ≡ losses carried.now first end }
{
    let from = carried.partition_point(|frame| frame.at < first);
    let to = carried.partition_point(|frame| frame.at < end);
    lost_of(&carried[from.min(to)..to])
}

/// The lost ones of some frames.
fn lost_of(carried: &[CarriedFrame]) -> Tally
    requires { length carried.now < 4294967296 }
    ensures { result ≡ lost_on no_frames carried.now }
{
    let mut lost = Tally::none();
    for frame in carried {
        lost.add_if(!frame.got, frame.octets);
    }
    lost
}
