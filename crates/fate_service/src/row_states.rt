//! What each taken row is.
ghost use Rattle.std.specs.Prelude.{◌≡◌, ◌<◌, length, IfOk, IfSome};
ghost use Rattle.law_model.specs.Common.{octets_of_rows, Leg, Counts};
ghost use Rattle.law_walk.specs.Common.{session_rows};
ghost use Rattle.fate_walks.specs.walk_fates.MadeWalk.{SeesWalk};
ghost use Rattle.fate_service.specs.RowStates.{state_by_mark, state_of, states_of, is_dark, dark_among};

use fate_walks::walk_fates::SeenWalk;
use std::alloc::{AllocError, Global};

/// What a row is.
#[derive(Clone, Copy)]
pub enum RowState {
    /// It is whole, and what it carries can be got.
    Clear,
    /// It is whole, and comes before the place that is confirmed first in its segment, or nothing is.
    Hunting,
    /// It isn't whole.
    Spoiled,
}

/// What a whole row of a segment but the first is, by the mark of the segment.
fn state_by_mark(seen: &SeenWalk, row: u32, mark: Option<u64>) -> RowState
    ensures { (leg : Leg) (s : Counts) → SeesWalk leg s seen.now →
        IfSome mark (λ place. place < length (octets_of_rows (session_rows leg s.rows))) →
        result ≡ state_by_mark (session_rows leg s.rows) row mark }
{
    let Some(place) = mark else {
        return RowState::Hunting;
    };
    let Some(first) = seen.rows.packets.row_of(place) else {
        return RowState::Hunting;
    };
    if first <= row {
        RowState::Clear
    } else {
        RowState::Hunting
    }
}

/// What a row is that was taken.
fn row_state(seen: &SeenWalk, row: u32) -> RowState
    ensures { (leg : Leg) (s : Counts) → SeesWalk leg s seen.now → row < s.rows →
        result ≡ state_of (session_rows leg s.rows) row }
{
    let around = seen.rows.segments.around(row);
    if row >= around.spoiled {
        return RowState::Spoiled;
    }
    if around.first {
        return RowState::Clear;
    }
    state_by_mark(seen, row, around.mark)
}

/// What each of the taken rows is.
pub(crate) fn row_states(alloc: Global, seen: &SeenWalk) -> Result<Vec<RowState>, AllocError>
    ensures { (leg : Leg) (s : Counts) → SeesWalk leg s seen.now →
        IfOk result (λ states. states.items ≡ states_of (session_rows leg s.rows)) }
{
    let rows = seen.rows.segments.rows();
    let mut states = Vec::with_capacity(alloc, rows as usize)?;
    for row in 0..rows {
        states.push(row_state(seen, row))?;
    }
    Ok(states)
}

/// Whether a row is of no use.
fn is_dark(state: RowState) -> bool
    ensures { result ≡ is_dark state }
{
    match state {
        RowState::Clear => false,
        RowState::Hunting | RowState::Spoiled => true,
    }
}

/// How many of some rows are of no use.
pub(crate) fn count_dark(states: &[RowState]) -> u32
    requires { length states.now < 4294967296 }
    ensures { result ≡ dark_among states.now }
{
    let mut dark = 0;
    for state in states {
        if is_dark(*state) {
            dark += 1;
        }
    }
    dark
}
