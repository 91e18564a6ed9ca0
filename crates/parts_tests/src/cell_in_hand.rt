//! Cells as a line takes and gives them: a sign, with the container of a good one in a box.

use member_cells::{Cell, HeldContainer};
use member_path::cell_numbers::CellSign;
use std::alloc::Global;

/// A box for a container.
pub(crate) fn new_box(alloc: Global) -> Option<Box<HeldContainer>> {
    Box::new(alloc, HeldContainer::new()).ok()
}

/// Puts the container of a good cell into a box, and tells the sign of the cell.
pub(crate) fn put(cell: &Cell, hand: &mut Box<HeldContainer>) -> CellSign {
    match cell {
        Cell::Good(container) => {
            hand.put(container);
            CellSign::Good
        }
        Cell::Fail => CellSign::Fail,
        Cell::End => CellSign::End,
    }
}
