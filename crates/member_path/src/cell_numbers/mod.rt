//! What the cells of a line say of its numbers (G.707): of each number that they decide whether it is whole,
//! and then its container. It knows one line; rows over all lines are not made here. Begin with `LineNumbers`,
//! which keeps no container: its user has a place for that of a whole number. How numbers are decided is this
//! project's own: `law_line` says that they are right.

mod line_numbers;
mod signs_and_verdicts;

pub use line_numbers::LineNumbers;
pub use signs_and_verdicts::{CellRef, CellSign, Verdict};
