//! The path of a member: a line that carries container after container with a delay, and fails in the windows
//! that are declared for it. What it gives is, carry by carry, the list of cells of its path: each carry
//! gives the sign of a cell, or none. It makes no containers and numbers none: the source does the one,
//! `cell_numbers` the other. Begin with `LineCore`; `carry_law` says what each carry gives, and `agree_law`
//! which windows the cells depend on.

mod delay_laws;
mod delay_store;
mod delayed_line;

pub use crate::failure_window::Windows;
pub use delay_laws::{agree_law, carry_law};
pub use delayed_line::LineCore;
