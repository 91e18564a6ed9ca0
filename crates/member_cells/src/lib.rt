//! What a line carries: containers (G.707), cells, which are this project's own, and the control words of LCAS with
//! their codes (G.7042).
//! Begin with `Cell` and `Ctrl`; `HeldContainer` is a place for a container, which is written in that place.
//! `payload_law`: a container has room for 2,340 octets. What containers hold, and what comes of them on a
//! line, is not said here.
#![tactic(auto)]

mod boxed_containers;
mod containers_and_cells;
mod control_word;
mod held_container;

pub use boxed_containers::blank_boxes;
pub use containers_and_cells::{BackCell, Cell, Container, PAYLOAD, payload_law};
pub use control_word::Ctrl;
pub use held_container::HeldContainer;
