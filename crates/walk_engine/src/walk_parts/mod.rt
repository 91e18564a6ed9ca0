//! What a walk of a session moves between its two terminals: lines with their receive rings, and the return
//! ring. Begin with `WalkLine`, whose ring holds the cells of the path that weren't popped, and with
//! `ReturnRing`. In which order events come, and what the terminals make of it, is not said here.

mod return_ring;
mod walk_line;

pub(crate) use return_ring::ReturnRing;
pub(crate) use walk_line::WalkLine;
