//! Turns of a walk, made one after another while somebody looks on.

pub(super) mod fate_turns;
pub(super) mod next_turns;
pub(super) mod ready_walk;
pub(super) mod trace_turns;
pub(super) mod watched_turns;
