//! The commands of both ways, each in a room of its own: what it reads, runs and writes, and how it ends.

pub(super) mod live_pair;
pub(super) mod one_way;
pub(super) mod pair;
