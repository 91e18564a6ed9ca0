//! The group under its lock: what a client, an operator and the source do to a group, one call at a time, and
//! the journal of what it has accepted. Whoever holds the lock calls; nothing here takes it, starts a thread or
//! waits. How lines and sink work is not said here. Begin with `GroupState`: what each call answers and leaves
//! are the records `Submits` and `Ticks` of named facts, and the journal's replay is the state. `BoundGroup` is
//! a group whose type says which session it belongs to.
#![tactic(auto)]

mod accepted_items;
mod bound_group;
mod group_answers;
mod group_state;
mod item_journal;
mod open_group;
mod tick_rings;

pub use bound_group::{BoundGroup, Session};
pub use group_answers::{SubmitFault, TickAnswer};
pub use group_state::GroupState;
