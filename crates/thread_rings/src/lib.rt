//! The rings between the parts of a group, and the line of a member as a worker that runs burst by burst. The
//! ends are a few lines over `rtrb`; no other module touches it. What passes through a ring stays in its place,
//! and another place comes back by a second ring. What is promised of an end are the lists that passed it, and
//! that a look that finds nothing is counted as a miss. A worker takes no lock and waits for nobody. Threads
//! are not started here. Begin with `RingOut` and `RingIn`, and then `LineWorker`.
#![tactic(auto)]

mod alarm_kinds;
mod burst_gate;
mod line_worker;
mod new_rings;
mod raised_alarms;
mod ring_ends;
mod ring_places;

pub use alarm_kinds::{Alarm, AlarmKind};
pub use burst_gate::{Gate, OpenGate, Who};
pub use line_worker::{Burst, IdleCause, LineWorker};
pub use new_rings::{LineEnds, back_ring, line_rings};
pub use ring_ends::{RingIn, RingOut};
pub use ring_places::{CellPlace, Placed};
