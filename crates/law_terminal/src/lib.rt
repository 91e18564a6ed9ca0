//! The laws that join the two terminals of a session: the source makes containers by the return cells that it
//! was told, the lines give cells of those, and the sink makes rows and return packets of these cells. There
//! is no code here, and no ring or order of events. Begin at `course_law`: whatever the sink says so far, and
//! the source was told of it, is what the session says. `sent_law`, `cells_law` and `rows_law` are what it
//! stands on: the first two for any return cells, the last mostly where the source was told the session's.
#![tactic(auto)]

mod cells_that_come;
mod containers_sent;
mod course_of_session;
mod rows_and_returns;
mod worked_course;

pub use cells_that_come::cells_law;
pub use containers_sent::sent_law;
pub use course_of_session::{course_law, keep_law, loop_law};
pub use rows_and_returns::rows_law;
pub use worked_course::worked_law;
