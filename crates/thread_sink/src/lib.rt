//! The sink of a group as a worker that runs burst by burst: it pops cells from the rings of the lines, takes
//! rows, sends return packets by the return ring, and writes the line of each frame that comes through. It
//! takes no lock and waits for nobody. Begin with `SinkWorker`, and with `SinkWorkerStands` in
//! `specs/WorkerOfSink.antt`: rows, frames and return packets are those of the cells that were popped. What rows
//! and frames are is said in `sink_core`; threads are not started here.
#![tactic(auto)]

mod burst_answers;
mod burst_steps;
mod frame_counts;
mod sink_step;
mod sink_worker;

pub use burst_answers::{SinkBurst, SinkIdle};
pub use sink_worker::SinkWorker;
