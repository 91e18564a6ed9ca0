//! The source terminal of a group: it takes the client's frames, the operator's commands and the return
//! packets, and makes the containers of all lines, frame by frame (G.707, G.7041, G.7042). What comes of a
//! container on its line, and what the sink makes of it, is not said here. Begin with `SourceCore`, and with
//! `SourceStands` in `specs/source_core/GivenScenario.antt`: what a terminal was given, from `new` on. `landed_law` and
//! `accepted_law`: what lands later, or is refused, changes nothing that was sent; `needed_law`: which tick
//! needs which return cell; `membership_law`: which rows a change of members governs.

mod container_frame;
mod packets_of_step;
mod source_laws;
mod source_terminal;

pub use crate::lcas_source::CommandFault;
pub use gfp_fill::AcceptFault;
pub use law_model::Command;
pub use member_rows::lcas_packet::Packet;
pub use source_laws::{accepted_law, landed_law, membership_law, needed_law};
pub use source_terminal::SourceCore;
