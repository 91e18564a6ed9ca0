//! The failures of a line: a list of windows, each of which damages some containers. A list is tested once, and
//! the first fault that it has is told; a list without a fault says of each container what comes of it, and how
//! far the numbers of the line may fall back at most. Nothing is carried here: that is `path_delay`. Begin with
//! `Windows`; `fault_law`, `damage_law` and `slip_law` say it in full, and `open_law` and `close_law` what comes of
//! windows that are opened and closed one by one.

mod window_fault;
mod window_laws;
mod window_list;

pub use law_model::{Carried, Window};
pub use window_fault::WindowFault;
pub use window_laws::{close_law, damage_law, fault_law, open_law, slip_law};
pub use window_list::{Windows, greatest_slip};
