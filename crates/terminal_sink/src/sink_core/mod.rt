//! The sink terminal of a group: it takes the rows of its lines one by one, gives the frames that come through,
//! and says the return packets (G.707, G.7041, G.7042), one with each row 16 k + 23. Begin with `SinkCore`,
//! which takes rows from a `RowGather` of as many lines and gives frames to a `FrameOut`. `sink_law` says what
//! more cells and more rows change, `session_sink_law` what is given in a session. How cells come to the lines,
//! and where frames and return packets go, is not said here.

mod octets_of_row;
mod sink_laws;
mod sink_terminal;
mod whole_rows;

pub use sink_laws::{session_sink_law, sink_law};
pub use sink_terminal::{SinkCore, TakeAnswer, ends_packet};
