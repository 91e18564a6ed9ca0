//! Finds the control packets of a line in its H4 octets, octet by octet, and puts together the lines of a
//! decoding and of a trace. Begin with `H4Decoder` and `trace_line`; `packets_law` says that the decoder's
//! definition is what is said of packets in words, and that more octets change none. How a packet is read is
//! not said here, and nothing is written to an output.

mod h4_decoder;
mod packet_text;

pub use h4_decoder::{H4Decoder, packets_law, worked_law};
pub use packet_text::{FOUND_ROOM, TRACE_ROOM, end_line, found_line, trace_line};
