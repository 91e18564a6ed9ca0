//! Texts and files that show what passed: captures for Wireshark (pcap), the lines of a trace, and the control
//! packets in the H4 octets of a line. Nothing is decided of a session here. Begin with
//! `capture_file::CaptureOut` and with `packet_trace::H4Decoder`.
//!
//! - `capture_file`: captures of the classic form (pcap) as lists of octets: a head, and then records of
//!   frames with their times.
//! - `packet_trace`: finds the control packets of a line in its H4 octets, octet by octet, and puts together the
//!   lines of a decoding and of a trace.
#![tactic(auto)]

pub mod capture_file;
pub mod packet_trace;
