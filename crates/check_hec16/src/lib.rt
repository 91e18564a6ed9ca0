//! The check of core, type and extension headers (G.7041, header error control). What a word says, and its place in
//! a header, is not said here. Begin with `hec`; what it computes is in `specs/Hec.antt`, and which word is the
//! right one if one bit of it and of its check may be wrong in `specs/OneWrongBit.antt`.
#![tactic(auto)]

mod header_check;

pub use header_check::{hec, hec_ok};
