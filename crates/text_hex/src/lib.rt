//! Octets to hexadecimal text and back, sixteen at a time, in vectors: for long lines, of which the crate `hex`
//! takes several times as long. What a text says is as that crate has it, in either case of
//! letters. It tells no wrong digit's place. Begin with `encode` and `decode_into`.
#![tactic(auto)]

mod decoding;
mod digits;
mod encoding;

pub use decoding::{NotHex, decode_into};
pub use encoding::encode;
