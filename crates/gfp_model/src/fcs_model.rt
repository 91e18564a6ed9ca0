//! Definitions of client frames with a frame check sequence after them: their areas, what comes of one, bit
//! errors on the way, and core headers that are read in spite of one bit error. Nothing is read or written
//! here. Begin with `specs/fcs_model/Fcs.antt`: `fcs_outcome` is what comes of an area, a frame or the first
//! cause.

use law_model::TypeFault;

/// Why a frame that was followed is not delivered: the descrambler was not settled when its area began; its area is
/// longer than one may be, and has `pli` octets; its type header has a fault; its area is too short for a type
/// header, a frame of four octets and a check, and has `pli` octets; or its check says one word and was found to be
/// another.
#[derive(Clone, Copy, Debug, PartialEq, Eq)]
pub enum FcsWhy {
    /// The descrambler was not settled when the area began.
    Unsettled,
    /// The area has `pli` octets, more than 9,608.
    TooLong { pli: u16 },
    /// The type header has this fault.
    Header(TypeFault),
    /// The area has `pli` octets, fewer than 12.
    Short { pli: u16 },
    /// The payload FCS (pFCS) says `said`, and that of the frame that it ends is `found`.
    Fcs { said: u32, found: u32 },
}

/// A bit that is turned over on the way: `place` is that of its octet, counted from 0, and `bit` its place in
/// the octet, 0 for the most significant one.
#[derive(Clone, Copy, Debug, PartialEq, Eq)]
pub struct Flip {
    /// The place of its octet in the stream, counted from 0.
    pub place: u64,
    /// Its place in that octet, from 0 for the most significant bit to 7.
    pub bit: u8,
}
