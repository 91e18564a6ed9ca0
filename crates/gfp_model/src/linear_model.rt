//! Definitions of client frames that share a stream by channel numbers: their areas with linear extension headers, what
//! comes of one, the queues of the channels and whose turn it is, and the stream with its cuts. Nothing is read or
//! written here. Begin with `specs/linear_model/ChannelArea.antt`, and for the channels with
//! `specs/linear_model/Channels.antt`.

use law_model::TypeFault;

/// What is wrong with an extension header: its check (eHEC) says one word and was found to be another.
#[derive(Clone, Copy, Debug, PartialEq, Eq)]
pub struct CidFault {
    /// What the header says.
    pub said: u16,
    /// What the channel number and the spare octet have.
    pub found: u16,
}

/// Why a frame that was followed is not delivered: the descrambler was not settled when its area began; its area is
/// longer than one may be, and has `pli` octets; its type header has a fault; its area is too short for both headers,
/// and has `pli` octets; or its extension header has a fault.
#[derive(Clone, Copy, Debug, PartialEq, Eq)]
pub enum LinearWhy {
    /// The descrambler was not settled when the area began.
    Unsettled,
    /// The area has `pli` octets, more than 9,608.
    TooLong { pli: u16 },
    /// The type header has this fault.
    Header(TypeFault),
    /// The area has `pli` octets, fewer than 8.
    Short { pli: u16 },
    /// The extension header has this fault.
    Extension(CidFault),
}

/// Why a frame of a channel is refused.
#[derive(Clone, Copy, Debug, PartialEq, Eq)]
pub enum ChannelFault {
    /// There is no such channel: there are `channels`, and the first has the number 0.
    Unknown { channels: u16 },
    /// Its length, `n` octets, is outside 64 to 9,600.
    Length { n: u64 },
    /// `waiting` frames of this channel wait, as many as may.
    QueueFull { waiting: u16 },
}

/// Octets of a stream that don't arrive: those at the places from `first` on and before `end`, counted from 0.
#[derive(Clone, Copy, Debug, PartialEq, Eq)]
pub struct Cut {
    /// The place of the first that doesn't arrive.
    pub first: u64,
    /// The place of the first that arrives again.
    pub end: u64,
}
