//! What is wrong with a type header, and why a frame is dropped (G.7041).

/// What is wrong with a type header (G.7041): its check, which says one word and was found to be another; or
/// the first field that is not that of an Ethernet frame, in the order PTI, PFI, EXI, UPI.
#[derive(Clone, Copy, Debug, PartialEq, Eq)]
pub enum TypeFault {
    /// The check (tHEC) says `said`, and that of the type field is `found`.
    Check { said: u16, found: u16 },
    /// The payload type identifier (PTI) is `pti`, and not 0, that of client data.
    NotClient { pti: u8 },
    /// The payload FCS indicator (PFI) says that an FCS is behind the frame where none may be, or none where one
    /// has to be.
    PayloadFcs,
    /// The extension header identifier (EXI) is `exi`, and not that of this kind of frame.
    Extension { exi: u8 },
    /// The user payload identifier (UPI) is `upi`, and not 1, that of frame-mapped Ethernet.
    NotEthernet { upi: u8 },
}

/// Why a client frame that was followed is not delivered: the descrambler was not settled when its area
/// began; its area is longer than a frame may be, and has `pli` octets; or its type header has a fault.
#[derive(Clone, Copy, Debug, PartialEq, Eq)]
pub enum Why {
    /// The descrambler was not settled when the area began.
    Unsettled,
    /// The area has `pli` octets, more than a type header and the longest frame.
    TooLong { pli: u16 },
    /// The type header has this fault.
    Header(TypeFault),
}
