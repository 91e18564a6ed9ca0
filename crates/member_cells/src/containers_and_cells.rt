//! Containers (G.707), and the cells in which they come, which are this project's own.
ghost use Rattle.std.specs.Prelude.{◌≡◌};

/// The payload octets of a VC-4 of one frame.
pub const PAYLOAD: usize = 2340;

/// A container of one frame. It has room for the payload of a VC-4 whatever its size; a VC-3 has 756 octets
/// of it, and the others are 0.
#[derive(Clone, Copy, Debug, PartialEq, Eq)]
pub struct Container {
    /// The multiframe octet of the path: a nibble of the control packet in its upper half, and MFI1 in its lower half.
    pub h4: u8,
    /// The payload, always 2,340 octets.
    pub payload: [u8; PAYLOAD],
}

/// A container has room for 2,340 octets of payload.
pub fn payload_law()
    ensures { PAYLOAD ≡ 2340 }
{}

/// What a line gives in the place of a container.
#[derive(Clone, Copy, Debug, PartialEq, Eq)]
pub enum Cell {
    /// The container as it was sent.
    Good(Container),
    /// The sign of a failure.
    Fail,
    /// The line has ended.
    End,
}

/// What the return path gives in the place of a return packet.
#[derive(Clone, Copy, Debug, PartialEq, Eq)]
pub enum BackCell {
    /// The sixteen nibbles of a packet in the order of sending, one in each octet.
    Packet([u8; 16]),
    /// A packet was lost.
    Lost,
}
