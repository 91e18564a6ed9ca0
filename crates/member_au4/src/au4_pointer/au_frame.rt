//! A frame of an AU-4, and what its pointer does in it (G.707).

/// The octets of a VC-4.
pub const VC: usize = 2349;

/// A frame, from its pointer to the next one.
#[derive(Clone, Copy)]
pub struct AuFrame {
    /// The pointer: four flag bits, two bits that a sink ignores, and ten bits of value.
    pub word: u16,
    /// The H3 octets.
    pub h3: [u8; 3],
    /// The octets behind them.
    pub body: [u8; VC],
}

/// What the pointer of a frame does.
#[derive(Clone, Copy, Debug, PartialEq, Eq)]
pub enum Action {
    /// The value stays.
    Keep,
    /// The next value is greater by one, round 783 values.
    Up,
    /// The next value is less by one, round 783 values.
    Down,
    /// A part begins at this value.
    New(u16),
}
