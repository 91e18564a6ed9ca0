//! The limits that code needs as numbers; `specs/Limits.antt` has the word of each for clauses.

/// The most lines of a group.
pub const MOST_LINES: usize = 128;

/// The most ticks of a session.
pub const MOST_TICKS: u64 = 100_000_000;

/// The most ticks of a load that is drawn.
pub const MOST_DRAWN_TICKS: u64 = 1_000_000;

/// The greatest number of an event line.
pub const MOST_COUNT: u64 = 1_000_000;

/// The longest delay of a line, in ticks.
pub const LONGEST_DELAY: u64 = 2_047;

/// The most containers that vanish where a failure ends.
pub const LONGEST_SLIP: u64 = 2_047;

/// The most cells of a receive ring.
pub const LARGEST_RING: u64 = 2_048;

/// The longest lag, in packets.
pub const LONGEST_LAG: u64 = 512;

/// The most failures of a line, and losses of the return path.
pub const MOST_WINDOWS: usize = 256;

/// The most packets of a session, and so the greatest end of a loss.
pub const MOST_PACKETS: u64 = 6_250_000;

/// The longest hold-off of a sink, in packets.
pub const LONGEST_HOLDOFF: u64 = 5_000;

/// The longest wait to restore, in packets.
pub const LONGEST_RESTORE: u64 = 62_500;

/// The most items of a script, the frames of its traffic counted.
pub const MOST_ITEMS: u32 = 268_435_456;

/// The octets of the longest frame that may be offered.
pub const LONGEST_OFFER: usize = 65_535;

/// The octets of the longest frame that is accepted, from its destination address to its FCS.
pub const LONGEST_FRAME: usize = 9_600;
