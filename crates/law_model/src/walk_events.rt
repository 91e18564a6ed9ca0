//! What a walk of a session does step by step, and why a step does nothing.

/// One step of a walk.
#[derive(Clone, Copy, Debug, PartialEq, Eq)]
pub enum Event {
    /// The next frame of the client lands.
    Accept,
    /// The next command of the operator lands.
    Command,
    /// The source makes a container for each line.
    Tick,
    /// A line, by number from 0, carries a container; after the last one it gives those still under way, one a carry,
    /// and then the end.
    Carry(u8),
    /// A return packet comes to the source.
    Back,
    /// The sink takes a row: it pops cells, line by line, until each line decides it.
    Take,
}

/// Why an event moved nothing.
#[derive(Clone, Copy, Debug, PartialEq, Eq)]
pub enum StallCause {
    /// Nothing is left: no item of its kind, no tick, no cell of the line, no row; or there is no such line.
    Done,
    /// The next item lands when `due` ticks are made.
    NotDue { due: u32 },
    /// Item `item` is due now and has not landed.
    Held { item: u32 },
    /// The send ring of `line` is full.
    TxFull { line: u8 },
    /// Return packet `packet` is needed and has not come.
    BackMissing { packet: u32 },
    /// The send ring of `line` is empty, and not all containers were carried.
    Empty { line: u8 },
    /// The receive ring of `line` is full.
    RxFull { line: u8 },
    /// The return ring is empty.
    BackEmpty,
    /// The row ends a packet, and the return ring is full.
    BackFull,
    /// The cells of `line` do not decide the row, and its receive ring is empty.
    Waiting { line: u8 },
}
