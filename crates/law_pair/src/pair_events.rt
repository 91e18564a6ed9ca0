//! What a pair of sessions does step by step.

/// One of the two directions of a pair.
#[derive(Clone, Copy, Debug, PartialEq, Eq)]
pub enum Way {
    /// The way of the first script.
    There,
    /// The way of the second script.
    Back,
}

/// One step of a pair.
#[derive(Clone, Copy, Debug, PartialEq, Eq)]
pub enum PairEvent {
    /// The next item of a way lands, by due tick, and of equal ones in item order.
    Item(Way),
    /// The source of each way makes a container for each of its lines.
    Tick,
    /// A line of a way, by number from 0, carries a container; after the last one it gives those still
    /// under way, one a carry, and then the end.
    Carry(Way, u8),
    /// The sink of a way takes a row: it pops cells, line by line, until each line decides it.
    Take(Way),
}
