//! What the head of a capture and the heads of its records say, and what can be wrong with them.

/// In which order the octets of a number stand.
#[derive(Clone, Copy)]
pub enum ByteOrder {
    /// The least significant one first.
    LeastFirst,
    /// The most significant one first.
    MostFirst,
}

/// What the parts of a second are counted in.
#[derive(Clone, Copy)]
pub enum TimeUnit {
    /// Microseconds.
    Microseconds,
    /// Nanoseconds.
    Nanoseconds,
}

/// What the head of a capture of Ethernet frames says.
#[derive(Clone, Copy)]
pub struct Form {
    /// The order of the octets of its numbers.
    pub order: ByteOrder,
    /// The unit of its times.
    pub unit: TimeUnit,
    /// Whether each frame ends with an FCS of four octets.
    pub has_fcs: bool,
}

/// What the head of a record says.
#[derive(Clone, Copy)]
pub struct RecordHead {
    /// The time in whole seconds.
    pub seconds: u32,
    /// And the rest of it, in the unit of the capture.
    pub fraction: u32,
    /// The octets that stand in the record.
    pub captured: u32,
    /// The octets that the frame had.
    pub original: u32,
}

/// What is wrong with the head of a capture.
#[derive(Clone, Copy)]
pub enum HeadFault {
    /// It has fewer than 24 octets.
    Cut,
    /// It begins a capture of the newer form.
    PcapNg,
    /// It begins no capture.
    Magic,
    /// The version isn't 2.4.
    Version,
    /// The frames are none of Ethernet: the number of what they are.
    Link { link: u16 },
    /// The frames end with an FCS of another length than 0 or 4: its octets.
    Fcs { octets: u8 },
}

/// What is wrong with a record.
#[derive(Clone, Copy)]
pub enum RecordFault {
    /// Fewer octets are left than its head has, or than that says.
    Cut,
    /// Not all octets of the frame stand in it.
    Snapped,
    /// It has more octets than a frame of a script may have: how many.
    Length { octets: u32 },
    /// Its time is more than 99,999,999 ticks after that of the first one.
    Late,
}

/// What is wrong with a capture first.
#[derive(Clone, Copy)]
pub enum CaptureFault {
    /// Its head.
    Head(HeadFault),
    /// A record, by its number from 0.
    Record { number: u64, fault: RecordFault },
}
