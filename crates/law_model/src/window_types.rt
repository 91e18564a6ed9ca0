//! Failures of a line.

/// Containers `first` to `end - 1` of a line are damaged, and the last `slip` of them vanish without a sign.
#[derive(Clone, Copy, Debug, PartialEq, Eq)]
pub struct Window {
    /// The first container that is damaged.
    pub first: u32,
    /// The first container after it that is not.
    pub end: u32,
    /// How many of them vanish.
    pub slip: u16,
}

/// What comes of a container on its line.
#[derive(Clone, Copy, Debug, PartialEq, Eq)]
pub enum Carried {
    /// It arrives as it was sent.
    Whole,
    /// The sign of a failure arrives in its place.
    Fails,
    /// Nothing arrives.
    Vanishes,
}
