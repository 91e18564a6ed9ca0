//! A gate that each worker passes.

/// Who passes a gate.
#[derive(Clone, Copy, Debug, PartialEq, Eq)]
pub enum Who {
    /// Whoever brings the frames of the client.
    Client,
    /// Whoever brings the commands of the operator.
    Operator,
    /// The source.
    Source,
    /// The line of this number.
    Line(u8),
    /// The sink.
    Sink,
}

/// Where workers pass, so that something outside can hold them up or note that they moved. Both calls return.
pub trait Gate: Sync {
    /// Called before each burst of a worker, and before each turn at the group, which has one call of it or many.
    fn pass(&self, who: Who);

    /// Called after each of those that moved.
    fn moved(&self, who: Who);
}

/// A gate that does nothing.
#[derive(Clone, Copy, Debug, Default, PartialEq, Eq)]
pub struct OpenGate;

impl Gate for OpenGate {
    fn pass(&self, _who: Who) {}

    fn moved(&self, _who: Who) {}
}
