//! What is told of the decision steps of a conversation, and of its passes.

/// What is told of a decision step and of a pass, besides what is always answered.
#[derive(Clone, Copy, Debug, PartialEq, Eq)]
pub enum Asked {
    /// Nothing.
    Nothing,
    /// The step, with the code of each line.
    Steps,
    /// Each line whose code is another one than before; and behind a pass how many frames wait, where that is another
    /// number than behind the pass before.
    Members,
}
