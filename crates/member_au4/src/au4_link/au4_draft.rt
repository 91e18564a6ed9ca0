//! What a link's text says, and what its lines so far say.

use crate::au4_pointer::Action;
use std::marker::Model;

/// The actions of frames, from frame 0 on.
#[derive(Drop)]
pub struct ActionList(pub Vec<Action>);

impl Model for ActionList {
    ghost use Rattle.std.specs.Prelude.{List};
    ghost use Rattle.member_au4.specs.declared.au4_pointer.au_frame.Action.{Action};

    ghost Value = { List Action };

    ghost view = { λ actions. actions.0.items };
}

/// What the pointers of a link do.
#[derive(Drop)]
pub struct Link {
    /// The value at which the first part begins, 0 to 782.
    pub start: u16,
    /// The action of each frame, of 1 to 100,000.
    pub actions: ActionList,
}

/// What the lines so far say.
#[derive(Drop)]
pub(super) struct Au4Draft {
    /// The value at which the first part begins.
    pub start: u16,
    /// The number of frames.
    pub frames: u32,
    /// The actions up to the last frame that a line named.
    pub actions: ActionList,
}
