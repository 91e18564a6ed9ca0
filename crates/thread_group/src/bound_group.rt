//! A group whose type says which session it belongs to.

ghost use Rattle.std.specs.Prelude.{◌≡◌};
ghost use Rattle.law_model.specs.Common.{leg_of};
ghost use Rattle.thread_group.specs.GroupOfLeg.{IsBound};

use crate::group_answers::{SubmitFault, TickAnswer};
use crate::group_state::GroupState;
use std::marker::{Brand, PhantomData};
use terminal_group::{ItemRef, Landing};

/// Which session it is: its script, and the ends of the rings of its group as they were made. Each call of
/// the function that makes the lock picks them.
pub trait Session: Send + Sync {
    ghost use Rattle.std.specs.Prelude.{List};
    ghost use Rattle.law_model.specs.Common.{Container, BackCell};
    ghost use Rattle.law_model.specs.declared.script_types.Script.{Script};
    ghost use Rattle.thread_rings.specs.EndsOfRing.{OutEnd};
    ghost use Rattle.thread_rings.specs.EndsOfRing.{InEnd};

    ghost script: { Script };

    ghost tx: { List (OutEnd Container) };

    ghost back: { List (InEnd BackCell) };
}

impl Session for Brand {
    ghost use Rattle.std.specs.Prelude.{[]};
    ghost use Rattle.law_model.specs.Common.{default_options};

    ghost script = { record {
      config = record {
        lines = 0;
        delays = [];
        windows = [];
        lost = [];
        ring = 0;
        lag = 0;
        ticks = 0;
        size = 0;
        options = default_options;
      };
      items = [];
      events = [];
    } };

    ghost tx = { [] };

    ghost back = { [] };
}

/// Below which numbers of the script it is handed in what the client brings, and what the operator brings.
#[derive(Clone, Copy)]
struct Handed {
    frames: u32,
    commands: u32,
}

/// The value behind a group's lock: a group that belongs to the session `Y`, and what is handed in ahead.
#[derive(Drop)]
pub struct BoundGroup<Y: Session> {
    state: GroupState,
    handed: Handed,
    of: PhantomData<Y>,
    ghost bound: { IsBound (leg_of Y.script) Y.tx Y.back state },
}

impl<Y: Session> BoundGroup<Y> {
    ghost use Rattle.std.specs.Prelude.{◌≡◌, nat_lt, not, true, false};
    ghost use Rattle.law_model.specs.Common.{refusal_in};
    ghost use Rattle.terminal_group.specs.Item.{kind_of};
    ghost use Rattle.thread_group.specs.SubmitFaults.{is_full};
    ghost use Rattle.thread_group.specs.GroupCalls.{Submits, Ticks};
    ghost use Rattle.thread_group.specs.Group.{parts_of};
    ghost use Rattle.thread_group.specs.HandedAhead.{handed_below};
    ghost use Rattle.thread_group.specs.GroupOfLeg.{IsItemOf};

    /// Binds a group to its session. Nothing is handed in.
    pub fn new(state: GroupState) -> BoundGroup<Y>
        requires { IsBound (leg_of Y.script) Y.tx Y.back state }
        ensures state { result.state ≡ state }
        ensures frames { handed_below result.handed true ≡ 0 }
        ensures commands { handed_below result.handed false ≡ 0 }
    {
        BoundGroup {
            state,
            handed: Handed {
                frames: 0,
                commands: 0,
            },
            of: PhantomData,
        }
    }

    /// What has landed of the group, and what lands next.
    pub fn landing(&self) -> &Landing
        ensures { result.now ≡ (parts_of self.now.state).landed }
    {
        &self.state.landing
    }

    /// Hands in ahead what the client brings, or what the operator brings, below a number of the script. None of
    /// it lands by that.
    pub fn hand_in(&mut self, client: bool, below: u32)
        ensures handed { handed_below self.new.handed client ≡ below }
        ensures other { handed_below self.new.handed (not client)
            ≡ handed_below self.old.handed (not client) }
        ensures state { self.new.state ≡ self.old.state }
    {
        if client {
            self.handed.frames = below;
        } else {
            self.handed.commands = below;
        }
    }

    /// Whether the item of this number is handed in, as one that the client brings, or that the operator brings.
    pub fn is_handed_in(&self, client: bool, number: u32) -> bool
        ensures { result ≡ nat_lt number (handed_below self.now.handed client) }
    {
        if client {
            number < self.handed.frames
        } else {
            number < self.handed.commands
        }
    }

    /// Lands an item, which is the one of this number in the session's script, as `GroupState::submit` does.
    /// The journal has room for it. What is handed in stays as it was.
    pub fn submit(&mut self, number: u32, item: ItemRef) -> Result<(), SubmitFault>
        requires { IsItemOf (leg_of Y.script) number (kind_of item) }
        ensures submits { Submits self.old.state self.new.state number (kind_of item.entry)
            (refusal_in result) }
        ensures room { is_full (refusal_in result) ≡ false }
        ensures handed { self.new.handed ≡ self.old.handed }
    {
        self.state.submit(number, item)
    }

    /// Moves return cells, and makes the next frame where it can, as `GroupState::tick` does. What is handed in
    /// stays as it was.
    pub fn tick(&mut self) -> TickAnswer
        ensures ticks { Ticks self.old.state self.new.state result }
        ensures handed { self.new.handed ≡ self.old.handed }
    {
        self.state.tick()
    }

    /// Gives back the group.
    pub fn into_state(self) -> GroupState
        ensures same { result ≡ self.state }
        ensures bound { IsBound (leg_of Y.script) Y.tx Y.back result }
    {
        let BoundGroup {
            state,
            handed: _,
            of: _,
        } = self;
        state
    }
}
