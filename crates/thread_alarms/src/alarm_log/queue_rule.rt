//! The rule of the queue: what was put through each post is what was got of it, and then what the queue holds of it.
use crate::alarm_log::tagged_alarm::Tagged;
use crossbeam_queue::RuledArrayQueue;
use crossbeam_queue::protocol::{Join, Lesson, Outcome, Protocol, Split};
use std::collections::LinkedList;
use thread_rings::Alarm;

/// What was put through a post whose pass was joined to the log's.
pub struct Known {
    /// The number of the post.
    pub from: u64,
    /// What was put.
    pub put: LinkedList<Alarm>,
}

/// What the pass of the log knows.
pub struct Heard {
    /// How many alarms may be put through one post.
    pub most: u64,
    /// How many posts there will be.
    pub posts: u64,
    /// How many posts were made.
    pub made: u64,
    /// What was got, oldest first.
    pub got: LinkedList<Tagged>,
    /// What was put through the posts whose passes were joined.
    pub known: LinkedList<Known>,
}

/// What a pass knows. No value of it is made.
pub enum View {
    /// The only pass there is, before there are posts: how many items it has in the queue, how many alarms may be put
    /// through a post, and how many posts there will be.
    Setting(u64, u64, u64),
    /// The pass of the log.
    Log(Heard),
    /// The pass of a post: its number, how many alarms may be put through a post, how many posts there will be, and
    /// what was put.
    Post(u64, u64, u64, LinkedList<Alarm>),
    /// A pass that was joined to another.
    Spent,
}

/// The rule.
pub struct InOrder;

impl Protocol<Tagged, View> for InOrder {
    ghost use Rattle.thread_alarms.specs.declared.alarm_log.queue_rule.View.TheVariants.{Setting};
    ghost use Rattle.thread_alarms.specs.alarm_log.Rule.{Holds};

    ghost holds = { Holds };

    ghost first = { Setting 0 0 0 };
}

/// The push that says how many alarms may be put through a post, and how many posts there will be.
pub struct Limit;

impl Outcome<Tagged, View> for Limit {
    ghost use Rattle.std.specs.Prelude.{◌≡◌};
    ghost use Rattle.thread_alarms.specs.declared.alarm_log.queue_rule.View.TheVariants.{Setting};

    ghost then = { λ v x w. w ≡ Setting 1 x.alarm.place x.alarm.line };
}

/// The pop after it.
pub struct Listen;

impl Outcome<Tagged, View> for Listen {
    ghost use Rattle.std.specs.Prelude.{◌≡◌};
    ghost use Rattle.thread_alarms.specs.alarm_log.Views.{listening};

    ghost then = { λ v x w. w ≡ listening v };
}

/// The split of a pass for a post.
pub struct Opens;

impl Split<View> for Opens {
    ghost use Rattle.thread_alarms.specs.alarm_log.Views.{and_made, new_post};

    ghost left = { and_made };

    ghost right = { new_post };
}

/// The join of a post's pass to the log's.
pub struct Joins;

impl Join<View> for Joins {
    ghost use Rattle.thread_alarms.specs.declared.alarm_log.queue_rule.View.TheVariants.{Spent};
    ghost use Rattle.thread_alarms.specs.alarm_log.Views.{and_known};

    ghost both = { and_known };

    ghost spent = { Spent };
}

/// A push by a post.
pub struct Put;

impl Outcome<Tagged, View> for Put {
    ghost use Rattle.std.specs.Prelude.{◌≡◌};
    ghost use Rattle.thread_alarms.specs.alarm_log.Views.{and_put};

    ghost then = { λ v x w. w ≡ and_put v x.alarm };
}

impl Lesson<Tagged, View> for Put {
    ghost use Rattle.thread_alarms.specs.alarm_log.Views.{IsHeld};

    ghost fact = { IsHeld };
}

/// A pop by the log.
pub struct Got;

impl Outcome<Tagged, View> for Got {
    ghost use Rattle.std.specs.Prelude.{◌≡◌, ◌≤◌, ◌*◌, length};
    ghost use Rattle.thread_alarms.specs.alarm_log.Views.{and_got, got_of, made_of, most_of};

    ghost then = { λ v x w. (w ≡ and_got v x) × (length (got_of w) ≤ made_of v * most_of v) };
}

impl Lesson<Tagged, View> for Got {
    ghost use Rattle.thread_alarms.specs.alarm_log.Views.{IsHeard};

    ghost fact = { IsHeard };
}

/// The queue of alarms, under the rule.
pub type AlarmQueue = RuledArrayQueue<Tagged, View, InOrder>;
