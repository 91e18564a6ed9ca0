//! A post, through which a thread puts alarms.
ghost use Rattle.std.specs.Prelude.{◌≡◌, ◌+◌, ◌<◌, ◌≤◌, ◌++◌, ◌∷◌, [], length, vec_capacity};
ghost use Rattle.std.specs.Arc.{arc_value};
ghost use Rattle.crossbeam_queue.specs.Passes.{view, IsPassOf};
ghost use Rattle.thread_alarms.specs.declared.alarm_log.queue_rule.View.TheVariants.{Post};
ghost use Rattle.thread_alarms.specs.alarm_log.Views.{put_of, posts_in};

use crate::alarm_log::queue_rule::{AlarmQueue, Put, View};
use crate::alarm_log::tagged_alarm::Tagged;
use crossbeam_queue::Pass;
use std::alloc::Global;
use std::sync::{Arc, Wait};
use thread_rings::Alarm;

/// What became of an alarm that was posted.
#[derive(Clone, Copy, Debug, PartialEq, Eq)]
pub enum Posted {
    /// It is in the queue, or was taken from it.
    Queued,
    /// The post keeps it: the queue had no room, or the post kept an alarm already.
    Kept,
}

/// A post of a log.
#[derive(Drop)]
pub struct AlarmPost {
    pub(super) number: u8,
    pub(super) most: u32,
    pub(super) queue: Arc<AlarmQueue, Global>,
    pub(super) pass: Pass<Tagged, View>,
    pub(super) kept: Vec<Alarm>,
    /// The pass is one of this queue.
    pub ghost own: { IsPassOf (arc_value queue) pass },
    /// The pass is that of the post with this number and this limit.
    pub ghost seat: { view pass ≡ Post number most (posts_in (view pass)) (put_of (view pass)) },
    /// What was put and what is kept are together no more than it may post.
    pub ghost limit: { length (put_of (view pass)) + length kept.items ≤ most },
    /// There is room to keep all of them.
    pub ghost room: { most ≤ vec_capacity kept },
}

impl AlarmPost {
    ghost use Rattle.std.specs.Prelude.{◌≡◌, ◌+◌, ◌*◌, ◌<◌, ◌≤◌, [], ◌∷◌, ◌++◌, length};
    ghost use Rattle.thread_alarms.specs.alarm_log.Posts.{posted_by, kept_by, most_by, posts_by, room_by, SamePost};

    /// Posts an alarm. It waits for no room, and takes no memory. Others post meanwhile, so no clause says what the
    /// queue held: of the first alarm that a post keeps `full` says that all posts together could have filled it.
    pub fn post<R: Wait>(&mut self, rt: &R, a: Alarm) -> Posted
        requires { length (posted_by self.old) < most_by self.old }
        ensures posted { posted_by self.new ≡ posted_by self.old ++ a ∷ [] }
        ensures queued { result ≡ Posted.Queued →
            (kept_by self.old ≡ []) × (kept_by self.new ≡ []) }
        ensures kept { result ≡ Posted.Kept → kept_by self.new ≡ kept_by self.old ++ a ∷ [] }
        ensures full { result ≡ Posted.Kept → kept_by self.old ≡ [] →
            room_by self.old + most_by self.old
            ≤ posts_by self.old * most_by self.old + length (posted_by self.old) }
        ensures same { SamePost self.old self.new }
    {
        if !self.kept.is_empty() {
            self.kept.push_reserved(a);
            return Posted::Kept;
        }
        let tagged = Tagged {
            from: self.number,
            alarm: a,
        };
        match self.queue.push_as::<Put, R>(rt, &mut self.pass, tagged) {
            Ok(()) => Posted::Queued,
            Err(back) => {
                self.kept.push_reserved(back.alarm);
                Posted::Kept
            }
        }
    }
}
