//! The log, which one thread turns, and its list.
ghost use Rattle.std.specs.Prelude.{◌≡◌, ◌≤◌, [], vec_len, vec_capacity};
ghost use Rattle.std.specs.Arc.{arc_value};
ghost use Rattle.octet_io.specs.FaultCounts.{one_more};
ghost use Rattle.crossbeam_queue.specs.Passes.{view};
ghost use Rattle.thread_alarms.specs.alarm_log.Views.{made_of, known_of};
ghost use Rattle.thread_alarms.specs.alarm_log.Listens.{Listens};

use crate::alarm_log::alarm_post::AlarmPost;
use crate::alarm_log::join_posts::{append_all, join_all};
use crate::alarm_log::queue_rule::{AlarmQueue, View};
use crate::alarm_log::tagged_alarm::Tagged;
use crate::alarm_log::take_alarms::{drain, take};
use crossbeam_queue::Pass;
use std::alloc::Global;
use std::sync::{Arc, Wait};
use thread_rings::Alarm;

/// The most alarms that a turn moves.
const MOVES: u32 = 16;

/// What a turn did.
#[derive(Clone, Copy, Debug, PartialEq, Eq)]
pub enum Turn {
    /// At least one alarm was moved.
    Taken,
    /// No alarm was moved: none was found in the queue.
    Empty,
}

/// A log of alarms.
#[derive(Drop)]
pub struct AlarmLog {
    pub(super) queue: Arc<AlarmQueue, Global>,
    pub(super) pass: Pass<Tagged, View>,
    pub(super) list: Vec<Alarm>,
    /// How many looks at the queue found no alarm. The count stops at 2^64 - 1.
    pub(super) misses: u64,
    /// Room for what the posts kept.
    pub(super) back: Vec<Vec<Alarm>>,
    /// The pass is that of this log, and the list has the alarms that it got.
    pub ghost listens: { Listens (arc_value queue) pass list },
    /// No post's pass was joined to that of the log.
    pub ghost open_: { known_of (view pass) ≡ [] },
    /// Nothing came back yet, and there is room for what each post that was made kept.
    pub ghost room: { (back.items ≡ []) × (made_of (view pass) ≤ vec_capacity back) },
}

/// The alarms of a log that has ended.
#[derive(Drop)]
pub struct AlarmList {
    pub(super) list: Vec<Alarm>,
}

impl AlarmList {
    ghost use Rattle.std.specs.Prelude.{◌≡◌};
    ghost use Rattle.thread_alarms.specs.alarm_log.Logs.{alarms_in};

    /// The alarms.
    pub fn alarms(&self) -> &[Alarm]
        ensures { result.now ≡ alarms_in self.now }
    {
        self.list.as_slice()
    }
}

impl AlarmLog {
    ghost use Rattle.std.specs.Prelude.{◌≡◌, ◌+◌, ◌<◌, ◌≤◌, ◌↔◌, ◌++◌, List, length, true, false, ℕ, slice_get, Some};
    ghost use Rattle.std.specs.Prelude.{vec_len, map, IsPermutation};
    ghost use Rattle.thread_alarms.specs.declared.alarm_log.alarm_post.AlarmPost.{AlarmPost};
    ghost use Rattle.thread_alarms.specs.alarm_log.Alarms.{of_line, in_row};
    ghost use Rattle.thread_alarms.specs.alarm_log.Posts.{posted_by};
    ghost use Rattle.crossbeam_queue.specs.Fifo.{Held};
    ghost use Rattle.thread_rings.specs.declared.alarm_kinds.Alarm.{Alarm};
    ghost use Rattle.thread_alarms.specs.alarm_log.Logs.{moved_by, misses_of, was_heard, alarms_in, posts_of, IsAlone};
    ghost use Rattle.thread_alarms.specs.alarm_log.Logs.{IsPostOf, SameLog};

    /// Moves up to 16 alarms from the queue to the list, and ends before that only where a look finds no further one,
    /// which is counted. It takes no memory. Others may post meanwhile, so no clause says what the queue held: `empty`
    /// and `all` say what the list has then, and that what a queue without alarms teaches was learned.
    pub fn turn<R: Wait>(&mut self, rt: &R) -> Turn
        ensures taken { (result ≡ Turn.Taken)
            ↔ (length (moved_by self.old) < length (moved_by self.new)) }
        ensures most { length (moved_by self.new) ≤ length (moved_by self.old) + 16 }
        ensures grown { (more : List Alarm) × (moved_by self.new ≡ moved_by self.old ++ more) }
        ensures empty { result ≡ Turn.Empty →
            (moved_by self.new ≡ moved_by self.old) × Held 0 (was_heard self.old) }
        ensures all { length (moved_by self.new) < length (moved_by self.old) + 16 →
            Held 0 (was_heard self.new) }
        ensures missed { length (moved_by self.new) < length (moved_by self.old) + 16 →
            misses_of self.new ≡ one_more (misses_of self.old) }
        ensures same { SameLog self.old self.new }
    {
        if !self.take_one(rt) {
            return Turn::Empty;
        }
        self.take_on(rt);
        Turn::Taken
    }

    /// Moves what is left in the queue to the list, and then what each post keeps: in some order that is all that was
    /// posted. The alarms of a line that came through one post alone are those posted, in order. It takes no memory.
    pub fn finish<R: Wait>(self, rt: &R, posts: Vec<AlarmPost>) -> AlarmList
        requires one_log { (i : ℕ) (post : AlarmPost) →
            slice_get posts.items i ≡ Some post → IsPostOf self post }
        requires count { vec_len posts ≡ posts_of self }
        ensures whole { IsPermutation (in_row (map posted_by posts.items)) (alarms_in result) }
        ensures lines { (m i : ℕ) (post : AlarmPost) →
            slice_get posts.items i ≡ Some post → IsAlone m i posts.items →
            of_line m (alarms_in result) ≡ of_line m (posted_by post) }
    {
        let AlarmLog {
            queue,
            pass,
            list,
            back,
            misses: _,
        } = self;
        let mut pass = pass;
        let mut list = list;
        let kept = join_all(&queue, &mut pass, posts, back);
        drain(rt, &queue, &mut pass, &mut list);
        append_all(&mut list, kept);
        AlarmList { list }
    }

    /// Moves alarms up to the sixteenth of a turn, after the first.
    fn take_on<R: Wait>(&mut self, rt: &R)
        ensures least { length (moved_by self.old) ≤ length (moved_by self.new) }
        ensures most { length (moved_by self.new) ≤ length (moved_by self.old) + 15 }
        ensures grown { (more : List Alarm) × (moved_by self.new ≡ moved_by self.old ++ more) }
        ensures all { length (moved_by self.new) < length (moved_by self.old) + 15 →
            Held 0 (was_heard self.new) }
        ensures missed { length (moved_by self.new) < length (moved_by self.old) + 15 →
            misses_of self.new ≡ one_more (misses_of self.old) }
        ensures same { SameLog self.old self.new }
    {
        for _ in 1..MOVES {
            if !self.take_one(rt) {
                return;
            }
        }
    }

    /// Moves the oldest alarm of the queue to the list, if there is one. A look that finds none is counted.
    fn take_one<R: Wait>(&mut self, rt: &R) -> bool
        ensures moved { result ≡ true →
            length (moved_by self.new) ≡ length (moved_by self.old) + 1 }
        ensures grown { (more : List Alarm) × (moved_by self.new ≡ moved_by self.old ++ more) }
        ensures none { result ≡ false →
            (moved_by self.new ≡ moved_by self.old) × Held 0 (was_heard self.old) }
        ensures empty { result ≡ false → Held 0 (was_heard self.new) }
        ensures counted { result ≡ false → misses_of self.new ≡ one_more (misses_of self.old) }
        ensures quiet { result ≡ true → misses_of self.new ≡ misses_of self.old }
        ensures same { SameLog self.old self.new }
    {
        if take(rt, &self.queue, &mut self.pass, &mut self.list) {
            return true;
        }
        self.misses = self.misses.saturating_add(1);
        false
    }
}
