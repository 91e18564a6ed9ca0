//! A log is made, with its posts.
ghost use Rattle.std.specs.Prelude.{◌≡◌, ℕ, ◌+◌, ◌<◌, ◌≤◌, IfOk, length, slice_get, Some};
ghost use Rattle.std.specs.Arc.{arc_value};
ghost use Rattle.crossbeam_queue.specs.Passes.{view, IsPassOf, ruled_capacity};
ghost use Rattle.thread_alarms.specs.declared.alarm_log.alarm_post.AlarmPost.{AlarmPost};
ghost use Rattle.thread_alarms.specs.declared.alarm_log.queue_rule.View.TheVariants.{Log};
ghost use Rattle.thread_alarms.specs.alarm_log.Views.{made_first, nothing_heard};
ghost use Rattle.thread_alarms.specs.alarm_log.Posts.{IsFresh};
ghost use Rattle.thread_alarms.specs.alarm_log.Logs.{IsMade};
ghost use Rattle.law_model.specs.Common.{most_lines};

use crate::alarm_log::alarm_post::AlarmPost;
use crate::alarm_log::log_turns::AlarmLog;
use crate::alarm_log::queue_rule::{AlarmQueue, Limit, Listen, Opens, View};
use crate::alarm_log::tagged_alarm::Tagged;
use crossbeam_queue::Pass;
use std::alloc::{AllocError, Global};
use std::sync::Arc;
use thread_rings::{Alarm, AlarmKind};

/// Makes a log with so many posts, a queue for `room` alarms, and room for `most` alarms in each post; or there is no
/// memory for it. No later call takes memory.
pub fn make_log(
    alloc: Global,
    posts: u8,
    room: u32,
    most: u32,
) -> Result<(AlarmLog, Vec<AlarmPost>), AllocError>
    requires posts { (0 < posts) × (posts ≤ most_lines) }
    requires room { (0 < room) × (room ≤ 65536) }
    requires most { most ≤ 100000 }
    ensures { IfOk result (λ r. IsMade r.0 r.1.items posts room most) }
{
    let list = Vec::with_capacity(alloc, posts as usize * most as usize)?;
    let back = Vec::with_capacity(alloc, posts as usize)?;
    let (line, mut pass) = limited(alloc, posts, room, most)?;
    let queue = Arc::new(alloc, line)?;
    let made = open_posts(alloc, &queue, &mut pass, posts, most)?;
    let log = AlarmLog {
        queue,
        pass,
        list,
        misses: 0,
        back,
    };
    Ok((log, made))
}

/// Makes the queue. An item that goes in and comes out tells its pass the limit of the posts.
fn limited(
    alloc: Global,
    posts: u8,
    room: u32,
    most: u32,
) -> Result<(AlarmQueue, Pass<Tagged, View>), AllocError>
    requires { 0 < room }
    ensures { IfOk result (λ q. IsPassOf q.0 q.1
        × (view q.1 ≡ Log (nothing_heard most posts)) × (ruled_capacity q.0 ≡ room)) }
{
    let (line, mut pass) = AlarmQueue::ruled(alloc, room as usize)?;
    let alarm = Alarm {
        line: posts,
        place: most,
        kind: AlarmKind::Ends,
    };
    match line.try_push_as::<Limit>(&mut pass, Tagged { from: 0, alarm }) {
        Ok(()) => match line.try_pop_as::<Listen>(&mut pass) {
            Some(_) => Ok((line, pass)),
            None => Err(AllocError),
        },
        Err(_) => Err(AllocError),
    }
}

/// Makes a post.
fn open_post(
    alloc: Global,
    queue: &Arc<AlarmQueue, Global>,
    pass: &mut Pass<Tagged, View>,
    number: u8,
    posts: u8,
    most: u32,
) -> Result<AlarmPost, AllocError>
    requires own { IsPassOf (arc_value queue.now) pass.old }
    requires below { number < posts }
    requires is { view pass.old ≡ Log (made_first most posts number) }
    ensures fresh { IfOk result (λ post.
        IsFresh post number posts (ruled_capacity (arc_value queue.now)) most
        × (post.pass.table_id ≡ pass.new.table_id)) }
    ensures own { IfOk result (λ post. IsPassOf (arc_value queue.now) pass.new
        × (pass.new.table_id ≡ pass.old.table_id)
        × (view pass.new ≡ Log (made_first most posts (number + 1)))) }
{
    let kept = Vec::with_capacity(alloc, most as usize)?;
    let queue = Arc::try_clone(queue)?;
    let theirs = queue.another::<Opens>(pass);
    Ok(AlarmPost {
        number,
        most,
        queue,
        pass: theirs,
        kept,
    })
}

/// Makes all posts, in the order of their numbers.
fn open_posts(
    alloc: Global,
    queue: &Arc<AlarmQueue, Global>,
    pass: &mut Pass<Tagged, View>,
    posts: u8,
    most: u32,
) -> Result<Vec<AlarmPost>, AllocError>
    requires own { IsPassOf (arc_value queue.now) pass.old }
    requires is { view pass.old ≡ Log (made_first most posts 0) }
    ensures count { IfOk result (λ made. length made.items ≡ posts) }
    ensures fresh { IfOk result (λ made.
        (i : ℕ) (post : AlarmPost) → slice_get made.items i ≡ Some post →
        IsFresh post i posts (ruled_capacity (arc_value queue.now)) most
        × (post.pass.table_id ≡ pass.new.table_id)) }
    ensures own { IfOk result (λ made. IsPassOf (arc_value queue.now) pass.new
        × (view pass.new ≡ Log (made_first most posts posts))) }
{
    let mut made = Vec::with_capacity(alloc, posts as usize)?;
    for number in 0..posts {
        let post = open_post(alloc, queue, pass, number, posts, most)?;
        made.push_reserved(post);
    }
    Ok(made)
}
