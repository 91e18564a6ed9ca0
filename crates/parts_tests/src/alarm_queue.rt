//! An alarm log whose queue has room for one alarm, on one thread.
ghost use Rattle.std.specs.Prelude.{◌≡◌, ◌≤◌, [], IfSome};
ghost use Rattle.thread_alarms.specs.alarm_log.Logs.{posts_of, IsPostOf};
ghost use Rattle.thread_alarms.specs.alarm_log.Posts.{posted_by, most_by};

use std::alloc::{AllocError, Global};
use std::sync::Wait;
use thread_alarms::alarm_log::{AlarmList, AlarmLog, AlarmPost, Posted, Turn, make_log};
use thread_rings::{Alarm, AlarmKind};

/// An alarm of line 3.
fn fails(place: u32) -> Alarm {
    Alarm {
        line: 3,
        place,
        kind: AlarmKind::Fails,
    }
}

/// A log with one post and a queue with room for one alarm.
fn open_one(alloc: Global, most: u32) -> Option<(AlarmLog, AlarmPost)>
    requires { most ≤ 100000 }
    ensures { IfSome result (λ r. IsPostOf r.0 r.1
        × (posts_of r.0 ≡ 1) × (posted_by r.1 ≡ []) × (most_by r.1 ≡ most)) }
{
    let (log, mut posts) = match make_log(alloc, 1, 1, most) {
        Ok(made) => made,
        Err(AllocError) => return None,
    };
    let post = posts.pop()?;
    Some((log, post))
}

/// Ends a log with one post.
fn end_one<R: Wait>(rt: &R, alloc: Global, log: AlarmLog, post: AlarmPost) -> Option<AlarmList>
    requires one_log { IsPostOf log post }
    requires count { posts_of log ≡ 1 }
{
    let mut posts = Vec::new(alloc);
    posts.push(post).ok()?;
    Some(log.finish(rt, posts))
}

/// The places of three alarms.
fn places(list: &AlarmList) -> Option<[u32; 3]> {
    match list.alarms() {
        [first, second, third] => Some([first.place, second.place, third.place]),
        _ => None,
    }
}

/// What three posts answer, of which the first two are before a turn; what the turn answers; and the places
/// in the list.
fn one_slot<R: Wait>(rt: &R, alloc: Global) -> Option<([Posted; 3], Turn, [u32; 3])> {
    let (mut log, mut post) = open_one(alloc, 3)?;
    let first = post.post(rt, fails(100));
    let second = post.post(rt, fails(101));
    let turn = log.turn(rt);
    let third = post.post(rt, fails(161));
    let list = end_one(rt, alloc, log, post)?;
    Some(([first, second, third], turn, places(&list)?))
}

#[test]
fn a_queue_with_one_slot(rt: HostRuntime) {
    let wanted = (
        [Posted::Queued, Posted::Kept, Posted::Kept],
        Turn::Taken,
        [100, 101, 161],
    );
    assert!(rt; one_slot(&rt, rt.alloc()) == Some(wanted));
}
