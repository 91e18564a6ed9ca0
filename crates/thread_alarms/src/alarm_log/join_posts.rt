//! The end of a log: the passes of its posts are joined to its own, and what they kept goes to its list.
ghost use Rattle.std.specs.Prelude.{◌≡◌, ℕ, ◌+◌, ◌≤◌, [], ◌∷◌, ◌++◌, length, map, slice_get, Some, vec_len};
ghost use Rattle.std.specs.Vec.{vec_capacity};
ghost use Rattle.crossbeam_queue.specs.Passes.{view, IsPassOf};
ghost use Rattle.thread_alarms.specs.declared.alarm_log.alarm_post.AlarmPost.{AlarmPost};
ghost use Rattle.thread_alarms.specs.declared.alarm_log.queue_rule.View.TheVariants.{Log};
ghost use Rattle.thread_alarms.specs.alarm_log.Alarms.{in_row, items_of};
ghost use Rattle.thread_alarms.specs.alarm_log.Views.{heard_of, with_known};
ghost use Rattle.thread_alarms.specs.alarm_log.Posts.{known_by, kept_by};

use crate::alarm_log::alarm_post::AlarmPost;
use crate::alarm_log::queue_rule::{AlarmQueue, Joins, View};
use crate::alarm_log::tagged_alarm::Tagged;
use crossbeam_queue::Pass;
use thread_rings::Alarm;

/// Joins the pass of a post, and hands out what the post kept.
fn join_one(queue: &AlarmQueue, pass: &mut Pass<Tagged, View>, post: AlarmPost) -> Vec<Alarm>
    requires own { IsPassOf queue.now pass.old }
    requires is { view pass.old ≡ Log (heard_of (view pass.old)) }
    requires queue { post.pass.table_id ≡ pass.old.table_id }
    ensures own { IsPassOf queue.now pass.new × (pass.new.table_id ≡ pass.old.table_id) }
    ensures known { view pass.new ≡ with_known (view pass.old) (known_by post ∷ []) }
    ensures kept { result.items ≡ kept_by post }
{
    let AlarmPost {
        pass: theirs,
        kept,
        ..
    } = post;
    queue.absorb::<Joins>(pass, theirs);
    kept
}

/// Joins the passes of all posts, and hands out what each post kept, in their order.
pub(super) fn join_all(
    queue: &AlarmQueue,
    pass: &mut Pass<Tagged, View>,
    posts: Vec<AlarmPost>,
    room: Vec<Vec<Alarm>>,
) -> Vec<Vec<Alarm>>
    requires own { IsPassOf queue.now pass.old }
    requires is { view pass.old ≡ Log (heard_of (view pass.old)) }
    requires queue { (i : ℕ) (post : AlarmPost) →
        slice_get posts.items i ≡ Some post → post.pass.table_id ≡ pass.old.table_id }
    requires room { (room.items ≡ []) × (vec_len posts ≤ vec_capacity room) }
    ensures own { IsPassOf queue.now pass.new × (pass.new.table_id ≡ pass.old.table_id) }
    ensures known { view pass.new ≡ with_known (view pass.old) (map known_by posts.items) }
    ensures kept { map items_of result.items ≡ map kept_by posts.items }
{
    let mut all = room;
    for post in posts {
        all.push_reserved(join_one(queue, pass, post));
    }
    all
}

/// Moves what a post kept to the end of the list.
fn append(list: &mut Vec<Alarm>, kept: Vec<Alarm>)
    requires { length list.old.items + length kept.items ≤ vec_capacity list.old }
    ensures items { list.new.items ≡ list.old.items ++ kept.items }
    ensures capacity { vec_capacity list.new ≡ vec_capacity list.old }
{
    for alarm in kept {
        list.push_reserved(alarm);
    }
}

/// Moves what the posts kept to the end of the list.
pub(super) fn append_all(list: &mut Vec<Alarm>, kept: Vec<Vec<Alarm>>)
    requires { length list.old.items + length (in_row (map items_of kept.items))
        ≤ vec_capacity list.old }
    ensures { list.new.items ≡ list.old.items ++ in_row (map items_of kept.items) }
{
    for one in kept {
        append(list, one);
    }
}
