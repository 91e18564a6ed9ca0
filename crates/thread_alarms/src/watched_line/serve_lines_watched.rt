//! The lines of a session, with their posts, and both apart again.
ghost use Rattle.std.specs.Prelude.{◌≡◌, ◌≤◌, [], map, vec_len, vec_capacity};
ghost use Rattle.thread_alarms.specs.watched_line.ServedWithPosts.{worker_of, posts_of, AreWatchable, AreTold};

use crate::alarm_log::AlarmPost;
use crate::watched_line::served_line::ServedLine;
use thread_rings::LineWorker;

/// Each worker with the post at its place, where there is one. It takes no memory.
pub fn serve_lines(
    workers: Vec<LineWorker>,
    posts: Vec<AlarmPost>,
    room: Vec<ServedLine>,
) -> Vec<ServedLine>
    requires few { vec_len posts ≤ vec_len workers }
    requires room { (room.items ≡ []) × (vec_len workers ≤ vec_capacity room) }
    requires watch { AreWatchable workers.items posts.items }
    ensures workers { map worker_of result.items ≡ workers.items }
    ensures posts { posts_of result.items ≡ posts.items }
{
    let mut served = room;
    let mut left = posts.into_iter();
    for worker in workers {
        served.push_reserved(ServedLine::new(worker, left.next()));
    }
    served
}

/// The workers and the posts of lines. It takes no memory. Where each line is watched, what was posted
/// through the post at a place are the alarms of the worker there.
pub fn split_lines(
    lines: Vec<ServedLine>,
    workers: Vec<LineWorker>,
    posts: Vec<AlarmPost>,
) -> (Vec<LineWorker>, Vec<AlarmPost>)
    requires workers { (workers.items ≡ []) × (vec_len lines ≤ vec_capacity workers) }
    requires posts { (posts.items ≡ []) × (vec_len lines ≤ vec_capacity posts) }
    ensures workers { result.0.items ≡ map worker_of lines.items }
    ensures posts { result.1.items ≡ posts_of lines.items }
    ensures told { vec_len result.1 ≡ vec_len result.0 → AreTold result.0.items result.1.items }
{
    let mut workers = workers;
    let mut posts = posts;
    for line in lines {
        let ServedLine { worker, post } = line;
        workers.push_reserved(worker);
        if let Some(post) = post {
            posts.push_reserved(post);
        }
    }
    (workers, posts)
}
