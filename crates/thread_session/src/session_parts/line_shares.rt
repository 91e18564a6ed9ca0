//! The workers of lines are dealt to shares, one for each line thread, and come back in their order.
ghost use Rattle.std.specs.Prelude.{◌≡◌, ◌+◌, ◌<◌, ◌≤◌, List, [], ◌∷◌, ◌++◌, length, vec_len, vec_capacity};
ghost use Rattle.thread_alarms.specs.declared.watched_line.served_line.ServedLine.{ServedLine};
ghost use Rattle.thread_session.specs.session_parts.ServedLines.{AreNumbered, AreDealt, AreBack, HaveRoom};
ghost use Rattle.thread_alarms.specs.watched_line.ServedWithPosts.{AreServedLater};

use thread_alarms::watched_line::ServedLine;

/// Deals the workers of all lines: share `w` of `n` gets those of the lines `m` with `m mod n = w`.
pub fn deal(lines: Vec<ServedLine>, shares: Vec<Vec<ServedLine>>) -> Vec<Vec<ServedLine>>
    requires some { 0 < vec_len shares }
    requires numbers { AreNumbered 0 lines.items }
    requires room { HaveRoom (vec_len lines) shares.items }
    ensures count { vec_len result ≡ vec_len shares }
    ensures dealt { AreDealt lines.items (vec_len shares) result.items }
{
    let mut shares = shares;
    let count = shares.len();
    let mut line = 0;
    for worker in lines {
        shares[line % count].push_reserved(worker);
        line += 1;
    }
    shares
}

/// Moves the last worker of a share to the end of the lines, if there is one.
fn take_last(share: &mut Vec<ServedLine>, lines: &mut Vec<ServedLine>)
    requires { vec_len lines.old < vec_capacity lines.old }
    ensures moved { (rest : List ServedLine) (last : ServedLine) →
        share.old.items ≡ rest ++ last ∷ [] →
        (share.new.items ≡ rest) × (lines.new.items ≡ lines.old.items ++ last ∷ []) }
    ensures most { vec_len lines.new ≤ vec_len lines.old + 1 }
    ensures capacity { vec_capacity lines.new ≡ vec_capacity lines.old }
{
    if let Some(worker) = share.pop() {
        lines.push_reserved(worker);
    }
}

/// Brings the workers of so many lines back into the order of the lines.
pub fn collect(shares: Vec<Vec<ServedLine>>, count: usize, room: Vec<ServedLine>) -> Vec<ServedLine>
    requires some { 0 < vec_len shares }
    requires room { (room.items ≡ []) × (count ≤ vec_capacity room) }
    ensures { (workers : List ServedLine) → length workers ≡ count → AreNumbered 0 workers →
        AreBack workers (vec_len shares) shares.items → AreServedLater workers result.items }
{
    let mut shares = shares;
    let mut lines = room;
    let shares_count = shares.len();
    let mut line = count;
    while line > 0 {
        line -= 1;
        take_last(&mut shares[line % shares_count], &mut lines);
    }
    lines.reverse();
    lines
}
