//! What a tick does to the ends of the rings of a group.

ghost use Rattle.std.specs.Prelude.{◌≡◌, ◌⊎◌, ◌<◌, ◌≤◌, ◌+◌, length, MatchOption};
ghost use Rattle.law_model.specs.Common.{Container, most_lines};
ghost use Rattle.member_cells.specs.HeldPlaces.{held};
ghost use Rattle.thread_group.specs.GroupRings.{AreFree, IsFirstFull, HaveLooked, ArePushed, IsDrained, HasMoved};

use member_cells::{BackCell, Container, HeldContainer};
use terminal_group::CountedSource;
use thread_rings::{RingIn, RingOut};

/// Moves return cells into the inbox until a look finds none, or the inbox is full.
pub(crate) fn take_cells(source: &mut CountedSource, back: &mut RingIn<BackCell>)
    requires room { length source.old.inbox.cells ≤ source.old.inbox.room }
    requires few { source.old.inbox.come + source.old.inbox.room < 4294967295 }
    ensures moved { HasMoved source.old.inbox source.new.inbox back.old back.new }
    ensures until { IsDrained back.old back.new
        ⊎ (length source.new.inbox.cells ≡ source.new.inbox.room) }
    ensures rest { source.new ≡ record source.old { inbox = source.new.inbox } }
{
    while !source.inbox().is_full() {
        if !back.ready() {
            return;
        }
        source.put(back.pop());
    }
}

/// The first line whose send ring has no free slot, as far as looks tell.
pub(crate) fn first_full(tx: &mut Vec<RingOut<Container>>) -> Option<u8>
    requires { length tx.old.items ≤ most_lines }
    ensures looked { HaveLooked tx.old.items tx.new.items }
    ensures full { MatchOption result (AreFree tx.new.items)
        (λ line. IsFirstFull tx.old.items tx.new.items line) }
{
    for m in 0..tx.len() {
        if !tx[m].ready() {
            return Some(m as u8);
        }
    }
    None
}

/// Pushes a frame, a container for each line, in its box. Another box then lies in its place.
pub(crate) fn push_frame(tx: &mut Vec<RingOut<Container>>, frame: &mut Vec<Box<HeldContainer>>)
    requires places { length frame.old.items ≡ length tx.old.items }
    requires free { AreFree tx.old.items }
    ensures pushed { ArePushed (held frame.old.items) tx.old.items tx.new.items }
    ensures places { length frame.new.items ≡ length frame.old.items }
{
    for m in 0..tx.len() {
        tx[m].push_place(&mut frame[m]);
    }
}
