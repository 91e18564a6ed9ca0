//! The steps of a burst.
ghost use Rattle.std.specs.Prelude.{◌≡◌, ◌≢◌, ◌+◌, ◌<◌, ◌≤◌, length};
ghost use Rattle.member_rows.specs.realign_rows.Gather.{line_count};
ghost use Rattle.thread_sink.specs.SinkParts.{parts, Keeps, Later, Does, Gives};

use crate::burst_answers::SinkBurst;
use crate::sink_step::step;
use law_model::FrameOut;
use member_cells::{BackCell, Cell};
use member_rows::realign_rows::RowGather;
use terminal_sink::sink_core::SinkCore;
use thread_rings::{CellPlace, RingIn, RingOut};

/// The most rows of a burst.
const ROWS: u32 = 16;

/// The most steps of a burst: cells that are popped and rows that are taken.
const STEPS: u32 = 4096;

/// Makes the steps of a burst, at least one, and up to `ticks` rows in all.
pub(crate) fn take_rows<F: FrameOut>(
    rows: &mut RowGather,
    core: &mut SinkCore,
    rx: &mut Vec<RingIn<Cell>>,
    place: &mut CellPlace,
    back: &mut RingOut<BackCell>,
    out: &mut F,
    ticks: u32,
) -> SinkBurst
    requires lines { line_count rows.old ≡ core.old.lines }
    requires rings { length rx.old.items ≡ core.old.lines }
    requires rows { rows.old.rows ≡ core.old.taken }
    requires more { core.old.taken < ticks }
    ensures lines { line_count rows.new ≡ core.new.lines }
    ensures rings { length rx.new.items ≡ core.new.lines }
    ensures rows { rows.new.rows ≡ core.new.taken }
    ensures most { core.new.taken ≤ core.old.taken + 16 }
    ensures within { core.new.taken ≤ ticks }
    ensures never { result ≢ SinkBurst.Done }
    ensures later { Later (parts rows.old core.old rx.old.items back.old)
        (parts rows.new core.new rx.new.items back.new) }
    ensures keeps { Keeps (parts rows.old core.old rx.old.items back.old) →
        Keeps (parts rows.new core.new rx.new.items back.new) }
    ensures does { Keeps (parts rows.old core.old rx.old.items back.old) →
        Does (parts rows.old core.old rx.old.items back.old)
        (parts rows.new core.new rx.new.items back.new) result }
    ensures gives { Keeps (parts rows.old core.old rx.old.items back.old) →
        Gives F.stands_for out.old out.new
        (parts rows.old core.old rx.old.items back.old)
        (parts rows.new core.new rx.new.items back.new) }
{
    let last = core.taken().saturating_add(ROWS).min(ticks);
    let first = step(rows, core, rx, place, back, out);
    if first != SinkBurst::Moved {
        return first;
    }
    go_on(rows, core, rx, place, back, out, last);
    SinkBurst::Moved
}

/// Makes steps as long as they move, and up to `last` rows in all.
fn go_on<F: FrameOut>(
    rows: &mut RowGather,
    core: &mut SinkCore,
    rx: &mut Vec<RingIn<Cell>>,
    place: &mut CellPlace,
    back: &mut RingOut<BackCell>,
    out: &mut F,
    last: u32,
)
    requires lines { line_count rows.old ≡ core.old.lines }
    requires rings { length rx.old.items ≡ core.old.lines }
    requires rows { rows.old.rows ≡ core.old.taken }
    requires more { core.old.taken ≤ last }
    ensures lines { line_count rows.new ≡ core.new.lines }
    ensures rings { length rx.new.items ≡ core.new.lines }
    ensures rows { rows.new.rows ≡ core.new.taken }
    ensures most { core.new.taken ≤ last }
    ensures later { Later (parts rows.old core.old rx.old.items back.old)
        (parts rows.new core.new rx.new.items back.new) }
    ensures keeps { Keeps (parts rows.old core.old rx.old.items back.old) →
        Keeps (parts rows.new core.new rx.new.items back.new) }
    ensures gives { Keeps (parts rows.old core.old rx.old.items back.old) →
        Gives F.stands_for out.old out.new
        (parts rows.old core.old rx.old.items back.old)
        (parts rows.new core.new rx.new.items back.new) }
{
    for _ in 1..STEPS {
        if core.taken() == last {
            return;
        }
        if step(rows, core, rx, place, back, out) != SinkBurst::Moved {
            return;
        }
    }
}
