//! What a line adds to a draft.
ghost use Rattle.std.specs.Prelude.{◌≡◌, ◌+◌, ◌<◌, ◌≤◌, ◌∷◌, ◌++◌, [], length, OnOk, slice_index_or, slice_set};
ghost use Rattle.law_rates.specs.Rates.{IsRate, count_of};
ghost use Rattle.law_model.specs.Common.{most_items, longest_offer};
ghost use Rattle.law_model.specs.session.Items.{octets_in_kind};
ghost use Rattle.text_scripts.specs.script_read.Statements.{after, after_item, after_stream, at_first};
ghost use Rattle.text_scripts.specs.script_read.Drafts.{IsDraft, Fits};

use crate::script_read::script_draft::{Draft, Standing, Statement};
use crate::window_lists::no_windows;
use law_model::{
    Config, Delays, EventList, Item, ItemKind, ItemList, LostList, Options, Window, WindowLists,
};
use law_rates::Rate;
use std::alloc::{AllocError, Global};

/// Appends a window to those of a line.
fn add_window(lists: &mut WindowLists, m: u8, window: Window) -> Result<(), AllocError>
    requires { m < length lists.old }
    ensures { OnOk result
        (lists.new ≡ slice_set lists.old m (slice_index_or lists.old m [] ++ window ∷ [])) }
{
    let list = &mut lists.0[usize::from(m)];
    list.0.push(window)?;
    Ok(())
}

/// What no line says.
pub(super) fn no_lines(alloc: Global) -> Draft
    ensures { result ≡ at_first }
{
    Draft {
        next: 0,
        config: Config {
            lines: 0,
            delays: Delays(Vec::new(alloc)),
            windows: WindowLists(Vec::new(alloc)),
            lost: LostList(Vec::new(alloc)),
            ring: 0,
            lag: 0,
            ticks: 0,
            size: 2340,
            options: Options::default(),
        },
        items: ItemList::new(alloc),
        events: EventList(Vec::new(alloc)),
        frame_due: 0,
        command_due: 0,
        standing: Standing::none(),
    }
}

/// Adds an item.
fn add_item(draft: &mut Draft, item: Item) -> Result<(), AllocError>
    requires few { length draft.old.items < most_items }
    requires short { octets_in_kind item.kind ≤ longest_offer }
    ensures { OnOk result (draft.new ≡ after_item draft.old item item.kind) }
{
    match item.kind {
        ItemKind::Frame(_) => draft.frame_due = item.due,
        ItemKind::Add(_) | ItemKind::Remove(_) => draft.command_due = item.due,
    }
    draft.next = 8;
    draft.items.push(item)?;
    Ok(())
}

/// Adds the frames of a rate.
fn add_stream(draft: &mut Draft, rate: &Rate) -> Result<(), AllocError>
    requires sound { IsRate rate.now }
    requires few { length draft.old.items + count_of rate.now ≤ most_items }
    ensures { OnOk result (draft.new ≡ after_stream draft.old rate.now) }
{
    draft.items.push_stream(rate)?;
    draft.frame_due = draft.items.head(draft.items.len() - 1).due;
    draft.next = 8;
    Ok(())
}

/// Adds what the line of a number says.
pub(super) fn add(
    alloc: Global,
    draft: &mut Draft,
    number: u32,
    said: Statement,
) -> Result<(), AllocError>
    requires config { IsDraft draft.old }
    requires fits { Fits draft.old said }
    ensures { OnOk result (draft.new ≡ after number draft.old said) }
{
    match said {
        Statement::Nothing => {}
        Statement::Container(size) => {
            draft.config.size = size;
            draft.standing.container = number;
            draft.next = 1;
        }
        Statement::Lines(lines) => {
            draft.config.windows = no_windows(alloc, lines)?;
            draft.config.lines = lines;
            draft.standing.lines = number;
            draft.next = 2;
        }
        Statement::Delays(delays) => {
            draft.config.delays = delays;
            draft.standing.delays = number;
            draft.next = 3;
        }
        Statement::Ring(ring) => {
            draft.config.ring = ring;
            draft.standing.ring = number;
            draft.next = 4;
        }
        Statement::Lag(lag) => {
            draft.config.lag = lag;
            draft.standing.lag = number;
            draft.next = 5;
        }
        Statement::Ticks(ticks) => {
            draft.config.ticks = ticks;
            draft.standing.ticks = number;
            draft.next = 6;
        }
        Statement::Sink(infers) => {
            draft.config.options.infers = infers;
            draft.standing.sink = number;
        }
        Statement::Holdoff(holdoff) => {
            draft.config.options.holdoff = holdoff;
            draft.standing.holdoff = number;
        }
        Statement::Restore(restore) => {
            draft.config.options.restore = restore;
            draft.standing.restore = number;
        }
        Statement::Statuses(statuses) => {
            draft.config.options.statuses = statuses;
            draft.standing.statuses = number;
        }
        Statement::Fail(m, window) => {
            draft.next = 7;
            return add_window(&mut draft.config.windows, m, window);
        }
        Statement::Lost(first, end) => {
            draft.next = 7;
            draft.config.lost.0.push((first, end))?;
        }
        Statement::Item(item) => return add_item(draft, item),
        Statement::Stream(rate) => return add_stream(draft, &rate),
        Statement::Event(event) => {
            draft.next = 9;
            draft.events.0.push(event)?;
        }
    }
    Ok(())
}
