//! The items of a script in the order in which they land: frames by themselves, and commands by themselves.

ghost use Rattle.std.specs.Prelude.{◌≡◌, ℕ, ◌+◌, ◌≤◌, length, drop, slice_get};
ghost use Rattle.std.specs.List.Sorted.{IsNonDecreasing};
ghost use Rattle.law_model.specs.Common.{dues_of, frame_dues, command_dues, held};
ghost use Rattle.terminal_group.specs.ItemPlaces.{is_frame, is_command, place_of, due_by, least_held};

use crate::bare_list::BareList;

/// The number of the first frame from a number on, or how many items there are where there is none.
pub(crate) fn next_frame(items: &BareList, from: u32) -> u32
    requires { from ≤ length items.now }
    ensures { result ≡ from + place_of is_frame 0 (drop from items.now) }
{
    let count = items.len();
    for i in from..count {
        if items.is_frame(i) {
            return i;
        }
    }
    count
}

/// The number of the first command from a number on, or how many items there are where there is none.
pub(crate) fn next_command(items: &BareList, from: u32) -> u32
    requires { from ≤ length items.now }
    ensures { result ≡ from + place_of is_command 0 (drop from items.now) }
{
    let count = items.len();
    let mut i = from;
    while i < count {
        if items.is_command(i) {
            return i;
        }
        i = items.passed(i);
    }
    count
}

/// The least item that is due now and hasn't landed, where the next frame and the next command have these numbers.
pub(crate) fn held_item(items: &BareList, frame: u32, command: u32, ticks: u32) -> Option<u32>
    ensures { (a b : ℕ) → IsNonDecreasing (frame_dues (dues_of items.now)) →
        IsNonDecreasing (command_dues (dues_of items.now)) →
        frame ≡ place_of is_frame a items.now → command ≡ place_of is_command b items.now →
        result ≡ held ticks a b 0 (dues_of items.now) }
{
    let client = is_due(items, frame, ticks);
    let operator = is_due(items, command, ticks);
    least_of(frame, command, client, operator)
}

/// The least number of those whose item is due.
fn least_of(frame: u32, command: u32, client: bool, operator: bool) -> Option<u32>
    ensures { result ≡ least_held 0 frame command client operator }
{
    if client && (frame < command || !operator) {
        Some(frame)
    } else if operator {
        Some(command)
    } else {
        None
    }
}

/// Whether there is an item of a number that is due now.
fn is_due(items: &BareList, i: u32, ticks: u32) -> bool
    ensures { result ≡ due_by ticks (slice_get items.now i) }
{
    if i < items.len() {
        items.head(i).due <= ticks
    } else {
        false
    }
}
