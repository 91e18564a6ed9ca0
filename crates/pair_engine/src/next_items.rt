//! The next item of a way: by due tick, and of equal ones in item order.

ghost use Rattle.std.specs.Prelude.{◌≡◌, ◌==◌, ◌&&◌, ◌||◌, nat_lt, if◌then◌else◌, Some, None, IfSome};
ghost use Rattle.law_model.specs.Common.{dues_of};
ghost use Rattle.law_pair.specs.Common.{left_after, first_due};
ghost use Rattle.terminal_group.specs.Landed.{next_number, due_at};
ghost use Rattle.walk_engine.specs.Common.{answer_by};
ghost use Rattle.pair_engine.specs.WayCalls.{due_of_next, found_by, next_in, AreInOrder};

use law_model::Refusal;
use terminal_group::Landing;
use walk_engine::walk_core::Moved;

/// An item that lands next.
#[derive(Clone, Copy)]
pub(crate) struct NextItem {
    /// Whether it is a frame of the client.
    pub(crate) client: bool,
    /// Its number.
    pub(crate) number: u32,
    /// After how many ticks it lands.
    pub(crate) due: u32,
}

/// The item that lands next: of the next frame and the next command the one that is due first, and of equal ones the
/// one that stands first.
pub(crate) fn next_item(landing: &Landing) -> Option<NextItem>
    ensures first { AreInOrder landing.now.items → due_of_next result ≡ first_due
        (left_after landing.now.frames landing.now.commands (dues_of landing.now.items)) }
    ensures number { IfSome result (λ next.
        next_number landing.now next.client ≡ Some next.number) }
    ensures due { IfSome result (λ next. next.due ≡ due_at landing.now.items next.number) }
{
    match (next_of(landing, true), next_of(landing, false)) {
        (Some(frame), Some(command)) => Some(sooner(frame, command)),
        (Some(frame), None) => Some(frame),
        (None, command) => command,
    }
}

/// The next frame, or the next command.
fn next_of(landing: &Landing, client: bool) -> Option<NextItem>
    ensures found { found_by result ≡ next_in landing.now client }
    ensures client { IfSome result (λ next. next.client ≡ client) }
    ensures number { IfSome result (λ next. next_number landing.now client ≡ Some next.number) }
    ensures due { IfSome result (λ next. next.due ≡ due_at landing.now.items next.number) }
{
    match landing.next(client) {
        Some(number) => Some(NextItem {
            client,
            number,
            due: landing.due(client, number),
        }),
        None => None,
    }
}

/// Of two items the one that is due first, and of equal ones the one that stands first.
fn sooner(a: NextItem, b: NextItem) -> NextItem
    ensures { result ≡ (if nat_lt b.due a.due || (b.due == a.due && nat_lt b.number a.number)
        then b else a) }
{
    if b.due < a.due || (b.due == a.due && b.number < a.number) {
        b
    } else {
        a
    }
}

/// What an item answers that lands, and is refused or not.
pub(crate) fn landed(why: Option<Refusal>) -> Moved
    ensures { result ≡ answer_by None why }
{
    match why {
        None => Moved::Yes,
        Some(why) => Moved::Refused(why),
    }
}
