//! Which items of a leg have landed, which of them were refused, and the source that took them.

ghost use Rattle.std.specs.Prelude.{◌≡◌, ℕ, ◌+◌, ◌*◌, ◌<◌, ◌≤◌, List, map, fold, length, take, slice_get, Some};
ghost use Rattle.std.specs.Prelude.{option_map};
ghost use Rattle.law_model.specs.Common.{Leg, DueCommand, DueFrame, orders_of, offers_of, scenario_by};
ghost use Rattle.law_model.specs.Common.{steps_in, orders_at, frames_at, refusal, after, source_at, frame_refusal};
ghost use Rattle.law_model.specs.Common.{offered, stream_before, frame_of, dues_of, frame_dues, command_dues};
ghost use Rattle.law_model.specs.Common.{Counts};
ghost use Rattle.law_model.specs.declared.script_types.Item.{Item};
ghost use Rattle.law_model.specs.declared.item_refusals.Refusal.TheVariants.{Frame as frame_fault};
ghost use Rattle.law_model.specs.declared.item_refusals.Refusal.TheVariants.{Command as command_fault};
ghost use Rattle.law_walk.specs.Walk.{session_of, CanWalk, IsWalked};
ghost use Rattle.law_walk.specs.LandedOfLeg.{Numbered, landed_scenario, told_before, IsOfferAt, IsOrderAt, refusal_at};

/// What has landed. No item waits whose due tick is past, since a tick is held by one; so up to the ticks
/// made the session of the items that have landed is the leg's own. An item that lands is put in its place
/// among those that have, and so is its refusal.
pub fn landing_law()
    ensures frame_dues { (items : List Item) →
        frame_dues (dues_of items) ≡ map (λ (offer : DueFrame). offer.due) (offers_of items) }
    ensures command_dues { (items : List Item) →
        command_dues (dues_of items) ≡ map (λ (order : DueCommand). order.due) (orders_of items) }
    ensures frame_waits { (leg : Leg) (s : Counts) (offer : DueFrame) → IsWalked leg s →
        slice_get (offers_of leg.items) s.frames ≡ Some offer → s.ticks ≤ offer.due }
    ensures command_waits { (leg : Leg) (s : Counts) (order : DueCommand) → IsWalked leg s →
        slice_get (orders_of leg.items) s.commands ≡ Some order → s.ticks ≤ order.due }
    ensures frames { (leg : Leg) (s : Counts) (t : ℕ) → IsWalked leg s → t < s.ticks →
        frames_at (landed_scenario leg s) t ≡ frames_at (scenario_by leg) t }
    ensures orders { (leg : Leg) (s : Counts) (j : ℕ) → IsWalked leg s →
        16 * j + 8 < s.ticks →
        orders_at (landed_scenario leg s) j ≡ orders_at (scenario_by leg) j }
    ensures offer { (items : List Item) (a : ℕ) (item : Numbered) (offer : DueFrame) →
        IsOfferAt items a item offer → (slice_get (offers_of items) a ≡ Some offer)
        × (offers_of (take item.number items) ≡ take a (offers_of items)) }
    ensures order { (items : List Item) (b : ℕ) (item : Numbered) (order : DueCommand) →
        IsOrderAt items b item order → (slice_get (orders_of items) b ≡ Some order)
        × (orders_of (take item.number items) ≡ take b (orders_of items)) }
{}

/// What the source was told. After any list of events, the items that have landed and the return cells that
/// were taken lead to the tables, the stream and the containers of the session; and an item that lands meets
/// what it meets in the session.
pub fn source_law()
    ensures tables { (leg : Leg) (s : Counts) (j : ℕ) → CanWalk leg → IsWalked leg s →
        j ≤ steps_in s.ticks → after (landed_scenario leg s) (told_before leg s.ticks) j
        ≡ after (scenario_by leg) (session_of leg) j }
    ensures streams { (leg : Leg) (s : Counts) (t : ℕ) → CanWalk leg → IsWalked leg s →
        t ≤ s.ticks → stream_before (landed_scenario leg s) (told_before leg s.ticks) t
        ≡ stream_before (scenario_by leg) (session_of leg) t }
    ensures frames { (leg : Leg) (s : Counts) (t : ℕ) → CanWalk leg → IsWalked leg s →
        t < s.ticks → frame_of (landed_scenario leg s) (told_before leg s.ticks) t
        ≡ frame_of (scenario_by leg) (session_of leg) t }
    ensures frame { (leg : Leg) (s : Counts) (item : Numbered) (offer : DueFrame) →
        CanWalk leg → IsWalked leg s → IsOfferAt leg.items s.frames item offer →
        offer.due ≤ s.ticks → refusal_at leg item
        ≡ option_map frame_fault (frame_refusal offer.frame (fold offered
        (stream_before (landed_scenario leg s) (told_before leg s.ticks) s.ticks)
        (frames_at (landed_scenario leg s) s.ticks))) }
    ensures command { (leg : Leg) (s : Counts) (item : Numbered) (order : DueCommand) →
        CanWalk leg → IsWalked leg s → IsOrderAt leg.items s.commands item order →
        order.due ≤ s.ticks → refusal_at leg item ≡ option_map command_fault
        (refusal (length leg.config.windows) order.command
        (source_at (landed_scenario leg s) (told_before leg s.ticks) (steps_in s.ticks))) }
{}
