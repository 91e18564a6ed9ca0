//! The frames of a client that sends at a rate, of some sizes in turn, with octets drawn from a number: which there
//! are, when each is due, and its octets. A frame is found by its number without those before it (`RatePlace::at`,
//! `RateCursor::at`), and a cursor draws one after another; neither takes memory. What reads such a client and what
//! sends its frames isn't here. Begin with `Rate`; its frames are the definition `frames` in `specs/Rates.antt`.
#![tactic(auto)]

ghost use Rattle.std.specs.Prelude.{◌≡◌, ◌↔◌, ◌<◌, ◌≤◌, ◌+◌, ◌*◌, ℕ, List, [], ◌∷◌, All, map, length, take};
ghost use Rattle.std.specs.List.{range_with_len};
ghost use Rattle.std.specs.List.Sorted.{IsNonDecreasingBy};
ghost use Rattle.law_rates.specs.Draws.{draws};
ghost use Rattle.law_rates.specs.Rates.{IsRate, due_of, size_at, state_of, octets_before, count_of, frame_at};
ghost use Rattle.law_rates.specs.Rates.{first_frames, frames};
ghost use Rattle.law_rates.specs.Worked.{mix};
ghost use Rattle.law_rates.specs.declared.rate_frames.Rate.{Rate};

mod number_draws;
mod rate_cursor;
mod rate_frames;
mod rate_sizes;

pub use number_draws::Draws;
pub use rate_cursor::{RateCursor, RatePlace};
pub use rate_frames::{LONGEST_FRAME, Rate, count};
pub use rate_sizes::{MOST_SIZES, Sizes};

/// The frames that are counted are exactly those that are due before the end. There is one at least; the first is
/// due at the first tick, and none before the one ahead of it.
pub fn count_law()
    ensures before { (rate : Rate) (k : ℕ) → IsRate rate →
        (k < count_of rate) ↔ (due_of rate k < rate.end) }
    ensures some { (rate : Rate) → IsRate rate → 1 ≤ count_of rate }
    ensures length { (rate : Rate) → length (frames rate) ≡ count_of rate }
    ensures first { (rate : Rate) → due_of rate 0 ≡ rate.first }
    ensures rising { (rate : Rate) → IsRate rate →
        IsNonDecreasingBy (λ frame. frame.due) (frames rate) }
    ensures last { (rate : Rate) → IsRate rate → All (λ frame. frame.due < rate.end) (frames rate) }
{}

/// The first frames of a rate are the first of all that it has, and the octets before a frame, that many whole turns
/// later, are as many more as the turns have.
pub fn prefix_law()
    ensures first { (rate : Rate) (k : ℕ) → k ≤ count_of rate →
        first_frames rate k ≡ take k (frames rate) }
    ensures turns { (rate : Rate) (turns k : ℕ) →
        octets_before rate.sizes (turns * length rate.sizes + k)
        ≡ turns * octets_before rate.sizes (length rate.sizes) + octets_before rate.sizes k }
{}

/// Worked: frames of 64, 1,518 and 128 octets in turn at 30 Mbit/s, from tick 100 on and before tick 112, drawn
/// from 5.
pub fn worked_law()
    ensures count { count_of mix ≡ 11 }
    ensures sizes { map (size_at mix.sizes) (range_with_len 0 4) ≡ 64 ∷ 1518 ∷ 128 ∷ 64 ∷ [] }
    ensures dues { map (due_of mix) (range_with_len 0 12)
        ≡ 100 ∷ 100 ∷ 103 ∷ 103 ∷ 103 ∷ 107 ∷ 107 ∷ 107 ∷ 110 ∷ 110 ∷ 111 ∷ 114 ∷ [] }
    ensures first { draws 4 256 (state_of mix 0) ≡ 0x30 ∷ 0x9d ∷ 0xba ∷ 0xad ∷ [] }
    ensures second { draws 4 256 (state_of mix 1) ≡ 0xe6 ∷ 0x6c ∷ 0x9c ∷ 0x12 ∷ [] }
    ensures fourth { draws 4 256 (state_of mix 3) ≡ 0xc5 ∷ 0x98 ∷ 0x05 ∷ 0x06 ∷ [] }
{}
