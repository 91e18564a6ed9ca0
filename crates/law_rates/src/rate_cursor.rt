//! The frames of a rate one after another: where one is in them, and a cursor that draws their octets.
ghost use Rattle.std.specs.Prelude.{◌≡◌, ◌<◌, ◌≤◌, ◌+◌, suc, [], ◌∷◌, length, take, IfSome, IfNone};
ghost use Rattle.law_rates.specs.Limits.{longest_frame};
ghost use Rattle.law_rates.specs.Rates.{IsRate, count_of, due_of, size_at, frames};
ghost use Rattle.law_rates.specs.Places.{IsPlace, frames_from};

use crate::number_draws::Draws;
use crate::rate_frames::{Rate, fill_frame, turn_octets};
use std::marker::Model;

/// A place in the frames of a rate: before one of them, or behind the last.
#[derive(Clone, Copy, Debug, PartialEq, Eq)]
pub struct RatePlace {
    /// The frames before it.
    pub number: u64,
    /// Which size is next, from 0.
    pub turn: u8,
    /// The octets of the frames before it.
    pub octets: u64,
}

impl RatePlace {
    /// The place before the first frame.
    pub fn first(rate: &Rate) -> RatePlace
        requires { IsRate rate.now }
        ensures place { IsPlace rate.now result }
        ensures number { result.number ≡ 0 }
    {
        let _ = rate;
        RatePlace {
            number: 0,
            turn: 0,
            octets: 0,
        }
    }

    /// The place before the frame of a number, or behind the last.
    pub fn at(rate: &Rate, number: u64) -> RatePlace
        requires rate { IsRate rate.now }
        requires within { number ≤ count_of rate.now }
        ensures place { IsPlace rate.now result }
        ensures number { result.number ≡ number }
    {
        let sizes = rate.sizes.as_slice();
        let turns = number / sizes.len() as u64;
        let turn = number % sizes.len() as u64;
        RatePlace {
            number,
            turn: turn as u8,
            octets: turns * turn_octets(sizes) + turn_octets(&sizes[..turn as usize]),
        }
    }

    /// The tick at which the next frame is due, where there is one.
    pub fn tick(&self, rate: &Rate) -> u32
        requires rate { IsRate rate.now }
        requires place { IsPlace rate.now self.now }
        requires more { self.now.number < count_of rate.now }
        ensures { result ≡ due_of rate.now self.now.number }
    {
        self.wide_tick(rate) as u32
    }

    /// The same of any place: behind the last frame it isn't below the end.
    fn wide_tick(&self, rate: &Rate) -> u64
        requires rate { IsRate rate.now }
        requires place { IsPlace rate.now self.now }
        ensures { result ≡ due_of rate.now self.now.number }
    {
        u64::from(rate.first) + 8 * self.octets / (125 * u64::from(rate.mbits))
    }

    /// The tick at which the next frame is due, or `None` behind the last.
    pub fn due(&self, rate: &Rate) -> Option<u32>
        requires rate { IsRate rate.now }
        requires place { IsPlace rate.now self.now }
        ensures due { IfSome result (λ due. due ≡ due_of rate.now self.now.number) }
        ensures more { IfSome result (λ _. self.now.number < count_of rate.now) }
        ensures none { IfNone result (self.now.number ≡ count_of rate.now) }
    {
        let due = self.wide_tick(rate);
        if due < u64::from(rate.end) {
            Some(due as u32)
        } else {
            None
        }
    }

    /// The octets of the next frame.
    pub fn size(&self, rate: &Rate) -> u16
        requires rate { IsRate rate.now }
        requires place { IsPlace rate.now self.now }
        ensures size { result ≡ size_at rate.now.sizes self.now.number }
        ensures least { 64 ≤ result }
        ensures most { result ≤ longest_frame }
    {
        rate.sizes.as_slice()[usize::from(self.turn)]
    }

    /// The place behind the next frame.
    pub fn after(&self, rate: &Rate) -> RatePlace
        requires rate { IsRate rate.now }
        requires place { IsPlace rate.now self.now }
        requires more { self.now.number < count_of rate.now }
        ensures place { IsPlace rate.now result }
        ensures number { result.number ≡ suc self.now.number }
    {
        let last = usize::from(self.turn) + 1 == rate.sizes.len();
        RatePlace {
            number: self.number + 1,
            turn: if last { 0 } else { self.turn + 1 },
            octets: self.octets + u64::from(self.size(rate)),
        }
    }
}

/// Draws the frames of a rate one after another. A contract sees those that are left.
#[derive(Drop)]
pub struct RateCursor {
    rate: Rate,
    place: RatePlace,
    draws: Draws,
}

impl Model for RateCursor {
    ghost use Rattle.std.specs.Prelude.{List};
    ghost use Rattle.law_rates.specs.Rates.{RateFrame};
    ghost use Rattle.law_rates.specs.Places.{IsCursor, frames_from};

    ghost Value = { List RateFrame };

    ghost view = { λ cursor. frames_from cursor.rate cursor.place.number };

    ghost invariant = { λ cursor. IsCursor cursor.rate cursor.place cursor.draws };
}

impl RateCursor {
    /// All frames of a rate.
    pub fn new(rate: &Rate) -> RateCursor
        requires { IsRate rate.now }
        ensures { result ≡ frames rate.now }
    {
        RateCursor {
            rate: *rate,
            place: RatePlace::first(rate),
            draws: Draws::new(rate.number),
        }
    }

    /// The frames of a rate from a number on.
    pub fn at(rate: &Rate, number: u64) -> RateCursor
        requires rate { IsRate rate.now }
        requires within { number ≤ count_of rate.now }
        ensures { result ≡ frames_from rate.now number }
    {
        let place = RatePlace::at(rate, number);
        let mut draws = Draws::new(rate.number);
        draws.skip(place.octets - 18 * number);
        RateCursor {
            rate: *rate,
            place,
            draws,
        }
    }

    /// Draws the next frame into the front of the room, and says when it is due and how many octets it has.
    pub fn next(&mut self, room: &mut [u8]) -> Option<(u32, usize)>
        requires { longest_frame ≤ length room.old }
        ensures frame { IfSome result (λ frame.
            self.old ≡ record { due = frame.0; octets = take frame.1 room.new } ∷ self.new) }
        ensures within { IfSome result (λ frame. frame.1 ≤ longest_frame) }
        ensures end { IfNone result (self.old ≡ []) }
        ensures ended { IfNone result (self.new ≡ []) }
    {
        let Some(due) = self.place.due(&self.rate) else {
            return None;
        };
        let size = usize::from(self.place.size(&self.rate));
        let (frame, _) = room.split_at_mut(size);
        fill_frame(&mut self.draws, frame);
        self.place = self.place.after(&self.rate);
        Some((due, size))
    }
}
