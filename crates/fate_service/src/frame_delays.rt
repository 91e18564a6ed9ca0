//! The delays of the frames that were got, and the greatest delay of a line.

ghost use Rattle.std.specs.Prelude.{◌≡◌, ◌<◌, ◌&&◌, nat_le, length};
ghost use Rattle.law_model.specs.Common.{greatest};
ghost use Rattle.fate_service.specs.Stretches.{delay_of};
ghost use Rattle.fate_service.specs.Delays.{count_within, least_delay, delays_of};

use crate::landed_frames::CarriedFrame;
use crate::stretch_counts::{count_ended, delay_of};
use law_model::Delays as LineDelays;

/// Delays in ticks, 0 where no frame was got.
#[derive(Clone, Copy)]
pub struct Delays {
    /// The least.
    pub least: u32,
    /// The least that half of the frames don't exceed.
    pub half: u32,
    /// The least that 99 of 100 don't exceed.
    pub most: u32,
    /// The greatest.
    pub greatest: u32,
}

/// Whether a frame was got with a delay of at most so many ticks.
fn is_within(frame: &CarriedFrame, most: u32) -> bool
    ensures { result ≡ (frame.now.got && nat_le (delay_of frame.now) most) }
{
    frame.got && delay_of(frame) <= most
}

/// How many frames were got with a delay of at most so many ticks.
fn count_within(carried: &[CarriedFrame], most: u32) -> u32
    requires { length carried.now < 4294967296 }
    ensures { result ≡ count_within carried.now most }
{
    let mut count = 0;
    for frame in carried {
        if is_within(frame, most) {
            count += 1;
        }
    }
    count
}

/// The least delay that so many frames don't exceed, of those up to another.
fn least_delay(carried: &[CarriedFrame], frames: u64, greatest: u32) -> u32
    requires { length carried.now < 4294967296 }
    ensures { result ≡ least_delay carried.now frames greatest }
{
    let mut low = 0;
    let mut high = greatest;
    while low < high {
        let middle = low + (high - low) / 2;
        if u64::from(count_within(carried, middle)) >= frames {
            high = middle;
        } else {
            low = middle + 1;
        }
    }
    low
}

/// The delays of the frames that were got.
pub(crate) fn find_delays(carried: &[CarriedFrame]) -> Delays
    requires { length carried.now < 4294967296 }
    ensures { result ≡ delays_of carried.now }
{
    let all = count_ended(carried);
    let got = u64::from(all.got.frames);
    Delays {
        least: least_delay(carried, got.min(1), all.delay),
        half: least_delay(carried, (got + 1) / 2, all.delay),
        most: least_delay(carried, (99 * got + 99) / 100, all.delay),
        greatest: all.delay,
    }
}

/// The greatest delay of a line, in ticks.
pub(crate) fn greatest_delay(delays: &LineDelays) -> u16
    ensures { result ≡ greatest delays.now }
{
    let mut most = 0;
    for delay in &delays.0 {
        most = most.max(*delay);
    }
    most
}
