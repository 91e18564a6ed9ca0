//! A rate, how many frames it has, and the octets of one.
ghost use Rattle.std.specs.Prelude.{◌≡◌, ◌≤◌, ◌-◌, length};
ghost use Rattle.law_rates.specs.Draws.{after_draws};
ghost use Rattle.law_rates.specs.Limits.{most_sizes};
ghost use Rattle.law_rates.specs.Rates.{IsRate, count_of, frame_of, octets_before, begun_within};

use crate::number_draws::Draws;
use crate::rate_sizes::Sizes;
use check_crc32::ethernet_fcs;

/// The octets of the longest frame of a rate.
pub const LONGEST_FRAME: usize = 9_600;

/// What a client sends: frames of some sizes in turn, so many megabits a second, from one tick on and before another,
/// drawn from a number.
#[derive(Clone, Copy, Debug, PartialEq, Eq)]
pub struct Rate {
    /// The octets of frames with their check, in turn: 1 to 16 sizes of 64 to 9,600.
    pub sizes: Sizes,
    /// Megabits a second: 1 to 400,000.
    pub mbits: u32,
    /// The tick at which the first frame is due.
    pub first: u32,
    /// The tick before which the last one is: above `first`, at most 100,000,000.
    pub end: u32,
    /// The number from which octets are drawn.
    pub number: u64,
}

/// The octets that each frame begins with: two addresses and a type.
const HEAD: [u8; 14] = [
    0x02, 0x00, 0x00, 0x00, 0x00, 0x02, 0x02, 0x00, 0x00, 0x00, 0x00, 0x01, 0x88, 0xb5,
];

/// The octets of frames of each of these sizes.
pub(crate) fn turn_octets(sizes: &[u16]) -> u64
    requires { length sizes.now ≤ most_sizes }
    ensures { result ≡ octets_before sizes.now (length sizes.now) }
{
    let mut octets = 0;
    for size in sizes {
        octets += u64::from(*size);
    }
    octets
}

/// How many frames of a turn begin after no more octets of it than these.
fn begun_within(sizes: &[u16], octets: u64) -> u64
    requires { length sizes.now ≤ most_sizes }
    ensures { result ≡ begun_within sizes.now octets (length sizes.now) }
{
    let mut before = 0;
    let mut begun = 0;
    for size in sizes {
        if before <= octets {
            begun += 1;
        }
        before += u64::from(*size);
    }
    begun
}

/// How many frames are due before the end.
pub fn count(rate: &Rate) -> u64
    requires { IsRate rate.now }
    ensures { result ≡ count_of rate.now }
{
    let bits = u64::from(rate.end - rate.first) * (125 * u64::from(rate.mbits));
    let octets = (bits - 1) / 8;
    let sizes = rate.sizes.as_slice();
    let turn = turn_octets(sizes);
    sizes.len() as u64 * (octets / turn) + begun_within(sizes, octets % turn)
}

/// Draws the octets of the next frame, and puts their check behind them.
pub(crate) fn fill_frame(draws: &mut Draws, frame: &mut [u8])
    requires { 64 ≤ length frame.old }
    ensures frame { frame.new ≡ frame_of (length frame.old) draws.old.state }
    ensures state { draws.new.state ≡ after_draws (length frame.old - 18) draws.old.state }
{
    let (content, check) = frame.split_at_mut(frame.len() - 4);
    let (head, drawn) = content.split_at_mut(14);
    head.copy_from_slice(&HEAD);
    draws.fill(drawn);
    check.copy_from_slice(&ethernet_fcs(content));
}
