//! Draws: numbers from a state of 64 bits.
ghost use Rattle.std.specs.Prelude.{◌≡◌, ◌<◌, length};
ghost use Rattle.law_rates.specs.Draws.{next, drawn, draws, after_draws};

/// The state after a draw is a multiple of the one before, and a constant more.
const SCALE: u64 = 6_364_136_223_846_793_005;

const OFFSET: u64 = 1_442_695_040_888_963_407;

/// A state from which numbers are drawn.
#[derive(Clone, Copy, Debug)]
pub struct Draws {
    /// The state after the last draw.
    pub state: u64,
}

impl Draws {
    /// The draws that a number begins.
    pub fn new(number: u64) -> Draws
        ensures { result.state ≡ number }
    {
        Draws { state: number }
    }

    /// The state after so many draws, of which none is made: a draw takes a state to a multiple of it and a constant
    /// more, and so do two, four and so on.
    pub fn skip(&mut self, count: u64)
        ensures { self.new.state ≡ after_draws count self.old.state }
    {
        let mut left = count;
        let mut scale = SCALE;
        let mut offset = OFFSET;
        while left > 0 {
            if left % 2 == 1 {
                self.state = self.state.wrapping_mul(scale).wrapping_add(offset);
            }
            offset = scale.wrapping_mul(offset).wrapping_add(offset);
            scale = scale.wrapping_mul(scale);
            left /= 2;
        }
    }

    /// The next number below a bound.
    pub fn below(&mut self, bound: u64) -> u64
        requires { 0 < bound }
        ensures state { self.new.state ≡ next self.old.state }
        ensures drawn { result ≡ drawn (next self.old.state) bound }
        ensures within { result < bound }
    {
        self.state = self.state.wrapping_mul(SCALE).wrapping_add(OFFSET);
        self.state / (1 << 33) % bound
    }

    /// Draws each of some octets.
    pub fn fill(&mut self, octets: &mut [u8])
        ensures octets { octets.new ≡ draws (length octets.old) 256 self.old.state }
        ensures state { self.new.state ≡ after_draws (length octets.old) self.old.state }
    {
        for i in 0..octets.len() {
            octets[i] = self.below(256) as u8;
        }
    }
}
