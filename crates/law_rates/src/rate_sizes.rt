//! The sizes of frames, as a list that takes no memory of its own.
ghost use Rattle.std.specs.Prelude.{◌≡◌, ◌<◌, ◌≤◌, [], ◌∷◌, ◌++◌, length};
ghost use Rattle.law_rates.specs.Limits.{most_sizes};

use std::marker::Model;

/// The most sizes.
pub const MOST_SIZES: usize = 16;

/// Sizes of frames in octets, up to 16 of them.
#[derive(Clone, Copy, Debug, PartialEq, Eq)]
pub struct Sizes {
    /// The sizes, with zeros behind them.
    sizes: [u16; MOST_SIZES],
    count: u8,
}

impl Model for Sizes {
    ghost use Rattle.std.specs.Prelude.{◌≡◌, ◌≤◌, ℕ, List, length, take};
    ghost use Rattle.std.proofs.Common.{ap₂};
    ghost use Rattle.law_rates.specs.Limits.{most_sizes};
    ghost use Rattle.law_rates.specs.Padded.{padded};

    ghost Value = { List ℕ };

    ghost view = { λ list. take list.count list.sizes };

    ghost invariant = { λ list. (list.count ≤ most_sizes)
        × (length (take list.count list.sizes) ≡ list.count)
        × (padded (take list.count list.sizes) ≡ list.sizes) };

    ghost inverse = { λ sizes. record { sizes = padded sizes; count = length sizes } };

    ghost inverse_ok = { λ list within.
        ap₂ (λ sizes count. record { sizes = sizes; count = count }) within.2 within.1 };
}

impl Sizes {
    /// No size.
    pub fn new() -> Sizes
        ensures { result ≡ [] }
    {
        Sizes {
            sizes: [0; MOST_SIZES],
            count: 0,
        }
    }

    /// Adds a size behind the others.
    pub fn push(&mut self, size: u16)
        requires { length self.old < most_sizes }
        ensures { self.new ≡ self.old ++ size ∷ [] }
    {
        self.sizes[usize::from(self.count)] = size;
        self.count += 1;
    }

    /// How many there are.
    pub fn len(&self) -> usize
        ensures count { result ≡ length self.now }
        ensures few { result ≤ most_sizes }
    {
        usize::from(self.count)
    }

    /// The sizes.
    pub fn as_slice(&self) -> &[u16]
        ensures sizes { result.now ≡ self.now }
        ensures few { length result.now ≤ most_sizes }
    {
        &self.sizes[..usize::from(self.count)]
    }
}
