//! A list of lines that takes no memory of its own.

ghost use Rattle.std.specs.Prelude.{◌≡◌, ◌<◌, ◌≤◌, [], ◌∷◌, ◌++◌, length};
ghost use Rattle.law_model.specs.Common.{most_lines};

use law_model::MOST_LINES;
use std::marker::Model;

/// Lines, up to 128.
#[derive(Clone, Copy)]
pub struct LineList {
    /// The lines, with zeros behind them.
    lines: [u8; MOST_LINES],
    count: u8,
}

impl Model for LineList {
    ghost use Rattle.std.specs.Prelude.{◌≡◌, ◌≤◌, ℕ, List, length, take};
    ghost use Rattle.std.proofs.Common.{ap₂};
    ghost use Rattle.terminal_sink.specs.line_list.Padded.{padded};
    ghost use Rattle.law_model.specs.Common.{most_lines};

    ghost Value = { List ℕ };

    ghost view = { λ list. take list.count list.lines };

    ghost invariant = { λ list. (list.count ≤ most_lines)
        × (length (take list.count list.lines) ≡ list.count)
        × (padded (take list.count list.lines) ≡ list.lines) };

    ghost inverse = { λ lines. record { lines = padded lines; count = length lines } };

    ghost inverse_ok = { λ list within.
        ap₂ (λ lines count. record { lines = lines; count = count }) within.2 within.1 };
}

impl LineList {
    /// No line.
    pub fn new() -> LineList
        ensures { result ≡ [] }
    {
        LineList {
            lines: [0; MOST_LINES],
            count: 0,
        }
    }

    /// Adds a line behind the others.
    pub fn push(&mut self, line: u8)
        requires { length self.old < most_lines }
        ensures { self.new ≡ self.old ++ line ∷ [] }
    {
        self.lines[usize::from(self.count)] = line;
        self.count += 1;
    }

    /// How many there are.
    pub fn len(&self) -> usize
        ensures { result ≡ length self.now }
    {
        usize::from(self.count)
    }

    /// The lines.
    pub fn as_slice(&self) -> &[u8]
        ensures lines { result.now ≡ self.now }
        ensures few { length result.now ≤ most_lines }
    {
        &self.lines[..usize::from(self.count)]
    }
}
