//! How many frames were got, are lost and wait.
ghost use Rattle.std.specs.Prelude.{◌≡◌, ◌+◌, ◌<◌};
ghost use Rattle.fate_engine.specs.fate_core.Totals.{counted};

use crate::fate_law::Fate;

/// How many frames there are of each end.
#[derive(Clone, Copy, Debug, Default, PartialEq, Eq)]
pub struct FateTotals {
    /// Those that came out.
    pub got: u32,
    /// Those that the rows carry, and that didn't.
    pub lost: u32,
    /// Those that the rows don't carry to their end.
    pub waits: u32,
}

impl FateTotals {
    /// Counts one more frame.
    pub fn add(&mut self, fate: Fate)
        requires { self.old.got + self.old.lost + self.old.waits < 4294967295 }
        ensures { self.new ≡ counted self.old fate }
    {
        match fate {
            Fate::Waits => self.waits += 1,
            Fate::Got { .. } => self.got += 1,
            Fate::Cut { .. }
            | Fate::Unconfirmed { .. }
            | Fate::Hunting { .. }
            | Fate::Unsettled { .. } => self.lost += 1,
        }
    }
}
