//! How many items have landed, where nobody keeps which.

ghost use Rattle.std.specs.Prelude.{◌≡◌, ◌+◌, ◌-◌, min};
ghost use Rattle.terminal_group.specs.SourceByCounts.{and_one, with_landed, landed_in, refused_in};

/// How many frames and commands have landed, and how many of each were refused. A count that has reached the
/// greatest number of its type stays there.
#[derive(Clone, Copy, Debug, PartialEq, Eq)]
pub struct LandedCounts {
    /// How many frames have landed, refused ones among them.
    pub frames: u32,
    /// How many commands have landed, refused ones among them.
    pub commands: u32,
    /// How many of the frames were refused.
    pub refused_frames: u32,
    /// How many of the commands were refused.
    pub refused_commands: u32,
}

impl LandedCounts {
    /// Nothing has landed.
    pub fn none() -> LandedCounts
        ensures { result ≡ record {
          frames = 0;
          commands = 0;
          refused_frames = 0;
          refused_commands = 0;
        } }
    {
        LandedCounts {
            frames: 0,
            commands: 0,
            refused_frames: 0,
            refused_commands: 0,
        }
    }

    /// The counts after one more, a frame or a command, refused or not.
    pub(crate) fn and_one(self, client: bool, refused: bool) -> LandedCounts
        ensures { result ≡ with_landed self client refused }
    {
        LandedCounts {
            frames: one_more(self.frames, client),
            commands: one_more(self.commands, !client),
            refused_frames: one_more(self.refused_frames, refused && client),
            refused_commands: one_more(self.refused_commands, refused && !client),
        }
    }

    /// How many frames, or how many commands, weren't refused.
    pub fn accepted(self, client: bool) -> u32
        ensures { result ≡ landed_in self client - refused_in self client }
    {
        if client {
            self.frames.saturating_sub(self.refused_frames)
        } else {
            self.commands.saturating_sub(self.refused_commands)
        }
    }

    /// How many items were refused.
    pub fn all_refused(self) -> u32
        ensures { result ≡ min (self.refused_frames + self.refused_commands) 4294967295 }
    {
        self.refused_frames.saturating_add(self.refused_commands)
    }
}

/// A count, and one more where there is one more.
fn one_more(count: u32, more: bool) -> u32
    ensures { result ≡ and_one count more }
{
    if more { count.saturating_add(1) } else { count }
}
