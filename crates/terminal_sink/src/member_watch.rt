//! What a sink keeps of a line from packet to packet: whether it is up by its timers, and what it said last.

ghost use Rattle.std.specs.Prelude.{◌≡◌, ℕ, ◌+◌, Bool, true, false, List, [], ◌∷◌, ◌++◌, Some, None, slice_index_or};
ghost use Rattle.law_model.specs.Common.{IsOptions, Row, is_member};
ghost use Rattle.terminal_sink.specs.member_watch.Watches.{TimersStand, WatchStands, says, sq_of, is_changed};

use law_model::{Options, Packet};
use member_cells::Ctrl;

/// The timers of a line after some of its packets, and whether it is up by them.
#[derive(Clone, Copy)]
pub struct MemberTimers {
    /// How many packets in turn were read last, up to one more than the wait to restore.
    reads: u16,
    /// How many in turn weren't, up to one more than the hold-off.
    misses: u16,
    is_up: bool,
}

impl MemberTimers {
    /// Those of a line of which no packet has come: it isn't up yet, and for the wait to restore, packets
    /// before packet 0 count as read.
    fn new(options: Options) -> MemberTimers
        requires { IsOptions options }
        ensures { (read : ℕ → Bool) → TimersStand options read 0 result }
    {
        MemberTimers {
            reads: options.restore + 1,
            misses: 0,
            is_up: false,
        }
    }

    /// After one more packet, which was read.
    fn read(self, options: Options) -> MemberTimers
        requires { IsOptions options }
        ensures { (read : ℕ → Bool) (passed : ℕ) → TimersStand options read passed self →
            read passed ≡ true → TimersStand options read (passed + 1) result }
    {
        let reads = self.reads.min(options.restore) + 1;
        MemberTimers {
            reads,
            misses: 0,
            is_up: self.is_up || reads > options.restore,
        }
    }

    /// After one more packet, which wasn't.
    fn missed(self, options: Options) -> MemberTimers
        requires { IsOptions options }
        ensures { (read : ℕ → Bool) (passed : ℕ) → TimersStand options read passed self →
            read passed ≡ false → TimersStand options read (passed + 1) result }
    {
        let misses = self.misses.min(options.holdoff) + 1;
        MemberTimers {
            reads: 0,
            misses,
            is_up: self.is_up && misses <= options.holdoff,
        }
    }
}

/// What a sink keeps of a line.
#[derive(Clone, Copy)]
pub struct MemberWatch {
    timers: MemberTimers,
    /// The sequence number that the line said last, where it said it as a member and no change was read since.
    said: Option<u8>,
}

impl MemberWatch {
    /// What it keeps of a line of which no packet has come.
    pub fn new(options: Options) -> MemberWatch
        requires { IsOptions options }
        ensures { (line : ℕ) → WatchStands options [] line result }
    {
        MemberWatch {
            timers: MemberTimers::new(options),
            said: None,
        }
    }

    /// After the next row, where `packet` is what was read of the line in it. `changed` says whether a change was
    /// read in this row, which ends what lines said before it.
    pub fn next(self, packet: &Option<Packet>, changed: bool, options: Options) -> MemberWatch
        requires { IsOptions options }
        ensures { (rows : List Row) (row : Row) (line : ℕ) → WatchStands options rows line self →
            packet.now ≡ slice_index_or row line None → changed ≡ is_changed rows row →
            WatchStands options (rows ++ row ∷ []) line result }
    {
        match packet {
            Some(packet) => MemberWatch {
                timers: self.timers.read(options),
                said: said_by(packet),
            },
            None => MemberWatch {
                timers: self.timers.missed(options),
                said: if changed { None } else { self.said },
            },
        }
    }

    /// The sequence number that the line said last, where it said it as a member and no change was read since.
    pub fn said(&self) -> Option<u8>
        ensures { result ≡ self.now.said }
    {
        self.said
    }

    /// Whether the line is up and said last that it is a member with this sequence number.
    pub fn says(&self, sq: u8) -> bool
        ensures { result ≡ says self.now sq }
    {
        self.timers.is_up && self.said == Some(sq)
    }
}

/// The sequence number that a packet says, where it is that of a member.
fn said_by(packet: &Packet) -> Option<u8>
    ensures { result ≡ sq_of (Some packet.now) }
{
    if is_member(packet.ctrl) {
        Some(packet.sq)
    } else {
        None
    }
}

/// Whether the control word is that of a member.
pub(crate) fn is_member(ctrl: Ctrl) -> bool
    ensures { result ≡ is_member ctrl }
{
    !matches!(ctrl, Ctrl::Idle)
}
