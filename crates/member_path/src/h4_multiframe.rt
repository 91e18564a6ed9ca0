//! The multiframe of virtual concatenation (G.707): the H4 octet of a frame, and the lock of a line on the
//! octets that come, which is this project's own. Begin with `h4` and `MfiLock`. Numbers are known modulo
//! 4,096 here; which frame of all a cell has is not said, nor what a packet says. `place_law`: a cell is at
//! most one of Locks, At and Unknown, whatever comes after it. The lock is this project's own: it takes two octets,
//! and one that doesn't fit loses it.

ghost use Rattle.std.specs.Prelude.{◌≡◌, ℕ, ◌+◌, ◌*◌, ◌%◌, ◌<◌, List, [], ◌∷◌, ◌++◌, length, Option, Some, None};
ghost use Rattle.member_path.specs.declared.h4_multiframe.Place.{Place as PlaceData};
ghost use Rattle.member_path.specs.h4_multiframe.MultiframePlace.{IsPlace};
ghost use Rattle.member_path.specs.h4_multiframe.LockState.{LockStands};

use check_nibbles::{join_nibbles, nibble_hi, nibble_lo};
use std::marker::Model;

/// The H4 octet of a frame: the nibble of its control packet in the upper half, and MFI1 in the lower half.
pub fn h4(t: u64, nibble: u8) -> u8
    requires { nibble < 16 }
    ensures { result ≡ 16 * nibble + t % 16 }
{
    join_nibbles(nibble, (t % 16) as u8)
}

/// What a good cell is to the lock of its line. Numbers of frames are given modulo 4,096.
#[derive(Clone, Copy, Debug, PartialEq, Eq)]
pub enum Place {
    /// The line is not locked after this cell.
    Unknown,
    /// The cell locks the line, and its frame has this number.
    Locks(u16),
    /// The line was locked before this cell and stays so, and its frame has this number.
    At(u16),
}

/// A cell is at most one of these, with one number; and more cells after it change nothing of what it is.
pub fn place_law()
    ensures only { (cells : List (Option ℕ)) (place : ℕ) (a b : PlaceData) →
        IsPlace cells place a → IsPlace cells place b → a ≡ b }
    ensures stays { (cells more : List (Option ℕ)) (place : ℕ) (a : PlaceData) →
        place < length cells → IsPlace cells place a → IsPlace (cells ++ more) place a }
{}

/// What the lock knows after the last cell.
#[derive(Clone, Copy)]
enum State {
    /// The line is not locked, and the next cell can't lock it.
    Unlocked,
    /// The line is not locked, and the last cell was a good one with MFI1 0 and this H4 octet.
    Begun { octet: u8 },
    /// The line is locked, and the last cell had this number.
    Locked { number: u16 },
}

/// The lock of a line on the multiframe.
#[derive(Clone, Copy)]
pub struct MfiLock {
    state: State,
}

impl Model for MfiLock {
    ghost use Rattle.member_path.specs.declared.h4_multiframe.State.{State};

    ghost Value = { State };

    ghost view = { λ lock. lock.state };

    ghost inverse = { λ state. record { state = state } };
}

impl Default for MfiLock {
    ghost is_default = { λ lock. LockStands lock [] };

    fn default() -> MfiLock {
        MfiLock::new()
    }
}

impl MfiLock {
    /// The lock of a line of which no cell has come.
    pub fn new() -> MfiLock
        ensures { LockStands result [] }
    {
        MfiLock {
            state: State::Unlocked,
        }
    }

    /// Takes a cell that is not good.
    pub fn fail(&mut self)
        ensures { (cells : List (Option ℕ)) → LockStands self.old cells →
            LockStands self.new (cells ++ None ∷ []) }
    {
        self.state = State::Unlocked;
    }

    /// Takes the H4 octet of a good cell.
    pub fn good(&mut self, h4: u8) -> Place
        ensures stands { (cells : List (Option ℕ)) → LockStands self.old cells →
            LockStands self.new (cells ++ Some h4 ∷ []) }
        ensures place { (cells : List (Option ℕ)) → LockStands self.old cells →
            IsPlace (cells ++ Some h4 ∷ []) (length cells) result }
    {
        let place = place_of(self.state, h4);
        self.state = state_after(place, h4);
        place
    }
}

/// What a good cell with this H4 octet is, after this state.
fn place_of(state: State, h4: u8) -> Place
    ensures { (cells : List (Option ℕ)) → LockStands state cells →
        IsPlace (cells ++ Some h4 ∷ []) (length cells) result }
{
    let mfi1 = nibble_lo(h4);
    match state {
        State::Unlocked => Place::Unknown,
        State::Begun { octet } => {
            if mfi1 == 1 {
                let mfi2 = join_nibbles(nibble_hi(octet), nibble_hi(h4));
                Place::Locks(16 * u16::from(mfi2) + 1)
            } else {
                Place::Unknown
            }
        }
        State::Locked { number } => {
            let next = number.wrapping_add(1) % 4096;
            if u16::from(mfi1) == next % 16 {
                Place::At(next)
            } else {
                Place::Unknown
            }
        }
    }
}

/// The state after a good cell with this H4 octet, from what the cell is.
fn state_after(place: Place, h4: u8) -> State
    ensures { (cells : List (Option ℕ)) → IsPlace (cells ++ Some h4 ∷ []) (length cells) place →
        LockStands result (cells ++ Some h4 ∷ []) }
{
    match place {
        Place::Locks(number) | Place::At(number) => State::Locked { number },
        Place::Unknown => {
            if nibble_lo(h4) == 0 {
                State::Begun { octet: h4 }
            } else {
                State::Unlocked
            }
        }
    }
}
