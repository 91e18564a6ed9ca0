//! The source of frames.

ghost use Rattle.std.specs.Prelude.{◌≡◌, ℕ, ◌+◌, ◌-◌, ◌*◌, ◌<◌, ◌≤◌, List, [], ◌∷◌, ◌++◌, length, take, drop};
ghost use Rattle.std.specs.Prelude.{replicate, OnOk, OnErr, IfNone};
ghost use Rattle.std.specs.Result.{result_err};
ghost use Rattle.law_model.specs.Common.{Start};
ghost use Rattle.member_au4.specs.au4_pointer.PointerWord.{word_of, next_value, next_wait, move_wait};
ghost use Rattle.member_au4.specs.au4_pointer.PointerWord.{too_soon, fault_after};
ghost use Rattle.member_au4.specs.au4_pointer.Source.{PointerSourceStands, Asks, Refills, Writes, Sends, IsValid};

use crate::au4_pointer::copy_and_zero::{copy_some, zero_some};
use crate::au4_pointer::{Action, AuFrame, VC};
use std::marker::Model;

/// The VC-4s that are to be sent.
pub trait VcFeed {
    /// It stands for the VC-4s that were asked of it, after what had been asked before.
    ghost stands_for: { Self → Start → List (List ℕ) → Type 0 };

    /// Writes the next VC-4.
    fn next(&mut self, out: &mut [u8; 2349])
        ensures { (start : Start) (vcs : List (List ℕ)) → stands_for self.old start vcs →
            stands_for self.new start (vcs ++ out.new ∷ []) };
}

/// Why an action is refused.
#[derive(Clone, Copy, Debug, PartialEq, Eq)]
pub enum PointerFault {
    /// The new value is above 782.
    Range { p: u16 },
    /// One of the three frames before wasn't Keep, or, of an Up or a Down, none was sent; `left` is the number of
    /// frames still to wait.
    TooSoon { left: u8 },
}

/// Sends VC-4s in frames.
#[derive(Drop)]
pub struct PointerSource {
    /// The value of the next frame.
    value: u16,
    /// The frames to wait.
    wait: u8,
    /// Whether a frame was sent.
    sent: bool,
    /// The zeros that are still to come before the first VC-4 of the part.
    lead: usize,
    /// The VC-4 in progress, and how many of its octets were sent.
    vc: [u8; VC],
    at: usize,
}

impl Model for PointerSource {
    ghost use Rattle.std.specs.Prelude.{◌≤◌, ◌++◌, drop, replicate};
    ghost use Rattle.member_au4.specs.au4_pointer.Source.{Source};

    ghost Value = { Source };

    ghost view = { λ s. record {
      value = s.value;
      wait = s.wait;
      sent = s.sent;
      rest = replicate s.lead 0 ++ drop s.at s.vc;
    } };

    ghost invariant = { λ s. (s.value ≤ 782) × (s.at ≤ 2349) };
}

impl PointerSource {
    /// A source that has sent nothing. The first part begins at `start`.
    pub fn new(start: u16) -> PointerSource
        requires { start ≤ 782 }
        ensures { PointerSourceStands result start [] [] }
    {
        PointerSource {
            value: start,
            wait: 0,
            sent: false,
            lead: 3 * usize::from(start),
            vc: [0; VC],
            at: VC,
        }
    }

    /// Sends the next frame, or refuses the action and stays as it was. A VC-4 is asked for when its first octet is
    /// sent, so none is asked for behind one that ends with the frame.
    pub fn send<V: VcFeed>(
        &mut self,
        a: Action,
        feed: &mut V,
        out: &mut AuFrame,
    ) -> Result<(), PointerFault>
        ensures cause { (start : ℕ) (actions : List Action) (asked : List (List ℕ)) →
            PointerSourceStands self.old start actions asked → result_err result ≡ fault_after actions a }
        ensures unchanged { OnErr result
            ((self.new ≡ self.old) × (feed.new ≡ feed.old) × (out.new ≡ out.old)) }
        ensures sends { OnOk result
            (Sends (λ f. V.stands_for f) self.old self.new feed.old feed.new a out.new) }
    {
        match self.fault(a) {
            Some(fault) => Err(fault),
            None => {
                self.carry(a, feed, out);
                Ok(())
            }
        }
    }

    /// Why an action is refused now.
    fn fault(&self, a: Action) -> Option<PointerFault>
        ensures cause { (start : ℕ) (actions : List Action) (asked : List (List ℕ)) →
            PointerSourceStands self.now start actions asked → result ≡ fault_after actions a }
        ensures valid { IfNone result (IsValid a) }
    {
        match a {
            Action::Keep => None,
            Action::Up | Action::Down => too_soon(self.move_wait()),
            Action::New(p) => {
                if p > 782 {
                    Some(PointerFault::Range { p })
                } else {
                    too_soon(self.wait)
                }
            }
        }
    }

    /// The frames to wait before an Up or a Down.
    fn move_wait(&self) -> u8
        ensures { (start : ℕ) (actions : List Action) (asked : List (List ℕ)) →
            PointerSourceStands self.now start actions asked → result ≡ move_wait actions }
    {
        if self.sent { self.wait } else { 1 }
    }

    /// Sends the next frame.
    fn carry<V: VcFeed>(&mut self, a: Action, feed: &mut V, out: &mut AuFrame)
        requires { IsValid a }
        ensures { Sends (λ f. V.stands_for f) self.old self.new feed.old feed.new a out.new }
    {
        self.write(a, feed, &mut out.h3, &mut out.body);
        out.word = word_of(self.value, a);
        self.value = next_value(self.value, a);
        self.wait = next_wait(self.wait, a);
        self.sent = true;
    }

    /// Writes the data of a frame.
    fn write<V: VcFeed>(&mut self, a: Action, feed: &mut V, h3: &mut [u8; 3], body: &mut [u8; VC])
        requires { IsValid a }
        ensures value { self.new.value ≡ self.old.value }
        ensures wait { self.new.wait ≡ self.old.wait }
        ensures writes { Writes (λ f. V.stands_for f) feed.old feed.new a
            self.old.rest self.new.rest h3.new body.new }
    {
        match a {
            Action::Keep => {
                *h3 = [0; 3];
                self.fill(feed, body);
            }
            Action::Up => {
                *h3 = [0; 3];
                self.fill_behind(feed, body);
            }
            Action::Down => {
                self.fill(feed, h3);
                self.fill(feed, body);
            }
            Action::New(p) => {
                *h3 = [0; 3];
                self.begin(p);
                self.fill(feed, body);
            }
        }
    }

    /// Begins a part.
    #[tactic(auto, using(crate::proofs::VcsOfStreamPartLaws::none_left))]
    fn begin(&mut self, p: u16)
        requires { p ≤ 782 }
        ensures value { self.new.value ≡ self.old.value }
        ensures wait { self.new.wait ≡ self.old.wait }
        ensures rest { self.new.rest ≡ replicate (3 * p) 0 }
    {
        self.lead = 3 * usize::from(p);
        self.at = VC;
    }

    /// Writes three zeros and then the next octets.
    fn fill_behind<V: VcFeed>(&mut self, feed: &mut V, body: &mut [u8; VC])
        ensures value { self.new.value ≡ self.old.value }
        ensures wait { self.new.wait ≡ self.old.wait }
        ensures zeros { body.new ≡ 0 ∷ 0 ∷ 0 ∷ drop 3 body.new }
        ensures asks { Asks (λ f. V.stands_for f) feed.old feed.new
            self.old.rest (drop 3 body.new) self.new.rest }
    {
        body[0] = 0;
        body[1] = 0;
        body[2] = 0;
        self.fill(feed, &mut body[3..]);
    }

    /// Writes the next octets.
    fn fill<V: VcFeed>(&mut self, feed: &mut V, piece: &mut [u8])
        ensures value { self.new.value ≡ self.old.value }
        ensures wait { self.new.wait ≡ self.old.wait }
        ensures asks { Asks (λ f. V.stands_for f) feed.old feed.new
            self.old.rest piece.new self.new.rest }
    {
        let mut filled = 0;
        while filled < piece.len() {
            filled += self.fill_some(feed, &mut piece[filled..]);
        }
    }

    /// Writes at least one octet, and says how many.
    fn fill_some<V: VcFeed>(&mut self, feed: &mut V, piece: &mut [u8]) -> usize
        requires { 0 < length piece.old }
        ensures some { 0 < result }
        ensures within { result ≤ length piece.old }
        ensures value { self.new.value ≡ self.old.value }
        ensures wait { self.new.wait ≡ self.old.wait }
        ensures asks { Asks (λ f. V.stands_for f) feed.old feed.new
            self.old.rest (take result piece.new) self.new.rest }
    {
        self.refill(feed);
        self.send_some(piece)
    }

    /// Asks for the next VC-4 where no octet is there.
    fn refill<V: VcFeed>(&mut self, feed: &mut V)
        ensures value { self.new.value ≡ self.old.value }
        ensures wait { self.new.wait ≡ self.old.wait }
        ensures refills { Refills (λ f. V.stands_for f) feed.old feed.new
            self.old.rest self.new.rest }
    {
        if self.lead == 0 && self.at == VC {
            feed.next(&mut self.vc);
            self.at = 0;
        }
    }

    /// Writes octets that are there, at least one, and says how many.
    fn send_some(&mut self, piece: &mut [u8]) -> usize
        requires room { 0 < length piece.old }
        requires there { 0 < length self.old.rest }
        ensures some { 0 < result }
        ensures within { result ≤ length piece.old }
        ensures value { self.new.value ≡ self.old.value }
        ensures wait { self.new.wait ≡ self.old.wait }
        ensures sent { take result piece.new ++ self.new.rest ≡ self.old.rest }
    {
        if self.lead > 0 {
            let n = zero_some(self.lead, piece);
            self.lead -= n;
            n
        } else {
            let n = copy_some(&self.vc[self.at..], piece);
            self.at += n;
            n
        }
    }
}

/// The cause where frames are still to wait.
fn too_soon(left: u8) -> Option<PointerFault>
    ensures { result ≡ too_soon left }
{
    if left == 0 {
        None
    } else {
        Some(PointerFault::TooSoon { left })
    }
}

/// The word of a frame.
fn word_of(value: u16, a: Action) -> u16
    requires value { value ≤ 782 }
    requires valid { IsValid a }
    ensures { result ≡ word_of value a }
{
    match a {
        Action::Keep => 0x6800 + value,
        Action::Up => 0x6800 + (value ^ 0x2aa),
        Action::Down => 0x6800 + (value ^ 0x155),
        Action::New(p) => 0x9800 + p,
    }
}

/// The value behind a frame.
pub(super) fn next_value(value: u16, a: Action) -> u16
    ensures { result ≡ next_value value a }
{
    match a {
        Action::Keep => value,
        Action::Up => ((u32::from(value) + 1) % 783) as u16,
        Action::Down => ((u32::from(value) + 782) % 783) as u16,
        Action::New(p) => p,
    }
}

/// The frames to wait behind a frame.
fn next_wait(wait: u8, a: Action) -> u8
    ensures { result ≡ next_wait wait a }
{
    match a {
        Action::Keep => wait.saturating_sub(1),
        Action::Up | Action::Down | Action::New(_) => 3,
    }
}
