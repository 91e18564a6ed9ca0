//! The sink of frames.

ghost use Rattle.std.specs.Prelude.{◌≡◌, ℕ, ◌+◌, ◌-◌, ◌<◌, ◌≤◌, List, [], ◌∷◌, ◌++◌, length, take, drop, Option, None};
ghost use Rattle.std.specs.Prelude.{OnErr};
ghost use Rattle.std.specs.Result.{result_err};
ghost use Rattle.law_model.specs.Common.{Start};
ghost use Rattle.member_au4.specs.au4_pointer.PointerWord.{reading, moving, beginning};
ghost use Rattle.member_au4.specs.au4_pointer.Sink.{PointerSinkStands, Gives, due, data_of, value_behind};
ghost use Rattle.member_au4.specs.au4_pointer.Sink.{word_fault, added};

use crate::au4_pointer::copy_and_zero::copy_some;
use crate::au4_pointer::pointer_source::next_value;
use crate::au4_pointer::{Action, AuFrame, VC};
use std::marker::Model;

/// Takes the VC-4s that come whole, in order.
pub trait VcOut {
    /// It stands for the VC-4s that it was given, after what had been given before.
    ghost stands_for: { Self → Start → List (List ℕ) → Type 0 };

    /// Takes the next VC-4.
    fn vc(&mut self, vc: &[u8; 2349])
        ensures { (start : Start) (vcs : List (List ℕ)) → stands_for self.old start vcs →
            stands_for self.new start (vcs ++ vc.now ∷ []) };
}

/// Why a frame is refused.
#[derive(Clone, Copy, Debug, PartialEq, Eq)]
pub enum PointerWordFault {
    /// The flag is neither 0110 nor 1001.
    Flag { flag: u8 },
    /// A part begins at a value above 782.
    Range { value: u16 },
    /// The value is neither the one that is due nor one of its two inversions.
    Unexpected { value: u16 },
}

/// Finds the VC-4s in frames.
#[derive(Drop)]
pub struct PointerSink {
    /// The value of the next frame, where one came before.
    value: Option<u16>,
    /// The octets that are still to come before the first VC-4 of the part.
    lead: usize,
    /// The VC-4 in progress, and how many of its octets have come.
    vc: [u8; VC],
    kept: usize,
}

impl Model for PointerSink {
    ghost use Rattle.std.specs.Prelude.{◌<◌, take};
    ghost use Rattle.member_au4.specs.au4_pointer.Sink.{Sink};

    ghost Value = { Sink };

    ghost view = { λ s. record { value = s.value; lead = s.lead; kept = take s.kept s.vc } };

    ghost invariant = { λ s. s.kept < 2349 };
}

impl PointerSink {
    /// A sink that has taken nothing.
    pub fn new() -> PointerSink
        ensures { PointerSinkStands result [] }
    {
        PointerSink {
            value: None,
            lead: 0,
            vc: [0; VC],
            kept: 0,
        }
    }

    /// Takes the next frame, and gives the VC-4s that it completes to `out`; or refuses it, and is as a new one then.
    pub fn take<O: VcOut>(&mut self, f: &AuFrame, out: &mut O) -> Result<(), PointerWordFault>
        ensures cause { (frames : List AuFrame) → PointerSinkStands self.old frames →
            result_err result ≡ word_fault frames f.now }
        ensures stands { (frames : List AuFrame) → PointerSinkStands self.old frames →
            PointerSinkStands self.new (frames ++ f.now ∷ []) }
        ensures gives { (frames : List AuFrame) → PointerSinkStands self.old frames →
            (start : Start) (vcs : List (List ℕ)) → O.stands_for out.old start vcs →
            O.stands_for out.new start (vcs ++ added frames f.now) }
        ensures as_new { OnErr result (PointerSinkStands self.new []) }
        ensures unchanged { OnErr result (out.new ≡ out.old) }
    {
        match read(self.value, f.word) {
            Err(fault) => {
                self.forget();
                Err(fault)
            }
            Ok(a) => {
                self.pass_data(a, f, out);
                self.value = value_behind(self.value, a);
                Ok(())
            }
        }
    }

    /// Is as a new sink.
    fn forget(&mut self)
        ensures value { self.new.value ≡ None }
        ensures lead { self.new.lead ≡ 0 }
        ensures kept { self.new.kept ≡ [] }
    {
        self.value = None;
        self.lead = 0;
        self.kept = 0;
    }

    /// Takes the data of a frame.
    fn pass_data<O: VcOut>(&mut self, a: Action, f: &AuFrame, out: &mut O)
        ensures value { self.new.value ≡ self.old.value }
        ensures gives { Gives (λ o. O.stands_for o) out.old out.new (due self.old a) self.new
            (data_of a f.now) }
    {
        match a {
            Action::Keep => self.pass(&f.body, out),
            Action::Up => self.pass(behind_zeros(&f.body), out),
            Action::Down => {
                self.pass(&f.h3, out);
                self.pass(&f.body, out);
            }
            Action::New(p) => {
                self.lead = 3 * usize::from(p);
                self.kept = 0;
                self.pass(&f.body, out);
            }
        }
    }

    /// Takes octets.
    fn pass<O: VcOut>(&mut self, piece: &[u8], out: &mut O)
        ensures value { self.new.value ≡ self.old.value }
        ensures gives { Gives (λ o. O.stands_for o) out.old out.new self.old self.new piece.now }
    {
        let mut at = 0;
        while at < piece.len() {
            at += self.pass_some(&piece[at..], out);
        }
    }

    /// Takes at least one octet, and says how many.
    fn pass_some<O: VcOut>(&mut self, piece: &[u8], out: &mut O) -> usize
        requires { 0 < length piece.now }
        ensures some { 0 < result }
        ensures within { result ≤ length piece.now }
        ensures value { self.new.value ≡ self.old.value }
        ensures gives { Gives (λ o. O.stands_for o) out.old out.new self.old self.new
            (take result piece.now) }
    {
        if self.lead > 0 {
            let n = self.lead.min(piece.len());
            self.lead -= n;
            n
        } else {
            self.keep_some(piece, out)
        }
    }

    /// Keeps at least one octet, and says how many.
    fn keep_some<O: VcOut>(&mut self, piece: &[u8], out: &mut O) -> usize
        requires some { 0 < length piece.now }
        requires begun { self.old.lead ≡ 0 }
        ensures some { 0 < result }
        ensures within { result ≤ length piece.now }
        ensures value { self.new.value ≡ self.old.value }
        ensures gives { Gives (λ o. O.stands_for o) out.old out.new self.old self.new
            (take result piece.now) }
    {
        let n = copy_some(piece, &mut self.vc[self.kept..]);
        if self.kept + n == VC {
            out.vc(&self.vc);
            self.kept = 0;
        } else {
            self.kept += n;
        }
        n
    }
}

/// The octets of data in the body of an Up frame.
#[tactic(auto, using(crate::proofs::VcsOfStreamPartLaws::behind_three))]
fn behind_zeros(body: &[u8; VC]) -> &[u8]
    ensures { result.now ≡ drop 3 body.now }
{
    &body[3..]
}

/// What a word says, behind a frame with this next value or behind none.
fn read(value: Option<u16>, word: u16) -> Result<Action, PointerWordFault>
    ensures { result ≡ reading value word }
{
    let flag = word / 4096;
    if flag == 6 {
        match value {
            None => begin(word),
            Some(v) => move_on(v, word),
        }
    } else if flag == 9 {
        begin(word)
    } else {
        Err(PointerWordFault::Flag { flag: flag as u8 })
    }
}

/// What a word says at which a part begins.
fn begin(word: u16) -> Result<Action, PointerWordFault>
    ensures { result ≡ beginning word }
{
    let value = word % 1024;
    if value <= 782 {
        Ok(Action::New(value))
    } else {
        Err(PointerWordFault::Range { value })
    }
}

/// What a word says within a part.
fn move_on(due: u16, word: u16) -> Result<Action, PointerWordFault>
    ensures { result ≡ moving due word }
{
    let value = word % 1024;
    if value == due {
        Ok(Action::Keep)
    } else if value == due ^ 0x2aa {
        Ok(Action::Up)
    } else if value == due ^ 0x155 {
        Ok(Action::Down)
    } else {
        Err(PointerWordFault::Unexpected { value })
    }
}

/// The next value behind a frame.
fn value_behind(value: Option<u16>, a: Action) -> Option<u16>
    ensures { result ≡ value_behind value a }
{
    match a {
        Action::Keep => value,
        Action::Up | Action::Down => Some(next_value(value.unwrap_or(0), a)),
        Action::New(p) => Some(p),
    }
}
