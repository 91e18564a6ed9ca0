//! The numbers of a line's cells, whose containers lie elsewhere.

ghost use Rattle.std.specs.Prelude.{◌≡◌, ℕ, ◌+◌, ◌<◌, List, [], ◌∷◌, ◌++◌, Option, IfSome, IfNone, IsTrue, IsFalse};
ghost use Rattle.std.specs.Prelude.{◌↔◌, option_map};
ghost use Rattle.law_model.specs.Common.{Container, Cell, ahead, verdict};
ghost use Rattle.member_path.specs.cell_numbers.SignsAsCells.{cell_with, told_by};
ghost use Rattle.member_path.specs.cell_numbers.Numbers.{IsOpen, is_open, NumbersStand};

use crate::cell_numbers::{CellSign, Verdict};
use crate::h4_multiframe::{MfiLock, Place};
use member_cells::{Container, HeldContainer};
use std::marker::Model;
use std::mem;

/// How many numbers the multiframe tells apart.
const NUMBERS: u16 = 4096;

/// The numbers of a line. What its last cell decided is kept until it was passed: a count of bad numbers, or
/// one whole number, whose container the caller keeps in a place.
#[derive(Clone, Copy)]
pub struct LineNumbers {
    lock: MfiLock,
    /// The next number modulo 4,096.
    next: u16,
    bad: u16,
    whole: bool,
    ended: bool,
}

impl Model for LineNumbers {
    ghost use Rattle.std.specs.Prelude.{◌<◌};
    ghost use Rattle.member_path.specs.cell_numbers.Numbers.{Numbers};

    ghost Value = { Numbers };

    ghost invariant = { λ numbers. numbers.next < 4096 };

    ghost view = { λ numbers. record {
      lock = numbers.lock;
      next = numbers.next;
      bad = numbers.bad;
      whole = numbers.whole;
      ended = numbers.ended;
    } };

    ghost inverse = { λ numbers. record {
      lock = numbers.lock;
      next = numbers.next;
      bad = numbers.bad;
      whole = numbers.whole;
      ended = numbers.ended;
    } };
}

impl Default for LineNumbers {
    ghost is_default = { λ numbers. (place : Container) → NumbersStand numbers place [] 0 };

    fn default() -> LineNumbers {
        LineNumbers::new()
    }
}

impl LineNumbers {
    /// The numbers of a line of which no cell has come.
    pub fn new() -> LineNumbers
        ensures stands { (place : Container) → NumbersStand result place [] 0 }
        ensures open { IsOpen result }
    {
        LineNumbers {
            lock: MfiLock::new(),
            next: 0,
            bad: 0,
            whole: false,
            ended: false,
        }
    }

    /// Takes the next cell, once each decided number was passed. Where the cell has a number of its own, which
    /// is then whole, the boxes change, so that its container lies in `place`. What lies in `container`
    /// afterwards says nothing.
    pub fn cell(
        &mut self,
        sign: CellSign,
        container: &mut Box<HeldContainer>,
        place: &mut Box<HeldContainer>,
    )
        requires open { IsOpen self.old }
        ensures stands { (cells : List Cell) (t : ℕ) →
            NumbersStand self.old place.old.value cells t →
            NumbersStand self.new place.new.value (cells ++ cell_with sign container.old.value ∷ []) t }
    {
        match sign {
            CellSign::Good => {
                if self.good(container.container()) {
                    mem::swap(container, place);
                }
            }
            CellSign::Fail => self.fail(),
            CellSign::End => self.end(),
        }
    }

    /// Takes the cell of a container. Answers whether it has a number of its own, so that the container is to be kept.
    fn good(&mut self, container: &Container) -> bool
        requires open { IsOpen self.old }
        ensures kept { IsTrue result → (place : Container) (cells : List Cell) (t : ℕ) →
            NumbersStand self.old place cells t →
            NumbersStand self.new container.now (cells ++ Cell.Good container.now ∷ []) t }
        ensures bad { IsFalse result → (place : Container) (cells : List Cell) (t : ℕ) →
            NumbersStand self.old place cells t →
            NumbersStand self.new place (cells ++ Cell.Good container.now ∷ []) t }
    {
        match self.lock.good(container.h4) {
            Place::Unknown => self.bad = 1,
            Place::Locks(number) => self.bad = ahead_of(self.next, number) + 1,
            Place::At(_) => self.whole = true,
        }
        self.whole
    }

    /// Takes the sign of a failure.
    fn fail(&mut self)
        requires open { IsOpen self.old }
        ensures stands { (place : Container) (cells : List Cell) (t : ℕ) →
            NumbersStand self.old place cells t → NumbersStand self.new place (cells ++ Cell.Fail ∷ []) t }
    {
        self.lock.fail();
        self.bad = 1;
    }

    /// Takes the end.
    fn end(&mut self)
        requires open { IsOpen self.old }
        ensures stands { (place : Container) (cells : List Cell) (t : ℕ) →
            NumbersStand self.old place cells t → NumbersStand self.new place (cells ++ Cell.End ∷ []) t }
    {
        self.ended = true;
    }

    /// What is said of the next number that was not passed, or `None` where the cells don't decide it.
    pub fn verdict<'a>(&self, place: &'a Container) -> Option<Verdict<'a>>
        ensures told { (cells : List Cell) (t : ℕ) → NumbersStand self.now place.now cells t →
            verdict cells t ≡ option_map told_by result }
        ensures open { IfNone result (IsOpen self.now) }
        ensures shut { IfSome result (λ _. IsOpen self.now → ⊥) }
    {
        if self.bad > 0 || self.ended {
            return Some(Verdict::Bad);
        }
        if self.whole {
            Some(Verdict::Whole(place))
        } else {
            None
        }
    }

    /// Whether each decided number was passed.
    pub fn is_open(&self) -> bool
        ensures open { IsTrue result ↔ IsOpen self.now }
        ensures test { result ≡ is_open self.now }
    {
        self.bad == 0 && !self.whole && !self.ended
    }

    /// Passes the next number, which is decided.
    pub fn next(&mut self)
        requires decided { IsOpen self.old → ⊥ }
        ensures stands { (place : Container) (cells : List Cell) (t : ℕ) →
            NumbersStand self.old place cells t → NumbersStand self.new place cells (t + 1) }
    {
        self.next = (self.next + 1) % NUMBERS;
        if self.bad > 0 {
            self.bad -= 1;
        } else {
            self.whole = false;
        }
    }
}

/// How far the least number of at least `d` that equals `n` modulo 4,096 is from `d`.
fn ahead_of(d: u16, n: u16) -> u16
    ensures value { result ≡ ahead d n }
    ensures bound { result < 4096 }
{
    (n % NUMBERS + NUMBERS - d % NUMBERS) % NUMBERS
}
