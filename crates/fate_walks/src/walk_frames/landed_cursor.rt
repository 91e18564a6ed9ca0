//! The client's items that have landed in a walk, one after another in item order, each with why it is
//! refused where it is.
ghost use Rattle.std.specs.Prelude.{◌≡◌, ℕ, ◌+◌, ◌<◌, List, ◌++◌, length, All, Option, IfSome, IfNone};
ghost use Rattle.law_model.specs.Common.{leg_of, IsSound};
ghost use Rattle.law_model.specs.declared.item_refusals.Refusal.{Refusal as RefusalData};
ghost use Rattle.law_walk.specs.Common.{IsWalked, refused_by};
ghost use Rattle.fate_walks.specs.walk_frames.ItemCursor.{IsAt, IsNext, IsPast, IsSkipped};

use law_model::{ItemSort, Refusal};
use std::marker::Model;
use terminal_group::Refusals;
use walk_engine::walk_core::Walk;

/// A client item that has landed.
#[derive(Clone, Copy)]
pub struct LandedFrame {
    /// Its number among the items of the script, counted from 0.
    pub number: u32,
    /// The number of ticks after which it lands.
    pub due: u32,
    /// The octets of the frame.
    pub length: u16,
    /// Why it is refused, where it is.
    pub refusal: Option<Refusal>,
}

/// A place among the items of a walk's script: those before it were passed.
#[derive(Drop)]
pub struct FrameCursor<'a> {
    /// The next item.
    item: u32,
    /// The next refusal, which is of no earlier item.
    refused: Option<(u32, Refusal)>,
    /// Those after it.
    refusals: Refusals<'a>,
    /// How many frames from the next item on have landed.
    left: u32,
}

impl<'a> Model for FrameCursor<'a> {
    ghost use Rattle.std.specs.Prelude.{◌≡◌, [], ◌++◌, option_to_list, IfNone};
    ghost use Rattle.fate_walks.specs.walk_frames.ItemCursor.{Cursor};

    ghost Value = { Cursor };

    ghost view = { λ c. record {
      item = c.item;
      refusals = option_to_list c.refused ++ c.refusals;
      left = c.left;
    } };

    ghost invariant = { λ c. IfNone c.refused (c.refusals ≡ []) };
}

impl<'a> FrameCursor<'a> {
    /// Before the first item.
    pub fn new(walk: &'a Walk) -> FrameCursor<'a>
        requires sound { IsSound (leg_of walk.now.script) }
        requires walked { IsWalked (leg_of walk.now.script) walk.now.counts }
        ensures at { IsAt (leg_of walk.now.script) walk.now.counts result }
        ensures first { result.item ≡ 0 }
    {
        let mut refusals = walk.landing().refusals();
        FrameCursor {
            item: 0,
            refused: refusals.next(),
            refusals,
            left: walk.landing().landed(true),
        }
    }

    /// The next client item that has landed.
    pub fn next(&mut self, walk: &Walk) -> Option<LandedFrame>
        requires { IsAt (leg_of walk.now.script) walk.now.counts self.old }
        ensures at { IsAt (leg_of walk.now.script) walk.now.counts self.new }
        ensures some { IfSome result (IsNext (leg_of walk.now.script) self.old self.new) }
        ensures none { IfNone result (IsPast (leg_of walk.now.script) walk.now.counts self.old) }
    {
        while self.left > 0 && self.item < walk.script().items.len() {
            if let Some(frame) = self.pass(walk) {
                return Some(frame);
            }
        }
        None
    }

    /// Passes the next item, which is there.
    fn pass(&mut self, walk: &Walk) -> Option<LandedFrame>
        requires at { IsAt (leg_of walk.now.script) walk.now.counts self.old }
        requires some { 0 < self.old.left }
        requires there { self.old.item < length walk.now.script.items }
        ensures at { IsAt (leg_of walk.now.script) walk.now.counts self.new }
        ensures found { IfSome result (IsNext (leg_of walk.now.script) self.old self.new) }
        ensures skipped { IfNone result (IsSkipped (leg_of walk.now.script) self.old self.new) }
        ensures item { self.new.item ≡ self.old.item + 1 }
    {
        let number = self.item;
        let head = walk.script().items.head(number);
        let refusal = self.take_refusal(number);
        self.item = number + 1;
        match head.sort {
            ItemSort::Frame(length) => {
                self.left -= 1;
                Some(LandedFrame {
                    number,
                    due: head.due,
                    length,
                    refusal,
                })
            }
            _ => None,
        }
    }

    /// Why an item is refused, where it is the next refusal's.
    fn take_refusal(&mut self, item: u32) -> Option<Refusal>
        ensures finds { (why : Option RefusalData) (later : List (ℕ × RefusalData)) →
            self.old.refusals ≡ refused_by item why ++ later →
            All (λ (refused : ℕ × RefusalData). item < refused.0) later →
            (result ≡ why) × (self.new.refusals ≡ later) }
        ensures item { self.new.item ≡ self.old.item }
        ensures left { self.new.left ≡ self.old.left }
    {
        match self.refused {
            Some((number, why)) if number == item => {
                self.refused = self.refusals.next();
                Some(why)
            }
            _ => None,
        }
    }
}
