//! The containers on their way, oldest first, and what comes of the oldest.
ghost use Rattle.std.specs.Prelude.{◌≡◌, ◌≢◌, ◌+◌, ◌-◌, ◌<◌, min, [], ◌∷◌, ◌++◌, length, drop, slice_get};
ghost use Rattle.std.specs.Prelude.{Some, IfOk};
ghost use Rattle.law_model.specs.Common.{Container, cells_of};
ghost use Rattle.member_path.specs.path_delay.Carry.{carry_cells, carry_for};
ghost use Rattle.member_path.specs.path_delay.CallsOnDelayedLine.{stored};

use crate::cell_numbers::CellSign;
use circular_buffer::HeapCircularBuffer;
use law_model::Carried;
use member_cells::{HeldContainer, blank_boxes};
use std::alloc::{AllocError, Global};
use std::marker::Model;
use std::mem;

/// The containers on their way: as many as the delay, once it is filled. Each lies in a box, so that it is
/// never moved itself.
#[derive(Drop)]
pub(super) struct Store {
    pub(super) kept: HeapCircularBuffer<Box<HeldContainer>>,
    /// Boxes for the containers that fill the delay.
    spare: Vec<Box<HeldContainer>>,
}

impl Model for Store {
    ghost use Rattle.std.specs.Prelude.{map, length};
    ghost use Rattle.member_path.specs.path_delay.CallsOnDelayedLine.{Stored};

    ghost Value = { Stored };

    ghost view = { λ store. record {
      items = map (λ place. place.value) store.kept.items;
      capacity = store.kept.capacity;
      spare = length store.spare.items;
    } };
}

impl Store {
    /// An empty store for a delay in containers, of a line that carries so many in all.
    pub(super) fn new(alloc: Global, delay: u16, total: u32) -> Result<Store, AllocError>
        ensures { IfOk result (λ store. store ≡ stored [] delay (min delay total)) }
    {
        let kept = HeapCircularBuffer::with_capacity(alloc, usize::from(delay))?;
        let spare = blank_boxes(alloc, u32::from(delay).min(total) as usize)?;
        Ok(Store { kept, spare })
    }

    /// Puts a container after those on their way, in its box, and leaves a spare box for it.
    pub(super) fn keep(&mut self, container: &mut Box<HeldContainer>)
        requires room { length self.old.items < self.old.capacity }
        requires spare { 0 < self.old.spare }
        ensures { self.new ≡ stored (self.old.items ++ container.old.value ∷ [])
            self.old.capacity (self.old.spare - 1) }
    {
        match self.spare.pop() {
            Some(mut place) => {
                mem::swap(&mut place, container);
                self.append(place);
            }
            None => unreachable!(),
        }
    }

    /// Puts a box after those on their way.
    fn append(&mut self, place: Box<HeldContainer>)
        requires { length self.old.items < self.old.capacity }
        ensures { self.new ≡ stored (self.old.items ++ place.value ∷ [])
            self.old.capacity self.old.spare }
    {
        let _none = self.kept.push_back(place);
    }

    /// Takes the oldest container out.
    fn take_oldest(&mut self) -> Box<HeldContainer>
        requires { 0 < length self.old.items }
        ensures store { self.new ≡ stored (drop 1 self.old.items) self.old.capacity self.old.spare }
        ensures oldest { slice_get self.old.items 0 ≡ Some result.value }
    {
        match self.kept.pop_front() {
            Some(oldest) => oldest,
            None => unreachable!(),
        }
    }

    /// Takes the oldest container out of the store, and gives its box where it comes whole. The box that is left
    /// over is let go.
    pub(super) fn let_go(&mut self, fate: Carried, out: &mut Box<HeldContainer>) -> Option<CellSign>
        requires { 0 < length self.old.items }
        ensures store { self.new ≡ stored (drop 1 self.old.items) self.old.capacity self.old.spare }
        ensures cells { (x : Container) → slice_get self.old.items 0 ≡ Some x →
            carry_cells result out.new.value ≡ cells_of fate x }
        ensures kept { result ≢ Some CellSign.Good → out.new.value ≡ out.old.value }
    {
        let mut oldest = self.take_oldest();
        change(fate, &mut oldest, out)
    }

    /// Puts a container into a full store in its box, and takes the oldest out: that is the container itself
    /// where the store has no place. It gives the box of the oldest, where it comes whole. Another box lies in
    /// `container` afterwards.
    pub(super) fn pass(
        &mut self,
        fate: Carried,
        container: &mut Box<HeldContainer>,
        out: &mut Box<HeldContainer>,
    ) -> Option<CellSign>
        requires { length self.old.items ≡ self.old.capacity }
        ensures store { self.new ≡ stored (drop 1 (self.old.items ++ container.old.value ∷ []))
            self.old.capacity self.old.spare }
        ensures cells { (x : Container) →
            slice_get (self.old.items ++ container.old.value ∷ []) 0 ≡ Some x →
            carry_cells result out.new.value ≡ cells_of fate x }
        ensures kept { result ≢ Some CellSign.Good → out.new.value ≡ out.old.value }
    {
        if self.kept.is_empty() {
            return change(fate, container, out);
        }
        let mut oldest = self.take_oldest();
        let carry = change(fate, &mut oldest, out);
        mem::swap(&mut oldest, container);
        self.append(oldest);
        carry
    }
}

/// What comes of a container in a box, which changes places with the other where it comes whole.
fn change(
    fate: Carried,
    place: &mut Box<HeldContainer>,
    out: &mut Box<HeldContainer>,
) -> Option<CellSign>
    ensures cells { carry_cells result out.new.value ≡ cells_of fate place.old.value }
    ensures kept { result ≢ Some CellSign.Good → out.new.value ≡ out.old.value }
{
    if let Carried::Whole = fate {
        mem::swap(place, out);
    }
    carry_of(fate)
}

/// The cell that a carry gives, if any, by what comes of its container.
fn carry_of(fate: Carried) -> Option<CellSign>
    ensures { result ≡ carry_for fate }
{
    match fate {
        Carried::Whole => Some(CellSign::Good),
        Carried::Fails => Some(CellSign::Fail),
        Carried::Vanishes => None,
    }
}
