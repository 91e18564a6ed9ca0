//! Frames that wait, and the one that is being sent, in buffers that are taken once.

ghost use Rattle.std.specs.Prelude.{◌≡◌, ◌+◌, ◌<◌, ◌≤◌, ◌↔◌, false, [], ◌∷◌, ◌++◌, length, min, take, drop, IfOk};
ghost use Rattle.std.specs.Prelude.{IsTrue, IfSome, IfNone, vec_len, vec_capacity};
ghost use Rattle.std.specs.Bool.{OnTrue};
ghost use Rattle.std.specs.VecDeque.{deque_len, deque_capacity};
ghost use Rattle.law_model.specs.Common.{longest_frame};
ghost use Rattle.gfp_fill.specs.Store.{HasFrameRoom};

use crate::copy_octets::copy_some;
use law_model::LONGEST_FRAME;
use std::alloc::{AllocError, Global};
use std::collections::VecDeque;
use std::marker::Model;
use std::mem;

/// The frames that wait, oldest first, `MOST` at most.
#[derive(Drop)]
pub struct FrameStore<const MOST: usize> {
    pub(crate) waiting: VecDeque<Vec<u8>>,
    spare: Vec<Vec<u8>>,
}

impl<const MOST: usize> Model for FrameStore<MOST> {
    ghost use Rattle.std.specs.Prelude.{ℕ, List, map};
    ghost use Rattle.gfp_fill.specs.Store.{IsStore};

    ghost Value = { List (List ℕ) };

    ghost view = { λ store. map (λ frame. frame.items) store.waiting.items };

    ghost invariant = { λ store. IsStore MOST store.waiting store.spare };
}

impl<const MOST: usize> FrameStore<MOST> {
    /// No frame waits, and there is room for `MOST` frames of `LONGEST_FRAME` octets each.
    pub fn new(alloc: Global) -> Result<FrameStore<MOST>, AllocError>
        ensures { IfOk result (λ store. store ≡ []) }
    {
        let mut spare = Vec::with_capacity(alloc, MOST)?;
        for _ in 0..MOST {
            spare.push(Vec::with_capacity(alloc, LONGEST_FRAME)?)?;
        }
        Ok(FrameStore {
            waiting: VecDeque::with_capacity(alloc, MOST)?,
            spare,
        })
    }

    /// Whether no frame waits.
    #[inline]
    pub fn is_empty(&self) -> bool
        ensures { IsTrue result ↔ (self.now ≡ []) }
    {
        self.waiting.len() == 0
    }

    /// Puts a frame behind those that wait, and answers whether there was room.
    pub fn push(&mut self, frame: &[u8]) -> bool
        requires { length frame.now ≤ longest_frame }
        ensures room { IsTrue result ↔ (length self.old < MOST) }
        ensures taken { OnTrue result (self.new ≡ self.old ++ frame.now ∷ []) }
        ensures full { result ≡ false → self.new ≡ self.old }
        ensures within { length self.old ≤ MOST }
    {
        match self.spare.pop() {
            Some(buffer) => {
                append(&mut self.waiting, refilled(buffer, frame));
                true
            }
            None => false,
        }
    }

    /// Begins to send the oldest frame, and says how many octets it has. What wasn't written of the one before is gone.
    #[inline]
    pub fn begin(&mut self, begun: &mut BegunFrame) -> Option<usize>
        ensures none { IfNone result (self.old ≡ []) }
        ensures stays { IfNone result (self.new ≡ self.old) }
        ensures same { IfNone result (begun.new ≡ begun.old) }
        ensures frame { IfSome result (λ n. self.old ≡ begun.new ∷ self.new) }
        ensures long { IfSome result (λ n. n ≡ length begun.new) }
        ensures within { IfSome result (λ n. n ≤ longest_frame) }
    {
        match self.waiting.pop_front() {
            Some(frame) => {
                let n = frame.len();
                put_back(&mut self.spare, begun.replace(frame));
                Some(n)
            }
            None => None,
        }
    }
}

/// The frame that is being sent: the octets of it that aren't written.
#[derive(Drop)]
pub struct BegunFrame {
    // Its buffer, and how many of the octets in it are written.
    buffer: Vec<u8>,
    sent: usize,
}

impl Model for BegunFrame {
    ghost use Rattle.std.specs.Prelude.{ℕ, List, ◌≤◌, drop, vec_len};
    ghost use Rattle.gfp_fill.specs.Store.{HasFrameRoom};

    ghost Value = { List ℕ };

    ghost view = { λ frame. drop frame.sent frame.buffer.items };

    ghost invariant = { λ frame. HasFrameRoom frame.buffer × (frame.sent ≤ vec_len frame.buffer) };
}

impl BegunFrame {
    /// No frame, and room for a frame of `LONGEST_FRAME` octets.
    pub fn new(alloc: Global) -> Result<BegunFrame, AllocError>
        ensures { IfOk result (λ frame. frame ≡ []) }
    {
        Ok(BegunFrame {
            buffer: Vec::with_capacity(alloc, LONGEST_FRAME)?,
            sent: 0,
        })
    }

    /// How many octets aren't written.
    #[inline]
    pub fn left(&self) -> usize
        ensures { result ≡ length self.now }
    {
        self.buffer.len() - self.sent
    }

    /// Copies as many octets as aren't written and `out` has room for, and says how many.
    #[inline]
    pub fn send(&mut self, out: &mut [u8]) -> usize
        ensures count { result ≡ min (length self.old) (length out.old) }
        ensures octets { take result out.new ≡ take result self.old }
        ensures behind { drop result out.new ≡ drop result out.old }
        ensures rest { self.new ≡ drop result self.old }
    {
        let n = copy_some(&self.buffer.as_slice()[self.sent..], out);
        self.sent += n;
        n
    }

    /// Begins with another frame, and gives the buffer of this one.
    #[inline]
    fn replace(&mut self, frame: Vec<u8>) -> Vec<u8>
        requires { HasFrameRoom frame }
        ensures begins { self.new ≡ frame.items }
        ensures room { HasFrameRoom result }
    {
        self.sent = 0;
        mem::replace(&mut self.buffer, frame)
    }
}

/// Puts a frame into a buffer with room for it.
fn refilled(mut buffer: Vec<u8>, frame: &[u8]) -> Vec<u8>
    requires { length frame.now ≤ vec_capacity buffer }
    ensures items { result.items ≡ frame.now }
    ensures len { vec_len result ≡ length frame.now }
    ensures capacity { vec_capacity buffer ≤ vec_capacity result }
{
    buffer.clear();
    match buffer.extend_from_slice(frame) {
        Ok(()) => buffer,
        Err(_) => unreachable!(),
    }
}

/// Puts a frame after those that wait, where there is room.
fn append(waiting: &mut VecDeque<Vec<u8>>, frame: Vec<u8>)
    requires { deque_len waiting.old < deque_capacity waiting.old }
    ensures items { waiting.new.items ≡ waiting.old.items ++ frame ∷ [] }
    ensures len { deque_len waiting.new ≡ deque_len waiting.old + 1 }
    ensures capacity { deque_capacity waiting.old ≤ deque_capacity waiting.new }
{
    match waiting.push_back(frame) {
        Ok(()) => {}
        Err(_) => unreachable!(),
    }
}

/// Puts a buffer among the spare ones, where there is room.
fn put_back(spare: &mut Vec<Vec<u8>>, buffer: Vec<u8>)
    requires { vec_len spare.old < vec_capacity spare.old }
    ensures items { spare.new.items ≡ spare.old.items ++ buffer ∷ [] }
    ensures len { vec_len spare.new ≡ vec_len spare.old + 1 }
    ensures capacity { vec_capacity spare.old ≤ vec_capacity spare.new }
{
    match spare.push(buffer) {
        Ok(()) => {}
        Err(_) => unreachable!(),
    }
}
