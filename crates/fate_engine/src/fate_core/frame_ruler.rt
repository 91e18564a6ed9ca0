//! The places at which the pieces of accepted frames begin and end, by lengths alone.
ghost use Rattle.std.specs.Prelude.{◌≡◌, ◌+◌, ◌^◌, ◌==◌, ◌||◌, ◌<◌, [], length, OnOk, OnErr, slice_get, IfOk, IfSome};
ghost use Rattle.std.specs.Prelude.{vec_capacity};
ghost use Rattle.law_model.specs.Common.{Stream};
ghost use Rattle.fate_engine.specs.fate_law.Ruler.{new_ruler, ruler_of, ruled, with_waiting};
ghost use Rattle.fate_engine.specs.fate_law.Marks.{is_piece_at};
ghost use Rattle.fate_engine.specs.fate_core.FrameSides.{with_begun, is_fourth, IsBegun, begun_before};

use std::alloc::{AllocError, Global};
use std::marker::Model;

/// The octets of a core header and of a type header, with their checks.
const HEADERS: u64 = 8;

/// The octets of an idle frame.
const IDLE: u64 = 4;

/// An accepted frame.
#[derive(Clone, Copy, Drop)]
struct Piece {
    /// The place at which its piece begins, once it does.
    from: u64,
    /// The octets of the frame.
    length: u16,
}

/// Where the pieces of accepted frames begin and end in the stream. Each frame is told as it is accepted, and
/// then how far the stream was made. A contract sees where the pieces end, the two places of each frame whose
/// piece is begun, and the lengths of those that wait.
#[derive(Drop)]
pub struct Ruler {
    frames: Vec<Piece>,
    /// How many of them are begun.
    begun: usize,
    /// The place at which the pieces end.
    end: u64,
}

/// Room for so many frames, and none in it.
fn room_for(alloc: Global, frames: u32) -> Result<Vec<Piece>, AllocError>
    ensures none { IfOk result (λ pieces. pieces.items ≡ []) }
    ensures room { IfOk result (λ pieces. vec_capacity pieces ≡ frames) }
{
    Vec::with_capacity(alloc, frames as usize)
}

impl Model for Ruler {
    ghost use Rattle.fate_engine.specs.fate_law.Ruler.{Ruler};
    ghost use Rattle.fate_engine.specs.fate_core.FrameSides.{ruler_in, IsRuler};

    ghost Value = { Ruler };

    ghost view = { λ r. ruler_in r.frames.items r.begun r.end };

    ghost invariant = { λ r. IsRuler r.frames.items r.begun r.end };
}

impl Ruler {
    /// That of a stream of which nothing but the two idles at its start is made, with room for so many frames.
    pub fn new(alloc: Global, frames: u32) -> Result<Ruler, AllocError>
        ensures { IfOk result (λ ruler. ruler ≡ new_ruler) }
    {
        Ok(Ruler {
            frames: room_for(alloc, frames)?,
            begun: 0,
            end: 2 * IDLE,
        })
    }

    /// Takes an accepted frame of so many octets. Where memory is short nothing changes.
    pub fn accept(&mut self, length: u16) -> Result<(), AllocError>
        ensures ok { OnOk result (self.new ≡ with_waiting self.old length) }
        ensures err { OnErr result (self.new ≡ self.old) }
    {
        self.frames.push(Piece { from: 0, length })?;
        Ok(())
    }

    /// The stream is made up to a place at least: by the frames that wait, in their order, and by idles where
    /// none does.
    pub fn reach(&mut self, place: u64)
        requires { place < 2 ^ 63 }
        ensures { self.new ≡ ruled place self.old.end self.old.sent self.old.waiting }
    {
        self.reach_by_frames(place);
        if self.end < place {
            self.end += (place - self.end + (IDLE - 1)) / IDLE * IDLE;
        }
    }

    /// As many frames that wait as it takes to reach a place, or all of them.
    fn reach_by_frames(&mut self, place: u64)
        requires { place < 2 ^ 63 }
        ensures ruled { ruled place self.new.end self.new.sent self.new.waiting
            ≡ ruled place self.old.end self.old.sent self.old.waiting }
        ensures done { self.new.end < place → self.new.waiting ≡ [] }
    {
        while self.end < place && self.begun < self.frames.len() {
            self.begin();
        }
    }

    /// Begins the piece of the frame that waits longest.
    fn begin(&mut self)
        requires some { 0 < length self.old.waiting }
        requires low { self.old.end < 2 ^ 63 }
        ensures { self.new ≡ with_begun self.old }
    {
        let i = self.begun;
        let from = self.end;
        let length = self.frames[i].length;
        self.frames[i] = Piece { from, length };
        self.begun = i + 1;
        self.end = from + (HEADERS + u64::from(length));
    }

    /// The places at which the piece of a frame begins and ends, where it is begun. Frames are counted from 0
    /// as they were accepted.
    pub fn sides(&self, frame: usize) -> Option<(u64, u64)>
        ensures sides { result ≡ slice_get self.now.sent frame }
        ensures some { IfSome result (λ side. side.0 < side.1) }
    {
        if frame >= self.begun {
            return None;
        }
        let Piece { from, length } = self.frames[frame];
        Some((from, from + (HEADERS + u64::from(length))))
    }

    /// How many pieces of frames begin before a place.
    pub fn begun_before(&self, place: u64) -> usize
        ensures { result ≡ begun_before place self.now.sent }
    {
        self.frames[..self.begun].partition_point(|piece| piece.from < place)
    }

    /// Whether a piece begins at a place.
    pub fn is_piece(&self, place: u64) -> bool
        ensures { (stream : Stream) → self.now ≡ ruler_of stream →
            result ≡ is_piece_at stream.pieces place }
    {
        if place >= self.end {
            return false;
        }
        let begun = self.begun_by(place);
        if begun == 0 {
            return is_idle(0, place);
        }
        match self.sides(begun - 1) {
            Some(sides) => begins(sides, place),
            None => false,
        }
    }

    /// How many pieces of frames begin at a place or before.
    fn begun_by(&self, place: u64) -> usize
        ensures { IsBegun self.now.sent place result }
    {
        self.frames[..self.begun].partition_point(|piece| piece.from <= place)
    }
}

/// Whether a piece begins at a place, where the last frame before it has these sides.
fn begins(sides: (u64, u64), place: u64) -> bool
    ensures { result ≡ (place == sides.0 || is_fourth sides.1 place) }
{
    let (from, to) = sides;
    place == from || is_idle(to, place)
}

/// Whether an idle begins at a place behind a frame that ends at another.
fn is_idle(end: u64, place: u64) -> bool
    ensures { result ≡ is_fourth end place }
{
    place >= end && (place - end) % IDLE == 0
}
