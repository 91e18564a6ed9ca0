//! What a noise's text says, and what its lines so far say.
ghost use Rattle.std.specs.Prelude.{◌≡◌, length};

use gfp_model::fcs_model::Flip;
use law_model::Octets;
use std::marker::Model;

/// Frames, in the order in which they are sent.
#[derive(Drop)]
pub struct FrameList(pub Vec<Octets>);

impl Model for FrameList {
    ghost use Rattle.std.specs.Prelude.{ℕ, List};

    ghost Value = { List (List ℕ) };

    ghost view = { λ frames. frames.0.items };
}

impl FrameList {
    /// How many there are.
    pub fn count(&self) -> u64
        ensures { result ≡ length self.now }
    {
        self.0.len() as u64
    }
}

/// Bits of a stream that are turned over.
#[derive(Drop)]
pub struct FlipList(pub Vec<Flip>);

impl Model for FlipList {
    ghost use Rattle.std.specs.Prelude.{List};
    ghost use Rattle.gfp_model.specs.declared.fcs_model.Flip.{Flip};

    ghost Value = { List Flip };

    ghost view = { λ flips. flips.0.items };
}

impl FlipList {
    /// How many there are.
    pub fn count(&self) -> u64
        ensures { result ≡ length self.now }
    {
        self.0.len() as u64
    }
}

/// Frames with an FCS that are sent one after another, and the bits of their stream that are turned over on the way.
#[derive(Drop)]
pub struct Noise {
    /// The frames, each of 64 to 9,600 octets.
    pub frames: FrameList,
    /// The flips, by rising places.
    pub flips: FlipList,
}

/// What the lines so far say.
#[derive(Drop)]
pub(super) struct NoiseDraft {
    /// How many octets the stream has.
    pub size: u64,
    /// The first bit of the stream that the next flip may turn over. It is 0 where there was no flip yet.
    pub least: u64,
    /// The frames.
    pub frames: FrameList,
    /// The flips.
    pub flips: FlipList,
}
