//! Frames that are counted on their way.

ghost use Rattle.std.specs.Prelude.{◌≡◌};

use law_model::FrameOut;

/// Hands frames on, and counts them.
#[derive(Drop)]
pub(super) struct CountedOut<'a, F> {
    /// Where they go.
    pub(super) out: &'a mut F,
    /// How many were counted.
    pub(super) got: u64,
}

impl<'a, F: FrameOut> CountedOut<'a, F> {
    /// Hands frames on to `out`, after `got` that were counted.
    pub(super) fn new(out: &'a mut F, got: u64) -> CountedOut<'a, F>
        ensures same_reference { result.out.ghost_name ≡ out.entry.ghost_name }
        ensures same { result.out.now ≡ out.old }
        ensures got { result.got ≡ got }
    {
        CountedOut { out, got }
    }
}

impl<'a, F: FrameOut> FrameOut for CountedOut<'a, F> {
    ghost use Rattle.std.specs.Prelude.{◌≡◌};
    ghost use Rattle.walk_engine.specs.walk_core.FramesCounted.{IsCounted};

    ghost stands_for = { λ counted start frames. (counted.out.ghost_name ≡ start.name)
        × IsCounted (F.stands_for counted.out.now) counted.got start.octets start.faults frames };

    fn frame(&mut self, frame: &[u8]) {
        self.out.frame(frame);
        self.got = self.got.saturating_add(1);
    }
}
