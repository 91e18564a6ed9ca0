//! Where frames go.

ghost use Rattle.std.specs.Prelude.{ℕ, ◌≤◌, List, [], ◌∷◌, ◌++◌, length};
ghost use Rattle.octet_io.specs.Start.{Start};
ghost use Rattle.law_model.specs.Limits.{longest_frame};

/// Takes the frames that come through, in order.
pub trait FrameOut {
    /// It stands for the frames that it was given, after what had been given before.
    ghost stands_for: { Self → Start → List (List ℕ) → Type 0 };

    /// Takes the next frame, from destination address to FCS, of at most 9,600 octets.
    fn frame(&mut self, frame: &[u8])
        requires { length frame.now ≤ longest_frame }
        ensures { (start : Start) (frames : List (List ℕ)) → stands_for self.old start frames →
            stands_for self.new start (frames ++ frame.now ∷ []) };
}

/// Takes frames, and does nothing with them.
#[derive(Drop)]
pub struct Silent;

impl FrameOut for Silent {
    ghost stands_for = { λ silent start frames. Unit {0} };

    fn frame(&mut self, _frame: &[u8]) {}
}
