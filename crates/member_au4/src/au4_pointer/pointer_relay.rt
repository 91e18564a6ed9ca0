//! A frame from a source to a sink.

ghost use Rattle.std.specs.Prelude.{◌≡◌, ℕ, List, [], ◌∷◌, ◌++◌, OnOk, OnErr};
ghost use Rattle.std.specs.Result.{result_err};
ghost use Rattle.law_model.specs.Common.{Start};
ghost use Rattle.member_au4.specs.au4_pointer.PointerWord.{fault_after};
ghost use Rattle.member_au4.specs.au4_pointer.SourceToSink.{Carries, IsLinked};

use crate::au4_pointer::{
    Action, AuFrame, PointerFault, PointerSink, PointerSource, VcFeed, VcOut,
};

/// Sends the next frame and takes it, or refuses the action. The sink refuses no frame.
pub fn relay<V: VcFeed, O: VcOut>(
    source: &mut PointerSource,
    sink: &mut PointerSink,
    a: Action,
    feed: &mut V,
    frame: &mut AuFrame,
    out: &mut O,
) -> Result<(), PointerFault>
    requires { IsLinked (λ f. V.stands_for f) (λ o. O.stands_for o) source.old sink.old feed.old out.old }
    ensures cause { (behind to : Start) (start : ℕ) (actions : List Action) (asked : List (List ℕ)) →
        Carries (λ f. V.stands_for f) (λ o. O.stands_for o) source.old sink.old feed.old out.old
        behind to start actions asked →
        result_err result ≡ fault_after actions a }
    ensures unchanged { OnErr result ((source.new ≡ source.old) × (sink.new ≡ sink.old)
        × (feed.new ≡ feed.old) × (frame.new ≡ frame.old) × (out.new ≡ out.old)) }
    ensures carries { (behind to : Start) (start : ℕ) (actions : List Action) (asked : List (List ℕ)) →
        Carries (λ f. V.stands_for f) (λ o. O.stands_for o) source.old sink.old feed.old out.old
        behind to start actions asked →
        OnOk result ((vcs : List (List ℕ)) ×
        Carries (λ f. V.stands_for f) (λ o. O.stands_for o) source.new sink.new feed.new out.new
        behind to start (actions ++ a ∷ []) (asked ++ vcs)) }
{
    match source.send(a, feed, frame) {
        Err(fault) => Err(fault),
        Ok(()) => match sink.take(frame, out) {
            Ok(()) => Ok(()),
            Err(_) => unreachable!(),
        },
    }
}
