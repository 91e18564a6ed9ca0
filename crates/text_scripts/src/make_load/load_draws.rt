//! What a load draws that takes memory: octets, and the delays of lines.
ghost use Rattle.std.specs.Prelude.{◌≡◌, IfOk, OnOk};
ghost use Rattle.law_rates.specs.Draws.{draws, after_draws};

use law_model::{Delays, Octets};
use law_rates::Draws;
use std::alloc::{AllocError, Global};

/// A number of octets.
#[tactic(auto, using(law_rates::proofs::DrawLaws::draws_next, law_rates::proofs::DrawLaws::after_next, law_rates::proofs::DrawLaws::draws_end, law_rates::proofs::DrawLaws::after_end))]
pub(super) fn draw_octets(
    alloc: Global,
    from: &mut Draws,
    count: usize,
) -> Result<Octets, AllocError>
    ensures octets { IfOk result (λ octets. octets ≡ draws count 256 from.old.state) }
    ensures state { OnOk result (from.new.state ≡ after_draws count from.old.state) }
{
    let mut octets = Vec::with_capacity(alloc, count)?;
    for _ in 0..count {
        octets.push(from.below(256) as u8)?;
    }
    Ok(Octets(octets))
}

/// The delays of a number of lines, in frames, up to 40.
#[tactic(auto, using(law_rates::proofs::DrawLaws::draws_next, law_rates::proofs::DrawLaws::after_next, law_rates::proofs::DrawLaws::draws_end, law_rates::proofs::DrawLaws::after_end))]
pub(super) fn draw_delays(alloc: Global, from: &mut Draws, lines: u8) -> Result<Delays, AllocError>
    ensures delays { IfOk result (λ delays. delays ≡ draws lines 41 from.old.state) }
    ensures state { OnOk result (from.new.state ≡ after_draws lines from.old.state) }
{
    let mut delays = Vec::with_capacity(alloc, usize::from(lines))?;
    for _ in 0..lines {
        delays.push(from.below(41) as u16)?;
    }
    Ok(Delays(delays))
}
