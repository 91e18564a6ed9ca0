//! What a line of a noise's text says behind its keyword.
ghost use Rattle.std.specs.Prelude.{◌≡◌, ◌≤◌, ◌<◌, IfOk, IfErr, None, Some};
ghost use Rattle.text_lines.specs.WordsOfLine.{words};
ghost use Rattle.text_lines.specs.LineFaults.{IsLineStop};
ghost use Rattle.text_lines.specs.LanguageTable.{rest_fault};
ghost use Rattle.gfp_noise.specs.noise_link.NoiseTextLines.{noise_table, flip_said, frame_said};

use crate::noise_link::noise_draft::NoiseDraft;
use crate::noise_link::noise_keyword::NoiseKeyword;
use crate::noise_link::noise_text_fault::NotRising;
use gfp_model::fcs_model::Flip;
use law_model::{LONGEST_FRAME, Octets};
use std::alloc::Global;
use text_lines::{
    LineFault, LineStop, count_fault, number_within, octets_within, one_word, two_words,
};

/// The octets of a frame.
pub(super) fn read_frame(
    alloc: Global,
    draft: &NoiseDraft,
    rest: &[u8],
) -> Result<Octets, LineStop<NoiseKeyword, NotRising>>
    ensures ok { IfOk result (λ frame.
        (rest_fault noise_table draft.now NoiseKeyword.Frame (words rest.now) ≡ None)
        × (frame ≡ frame_said (words rest.now))) }
    ensures err { IfErr result (λ stop.
        IsLineStop stop (rest_fault noise_table draft.now NoiseKeyword.Frame (words rest.now))) }
{
    let Some(digits) = one_word(rest) else {
        return Err(LineStop::Fault(count_fault(NoiseKeyword::Frame, 1, rest)));
    };
    let octets = octets_within(alloc, digits, 2, 64, LONGEST_FRAME)?;
    Ok(Octets(octets))
}

/// The place and the bit of a flip.
pub(super) fn read_flip(
    draft: &NoiseDraft,
    rest: &[u8],
) -> Result<Flip, LineFault<NoiseKeyword, NotRising>>
    requires { draft.now.size ≤ 1000000000000 }
    ensures ok { IfOk result (λ flip.
        (rest_fault noise_table draft.now NoiseKeyword.Flip (words rest.now) ≡ None)
        × (flip ≡ flip_said (words rest.now))) }
    ensures small { IfOk result (λ flip. (flip.place ≤ draft.now.size) × (flip.bit ≤ 7)) }
    ensures err { IfErr result (λ fault.
        rest_fault noise_table draft.now NoiseKeyword.Flip (words rest.now) ≡ Some fault) }
{
    let Some((place, bit)) = two_words(rest) else {
        return Err(count_fault(NoiseKeyword::Flip, 2, rest));
    };
    let place = number_within(place, 2, 0, draft.size.saturating_sub(1))?;
    let bit = number_within(bit, 3, 0, 7)?;
    if 8 * place + bit < draft.least {
        let last = draft.least - 1;
        return Err(LineFault::Own(NotRising {
            place: last / 8,
            bit: last % 8,
        }));
    }
    Ok(Flip {
        place,
        bit: bit as u8,
    })
}
