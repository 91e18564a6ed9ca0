//! The reader of a whole text.
ghost use Rattle.std.specs.Prelude.{◌≡◌, ◌≤◌, length, IfOk, IfErr, Ok};
ghost use Rattle.text_lines.specs.LineFaults.{IsTextFault};
ghost use Rattle.law_model.specs.Limits.{longest_input};
ghost use Rattle.gfp_noise.specs.noise_link.Noise.{noise_of, IsNoise};

use crate::noise_link::noise_draft::{FlipList, FrameList, Noise, NoiseDraft};
use crate::noise_link::noise_keyword::NoiseKeyword;
use crate::noise_link::noise_text_fault::NotRising;
use crate::noise_link::read_noise_line::{read_flip, read_frame};
use std::alloc::Global;
use text_lines::{LineStop, LineTable, TextFault, read_text};

/// Never reached by a text of at most 67,108,864 octets; it bounds the sums below.
const LONGEST_STREAM: u64 = 1_000_000_000_000;

impl LineTable for NoiseDraft {
    ghost use Rattle.gfp_noise.specs.noise_link.NoiseTextLines.{noise_table};

    type Keyword = NoiseKeyword;

    type Own = NotRising;

    ghost table = { noise_table };

    fn at_start(alloc: Global) -> NoiseDraft {
        NoiseDraft {
            size: 8,
            least: 0,
            frames: FrameList(Vec::new(alloc)),
            flips: FlipList(Vec::new(alloc)),
        }
    }

    fn keyword(word: &[u8]) -> Option<NoiseKeyword> {
        NoiseKeyword::of(word)
    }

    fn place(keyword: NoiseKeyword) -> u64 {
        match keyword {
            NoiseKeyword::Frame => 0,
            NoiseKeyword::Flip => 1,
        }
    }

    fn must() -> u64 {
        0
    }

    fn awaited(_next: u64) -> NoiseKeyword {
        NoiseKeyword::Frame
    }

    fn add(
        &mut self,
        alloc: Global,
        keyword: NoiseKeyword,
        rest: &[u8],
    ) -> Result<(), LineStop<NoiseKeyword, NotRising>> {
        if self.size > LONGEST_STREAM {
            return Err(LineStop::Memory);
        }
        match keyword {
            NoiseKeyword::Frame => {
                let frame = read_frame(alloc, self, rest)?;
                self.size += frame.0.len() as u64 + 12;
                self.frames.0.push(frame)?;
            }
            NoiseKeyword::Flip => {
                let flip = read_flip(self, rest)?;
                self.least = 8 * flip.place + u64::from(flip.bit) + 1;
                self.flips.0.push(flip)?;
            }
        }
        Ok(())
    }
}

/// The frames and flips that a text of at most 67,108,864 octets says. Else its first fault: that of the
/// first faulty line. Want of memory may come in place of any answer.
pub fn read_noise(alloc: Global, text: &[u8]) -> Result<Noise, TextFault<NoiseKeyword, NotRising>>
    requires { length text.now ≤ longest_input }
    ensures noise { IfOk result (λ noise. noise_of text.now ≡ Ok noise) }
    ensures valid { IfOk result IsNoise }
    ensures fault { IfErr result (λ fault. IsTextFault (noise_of text.now) fault) }
{
    match read_text::<NoiseDraft>(alloc, text) {
        Ok(draft) => {
            let NoiseDraft {
                size: _,
                least: _,
                frames,
                flips,
            } = draft;
            Ok(Noise { frames, flips })
        }
        Err(fault) => Err(fault),
    }
}
