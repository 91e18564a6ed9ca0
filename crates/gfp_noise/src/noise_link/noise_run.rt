//! The stream of frames is received with its flips, and what comes of it is written.
ghost use Rattle.std.specs.Prelude.{◌≡◌, IfOk, OnOk, OnErr};
ghost use Rattle.law_model.specs.Common.{Appends, AppendsPart};
ghost use Rattle.gfp_noise.specs.noise_link.Noise.{IsNoise};
ghost use Rattle.gfp_noise.specs.noise_link.NoiseReportText.{received, noise_text};

use crate::gfp_fcs::FcsDelineator;
use crate::noise_link::noise_draft::Noise;
use crate::noise_link::noise_end_text::{END_ROOM, NoiseCounts, end_line};
use crate::noise_link::noise_reception::{Reception, receive_all};
use crate::noise_link::noisy_stream::{stream_of, turn_all};
use octet_io::{ByteSink, Failed, take_back};
use std::alloc::{AllocError, Global};
use std::marker::Model;
use text_got::GotLines;

/// A stream with its flips, and a receiver to which nothing has come of it.
#[derive(Drop)]
pub struct NoiseRun {
    octets: Vec<u8>,
    receiver: FcsDelineator,
}

impl Model for NoiseRun {
    ghost use Rattle.std.specs.Prelude.{ℕ, List, []};
    ghost use Rattle.gfp_noise.specs.gfp_fcs.Delineator as delineator;

    ghost Value = { List ℕ };

    ghost view = { λ run. run.octets.items };

    ghost invariant = { λ run. delineator.FcsReceiverStands run.receiver [] };
}

impl NoiseRun {
    /// Makes the stream of the frames, turns its bits over, and makes a receiver.
    #[tactic(auto, unfolding(crate::specs::noise_link::NoiseReportText::received))]
    pub fn new(alloc: Global, noise: &Noise) -> Result<NoiseRun, AllocError>
        requires { IsNoise noise.now }
        ensures { IfOk result (λ run. run ≡ received noise.now) }
    {
        let mut octets = stream_of(alloc, noise.frames.0.as_slice())?;
        turn_all(octets.as_mut_slice(), noise.flips.0.as_slice());
        Ok(NoiseRun {
            octets,
            receiver: FcsDelineator::new(alloc)?,
        })
    }

    /// Receives the stream octet by octet, and writes the line of each frame that is delivered, and last the
    /// counts. The noise is the one of which the run was made. No call takes memory.
    pub fn write<K: ByteSink>(self, noise: &Noise, out: &mut K) -> Result<(), Failed>
        requires { self ≡ received noise.now }
        ensures ok { OnOk result
            (Appends K.written K.faults out.old out.new (noise_text noise.now)) }
        ensures err { OnErr result
            (AppendsPart K.written K.faults out.old out.new (noise_text noise.now)) }
    {
        let NoiseRun { octets, receiver } = self;
        let mut reception = Reception {
            delineator: receiver,
            lines: GotLines::new(out),
            got: 0,
            dropped: 0,
        };
        receive_all(&mut reception, octets.as_slice());
        let Reception {
            delineator: _,
            mut lines,
            got,
            dropped,
        } = reception;
        let mut line = [0u8; END_ROOM];
        let end = end_line(
            NoiseCounts {
                frames: noise.frames.count(),
                flips: noise.flips.count(),
                got,
                dropped,
            },
            &mut line,
        );
        lines.line(&line[..end]);
        let (back, end) = lines.finish();
        take_back(back);
        end
    }
}
