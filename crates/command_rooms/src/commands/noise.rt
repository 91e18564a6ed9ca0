//! `noise`: frames with an FCS are sent, bits of their stream are turned over, and the frames that get
//! through are written.
ghost use Rattle.std.specs.Prelude.{◌≡◌, ℕ, List, Ok, None, map, string_bytes};
ghost use Rattle.command_parts.specs.Task.{reads, writes};
ghost use Rattle.command_parts.specs.Ends.{lent};
ghost use Rattle.command_parts.specs.Gives.{GivesAlone};
ghost use Rattle.gfp_noise.specs.declared.noise_link.noise_draft.Noise.{Noise};
ghost use Rattle.gfp_noise.specs.noise_link.Noise.{noise_of};
ghost use Rattle.gfp_noise.specs.noise_link.NoiseReportText.{AreSingle, untouched_text};
ghost use Rattle.command_rooms.specs.commands.Noise.{noise_words, noise_answer};

use crate::walk_command::WalkCommand;
use command_parts::{Ran, Stop, faulty_line, read_input};
use gfp_noise::noise_link::{NoiseRun, read_noise};
use octet_io::{ByteSink, ByteSource};
use std::alloc::Global;
use text_lines::TextFault;
use walk_engine::walk_core::Walk;

/// The words `noise`.
pub fn words(words: &[String]) -> Option<WalkCommand>
    ensures { result ≡ noise_words (map string_bytes words.now) }
{
    match words {
        [word] if word.as_str() == "noise" => Some(WalkCommand::Noise),
        _ => None,
    }
}

/// Reads frames and flips, and writes the frames that get through.
pub fn noise<S: ByteSource, K: ByteSink>(
    alloc: Global,
    script: &mut S,
    out: &mut K,
) -> Result<Ran<Option<Walk>>, Stop>
    ensures { GivesAlone (lent S.left S.faults script.old script.new)
        (lent K.written K.faults out.old out.new)
        (reads noise_answer) (λ walk. walk ≡ None) result }
{
    let text = match read_input(alloc, script) {
        Ok(text) => text,
        Err(stop) => return Err(stop),
    };
    let noise = match read_noise(alloc, text.as_slice()) {
        Ok(noise) => noise,
        Err(TextFault::Memory) => return Err(Stop::Memory),
        Err(TextFault::Line { number, fault }) => {
            return Err(Stop::Refused(faulty_line(number, fault)));
        }
    };
    let run = match NoiseRun::new(alloc, &noise) {
        Ok(run) => run,
        Err(_) => return Err(Stop::Memory),
    };
    let written = run.write(&noise, out);
    Ok(Ran {
        made: None,
        written,
    })
}

/// Of each text that says frames and flips which are single, what is written is a line for each frame whose area
/// and the 43 area bits before it have no flip, in order, and the counts.
pub fn noise_law()
    ensures { (text : List ℕ) (noise : Noise) → noise_of text ≡ Ok noise → AreSingle noise →
        noise_answer text ≡ writes (untouched_text noise) }
{}
