//! `channels`: frames of clients share a stream by channel numbers, octets of it don't arrive, and the frames that get
//! through are written.
ghost use Rattle.std.specs.Prelude.{◌≡◌, ℕ, List, Ok, None, map, string_bytes};
ghost use Rattle.command_parts.specs.Task.{reads};
ghost use Rattle.command_parts.specs.Ends.{lent};
ghost use Rattle.command_parts.specs.Gives.{GivesAlone};
ghost use Rattle.gfp_channels.specs.declared.channel_link.channel_draft.ChannelPlan.{ChannelPlan};
ghost use Rattle.gfp_channels.specs.channel_link.Plan.{plan_of};
ghost use Rattle.command_rooms.specs.commands.Channels.{channels_words, channels_answer, TellsPlan};

use crate::walk_command::WalkCommand;
use command_parts::{Ran, Stop, faulty_line, read_input};
use gfp_channels::channel_link::{ChannelRun, read_plan};
use octet_io::{ByteSink, ByteSource};
use std::alloc::Global;
use text_lines::TextFault;
use walk_engine::walk_core::Walk;

/// The words `channels`.
pub fn words(words: &[String]) -> Option<WalkCommand>
    ensures { result ≡ channels_words (map string_bytes words.now) }
{
    match words {
        [word] if word.as_str() == "channels" => Some(WalkCommand::Channels),
        _ => None,
    }
}

/// Reads channels, frames and cuts, and writes the frames that get through and those that are refused.
pub fn channels<S: ByteSource, K: ByteSink>(
    alloc: Global,
    script: &mut S,
    out: &mut K,
) -> Result<Ran<Option<Walk>>, Stop>
    ensures { GivesAlone (lent S.left S.faults script.old script.new)
        (lent K.written K.faults out.old out.new)
        (reads channels_answer) (λ walk. walk ≡ None) result }
{
    let text = match read_input(alloc, script) {
        Ok(text) => text,
        Err(stop) => return Err(stop),
    };
    let plan = match read_plan(alloc, text.as_slice()) {
        Ok(plan) => plan,
        Err(TextFault::Memory) => return Err(Stop::Memory),
        Err(TextFault::Line { number, fault }) => {
            return Err(Stop::Refused(faulty_line(number, fault)));
        }
    };
    let run = match ChannelRun::new(alloc, &plan) {
        Ok(run) => run,
        Err(_) => return Err(Stop::Memory),
    };
    let written = run.write(&plan, out);
    Ok(Ran {
        made: None,
        written,
    })
}

/// Of each text that says a plan, what is written are got lines, of each channel just those of the frames that are
/// carried or kept, the lines of refused frames, and the counts.
pub fn channels_law()
    ensures { (text : List ℕ) (plan : ChannelPlan) → plan_of text ≡ Ok plan → TellsPlan text plan }
{}
