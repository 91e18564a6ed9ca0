//! `service`: a script's walk is made, and what it was worth to its client is written: the members that carried
//! payload, the outages with what they cost, and throughput, capacity, queue and delay by stretches of ticks.
ghost use Rattle.std.specs.Prelude.{◌≡◌, ◌≤◌, ℕ, List, length, map, string_bytes};
ghost use Rattle.law_model.specs.session.ValidScript.{IsWithin};
ghost use Rattle.command_words.specs.CommandLineWords.{number_in};
ghost use Rattle.command_parts.specs.Task.{reads, writes};
ghost use Rattle.command_parts.specs.Ends.{lent};
ghost use Rattle.command_parts.specs.Gives.{GivesAlone};
ghost use Rattle.command_rooms.specs.commands.Service.{interval_of, service_words, service_answer, Agrees};
ghost use Rattle.command_rooms.specs.HandedWalk.{HandsScript};
ghost use Rattle.law_model.specs.Common.{most_ticks};
ghost use Rattle.law_model.specs.Limits.{longest_input};

use crate::turns::fate_turns::see_script;
use crate::walk_command::WalkCommand;
use command_parts::{Ran, Stop};
use command_words::number_within;
use fate_service::{survey_walk, write_service};
use law_model::MOST_TICKS;
use octet_io::{ByteSink, ByteSource};
use std::alloc::{AllocError, Global};
use walk_engine::walk_core::Walk;

/// The command by the number of ticks of a stretch.
fn interval_of(word: &[u8]) -> Option<WalkCommand>
    ensures { result ≡ interval_of (number_in 1 most_ticks word.now) }
{
    let interval = number_within(word, 1, MOST_TICKS)? as u32;
    Some(WalkCommand::Service { interval })
}

/// The words `service INTERVAL`.
pub fn words(words: &[String]) -> Option<WalkCommand>
    ensures { result ≡ service_words (map string_bytes words.now) }
{
    match words {
        [word, interval] if word.as_str() == "service" => interval_of(interval.as_bytes()),
        _ => None,
    }
}

/// Reads a script, makes its walk and writes what it was worth to its client, by stretches of 1 to
/// 100,000,000 ticks. All memory is taken before the first octet is written.
pub fn service<S: ByteSource, K: ByteSink>(
    alloc: Global,
    interval: u32,
    script: &mut S,
    out: &mut K,
) -> Result<Ran<Option<Walk>>, Stop>
    requires interval { IsWithin 1 most_ticks interval }
    ensures { GivesAlone (lent S.left S.faults script.old script.new)
        (lent K.written K.faults out.old out.new)
        (reads (service_answer interval))
        (HandsScript (lent S.left S.faults script.old script.new)) result }
{
    let watched = match see_script(alloc, script) {
        Ok(watched) => watched,
        Err(stop) => return Err(stop),
    };
    let found = match survey_walk(alloc, &watched.walk, &watched.seen) {
        Ok(found) => found,
        Err(AllocError) => return Err(Stop::Memory),
    };
    let written = write_service(&watched.walk, &watched.seen, &found, interval, out);
    Ok(Ran {
        made: Some(watched.walk),
        written,
    })
}

/// Of each text of at most 67,108,864 octets: what `service` writes of it, whatever the interval, agrees with what
/// `fates` and `walk` write. The numbers of its last line make the last line of `fates`; and if that ends in
/// `starts true`, as many frames are got, with as many octets, as `walk` writes got lines of.
pub fn agree_law()
    ensures { (interval : ℕ) (text service : List ℕ) → length text ≤ longest_input →
        service_answer interval text ≡ writes service → Agrees text service }
{}
