//! `stream`: the script lines of a client that sends at a rate are written.
ghost use Rattle.std.specs.Prelude.{◌≡◌, None, map, string_bytes};
ghost use Rattle.law_rates.specs.Limits.{most_mbits};
ghost use Rattle.law_rates.specs.Rates.{IsRate};
ghost use Rattle.command_words.specs.CommandLineWords.{number_in};
ghost use Rattle.command_parts.specs.Task.{makes};
ghost use Rattle.command_parts.specs.Ends.{lent, no_source};
ghost use Rattle.command_parts.specs.Gives.{GivesAlone};
ghost use Rattle.command_rooms.specs.commands.Stream.{sizes_in, with_size, ticks_of, rate_of, numbers_in};
ghost use Rattle.command_rooms.specs.commands.Stream.{stream_words, stream_answer};
ghost use Rattle.law_model.specs.Common.{shortest_frame, longest_frame, most_ticks};

use crate::walk_command::WalkCommand;
use command_parts::{Ran, Stop};
use command_words::number_within;
use law_model::{LONGEST_FRAME, MOST_TICKS};
use law_rates::{MOST_SIZES, Rate, Sizes};
use octet_io::ByteSink;
use text_lines::cut;
use text_scripts::rate_load::{is_too_long, write_lines};
use walk_engine::walk_core::Walk;

/// The most megabits a second.
const MOST_MBITS: u64 = 400_000;

/// The octets of the shortest frame.
const SHORTEST_FRAME: u64 = 64;

/// One size more, where a word is one and there is room for it.
fn with_size(mut sizes: Sizes, word: &[u8]) -> Option<Sizes>
    ensures { result ≡ with_size sizes (number_in shortest_frame longest_frame word.now) }
{
    let size = number_within(word, SHORTEST_FRAME, LONGEST_FRAME as u64)? as u16;
    if sizes.len() == MOST_SIZES {
        return None;
    }
    sizes.push(size);
    Some(sizes)
}

/// The sizes of a word.
fn sizes_of(word: &[u8]) -> Option<Sizes>
    ensures { result ≡ sizes_in word.now }
{
    let mut sizes = Sizes::new();
    let mut rest = word;
    while let Some((part, later)) = cut(rest, b',') {
        let Some(more) = with_size(sizes, part) else {
            return None;
        };
        sizes = more;
        rest = later;
    }
    with_size(sizes, rest)
}

/// The ticks of two words, the first of them before the second.
fn ticks_of(first: &[u8], end: &[u8]) -> Option<(u32, u32)>
    ensures { result
        ≡ ticks_of (number_in 0 most_ticks first.now) (number_in 0 most_ticks end.now) }
{
    let first = number_within(first, 0, MOST_TICKS)? as u32;
    let end = number_within(end, 0, MOST_TICKS)? as u32;
    if first < end {
        Some((first, end))
    } else {
        None
    }
}

/// The rate of three words and two ticks.
fn rate_of(
    sizes: &[u8],
    mbits: &[u8],
    ticks: Option<(u32, u32)>,
    number: &[u8],
) -> Option<WalkCommand>
    ensures { result ≡ rate_of (sizes_in sizes.now) (number_in 1 most_mbits mbits.now)
        ticks (number_in 0 18446744073709551615 number.now) }
{
    let sizes = sizes_of(sizes)?;
    let mbits = number_within(mbits, 1, MOST_MBITS)? as u32;
    let (first, end) = ticks?;
    let number = number_within(number, 0, u64::MAX)?;
    Some(WalkCommand::Stream(Rate {
        sizes,
        mbits,
        first,
        end,
        number,
    }))
}

/// The rate of five words.
fn numbers_in(words: &[String]) -> Option<WalkCommand>
    ensures { result ≡ numbers_in (map string_bytes words.now) }
{
    match words {
        [sizes, mbits, first, end, number] => {
            let ticks = ticks_of(first.as_bytes(), end.as_bytes());
            rate_of(sizes.as_bytes(), mbits.as_bytes(), ticks, number.as_bytes())
        }
        _ => None,
    }
}

/// The words `stream OCTETS MBITS FIRST END NUMBER`, of which OCTETS is one size or some with commas between.
pub fn words(words: &[String]) -> Option<WalkCommand>
    ensures { result ≡ stream_words (map string_bytes words.now) }
{
    match words {
        [word, numbers @ ..] if word.as_str() == "stream" => numbers_in(numbers),
        _ => None,
    }
}

/// Writes the lines of a rate, where they have at most 67,108,864 octets.
pub fn stream<K: ByteSink>(rate: &Rate, out: &mut K) -> Result<Ran<Option<Walk>>, Stop>
    requires { IsRate rate.now }
    ensures { GivesAlone no_source
        (lent K.written K.faults out.old out.new)
        (makes (stream_answer rate.now)) (λ walk. walk ≡ None) result }
{
    if is_too_long(rate) {
        return Err(Stop::TooLong);
    }
    let written = write_lines(rate, out);
    Ok(Ran {
        made: None,
        written,
    })
}
