//! The words of the commands of both ways, whose rooms are those of `command_walk`.
ghost use Rattle.std.specs.Prelude.{◌≡◌, map, string_bytes};
ghost use Rattle.command_rooms.specs.commands.WordsOfPairs.{live_pair_words, one_way_words, pair_words};

use crate::walk_command::WalkCommand;
use law_pair::Way;
use walk_live::Asked;

/// The words `pair`.
pub fn pair_words(words: &[String]) -> Option<WalkCommand>
    ensures { result ≡ pair_words (map string_bytes words.now) }
{
    match words {
        [word] if word.as_str() == "pair" => Some(WalkCommand::Pair),
        _ => None,
    }
}

/// The words `pair` and `there`, or `pair` and `back`.
pub fn one_way_words(words: &[String]) -> Option<WalkCommand>
    ensures { result ≡ one_way_words (map string_bytes words.now) }
{
    match words {
        [word, way] if word.as_str() == "pair" && way.as_str() == "there" => {
            Some(WalkCommand::OneWay { way: Way::There })
        }
        [word, way] if word.as_str() == "pair" && way.as_str() == "back" => {
            Some(WalkCommand::OneWay { way: Way::Back })
        }
        _ => None,
    }
}

/// The words `live` and `pair`, with `trace` or `told` behind them or nothing.
pub fn live_pair_words(words: &[String]) -> Option<WalkCommand>
    ensures { result ≡ live_pair_words (map string_bytes words.now) }
{
    match words {
        [word, pair] if word.as_str() == "live" && pair.as_str() == "pair" => {
            Some(WalkCommand::LivePair {
                tells: Asked::Nothing,
            })
        }
        [word, pair, what]
            if word.as_str() == "live" && pair.as_str() == "pair" && what.as_str() == "trace" => {
            Some(WalkCommand::LivePair {
                tells: Asked::Steps,
            })
        }
        [word, pair, what]
            if word.as_str() == "live" && pair.as_str() == "pair" && what.as_str() == "told" => {
            Some(WalkCommand::LivePair {
                tells: Asked::Members,
            })
        }
        _ => None,
    }
}
