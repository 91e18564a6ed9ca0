//! Whether words may be a command, which is asked before `clap` sees them: it knows options, help and signs,
//! which no command has.
ghost use Rattle.std.specs.Prelude.{◌≡◌, map, string_bytes};
ghost use Rattle.command_words.specs.CommandLineWords.{is_plain, are_plain};

/// The most words that a command has.
const MOST: usize = 6;

fn starts_plain(word: &[u8]) -> bool
    ensures { result ≡ is_plain word.now }
{
    match word {
        [first, ..] => *first != b'-',
        [] => false,
    }
}

/// Whether there are one to six words, and none of them is empty or begins with a dash.
pub(crate) fn is_plain_line(words: &[String]) -> bool
    ensures { result ≡ are_plain (map string_bytes words.now) }
{
    if words.is_empty() || words.len() > MOST {
        return false;
    }
    for word in words {
        if !starts_plain(word.as_bytes()) {
            return false;
        }
    }
    true
}
