//! The command that words are.
ghost use Rattle.std.specs.Prelude.{◌≡◌, ◌↔◌, IfOk, IsErrOf, IsNone, Some, map, option_map, string_bytes, codes};
ghost use Rattle.clap.specs.Words.{all_of, found_of, rows_of};
ghost use Rattle.command_words.specs.CommandLineWords.{taken_as};
ghost use Rattle.command_words.specs.Parser.{words_in};

use crate::clap_parser::{parse, words_parser};
use crate::plain_words::is_plain_line;
use clap::ArgMatches;
use std::alloc::{AllocError, Global};
use thiserror::Error;

/// Why words give no command.
#[derive(Clone, Copy, Debug, PartialEq, Eq, Error)]
pub enum WordFault {
    /// They are none of the program's.
    #[error("usage")]
    Usage,
    /// Memory ran out.
    #[error("memory")]
    Memory,
}

/// What a program is told to do.
pub trait FromWords: Copy {
    ghost use Rattle.std.specs.Prelude.{ℕ, List, Option, ◌≡◌, map, string_bytes};

    /// The command that words are, where they are one.
    ghost named: { List (List ℕ) → Option Self };

    /// The command that words are, where they are one. Words that are no command for other reasons may be given too.
    fn from_words(words: &[String]) -> Option<Self>
        ensures { result ≡ named (map string_bytes words.now) };
}

/// The words that the matches say.
fn values<'m, 'a>(matches: &'m ArgMatches<'a>) -> Option<&'m [&'a str]>
    ensures { option_map (λ values. map (λ value. value.now) values.now) result
        ≡ all_of (codes "word") (rows_of (found_of matches.now)) }
{
    matches.get_strs("word")
}

/// The words that the matches say, each in memory of its own.
fn words_of(alloc: Global, matches: &ArgMatches<'_>) -> Result<Vec<String>, AllocError>
    ensures { IfOk result (λ words. map string_bytes words.items
        ≡ words_in (rows_of (found_of matches.now))) }
{
    let mut words = Vec::new(alloc);
    if let Some(values) = values(matches) {
        for value in values {
            words.push(String::from_str(alloc, value)?)?;
        }
    }
    Ok(words)
}

/// The command of a program that the words after its name are. They are none where there are more than six of
/// them, or where one is empty or begins with a dash; else the program says which they are.
///
/// # Errors
/// `Usage` exactly where they are no command, and `Memory` where memory runs out over words that are one.
pub fn read_words<C: FromWords>(alloc: Global, words: &[String]) -> Result<C, WordFault>
    ensures command { IfOk result (λ command.
        taken_as C.named (map string_bytes words.now) ≡ Some command) }
    ensures usage { IsErrOf result WordFault.Usage
        ↔ IsNone (taken_as C.named (map string_bytes words.now)) }
{
    if !is_plain_line(words) || C::from_words(words).is_none() {
        return Err(WordFault::Usage);
    }
    let Ok(parser) = words_parser(alloc) else {
        return Err(WordFault::Memory);
    };
    let Ok(matches) = parse(parser, words) else {
        return Err(WordFault::Memory);
    };
    let Ok(read) = words_of(alloc, &matches) else {
        return Err(WordFault::Memory);
    };
    C::from_words(read.as_slice()).ok_or(WordFault::Usage)
}
