//! Words as `clap` reads them.
ghost use Rattle.std.specs.Prelude.{◌≡◌, IfOk, IfErr, true, map, string_bytes};
ghost use Rattle.clap.specs.Words.{app_of, kind_of, rows_of, found_of};
ghost use Rattle.command_words.specs.CommandLineWords.{are_plain};
ghost use Rattle.command_words.specs.Parser.{words_app, words_in};

use clap::error::ErrorKind;
use clap::{Arg, ArgAction, ArgMatches, Command, Error};
use std::alloc::{AllocError, Global};

/// A parser of one word or more, without a name before them and without help.
pub(crate) fn words_parser<'a>(alloc: Global) -> Result<Command<'a>, AllocError>
    ensures { IfOk result (λ parser. app_of parser ≡ words_app) }
{
    Command::new(alloc, "vcat")
        .no_binary_name(true)
        .disable_help_flag(true)
        .disable_help_subcommand(true)
        .arg(
            Arg::new(alloc, "word")
                .required(true)
                .action(ArgAction::Append),
        )
}

/// What the parser makes of plain words.
pub(crate) fn parse<'a>(parser: Command<'a>, words: &'a [String]) -> Result<ArgMatches<'a>, Error>
    requires parser { app_of parser ≡ words_app }
    requires plain { are_plain (map string_bytes words.now) ≡ true }
    ensures read { IfOk result (λ matches. words_in (rows_of (found_of matches))
        ≡ map string_bytes words.entry.now) }
    ensures fails { IfErr result (λ error. kind_of error ≡ ErrorKind.OutOfMemory) }
{
    parser.try_get_matches_from(words)
}
