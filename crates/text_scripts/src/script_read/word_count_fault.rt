//! The number of words behind a keyword.
ghost use Rattle.std.specs.Prelude.{◌≡◌, length};
ghost use Rattle.text_lines.specs.WordsOfLine.{words};

use crate::script_read::script_fault::LineFault;
use crate::script_read::script_keyword::Keyword;
use text_lines::count_words;

/// What is wrong where other than so many words follow a keyword.
pub(super) fn count_fault(keyword: Keyword, takes: u64, rest: &[u8]) -> LineFault
    ensures { result ≡ LineFault.Count keyword takes (length (words rest.now)) }
{
    LineFault::Count {
        keyword,
        takes,
        follow: count_words(rest) as u64,
    }
}
