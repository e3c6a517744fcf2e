//! The words of a command line as the values of one positional argument.
ghost use Rattle.std.specs.Prelude.{◌≡◌, IfOk, IfErr, IsTrue, Some, codes, option_map};
ghost use Rattle.std.specs.List.{list_all};
ghost use Rattle.clap.specs.Words.{found_of, kind_of};
ghost use Rattle.clap.specs.Matches.{matched_of, raw_values};
ghost use Rattle.plat_cmd.specs.Arguments.{texts_of, is_plain, are_plain};

use clap::error::ErrorKind;
use clap::{Arg, ArgMatches, Command, Error};
use std::alloc::Global;

/// Whether a word is neither empty nor begins with a hyphen.
fn is_plain(word: &str) -> bool
    ensures { result ≡ is_plain word.now }
{
    match word.as_bytes().first() {
        Some(first) => *first != b'-',
        None => false,
    }
}

/// Whether no word is empty or begins with a hyphen.
fn all_plain(words: &[&str]) -> bool
    ensures { result ≡ list_all is_plain (texts_of words.now) }
{
    for word in words {
        if !is_plain(word) {
            return false;
        }
    }
    true
}

/// Whether these are one to three words that are neither empty nor begin with a hyphen.
pub fn are_plain(words: &[&str]) -> bool
    ensures { result ≡ are_plain (texts_of words.now) }
{
    (1..=3).contains(&words.len()) && all_plain(words)
}

/// Reads plain words as the values of the argument `words`. It fails only for want of memory.
pub fn arguments<'a>(alloc: Global, words: &'a [&'a str]) -> Result<ArgMatches<'a>, Error>
    requires { IsTrue (are_plain (texts_of words.now)) }
    ensures values { IfOk result (λ matches.
        option_map raw_values (matched_of (found_of matches) (codes "words"))
        ≡ Some (texts_of words.entry.now)) }
    ensures memory { IfErr result (λ error. kind_of error ≡ ErrorKind.OutOfMemory) }
{
    let values = Arg::new(alloc, "words").num_args(1..=3);
    let command = Command::new(alloc, "platinum")
        .no_binary_name(true)
        .disable_help_flag(true)
        .arg(values)?;
    command.try_get_matches_from(words)
}
