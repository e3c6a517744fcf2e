//! The words of the command line.
ghost use Rattle.std.specs.Prelude.{◌≡◌, ◌⊎◌, IfOk, IfErr, Ok, Err};
ghost use Rattle.plat_cmd.specs.Arguments.{texts_of};
ghost use Rattle.plat_cmd.specs.Commands.{read_of, numbered_of, same_words};
ghost use Rattle.plat_cmd.specs.Works.{is_limited};
ghost use Rattle.plat_cmd.specs.declared.words.WordsFault.TheVariants as faults;

use crate::arguments::{are_plain, arguments};
use plat_text::read_u32;
use std::alloc::Global;

/// How finely a simulation interleaves its actors: by whole instructions, or by single operations on shared words.
#[derive(Clone, Copy, Debug, PartialEq, Eq)]
pub enum Grain {
    Coarse,
    Fine,
}

impl Grain {
    /// Whether a run ends at a limit of events.
    pub(crate) fn is_limited(self) -> bool
        ensures { result ≡ is_limited self }
    {
        match self {
            Grain::Coarse => false,
            Grain::Fine => true,
        }
    }
}

/// What a run writes: its report, or the text of its history.
#[derive(Clone, Copy, Debug, PartialEq, Eq)]
pub enum Output {
    Report,
    Trace,
}

/// A command: `check`, `sim` with a grain and an output, `run` with an output, `replay`, `race`, `cost`, or `gen` or `big` with the
/// number of a generated machine.
#[derive(Clone, Copy, Debug, PartialEq, Eq)]
pub enum Command {
    Check,
    Sim { grain: Grain, output: Output },
    Run(Output),
    Replay,
    Race,
    Cost,
    Gen(u32),
    Big(u32),
}

/// Why words are no command.
#[derive(Clone, Copy, Debug, PartialEq, Eq)]
pub enum WordsFault {
    BadWords,
    OutOfMemory,
}

/// The command that these words name, the program's name not among them.
pub fn read_words(alloc: Global, words: &[&str]) -> Result<Command, WordsFault>
    ensures command { IfOk (read_of (texts_of words.now)) (λ command. (result ≡ Ok command)
        ⊎ (result ≡ Err faults.OutOfMemory)) }
    ensures bad_words { IfErr (read_of (texts_of words.now)) (λ _. result ≡ Err faults.BadWords) }
{
    if !are_plain(words) {
        return Err(WordsFault::BadWords);
    }
    match arguments(alloc, words) {
        Ok(matches) => match matches.get_strs("words") {
            Some(values) => command_of(values),
            None => Err(WordsFault::BadWords),
        },
        Err(_) => Err(fault_without_memory(words)),
    }
}

/// Words that no memory was left for: those that are no command are bad words none the less.
fn fault_without_memory(words: &[&str]) -> WordsFault
    ensures command { IfOk (read_of (texts_of words.now)) (λ _. result ≡ faults.OutOfMemory) }
    ensures bad_words { IfErr (read_of (texts_of words.now)) (λ _. result ≡ faults.BadWords) }
{
    match command_of(words) {
        Ok(_) => WordsFault::OutOfMemory,
        Err(_) => WordsFault::BadWords,
    }
}

/// The command of these words in the table of commands.
fn command_of(words: &[&str]) -> Result<Command, WordsFault>
    ensures { result ≡ read_of (texts_of words.now) }
{
    if are_words(words, &["check"]) {
        Ok(Command::Check)
    } else if are_words(words, &["sim", "coarse"]) {
        Ok(Command::Sim {
            grain: Grain::Coarse,
            output: Output::Report,
        })
    } else if are_words(words, &["sim", "coarse", "trace"]) {
        Ok(Command::Sim {
            grain: Grain::Coarse,
            output: Output::Trace,
        })
    } else if are_words(words, &["sim", "fine"]) {
        Ok(Command::Sim {
            grain: Grain::Fine,
            output: Output::Report,
        })
    } else if are_words(words, &["sim", "fine", "trace"]) {
        Ok(Command::Sim {
            grain: Grain::Fine,
            output: Output::Trace,
        })
    } else if are_words(words, &["run"]) {
        Ok(Command::Run(Output::Report))
    } else if are_words(words, &["run", "trace"]) {
        Ok(Command::Run(Output::Trace))
    } else if are_words(words, &["replay"]) {
        Ok(Command::Replay)
    } else if are_words(words, &["race"]) {
        Ok(Command::Race)
    } else if are_words(words, &["cost"]) {
        Ok(Command::Cost)
    } else {
        numbered(words)
    }
}

/// Whether these words are those.
fn are_words(words: &[&str], wanted: &[&str]) -> bool
    ensures { result ≡ same_words (texts_of words.now) (texts_of wanted.now) }
{
    words == wanted
}

/// The command of a name and a number.
fn numbered(words: &[&str]) -> Result<Command, WordsFault>
    ensures { result ≡ numbered_of (texts_of words.now) }
{
    match words {
        [name, word] => match read_u32(word.as_bytes()) {
            Ok(n) if *name == "gen" => Ok(Command::Gen(n)),
            Ok(n) if *name == "big" => Ok(Command::Big(n)),
            Ok(_) | Err(_) => Err(WordsFault::BadWords),
        },
        _ => Err(WordsFault::BadWords),
    }
}
