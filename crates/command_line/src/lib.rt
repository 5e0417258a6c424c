//! Reads which mode the words of a command line ask for.
#![tactic(auto)]

mod commands;
mod laws;
mod modes;

ghost use Rattle.std.specs.Prelude.{◌≡◌, ◌≢◌, [], None, Some, IfErr, IfOk, map, string_bytes};
ghost use Rattle.clap.specs.Words.{fault_of, kind_of, subcommand_of, subcommand_rows_of};
ghost use Rattle.clap.specs.declared.error.kind.ErrorKind.TheVariants.{OutOfMemory};
ghost use Rattle.command_line.specs.declared.WordsFault.TheVariants.{Memory, Usage};
ghost use Rattle.command_line.specs.CommandLine.{IsLegalMode, mode_of};
ghost use Rattle.command_line.specs.Parsing.{the_command};

use clap::error::ErrorKind;
use clap::{ArgMatches, Error};
use commands::puddle_command;
pub use laws::a_parse_gives_the_mode;
use modes::mode_found;
pub use modes::{MAX_OBJECTS, MAX_SEED, Mode};
use std::alloc::{AllocError, Global};

/// Why no mode was read.
#[derive(Clone, Copy, Debug, PartialEq, Eq, thiserror::Error)]
pub enum WordsFault {
    /// The words are no mode.
    #[error("the words are not a mode")]
    Usage,
    /// An allocation failed.
    #[error("an allocation failed")]
    Memory,
}

impl From<AllocError> for WordsFault {
    ghost use Rattle.command_line.specs.declared.WordsFault.TheVariants.{Memory};

    ghost from_gives = { λ _ fault. fault ≡ Memory };

    fn from(_refused: AllocError) -> Self {
        WordsFault::Memory
    }
}

/// Why the parser did not take the words. It is `Memory` exactly if the error is that an allocation failed.
fn fault_by(error: &Error) -> WordsFault
    ensures memory { result ≡ Memory → kind_of error.now ≡ OutOfMemory }
    ensures usage { result ≡ Usage → kind_of error.now ≢ OutOfMemory }
{
    if error.kind() == ErrorKind::OutOfMemory {
        WordsFault::Memory
    } else {
        WordsFault::Usage
    }
}

/// What a parse finds in the words. The first word is the program's name. `Usage` comes only if the command does not
/// take the words.
fn matches_of<'a>(alloc: Global, words: &'a [String]) -> Result<ArgMatches<'a>, WordsFault>
    ensures taken { IfOk result (λ _. fault_of the_command (map string_bytes words.entry.now) ≡ []) }
    ensures found { IfOk result (λ m. subcommand_rows_of m ≡ subcommand_of the_command (map string_bytes words.entry.now)) }
    ensures usage { IfErr result (λ e. e ≡ Usage → fault_of the_command (map string_bytes words.entry.now) ≢ []) }
{
    match puddle_command(alloc)?.try_get_matches_from(words) {
        Ok(matches) => Ok(matches),
        Err(error) => Err(fault_by(&error)),
    }
}

/// Reads what the words ask for. The first word is the program's name. The modes are these, in exactly these letters:
///
/// - `format F ID`: F is from 4 to 1,024, and ID is from 0 to 2^64 - 1;
/// - `run`, `layout` and `check`;
/// - `gen S N`: S is from 0 to 65,535, and N is from 1 to 992.
///
/// A number has only digits: no sign, and no zero before other digits. One `--` may stand anywhere after the mode's
/// word. There is no option, no help and no version.
///
/// `Usage` comes exactly if the words are no mode and no allocation fails first. An empty list is no mode. `Memory`
/// comes only if an allocation failed.
pub fn read_words(alloc: Global, words: &[String]) -> Result<Mode, WordsFault>
    ensures ok { IfOk result (λ m. mode_of (map string_bytes words.now) ≡ Some m) }
    ensures usage { IfErr result (λ e. e ≡ Usage → mode_of (map string_bytes words.now) ≡ None) }
    ensures legal { IfOk result IsLegalMode }
{
    let matches = matches_of(alloc, words)?;
    mode_found(&matches).ok_or(WordsFault::Usage)
}
