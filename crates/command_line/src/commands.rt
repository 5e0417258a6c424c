//! Describes the program's command to the parser, with a subcommand for each mode.

ghost use Rattle.std.specs.Prelude.{◌≡◌, false, IfOk};
ghost use Rattle.clap.specs.Words.{app_of, rule_of, shape_of};
ghost use Rattle.clap.specs.declared.builder.command.Command.TheViews.{out-Command};
ghost use Rattle.command_line.specs.Parsing.{number_rule, numbers_shape, the_command};

use clap::{Arg, Command};
use std::alloc::{AllocError, Global};

/// An argument for a number. It has to be there. Its text is read only after the parser has taken the words.
fn number<'a>(alloc: Global, id: &'a str) -> Arg<'a>
    ensures rule { rule_of result ≡ number_rule id.entry.now }
    ensures local { result.global ≡ false }
{
    Arg::new(alloc, id).required(true)
}

/// The subcommand of a mode with two numbers, from its word and the names of the numbers. The only error is that an
/// allocation fails.
fn numbers_command<'a>(
    alloc: Global,
    word: &'a str,
    first: &'a str,
    second: &'a str,
) -> Result<Command<'a>, AllocError>
    ensures shape { IfOk result (λ c. shape_of c ≡ numbers_shape word.entry.now first.entry.now second.entry.now) }
    ensures local { IfOk result (λ c. (out-Command c).has_globals ≡ false) }
{
    Command::new(alloc, word)
        .arg(number(alloc, first))?
        .arg(number(alloc, second))
}

/// The program's command. One of the modes has to be there, and there is neither help nor a version. The only error is
/// that an allocation fails.
pub fn puddle_command<'a>(alloc: Global) -> Result<Command<'a>, AllocError>
    ensures { IfOk result (λ c. app_of c ≡ the_command) }
{
    Command::new(alloc, "puddle")
        .disable_help_flag(true)
        .disable_help_subcommand(true)
        .disable_version_flag(true)
        .subcommand_required(true)
        .subcommand(numbers_command(alloc, "format", "frames", "id")?)?
        .subcommand(Command::new(alloc, "run"))?
        .subcommand(Command::new(alloc, "layout"))?
        .subcommand(Command::new(alloc, "check"))?
        .subcommand(numbers_command(alloc, "gen", "seed", "count")?)
}
