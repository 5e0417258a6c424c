//! The modes, and which of them a parse has found.

ghost use Rattle.std.specs.Prelude.{◌≡◌, codes};
ghost use Rattle.clap.specs.Words.{found_of, rows_of, subcommand_rows_of};
ghost use Rattle.command_line.specs.CommandLine.{format_of, gen_of};
ghost use Rattle.command_line.specs.Parsing.{numbers_found, mode_found};

use clap::ArgMatches;
use pud_defs::layout::{MAX_FRAMES, MIN_FRAMES};
use script::{read_number, read_within};

/// The largest seed of a generated script.
pub const MAX_SEED: u32 = 65_535;

/// The most objects that a generated script makes.
pub const MAX_OBJECTS: u32 = 992;

/// What a command line asks for.
#[derive(Clone, Copy, Debug, PartialEq, Eq)]
pub enum Mode {
    /// `format F ID`: make a device with this many frames, from 4 to 1,024, and with this machine id.
    Format { frames: u32, id: u64 },
    /// `run`: start, and answer the script's lines.
    Run,
    /// `layout`: start, then print what lies where.
    Layout,
    /// `check`: start, then print which pools are sound.
    Check,
    /// `gen S N`: start, and carry out the script that is generated for this seed, from 0 to 65,535, and this many
    /// objects, from 1 to 992. Then sum up what the script left.
    Gen { seed: u32, count: u32 },
}

/// The mode `format` from the texts of its two numbers. None if one of them is no such number.
fn format_of(frames: &str, id: &str) -> Option<Mode>
    ensures { result ≡ format_of frames.now id.now }
{
    let frames = read_within(frames.as_bytes(), MIN_FRAMES, MAX_FRAMES + 1)?;
    let id = read_number(id.as_bytes())?;
    Some(Mode::Format { frames, id })
}

/// The mode `format` from what the parse found for its arguments. None if one was not found, or if one is no such
/// number.
fn format_found(arguments: &ArgMatches) -> Option<Mode>
    ensures { result ≡ numbers_found format_of (codes "frames") (codes "id") (rows_of (found_of arguments.now)) }
{
    format_of(arguments.get_str("frames")?, arguments.get_str("id")?)
}

/// The mode `gen` from the texts of its two numbers. None if one of them is no such number.
fn gen_of(seed: &str, count: &str) -> Option<Mode>
    ensures { result ≡ gen_of seed.now count.now }
{
    let seed = read_within(seed.as_bytes(), 0, MAX_SEED + 1)?;
    let count = read_within(count.as_bytes(), 1, MAX_OBJECTS + 1)?;
    Some(Mode::Gen { seed, count })
}

/// The mode `gen` from what the parse found for its arguments. None if one was not found, or if one is no such number.
fn gen_found(arguments: &ArgMatches) -> Option<Mode>
    ensures { result ≡ numbers_found gen_of (codes "seed") (codes "count") (rows_of (found_of arguments.now)) }
{
    gen_of(arguments.get_str("seed")?, arguments.get_str("count")?)
}

/// The mode that the parse found. None if it found no mode's subcommand, or if the arguments are not those of the mode.
pub fn mode_found(matches: &ArgMatches) -> Option<Mode>
    ensures { result ≡ mode_found (subcommand_rows_of matches.now) }
{
    let (name, arguments) = matches.subcommand()?;
    match name {
        "format" => format_found(arguments),
        "run" => Some(Mode::Run),
        "layout" => Some(Mode::Layout),
        "check" => Some(Mode::Check),
        "gen" => gen_found(arguments),
        _ => None,
    }
}
