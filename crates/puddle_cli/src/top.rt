//! The top call: all that the program does.
ghost use Rattle.std.specs.Prelude.{◌≡◌, ◌≢◌, ◌↔◌, None, map, string_bytes};
ghost use Rattle.command_line.specs.CommandLine.{mode_of};
ghost use Rattle.puddle_cli.specs.Status.{Causes};
ghost use Rattle.puddle_cli.specs.Modes.{EndsBy, DoesBy};

use crate::format::format;
use crate::generate::generate;
use crate::run::run;
use crate::show::{View, show};
use crate::status::{NO_MEMORY, USAGE};
use command_line::{Mode, WordsFault, read_words};
use pm_model::Host;
use std::alloc::Global;

/// Does what the words ask for, on the host's device and streams. The first word is the program's name. Returns the
/// status that the program ends with.
///
/// - 0 if the mode is done, or if the script's end was read before 2^20 of its bytes were taken.
/// - 2 exactly if the words are no mode, unless the status is 3.
/// - 3 only if allocation failed while the words were read, whatever they are.
/// - 4 if the device is not usable and no call failed before. For `format`, `layout` and `check` the status is 4
///   exactly then. For `run` and `gen` the same holds on a device that was rested at entry: each of its words has one
///   value. On any device these two return 4 only if the device reads as not sound at entry, or if power was lost and
///   the device reads as not sound at the end.
/// - 5 only if the host failed.
/// - 6 only if power was lost.
/// - 7 only if 2^20 bytes of the script were taken before its end was read. A run returns 7 exactly then, unless it
///   ends with 4, 5 or 6.
///
/// At 2 and 3 nothing was printed and no word changed. The same holds at 4 for `format`, `layout` and `check`, and for
/// `run` and `gen` on a device that was rested at entry.
pub fn puddle_main<H: Host>(alloc: Global, words: &[String], host: &mut H) -> u8
    // The words alone decide whether the status is 2, unless allocation failed while they were read. Then nothing
    // happened.
    ensures usage { result ≢ NO_MEMORY → (result ≡ USAGE) ↔ (mode_of (map string_bytes words.now) ≡ None) }
    ensures no_memory { result ≡ NO_MEMORY → H.counts host.new ≡ H.counts host.old }
    ensures stays { H.tells → result ≡ NO_MEMORY → H.state host.new ≡ H.state host.old }

    // The count `faults` rises at status 5 and at no other status. The count `cuts` rises at status 6. No count falls.
    // Apart from the lines of a script, nothing else is counted.
    ensures cause { Causes result (H.counts host.old) (H.counts host.new) }
    ensures ends { result ≢ NO_MEMORY → EndsBy (mode_of (map string_bytes words.now)) result (H.counts host.old) (H.counts host.new) }

    // What is printed, what the device reads afterwards, and each image that a power loss may leave at any moment.
    ensures does { H.tells → result ≢ NO_MEMORY → DoesBy (mode_of (map string_bytes words.now)) result (H.counts host.old) (H.counts host.new) (H.state host.old) (H.state host.new) }
{
    match read_words(alloc, words) {
        Err(WordsFault::Usage) => USAGE,
        Err(WordsFault::Memory) => NO_MEMORY,
        Ok(Mode::Format { frames, id }) => format(host, frames, id),
        Ok(Mode::Run) => run(alloc, host),
        Ok(Mode::Layout) => show(host, View::Layout),
        Ok(Mode::Check) => show(host, View::Check),
        Ok(Mode::Gen { seed, count }) => generate(alloc, host, seed, count),
    }
}
