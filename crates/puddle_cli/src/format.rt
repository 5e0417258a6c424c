//! Formats a device: the mode `format`.
ghost use Rattle.std.specs.Prelude.{◌≡◌, ◌≢◌, ◌↔◌, ◌≤◌, IsTrue, IfOk, MatchResult, Option, true, false, not};
ghost use Rattle.pm_model.specs.Words.{reads};
ghost use Rattle.pm_model.specs.Counts.{after_fault, fault_of};
ghost use Rattle.pm_model.specs.Reads.{OnlyReads};
ghost use Rattle.pud_defs.specs.Formats.Layout.{device_words, is_legal_frame_count};
ghost use Rattle.puddle_cli.specs.Status.{status_fault, IsStatusOfMode};
ghost use Rattle.puddle_cli.specs.Formatting.{is_format_refused, LaysOut, Formats};

use crate::status::{DONE, NOT_USABLE, TOO_LONG, status_of};
use pm_model::{Host, HostFault};
use pm_persist::{persist_range, persist_word, zero_range};
use pud_defs::layout::{
    DEVICE_MAGIC, MAGIC_WORD, MAX_FRAMES, VERSION, VERSION_WORD, device_words, frames_at,
};

/// The number that the first pool or puddle gets.
const FIRST_NUMBER: u64 = 1;

/// Writes the words below the frames in three groups: zeroes, then the words that describe the device, then the magic.
/// Each group is durable before the next one is written, so a device with the magic is complete.
fn lay_out<H: Host>(h: &mut H, frames: u32, id: u64) -> Result<(), HostFault>
    requires few { frames ≤ MAX_FRAMES }
    requires room { device_words frames ≤ (H.counts h.old).size }
    ensures lays_out { H.tells → LaysOut frames id (fault_of result) (H.state h.old) (H.state h.new) }
    ensures cause { H.counts h.new ≡ after_fault (fault_of result) (H.counts h.old) }
{
    zero_range(h, MAGIC_WORD, frames_at(frames))?;
    persist_range(
        h,
        VERSION_WORD,
        &[VERSION, id, u64::from(frames), FIRST_NUMBER],
    )?;
    persist_word(h, MAGIC_WORD, DEVICE_MAGIC)
}

/// Whether the device must not be formatted: it is formatted already, or it has too few words.
fn is_refused<H: Host>(h: &mut H, frames: u32) -> Result<bool, HostFault>
    requires { frames ≤ MAX_FRAMES }
    ensures refused { H.tells → IfOk result (λ refused. refused ≡ is_format_refused (H.counts h.old).size frames (reads (H.state h.old).now.words)) }
    ensures room { IfOk result (λ refused. refused ≡ false → device_words frames ≤ (H.counts h.old).size) }
    ensures only_reads { OnlyReads H.tells H.state H.counts (fault_of result) h.old h.new }
{
    if h.words() < device_words(frames) {
        return Ok(true);
    }
    Ok(h.load(MAGIC_WORD)? == DEVICE_MAGIC)
}

/// Formats the device and prints `formatted`, if the device may be formatted. Returns whether it was formatted.
fn try_format<H: Host>(h: &mut H, frames: u32, id: u64) -> Result<bool, HostFault>
    requires legal { IsTrue (is_legal_frame_count frames) }
    ensures refused { H.tells → IfOk result (λ done. done ≡ not (is_format_refused (H.counts h.old).size frames (reads (H.state h.old).now.words))) }
    ensures unchanged { H.tells → IfOk result (λ done. done ≡ false → H.state h.new ≡ H.state h.old) }
    ensures formats { H.tells → MatchResult result
        (λ done. done ≡ true → Formats (H.counts h.old).size frames id Option.None (H.state h.old) (H.state h.new))
        (λ fault. Formats (H.counts h.old).size frames id (Option.Some fault) (H.state h.old) (H.state h.new)) }
    ensures cause { H.counts h.new ≡ after_fault (fault_of result) (H.counts h.old) }
{
    if is_refused(h, frames)? {
        return Ok(false);
    }
    lay_out(h, frames, id)?;
    h.say(b"formatted\n")?;
    Ok(true)
}

/// The mode `format F ID`: formats the device for `frames` frames with the machine id `id`. Returns the program's
/// status, which is never 7.
pub fn format<H: Host>(h: &mut H, frames: u32, id: u64) -> u8
    requires legal { IsTrue (is_legal_frame_count frames) }
    ensures status { IsStatusOfMode result }
    ensures not_usable { H.tells → status_fault result ≡ Option.None
        → (result ≡ NOT_USABLE) ↔ IsTrue (is_format_refused (H.counts h.old).size frames (reads (H.state h.old).now.words)) }
    ensures unchanged { H.tells → result ≡ NOT_USABLE → H.state h.new ≡ H.state h.old }
    ensures formats { H.tells → result ≢ NOT_USABLE → Formats (H.counts h.old).size frames id (status_fault result) (H.state h.old) (H.state h.new) }
    ensures never_too_long { result ≢ TOO_LONG }
    ensures cause { H.counts h.new ≡ after_fault (status_fault result) (H.counts h.old) }
{
    match try_format(h, frames, id) {
        Ok(true) => DONE,
        Ok(false) => NOT_USABLE,
        Err(fault) => status_of(fault),
    }
}
