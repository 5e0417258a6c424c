//! The replay of a log: the words that it names are overwritten, and are durable at the end.
//!
//! First the undo entries in range are applied, the newest first. Then the redo entries in range are applied, the
//! oldest first. What a replay makes of an image does not depend on the words that the log names. So a replay that is
//! cut off anywhere can be done again.
//!
//! In the daemon log an address is the number of a device word. In a client's log it is an address of the global space.
//! It lies in the range of a puddle, by the device's puddle table, and names a word of that puddle's frame. No such
//! word is a word of the table, so a replay does not change the address map.
//!
//! A log can also be undone in part: only its entries past a place are applied, and the log stays as it is.
#![tactic(auto)]

ghost use Rattle.std.specs.Prelude.{◌≡◌, ◌+◌, ◌<◌, ◌≤◌, ℕ, List, Option, option_map, IfOk, IfSome};
ghost use Rattle.pm_model.specs.Words.{reads};
ghost use Rattle.pm_model.specs.Counts.{after_fault, fault_of};
ghost use Rattle.pm_model.specs.Reads.{OnlyReads};
ghost use Rattle.pm_model.specs.Changes.{Changes};
ghost use Rattle.pud_defs.specs.declared.layout.TheConstants.{LOG_WORDS, LOG_ENTRY_WORDS, MAX_FRAMES};
ghost use Rattle.pud_defs.specs.Formats.Image.{Image};
ghost use Rattle.pud_defs.specs.Formats.Layout.{tables_end};
ghost use Rattle.pud_defs.specs.Logging.Entries.{Entry as LoggedEntry, entries_of};
ghost use Rattle.puddle_space.specs.Within.{IsPlaceIn};
ghost use Rattle.log_entry.specs.Copying.{log_copied};
ghost use Rattle.log_replay.specs.Placing.{word_at, word_or_none, placed_log};
ghost use Rattle.log_replay.specs.Replaying.{address_map_of, log_to, old_values, HasTables, IsPlacedCopy, HasDurableLog, Anything, Replays, ReplaysAgain, Undoes, SettlesLog};
ghost use Rattle.log_replay.specs.Promises.{IfReplayable, IfReplayablePast, IfCopied, SettlesByMoments, StaysSettledSame};

mod copies;

use crate::copies::{overwrite, undo_after};
use log_entry::{CopyReader, LogCopy};
use pm_model::{Host, HostFault};
use pm_persist::persist_word;
use pud_defs::log_words::CLOSED_GATE;
use pud_defs::space::frame_at;
use puddle_space::Nearby;

/// The number of no device word. An entry in range that names no device word gets it as its address.
pub const NO_WORD: u64 = u64::MAX;

/// Which kind of words the addresses of a log's entries name.
#[derive(Clone, Copy)]
pub enum Target {
    /// Device words, by their numbers. The daemon log has this target.
    Words,
    /// Words of puddles, by their global addresses. A client's log has this target. The value is the number of the
    /// device's frames, at most 1,024. The device must have the puddle table of that many frames.
    Puddles(u32),
}

impl Target {
    /// Gives each entry of a copy that is in range a new address: the number of the first device word that it names.
    fn place<H: Host>(self, h: &mut H, copy: &mut LogCopy) -> Result<(), HostFault>
        requires { HasTables self (H.counts h.old).size }
        ensures placed { H.tells → (image : Image) → reads (H.state h.old).now.words ≡ image → (es : List LoggedEntry) → (log_copied copy.old).entries ≡ Option.Some es
            → IfOk result (λ _. log_copied copy.new ≡ log_to self image (log_copied copy.old)) }
        ensures only_reads { OnlyReads H.tells H.state H.counts (fault_of result) h.old h.new }
    {
        match self {
            Target::Words => Ok(()),
            Target::Puddles(frames) => place_addresses(h, frames, copy),
        }
    }
}

/// The number of the device word at this place, a frame and a word of it, on a device of `frames` frames. Without a
/// place it is [`NO_WORD`].
///
/// There are at most 1,024 frames, and the place must be one of them.
pub fn device_word_at(frames: u32, place: Option<(u32, u32)>) -> u64
    requires few { frames ≤ MAX_FRAMES }
    requires within { IfSome place (IsPlaceIn frames) }
    ensures { result ≡ word_or_none (option_map (word_at frames) place) }
{
    match place {
        Some((frame, word)) => u64::from(frame_at(frames, frame) + word),
        None => NO_WORD,
    }
}

/// Gives each entry of a copy that is in range a new address: the number of the device word that its global address
/// names.
fn place_addresses<H: Host>(h: &mut H, frames: u32, copy: &mut LogCopy) -> Result<(), HostFault>
    requires few { frames ≤ MAX_FRAMES }
    requires table { tables_end frames ≤ (H.counts h.old).size }
    ensures placed { H.tells → (image : Image) → reads (H.state h.old).now.words ≡ image → (es : List LoggedEntry) → (log_copied copy.old).entries ≡ Option.Some es
        → IfOk result (λ _. log_copied copy.new ≡ placed_log (address_map_of (Target.Puddles frames) image) (log_copied copy.old)) }
    ensures only_reads { OnlyReads H.tells H.state H.counts (fault_of result) h.old h.new }
{
    let range = copy.range();
    let mut nearby = Nearby::none();
    let mut reader = CopyReader::new();
    while let Some(entry) = reader.next(copy) {
        if range.counts(&entry) {
            let place = nearby.locate(h, frames, entry.addr)?;
            copy.set_address(&entry, device_word_at(frames, place));
        }
    }
    Ok(())
}

/// Copies the log whose gate is word `log_at`. In the copy the address of each entry in range is the number of the
/// first device word that it names.
fn copy_placed<H: Host>(
    h: &mut H,
    copy: &mut LogCopy,
    log_at: u32,
    to: Target,
) -> Result<(), HostFault>
    requires log { log_at + LOG_WORDS ≤ (H.counts h.old).size }
    requires tables { HasTables to (H.counts h.old).size }
    ensures placed { H.tells → (image : Image) → reads (H.state h.old).now.words ≡ image → (es : List LoggedEntry) → entries_of image log_at ≡ Option.Some es
        → IfOk result (λ _. IsPlacedCopy to log_at image copy.new) }
    ensures only_reads { OnlyReads H.tells H.state H.counts (fault_of result) h.old h.new }
{
    copy.load(h, log_at)?;
    to.place(h, copy)?;
    Ok(())
}

/// Replays a log from its copy. In the copy the addresses of the entries in range are numbers of device words.
fn replay_copy<H: Host>(h: &mut H, copy: &LogCopy) -> Result<(), HostFault>
    ensures replays { H.tells → (size : ℕ) → size ≡ (H.counts h.old).size → (to : Target) (log_at : ℕ)
        → IfCopied to size log_at copy.now (H.state h.old).now.words (λ _. Replays to log_at (fault_of result) (H.state h.old) (H.state h.new)) }
    ensures again { H.tells → (size : ℕ) → size ≡ (H.counts h.old).size → (to : Target) (log_at : ℕ)
        → IfCopied to size log_at copy.now (H.state h.old).now.words (λ es. HasDurableLog to log_at (H.state h.old).now.words → ReplaysAgain to size log_at es (H.state h.old) (H.state h.new)) }
    ensures any { H.tells → Changes Anything (fault_of result) (H.state h.old) (H.state h.new) }
    ensures cause { H.counts h.new ≡ after_fault (fault_of result) (H.counts h.old) }
{
    overwrite(h, copy)?;
    h.fence()
}

/// Replays the log whose gate is word `log_at`. On `Ok` each word that an entry in range names has the value that the
/// replay gives it and no other, and the device reads as the replayed image. No other word changes.
///
/// The log must lie within the device, and for [`Target::Puddles`] so must the puddle table. All this holds if the log
/// is well formed and its entries in range name words of the device apart from the log. If also each word that is read
/// of the log has only one value, and for puddles each word of the puddle table, then each image left meanwhile replays
/// to the same image, even if the replay is cut off. Then the replay can be done again. The only errors are the host's
/// own.
///
/// It loads the gate once, and each entry word that the gate counts once. For puddles it looks for the place of each
/// entry in range once. This takes no load if one of the last 16 searches led to the same puddle. Else it takes one
/// load for each frame and one more for each puddle, up to the puddle that has the address. It ends with one fence.
pub fn replay_range<H: Host>(h: &mut H, log_at: u32, to: Target) -> Result<(), HostFault>
    requires log { log_at + LOG_WORDS ≤ (H.counts h.old).size }
    requires tables { HasTables to (H.counts h.old).size }
    ensures replays { H.tells → (size : ℕ) → size ≡ (H.counts h.old).size → IfReplayable to size log_at (H.state h.old).now.words (λ _. Replays to log_at (fault_of result) (H.state h.old) (H.state h.new)) }
    ensures again { H.tells → (size : ℕ) → size ≡ (H.counts h.old).size
        → IfReplayable to size log_at (H.state h.old).now.words (λ es. HasDurableLog to log_at (H.state h.old).now.words → ReplaysAgain to size log_at es (H.state h.old) (H.state h.new)) }
    ensures any { H.tells → Changes Anything (fault_of result) (H.state h.old) (H.state h.new) }
    ensures cause { H.counts h.new ≡ after_fault (fault_of result) (H.counts h.old) }
{
    let mut copy = LogCopy::new();
    copy_placed(h, &mut copy, log_at, to)?;
    replay_copy(h, &copy)
}

/// Undoes what the log whose gate is word `log_at` saved after its first `passed` entry words, the newest entry first.
/// On `Ok` this is durable. The log stays as it is.
///
/// The log must lie within the device, and for [`Target::Puddles`] so must the puddle table. At most 1,016 words are
/// passed. If an entry ends there, and the log may be replayed as [`replay_range`] says, then each word that later undo
/// entries in range name has the value that the first of them has for it, and no other. No other word changes. The only
/// errors are the host's own.
///
/// It takes the loads of [`replay_range`], and one fence.
pub fn undo_past<H: Host>(h: &mut H, log_at: u32, passed: u32, to: Target) -> Result<(), HostFault>
    requires log { log_at + LOG_WORDS ≤ (H.counts h.old).size }
    requires tables { HasTables to (H.counts h.old).size }
    requires few { passed ≤ LOG_ENTRY_WORDS }
    ensures undoes { H.tells → (size : ℕ) → size ≡ (H.counts h.old).size → IfReplayablePast to size log_at passed (H.state h.old).now.words
        (λ back. Undoes (old_values to log_at back (reads (H.state h.old).now.words)) (fault_of result) (H.state h.old) (H.state h.new)) }
    ensures any { H.tells → Changes Anything (fault_of result) (H.state h.old) (H.state h.new) }
    ensures cause { H.counts h.new ≡ after_fault (fault_of result) (H.counts h.old) }
{
    let mut copy = LogCopy::new();
    copy_placed(h, &mut copy, log_at, to)?;
    undo_after(h, &copy, passed)
}

/// Replays a log from its copy, and then closes it. Its gate is word `log_at`. In the copy the addresses of the entries
/// in range are numbers of device words, as in a log of device words. It does what [`settle_log`] does, but loads no
/// word.
///
/// The gate must lie within the device. The only errors are the host's own.
pub fn settle_copy<H: Host>(h: &mut H, copy: &LogCopy, log_at: u32) -> Result<(), HostFault>
    requires { log_at < (H.counts h.old).size }
    ensures settles { H.tells → (size : ℕ) → size ≡ (H.counts h.old).size → (to : Target)
        → IfCopied to size log_at copy.now (H.state h.old).now.words (λ _. SettlesLog to log_at (fault_of result) (H.state h.old) (H.state h.new)) }
    ensures moments { H.tells → (size : ℕ) → size ≡ (H.counts h.old).size → (to : Target)
        → IfCopied to size log_at copy.now (H.state h.old).now.words (λ _. SettlesByMoments to log_at (H.state h.old) (H.state h.new)) }
    ensures same { H.tells → (size : ℕ) → size ≡ (H.counts h.old).size
        → IfCopied Target.Words size log_at copy.now (H.state h.old).now.words (λ _. StaysSettledSame log_at (H.state h.old) (H.state h.new)) }
    ensures any { H.tells → Changes Anything (fault_of result) (H.state h.old) (H.state h.new) }
    ensures cause { H.counts h.new ≡ after_fault (fault_of result) (H.counts h.old) }
{
    replay_copy(h, copy)?;
    persist_word(h, log_at, CLOSED_GATE)
}

/// Replays the log whose gate is word `log_at`, and then closes it. On `Ok` each word that an entry in range names has
/// its new value and no other, and the log is closed. No other word changes. Of the log only the gate changes.
///
/// It needs of the device what [`replay_range`] needs. If also each word that is read of the log has only one value,
/// and for puddles each word of the puddle table, then this holds for each image left meanwhile: it is as it was,
/// except for the gate and for words to which the log gives values, and its gate is closed only if each of these words
/// has its new value. So for device words each image is, with the log replayed, as it was. The only errors are the
/// host's own.
///
/// It takes the loads of [`replay_range`], and two fences.
pub fn settle_log<H: Host>(h: &mut H, log_at: u32, to: Target) -> Result<(), HostFault>
    requires log { log_at + LOG_WORDS ≤ (H.counts h.old).size }
    requires tables { HasTables to (H.counts h.old).size }
    ensures settles { H.tells → (size : ℕ) → size ≡ (H.counts h.old).size → IfReplayable to size log_at (H.state h.old).now.words (λ _. SettlesLog to log_at (fault_of result) (H.state h.old) (H.state h.new)) }
    ensures moments { H.tells → (size : ℕ) → size ≡ (H.counts h.old).size → IfReplayable to size log_at (H.state h.old).now.words (λ _. SettlesByMoments to log_at (H.state h.old) (H.state h.new)) }
    ensures same { H.tells → to ≡ Target.Words → (size : ℕ) → size ≡ (H.counts h.old).size
        → IfReplayable Target.Words size log_at (H.state h.old).now.words (λ _. StaysSettledSame log_at (H.state h.old) (H.state h.new)) }
    ensures any { H.tells → Changes Anything (fault_of result) (H.state h.old) (H.state h.new) }
    ensures cause { H.counts h.new ≡ after_fault (fault_of result) (H.counts h.old) }
{
    let mut copy = LogCopy::new();
    copy_placed(h, &mut copy, log_at, to)?;
    settle_copy(h, &copy, log_at)
}
