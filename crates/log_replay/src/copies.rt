//! Overwrites the words that a copied log names. In the copy the address of each entry in range is the number of a
//! device word.
ghost use Rattle.std.specs.Prelude.{◌≡◌, ◌+◌, ◌≤◌, ℕ, List, length, Option};
ghost use Rattle.pm_model.specs.Counts.{after_fault, fault_of};
ghost use Rattle.pm_model.specs.Changes.{Changes};
ghost use Rattle.pud_defs.specs.declared.layout.TheConstants.{LOG_ENTRY_WORDS};
ghost use Rattle.pud_defs.specs.declared.log_words.TheConstants.{UNDO_ORDER, REDO_ORDER};
ghost use Rattle.pud_defs.specs.Logging.Entries.{Entry as LoggedEntry, Log};
ghost use Rattle.pud_defs.specs.Logging.Replay.{device_word, given_by, undo_value, redo_value, new_value};
ghost use Rattle.log_entry.specs.Copying.{log_copied, IsOfCopy};
ghost use Rattle.log_replay.specs.Placing.{AreWithinDevice};
ghost use Rattle.log_replay.specs.Replaying.{Anything, AppliesEntries, Undoes};
ghost use Rattle.log_replay.specs.Promises.{OfEntryRead, OfEntriesLeft};

use log_entry::{CopyReader, Entry, LogCopy};
use pm_model::{Host, HostFault};
use pm_persist::write_range;
use pud_defs::log_words::{REDO_ORDER, UNDO_ORDER};

/// Applies an entry of a copy if it has this order and lies within the range. An entry that names words outside the
/// device is left out.
fn apply<H: Host>(h: &mut H, copy: &LogCopy, order: u32, entry: &Entry) -> Result<(), HostFault>
    requires { IsOfCopy copy.now entry.now }
    ensures applies { H.tells → (size : ℕ) → size ≡ (H.counts h.old).size
        → OfEntryRead size copy.now entry.now (λ log e. AppliesEntries (given_by device_word log order e) (fault_of result) (H.state h.old) (H.state h.new)) }
    ensures any { H.tells → Changes Anything (fault_of result) (H.state h.old) (H.state h.new) }
    ensures cause { H.counts h.new ≡ after_fault (fault_of result) (H.counts h.old) }
{
    if entry.order != order || !copy.range().counts(entry) {
        return Ok(());
    }
    let words = u64::from(h.words());
    if entry.addr > words || u64::from(entry.n) > words - entry.addr {
        return Ok(());
    }
    write_range(h, entry.addr as u32, copy.values(entry))
}

/// Applies the undo entries that are left to read, the newest first.
fn undo<H: Host>(h: &mut H, copy: &LogCopy, reader: &mut CopyReader) -> Result<(), HostFault>
    ensures undoes { H.tells → (size : ℕ) → size ≡ (H.counts h.old).size
        → OfEntriesLeft size copy.now reader.old (λ log es. AppliesEntries (undo_value device_word log es) (fault_of result) (H.state h.old) (H.state h.new)) }
    ensures any { H.tells → Changes Anything (fault_of result) (H.state h.old) (H.state h.new) }
    ensures cause { H.counts h.new ≡ after_fault (fault_of result) (H.counts h.old) }
{
    match reader.next(copy) {
        None => Ok(()),
        Some(entry) => {
            undo(h, copy, reader)?;
            apply(h, copy, UNDO_ORDER, &entry)
        }
    }
}

/// Applies the redo entries that are left to read, the oldest first.
fn redo<H: Host>(h: &mut H, copy: &LogCopy, reader: &mut CopyReader) -> Result<(), HostFault>
    ensures redoes { H.tells → (size : ℕ) → size ≡ (H.counts h.old).size
        → OfEntriesLeft size copy.now reader.old (λ log es. AppliesEntries (redo_value device_word log es) (fault_of result) (H.state h.old) (H.state h.new)) }
    ensures any { H.tells → Changes Anything (fault_of result) (H.state h.old) (H.state h.new) }
    ensures cause { H.counts h.new ≡ after_fault (fault_of result) (H.counts h.old) }
{
    match reader.next(copy) {
        None => Ok(()),
        Some(entry) => {
            apply(h, copy, REDO_ORDER, &entry)?;
            redo(h, copy, reader)
        }
    }
}

/// Applies the undo entries that come after the first `passed` entry words of a copy, the newest first. On `Ok` this is
/// durable.
pub(crate) fn undo_after<H: Host>(h: &mut H, copy: &LogCopy, passed: u32) -> Result<(), HostFault>
    requires { passed ≤ LOG_ENTRY_WORDS }
    ensures undoes { H.tells → (size : ℕ) → size ≡ (H.counts h.old).size
        → OfEntriesLeft size copy.now (record { log_at = 0; passed = passed }) (λ log es. Undoes (undo_value device_word log es) (fault_of result) (H.state h.old) (H.state h.new)) }
    ensures any { H.tells → Changes Anything (fault_of result) (H.state h.old) (H.state h.new) }
    ensures cause { H.counts h.new ≡ after_fault (fault_of result) (H.counts h.old) }
{
    let mut later = CopyReader::after(passed);
    undo(h, copy, &mut later)?;
    h.fence()
}

/// Overwrites the words that the log of a copy names, and marks them: they are durable after the next fence.
pub(crate) fn overwrite<H: Host>(h: &mut H, copy: &LogCopy) -> Result<(), HostFault>
    ensures overwrites { H.tells → (size : ℕ) → size ≡ (H.counts h.old).size → (log : Log) → log_copied copy.now ≡ log → (es : List LoggedEntry)
        → log.entries ≡ Option.Some es → AreWithinDevice size log es → AppliesEntries (new_value device_word log) (fault_of result) (H.state h.old) (H.state h.new) }
    ensures any { H.tells → Changes Anything (fault_of result) (H.state h.old) (H.state h.new) }
    ensures cause { H.counts h.new ≡ after_fault (fault_of result) (H.counts h.old) }
{
    let mut newest_first = CopyReader::new();
    undo(h, copy, &mut newest_first)?;
    let mut oldest_first = CopyReader::new();
    redo(h, copy, &mut oldest_first)
}
