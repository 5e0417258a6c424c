//! A copy of a device's log. After the words are copied, the log is read, checked and replayed without another load.
ghost use Rattle.std.specs.Prelude.{◌≡◌, ◌+◌, ◌-◌, ◌≤◌, take, Option, IfOk, IfSome, option_map, is_some, length};
ghost use Rattle.pm_model.specs.Words.{reads};
ghost use Rattle.pm_model.specs.Counts.{fault_of};
ghost use Rattle.pm_model.specs.Reads.{OnlyReads};
ghost use Rattle.pud_defs.specs.declared.layout.TheConstants.{LOG_WORDS, LOG_ENTRY_WORDS, ENTRY_HEADER_WORDS};
ghost use Rattle.pud_defs.specs.Formats.Image.{Image, image_with};
ghost use Rattle.pud_defs.specs.Logging.Entries.{log_of, words_from};
ghost use Rattle.pud_defs.specs.Logging.Replay.{is_in_range};
ghost use Rattle.log_entry.specs.Reading.{Reading, entry_next, entries_left, entry_from, Passes, left_before};
ghost use Rattle.log_entry.specs.Ranges.{HasRange};
ghost use Rattle.log_entry.specs.Copying.{Copied, image_of_copy, log_copied, IsOfCopy};

use crate::{Entry, LogRange, begins_entry};
use pm_model::{Host, HostFault};
use pud_defs::layout::{ENTRY_HEADER_WORDS, LOG_ENTRY_WORDS, LOG_HEADER_WORDS, LOG_WORDS};
use pud_defs::log_words::{
    entry_n, entry_order, entry_seq, gate_hi, gate_lo, gate_used, is_legal_gate,
};
use std::marker::Model;

/// A log as it was on a device: its gate, and the entry words that the gate counts. It takes about 8 KB.
///
/// An entry that is read from the copy has its place in the copy: word `k` of the log is word `k` of the copy.
#[derive(Drop)]
pub struct LogCopy {
    gate: u64,
    words: [u64; LOG_ENTRY_WORDS as usize],
}

impl Model for LogCopy {
    ghost Value = { Copied };

    ghost view = { λ c. record { gate = c.gate; words = c.words } };

    ghost invariant = { λ c. length c.words ≡ LOG_ENTRY_WORDS };
}

impl LogCopy {
    /// A copy of no log: its gate is 0, and it has no entry.
    pub fn new() -> LogCopy
        ensures { result.gate ≡ 0 }
    {
        LogCopy {
            gate: 0,
            words: [0; LOG_ENTRY_WORDS as usize],
        }
    }

    /// Copies the log whose gate is word `log_at`, in place of the log that was copied before. It loads the gate once.
    /// It loads each entry word that the gate counts once, but no more words than a log has.
    ///
    /// The log must lie within the device. The only errors are the host's own. After an error the copy is of no log.
    pub fn load<H: Host>(&mut self, h: &mut H, log_at: u32) -> Result<(), HostFault>
        requires { log_at + LOG_WORDS ≤ (H.counts h.old).size }
        ensures copied { H.tells → (image : Image) → reads (H.state h.old).now.words ≡ image → IfOk result (λ _. log_copied self.new ≡ log_of image log_at) }
        ensures only_reads { OnlyReads H.tells H.state H.counts (fault_of result) h.old h.new }
    {
        // The number of a device's words fits in 32 bits, and so does the number of each word.
        let _words = h.words();
        let gate = h.load(log_at)?;
        let used = gate_used(gate).min(LOG_ENTRY_WORDS);
        load_words(h, log_at + LOG_HEADER_WORDS, used, &mut self.words)?;
        self.gate = gate;
        Ok(())
    }

    /// The gate of the log.
    pub fn gate(&self) -> u64
        ensures { result ≡ image_of_copy self.now 0 }
    {
        self.gate
    }

    /// The range of the log.
    pub fn range(&self) -> LogRange
        ensures { HasRange result (log_copied self.now) }
    {
        LogRange {
            lo: gate_lo(self.gate),
            hi: gate_hi(self.gate),
        }
    }

    /// Tests whether the log is well formed: its gate is legal, and the entry words that it counts spell whole entries
    /// and nothing else.
    pub fn is_well_formed(&self) -> bool
        ensures { result ≡ is_some (log_copied self.now).entries }
    {
        if !is_legal_gate(self.gate) {
            return false;
        }
        let mut reader = CopyReader::new();
        let mut passed = 0;
        while let Some(entry) = reader.next(self) {
            passed += ENTRY_HEADER_WORDS + entry.n;
        }
        gate_used(self.gate) <= passed
    }

    /// The values of an entry that was read from a copy.
    pub fn values(&self, entry: &Entry) -> &[u64]
        requires { IsOfCopy self.now entry.now }
        ensures { result.now ≡ words_from (image_of_copy self.now) entry.now.at entry.now.n }
    {
        let from = (entry.at - LOG_HEADER_WORDS) as usize;
        &self.words[from..from + entry.n as usize]
    }

    /// Gives another address to an entry that was read from a copy.
    pub fn set_address(&mut self, entry: &Entry, address: u64)
        requires { IsOfCopy self.old entry.now }
        ensures { image_of_copy self.new ≡ image_with (entry.now.at - ENTRY_HEADER_WORDS) address (image_of_copy self.old) }
    {
        self.words[(entry.at - LOG_HEADER_WORDS - ENTRY_HEADER_WORDS) as usize] = address;
    }
}

/// Copies the `count` words from word `from` of the device on to the beginning of a row. The row must have room for
/// them, and they must lie within the device. Each is loaded once. The only errors are the host's own.
fn load_words<H: Host>(h: &mut H, from: u32, count: u32, row: &mut [u64]) -> Result<(), HostFault>
    requires within { from + count ≤ (H.counts h.old).size }
    requires room { count ≤ length row.old }
    ensures copied { H.tells → IfOk result (λ _. take count row.new ≡ words_from (reads (H.state h.old).now.words) from count) }
    ensures kept { length row.new ≡ length row.old }
    ensures only_reads { OnlyReads H.tells H.state H.counts (fault_of result) h.old h.new }
{
    // The number of a device's words fits in 32 bits, and so does the number of each word.
    let _words = h.words();
    for i in 0..count {
        let word = h.load(from + i)?;
        row[i as usize] = word;
    }
    Ok(())
}

/// Reads the entries of a copy, the oldest first.
#[derive(Drop)]
pub struct CopyReader {
    passed: u32,
}

impl Model for CopyReader {
    ghost Value = { Reading };

    ghost view = { λ r. record { log_at = 0; passed = r.passed } };

    ghost invariant = { λ r. r.passed ≤ LOG_ENTRY_WORDS };
}

impl CopyReader {
    /// A reader that starts at the first entry of a copy.
    pub fn new() -> CopyReader
        ensures { result ≡ record { log_at = 0; passed = 0 } }
    {
        CopyReader { passed: 0 }
    }

    /// A reader that starts after the first `passed` entry words of a copy, at most 1,016.
    pub fn after(passed: u32) -> CopyReader
        requires { passed ≤ LOG_ENTRY_WORDS }
        ensures { result ≡ record { log_at = 0; passed = passed } }
    {
        CopyReader { passed }
    }

    /// Reads the next entry of the copy. It returns None in exactly three cases: the gate counts more words than a log
    /// has, or all words that it counts have been read, or the words that follow spell no entry.
    ///
    /// If the log is well formed, the entries that were left before the call are the one that was found and then those
    /// left now. If none is found, none was left.
    pub fn next(&mut self, copy: &LogCopy) -> Option<Entry>
        ensures next { option_map (entry_from (image_of_copy copy.now)) result ≡ entry_next (image_of_copy copy.now) self.old }
        ensures left { entries_left (image_of_copy copy.now) self.old ≡ left_before (image_of_copy copy.now) result self.new }
        ensures passes { Passes result self.old self.new }
        ensures inside { IfSome result (IsOfCopy copy.now) }
    {
        let used = gate_used(copy.gate);
        if used > LOG_ENTRY_WORDS || used < self.passed + ENTRY_HEADER_WORDS {
            return None;
        }
        let at = self.passed as usize;
        let word = copy.words[at + 1];
        if !begins_entry(word, used - self.passed - ENTRY_HEADER_WORDS) {
            return None;
        }
        let n = entry_n(word);
        self.passed += ENTRY_HEADER_WORDS + n;
        Some(Entry {
            addr: copy.words[at],
            n,
            seq: entry_seq(word),
            order: entry_order(word),
            at: LOG_HEADER_WORDS + at as u32 + ENTRY_HEADER_WORDS,
        })
    }
}
