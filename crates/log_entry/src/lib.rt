//! The entries of a log on a device: they are written as words and read one by one.
//!
//! An entry is its address, then a word with the number of its values, its sequence number and its order, and then its
//! 1 to 32 values. A log's gate counts the entry words that are read. These words may store anything, so a reader stops
//! as soon as they spell no entry.
#![tactic(auto)]

ghost use Rattle.std.specs.Prelude.{◌≡◌, ◌+◌, ◌<◌, ◌≤◌, ◌^◌, Option, IfOk, OnErr, ◌&&◌, nat_le, option_map, is_some, length, take};
ghost use Rattle.pm_model.specs.Words.{reads};
ghost use Rattle.pm_model.specs.Counts.{fault_of};
ghost use Rattle.pm_model.specs.Reads.{OnlyReads};
ghost use Rattle.pud_defs.specs.declared.layout.TheConstants.{LOG_WORDS, LOG_ENTRY_WORDS, ENTRY_HEADER_WORDS, MAX_ENTRY_VALUES};
ghost use Rattle.pud_defs.specs.Formats.Image.{Image};
ghost use Rattle.pud_defs.specs.Logging.Entries.{entry_n, is_legal_entry_word, spelled, Log, log_of, entries_of};
ghost use Rattle.pud_defs.specs.Logging.Replay.{is_in_range};
ghost use Rattle.log_entry.specs.Reading.{Reading, entry_next, entries_left, entry_from, Passes, left_before};
ghost use Rattle.log_entry.specs.Ranges.{HasRange};

mod closed;
mod copy;
pub mod laws;
mod values;

pub use closed::is_closed_log;
pub use copy::{CopyReader, LogCopy};
use pm_model::{Host, HostFault};
use pud_defs::layout::{
    ENTRY_HEADER_WORDS, LOG_ENTRY_WORDS, LOG_HEADER_WORDS, LOG_WORDS, MAX_ENTRY_VALUES,
    MAX_ENTRY_WORDS,
};
use pud_defs::log_words::{
    entry_n, entry_order, entry_seq, entry_word, gate_hi, gate_lo, gate_used, is_legal_entry_word,
    is_legal_gate,
};
use std::marker::Model;
pub use values::read_values;

/// An entry of a log on a device.
#[derive(Clone, Copy)]
pub struct Entry {
    /// The place that it names: the number of a device word in the daemon log, a global address in a client's log.
    pub addr: u64,
    /// The number of its values, 1 to 32.
    pub n: u32,
    /// The sequence number, 0 to 65,535. The entry counts if this number lies within the log's range.
    pub seq: u32,
    /// 0 for an undo entry, 1 for a redo entry.
    pub order: u32,
    /// The number of the word that stores its first value: a word of the device, or of the copy from which the entry
    /// was read.
    pub at: u32,
}

/// Writes an entry as words at the start of `out`. It returns the number of these words, `vals.len() + 2`.
///
/// There must be 1 to 32 values, and the sequence number must fit in 16 bits.
pub fn encode(
    addr: u64,
    seq: u32,
    order: u32,
    vals: &[u64],
    out: &mut [u64; MAX_ENTRY_WORDS as usize],
) -> usize
    requires some { 1 ≤ length vals.now }
    requires no_more { length vals.now ≤ MAX_ENTRY_VALUES }
    requires seq_fits { seq < 2 ^ 16 }
    ensures count { result ≡ length vals.now + ENTRY_HEADER_WORDS }
    ensures spells { take result out.new ≡ spelled (record { address = addr; seq = seq; order = order; vals = vals.now }) }
{
    out[0] = addr;
    out[1] = entry_word(vals.len() as u32, seq, order);
    out[2..2 + vals.len()].copy_from_slice(vals);
    vals.len() + 2
}

// Tests whether `word` is the second word of an entry, if `words_left` words follow it.
fn begins_entry(word: u64, words_left: u32) -> bool
    ensures { result ≡ (is_legal_entry_word word && nat_le (entry_n word) words_left) }
{
    is_legal_entry_word(word) && entry_n(word) <= words_left
}

/// Reads the entries of a log, the oldest first.
#[derive(Drop)]
pub struct EntryReader {
    log_at: u32,
    passed: u32,
}

impl Model for EntryReader {
    ghost Value = { Reading };

    ghost view = { λ r. record { log_at = r.log_at; passed = r.passed } };

    ghost invariant = { λ r. r.passed ≤ LOG_ENTRY_WORDS };
}

impl EntryReader {
    /// A reader that starts at the first entry of the log whose gate is word `log_at`.
    pub fn new(log_at: u32) -> EntryReader
        ensures { result ≡ record { log_at = log_at; passed = 0 } }
    {
        EntryReader { log_at, passed: 0 }
    }

    /// A reader that starts after the first `passed` entry words of that log, at most 1,016.
    pub fn after(log_at: u32, passed: u32) -> EntryReader
        requires { passed ≤ LOG_ENTRY_WORDS }
        ensures { result ≡ record { log_at = log_at; passed = passed } }
    {
        EntryReader { log_at, passed }
    }

    /// Reads the next entry. It returns None in exactly three cases: the gate counts more words than a log has, or all
    /// words that it counts have been read, or the words that follow spell no entry.
    ///
    /// If the log is well formed, the entries that were left before the call are the one that was found and then those
    /// left now. If none is found, none was left.
    ///
    /// The log must lie within the device. The only errors are the host's own. After an error the reader is where it
    /// was.
    pub fn next<H: Host>(&mut self, h: &mut H) -> Result<Option<Entry>, HostFault>
        requires { self.old.log_at + LOG_WORDS ≤ (H.counts h.old).size }
        ensures next { H.tells → IfOk result (λ found. option_map (entry_from (reads (H.state h.old).now.words)) found
            ≡ entry_next (reads (H.state h.old).now.words) self.old) }
        ensures left { H.tells → (image : Image) → reads (H.state h.old).now.words ≡ image
            → IfOk result (λ found. entries_left image self.old ≡ left_before image found self.new) }
        ensures passes { IfOk result (λ found. Passes found self.old self.new) }
        ensures failed { OnErr result (self.new ≡ self.old) }
        ensures only_reads { OnlyReads H.tells H.state H.counts (fault_of result) h.old h.new }
    {
        // This call tells the proof that the number of a device's words fits in 32 bits. So the number of each word
        // fits, too.
        let _words = h.words();
        let used = gate_used(h.load(self.log_at)?);
        if used > LOG_ENTRY_WORDS || used < self.passed + ENTRY_HEADER_WORDS {
            return Ok(None);
        }
        let at = self.log_at + LOG_HEADER_WORDS + self.passed;
        let word = h.load(at + 1)?;
        if !begins_entry(word, used - self.passed - ENTRY_HEADER_WORDS) {
            return Ok(None);
        }
        let n = entry_n(word);
        let addr = h.load(at)?;
        self.passed += ENTRY_HEADER_WORDS + n;
        Ok(Some(Entry {
            addr,
            n,
            seq: entry_seq(word),
            order: entry_order(word),
            at: at + ENTRY_HEADER_WORDS,
        }))
    }
}

/// Tests whether the log whose gate is word `log_at` is well formed: its gate is legal, and the entry words that it
/// counts spell whole entries and nothing else.
///
/// The log must lie within the device. The only errors are the host's own.
pub fn well_formed<H: Host>(h: &mut H, log_at: u32) -> Result<bool, HostFault>
    requires { log_at + LOG_WORDS ≤ (H.counts h.old).size }
    ensures answer { H.tells → IfOk result (λ ok. ok ≡ is_some (entries_of (reads (H.state h.old).now.words) log_at)) }
    ensures only_reads { OnlyReads H.tells H.state H.counts (fault_of result) h.old h.new }
{
    let gate = h.load(log_at)?;
    if !is_legal_gate(gate) {
        return Ok(false);
    }
    let mut reader = EntryReader::new(log_at);
    let mut passed = 0;
    while let Some(entry) = reader.next(h)? {
        passed += ENTRY_HEADER_WORDS + entry.n;
    }
    Ok(gate_used(gate) <= passed)
}

/// The range of a log. It decides which entries count.
#[derive(Clone, Copy)]
pub struct LogRange {
    /// An entry counts only if its sequence number is greater than this.
    pub lo: u32,
    /// An entry counts only if its sequence number is less than this.
    pub hi: u32,
}

impl LogRange {
    /// Reads the range of the log whose gate is word `log_at`.
    ///
    /// The gate must lie within the device. The only errors are the host's own.
    pub fn of<H: Host>(h: &mut H, log_at: u32) -> Result<LogRange, HostFault>
        requires { log_at < (H.counts h.old).size }
        ensures range { H.tells → (image : Image) → reads (H.state h.old).now.words ≡ image → IfOk result (λ range. HasRange range (log_of image log_at)) }
        ensures only_reads { OnlyReads H.tells H.state H.counts (fault_of result) h.old h.new }
    {
        let gate = h.load(log_at)?;
        Ok(LogRange {
            lo: gate_lo(gate),
            hi: gate_hi(gate),
        })
    }

    /// Tests whether an entry counts: its sequence number lies between the two numbers of the range, and is neither of
    /// them.
    pub fn counts(&self, entry: &Entry) -> bool
        ensures { (image : Image) (log : Log) → HasRange self.now log → result ≡ is_in_range log (entry_from image entry.now) }
    {
        self.lo < entry.seq && entry.seq < self.hi
    }

    /// Tests whether the range is so narrow that no entry can count.
    pub fn counts_none(&self) -> bool
        ensures { result ≡ nat_le self.now.hi (self.now.lo + 1) }
    {
        self.hi.saturating_sub(self.lo) <= 1
    }
}
