//! A log that grows by whole entries, one or two at a time.
//!
//! One word makes new entries part of the log: they are durable before the gate that counts them is stored. So at each
//! moment a power loss leaves the log either as it was or with all of the new entries whole. One word also cuts the log
//! back to its first entries, and one word moves the range.
#![tactic(auto)]

ghost use Rattle.std.specs.Prelude.{◌≡◌, ◌↔◌, ◌+◌, ◌<◌, ◌≤◌, ◌^◌, false, List, [], ◌∷◌, ◌++◌, Option, Result, IfOk, OnErr, length, take};
ghost use Rattle.pm_model.specs.Counts.{after_fault, fault_of};
ghost use Rattle.pm_model.specs.Changes.{only, placed, Changes, Leaves, Silently, Persists};
ghost use Rattle.pud_defs.specs.declared.layout.TheConstants.{LOG_WORDS, LOG_ENTRY_WORDS, ENTRY_HEADER_WORDS, MAX_ENTRY_VALUES};
ghost use Rattle.pud_defs.specs.declared.log_words.TheConstants.{RUNNING_LO, RUNNING_HI, RUNNING_GATE, COMMITTING_LO, COMMITTING_HI, CLOSED_GATE, REDO_ORDER};
ghost use Rattle.pud_defs.specs.Logging.Entries.{Entry, gate_word, entries_in, entry_words};
ghost use Rattle.log_store.specs.Store.{OpenLog, append_fault, InLog, IsOpen, spelled_all, words_write, HasGrown, CountsAtOnce, Appends, committing, undo_entry, with_words, with_entry, cut_to, Cuts};

use log_entry::encode;
use pm_model::{Host, HostFault};
use pm_persist::{persist_range, persist_word};
use pud_defs::layout::{ENTRY_HEADER_WORDS, LOG_ENTRY_WORDS, LOG_HEADER_WORDS, MAX_ENTRY_WORDS};
use pud_defs::log_words::{
    CLOSED_GATE, COMMITTING_HI, COMMITTING_LO, REDO_ORDER, RUNNING_GATE, RUNNING_HI, RUNNING_LO,
    UNDO_ORDER, UNDO_SEQ, gate_word,
};
use std::marker::Model;

/// Why an entry was not appended.
#[derive(Clone, Copy, Debug, thiserror::Error)]
pub enum AppendFault {
    /// The log has no room for the entry. Nothing changed.
    #[error("the log has no room for the entry")]
    TooBig,
    /// The host's own fault.
    #[error("the host failed")]
    Host(HostFault),
}

impl From<HostFault> for AppendFault {
    ghost use Rattle.log_store.specs.declared.AppendFault.TheVariants.{Host};

    ghost from_gives = { λ fault e. e ≡ Host fault };

    fn from(fault: HostFault) -> Self {
        AppendFault::Host(fault)
    }
}

/// A log that was opened: the word of its gate, its range, how many entry words count, and whether an entry with
/// deferred values was ever appended to it.
#[derive(Drop)]
pub struct Log {
    gate_at: u32,
    lo: u32,
    hi: u32,
    used: u32,
    defers: bool,
}

impl Model for Log {
    ghost Value = { OpenLog };

    ghost view = { λ log. record { gate_at = log.gate_at; lo = log.lo; hi = log.hi; used = log.used; defers = log.defers } };

    ghost invariant = { λ log. (log.lo < 2 ^ 8) × (log.hi < 2 ^ 8) × (log.used ≤ LOG_ENTRY_WORDS) };
}

/// How many words an entry of one value takes.
const ONE_VALUE_WORDS: u32 = ENTRY_HEADER_WORDS + 1;

/// The most words that two entries take, if the second has one value.
const MAX_TWO_ENTRIES_WORDS: u32 = MAX_ENTRY_WORDS + ONE_VALUE_WORDS;

/// Writes two undo entries as words at the start of `out`, one after the other. It returns the number of these words,
/// `vals.len() + 5`. The first entry has the 1 to 32 values that the words from that of `addr` on had. The second has
/// the value that the word of `addr2` had.
fn encode_two(
    addr: u64,
    vals: &[u64],
    addr2: u64,
    word: u64,
    out: &mut [u64; MAX_TWO_ENTRIES_WORDS as usize],
) -> usize
    requires some { 1 ≤ length vals.now }
    requires no_more { length vals.now ≤ MAX_ENTRY_VALUES }
    ensures count { result ≡ length vals.now + 5 }
    ensures spells { take result out.new ≡ spelled_all (undo_entry addr vals.now ∷ undo_entry addr2 (word ∷ []) ∷ []) }
{
    let mut words = [0u64; MAX_ENTRY_WORDS as usize];
    let first = encode(addr, UNDO_SEQ, UNDO_ORDER, vals, &mut words);
    out[..first].copy_from_slice(&words[..first]);
    let second = encode(addr2, UNDO_SEQ, UNDO_ORDER, &[word], &mut words);
    out[first..first + second].copy_from_slice(&words[..second]);
    first + second
}

/// Makes a gate with this range and this count durable in word `at`.
fn persist_gate<H: Host>(h: &mut H, at: u32, lo: u32, hi: u32, used: u32) -> Result<(), HostFault>
    requires place { at < (H.counts h.old).size }
    requires lo_fits { lo < 2 ^ 8 }
    requires hi_fits { hi < 2 ^ 8 }
    requires used_within { used ≤ LOG_ENTRY_WORDS }
    ensures persists { H.tells → Persists (only at (gate_word lo hi used)) (fault_of result) (H.state h.old) (H.state h.new) }
    ensures cause { H.counts h.new ≡ after_fault (fault_of result) (H.counts h.old) }
{
    persist_word(h, at, gate_word(lo, hi, used))
}

impl Log {
    /// Opens the log whose gate is word `at`. On `Ok` the log is running, with the range (0,2) and no entry, and this
    /// is durable.
    ///
    /// The log must lie within the device. The only errors are the host's own. The call writes one word, the gate.
    pub fn open_running<H: Host>(h: &mut H, at: u32) -> Result<Log, HostFault>
        requires { at + LOG_WORDS ≤ (H.counts h.old).size }
        ensures opened { IfOk result (λ log. log ≡ record { gate_at = at; lo = RUNNING_LO; hi = RUNNING_HI; used = 0; defers = false }) }
        ensures persists { H.tells → Persists (only at RUNNING_GATE) (fault_of result) (H.state h.old) (H.state h.new) }
        ensures open { H.tells → IfOk result (λ log. IsOpen log [] (H.state h.new).now.words) }
        ensures cause { H.counts h.new ≡ after_fault (fault_of result) (H.counts h.old) }
    {
        persist_word(h, at, RUNNING_GATE)?;
        Ok(Log {
            gate_at: at,
            lo: RUNNING_LO,
            hi: RUNNING_HI,
            used: 0,
            defers: false,
        })
    }

    /// The number of the word that is its gate.
    pub fn at(&self) -> u32
        ensures { result ≡ self.now.gate_at }
    {
        self.gate_at
    }

    /// How many of its entry words count, from 0 to 1,016.
    pub fn used(&self) -> u32
        ensures used { result ≡ self.now.used }
        ensures within { result ≤ LOG_ENTRY_WORDS }
    {
        self.used
    }

    /// Whether an entry with deferred values was ever appended to it, as the order of the entry tells. If one of its
    /// entries has deferred values, this is true. It stays true if that entry is cut off. The call touches no device.
    pub fn defers(&self) -> bool
        ensures { result ≡ self.now.defers }
    {
        self.defers
    }

    /// Appends words that spell entries. The log must have room for them. They are durable before the gate that counts
    /// them is stored.
    fn append_fitting<H: Host>(&self, h: &mut H, words: &[u64]) -> Result<(), HostFault>
        requires place { self.now.gate_at + LOG_WORDS ≤ (H.counts h.old).size }
        requires fits { self.now.used + length words.now ≤ LOG_ENTRY_WORDS }
        ensures persists { H.tells → Persists (words_write self.now (length words.now) words.now) (fault_of result) (H.state h.old) (H.state h.new) }
        ensures moments { H.tells → (es : List Entry) → (more : List Entry) → entries_in 0 words.now ≡ Option.Some more → IsOpen self.now es (H.state h.old).now.words
            → Leaves (Silently (HasGrown (H.state h.old).now.words self.now.gate_at more)) (H.state h.old) (H.state h.new) }
        ensures cause { H.counts h.new ≡ after_fault (fault_of result) (H.counts h.old) }
    {
        // This call tells the proof that the number of a device's words fits in 32 bits. So the number of each word
        // fits, too.
        let _words = h.words();
        let used = self.used + words.len() as u32;
        let at = self.gate_at + LOG_HEADER_WORDS + self.used;
        persist_range(h, at, words)?;
        persist_gate(h, self.gate_at, self.lo, self.hi, used)
    }

    /// Appends an entry. On `Ok` each image has it. Until then each image has the log either as it was or with the
    /// whole entry.
    ///
    /// There must be 1 to 32 values, the sequence number must fit in 16 bits, and the order must be 0 or 1. It returns
    /// `TooBig` exactly if the entry's words and those in use are together more than 1,016. After an error `self` is
    /// unchanged. It takes two fences.
    pub fn append<H: Host>(
        &mut self,
        h: &mut H,
        addr: u64,
        seq: u32,
        order: u32,
        vals: &[u64],
    ) -> Result<(), AppendFault>
        requires place { self.old.gate_at + LOG_WORDS ≤ (H.counts h.old).size }
        requires some { 1 ≤ length vals.now }
        requires no_more { length vals.now ≤ MAX_ENTRY_VALUES }
        requires seq_fits { seq < 2 ^ 16 }
        requires order_known { order ≤ REDO_ORDER }
        ensures too_big { (result ≡ Result.Err AppendFault.TooBig) ↔ (LOG_ENTRY_WORDS < self.old.used + (length vals.now + ENTRY_HEADER_WORDS)) }
        ensures too_big_stays { H.tells → result ≡ Result.Err AppendFault.TooBig → H.state h.new ≡ H.state h.old }
        ensures appended { IfOk result (λ _. self.new ≡ with_entry (record { address = addr; seq = seq; order = order; vals = vals.now }) self.old) }
        ensures failed { OnErr result (self.new ≡ self.old) }
        ensures changes { H.tells → Changes (InLog self.old.gate_at) (append_fault result) (H.state h.old) (H.state h.new) }
        ensures at_once { H.tells → CountsAtOnce self.old self.new (append_fault result) (H.state h.old) (H.state h.new) }
        ensures appends { H.tells → (es : List Entry) → IsOpen self.old es (H.state h.old).now.words
            → Appends self.old es (length vals.now + ENTRY_HEADER_WORDS) (record { address = addr; seq = seq; order = order; vals = vals.now } ∷ []) result (H.state h.old) (H.state h.new) }
        ensures cause { H.counts h.new ≡ after_fault (append_fault result) (H.counts h.old) }
    {
        let words = vals.len() as u32 + ENTRY_HEADER_WORDS;
        if self.used + words > LOG_ENTRY_WORDS {
            return Err(AppendFault::TooBig);
        }
        let mut buffer = [0u64; MAX_ENTRY_WORDS as usize];
        let n = encode(addr, seq, order, vals, &mut buffer);
        self.append_fitting(h, &buffer[..n])?;
        self.used += words;
        self.defers = (order == REDO_ORDER) | self.defers;
        Ok(())
    }

    /// Appends two undo entries under one gate. The first has the values that the words from that of `addr` on had. The
    /// second has the value that the word of `addr2` had. On `Ok` each image has both. Until then each image has the
    /// log either as it was or with both.
    ///
    /// There must be 1 to 32 values. It returns `TooBig` exactly if the words of both, `vals.len() + 5`, and those in
    /// use are together more than 1,016. After an error `self` is unchanged. It takes two fences.
    pub fn append_two<H: Host>(
        &mut self,
        h: &mut H,
        addr: u64,
        vals: &[u64],
        addr2: u64,
        word: u64,
    ) -> Result<(), AppendFault>
        requires place { self.old.gate_at + LOG_WORDS ≤ (H.counts h.old).size }
        requires some { 1 ≤ length vals.now }
        requires no_more { length vals.now ≤ MAX_ENTRY_VALUES }
        ensures too_big { (result ≡ Result.Err AppendFault.TooBig) ↔ (LOG_ENTRY_WORDS < self.old.used + (length vals.now + 5)) }
        ensures too_big_stays { H.tells → result ≡ Result.Err AppendFault.TooBig → H.state h.new ≡ H.state h.old }
        ensures appended { IfOk result (λ _. self.new ≡ with_words (length vals.now + 5) self.old) }
        ensures failed { OnErr result (self.new ≡ self.old) }
        ensures changes { H.tells → Changes (InLog self.old.gate_at) (append_fault result) (H.state h.old) (H.state h.new) }
        ensures at_once { H.tells → CountsAtOnce self.old self.new (append_fault result) (H.state h.old) (H.state h.new) }
        ensures appends { H.tells → (es : List Entry) → IsOpen self.old es (H.state h.old).now.words
            → Appends self.old es (length vals.now + 5) (undo_entry addr vals.now ∷ undo_entry addr2 (word ∷ []) ∷ []) result (H.state h.old) (H.state h.new) }
        ensures cause { H.counts h.new ≡ after_fault (append_fault result) (H.counts h.old) }
    {
        let both = vals.len() as u32 + (ENTRY_HEADER_WORDS + ONE_VALUE_WORDS);
        if self.used + both > LOG_ENTRY_WORDS {
            return Err(AppendFault::TooBig);
        }
        let mut buffer = [0u64; MAX_TWO_ENTRIES_WORDS as usize];
        let n = encode_two(addr, vals, addr2, word, &mut buffer);
        self.append_fitting(h, &buffer[..n])?;
        self.used += both;
        Ok(())
    }

    /// Cuts the log back to its first `used` entry words by the store of one word. On `Ok` this is durable: the words
    /// after them no longer count.
    ///
    /// It must not be more words than count now. If the words end with an entry, each image left meanwhile has the log
    /// either as it was or with only the entries up to there. The only errors are the host's own. After an error `self`
    /// is unchanged.
    pub fn cut_back<H: Host>(&mut self, h: &mut H, used: u16) -> Result<(), HostFault>
        requires place { self.old.gate_at + LOG_WORDS ≤ (H.counts h.old).size }
        requires fewer { used ≤ self.old.used }
        ensures cut { IfOk result (λ _. self.new ≡ cut_to used self.old) }
        ensures failed { OnErr result (self.new ≡ self.old) }
        ensures persists { H.tells → Persists (only self.old.gate_at (gate_word self.old.lo self.old.hi used)) (fault_of result) (H.state h.old) (H.state h.new) }
        ensures cuts { H.tells → (front : List Entry) → (back : List Entry) → IsOpen self.old (front ++ back) (H.state h.old).now.words → entry_words front ≡ used
            → Cuts self.old used front (fault_of result) (H.state h.old) (H.state h.new) }
        ensures cause { H.counts h.new ≡ after_fault (fault_of result) (H.counts h.old) }
    {
        let fewer = u32::from(used);
        persist_gate(h, self.gate_at, self.lo, self.hi, fewer)?;
        self.used = fewer;
        Ok(())
    }

    /// Moves the range to (2,4) by the store of one word. On `Ok` this is durable. From then on redo entries count, and
    /// undo entries no longer count.
    ///
    /// The only errors are the host's own. After an error `self` is unchanged.
    pub fn to_committing<H: Host>(&mut self, h: &mut H) -> Result<(), HostFault>
        requires { self.old.gate_at + LOG_WORDS ≤ (H.counts h.old).size }
        ensures moved { IfOk result (λ _. self.new ≡ committing self.old) }
        ensures failed { OnErr result (self.new ≡ self.old) }
        ensures persists { H.tells → Persists (only self.old.gate_at (gate_word COMMITTING_LO COMMITTING_HI self.old.used)) (fault_of result) (H.state h.old) (H.state h.new) }
        ensures open { H.tells → (es : List Entry) → IsOpen self.old es (H.state h.old).now.words → IfOk result (λ _. IsOpen self.new es (H.state h.new).now.words) }
        ensures cause { H.counts h.new ≡ after_fault (fault_of result) (H.counts h.old) }
    {
        persist_gate(h, self.gate_at, COMMITTING_LO, COMMITTING_HI, self.used)?;
        self.lo = COMMITTING_LO;
        self.hi = COMMITTING_HI;
        Ok(())
    }

    /// Closes the log. On `Ok` this is durable: the range is (4,4), in which no entry lies, and no entry word counts.
    ///
    /// The only errors are the host's own. The call writes one word, the gate.
    pub fn close<H: Host>(self, h: &mut H) -> Result<(), HostFault>
        requires { self.gate_at + LOG_WORDS ≤ (H.counts h.old).size }
        ensures persists { H.tells → Persists (only self.gate_at CLOSED_GATE) (fault_of result) (H.state h.old) (H.state h.new) }
        ensures cause { H.counts h.new ≡ after_fault (fault_of result) (H.counts h.old) }
    {
        let at = self.at();
        persist_word(h, at, CLOSED_GATE)
    }
}
