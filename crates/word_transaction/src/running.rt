//! How a transaction begins, what is written and deferred within it, and how entries are appended to its log.
#![tactic(auto)]

ghost use Rattle.std.specs.Prelude.{◌≡◌, ◌+◌, ◌<◌, ◌≤◌, ◌^◌, ◌∷◌, [], ℕ, true, IfOk, OnErr, length};
ghost use Rattle.pm_model.specs.Words.{reads};
ghost use Rattle.pm_model.specs.Counts.{after_fault, fault_of};
ghost use Rattle.pm_model.specs.Changes.{only, placed, Changes, Persists, Writes};
ghost use Rattle.pud_defs.specs.declared.layout.TheConstants.{LOG_WORDS, LOG_ENTRY_WORDS, ENTRY_HEADER_WORDS, MAX_ENTRY_VALUES};
ghost use Rattle.pud_defs.specs.declared.log_words.TheConstants.{RUNNING_GATE, REDO_ORDER};
ghost use Rattle.pud_defs.specs.Formats.Image.{Image};
ghost use Rattle.log_store.specs.Store.{InLog, CountsAtOnce, undo_entry, with_words, with_deferred_words, with_entry};
ghost use Rattle.word_transaction.specs.Scope.{Scope, IsScope, entry_of};
ghost use Rattle.word_transaction.specs.Running.{IsIdle, IsCovered, no_write, begun_log, KeepsRunning};
ghost use Rattle.word_transaction.specs.Promises.{InScope, WhileOpen, AppendsEntries, DefersWords};

use crate::WordTransaction;
use log_store::{AppendFault, Log};
use pm_model::{Host, HostFault};
use pm_persist::write_range;
use pud_defs::log_words::{REDO_ORDER, REDO_SEQ};

impl WordTransaction {
    /// Begins a transaction. Word `at` is the gate of its log. On `Ok` that log is running, with no entry, and this is
    /// durable.
    ///
    /// The log must lie within the device. If the log is closed in each image, whatever entries it has, and each of the
    /// transaction's own words has only one value, then each image left meanwhile has these words, with the log
    /// replayed, as they are. The only errors are the host's own. The call writes one word, the gate. It takes one
    /// fence.
    pub fn begin<H: Host>(h: &mut H, at: u32) -> Result<WordTransaction, HostFault>
        requires { at + LOG_WORDS ≤ (H.counts h.old).size }
        ensures opened { IfOk result (λ transaction. transaction ≡ begun_log at) }
        ensures persists { H.tells → Persists (only at RUNNING_GATE) (fault_of result) (H.state h.old) (H.state h.new) }
        ensures runs { H.tells → (size : ℕ) → size ≡ (H.counts h.old).size → (g : Scope) → (before : Image) → IsScope size at g → IsIdle g at before (H.state h.old).now.words
            → KeepsRunning g (begun_log at) [] before no_write (fault_of result) (H.state h.old) (H.state h.new) }
        ensures cause { H.counts h.new ≡ after_fault (fault_of result) (H.counts h.old) }
    {
        let log = Log::open_running(h, at)?;
        Ok(WordTransaction { log })
    }

    /// Appends an entry to the log, which must have room for it.
    pub(crate) fn append<H: Host>(
        &mut self,
        h: &mut H,
        address: u64,
        seq: u32,
        order: u32,
        vals: &[u64],
    ) -> Result<(), HostFault>
        requires place { self.old.gate_at + LOG_WORDS ≤ (H.counts h.old).size }
        requires some { 1 ≤ length vals.now }
        requires no_more { length vals.now ≤ MAX_ENTRY_VALUES }
        requires seq_fits { seq < 2 ^ 16 }
        requires order_known { order ≤ REDO_ORDER }
        requires room { self.old.used + (length vals.now + ENTRY_HEADER_WORDS) ≤ LOG_ENTRY_WORDS }
        ensures appended { IfOk result (λ _. self.new ≡ with_entry (entry_of address seq order vals.now) self.old) }
        ensures failed { OnErr result (self.new ≡ self.old) }
        ensures changes { H.tells → Changes (InLog self.old.gate_at) (fault_of result) (H.state h.old) (H.state h.new) }
        ensures at_once { H.tells → CountsAtOnce self.old self.new (fault_of result) (H.state h.old) (H.state h.new) }
        ensures runs { H.tells → WhileOpen (H.counts h.old).size self.old (H.state h.old) (λ g es before. AppendsEntries g (with_entry (entry_of address seq order vals.now) self.old)
            es before (entry_of address seq order vals.now ∷ []) (fault_of result) (H.state h.old) (H.state h.new)) }
        ensures cause { H.counts h.new ≡ after_fault (fault_of result) (H.counts h.old) }
    {
        match self.log.append(h, address, seq, order, vals) {
            Ok(()) => Ok(()),
            Err(AppendFault::Host(fault)) => Err(fault),
            Err(AppendFault::TooBig) => unreachable!(),
        }
    }

    /// Appends two undo entries under one gate. The log must have room for them. The first has the values that the
    /// words from that of `address` on had. The second has the value that the word of `address2` had.
    pub(crate) fn append_two<H: Host>(
        &mut self,
        h: &mut H,
        address: u64,
        vals: &[u64],
        address2: u64,
        word: u64,
    ) -> Result<(), HostFault>
        requires place { self.old.gate_at + LOG_WORDS ≤ (H.counts h.old).size }
        requires some { 1 ≤ length vals.now }
        requires no_more { length vals.now ≤ MAX_ENTRY_VALUES }
        requires room { self.old.used + (length vals.now + 5) ≤ LOG_ENTRY_WORDS }
        ensures appended { IfOk result (λ _. self.new ≡ with_words (length vals.now + 5) self.old) }
        ensures failed { OnErr result (self.new ≡ self.old) }
        ensures changes { H.tells → Changes (InLog self.old.gate_at) (fault_of result) (H.state h.old) (H.state h.new) }
        ensures at_once { H.tells → CountsAtOnce self.old self.new (fault_of result) (H.state h.old) (H.state h.new) }
        ensures runs { H.tells → WhileOpen (H.counts h.old).size self.old (H.state h.old) (λ g es before. AppendsEntries g (with_words (length vals.now + 5) self.old)
            es before (undo_entry address vals.now ∷ undo_entry address2 (word ∷ []) ∷ []) (fault_of result) (H.state h.old) (H.state h.new)) }
        ensures cause { H.counts h.new ≡ after_fault (fault_of result) (H.counts h.old) }
    {
        match self.log.append_two(h, address, vals, address2, word) {
            Ok(()) => Ok(()),
            Err(AppendFault::Host(fault)) => Err(fault),
            Err(AppendFault::TooBig) => unreachable!(),
        }
    }

    /// Defers these values, 1 to 32, for the words from that of `address` on. The words get them when the transaction
    /// is committed.
    ///
    /// The log must lie within the device, and it must have room for the values and two more words. Outside the log
    /// every word reads as before. On `Ok` each image left has, with the log replayed, the transaction's own words as
    /// they were when it began. Before that each image has them so, too. After an error `self` is unchanged. The only
    /// errors are the host's own. It takes two fences.
    pub fn defer<H: Host>(&mut self, h: &mut H, address: u64, vals: &[u64]) -> Result<(), HostFault>
        requires place { self.old.gate_at + LOG_WORDS ≤ (H.counts h.old).size }
        requires some { 1 ≤ length vals.now }
        requires no_more { length vals.now ≤ MAX_ENTRY_VALUES }
        requires room { self.old.used + (length vals.now + ENTRY_HEADER_WORDS) ≤ LOG_ENTRY_WORDS }
        ensures asked { IfOk result (λ _. self.new ≡ with_deferred_words (length vals.now + ENTRY_HEADER_WORDS) self.old) }
        ensures failed { OnErr result (self.new ≡ self.old) }
        ensures changes { H.tells → Changes (InLog self.old.gate_at) (fault_of result) (H.state h.old) (H.state h.new) }
        ensures runs { H.tells → InScope (H.counts h.old).size self.old.gate_at (λ g es before. g.may_name address (length vals.now) ≡ true
            → DefersWords g self.old es before address vals.now (fault_of result) (H.state h.old) (H.state h.new)) }
        ensures cause { H.counts h.new ≡ after_fault (fault_of result) (H.counts h.old) }
    {
        self.append(h, address, REDO_SEQ, REDO_ORDER, vals)
    }

    /// Writes these values to the words from device word `first` on, and marks the words: they are durable after the
    /// next fence.
    ///
    /// The words must lie within the device. If each of them is one of the transaction's own and is saved, each image
    /// left meanwhile has the own words, with the log replayed, as they were when the transaction began. The only
    /// errors are the host's own. It takes no fence.
    pub fn write<H: Host>(&self, h: &mut H, first: u32, vals: &[u64]) -> Result<(), HostFault>
        requires { first + length vals.now ≤ (H.counts h.old).size }
        ensures writes { H.tells → Writes (placed first vals.now) (fault_of result) (H.state h.old) (H.state h.new) }
        ensures runs { H.tells → WhileOpen (H.counts h.old).size self.now (H.state h.old) (λ g es before. IsCovered g es (placed first vals.now)
            → KeepsRunning g self.now es before (placed first vals.now) (fault_of result) (H.state h.old) (H.state h.new)) }
        ensures cause { H.counts h.new ≡ after_fault (fault_of result) (H.counts h.old) }
    {
        write_range(h, first, vals)
    }

    /// The number of the word that is its log's gate.
    pub fn at(&self) -> u32
        ensures { result ≡ self.now.gate_at }
    {
        self.log.at()
    }

    /// Whether the transaction has deferred values, which words get at its commit. The call touches no device.
    pub fn defers(&self) -> bool
        ensures { result ≡ self.now.defers }
    {
        self.log.defers()
    }
}
