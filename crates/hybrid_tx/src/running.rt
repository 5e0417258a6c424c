//! How a transaction begins, and how words of a pool's frames get values within it.
#![tactic(auto)]

ghost use Rattle.std.specs.Prelude.{◌≡◌, ◌+◌, ◌*◌, ◌<◌, ◌≤◌, ◌∷◌, [], ℕ, List, slice_get, Option, IfOk, length};
ghost use Rattle.pm_model.specs.Counts.{after_fault, fault_of};
ghost use Rattle.pm_model.specs.Changes.{only, placed, Changes, Persists};
ghost use Rattle.pud_defs.specs.declared.layout.TheConstants.{LOG_WORDS, LOG_ENTRY_WORDS, ENTRY_HEADER_WORDS, MAX_ENTRY_VALUES, MAX_FRAMES, FRAME_WORDS, SET_UNITS};
ghost use Rattle.pud_defs.specs.declared.log_words.TheConstants.{RUNNING_GATE};
ghost use Rattle.pud_defs.specs.declared.space.TheConstants.{WORD_BYTES};
ghost use Rattle.pud_defs.specs.declared.records.Puddle.{Puddle};
ghost use Rattle.pud_defs.specs.Formats.Layout.{device_words, frames_at};
ghost use Rattle.pud_defs.specs.Formats.Frames.{frame_at};
ghost use Rattle.pud_defs.specs.Logging.Replay.{over};
ghost use Rattle.pud_defs.specs.Logging.Settled.{ALL_LOGS, log_number_at};
ghost use Rattle.pud_defs.specs.PoolGraphs.Stored.{IsOnDevice};
ghost use Rattle.pud_defs.specs.PoolGraphs.Graph.{Graph};
ghost use Rattle.log_store.specs.Store.{InLog, CountsAtOnce, with_deferred_words};
ghost use Rattle.word_transaction.specs.Running.{no_write, begun_log, ByTransaction, KeepsRunning};
ghost use Rattle.hybrid_tx.specs.PoolScopes.{pool_scope, finished_of, ArePlacedPuddles};
ghost use Rattle.hybrid_tx.specs.Objects.Stores.{ByPut, ByPutBoth};
ghost use Rattle.hybrid_tx.specs.Objects.Transactions.{begun_tx, IsOpenOn};
ghost use Rattle.hybrid_tx.specs.Objects.Puts.{IfNamed, PutsInScope, IfFinished, WithFrames, PutsOnPool, DefersOnPool};
ghost use Rattle.hybrid_tx.specs.Objects.Endings.{WhileIdle};
ghost use Rattle.hybrid_tx.specs.Objects.Graphs.{HasGraph};

use crate::Tx;
use pm_model::{Host, HostFault};
use pud_defs::layout::{ENTRY_HEADER_WORDS, SET_UNITS, log_number_at};
use pud_defs::records::Puddle;
use pud_defs::space::{frame_at, word_address};
use word_transaction::{TxMark, WordTransaction};

impl Tx {
    /// Begins a transaction in the log of this number, 0 to 31 over all clients. At `Ok` that log is running,
    /// durably, with no entry.
    ///
    /// Suppose that the log is closed in each image, whatever entries it has, that the pool has a graph, and that
    /// each word of its frames has one value. Then at `Ok` a transaction is open on the pool. The only errors are the
    /// host's own. The only word written is the gate. One fence.
    pub fn begin<H: Host>(h: &mut H, frames: u32, log: u32) -> Result<Tx, HostFault>
        requires few { frames ≤ MAX_FRAMES }
        requires device { device_words frames ≤ (H.counts h.old).size }
        requires known { log < ALL_LOGS }
        ensures opened { IfOk result (λ tx. tx ≡ begun_tx (log_number_at frames log)) }
        ensures persists { H.tells → Persists (only (log_number_at frames log) RUNNING_GATE) (fault_of result) (H.state h.old) (H.state h.new) }
        ensures runs { H.tells → WhileIdle frames (log_number_at frames log) (H.state h.old).now.words (λ at before.
            KeepsRunning (pool_scope frames (finished_of at)) (begun_log (log_number_at frames log)) [] before no_write (fault_of result) (H.state h.old) (H.state h.new)) }
        ensures open { H.tells → WhileIdle frames (log_number_at frames log) (H.state h.old).now.words (λ at before. (types : List (ℕ × ℕ)) (g : Graph)
            → HasGraph types frames at before g → IfOk result (λ tx. IsOpenOn frames at types tx.log before g g [] (H.state h.new).now.words)) }
        ensures cause { H.counts h.new ≡ after_fault (fault_of result) (H.counts h.old) }
    {
        let gate = log_number_at(frames, log);
        let words = WordTransaction::begin(h, gate)?;
        Ok(Tx { words, units: 0 })
    }

    /// Saves in the log what the words from device word `first` on hold, if they are not saved already. Then gives
    /// them these values in turn, 1 to 32.
    pub(crate) fn put<H: Host>(
        &mut self,
        h: &mut H,
        address: u64,
        first: u32,
        vals: &[u64],
    ) -> Result<(), HostFault>
        requires place { (self.old).log.gate_at + LOG_WORDS ≤ (H.counts h.old).size }
        requires some { 1 ≤ length vals.now }
        requires no_more { length vals.now ≤ MAX_ENTRY_VALUES }
        requires within { first + length vals.now ≤ (H.counts h.old).size }
        requires room { (self.old).units + (length vals.now + ENTRY_HEADER_WORDS) ≤ LOG_ENTRY_WORDS }
        ensures at { (self.new).log.gate_at ≡ (self.old).log.gate_at }
        ensures counts { IfOk result (λ _. (self.new).units ≡ (self.old).units + (length vals.now + ENTRY_HEADER_WORDS)) }
        ensures changes { H.tells → Changes (ByPut (self.old).log.gate_at first vals.now) (fault_of result) (H.state h.old) (H.state h.new) }
        ensures puts { H.tells → PutsInScope (H.counts h.old).size (λ g rest. IfNamed g address (length vals.now) first rest)
            (placed first vals.now) (self.old).log (self.new).log (fault_of result) (H.state h.old) (H.state h.new) }
        ensures cause { H.counts h.new ≡ after_fault (fault_of result) (H.counts h.old) }
    {
        // By this call the proof knows that 32 bits count the words of a device, and so the places of words too.
        let _words = h.words();
        self.words
            .save(h, TxMark::start(), address, first, vals.len() as u32)?;
        self.units += vals.len() as u32 + ENTRY_HEADER_WORDS;
        self.words.write(h, first, vals)
    }

    /// Saves in the log what the words from device word `first` on hold, 1 to 32, and what word `second` holds, if
    /// they are not saved already. If neither is, both are saved under one gate. Then gives the words these values in
    /// turn, and word `second` this value.
    pub(crate) fn put_both<H: Host>(
        &mut self,
        h: &mut H,
        address: u64,
        first: u32,
        vals: &[u64],
        address2: u64,
        second: u32,
        value: u64,
    ) -> Result<(), HostFault>
        requires place { (self.old).log.gate_at + LOG_WORDS ≤ (H.counts h.old).size }
        requires some { 1 ≤ length vals.now }
        requires no_more { length vals.now ≤ MAX_ENTRY_VALUES }
        requires within { first + length vals.now ≤ (H.counts h.old).size }
        requires second_within { second < (H.counts h.old).size }
        requires room { (self.old).units + (length vals.now + 5) ≤ LOG_ENTRY_WORDS }
        ensures at { (self.new).log.gate_at ≡ (self.old).log.gate_at }
        ensures counts { IfOk result (λ _. (self.new).units ≡ (self.old).units + (length vals.now + 5)) }
        ensures changes { H.tells → Changes (ByPutBoth (self.old).log.gate_at first vals.now second value) (fault_of result) (H.state h.old) (H.state h.new) }
        // If these words come after the log's gate in memory, all that begins to count in the log does so by one
        // value of that gate.
        ensures at_once { H.tells → (self.old).log.gate_at < first → (self.old).log.gate_at < second → CountsAtOnce (self.old).log (self.new).log (fault_of result) (H.state h.old) (H.state h.new) }
        ensures puts { H.tells → PutsInScope (H.counts h.old).size (λ g rest. IfNamed g address (length vals.now) first (IfNamed g address2 1 second rest))
            (over (placed first vals.now) (placed second (value ∷ []))) (self.old).log (self.new).log (fault_of result) (H.state h.old) (H.state h.new) }
        ensures cause { H.counts h.new ≡ after_fault (fault_of result) (H.counts h.old) }
    {
        // By this call the proof knows that 32 bits count the words of a device, and so the places of words too.
        let _words = h.words();
        self.words.save_both(
            h,
            TxMark::start(),
            address,
            first,
            vals.len() as u32,
            address2,
            second,
        )?;
        self.units += vals.len() as u32 + (ENTRY_HEADER_WORDS + SET_UNITS);
        self.words.write(h, first, vals)?;
        self.words.write(h, second, &[value])
    }

    /// Saves in the log what the words from word `word` of a puddle's frame on hold, if they are not saved already.
    /// Then gives them these values in turn, 1 to 32.
    pub(crate) fn put_in_frame<H: Host>(
        &mut self,
        h: &mut H,
        frames: u32,
        pool: &[(u32, Puddle)],
        ordinal: u32,
        word: u32,
        vals: &[u64],
    ) -> Result<(), HostFault>
        requires few { frames ≤ MAX_FRAMES }
        requires device { device_words frames ≤ (H.counts h.old).size }
        requires known { IsOnDevice frames pool.now }
        requires place { (self.old).log.gate_at + LOG_WORDS ≤ frames_at frames }
        requires there { ordinal < length pool.now }
        requires some { 1 ≤ length vals.now }
        requires no_more { length vals.now ≤ MAX_ENTRY_VALUES }
        requires within { word + length vals.now ≤ FRAME_WORDS }
        requires room { (self.old).units + (length vals.now + ENTRY_HEADER_WORDS) ≤ LOG_ENTRY_WORDS }
        ensures at { (self.new).log.gate_at ≡ (self.old).log.gate_at }
        ensures counts { IfOk result (λ _. (self.new).units ≡ (self.old).units + (length vals.now + ENTRY_HEADER_WORDS)) }
        ensures changes { H.tells → Changes (ByTransaction (pool_scope frames pool.now) (self.old).log.gate_at) (fault_of result) (H.state h.old) (H.state h.new) }
        ensures puts { H.tells → (e : ℕ × Puddle) → slice_get pool.now ordinal ≡ Option.Some e
            → Changes (ByPut (self.old).log.gate_at (frame_at frames e.0 + word) vals.now) (fault_of result) (H.state h.old) (H.state h.new) }
        ensures saves { H.tells → ArePlacedPuddles frames pool.now → IfFinished pool.now ordinal (λ e.
            PutsOnPool frames pool.now (placed (frame_at frames e.0 + word) vals.now) (self.old).log (self.new).log (fault_of result) (H.state h.old) (H.state h.new)) }
        ensures cause { H.counts h.new ≡ after_fault (fault_of result) (H.counts h.old) }
    {
        let (frame, puddle) = pool[ordinal as usize];
        let address = word_address(puddle.base, word);
        self.put(h, address, frame_at(frames, frame) + word, vals)
    }

    /// Defers a value for word `word` of a puddle's frame.
    pub(crate) fn defer_in_frame<H: Host>(
        &mut self,
        h: &mut H,
        pool: &[(u32, Puddle)],
        ordinal: u32,
        word: u32,
        value: u64,
    ) -> Result<(), HostFault>
        requires place { (self.old).log.gate_at + LOG_WORDS ≤ (H.counts h.old).size }
        requires there { ordinal < length pool.now }
        requires within { word < FRAME_WORDS }
        requires room { (self.old).units + SET_UNITS ≤ LOG_ENTRY_WORDS }
        ensures at { (self.new).log.gate_at ≡ (self.old).log.gate_at }
        ensures done { IfOk result (λ _. (self.new).log ≡ with_deferred_words SET_UNITS (self.old).log) }
        ensures counts { IfOk result (λ _. (self.new).units ≡ (self.old).units + SET_UNITS) }
        ensures changes { H.tells → Changes (InLog (self.old).log.gate_at) (fault_of result) (H.state h.old) (H.state h.new) }
        ensures defers { H.tells → WithFrames pool.now (H.counts h.old).size (self.old).log.gate_at (λ frames. IfFinished pool.now ordinal (λ e.
            DefersOnPool frames pool.now (e.1.base + WORD_BYTES * word) value (self.old).log (self.new).log (fault_of result) (H.state h.old) (H.state h.new))) }
        ensures cause { H.counts h.new ≡ after_fault (fault_of result) (H.counts h.old) }
    {
        let (_, puddle) = pool[ordinal as usize];
        let field = word_address(puddle.base, word);
        self.words.defer(h, field, &[value])?;
        self.units += SET_UNITS;
        Ok(())
    }
}
