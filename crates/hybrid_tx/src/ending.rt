//! How a transaction ends: it is committed, undone, or lost.
#![tactic(auto)]

ghost use Rattle.std.specs.Prelude.{◌≡◌, ◌+◌, ◌≤◌, List, false};
ghost use Rattle.pm_model.specs.Counts.{after_fault, fault_of};
ghost use Rattle.pm_model.specs.Changes.{Changes};
ghost use Rattle.pud_defs.specs.declared.layout.TheConstants.{LOG_WORDS, LOG_ENTRY_WORDS};
ghost use Rattle.pud_defs.specs.Logging.Entries.{Entry};
ghost use Rattle.pud_defs.specs.PoolGraphs.DeferredValues.{with_deferred_set};
ghost use Rattle.log_store.specs.Store.{IsOpen};
ghost use Rattle.log_replay.specs.Replaying.{HasPuddleTable, Anything};
ghost use Rattle.word_transaction.specs.Running.{ByCommit};
ghost use Rattle.hybrid_tx.specs.Objects.Transactions.{AbortsOnPool, CommitsOnPool};
ghost use Rattle.hybrid_tx.specs.Objects.Endings.{WhileCommittable, WhileAbortable, WritesPending, WritesSaved};

use crate::Tx;
use pm_model::{Host, HostFault};

impl Tx {
    /// Commits the transaction. At `Ok` what it set and made is durable, and after that the values that it deferred,
    /// in turn. The log is closed.
    ///
    /// The log lies in the device, before the frames, and so does the puddle table of so many frames, at most 1,024.
    /// If values were deferred, four things hold. The table lies before the log. Each word of the table has one value.
    /// By the table, the addresses of the pool's ranges are where the transaction took them to be. The puddles whose
    /// fields get the values are finished.
    ///
    /// As long as the log has the range of a running one, whatever a power loss leaves is, with the log replayed, as
    /// at the beginning. Once it has the range of a committing one, or is closed, it has all that was changed and
    /// deferred. At `Ok` the range moved when all changes were durable, and before any deferred value was written.
    /// The only errors are the host's own.
    ///
    /// If no value was ever deferred, it takes no load and three fences, and the only word written is the log's gate.
    /// Else it takes the loads of a replay, and four fences.
    pub fn commit<H: Host>(self, h: &mut H, frames: u32) -> Result<(), HostFault>
        requires log { self.log.gate_at + LOG_WORDS ≤ (H.counts h.old).size }
        requires tables { HasPuddleTable frames (H.counts h.old).size }
        ensures ends { H.tells → WhileCommittable frames (H.counts h.old).size self.log (H.state h.old).now.words (λ pool types before was now deferred.
            CommitsOnPool frames pool types self.log.gate_at before was (with_deferred_set deferred now) (fault_of result) (H.state h.old) (H.state h.new)) }
        // Besides the log's gate, it writes only words of the pool's finished puddles that redo entries of the log
        // name.
        ensures names { H.tells → WhileCommittable frames (H.counts h.old).size self.log (H.state h.old).now.words (λ pool types before was now deferred.
            WritesPending frames pool self.log (fault_of result) (H.state h.old) (H.state h.new)) }
        ensures gate { H.tells → (es : List Entry) → IsOpen self.log es (H.state h.old).now.words → self.log.defers ≡ false → Changes (ByCommit self.log) (fault_of result) (H.state h.old) (H.state h.new) }
        ensures any { H.tells → Changes Anything (fault_of result) (H.state h.old) (H.state h.new) }
        ensures cause { H.counts h.new ≡ after_fault (fault_of result) (H.counts h.old) }
    {
        let Tx {
            words,
            units: _units,
        } = self;
        words.commit(h, frames)
    }

    /// Undoes the transaction: at `Ok` each word of the pool is as at the beginning, durably, and the log is closed.
    ///
    /// The log lies in the device, before the frames, and so does the puddle table of so many frames, at most 1,024.
    /// Each word of that table has one value. By the table, the addresses of the pool's ranges are where the
    /// transaction took them to be. Whatever a power loss leaves meanwhile is, with the log replayed, as at the
    /// beginning. The only errors are the host's own.
    ///
    /// If nothing was set, made or deferred, it takes no load, and one fence. Else it takes the loads of a replay,
    /// and two fences.
    pub fn abort<H: Host>(self, h: &mut H, frames: u32) -> Result<(), HostFault>
        requires log { self.log.gate_at + LOG_WORDS ≤ (H.counts h.old).size }
        requires tables { HasPuddleTable frames (H.counts h.old).size }
        ensures closes { H.tells → WhileAbortable frames (H.counts h.old).size self.log (H.state h.old).now.words (λ pool types before was now deferred.
            AbortsOnPool frames pool types self.log.gate_at before was (fault_of result) (H.state h.old) (H.state h.new)) }
        // Besides the log's gate, it writes only words of the pool's finished puddles that undo entries of the log
        // name.
        ensures names { H.tells → WhileAbortable frames (H.counts h.old).size self.log (H.state h.old).now.words (λ pool types before was now deferred.
            WritesSaved frames pool self.log.gate_at (fault_of result) (H.state h.old) (H.state h.new)) }
        ensures any { H.tells → Changes Anything (fault_of result) (H.state h.old) (H.state h.new) }
        ensures cause { H.counts h.new ≡ after_fault (fault_of result) (H.counts h.old) }
    {
        let Tx {
            words,
            units: _units,
        } = self;
        words.abort(h, frames)
    }

    /// Gives up the transaction after power was lost or the host failed. It touches no device.
    pub fn lose(self) {
        let Tx {
            words,
            units: _units,
        } = self;
        words.lose();
    }

    /// The word of the log's gate.
    pub fn at(&self) -> u32
        ensures { result ≡ (self.now).log.gate_at }
    {
        self.words.at()
    }

    /// Whether values are deferred, which the commit writes. It touches no device.
    pub fn defers(&self) -> bool
        ensures { result ≡ (self.now).log.defers }
    {
        self.words.defers()
    }

    /// How many units the transaction has taken, from 0 to 1,016.
    pub fn units(&self) -> u32
        ensures units { result ≡ (self.now).units }
        ensures within { result ≤ LOG_ENTRY_WORDS }
    {
        self.units
    }
}
