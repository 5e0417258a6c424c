//! How a transaction ends: committed, undone, or lost.
#![tactic(auto)]

ghost use Rattle.std.specs.Prelude.{◌≡◌, ◌+◌, ◌≤◌, List, false};
ghost use Rattle.pm_model.specs.Words.{reads};
ghost use Rattle.pm_model.specs.Counts.{after_fault, fault_of};
ghost use Rattle.pm_model.specs.Changes.{Changes};
ghost use Rattle.pud_defs.specs.declared.layout.TheConstants.{LOG_WORDS};
ghost use Rattle.pud_defs.specs.Logging.Entries.{Entry};
ghost use Rattle.log_store.specs.Store.{IsOpen};
ghost use Rattle.log_replay.specs.Replaying.{HasPuddleTable, Anything, ByLog};
ghost use Rattle.word_transaction.specs.Scope.{saved_in, pending_in};
ghost use Rattle.word_transaction.specs.Running.{ByCommit, ByCommitOf, AbortsTransaction, CommitsTransaction};
ghost use Rattle.word_transaction.specs.Promises.{WhileOpen, CanCommit, after_commit, IfPlaced};

use crate::WordTransaction;
use log_replay::{Target, settle_log};
use pm_model::{Host, HostFault};

impl WordTransaction {
    /// Commits the transaction. First all that it wrote becomes durable. Then its deferred values are written, the
    /// oldest first, and become durable. Then its log is closed. On `Ok` all this is done.
    ///
    /// The log must lie within the device, and so must the puddle table of `frames` frames, at most 1,024. If values
    /// were deferred, undone or not, that table must lie before the log, each word of it must have only one value, and
    /// the addresses that the log names must be where the transaction took them to be. As long as the log of an image
    /// left meanwhile has the range of a running log, the transaction's own words are, with the log replayed, as at the
    /// beginning. If the log has the range of a committing log or is closed, they have all that was written and
    /// deferred. On `Ok` the range moved when all that was written was durable. The only errors are the host's own.
    ///
    /// If nothing was ever deferred, it takes no load, writes no word but the gate, and takes three fences. Else it
    /// takes the loads of a replay, and four fences.
    pub fn commit<H: Host>(self, h: &mut H, frames: u32) -> Result<(), HostFault>
        requires log { self.gate_at + LOG_WORDS ≤ (H.counts h.old).size }
        requires tables { HasPuddleTable frames (H.counts h.old).size }
        ensures ends { H.tells → WhileOpen (H.counts h.old).size self (H.state h.old) (λ g es before. CanCommit g frames self (H.state h.old)
            → CommitsTransaction g self.gate_at before (after_commit g es (H.state h.old)) (fault_of result) (H.state h.old) (H.state h.new)) }
        // Except for its gate, it writes only words that redo entries of its log name.
        ensures names { H.tells → WhileOpen (H.counts h.old).size self (H.state h.old) (λ g es before. CanCommit g frames self (H.state h.old)
            → Changes (ByCommitOf self (pending_in g.place self.gate_at (reads (H.state h.old).now.words))) (fault_of result) (H.state h.old) (H.state h.new)) }
        ensures gate { H.tells → (es : List Entry) → IsOpen self es (H.state h.old).now.words → self.defers ≡ false → Changes (ByCommit self) (fault_of result) (H.state h.old) (H.state h.new) }
        ensures any { H.tells → Changes Anything (fault_of result) (H.state h.old) (H.state h.new) }
        ensures cause { H.counts h.new ≡ after_fault (fault_of result) (H.counts h.old) }
    {
        let WordTransaction { mut log } = self;
        let at = log.at();
        let asked = log.defers();
        h.fence()?;
        log.to_committing(h)?;
        if asked {
            return settle_log(h, at, Target::Puddles(frames));
        }
        log.close(h)
    }

    /// Undoes the transaction. On `Ok` each word that it may write has its value from the beginning and no other, and
    /// its log is closed.
    ///
    /// The log must lie within the device, and so must the puddle table of `frames` frames, at most 1,024. Each word of
    /// that table must have only one value, and the addresses that the log names must be where the transaction took
    /// them to be. In each image left meanwhile the transaction's own words are, with the log replayed, as at the
    /// beginning. The only errors are the host's own.
    ///
    /// If no entry word counts, it takes no load and one fence. Else it takes the loads of a replay, and two fences.
    pub fn abort<H: Host>(self, h: &mut H, frames: u32) -> Result<(), HostFault>
        requires log { self.gate_at + LOG_WORDS ≤ (H.counts h.old).size }
        requires tables { HasPuddleTable frames (H.counts h.old).size }
        ensures closes { H.tells → WhileOpen (H.counts h.old).size self (H.state h.old) (λ g es before. IfPlaced g frames (H.state h.old)
            (AbortsTransaction g self.gate_at before (fault_of result) (H.state h.old) (H.state h.new))) }
        // Except for its gate, it writes only words that undo entries of its log name.
        ensures names { H.tells → WhileOpen (H.counts h.old).size self (H.state h.old) (λ g es before. IfPlaced g frames (H.state h.old)
            (Changes (ByLog self.gate_at (saved_in g.place self.gate_at (reads (H.state h.old).now.words))) (fault_of result) (H.state h.old) (H.state h.new))) }
        ensures any { H.tells → Changes Anything (fault_of result) (H.state h.old) (H.state h.new) }
        ensures cause { H.counts h.new ≡ after_fault (fault_of result) (H.counts h.old) }
    {
        let WordTransaction { log } = self;
        let used = log.used();
        if used == 0 {
            return log.close(h);
        }
        settle_log(h, log.at(), Target::Puddles(frames))
    }

    /// Gives the transaction up after power was lost or the host failed. It touches no device.
    pub fn lose(self) {
        let WordTransaction { log: _log } = self;
    }
}
