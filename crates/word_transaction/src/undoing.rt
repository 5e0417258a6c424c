//! Undoes a transaction to a place in its log. What it did before that place stays, and it stays open.

ghost use Rattle.std.specs.Prelude.{◌≡◌, ◌+◌, ◌≤◌, IfOk, OnErr};
ghost use Rattle.pm_model.specs.Counts.{after_fault, fault_of};
ghost use Rattle.pm_model.specs.Changes.{Changes};
ghost use Rattle.pud_defs.specs.declared.layout.TheConstants.{LOG_WORDS};
ghost use Rattle.log_store.specs.Store.{cut_to};
ghost use Rattle.log_replay.specs.Replaying.{HasPuddleTable, Anything};
ghost use Rattle.word_transaction.specs.Promises.{InScopeAfter, UndoesTo};

use crate::{TxMark, WordTransaction};
use log_replay::{Target, undo_past};
use pm_model::{Host, HostFault};

impl WordTransaction {
    /// Undoes what the transaction did after a place in its log. On `Ok` each word that it saved since then has its
    /// value from there and no other, and the log ends at the place: values deferred since then are dropped.
    ///
    /// It needs what [`WordTransaction::abort`] needs. The place must not come after more words than count now. An
    /// entry must end there, or no word come before it. In each image left meanwhile the transaction's own words are,
    /// with the log replayed, as at the beginning. After an error `self` is unchanged. The only errors are the host's
    /// own.
    ///
    /// It takes the loads of a replay, and two fences.
    pub fn undo_to<H: Host>(&mut self, h: &mut H, frames: u32, to: TxMark) -> Result<(), HostFault>
        requires log { self.old.gate_at + LOG_WORDS ≤ (H.counts h.old).size }
        requires tables { HasPuddleTable frames (H.counts h.old).size }
        requires fewer { to.used ≤ self.old.used }
        ensures cut { IfOk result (λ _. self.new ≡ cut_to to.used self.old) }
        ensures failed { OnErr result (self.new ≡ self.old) }
        ensures undoes { H.tells → InScopeAfter to.used (H.counts h.old).size self.old.gate_at (λ g front before.
            UndoesTo g frames self.old (cut_to to.used self.old) front before (fault_of result) (H.state h.old) (H.state h.new)) }
        ensures any { H.tells → Changes Anything (fault_of result) (H.state h.old) (H.state h.new) }
        ensures cause { H.counts h.new ≡ after_fault (fault_of result) (H.counts h.old) }
    {
        // By this call the proof knows that no more words count than a log has.
        let _used = self.log.used();
        let at = self.log.at();
        let passed = u32::from(to.used);
        undo_past(h, at, passed, Target::Puddles(frames))?;
        self.log.cut_back(h, to.used)
    }
}
