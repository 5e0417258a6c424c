//! Transactions on words: the old values are saved in a log before the words are written, and are restored from it
//! unless the transaction is committed.
#![tactic(auto)]

mod covering;
mod ending;
mod keeping;
pub mod laws;
mod running;
mod undoing;

ghost use Rattle.std.specs.Prelude.{◌≡◌};
ghost use Rattle.log_store.specs.Store.{OpenLog};

use log_store::Log;
use std::marker::Model;

/// A place in the log of a transaction, to which it can be undone: after so many of the log's entry words. An entry
/// ends there, or no word comes before it.
#[derive(Clone, Copy, Debug)]
pub struct TxMark {
    pub used: u16,
}

impl TxMark {
    /// The place before all entries.
    pub fn start() -> TxMark
        ensures { result.used ≡ 0 }
    {
        TxMark { used: 0 }
    }
}

/// An open transaction, which is known by its log. `commit` and `abort` consume it, and so does `lose` if power was
/// lost or the host failed.
pub struct WordTransaction {
    log: Log,
}

impl Model for WordTransaction {
    ghost Value = { OpenLog };

    ghost view = { λ transaction. transaction.log };
}
