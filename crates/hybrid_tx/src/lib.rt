//! Transactions on a pool's objects: a change is seen at once, and undone from a log unless the transaction is
//! committed.
//!
//! A transaction works on the words of the pool's frames. It saves in its log what a word holds before it gives the
//! word another value. So until the commit, a power loss at any moment leaves the pool as it was when the transaction
//! began, once its log is replayed.
//!
//! The calls on objects take the number of the device's frames, at most 1,024, on a device that has the words which
//! so many frames need. They also take the pool: the frames and the records of its puddles by their ordinals, at most
//! 16. A puddle is finished if each pointer in it stands over the pool's bases. The calls answer on every content of
//! the device. The only errors are the host's own.
//!
//! The definitions and proofs have two parts. `Objects` is about the calls on objects; its laws are in `laws`. `Open`
//! states what an image stands for that is left while pools have open transactions; its laws are in `open_laws`.
#![tactic(auto)]

mod changing;
mod ending;
mod later;
pub mod laws;
pub mod open_laws;
mod running;

pub use changing::{has_field, place_and_word, slot_address, word_for};
use std::marker::Model;
use word_transaction::WordTransaction;

/// An open transaction on the objects of a pool. It is spent by `commit` or `abort`, or by `lose` if power was lost
/// or the host failed.
pub struct Tx {
    words: WordTransaction,
    /// The units that its calls were charged: at least as many as the entry words of its log that count.
    units: u32,
}

impl Model for Tx {
    ghost use Rattle.std.specs.Prelude.{◌≤◌};
    ghost use Rattle.pud_defs.specs.declared.layout.TheConstants.{LOG_ENTRY_WORDS};
    ghost use Rattle.hybrid_tx.specs.Objects.Transactions.{OpenTx};

    ghost Value = { OpenTx };

    ghost view = { λ tx. record { log = tx.words; units = tx.units } };

    ghost invariant = { λ tx. (tx.words.used ≤ tx.units) × (tx.units ≤ LOG_ENTRY_WORDS) };
}
