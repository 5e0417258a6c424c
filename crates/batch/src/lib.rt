//! Words of a device that are changed together, all or none, by means of the daemon log.
//!
//! The words to be written are first stored in the daemon log as entries. They are durable before the log's range
//! counts them, and one word makes it count them. Then they are written to their places, and the log is closed after
//! they are durable there. So each image left meanwhile has, with the daemon log replayed, either all of the new words
//! or all of the old ones. A batch costs four fences.
#![tactic(auto)]

ghost use Rattle.std.specs.Prelude.{◌≡◌, ◌↔◌, ◌+◌, ◌<◌, ◌≤◌, ℕ, List, [], ◌∷◌, ◌++◌, Option, Result, IsErr, OnErr, length};
ghost use Rattle.pm_model.specs.Counts.{after_fault, fault_of};
ghost use Rattle.pm_model.specs.Changes.{Changes};
ghost use Rattle.log_replay.specs.Replaying.{Anything};
ghost use Rattle.pud_defs.specs.declared.layout.TheConstants.{DAEMON_LOG, LOG_WORDS, LOG_ENTRY_WORDS, ENTRY_HEADER_WORDS, MAX_ENTRY_VALUES};
ghost use Rattle.pud_defs.specs.Logging.Entries.{Entry, entries_in};
ghost use Rattle.pud_defs.specs.StateMachine.World.{StoredWorld};
ghost use Rattle.batch.specs.Batches.{batch_entry, word_count_of, AreBatched, IsFree, ByBatch, Prepares, Commits};
ghost use Rattle.batch.specs.Worlds.{WhileQuiescent, MovesBy, Moves};

use log_entry::encode;
use log_replay::{Target, settle_log};
use pm_model::{Host, HostFault};
use pm_persist::{persist_range, persist_word};
use pud_defs::layout::{
    DAEMON_LOG, ENTRY_HEADER_WORDS, LOG_ENTRY_WORDS, LOG_HEADER_WORDS, MAX_ENTRY_WORDS,
};
use pud_defs::log_words::{COMMITTING_HI, COMMITTING_LO, REDO_ORDER, REDO_SEQ, gate_word};
use std::marker::Model;

/// The batch has no room for the words. It is unchanged.
#[derive(Clone, Copy, Debug, PartialEq, Eq, thiserror::Error)]
#[error("the words do not fit into the batch")]
pub struct TooBig;

/// Words that are to be written together.
#[derive(Drop)]
pub struct Batch {
    words: [u64; LOG_ENTRY_WORDS as usize],
    used: u32,
}

impl Model for Batch {
    ghost use Rattle.std.specs.Prelude.{List};
    ghost use Rattle.pud_defs.specs.Logging.Entries.{Entry};
    ghost use Rattle.batch.specs.Batches.{entries_spelled, IsBuffer};

    ghost Value = { List Entry };

    ghost view = { λ b. entries_spelled b.used b.words };

    ghost invariant = { λ b. IsBuffer b.used b.words };
}

/// Makes the entries durable in the log whose gate is word `at`, and then makes its range count them.
fn prepare<H: Host>(h: &mut H, at: u32, words: &[u64]) -> Result<(), HostFault>
    requires place { at + LOG_WORDS ≤ (H.counts h.old).size }
    requires fits { length words.now ≤ LOG_ENTRY_WORDS }
    ensures prepares { H.tells → (size : ℕ) → size ≡ (H.counts h.old).size → (es : List Entry) → entries_in 0 words.now ≡ Option.Some es → AreBatched es
        → IsFree size at es (H.state h.old).now.words → Prepares size at es (fault_of result) (H.state h.old) (H.state h.new) }
    ensures any { H.tells → Changes Anything (fault_of result) (H.state h.old) (H.state h.new) }
    ensures cause { H.counts h.new ≡ after_fault (fault_of result) (H.counts h.old) }
{
    // This call tells the proof that the number of a device's words fits in 32 bits. So the number of each word fits,
    // too.
    let _words = h.words();
    persist_range(h, at + LOG_HEADER_WORDS, words)?;
    persist_word(
        h,
        at,
        gate_word(COMMITTING_LO, COMMITTING_HI, words.len() as u32),
    )
}

/// Writes the words that these entries name, all or none, by means of the log whose gate is word `at`.
fn commit_by<H: Host>(h: &mut H, at: u32, words: &[u64]) -> Result<(), HostFault>
    requires place { at + LOG_WORDS ≤ (H.counts h.old).size }
    requires fits { length words.now ≤ LOG_ENTRY_WORDS }
    ensures commits { H.tells → (size : ℕ) → size ≡ (H.counts h.old).size → (es : List Entry) → entries_in 0 words.now ≡ Option.Some es → AreBatched es
        → IsFree size at es (H.state h.old).now.words → Commits at es (fault_of result) (H.state h.old) (H.state h.new) }
    ensures any { H.tells → Changes Anything (fault_of result) (H.state h.old) (H.state h.new) }
    ensures cause { H.counts h.new ≡ after_fault (fault_of result) (H.counts h.old) }
{
    prepare(h, at, words)?;
    settle_log(h, at, Target::Words)
}

impl Batch {
    /// A batch without words.
    pub fn new() -> Batch
        ensures { result ≡ [] }
    {
        Batch {
            words: [0; LOG_ENTRY_WORDS as usize],
            used: 0,
        }
    }

    /// Adds the words from word `w` on with these values, 1 to 32. If a word was added before, the later value counts.
    ///
    /// It returns `TooBig` exactly if the values and two more words, together with the entry words of what was added
    /// before, are more than the 1,016 entry words of the daemon log. Then the batch is unchanged.
    pub fn add(&mut self, w: u32, vals: &[u64]) -> Result<(), TooBig>
        requires some { 1 ≤ length vals.now }
        requires no_more { length vals.now ≤ MAX_ENTRY_VALUES }
        ensures too_big { (IsErr result) ↔ (LOG_ENTRY_WORDS < word_count_of self.old + (length vals.now + ENTRY_HEADER_WORDS)) }
        ensures added { word_count_of self.old + (length vals.now + ENTRY_HEADER_WORDS) ≤ LOG_ENTRY_WORDS
            → self.new ≡ self.old ++ batch_entry w vals.now ∷ [] }
        ensures failed { OnErr result (self.new ≡ self.old) }
    {
        let more = vals.len() as u32 + ENTRY_HEADER_WORDS;
        if self.used + more > LOG_ENTRY_WORDS {
            return Err(TooBig);
        }
        let mut entry = [0u64; MAX_ENTRY_WORDS as usize];
        let n = encode(u64::from(w), REDO_SEQ, REDO_ORDER, vals, &mut entry);
        let at = self.used as usize;
        self.words[at..at + n].copy_from_slice(&entry[..n]);
        self.used += more;
        Ok(())
    }

    /// Writes the words of the batch, all or none. On `Ok` they are durable.
    ///
    /// The device must have the daemon log. If that log counts nothing in each image, and the words of the batch lie
    /// within the device apart from it, then each image left meanwhile is, with the daemon log replayed, like the
    /// device before the batch or after it. On `Ok` the words have their new values and no others, and the daemon log
    /// is closed.
    ///
    /// If each image stands for a world, the words lie where the daemon log may write, and each image with them written
    /// stands for the next world, then each image left meanwhile stands for one of the two worlds, and on `Ok` for the
    /// next. The only errors are the host's own.
    pub fn commit<H: Host>(self, h: &mut H) -> Result<(), HostFault>
        requires { DAEMON_LOG + LOG_WORDS ≤ (H.counts h.old).size }
        ensures commits { H.tells → (size : ℕ) → size ≡ (H.counts h.old).size → IsFree size DAEMON_LOG self (H.state h.old).now.words
            → Commits DAEMON_LOG self (fault_of result) (H.state h.old) (H.state h.new) }
        // This holds whatever words are masked that it does not write.
        ensures moves { H.tells → (size : ℕ) → size ≡ (H.counts h.old).size → (s next : StoredWorld) → WhileQuiescent size s (ByBatch DAEMON_LOG self) (H.state h.old) (H.state h.new)
            (λ before after. MovesBy size s next self before.now.words → Moves size s next self (fault_of result) before after) }
        ensures any { H.tells → Changes Anything (fault_of result) (H.state h.old) (H.state h.new) }
        ensures cause { H.counts h.new ≡ after_fault (fault_of result) (H.counts h.old) }
    {
        commit_by(h, DAEMON_LOG, &self.words[..self.used as usize])
    }
}
