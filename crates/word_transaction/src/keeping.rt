//! Saves the values of words in the log before the words are written, if they are not saved already.

ghost use Rattle.std.specs.Prelude.{◌≡◌, ◌+◌, ◌*◌, ◌<◌, ◌≤◌, ◌^◌, IfOk, OnErr};
ghost use Rattle.pm_model.specs.Words.{reads};
ghost use Rattle.pm_model.specs.Counts.{after_fault, fault_of};
ghost use Rattle.pm_model.specs.Changes.{Changes};
ghost use Rattle.pud_defs.specs.declared.layout.TheConstants.{LOG_WORDS, LOG_ENTRY_WORDS, ENTRY_HEADER_WORDS, MAX_ENTRY_VALUES};
ghost use Rattle.pud_defs.specs.declared.space.TheConstants.{WORD_BYTES};
ghost use Rattle.log_store.specs.Store.{InLog, CountsAtOnce, with_words};
ghost use Rattle.word_transaction.specs.Coverage.{words_to_keep, words_to_keep_both};
ghost use Rattle.word_transaction.specs.Running.{IsOneOf, IsOneOfBoth};
ghost use Rattle.word_transaction.specs.Promises.{InScope, InScopeAfter, IfNamed, OfEntriesAfter, SavesInOpen};

use crate::covering::find_covered;
use crate::{TxMark, WordTransaction};
use log_entry::read_values;
use pm_model::{Host, HostFault};
use pud_defs::log_words::{UNDO_ORDER, UNDO_SEQ};

impl WordTransaction {
    /// Appends an undo entry with the values of the `count` words from device word `first` on. The entry names them by
    /// `address`.
    fn append_held<H: Host>(
        &mut self,
        h: &mut H,
        address: u64,
        first: u32,
        count: u32,
    ) -> Result<(), HostFault>
        requires place { self.old.gate_at + LOG_WORDS ≤ (H.counts h.old).size }
        requires some { 1 ≤ count }
        requires no_more { count ≤ MAX_ENTRY_VALUES }
        requires within { first + count ≤ (H.counts h.old).size }
        requires room { self.old.used + (count + ENTRY_HEADER_WORDS) ≤ LOG_ENTRY_WORDS }
        ensures appended { IfOk result (λ _. self.new ≡ with_words (count + ENTRY_HEADER_WORDS) self.old) }
        ensures failed { OnErr result (self.new ≡ self.old) }
        ensures changes { H.tells → Changes (InLog self.old.gate_at) (fault_of result) (H.state h.old) (H.state h.new) }
        ensures at_once { H.tells → CountsAtOnce self.old self.new (fault_of result) (H.state h.old) (H.state h.new) }
        ensures keeps { H.tells → InScope (H.counts h.old).size self.old.gate_at (λ g es before. IfNamed g address count first
            (SavesInOpen g self.old self.new es before (IsOneOf first count) (fault_of result) (H.state h.old) (H.state h.new))) }
        ensures cause { H.counts h.new ≡ after_fault (fault_of result) (H.counts h.old) }
    {
        let values = read_values(h, first, count)?;
        self.append(h, address, UNDO_SEQ, UNDO_ORDER, &values[..count as usize])
    }

    /// Appends two undo entries under one gate. The first has the values of the `count` words from device word `first`
    /// on, and names them by `address`. The second has the value of word `second`, and names it by `address2`.
    fn append_both_held<H: Host>(
        &mut self,
        h: &mut H,
        address: u64,
        first: u32,
        count: u32,
        address2: u64,
        second: u32,
    ) -> Result<(), HostFault>
        requires place { self.old.gate_at + LOG_WORDS ≤ (H.counts h.old).size }
        requires some { 1 ≤ count }
        requires no_more { count ≤ MAX_ENTRY_VALUES }
        requires within { first + count ≤ (H.counts h.old).size }
        requires second_within { second < (H.counts h.old).size }
        requires room { self.old.used + (count + 5) ≤ LOG_ENTRY_WORDS }
        ensures appended { IfOk result (λ _. self.new ≡ with_words (count + 5) self.old) }
        ensures failed { OnErr result (self.new ≡ self.old) }
        ensures changes { H.tells → Changes (InLog self.old.gate_at) (fault_of result) (H.state h.old) (H.state h.new) }
        ensures at_once { H.tells → CountsAtOnce self.old self.new (fault_of result) (H.state h.old) (H.state h.new) }
        ensures keeps { H.tells → InScope (H.counts h.old).size self.old.gate_at (λ g es before. IfNamed g address count first (IfNamed g address2 1 second
            (SavesInOpen g self.old self.new es before (IsOneOfBoth first count second) (fault_of result) (H.state h.old) (H.state h.new)))) }
        ensures cause { H.counts h.new ≡ after_fault (fault_of result) (H.counts h.old) }
    {
        let values = read_values(h, first, count)?;
        let word = h.load(second)?;
        self.append_two(h, address, &values[..count as usize], address2, word)
    }

    /// Saves the values of the `count` words from device word `first` on in the log, as the words from that of
    /// `address` on. There are 1 to 32 of them. If undo entries of the log after `since` already cover each of these
    /// words, nothing is done. Else one entry with all of them is appended.
    ///
    /// The log and the words must lie within the device, and the log must have room for the words and two more. `since`
    /// must come after at most 1,016 words. On `Ok` each image left has, with the log replayed, these words as they
    /// were when the transaction began, whatever is then written to them. Before that each image has them so, too.
    /// After an error `self` is unchanged. The only errors are the host's own. It takes no fence if the words are
    /// covered, else two.
    pub fn save<H: Host>(
        &mut self,
        h: &mut H,
        since: TxMark,
        address: u64,
        first: u32,
        count: u32,
    ) -> Result<(), HostFault>
        requires place { self.old.gate_at + LOG_WORDS ≤ (H.counts h.old).size }
        requires counted { since.used ≤ LOG_ENTRY_WORDS }
        requires some { 1 ≤ count }
        requires no_more { count ≤ MAX_ENTRY_VALUES }
        requires within { first + count ≤ (H.counts h.old).size }
        requires room { self.old.used + (count + ENTRY_HEADER_WORDS) ≤ LOG_ENTRY_WORDS }
        ensures at { self.new.gate_at ≡ self.old.gate_at }
        ensures room { self.new.used ≤ self.old.used + (count + ENTRY_HEADER_WORDS) }
        ensures failed { OnErr result (self.new ≡ self.old) }
        ensures appended { H.tells → OfEntriesAfter since.used self.old.gate_at (reads (H.state h.old).now.words) (λ es. address + WORD_BYTES * count ≤ 2 ^ 64
            → IfOk result (λ _. self.new ≡ with_words (words_to_keep es address count) self.old)) }
        ensures covered { H.tells → OfEntriesAfter since.used self.old.gate_at (reads (H.state h.old).now.words) (λ es. address + WORD_BYTES * count ≤ 2 ^ 64
            → words_to_keep es address count ≡ 0 → H.state h.new ≡ H.state h.old) }
        ensures changes { H.tells → Changes (InLog self.old.gate_at) (fault_of result) (H.state h.old) (H.state h.new) }
        ensures at_once { H.tells → CountsAtOnce self.old self.new (fault_of result) (H.state h.old) (H.state h.new) }
        ensures keeps { H.tells → InScopeAfter since.used (H.counts h.old).size self.old.gate_at (λ g es before. IfNamed g address count first
            (SavesInOpen g self.old self.new es before (IsOneOf first count) (fault_of result) (H.state h.old) (H.state h.new))) }
        ensures cause { H.counts h.new ≡ after_fault (fault_of result) (H.counts h.old) }
    {
        let (covered, _) = find_covered(h, self.at(), since, address, count, address)?;
        if covered {
            return Ok(());
        }
        self.append_held(h, address, first, count)
    }

    /// Saves two things in the log: the values of the `count` words from device word `first` on, as the words from that
    /// of `address` on, and the value of word `second`, as the word of `address2`. `count` is 1 to 32. Each of the two
    /// gets an entry if undo entries of the log after `since` do not cover it already. If both get one, both are
    /// appended under one gate.
    ///
    /// The log and the words must lie within the device, and the log must have room for the words and five more.
    /// `since` must come after at most 1,016 words. On `Ok` each image left has, with the log replayed, these words as
    /// they were when the transaction began, whatever is then written to them. Before that each image has them so, too.
    /// After an error `self` is unchanged. The only errors are the host's own. It reads the log once. It takes no fence
    /// if all words are covered, else two.
    pub fn save_both<H: Host>(
        &mut self,
        h: &mut H,
        since: TxMark,
        address: u64,
        first: u32,
        count: u32,
        address2: u64,
        second: u32,
    ) -> Result<(), HostFault>
        requires place { self.old.gate_at + LOG_WORDS ≤ (H.counts h.old).size }
        requires counted { since.used ≤ LOG_ENTRY_WORDS }
        requires some { 1 ≤ count }
        requires no_more { count ≤ MAX_ENTRY_VALUES }
        requires within { first + count ≤ (H.counts h.old).size }
        requires second_within { second < (H.counts h.old).size }
        requires room { self.old.used + (count + 5) ≤ LOG_ENTRY_WORDS }
        ensures at { self.new.gate_at ≡ self.old.gate_at }
        ensures room { self.new.used ≤ self.old.used + (count + 5) }
        ensures failed { OnErr result (self.new ≡ self.old) }
        ensures appended { H.tells → OfEntriesAfter since.used self.old.gate_at (reads (H.state h.old).now.words) (λ es. address + WORD_BYTES * count ≤ 2 ^ 64
            → address2 + WORD_BYTES ≤ 2 ^ 64 → IfOk result (λ _. self.new ≡ with_words (words_to_keep_both es address count address2) self.old)) }
        ensures covered { H.tells → OfEntriesAfter since.used self.old.gate_at (reads (H.state h.old).now.words) (λ es. address + WORD_BYTES * count ≤ 2 ^ 64
            → address2 + WORD_BYTES ≤ 2 ^ 64 → words_to_keep_both es address count address2 ≡ 0 → H.state h.new ≡ H.state h.old) }
        ensures changes { H.tells → Changes (InLog self.old.gate_at) (fault_of result) (H.state h.old) (H.state h.new) }
        ensures at_once { H.tells → CountsAtOnce self.old self.new (fault_of result) (H.state h.old) (H.state h.new) }
        ensures keeps { H.tells → InScopeAfter since.used (H.counts h.old).size self.old.gate_at (λ g es before. IfNamed g address count first (IfNamed g address2 1 second
            (SavesInOpen g self.old self.new es before (IsOneOfBoth first count second) (fault_of result) (H.state h.old) (H.state h.new)))) }
        ensures cause { H.counts h.new ≡ after_fault (fault_of result) (H.counts h.old) }
    {
        let (one, other) = find_covered(h, self.at(), since, address, count, address2)?;
        if one {
            if other {
                return Ok(());
            }
            return self.append_held(h, address2, second, 1);
        }
        if other {
            return self.append_held(h, address, first, count);
        }
        self.append_both_held(h, address, first, count, address2, second)
    }
}
