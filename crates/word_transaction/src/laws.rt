//! The laws of a transaction on words that stays open: during other calls, and over more words. Each function here does
//! nothing: its contract is the law.

ghost use Rattle.std.specs.Prelude.{◌≡◌, ◌⊎◌, ℕ, true, List, Option};
ghost use Rattle.pm_model.specs.declared.host.HostFault.{HostFault};
ghost use Rattle.pm_model.specs.Words.{Words, Picks};
ghost use Rattle.pm_model.specs.Moments.{State};
ghost use Rattle.pm_model.specs.Changes.{Changes, Leaves, Silently};
ghost use Rattle.pud_defs.specs.Formats.Image.{Image};
ghost use Rattle.pud_defs.specs.Logging.Entries.{Entry};
ghost use Rattle.pud_defs.specs.Logging.Replay.{is_in_log};
ghost use Rattle.log_store.specs.Store.{OpenLog};
ghost use Rattle.word_transaction.specs.Scope.{Scope, IsScope, MayNameAll, HasSamePlaces, HasAllWords, AreNewWordsFresh};
ghost use Rattle.word_transaction.specs.Running.{IsRunning, BesideTransaction, RecoversTo};

/// A transaction stays open, with the same entries, during other calls that write no value to a word of its log or to
/// one of its own words.
pub fn transaction_stays_open_beside_calls()
    ensures { (g : Scope) (log : OpenLog) (es : List Entry) (before : Image) (fault : Option HostFault) (old : State) (new : State)
        → Changes (BesideTransaction g log.gate_at) fault old new → IsRunning g log es before old.now.words → IsRunning g log es before new.now.words }
{}

/// Each image that may be left while a transaction is open recovers to the values from the transaction's beginning.
pub fn image_left_recovers_to_the_beginning()
    ensures { (g : Scope) (log : OpenLog) (es : List Entry) (before : Image) (image : Image) (words : Words) → IsRunning g log es before words → Picks words image
        → RecoversTo g log.gate_at before image }
{}

/// Other calls that write no value to a word of an open transaction's log or to one of its own words leave, at each
/// moment, only images that recover to the values from the transaction's beginning.
pub fn images_left_beside_calls_recover_to_the_beginning()
    ensures { (g : Scope) (log : OpenLog) (es : List Entry) (before : Image) (fault : Option HostFault) (old : State) (new : State)
        → Changes (BesideTransaction g log.gate_at) fault old new → IsRunning g log es before old.now.words
        → Leaves (Silently (RecoversTo g log.gate_at before)) old new }
{}

/// Only the words of the log and the transaction's own words determine what an image recovers to.
pub fn image_recovers_by_its_words_alone()
    ensures { (g : Scope) (at : ℕ) (values : Image) (i : Image) (j : Image) → ((k : ℕ) → (is_in_log at k ≡ true) ⊎ (g.has_word k ≡ true) → j k ≡ i k)
        → RecoversTo g at values i → RecoversTo g at values j }
{}

/// The values from the beginning matter only on the transaction's own words. If other values agree with them there, the
/// transaction is open with those values, too.
pub fn values_count_on_own_words_alone()
    ensures { (size : ℕ) (g : Scope) (log : OpenLog) (es : List Entry) (before : Image) (values : Image) (words : Words) → IsScope size log.gate_at g
        → ((k : ℕ) → g.has_word k ≡ true → before k ≡ values k) → IsRunning g log es before words → IsRunning g log es values words }
{}

/// A transaction stays open if its scope gets more words, each of which has only one value, the one from the beginning.
/// Entries may name all that they could name before, at the same places.
pub fn transaction_stays_open_over_more_words()
    ensures { (g : Scope) (wide : Scope) (log : OpenLog) (es : List Entry) (before : Image) (words : Words)
        → MayNameAll g wide → HasSamePlaces g wide → HasAllWords g wide → AreNewWordsFresh g wide before words
        → IsRunning g log es before words → IsRunning wide log es before words }
{}
