//! Laws of transactions that stay open beside other calls: what is known about one after the calls, and what an image
//! stands for that is left meanwhile. The words of an open transaction are masked. The words of its log are masked
//! with those of a closed log. The words of its pool's frames, and of the records that it rests on, are masked with
//! their values from its beginning. Each function here does nothing; its contract is the law.

ghost use Rattle.std.specs.Prelude.{◌≡◌, ◌<◌, ℕ, true, false, List, Option};
ghost use Rattle.pud_defs.specs.declared.layout.TheConstants.{DAEMON_LOG};
ghost use Rattle.pud_defs.specs.declared.records.Puddle.{Puddle};
ghost use Rattle.pud_defs.specs.Formats.Image.{Image};
ghost use Rattle.pud_defs.specs.Logging.Replay.{settled_by};
ghost use Rattle.pud_defs.specs.RegistryTables.Registry.{frames_of};
ghost use Rattle.pud_defs.specs.Logging.Settled.{ALL_LOGS, log_number_at, is_refused_log};
ghost use Rattle.pud_defs.specs.RegistryTables.Spaces.{is_closed_log};
ghost use Rattle.pud_defs.specs.PoolGraphs.Graph.{Graph};
ghost use Rattle.pud_defs.specs.PoolGraphs.DeferredValues.{DeferredValue};
ghost use Rattle.pud_defs.specs.StateMachine.World.{world_of};
ghost use Rattle.log_store.specs.Store.{OpenLog};
ghost use Rattle.hybrid_tx.specs.Open.Masks.{OpenPool, open_mask, IsLeftOpen};
ghost use Rattle.hybrid_tx.specs.Open.ManyOpen.{Opens, open_masks, AreOpenPools, HasRecords, MasksAll};
ghost use Rattle.hybrid_tx.specs.Open.Beside.{StaysOpenBeside, IsUnnamed, RestsOnRecords, ForEachPicked, ForEachLeft, ByOpen, ForEachTwo, StandsMasked, ForOneMore};

/// A transaction on a pool stays open, with the same graphs and the same deferred values, beside calls that give no
/// value to a word of its log or of the pool's frames, unless power is lost. Types may be defined meanwhile, if each
/// pool keeps the graph that it has.
pub fn transaction_stays_open_beside_calls()
    ensures { (F : ℕ) (at : List (ℕ × Puddle)) (types : List (ℕ × ℕ)) (more : List (ℕ × ℕ)) (log : OpenLog) (before : Image) (graph_before : Graph) (now : Graph) (deferred : List DeferredValue)
        → StaysOpenBeside F at types more log before graph_before now deferred }
{}

/// One open transaction may write the words of its log and of its pool's frames. No other masks these words: none is
/// a word of another's log, of another's pool, or of a record that another rests on. The premise: an image has the
/// records of each as at its beginning.
pub fn words_of_one_are_masked_by_no_other()
    ensures { (F : ℕ) (opens : Opens) (image : Image) → AreOpenPools F opens → HasRecords opens image
        → ForEachTwo opens (λ o q. (k : ℕ) (v : ℕ) → ByOpen F o k v → open_mask F q.pool q.before k ≡ Option.None) }
{}

/// An image that may be left while a transaction is open on a pool is left with it open. The premises: each word of
/// the records that it rests on has its value from the beginning and no other, and the daemon log names none of its
/// words.
pub fn image_picked_is_left_with_it_open()
    ensures { (F : ℕ) (p : OpenPool) → ForEachPicked F p (λ before words image.
        RestsOnRecords p before words → IsUnnamed F p before image → IsLeftOpen F p before image) }
{}

/// Transactions are open, each on a pool of its own. An image that may be left meanwhile stands for the same world as
/// the image with the words of all of them masked, if each registered log is closed in the masked image.
pub fn image_left_stands_for_the_masked_world()
    ensures { ForEachLeft (λ size s image. world_of size image ≡ Option.Some s) }
{}

/// In such an image no log of a client is refused, once the daemon log is replayed.
pub fn image_left_refuses_no_log()
    ensures { ForEachLeft (λ size s image. (number : ℕ) → number < ALL_LOGS → is_refused_log (frames_of image) (settled_by DAEMON_LOG image) number ≡ false) }
{}

/// In an image that has the records of each as at its beginning, each word of the open transactions has one value to
/// be masked with: the value of each transaction that has the word.
pub fn words_of_all_are_masked_alike()
    ensures { (frames : ℕ) (opens : Opens) (image : Image) → AreOpenPools frames opens → HasRecords opens image → MasksAll frames opens (open_masks frames opens) }
{}

/// As one more begins: the image has its records and frames as at its beginning, and its daemon log names none of its
/// words. Then the image stands for the same world with its words masked too.
pub fn world_stays_as_one_more_is_masked()
    ensures { ForOneMore (λ size s number others opens image. StandsMasked size s others image → StandsMasked size s opens image) }
{}

/// As one of them ends, and its log is closed: such an image stands for the same world with its words no longer
/// masked.
pub fn world_stays_as_one_is_masked_no_more()
    ensures { ForOneMore (λ size s number others opens image.
        is_closed_log image (log_number_at s.frames number) ≡ true → StandsMasked size s opens image → StandsMasked size s others image) }
{}
