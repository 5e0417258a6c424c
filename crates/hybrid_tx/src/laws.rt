//! The laws of the calls on objects. Each function here does nothing; its contract is the law.

ghost use Rattle.std.specs.Prelude.{◌≡◌, ◌+◌, ◌≤◌, ℕ, false, List, [], ◌∷◌, slice_get, Option};
ghost use Rattle.pm_model.specs.Moments.{State};
ghost use Rattle.pm_model.specs.Changes.{placed};
ghost use Rattle.pud_defs.specs.declared.layout.TheConstants.{LOG_WORDS};
ghost use Rattle.pud_defs.specs.declared.records.Puddle.{Puddle};
ghost use Rattle.pud_defs.specs.declared.records.Slot.{Slot};
ghost use Rattle.pud_defs.specs.declared.objects.FieldValue.{FieldValue};
ghost use Rattle.pud_defs.specs.declared.objects.FieldValue.TheVariants.{Ref};
ghost use Rattle.pud_defs.specs.Formats.Layout.{device_words, frames_at};
ghost use Rattle.pud_defs.specs.Formats.Image.{Image};
ghost use Rattle.pud_defs.specs.Logging.Entries.{log_of};
ghost use Rattle.pud_defs.specs.Logging.Replay.{overwritten, replayed};
ghost use Rattle.pud_defs.specs.PoolGraphs.Graph.{Graph, is_referenced};
ghost use Rattle.pud_defs.specs.PoolGraphs.GraphChanges.{with_field, with_new, blank_object, without_object, with_root};
ghost use Rattle.pud_defs.specs.PoolGraphs.DeferredValues.{with_deferred_set};
ghost use Rattle.puddle_header.specs.Places.{IsSlotOf};
ghost use Rattle.object_alloc.specs.Alloc.{serial_word_at};
ghost use Rattle.word_transaction.specs.Scope.{IsScope, written_in_turn};
ghost use Rattle.hybrid_tx.specs.PoolScopes.{pool_place, pool_scope, finished_of, ArePlacedPuddles, IsRewrittenAt};
ghost use Rattle.hybrid_tx.specs.Objects.Stores.{new_object_write, IsInSlot, IsWordFor, field_write, root_write};
ghost use Rattle.hybrid_tx.specs.Objects.Transactions.{MaySet, IsOpenOn, IsAtRest, KeepsOpenOn, AbortsOnPool, CommitsOnPool};
ghost use Rattle.hybrid_tx.specs.Objects.Graphs.{HasGraph, ForEachGraph, IfInFinishedSlot, ForEachFreeSlot, ForEachDeferredSet, ForEachTransaction, IfRecovers};

/// The addresses of a pool's ranges name words of the pool's frames. None of these is a word of a log that lies
/// before all frames.
pub fn pools_are_scopes()
    ensures { (frames : ℕ) (size : ℕ) (log : ℕ) (at : List (ℕ × Puddle)) → ArePlacedPuddles frames at → device_words frames ≤ size → log + LOG_WORDS ≤ frames_at frames
        → IsScope size log (pool_scope frames at) }
{}

/// If the word that stands for a value is stored in the word of a field, the field has this value.
pub fn stored_word_sets_the_field()
    ensures { ForEachGraph (λ types F at image g. (s : ℕ) (f : ℕ) (slot : Slot) → IfInFinishedSlot F at image s slot ((x : FieldValue) (v : ℕ) → MaySet types g s f x
        → IsWordFor F at image x v → HasGraph types F at (overwritten (field_write F slot f v) image) (with_field s f x g))) }
{}

/// A free slot that is filled under the next serial is a new object, if the next serial then is one more.
pub fn stored_words_make_the_object()
    ensures { ForEachFreeSlot (λ types F at image first slot serial id m g.
        HasGraph types F at (overwritten (new_object_write F first.0 slot serial id) image) (with_new (blank_object slot.class id m) g)) }
{}

/// If the word that stands for a root is stored in the first frame of a pool, the pool has this root.
pub fn stored_word_is_the_root()
    ensures { ForEachGraph (λ types F at image g. IsRewrittenAt at 0 → (first : ℕ × Puddle) → slice_get at 0 ≡ Option.Some first → (s : ℕ) (v : ℕ)
        → IsWordFor F at image (Ref s) v → HasGraph types F at (overwritten (root_write F first.0 v) image) (with_root s g)) }
{}

/// If the serial of a slot is cleared, the slot is no object any more, provided that its object was not referenced.
pub fn cleared_serial_frees_the_object()
    ensures { ForEachGraph (λ types F at image g. (s : ℕ) (slot : Slot) → IsSlotOf at slot → IsInSlot F at image s slot → is_referenced s g ≡ false
        → HasGraph types F at (overwritten (placed (serial_word_at F slot) (0 ∷ [])) image) (without_object s g)) }
{}

/// The redo entries of the deferred values, written in turn over an image, make its graph the one with these values.
pub fn deferred_entries_make_the_graph()
    ensures { ForEachDeferredSet (λ F at types deferred redo image now.
        HasGraph types F at (written_in_turn (pool_place F (finished_of at)) redo image) (with_deferred_set deferred now)) }
{}

/// After a call within a transaction on a pool that did not fail, the transaction is open, on the next graph, with
/// the deferred values.
pub fn transaction_stays_open()
    ensures { ForEachTransaction (λ F at types log before graph_before next deferred. (old : State) (new : State)
        → KeepsOpenOn F at types log before graph_before next deferred Option.None old new → IsOpenOn F at types log before graph_before next deferred new.now.words) }
{}

/// With the log replayed, an image has the graph of the values that it recovers to. The premise: the words of the
/// puddles that are not finished have these values too.
pub fn settled_pool_has_the_graph()
    ensures { (F : ℕ) (at : List (ℕ × Puddle)) (types : List (ℕ × ℕ)) (size : ℕ) (log : ℕ) (values : Image) (image : Image) (g : Graph) → IfRecovers F at size log values image
        (HasGraph types F at values g → HasGraph types F at (replayed (pool_place F (finished_of at)) (log_of image log) image) g) }
{}

/// After a transaction was committed, none is open any more, and the pool has the new graph.
pub fn committed_pool_is_at_rest()
    ensures { (frames : ℕ) (at : List (ℕ × Puddle)) (types : List (ℕ × ℕ)) (log : ℕ) (before : Image) (graph_before : Graph) (next : Graph) (old : State) (new : State)
        → CommitsOnPool frames at types log before graph_before next Option.None old new → IsAtRest frames at types log next new.now.words }
{}

/// After a transaction was undone, none is open any more, and the pool has the graph before the transaction.
pub fn undone_pool_is_at_rest()
    ensures { (frames : ℕ) (at : List (ℕ × Puddle)) (types : List (ℕ × ℕ)) (log : ℕ) (before : Image) (graph_before : Graph) (old : State) (new : State)
        → AbortsOnPool frames at types log before graph_before Option.None old new → IsAtRest frames at types log graph_before new.now.words }
{}
