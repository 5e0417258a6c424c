//! The laws of what is kept about a pool. After a change of the pool, what is kept is true of it if it changed in the
//! same way. Each function here does nothing: its contract is the law.

ghost use Rattle.std.specs.Prelude.{◌≡◌, ℕ, List, slice_get, Option};
ghost use Rattle.pud_defs.specs.declared.objects.FieldValue.{FieldValue};
ghost use Rattle.pud_defs.specs.declared.objects.FieldValue.TheVariants.{Ref};
ghost use Rattle.pud_defs.specs.declared.records.Puddle.{Puddle};
ghost use Rattle.pud_defs.specs.declared.records.Slot.{Slot};
ghost use Rattle.pud_defs.specs.Formats.Image.{Image};
ghost use Rattle.pud_defs.specs.PoolGraphs.Graph.{Object, object_in};
ghost use Rattle.pud_defs.specs.PoolGraphs.GraphChanges.{blank_object, with_field, with_new, without_object, with_root};
ghost use Rattle.pud_defs.specs.RegistryTables.Types.{types_of};
ghost use Rattle.known_pool.specs.Known.{Known, IsKnown, by_puddles, without_counts};
ghost use Rattle.known_pool.specs.Serials.{KeepsSerials, KeepsPrefix};
ghost use Rattle.known_pool.specs.Promises.{StoresGraph, StaysKnownWhile, ForChange, IsKnownMoved, IsKnownMade, IsKnownFreed};

/// What is kept about the puddles alone is true of each pool of them.
pub fn puddles_alone_are_known()
    ensures { (frames : ℕ) (at : List (ℕ × Puddle)) (image : Image) → IsKnown frames image (by_puddles at) }
{}

/// What is kept stays true if the pool has the graph that it had, and each place has the serial that it had. That is so
/// when steps of the pool are rewritten.
pub fn known_pool_stays_known()
    ensures { StaysKnownWhile KeepsSerials }
{}

/// What is kept also stays true if puddles are added after the others.
pub fn grown_pool_stays_known()
    ensures { StaysKnownWhile KeepsPrefix }
{}

/// As long as no serial changes, all but the reference counts stays true, whatever becomes of the graph. That is so when
/// deferred values are committed.
pub fn places_stay_known()
    ensures { (frames : ℕ) (known : Known) (before : Image) (after : Image) → KeepsSerials frames known.puddles known.puddles before after
        → IsKnown frames before known → IsKnown frames after (without_counts known) }
{}

/// After a field was set, what is kept is true if the references moved as `moved` moves them.
pub fn set_field_is_followed()
    ensures { ForChange (λ frames known next before after g. (s : ℕ) (f : ℕ) (now : FieldValue) (was : FieldValue) (object : Object)
        → object_in s g ≡ Option.Some object → slice_get object.fields f ≡ Option.Some was
        → IsKnownMoved frames known next before after (with_field s f now g) was now) }
{}

/// After the root was set, too.
pub fn set_root_is_followed()
    ensures { ForChange (λ frames known next before after g. (root : ℕ)
        → IsKnownMoved frames known next before after (with_root root g) (Ref g.root) (Ref root)) }
{}

/// After an object was made in the lowest free slot of a class, what is kept is true if the object was added to it as
/// `made` adds it.
pub fn made_object_is_followed()
    ensures { ForChange (λ frames known next before after g. (class : ℕ) (type_id : ℕ) (map : ℕ) (slot : Slot)
        → StoresGraph (types_of before) frames known.puddles after (with_new (blank_object class type_id map) g)
        → IsKnownMade frames known next before after g slot) }
{}

/// After an object was freed, what is kept is true if it gave up what the object named, and then the object, as `freed`
/// does.
pub fn freed_object_is_followed()
    ensures { ForChange (λ frames known next before after g. (s : ℕ) (slot : Slot)
        → StoresGraph (types_of before) frames known.puddles after (without_object s g) → IsKnownFreed frames known next before after g s slot) }
{}
