//! The laws about graphs. Each function does nothing: its contract is the law.

ghost use Rattle.std.specs.Prelude.{◌≡◌, ◌≢◌, ◌↔◌, ◌==◌, count_by, nat_lt, ◌+◌, ◌<◌, ◌≤◌, ℕ, true, false, List, length, map, slice_get, slice_index, Option, option_map};
ghost use Rattle.pud_defs.specs.declared.layout.TheConstants.{FRAME_WORDS, NUMBER_LIMIT};
ghost use Rattle.pud_defs.specs.declared.space.TheConstants.{FRAME_HEADER_WORDS, FRAME_ORDINAL_WORD, ROOT_WORD, SLOT_SERIAL_WORD, SLOT_FIELDS_WORD};
ghost use Rattle.pud_defs.specs.declared.records.TheConstants.{POOL_RECORDS};
ghost use Rattle.pud_defs.specs.declared.records.PoolRecord.{PoolRecord};
ghost use Rattle.pud_defs.specs.declared.records.Puddle.{Puddle};
ghost use Rattle.pud_defs.specs.declared.objects.FieldValue.{FieldValue};
ghost use Rattle.pud_defs.specs.declared.objects.FieldValue.TheVariants.{Num, Ref};
ghost use Rattle.pud_defs.specs.Formats.TypeMap.{is_pointer};
ghost use Rattle.pud_defs.specs.Formats.Geometry.{steps_of, slots_among, ordinal_of, slot_of};
ghost use Rattle.pud_defs.specs.RegistryTables.Types.{map_of, types_of, with_type};
ghost use Rattle.pud_defs.specs.RegistryTables.Registry.{frames_of, is_registry};
ghost use Rattle.pud_defs.specs.RegistryTables.Tables.{tables_of};
ghost use Rattle.pud_defs.specs.Formats.Image.{Image, image_with};
ghost use Rattle.pud_defs.specs.Formats.Frames.{frame_at, fresh_frame};
ghost use Rattle.pud_defs.specs.PoolGraphs.Stored.{Stored, stored_in, places_of, class_at, place_words, IsFreePlace};
ghost use Rattle.pud_defs.specs.PoolGraphs.Graph.{Object, Graph, place_map, table_of, place_of_serial, object_at, field_count, object_in, next_serial_of, is_referenced, pointee_at, graph_of, empty_graph};
ghost use Rattle.pud_defs.specs.PoolGraphs.GraphChanges.{blank_object, with_field, with_new, without_object, with_root};
ghost use Rattle.std.specs.List.{list_any, range_with_len};
ghost use Rattle.pud_defs.specs.PoolGraphs.ExportFile.{is_type_used, contents_of, file_graph};
ghost use Rattle.pud_defs.specs.PoolGraphs.Exported.{IsExportable};
ghost use Rattle.graph_laws.specs.Changes.{with_words, with_slot_word, with_field_word, with_serial_word, with_root_word, IsAddress, IsField, IsMade, with_frame_word, StandsAt, IfPointerField};
ghost use Rattle.graph_laws.specs.Reads.{ReadsSame, with_puddle, puddle_alone, IsGrown, AgreeOnFrames, HasDistinctFrames, AgreeOnFrame};
ghost use Rattle.graph_laws.specs.ReferenceCounts.{pointers_to, reference_count, MovesReference};
ghost use Rattle.graph_laws.specs.Slots.{AreAllLive, is_of_type};
ghost use Rattle.graph_laws.specs.Rewriting.{advanced, RewritesSteps, LeadSomewhere, IfFrontierMoves};
ghost use Rattle.graph_laws.specs.Steps.{steps_in, IfStepsMayBeWritten, KeepsGraphAfter, HasSameGraphAfter};
ghost use Rattle.graph_laws.specs.Exports.{words_of_export, contents_of_export, stored_pool, IfSpelled};
ghost use Rattle.graph_laws.specs.Placed.{ArePlacedFrames, AreAtEnd, KeepsBases, MovesBases};

/// The object of a serial is the object at the serial's place.
pub fn object_stands_at_the_place_of_its_serial()
    ensures { (types : List (ℕ × ℕ)) (st : Stored) (g : Graph) (s : ℕ) → graph_of types st ≡ Option.Some g
        → object_in s g ≡ option_map (object_at (table_of types st)) (place_of_serial s (table_of types st) (places_of st)) }
{}

/// Each slot of a class is live exactly if there are as many objects of the class as slots of it.
pub fn all_slots_are_live_with_as_many_objects()
    ensures { (types : List (ℕ × ℕ)) (st : Stored) (g : Graph) (class : ℕ) → graph_of types st ≡ Option.Some g
        → AreAllLive class st ↔ (count_by (λ e. e.1.class == class) g.objects ≡ slots_among class (map (λ d. d.class) st.puddles)) }
{}

/// There are no more objects of a class than slots of it.
pub fn objects_are_no_more_than_slots()
    ensures { (types : List (ℕ × ℕ)) (st : Stored) (g : Graph) (class : ℕ) → graph_of types st ≡ Option.Some g
        → count_by (λ e. e.1.class == class) g.objects ≤ slots_among class (map (λ d. d.class) st.puddles) }
{}

/// A word that is stored to a number field is the field's value.
pub fn stored_number_is_the_fields_value()
    ensures { (types : List (ℕ × ℕ)) (st : Stored) (g : Graph) (s : ℕ) (p : ℕ) (m : ℕ) (f : ℕ) (v : ℕ) → graph_of types st ≡ Option.Some g → IsField types st s p m f → is_pointer m f ≡ false
        → graph_of types (with_field_word p f v st) ≡ Option.Some (with_field s f (Num v) g) }
{}

/// If 0 is stored to a pointer field, the field is null.
pub fn stored_zero_is_null()
    ensures { (types : List (ℕ × ℕ)) (st : Stored) (g : Graph) (s p m f : ℕ) → IfPointerField types st g s p m f
        (graph_of types (with_field_word p f 0 st) ≡ Option.Some (with_field s f (Ref 0) g)) }
{}

/// If the address of an object over the pool's bases is stored to a pointer field, and the frontier is past the field's
/// slot, then the field names the object.
pub fn stored_address_names_the_object()
    ensures { (types : List (ℕ × ℕ)) (st : Stored) (g : Graph) (s p m f v r q : ℕ) → IfPointerField types st g s p m f
        (StandsAt types st r q → IsAddress st.puddles (ordinal_of p) (slot_of p + 1) q v
        → graph_of types (with_field_word p f v st) ≡ Option.Some (with_field s f (Ref r) g)) }
{}

/// If a free slot is filled under the next serial, and the next serial then is one more, the graph has a new object.
/// The serial is below its limit.
pub fn filled_slot_is_a_new_object()
    ensures { (types : List (ℕ × ℕ)) (st : Stored) (g : Graph) (word : ℕ → ℕ → ℕ) (p : ℕ) (id : ℕ) (m : ℕ) → graph_of types st ≡ Option.Some g → next_serial_of st < NUMBER_LIMIT → IsMade types st word p id m
        → graph_of types (with_words word st) ≡ Option.Some (with_new (blank_object (class_at st p) id m) g) }
{}

/// If nothing names an object and its serial is cleared, the slot has no object any more.
pub fn cleared_serial_frees_the_object()
    ensures { (types : List (ℕ × ℕ)) (st : Stored) (g : Graph) (s : ℕ) (p : ℕ) → graph_of types st ≡ Option.Some g → StandsAt types st s p → is_referenced s g ≡ false
        → graph_of types (with_serial_word p 0 st) ≡ Option.Some (without_object s g) }
{}

/// If 0 is stored to the root of a pool, the pool has no root.
pub fn stored_zero_is_no_root()
    ensures { (types : List (ℕ × ℕ)) (st : Stored) (g : Graph) → graph_of types st ≡ Option.Some g → graph_of types (with_root_word 0 st) ≡ Option.Some (with_root 0 g) }
{}

/// If the address of an object over the pool's bases is stored to the root, and the frontier is past the header, then
/// the object is the root.
pub fn stored_address_is_the_root()
    ensures { (types : List (ℕ × ℕ)) (st : Stored) (g : Graph) (s : ℕ) (q : ℕ) (v : ℕ) → graph_of types st ≡ Option.Some g → StandsAt types st s q → IsAddress st.puddles 0 0 q v
        → graph_of types (with_root_word v st) ≡ Option.Some (with_root s g) }
{}

/// If a field of an object is set, the object that the field named has one reference fewer, and the object that it
/// names now has one more.
pub fn set_field_moves_one_reference()
    ensures { (types : List (ℕ × ℕ)) (st : Stored) (g : Graph) (q s f : ℕ) (x was : FieldValue) (o : Object) → graph_of types st ≡ Option.Some g → object_in s g ≡ Option.Some o → slice_get o.fields f ≡ Option.Some was
        → MovesReference q g (with_field s f x g) was x }
{}

/// If the root is set, the object that it named has one reference fewer, and the object that it names now has one more.
pub fn set_root_moves_one_reference()
    ensures { (q : ℕ) (r : ℕ) (g : Graph) → MovesReference q g (with_root r g) (Ref g.root) (Ref r) }
{}

/// A new object references no object.
pub fn new_object_references_none()
    ensures { (types : List (ℕ × ℕ)) (st : Stored) (g : Graph) (q : ℕ) (class : ℕ) (id : ℕ) (m : ℕ) → graph_of types st ≡ Option.Some g → q ≢ 0 → reference_count q (with_new (blank_object class id m) g) ≡ reference_count q g }
{}

/// If an object is freed, each object loses one reference for each field of the freed object that named it.
pub fn freed_object_references_no_more()
    ensures { (types : List (ℕ × ℕ)) (st : Stored) (g : Graph) (q : ℕ) (s : ℕ) (o : Object) → graph_of types st ≡ Option.Some g → object_in s g ≡ Option.Some o
        → reference_count q (without_object s g) + pointers_to q o ≡ reference_count q g }
{}

/// An object is referenced exactly if its reference count is not 0.
pub fn referenced_object_is_counted()
    ensures { (s : ℕ) (g : Graph) → is_referenced s g ≡ nat_lt 0 (reference_count s g) }
{}

/// If words are the same wherever they are read, they have the same graph, or they have none either.
pub fn same_words_read_are_the_same_graph()
    ensures { (types : List (ℕ × ℕ)) (st : Stored) (word : ℕ → ℕ → ℕ) → ReadsSame types st word → graph_of types (with_words word st) ≡ graph_of types st }
{}

/// If two images agree on the frames of a pool, they store the same for the pool.
pub fn images_that_agree_store_the_same()
    ensures { (frames : ℕ) (at : List (ℕ × Puddle)) (i : Image) (j : Image) → AgreeOnFrames frames at i j → stored_in frames at j ≡ stored_in frames at i }
{}

/// If a word of a puddle's frame is written, that word of what is stored changes, and no other. No two puddles have the
/// same frame.
pub fn written_frame_word_is_a_stored_word()
    ensures { (frames : ℕ) (at : List (ℕ × Puddle)) (image : Image) (o k v : ℕ) (e : ℕ × Puddle) → HasDistinctFrames at → slice_get at o ≡ Option.Some e → k < FRAME_WORDS
        → stored_in frames at (image_with (frame_at frames e.0 + k) v image) ≡ with_frame_word o k v (stored_in frames at image) }
{}

/// Of a frame's header only the first three words are read, and in the frame of ordinal 0 also the next serial and the
/// root.
pub fn other_header_words_are_not_read()
    ensures { (types : List (ℕ × ℕ)) (st : Stored) (o : ℕ) (k : ℕ) (v : ℕ) → FRAME_ORDINAL_WORD < k → k < FRAME_HEADER_WORDS → (o ≡ 0 → ROOT_WORD < k)
        → graph_of types (with_frame_word o k v st) ≡ graph_of types st }
{}

/// Of a free slot only the serial is read.
pub fn other_words_of_a_free_slot_are_not_read()
    ensures { (types : List (ℕ × ℕ)) (st : Stored) (p : ℕ) (j : ℕ) (v : ℕ) → IsFreePlace st p → SLOT_SERIAL_WORD < j → j < place_words st p
        → graph_of types (with_slot_word p j v st) ≡ graph_of types st }
{}

/// No word of a slot is read that comes after the fields of the slot's type.
pub fn words_after_the_fields_are_not_read()
    ensures { (types : List (ℕ × ℕ)) (st : Stored) (p : ℕ) (m : ℕ) (j : ℕ) (v : ℕ) → place_map types st p ≡ Option.Some m → SLOT_FIELDS_WORD + field_count m ≤ j → j < place_words st p
        → graph_of types (with_slot_word p j v st) ≡ graph_of types st }
{}

/// A pool of one fresh puddle has the empty graph, in which nothing was made yet.
pub fn fresh_puddle_alone_is_the_empty_graph()
    ensures { (types : List (ℕ × ℕ)) (d : Puddle) (word : ℕ → ℕ → ℕ) → ((k : ℕ) → k < FRAME_WORDS → word 0 k ≡ slice_index (fresh_frame d.number 0) k)
        → graph_of types (puddle_alone d word) ≡ Option.Some empty_graph }
{}

/// A puddle without a live slot that is added after the others does not change the graph.
pub fn fresh_puddle_after_others_keeps_the_graph()
    ensures { (types : List (ℕ × ℕ)) (st : Stored) (g : Graph) (d : Puddle) (word : ℕ → ℕ → ℕ) → graph_of types st ≡ Option.Some g → IsGrown st d word
        → graph_of types (with_puddle d word st) ≡ Option.Some g }
{}

/// If there was no graph, such a puddle makes none: no pointer leads to a live slot of it.
pub fn fresh_puddle_after_others_makes_no_graph()
    ensures { (types : List (ℕ × ℕ)) (st : Stored) (d : Puddle) (word : ℕ → ℕ → ℕ) → graph_of types st ≡ Option.None → IsGrown st d word
        → graph_of types (with_puddle d word st) ≡ Option.None }
{}

/// If a pool's pointers are rewritten as the frontier of a puddle passes them, the pool has the same graph, however
/// many steps the frontier moves. A value may be an address over both sets of bases.
pub fn rewritten_steps_keep_the_graph()
    ensures { (types : List (ℕ × ℕ)) (st : Stored) (g : Graph) (word : ℕ → ℕ → ℕ) (o m : ℕ) (home : Puddle) → graph_of types st ≡ Option.Some g
        → IfFrontierMoves st o m home (RewritesSteps types st word o home.frontier m → graph_of types (advanced o m word st) ≡ Option.Some g) }
{}

/// If each pointer that is passed is null or leads to some slot, live or not, the pool has the same graph, or it has
/// none either.
pub fn rewritten_steps_make_no_graph()
    ensures { (types : List (ℕ × ℕ)) (st : Stored) (word : ℕ → ℕ → ℕ) (o m : ℕ) (home : Puddle)
        → IfFrontierMoves st o m home (LeadSomewhere types st o home.frontier m → RewritesSteps types st word o home.frontier m
        → graph_of types (advanced o m word st) ≡ graph_of types st) }
{}

/// If the steps of a puddle are written to an image, the image has the same graph as before.
pub fn written_steps_keep_the_graph()
    ensures { (frames : ℕ) (types : List (ℕ × ℕ)) (at : List (ℕ × Puddle)) (image : Image) (o m : ℕ) (e : ℕ × Puddle) → IfStepsMayBeWritten frames at o m e
        (KeepsGraphAfter frames types at image o m e) }
{}

/// If each pointer that is passed is null or leads to some slot, the image has the same graph as before, or it has none
/// either.
pub fn written_steps_make_no_graph()
    ensures { (frames : ℕ) (types : List (ℕ × ℕ)) (at : List (ℕ × Puddle)) (image : Image) (o m : ℕ) (e : ℕ × Puddle) → IfStepsMayBeWritten frames at o m e
        (LeadSomewhere types (stored_in frames at image) o e.1.frontier m → HasSameGraphAfter frames types at image o m e) }
{}

/// What the steps of a puddle write depends only on the words of its own frame.
pub fn steps_are_written_by_the_frame()
    ensures { (frames : ℕ) (types : List (ℕ × ℕ)) (at : List (ℕ × Puddle)) (i j : Image) (o m : ℕ) (e : ℕ × Puddle) → slice_get at o ≡ Option.Some e
        → AgreeOnFrame frames e.0 i j
        → steps_in frames types at j o m e ≡ steps_in frames types at i o m e }
{}

/// A pool that has a graph keeps it when a new type is defined.
pub fn graph_stays_under_one_type_more()
    ensures { (id : ℕ) (map : ℕ) (types : List (ℕ × ℕ)) (st : Stored) (g : Graph) → map_of id types ≡ Option.None → graph_of types st ≡ Option.Some g
        → graph_of (with_type id map types) st ≡ Option.Some g }
{}

/// An object of a graph has a type exactly if the object of some live slot has it.
pub fn used_type_is_that_of_a_live_slot()
    ensures { (types : List (ℕ × ℕ)) (st : Stored) (g : Graph) (id : ℕ) → graph_of types st ≡ Option.Some g
        → is_type_used id g ≡ list_any (is_of_type st id) (range_with_len 0 (places_of st)) }
{}

/// The exported words of a pool give its graph and the types of its objects, whatever its old bases and its frontiers
/// are.
pub fn exported_words_hold_the_graph()
    ensures { (machine number : ℕ) (types : List (ℕ × ℕ)) (st : Stored) (g : Graph) → IsExportable types st → graph_of types st ≡ Option.Some g
        → contents_of (words_of_export machine number types g st) ≡ Option.Some (contents_of_export types g st) }
{}

/// Bytes that spell these words, and no more, are a file with the same contents.
pub fn bytes_of_exported_words_are_a_file()
    ensures { (machine number : ℕ) (types : List (ℕ × ℕ)) (st : Stored) (g : Graph) → IsExportable types st → graph_of types st ≡ Option.Some g
        → (bytes : List ℕ) → IfSpelled bytes (words_of_export machine number types g st)
        (file_graph bytes ≡ Option.Some (contents_of_export types g st)) }
{}

/// A pool of a sound registry can be exported. Its types and the bases of its puddles are legal in a file, and there
/// are no more of them than a file may have.
pub fn pool_of_a_sound_registry_can_be_exported()
    ensures { (size : ℕ) (image : Image) (frames : ℕ) (slot : ℕ) (rec : PoolRecord) → is_registry size image ≡ true → frames ≡ frames_of image
        → slot < POOL_RECORDS → (tables_of frames image).pools slot ≡ Option.Some rec → IsExportable (types_of image) (stored_pool frames slot image) }
{}

/// Frames that are placed elsewhere keep their graph if their pointers stand for the same. The numbers and the bases of
/// their puddles there may be any.
pub fn placed_frames_have_the_graph()
    ensures { (types : List (ℕ × ℕ)) (file : Stored) (later : Stored) (g : Graph) → ArePlacedFrames file later → 1 ≤ length file.puddles → graph_of types file ≡ Option.Some g
        → graph_of types later ≡ Option.Some g }
{}

/// Pointers stand for the same if the bases are kept. If the bases are not kept, pointers stand for the same as long as
/// no step is rewritten and the old bases are those over which the pointers stand.
pub fn placed_pointers_stand_for_the_same()
    ensures kept { (file : List Puddle) (later : List Puddle) → AreAtEnd file → KeepsBases file later
        → (o : ℕ) (step : ℕ) (v : ℕ) (d : Puddle) → slice_get file o ≡ Option.Some d → step < steps_of d → pointee_at later o step v ≡ pointee_at file o step v }
    ensures moved { (file : List Puddle) (later : List Puddle) → AreAtEnd file → MovesBases file later
        → (o : ℕ) (step : ℕ) (v : ℕ) (d : Puddle) → slice_get file o ≡ Option.Some d → step < steps_of d → pointee_at later o step v ≡ pointee_at file o step v }
{}
