//! Laws of export files. Each function here does nothing; its contract is the law.

ghost use Rattle.std.specs.Prelude.{◌≡◌, ℕ, List, Option, true, take, is_some};
ghost use Rattle.std.specs.Ordering.{nat_cmp};
ghost use Rattle.std.specs.FinMap.Entries.{is_sorted};
ghost use Rattle.pm_model.specs.declared.host.TheConstants.{FILE_READ_LIMIT};
ghost use Rattle.pud_defs.specs.Formats.Image.{Image};
ghost use Rattle.pud_defs.specs.declared.machine.Command.TheVariants.{Import};
ghost use Rattle.pud_defs.specs.PoolGraphs.ExportFile.{file_graph};
ghost use Rattle.pud_defs.specs.StateMachine.World.{StoredWorld, World, world_of};
ghost use Rattle.pud_defs.specs.StateMachine.PoolChanges.{pool_named};
ghost use Rattle.pud_defs.specs.StateMachine.Step.{contents_named, refusal_of, after};
ghost use Rattle.pud_defs.specs.StateMachine.Gives.{contents_of_pool};
ghost use Rattle.pud_import.specs.Rewrites.{EachExportHas};

/// What a host gives of a file decides what the file contains. A host reads only a prefix of a long file, and that
/// prefix may be one byte longer than the largest export file.
pub fn prefix_of_a_file_decides()
    ensures { (bytes : List ℕ) → file_graph (take FILE_READ_LIMIT bytes) ≡ file_graph bytes }
{}

/// An imported pool contains what its file contains: the types, the classes of the puddles and the graph. If the pool is
/// exported afterwards, each file contains the same, however far the pool was rewritten before. The types that are
/// defined are assumed to stand by ascending ids, as those of each device do.
pub fn imported_pool_is_exported_as_its_file()
    ensures read { (w : World) (client : ℕ) (name : List ℕ) (file : List ℕ) (mode : ℕ) → let c = Import client name file mode in refusal_of w c ≡ Option.None → is_some (contents_named w c) ≡ true }
    ensures held { (w : World) (client : ℕ) (name : List ℕ) (file : List ℕ) (mode : ℕ) → let c = Import client name file mode in
        is_sorted nat_cmp w.stored.types ≡ true → refusal_of w c ≡ Option.None → contents_of_pool (after w c).stored.types (pool_named name (after w c).stored) ≡ contents_named w c }
    ensures exported { (w : World) (client : ℕ) (name : List ℕ) (file : List ℕ) (mode : ℕ) → let c = Import client name file mode in
        is_sorted nat_cmp w.stored.types ≡ true → refusal_of w c ≡ Option.None → EachExportHas name (after w c) (contents_named w c) }
    ensures ordered { (size : ℕ) (image : Image) (s : StoredWorld) → world_of size image ≡ Option.Some s → is_sorted nat_cmp s.types ≡ true }
{}
