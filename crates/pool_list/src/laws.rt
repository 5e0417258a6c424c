//! The law of the list. The function here does nothing; its contract is the law.

ghost use Rattle.std.specs.Prelude.{◌≡◌, ◌++◌, ℕ, codes};
ghost use Rattle.pud_defs.specs.RegistryTables.SoundTables.{HasSoundTables};
ghost use Rattle.pud_defs.specs.StateMachine.Step.Answer.{of_text};
ghost use Rattle.pud_defs.specs.RegistryTables.Tables.{Tables, Reader, pools_of};
ghost use Rattle.pud_defs.specs.Output.Texts.{line_of, answer_text};
ghost use Rattle.pud_defs.specs.Output.Listing.{pools_text};
ghost use Rattle.pud_defs.specs.StateMachine.World.{StoredWorld};
ghost use Rattle.pool_list.specs.Listed.{listed_text};

/// What is printed for sound tables is the machine's answer to the command that lists the pools.
pub fn sound_tables_list_their_pools()
    ensures { (hold : Reader) (next : ℕ) (t : Tables) (s : StoredWorld) (id : ℕ) → HasSoundTables next t → pools_of hold t ≡ s.pools → id ≡ s.machine
        → line_of (codes "ok" ++ listed_text id t) ≡ answer_text (of_text (pools_text s)) }
{}
