//! The laws of what is printed. The functions here do nothing; their contracts are the laws.

ghost use Rattle.std.specs.Prelude.{◌≡◌, ℕ, List};
ghost use Rattle.pud_defs.specs.Output.CheckText.{check_text};
ghost use Rattle.pud_defs.specs.Formats.Image.{Image};
ghost use Rattle.pud_defs.specs.Output.LayoutText.{tables_text};
ghost use Rattle.pud_defs.specs.RegistryTables.Registry.{frames_of};
ghost use Rattle.pud_defs.specs.RegistryTables.SoundTables.{HasSoundTables};
ghost use Rattle.pud_defs.specs.RegistryTables.Tables.{Tables, tables_of};
ghost use Rattle.pud_defs.specs.StateMachine.World.{stored_by};
ghost use Rattle.pud_check.specs.Checked.{listed_check};
ghost use Rattle.pud_check.specs.LayoutListed.{listed_layout};
ghost use Rattle.pud_check.specs.Summary.{sum_line, summary_text};
ghost use Rattle.pud_check.specs.SummaryListed.{listed_sum, listed_summary};

/// What is printed for sound tables is the text that states where everything is.
pub fn sound_tables_are_laid_out()
    ensures { (next : ℕ) (t : Tables) (id number : ℕ) → HasSoundTables next t → listed_layout id number t ≡ tables_text id number t }
{}

/// What is printed for the pools of sound tables is the check text of the world that their image stands for.
pub fn sound_tables_are_checked()
    ensures { (frames next : ℕ) (image : Image) → HasSoundTables next (tables_of frames image) → frames ≡ frames_of image → listed_check frames image ≡ check_text (stored_by image) }
{}

/// What is printed for the pool of a name, and the summary of a generated run: on sound tables, both are those of the
/// world that their image stands for.
pub fn sound_tables_are_summed_up()
    ensures line { (frames next : ℕ) (image : Image) → HasSoundTables next (tables_of frames image) → frames ≡ frames_of image
        → (name : List ℕ) → listed_sum frames image name ≡ sum_line name (stored_by image) }
    ensures summary { (frames next : ℕ) (image : Image) → HasSoundTables next (tables_of frames image) → frames ≡ frames_of image
        → (lines refused : ℕ) → listed_summary frames image lines refused ≡ summary_text lines refused (stored_by image) }
{}
