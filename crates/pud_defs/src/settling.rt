//! Laws of the image that a start leaves: what the clients' logs give to it. Each function here does nothing; its
//! contract is the law.

ghost use Rattle.std.specs.Prelude.{◌≡◌, ◌↔◌, ◌+◌, ◌<◌, ◌≤◌, ℕ, false, Option};
ghost use Rattle.pud_defs.specs.declared.layout.TheConstants.{VERSION, VERSION_WORD, DAEMON_LOG, CLIENTS};
ghost use Rattle.pud_defs.specs.Formats.Image.{Image, image_with};
ghost use Rattle.pud_defs.specs.Logging.Entries.{Log};
ghost use Rattle.pud_defs.specs.Logging.Replay.{overwritten, settled_by};
ghost use Rattle.pud_defs.specs.RegistryTables.Spaces.{Owner, owner_of};
ghost use Rattle.pud_defs.specs.RegistryTables.Tables.{Tables};
ghost use Rattle.pud_defs.specs.Logging.Allowed.{is_allowed_log};
ghost use Rattle.pud_defs.specs.Logging.Settled.{gives_to, ALL_LOGS, given_by_log, given_by_others, log_alone, is_in_logs, beside_logs, settled_over, is_refused_log, AreDisjoint, IsApart, IsBeside};
ghost use Rattle.pud_defs.specs.RegistryTables.Registry.{frames_of, is_sound};
ghost use Rattle.pud_defs.specs.StateMachine.World.{StoredWorld, world_of, idle_world_of};

/// A closed log gives nothing: if no entry can be in its range, it gives no word a value.
pub fn closed_log_gives_nothing()
    ensures { (t : Tables) (who : Option Owner) (log : Log) (w : ℕ) → log.hi ≤ log.lo + 1 → gives_to t who log w ≡ Option.None }
{}

/// A log that is not allowed gives nothing, whatever its entries are.
pub fn refused_log_gives_nothing()
    ensures { (t : Tables) (who : Owner) (log : Log) (w : ℕ) → is_allowed_log t who log ≡ false → gives_to t (Option.Some who) log w ≡ Option.None }
{}

/// Suppose that no two logs give a value to the same word. If a log gives a value to a word outside the logs, the word
/// gets that value.
pub fn word_of_one_log_has_its_value()
    ensures { (F : ℕ) (image : Image) (number : ℕ) (w : ℕ) (v : ℕ) → AreDisjoint (given_by_log F image) ALL_LOGS → number < ALL_LOGS → is_in_logs F w ≡ false
        → given_by_log F image number w ≡ Option.Some v → settled_over F image w ≡ v }
{}

/// A word outside the logs keeps the image's own value if no log gives it one.
pub fn word_of_no_log_keeps_its_value()
    ensures { (F : ℕ) (image : Image) (w : ℕ) → is_in_logs F w ≡ false → ((number : ℕ) → number < ALL_LOGS → given_by_log F image number w ≡ Option.None)
        → settled_over F image w ≡ image w }
{}

/// Suppose that a log gives no word that another log gives. Then, outside the logs, the image that a start leaves is
/// what this log alone leaves, with what the others give written over it.
pub fn one_log_settles_beside_the_others()
    ensures { (F : ℕ) (number : ℕ) (image : Image) → number < ALL_LOGS → IsApart F number image
        → settled_over F image ≡ beside_logs F (overwritten (given_by_others F image number) (log_alone F number image)) }
{}

/// If two images agree on the tables, on the logs' owners and on all logs but one, the other logs give the same to
/// both.
pub fn images_beside_one_log_have_the_same_from_the_others()
    ensures { (F : ℕ) (number : ℕ) (i : Image) (j : Image) → IsBeside F number i j → given_by_others F j number ≡ given_by_others F i number }
{}

/// A device has no world exactly if it is not sound. The clients' logs play no part in that.
pub fn device_has_no_world_exactly_where_it_is_not_sound()
    ensures { (size : ℕ) (image : Image) → (world_of size image ≡ Option.None) ↔ (is_sound size image ≡ false) }
{}

/// On an idle device each registered log is closed. Such a device stands for what a start leaves of it.
pub fn idle_device_stands_for_what_a_start_leaves()
    ensures { (size : ℕ) (image : Image) (s : StoredWorld) → idle_world_of size image ≡ Option.Some s → world_of size image ≡ Option.Some s }
{}

/// A device of the present version is idle if it has a world, and no log is registered on it once the daemon log is
/// replayed.
pub fn device_without_registered_logs_is_idle()
    ensures { (size : ℕ) (image : Image) (s : StoredWorld) → world_of size image ≡ Option.Some s → image VERSION_WORD ≡ VERSION
        → ((client : ℕ) → client < CLIENTS → owner_of (settled_by DAEMON_LOG image) client ≡ Option.None) → idle_world_of size image ≡ Option.Some s }
{}

/// A device stands for the same world once the present version is written into its version word.
pub fn upgraded_device_stands_for_the_same()
    ensures { (size : ℕ) (image : Image) (s : StoredWorld) → world_of size image ≡ Option.Some s → world_of size (image_with VERSION_WORD VERSION image) ≡ Option.Some s }
{}

/// A device is idle once the present version is written into its version word, if it has a world, and no log is
/// registered on it once the daemon log is replayed.
pub fn upgraded_device_without_registered_logs_is_idle()
    ensures { (size : ℕ) (image : Image) (s : StoredWorld) → world_of size image ≡ Option.Some s
        → ((client : ℕ) → client < CLIENTS → owner_of (settled_by DAEMON_LOG image) client ≡ Option.None) → idle_world_of size (image_with VERSION_WORD VERSION image) ≡ Option.Some s }
{}

/// A start on an idle device refuses no log.
pub fn no_log_of_an_idle_device_is_refused()
    ensures { (size : ℕ) (image : Image) (s : StoredWorld) → idle_world_of size image ≡ Option.Some s → (number : ℕ) → number < ALL_LOGS
        → is_refused_log (frames_of image) (settled_by DAEMON_LOG image) number ≡ false }
{}
