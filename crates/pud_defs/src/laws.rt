//! Laws of logs, of their replay and of texts, for the crates above. Each function here does nothing; its contract is
//! the law.

ghost use Rattle.std.specs.Prelude.{◌≡◌, ◌⊎◌, ◌+◌, ◌≤◌, ℕ, List, ◌++◌, Option, option_map};
ghost use Rattle.pud_defs.specs.Formats.Image.{Image};
ghost use Rattle.pud_defs.specs.Logging.Entries.{Entry, Log, entries_in};
ghost use Rattle.pud_defs.specs.Logging.Replay.{AddressMap, new_value, replayed};
ghost use Rattle.pud_defs.specs.PoolGraphs.Graph.{Graph};
ghost use Rattle.pud_defs.specs.Output.Texts.{in_one_line};
ghost use Rattle.pud_defs.specs.Output.DumpText.{dump_text};

/// A word that no entry in range names keeps its value.
pub fn word_not_named_stays()
    ensures { (place : AddressMap) (log : Log) (image : Image) (w : ℕ) → new_value place log w ≡ Option.None → replayed place log image w ≡ image w }
{}

/// Replaying a log changes no word if the log's range can have no entry in it.
pub fn log_that_counts_none_replays_nothing()
    ensures { (place : AddressMap) (log : Log) (image : Image) → log.hi ≤ log.lo + 1 → replayed place log image ≡ image }
{}

/// A replay that was cut off can be done again with the same result. If two images differ only in words that the log
/// names, they replay to the same image.
pub fn replay_done_again_is_the_same()
    ensures { (place : AddressMap) (log : Log) (i : Image) (j : Image) → ((w : ℕ) → new_value place log w ≡ Option.None → j w ≡ i w)
        → replayed place log j ≡ replayed place log i }
{}

/// Two logs that name no common word can be replayed in either order, with the same result.
pub fn logs_apart_replay_in_either_order()
    ensures { (place : AddressMap) (one : Log) (other : Log) (image : Image) → ((w : ℕ) → (new_value place one w ≡ Option.None) ⊎ (new_value place other w ≡ Option.None))
        → replayed place other (replayed place one image) ≡ replayed place one (replayed place other image) }
{}

/// If words spell entries, and other words follow them, then all of them spell these entries and then the entries of
/// the others.
pub fn joined_words_spell_joined_entries()
    ensures { (xs : List ℕ) (ys : List ℕ) (es : List Entry) → entries_in 0 xs ≡ Option.Some es → entries_in 0 (xs ++ ys) ≡ option_map (λ fs. es ++ fs) (entries_in 0 ys) }
{}

/// The text of a graph has no newline, so it is printed unchanged.
pub fn graph_is_dumped_in_one_line()
    ensures { (g : Graph) → in_one_line (dump_text g) ≡ dump_text g }
{}
