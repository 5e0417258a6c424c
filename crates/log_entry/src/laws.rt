//! The law that `encode` and the reader agree. The function does nothing: its contract is the law.

ghost use Rattle.std.specs.Prelude.{◌≡◌, Option};
ghost use Rattle.pud_defs.specs.Formats.Image.{Image};
ghost use Rattle.pud_defs.specs.Logging.Entries.{Entry, IsLegalEntry};
ghost use Rattle.log_entry.specs.Reading.{Reading, StandsNext, entry_next};

/// `EntryReader::next` reads what `encode` writes. If the words of a legal entry follow those that a reader has passed,
/// and the gate counts them, and it counts no more words than a log has, then exactly this entry comes next, whatever
/// else the device stores.
pub fn encoded_words_are_read_back()
    ensures { (image : Image) (reader : Reading) (entry : Entry) → IsLegalEntry entry → StandsNext image reader entry → entry_next image reader ≡ Option.Some entry }
{}
