//! Words that bytes spell, eight bytes for each word, the lowest first.

ghost use Rattle.std.specs.Prelude.{◌≡◌, ◌+◌, ◌*◌, ◌≤◌, length, slice_index};
ghost use Rattle.std.specs.Int.{from_le_bytes, w64};
ghost use Rattle.std.specs.List.{slice_range};
ghost use Rattle.pud_defs.specs.PoolGraphs.ExportFile.{words_in};

/// How many bytes a word has.
pub(crate) const WORD: usize = 8;

/// The word that the eight bytes from byte `at` on spell.
fn word_from(bytes: &[u8], at: usize) -> u64
    requires { at + WORD ≤ length bytes.now }
    ensures { result ≡ from_le_bytes w64 (slice_range bytes.now at (at + WORD)) }
{
    let mut word = [0; WORD];
    word.copy_from_slice(&bytes[at..at + WORD]);
    u64::from_le_bytes(word)
}

/// Word `k` of the bytes.
pub(crate) fn word_at(bytes: &[u8], k: u32) -> u64
    requires { 8 * k + 8 ≤ length bytes.now }
    ensures { result ≡ slice_index (words_in bytes.now) k }
{
    word_from(bytes, WORD * k as usize)
}
