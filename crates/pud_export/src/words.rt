//! Bytes that are written word by word, each word as eight bytes, the lowest first.

ghost use Rattle.std.specs.Prelude.{◌≡◌, ◌*◌, [], ◌∷◌, ◌++◌, length, IfOk, OnOk};
ghost use Rattle.pud_defs.specs.PoolGraphs.ExportFile.{words_in};

use std::alloc::{AllocError, Global};
use std::marker::Model;

/// How many bytes a word has.
const WORD: usize = 8;

/// Words, as the bytes that spell them.
#[derive(Drop)]
pub(crate) struct WordBytes {
    bytes: Vec<u8>,
}

impl Model for WordBytes {
    ghost use Rattle.std.specs.Prelude.{◌≡◌, ℕ, ◌*◌, List, length};

    ghost Value = { List ℕ };

    ghost use Rattle.pud_defs.specs.PoolGraphs.ExportFile.{words_in};

    ghost view = { λ w. words_in w.bytes.items };

    ghost invariant = { λ w. length w.bytes.items ≡ 8 * length (words_in w.bytes.items) };
}

impl WordBytes {
    /// No words yet, with room for `words` words. It fails if the allocation fails.
    pub(crate) fn with_room(alloc: Global, words: u32) -> Result<Self, AllocError>
        ensures { IfOk result (λ w. w ≡ []) }
    {
        let bytes = Vec::with_capacity(alloc, WORD * words as usize)?;
        Ok(WordBytes { bytes })
    }

    /// Adds a word.
    pub(crate) fn push(&mut self, word: u64) -> Result<(), AllocError>
        ensures { OnOk result (self.new ≡ self.old ++ word ∷ []) }
    {
        self.bytes.extend_from_slice(&word.to_le_bytes())?;
        Ok(())
    }

    /// Adds the words.
    pub(crate) fn push_all(&mut self, words: &[u64]) -> Result<(), AllocError>
        ensures { OnOk result (self.new ≡ self.old ++ words.now) }
    {
        for word in words {
            self.push(*word)?;
        }
        Ok(())
    }

    /// The bytes that spell the words.
    pub(crate) fn into_bytes(self) -> Vec<u8>
        ensures words { words_in result.items ≡ self }
        ensures whole { length result.items ≡ 8 * length self }
    {
        self.bytes
    }
}
