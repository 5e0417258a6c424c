//! The content of a file, word by word.

ghost use Rattle.std.specs.Prelude.{◌≡◌, ◌+◌, ◌<◌};
ghost use Rattle.pud_defs.specs.declared.layout.TheConstants.{FRAME_WORDS};
ghost use Rattle.pud_defs.specs.PoolGraphs.ExportFile.{file_words, file_type, file_bases_at};
ghost use Rattle.pud_import.specs.Sized.{image_of_file, stored_of, class_in};

use crate::classes::class_word;
use crate::sized_file::SizedFile;
use crate::words::word_at;
use pud_defs::files::{file_bases_at, file_frame_at, file_type_at};
use pud_defs::layout::FRAME_WORDS;

impl<'a> SizedFile<'a> {
    /// Word `k` of the file.
    pub(crate) fn word(&self, k: u32) -> u64
        requires { k < file_words self.now.version self.now.types self.now.puddles }
        ensures { result ≡ image_of_file self.now k }
    {
        word_at(self.bytes, k)
    }

    /// The id and the map of type `i`.
    pub(crate) fn type_at(&self, i: u32) -> (u64, u64)
        requires { i < self.now.types }
        ensures { result ≡ file_type (image_of_file self.now) i }
    {
        let at = file_type_at(i);
        (self.word(at), self.word(at + 1))
    }

    /// The base of the puddle of an ordinal.
    pub(crate) fn base(&self, ordinal: u32) -> u64
        requires { ordinal < self.now.puddles }
        ensures { result ≡ image_of_file self.now (file_bases_at self.now.types + ordinal) }
    {
        self.word(file_bases_at(self.types) + ordinal)
    }

    /// The class of the puddle of an ordinal.
    pub(crate) fn class(&self, ordinal: u32) -> u32
        requires { ordinal < self.now.puddles }
        ensures { result ≡ class_in self.now ordinal }
    {
        class_word(self.bytes, self.version, self.types, self.puddles, ordinal) as u32
    }

    /// Word `k` of the frame of an ordinal.
    pub(crate) fn frame_word(&self, ordinal: u32, k: u32) -> u64
        requires known { ordinal < self.now.puddles }
        requires within { k < FRAME_WORDS }
        ensures { result ≡ (stored_of self.now).word ordinal k }
    {
        self.word(file_frame_at(self.version, self.types, self.puddles, ordinal) + k)
    }
}
