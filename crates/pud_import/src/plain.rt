//! Whether each word of a file's frames that is not read is 0.

ghost use Rattle.std.specs.Prelude.{◌≡◌, ◌<◌, ◌≤◌};
ghost use Rattle.pud_defs.specs.declared.layout.TheConstants.{FRAME_WORDS};
ghost use Rattle.pud_defs.specs.declared.space.TheConstants.{FRAME_HEADER_WORDS, MAX_SLOTS, MAX_SLOT_WORDS};
ghost use Rattle.pud_defs.specs.PoolGraphs.ExportFile.{is_zero, header_words_read, object_words_read, slot_words_read, is_plain_place, is_plain};
ghost use Rattle.pud_defs.specs.PoolGraphs.Graph.{fitting};
ghost use Rattle.pud_defs.specs.Formats.Geometry.{class_slots, class_slot_words, place_at, places_among};
ghost use Rattle.pud_defs.specs.RegistryTables.Spaces.{all_below};
ghost use Rattle.pud_defs.specs.PoolGraphs.Stored.{place_word};
ghost use Rattle.pud_defs.specs.RegistryTables.Types.{map_of};
ghost use Rattle.pud_import.specs.Sized.{types_in, stored_of, class_in};

use crate::sized_file::SizedFile;
use graph_read::fits_class;
use pud_defs::layout::MAX_FIELDS;
use pud_defs::objects::is_free;
use pud_defs::space::{
    FRAME_HEADER_WORDS, FRAME_ORDINAL_WORD, ROOT_WORD, SLOT_FIELDS_WORD, SLOT_SERIAL_WORD,
    SLOT_TYPE_WORD, class_slot_at, class_slot_words, class_slots,
};
use pud_defs::type_map::map_fields;

/// How many words of a frame's header are read, by the frame's ordinal.
fn header_words_read(ordinal: u32) -> u32
    ensures read { result ≡ header_words_read ordinal }
    ensures most { result ≤ FRAME_HEADER_WORDS }
{
    if ordinal == 0 {
        ROOT_WORD + 1
    } else {
        FRAME_ORDINAL_WORD + 1
    }
}

/// How many words of a slot are read, by the map of its object's type.
fn object_words_read(map: Option<u64>) -> u32
    ensures read { result ≡ object_words_read map }
    ensures most { result ≤ MAX_SLOT_WORDS }
{
    match map {
        Some(map) => SLOT_FIELDS_WORD + map_fields(map).min(MAX_FIELDS),
        None => SLOT_FIELDS_WORD,
    }
}

/// The map, if a slot of this class has room for an object of its type.
fn fitting(class: u32, map: Option<u64>) -> Option<u64>
    ensures { result ≡ fitting class map }
{
    match map {
        Some(map) if fits_class(class, map) => Some(map),
        _ => None,
    }
}

impl<'a> SizedFile<'a> {
    /// Word `k` of a slot of the puddle of an ordinal.
    pub(crate) fn slot_word(&self, ordinal: u32, slot: u32, k: u32) -> u64
        requires known { ordinal < self.now.puddles }
        requires slot { slot < class_slots (class_in self.now ordinal) }
        requires within { k < class_slot_words (class_in self.now ordinal) }
        ensures { result ≡ place_word (stored_of self.now) (place_at ordinal slot) k }
    {
        self.frame_word(ordinal, class_slot_at(self.class(ordinal), slot) + k)
    }

    /// The map of the type with this id, or None if no such type is listed.
    fn map_of(&self, id: u64) -> Option<u64>
        ensures { result ≡ map_of id (types_in self.now) }
    {
        for i in 0..self.types {
            let (known, map) = self.type_at(i);
            if known == id {
                return Some(map);
            }
        }
        None
    }

    /// Whether the words of a frame are 0 from word `from` on and before word `end`.
    fn is_zero(&self, ordinal: u32, from: u32, end: u32) -> bool
        requires known { ordinal < self.now.puddles }
        requires within { end ≤ FRAME_WORDS }
        ensures { result ≡ is_zero ((stored_of self.now).word ordinal) from end }
    {
        for k in from..end {
            if self.frame_word(ordinal, k) != 0 {
                return false;
            }
        }
        true
    }

    /// How many words of a slot are read. Of a free slot only the serial is read.
    #[tactic(auto, using(pud_defs::proofs::Formats::Geometry::some_words))]
    fn slot_words_read(&self, ordinal: u32, slot: u32) -> u32
        requires known { ordinal < self.now.puddles }
        requires slot { slot < class_slots (class_in self.now ordinal) }
        ensures read { result ≡ slot_words_read (types_in self.now) (stored_of self.now) (place_at ordinal slot) }
        ensures most { result ≤ MAX_SLOT_WORDS }
    {
        if is_free(self.slot_word(ordinal, slot, SLOT_SERIAL_WORD)) {
            return SLOT_SERIAL_WORD + 1;
        }
        let map = self.map_of(self.slot_word(ordinal, slot, SLOT_TYPE_WORD));
        object_words_read(fitting(self.class(ordinal), map))
    }

    /// Whether the words of a slot that are not read are 0.
    fn is_plain_slot(&self, ordinal: u32, slot: u32) -> bool
        requires known { ordinal < self.now.puddles }
        requires slot { slot < class_slots (class_in self.now ordinal) }
        ensures { result ≡ is_plain_place (types_in self.now) (stored_of self.now) (place_at ordinal slot) }
    {
        let class = self.class(ordinal);
        let begins = class_slot_at(class, slot);
        let read = self.slot_words_read(ordinal, slot);
        self.is_zero(ordinal, begins + read, begins + class_slot_words(class))
    }

    /// Whether the words of each header that are not read are 0.
    fn has_plain_headers(&self) -> bool
        ensures { result ≡ all_below self.now.puddles (λ o. is_zero ((stored_of self.now).word o) (header_words_read o) FRAME_HEADER_WORDS) }
    {
        for ordinal in 0..self.puddles {
            if !self.is_zero(ordinal, header_words_read(ordinal), FRAME_HEADER_WORDS) {
                return false;
            }
        }
        true
    }

    /// Whether the words of each slot of a puddle that are not read are 0.
    fn is_plain_puddle(&self, ordinal: u32) -> bool
        requires { ordinal < self.now.puddles }
        ensures { result ≡ all_below MAX_SLOTS (λ s. is_plain_place (types_in self.now) (stored_of self.now) (place_at ordinal s)) }
    {
        for slot in 0..class_slots(self.class(ordinal)) {
            if !self.is_plain_slot(ordinal, slot) {
                return false;
            }
        }
        true
    }

    /// Whether the words of each slot that are not read are 0.
    fn has_plain_slots(&self) -> bool
        ensures { result ≡ all_below (places_among self.now.puddles) (is_plain_place (types_in self.now) (stored_of self.now)) }
    {
        for ordinal in 0..self.puddles {
            if !self.is_plain_puddle(ordinal) {
                return false;
            }
        }
        true
    }

    /// Whether each word of a frame that is not read is 0.
    pub(crate) fn is_plain(&self) -> bool
        ensures { result ≡ is_plain (types_in self.now) (stored_of self.now) }
    {
        let headers = self.has_plain_headers();
        let slots = self.has_plain_slots();
        headers && slots
    }
}
