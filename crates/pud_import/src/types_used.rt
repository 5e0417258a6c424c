//! Whether each type that a file lists is the type of an object.

ghost use Rattle.std.specs.Prelude.{◌≡◌, ◌<◌};
ghost use Rattle.std.specs.List.{list_all, list_any, range_with_len};
ghost use Rattle.pud_defs.specs.declared.space.TheConstants.{MAX_SLOTS};
ghost use Rattle.pud_defs.specs.Formats.Geometry.{class_slots, place_at};
ghost use Rattle.graph_laws.specs.Slots.{is_of_type};
ghost use Rattle.pud_import.specs.Contents.{is_used_in};
ghost use Rattle.pud_import.specs.Sized.{types_in, stored_of, class_in};

use crate::sized_file::SizedFile;
use pud_defs::objects::is_live;
use pud_defs::space::{SLOT_SERIAL_WORD, SLOT_TYPE_WORD, class_slots};

impl<'a> SizedFile<'a> {
    /// Whether an object of the type lives in a slot of the puddle of an ordinal.
    #[tactic(auto, using(pud_defs::proofs::Formats::Geometry::some_words))]
    fn is_of_type(&self, id: u64, ordinal: u32, slot: u32) -> bool
        requires known { ordinal < self.now.puddles }
        requires slot { slot < class_slots (class_in self.now ordinal) }
        ensures { result ≡ is_of_type (stored_of self.now) id (place_at ordinal slot) }
    {
        let serial = self.slot_word(ordinal, slot, SLOT_SERIAL_WORD);
        let known = self.slot_word(ordinal, slot, SLOT_TYPE_WORD);
        is_live(serial) && known == id
    }

    /// Whether an object of the type lives in some slot of the puddle of an ordinal.
    fn is_used_by(&self, id: u64, ordinal: u32) -> bool
        requires { ordinal < self.now.puddles }
        ensures { result ≡ list_any (λ s. is_of_type (stored_of self.now) id (place_at ordinal s)) (range_with_len 0 MAX_SLOTS) }
    {
        for slot in 0..class_slots(self.class(ordinal)) {
            if self.is_of_type(id, ordinal, slot) {
                return true;
            }
        }
        false
    }

    /// Whether an object of the type lives in some slot.
    fn is_used(&self, id: u64) -> bool
        ensures { result ≡ is_used_in (stored_of self.now) id }
    {
        for ordinal in 0..self.puddles {
            if self.is_used_by(id, ordinal) {
                return true;
            }
        }
        false
    }

    /// Whether, for each listed type, an object of it lives in some slot.
    pub(crate) fn uses_types(&self) -> bool
        ensures { result ≡ list_all (λ t. is_used_in (stored_of self.now) t.0) (types_in self.now) }
    {
        for i in 0..self.types {
            let (id, _) = self.type_at(i);
            if !self.is_used(id) {
                return false;
            }
        }
        true
    }
}
