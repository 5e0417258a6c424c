//! The types that a file lists.

ghost use Rattle.std.specs.Prelude.{◌≡◌, ◌&&◌, Option, nat_lt};
ghost use Rattle.pud_defs.specs.PoolGraphs.ExportFile.{are_file_types};
ghost use Rattle.pud_defs.specs.RegistryTables.Types.{is_sound_type};
ghost use Rattle.pud_import.specs.Sized.{types_in};

use crate::sized_file::SizedFile;
use pud_defs::type_map::{is_legal_map, is_legal_type_id};

/// Whether a type is legal, and its id is above another one.
fn is_next_type(before: u64, id: u64, map: u64) -> bool
    ensures { result ≡ (is_sound_type (Option.Some (id, map)) && nat_lt before id) }
{
    is_legal_type_id(id) && is_legal_map(map) && before < id
}

impl<'a> SizedFile<'a> {
    /// Whether each type is legal, and the ids rise. Each is read once.
    pub(crate) fn has_legal_types(&self) -> bool
        ensures { result ≡ are_file_types (types_in self.now) }
    {
        let mut before = 0;
        for i in 0..self.types {
            let (id, map) = self.type_at(i);
            if !is_next_type(before, id, map) {
                return false;
            }
            before = id;
        }
        true
    }
}
