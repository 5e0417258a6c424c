//! The map word of a type: how many fields it has and which of them are pointers.
//!
//! Bit f, for f from 0 to 29, is set if field f is a pointer. Bits 32 to 36 are the number of fields. All other bits
//! are 0. Each function here answers for every word, legal or not.

ghost use Rattle.std.specs.Prelude.{◌≡◌};
ghost use Rattle.pud_defs.specs.Formats.TypeMap.{map_fields, is_pointer, is_legal_map, is_legal_type_id};

use crate::layout::{MAX_FIELDS, MAX_TYPE_ID};

/// The number of fields, 0 to 31: bits 32 to 36 of the word, whatever its other bits are.
pub fn map_fields(v: u64) -> u32
    ensures { result ≡ map_fields v }
{
    ((v >> 32) & 31) as u32
}

/// Whether bit `f` of the word is set, whatever its other bits are. False if `f` is beyond 63.
#[tactic(auto, using(crate::proofs::Formats::Words::no_bit_beyond))]
pub fn map_is_pointer(v: u64, f: u32) -> bool
    ensures { result ≡ is_pointer v f }
{
    f < 64 && (v >> f) & 1 == 1
}

/// Whether the word is the map of a type: 1 to 30 fields, no pointer bit at or above the number of fields, and all
/// other bits 0.
#[tactic(auto, using(crate::proofs::Formats::Words::no_bit_from))]
pub fn is_legal_map(v: u64) -> bool
    ensures { result ≡ is_legal_map v }
{
    let fields = map_fields(v);
    fields >= 1
        && fields <= MAX_FIELDS
        && v >> 32 == u64::from(fields)
        && (v & 0xffff_ffff) >> fields == 0
}

/// Whether the word is a type id, from 1 to 65,535.
pub fn is_legal_type_id(v: u64) -> bool
    ensures { result ≡ is_legal_type_id v }
{
    v >= 1 && v <= u64::from(MAX_TYPE_ID)
}
