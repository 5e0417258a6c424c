//! Reads a type's list of pointer fields into its map word.

ghost use Rattle.std.specs.Prelude.{◌≡◌, ◌≤◌};
ghost use Rattle.pud_defs.specs.StateMachine.Grammar.{listed_map};

use crate::numbers::read_within;
use crate::pieces::cut;
use pud_defs::layout::MAX_FIELDS;

/// The map word of a type with `fields` fields. The list names the fields that are pointers: `-` for none, or field
/// numbers below `fields`, strictly ascending and joined by commas. None if the bytes are no such list.
#[tactic(auto, using(crate::proofs::FieldLists::fields_read))]
pub(crate) fn read_map(list: &[u8], fields: u32) -> Option<u64>
    requires { fields ≤ MAX_FIELDS }
    ensures { result ≡ listed_map fields list.now }
{
    let mut map = u64::from(fields) << 32;
    if list == b"-".as_slice() {
        return Some(map);
    }
    let mut least = 0;
    let mut rest = Some(list);
    while let Some(bytes) = rest {
        let (piece, following) = cut(bytes, b',');
        let field = read_within(piece, least, fields)?;
        // The numbers rise, so this bit is not set yet.
        map += 1 << field;
        least = field + 1;
        rest = following;
    }
    Some(map)
}
