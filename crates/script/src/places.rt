//! Reads serials of objects and places of fields.

ghost use Rattle.std.specs.Prelude.{◌≡◌};
ghost use Rattle.pud_defs.specs.StateMachine.Grammar.{field_place, object_serial};

use crate::numbers::{read_number, read_within};
use crate::pieces::cut;
use pud_defs::layout::MAX_FIELDS;

/// Reads the bytes as a serial: a number from 1 to 2^64 - 1. None if they are no such number.
pub(crate) fn read_serial(bytes: &[u8]) -> Option<u64>
    ensures { result ≡ object_serial bytes.now }
{
    let serial = read_number(bytes)?;
    (serial >= 1).then_some(serial)
}

/// Reads the bytes as the place of a field: the serial of an object and the number of a field, from 0 to 29, with one
/// point between. None if they are no place.
#[tactic(auto, unfolding(pud_defs::specs::StateMachine::Grammar::field_place), using(crate::proofs::Points::second_point))]
pub(crate) fn read_place(bytes: &[u8]) -> Option<(u64, u32)>
    ensures { result ≡ field_place bytes.now }
{
    let (object, rest) = cut(bytes, b'.');
    let (field, further) = cut(rest?, b'.');
    if further.is_some() {
        return None;
    }
    Some((read_serial(object)?, read_within(field, 0, MAX_FIELDS)?))
}
