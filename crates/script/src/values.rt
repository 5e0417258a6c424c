//! Reads the values of fields.

ghost use Rattle.std.specs.Prelude.{◌≡◌};
ghost use Rattle.pud_defs.specs.StateMachine.Grammar.{value_named};

use crate::numbers::read_number;
use pud_defs::objects::FieldValue;

/// Reads the bytes as a value: a number below 2^64, or `@` and the serial of an object below 2^64. `@0` is null. None
/// if they are no value.
#[tactic(auto, unfolding(pud_defs::specs::StateMachine::Grammar::value_named))]
pub(crate) fn read_value(bytes: &[u8]) -> Option<FieldValue>
    ensures { result ≡ value_named bytes.now }
{
    match bytes {
        [] => None,
        [b'@', serial @ ..] => Some(FieldValue::Ref(read_number(serial)?)),
        _ => Some(FieldValue::Num(read_number(bytes)?)),
    }
}
