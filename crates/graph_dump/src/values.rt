//! Parts of a graph as JSON values, and the text of an object.

ghost use Rattle.std.specs.Prelude.{◌≡◌, ◌++◌, map, IfOk, OnOk};
ghost use Rattle.pud_defs.specs.Output.DumpText.{pointer_text, value_text, object_text};
ghost use Rattle.graph_dump.specs.Spelled.{Spells, SpellsEach, separator};

use crate::object::ObjectRead;
use pud_defs::objects::FieldValue;
use serde_json::{Value, json};
use std::alloc::{AllocError, Global};

/// A pointer to the object of this serial, as a value: null for serial 0, else a string.
pub(crate) fn pointer_value(alloc: Global, serial: u64) -> Result<Value, AllocError>
    ensures { IfOk result (Spells (pointer_text serial)) }
{
    if serial == 0 {
        return Ok(Value::Null);
    }
    Ok(Value::String(format!(in alloc; "@{serial}")?))
}

/// A field as a value.
fn field_value(alloc: Global, field: FieldValue) -> Result<Value, AllocError>
    ensures { IfOk result (Spells (value_text field)) }
{
    match field {
        FieldValue::Num(value) => Ok(Value::from(value)),
        FieldValue::Ref(serial) => pointer_value(alloc, serial),
    }
}

/// Fields as values, in their order.
fn field_values(alloc: Global, fields: &[FieldValue]) -> Result<Vec<Value>, AllocError>
    ensures { IfOk result (λ values. SpellsEach (map value_text fields.now) values.items) }
{
    let mut values = Vec::with_capacity(alloc, fields.len())?;
    for field in fields {
        values.push(field_value(alloc, *field)?)?;
    }
    Ok(values)
}

/// An object with its serial, as a value.
fn object_value(alloc: Global, serial: u64, object: &ObjectRead) -> Result<Value, AllocError>
    ensures { IfOk result (Spells (object_text (serial, object.now))) }
{
    let fields = field_values(alloc, object.fields())?;
    let value =
        json!(in alloc; {"fields": Value::Array(fields), "serial": serial, "type": object.type_id()})?;
    Ok(value)
}

/// Appends the text of an object with its serial, after a comma if it is not the first.
pub(crate) fn put_object(
    alloc: Global,
    text: &mut Vec<u8>,
    is_first: bool,
    serial: u64,
    object: &ObjectRead,
) -> Result<(), AllocError>
    ensures { OnOk result (text.new.items ≡ text.old.items ++ (separator is_first ++ object_text (serial, object.now))) }
{
    let written = object_value(alloc, serial, object)?.to_vec(alloc)?;
    if !is_first {
        text.push(b',')?;
    }
    text.extend_from_slice(&written)
}
