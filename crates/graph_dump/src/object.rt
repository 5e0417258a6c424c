//! One object as it was read.

ghost use Rattle.std.specs.Prelude.{◌≡◌, ◌≤◌, take};
ghost use Rattle.pud_defs.specs.declared.layout.TheConstants.{MAX_FIELDS};
ghost use Rattle.pud_defs.specs.PoolGraphs.Graph.{Object};

use pud_defs::layout::MAX_FIELDS;
use pud_defs::objects::FieldValue;
use std::marker::Model;

/// As many values as an object may have fields, 30.
pub(crate) type Fields = [FieldValue; MAX_FIELDS as usize];

/// The values if no field was read.
pub(crate) const NO_FIELDS: Fields = [FieldValue::Num(0); MAX_FIELDS as usize];

/// An object, as it was read. It has the class of the puddle in which it lives.
#[derive(Drop)]
pub(crate) struct ObjectRead {
    type_id: u64,
    class: u32,
    count: u32,
    values: Fields,
}

impl Model for ObjectRead {
    ghost Value = { Object };

    ghost view = { λ o. record { type_id = o.type_id; class = o.class; fields = take o.count o.values } };

    ghost invariant = { λ o. o.count ≤ MAX_FIELDS };
}

impl ObjectRead {
    /// Makes an object of this type in a puddle of this class. Its fields are the first `count` of these values, at
    /// most 30.
    pub(crate) fn new(type_id: u64, class: u32, count: u32, values: Fields) -> ObjectRead
        requires { count ≤ MAX_FIELDS }
        ensures { result ≡ record { type_id = type_id; class = class; fields = take count values } }
    {
        ObjectRead {
            type_id,
            class,
            count,
            values,
        }
    }

    /// The type id.
    pub(crate) fn type_id(&self) -> u64
        ensures { result ≡ (self.now).type_id }
    {
        self.type_id
    }

    /// The fields in their order.
    pub(crate) fn fields(&self) -> &[FieldValue]
        ensures { result.now ≡ (self.now).fields }
    {
        &self.values[..self.count as usize]
    }
}
