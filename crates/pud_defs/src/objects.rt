//! The objects of a pool: what a field stores, what a stored pointer stands for, and whether a slot is free.

ghost use Rattle.std.specs.Prelude.{◌≡◌};
ghost use Rattle.pud_defs.specs.PoolGraphs.Stored.{slot_state};

/// The value of a field, as lines name it.
#[derive(Clone, Copy, Debug, PartialEq, Eq)]
pub enum FieldValue {
    /// The number in a field that is no pointer.
    Num(u64),
    /// The serial of the object that a pointer field names; 0 if the pointer is null.
    Ref(u64),
}

/// What a stored pointer stands for, if it stands for anything.
#[derive(Clone, Copy, Debug, PartialEq, Eq)]
pub enum Pointee {
    /// Nothing: the pointer is null.
    Null,
    /// A slot of the pool, free or not.
    At {
        /// The place of the slot's puddle in its pool, 0 to 15.
        ordinal: u32,
        /// The number of the slot in the puddle.
        slot: u32,
    },
}

/// Whether the slot with this serial word is free.
pub const fn is_free(serial: u64) -> bool
    ensures { result ≡ (slot_state serial).is_free }
{
    serial == 0
}

/// Whether an object lives in the slot with this serial word.
pub const fn is_live(serial: u64) -> bool
    ensures { result ≡ (slot_state serial).is_live }
{
    serial != 0
}
