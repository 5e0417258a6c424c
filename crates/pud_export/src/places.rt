//! The slots of a pool, puddle by puddle.

ghost use Rattle.std.specs.Prelude.{◌≡◌, ◌<◌, length, map};
ghost use Rattle.pud_defs.specs.Formats.Geometry.{place_at};
ghost use Rattle.puddle_header.specs.Places.{place_of_slot, IsSlotOf};
ghost use Rattle.pud_export.specs.Exporting.{slots_at};

use pud_defs::records::{Puddle, Slot};
use pud_defs::space::slots_of;

/// How many slots the puddle of an ordinal has.
pub(crate) fn slots_at(pool: &[(u32, Puddle)], ordinal: u32) -> u32
    requires { ordinal < length pool.now }
    ensures { result ≡ slots_at (map (λ e. e.1) pool.now) ordinal }
{
    let (_, puddle) = pool[ordinal as usize];
    slots_of(&puddle)
}

/// A slot of the puddle of an ordinal, by its number.
pub(crate) fn slot_at(pool: &[(u32, Puddle)], ordinal: u32, slot: u32) -> Slot
    requires puddle { ordinal < length pool.now }
    requires slot { slot < slots_at (map (λ e. e.1) pool.now) ordinal }
    ensures place { place_of_slot result ≡ place_at ordinal slot }
    ensures within { IsSlotOf pool.now result }
{
    let (frame, puddle) = pool[ordinal as usize];
    Slot {
        frame,
        ordinal,
        slot,
        class: puddle.class,
    }
}
