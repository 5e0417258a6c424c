//! Computes the addresses of a pool's slots over its bases.

ghost use Rattle.std.specs.Prelude.{◌≡◌, ◌<◌, length, map, Option, IfSome};
ghost use Rattle.pud_defs.specs.Formats.Geometry.{class_slots, place_at};
ghost use Rattle.pud_defs.specs.PoolGraphs.Graph.{At};
ghost use Rattle.pud_defs.specs.PoolGraphs.Exported.{address_of};
ghost use Rattle.graph_read.specs.Bases.{HasLowBases};
ghost use Rattle.graph_read.specs.Checking.{content_of};
ghost use Rattle.graph_read.specs.Reading.{class_in, LeadsWithin};

use pud_defs::objects::Pointee;
use pud_defs::records::Puddle;
use pud_defs::space::{slot_at, word_address};

/// The address of a slot of the ordinal's puddle, if the bases are low. Otherwise it may wrap around.
fn place_address(pool: &[(u32, Puddle)], ordinal: u32, slot: u32) -> u64
    requires puddle { ordinal < length pool.now }
    requires within { slot < class_slots (class_in pool.now ordinal) }
    ensures { HasLowBases pool.now → result ≡ address_of (map (λ e. e.1) pool.now) (At (place_at ordinal slot)) }
{
    let (_, puddle) = pool[ordinal as usize];
    word_address(puddle.base, slot_at(&puddle, slot))
}

/// The word that stands over the pool's bases for nothing or for a slot, if the bases are low.
fn pointee_address(pool: &[(u32, Puddle)], pointee: Pointee) -> u64
    requires { LeadsWithin pool.now pointee }
    ensures { HasLowBases pool.now → result ≡ address_of (map (λ e. e.1) pool.now) (content_of (Option.Some pointee)) }
{
    match pointee {
        Pointee::Null => 0,
        Pointee::At { ordinal, slot } => place_address(pool, ordinal, slot),
    }
}

/// Returns the word that stands over the pool's bases for what a pointer leads to: 0 if it leads to nothing or nowhere,
/// and otherwise the address of the slot, if the bases are low. If they are not low, the address may wrap around.
pub fn address_of(pool: &[(u32, Puddle)], pointee: Option<Pointee>) -> u64
    requires { IfSome pointee (LeadsWithin pool.now) }
    ensures { HasLowBases pool.now → result ≡ address_of (map (λ e. e.1) pool.now) (content_of pointee) }
{
    match pointee {
        Some(pointee) => pointee_address(pool, pointee),
        None => 0,
    }
}
