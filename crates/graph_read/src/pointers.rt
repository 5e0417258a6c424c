//! Where a stored pointer leads: to nothing, to a slot of its pool, or nowhere.

ghost use Rattle.std.specs.Prelude.{◌≡◌, ◌<◌, ◌≤◌, cond, length, map, IfSome};
ghost use Rattle.pud_defs.specs.Formats.Geometry.{slots_of};
ghost use Rattle.pud_defs.specs.PoolGraphs.Graph.{slot_in, over_old, pointee_at};
ghost use Rattle.graph_read.specs.Reading.{pointee_of, LeadsWithin};

use pud_defs::objects::Pointee;
use pud_defs::records::{MAX_PUDDLES, Puddle};
use pud_defs::space::{HEADER_BYTES, RANGE_BYTES, slot_bytes_of, slots_of};

/// The slot of the puddle whose first address is the value, if there is one.
fn slot_in(puddle: &Puddle, value: u64) -> Option<u32>
    ensures slot { result ≡ slot_in puddle.now value }
    ensures within { IfSome result (λ slot. slot < slots_of puddle.now) }
{
    let base = puddle.base;
    if value < base || value - base < HEADER_BYTES {
        return None;
    }
    // Most addresses lie in the range of another puddle, and need no division.
    if value - base >= RANGE_BYTES {
        return None;
    }
    let offset = value - base - HEADER_BYTES;
    let slot_bytes = slot_bytes_of(puddle);
    let slot = offset / slot_bytes;
    if offset % slot_bytes != 0 || slot >= u64::from(slots_of(puddle)) {
        return None;
    }
    Some(slot as u32)
}

/// The puddle over the base by which pointers are read: its own base if they are rewritten, otherwise the old base.
fn read_over(puddle: &Puddle, rewritten: bool) -> Puddle
    ensures { result ≡ cond rewritten puddle.now (over_old puddle.now) }
{
    if rewritten {
        *puddle
    } else {
        Puddle {
            number: puddle.number,
            base: puddle.old_base,
            old_base: puddle.old_base,
            frontier: puddle.frontier,
            class: puddle.class,
        }
    }
}

/// Finds where a pointer leads, or returns None if it leads nowhere. The pointer `value` stands at a step of the
/// ordinal's puddle. Step 0 is the puddle's header, and step s + 1 is its slot s. Pointers of steps below the puddle's
/// frontier stand over the bases of the pool, all others over the old bases. The bases may be any values. If two
/// puddles have the same base, the lower ordinal counts.
pub fn read_pointer(pool: &[(u32, Puddle)], ordinal: u32, step: u32, value: u64) -> Option<Pointee>
    requires few { length pool.now ≤ MAX_PUDDLES }
    requires known { ordinal < length pool.now }
    ensures pointee { result ≡ pointee_of (pointee_at (map (λ e. e.1) pool.now) ordinal step value) }
    ensures within { IfSome result (LeadsWithin pool.now) }
{
    if value == 0 {
        return Some(Pointee::Null);
    }
    let (_, holder) = pool[ordinal as usize];
    let rewritten = step < holder.frontier;
    for other in 0..pool.len() {
        let (_, puddle) = pool[other];
        if let Some(slot) = slot_in(&read_over(&puddle, rewritten), value) {
            return Some(Pointee::At {
                ordinal: other as u32,
                slot,
            });
        }
    }
    None
}
