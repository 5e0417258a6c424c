//! Computes the values of a pool's pointers over the pool's bases.

ghost use Rattle.std.specs.Prelude.{◌≡◌, ◌<◌, ◌≤◌, length, map};
ghost use Rattle.graph_laws.specs.Rewriting.{rewritten};
ghost use Rattle.lazy_rewrite.specs.Entries.{IsToRewrite};

use graph_read::{address_of, read_pointer};
use pud_defs::records::{MAX_PUDDLES, Puddle};

/// The value over the pool's bases of a pointer at a step of the ordinal's puddle, if the pointer stands over the old
/// bases and the pool's bases are low.
pub(crate) fn over_bases(pool: &[(u32, Puddle)], ordinal: u32, step: u32, value: u64) -> u64
    requires few { length pool.now ≤ MAX_PUDDLES }
    requires known { ordinal < length pool.now }
    ensures { IsToRewrite pool.now ordinal step → result ≡ rewritten (map (λ e. e.1) pool.now) value }
{
    address_of(pool, read_pointer(pool, ordinal, step, value))
}
