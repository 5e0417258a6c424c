//! Judges whether what a pool stores is a graph, counts its objects, and sums their numbers.

ghost use Rattle.std.specs.Prelude.{◌≡◌, ◌+◌, ◌-◌, ◌*◌, ◌<◌, ◌≤◌, ◌==◌, ◌&&◌, length, slice_index, Option, is_some, option_map, take, IfOk, IfSome};
ghost use Rattle.std.specs.Ordering.{nat_cmp};
ghost use Rattle.pm_model.specs.Words.{reads};
ghost use Rattle.pm_model.specs.Counts.{fault_of};
ghost use Rattle.pm_model.specs.Reads.{OnlyReads};
ghost use Rattle.pud_defs.specs.PoolGraphs.Graph.{graph_of, headers_fit, is_next_serial, under_serial};
ghost use Rattle.pud_defs.specs.Formats.Image.{Image};
ghost use Rattle.pud_defs.specs.RegistryTables.Keyed.{are_distinct};
ghost use Rattle.pud_defs.specs.Formats.Layout.{device_words};
ghost use Rattle.pud_defs.specs.PoolGraphs.Stored.{IsOnDevice, stored_in};
ghost use Rattle.pud_defs.specs.RegistryTables.Types.{types_of};
ghost use Rattle.puddle_header.specs.Places.{places_in};
ghost use Rattle.graph_read.specs.Checking.{HasSerialsInSlots};
ghost use Rattle.graph_read.specs.LiveSerials.{live_serials};
ghost use Rattle.graph_read.specs.Numbers.{totals_of};

use crate::checking::{SlotCheck, places_sum};
use crate::places::slots_end;
use crate::pointers::read_pointer;
use crate::serials::{Serials, read_serials};
use pm_model::{HostFault, Loads};
use pud_defs::layout::{MAX_FRAMES, NUMBER_LIMIT};
use pud_defs::objects::is_live;
use pud_defs::records::{MAX_PUDDLES, Puddle};
use pud_defs::space::places_among;
use puddle_header::{has_header, next_serial, root_value};

/// Whether each frame of a pool has the header of its puddle.
fn headers_fit<H: Loads>(h: &mut H, frames: u32, pool: &[(u32, Puddle)]) -> Result<bool, HostFault>
    requires few { frames ≤ MAX_FRAMES }
    requires room { device_words frames ≤ (H.counts h.old).size }
    requires known { IsOnDevice frames pool.now }
    ensures fit { H.tells → (image : Image) → reads (H.state h.old).now.words ≡ image → IfOk result (λ fit. fit ≡ headers_fit (stored_in frames pool.now image)) }
    ensures only_reads { OnlyReads H.tells H.state H.counts (fault_of result) h.old h.new }
{
    for ordinal in 0..pool.len() as u32 {
        let (frame, puddle) = pool[ordinal as usize];
        if !has_header(h, frames, frame, puddle.number, ordinal)? {
            return Ok(false);
        }
    }
    Ok(true)
}

/// Whether no serial of a live place occurs twice among these. The serials are sorted, so that two equal ones are
/// neighbours.
fn are_distinct(serials: &mut [u64]) -> bool
    ensures { result ≡ are_distinct nat_cmp (under_serial (slice_index serials.old) (λ p. p)) 0 (length serials.old) }
{
    serials.sort_unstable();
    for place in 1..serials.len() {
        let serial = serials[place];
        if is_live(serial) && serial == serials[place - 1] {
            return false;
        }
    }
    true
}

/// Moves the serials of the live places of a pool to the front, and returns how many they are.
fn keep_live(pool: &[(u32, Puddle)], serials: &mut Serials) -> u32
    requires few { length pool.now ≤ MAX_PUDDLES }
    requires slots { HasSerialsInSlots pool.now (slice_index serials.old) }
    ensures live { take result serials.new ≡ live_serials (slice_index serials.old) 0 (places_in pool.now) }
    ensures most { result ≤ places_in pool.now }
{
    let mut live = 0;
    for ordinal in 0..pool.len() as u32 {
        for place in places_among(ordinal)..slots_end(pool, ordinal) {
            let serial = serials[place as usize];
            if is_live(serial) {
                serials[live as usize] = serial;
                live += 1;
            }
        }
    }
    live
}

/// Whether the word may be a next serial, from 1 to 2^63.
fn is_next_serial(v: u64) -> bool
    ensures { result ≡ is_next_serial v }
{
    v >= 1 && v <= NUMBER_LIMIT
}

/// Whether all of these hold: the headers fit, the next serial may be one, the root stands for something, and no serial
/// occurs twice.
fn are_all(headers: bool, next: bool, root: bool, distinct: bool) -> bool
    ensures { result ≡ (headers && (next && root && distinct)) }
{
    headers && next && root && distinct
}

/// The totals of the objects of a graph.
#[derive(Clone, Copy, Debug, PartialEq, Eq)]
pub struct Totals {
    /// How many objects there are, at most one for each slot.
    pub objects: u32,
    /// The sum of all their number fields, modulo 2^64.
    pub sum: u64,
}

/// Counts the objects of a pool's graph and sums their number fields. The answer is None exactly if what the pool
/// stores is no graph.
///
/// The pool stores a graph if all of these hold. Each frame has the header of its puddle. The next serial is from 1 to
/// 2^63. The root is null or leads to a live slot. No two live slots have the same serial. Each live slot has a serial
/// below the next one and a type that is defined, it has room for the fields of that type, and each of its pointers is
/// null or leads to a live slot. A pool without puddles stores no graph. Each serial and each field is read at most
/// once.
pub fn pool_totals<H: Loads>(
    h: &mut H,
    frames: u32,
    pool: &[(u32, Puddle)],
) -> Result<Option<Totals>, HostFault>
    requires few { frames ≤ MAX_FRAMES }
    requires room { device_words frames ≤ (H.counts h.old).size }
    requires known { IsOnDevice frames pool.now }
    ensures held { H.tells → (image : Image) → reads (H.state h.old).now.words ≡ image
        → IfOk result (λ held. held ≡ option_map totals_of (graph_of (types_of image) (stored_in frames pool.now image))) }
    ensures within { IfOk result (λ held. IfSome held (λ totals. totals.objects ≤ places_in pool.now)) }
    ensures only_reads { OnlyReads H.tells H.state H.counts (fault_of result) h.old h.new }
{
    if pool.is_empty() {
        return Ok(None);
    }
    let (first, _) = pool[0];
    let headers = headers_fit(h, frames, pool)?;
    let next = next_serial(h, frames, first)?;
    let root = root_value(h, frames, first)?;
    let mut serials = read_serials(h, frames, pool)?;
    let check = SlotCheck::IsSound(next);
    let Some(sum) = places_sum(h, frames, pool, &serials, check)? else {
        return Ok(None);
    };
    let root = check.passes(&serials, read_pointer(pool, 0, 0, root));
    let objects = keep_live(pool, &mut serials);
    let distinct = are_distinct(&mut serials[..objects as usize]);
    let sound = are_all(headers, is_next_serial(next), root, distinct);
    Ok(sound.then_some(Totals { objects, sum }))
}

/// Returns whether what a pool stores is a graph, as `pool_totals` defines it.
pub fn pool_is_sound<H: Loads>(
    h: &mut H,
    frames: u32,
    pool: &[(u32, Puddle)],
) -> Result<bool, HostFault>
    requires few { frames ≤ MAX_FRAMES }
    requires room { device_words frames ≤ (H.counts h.old).size }
    requires known { IsOnDevice frames pool.now }
    ensures sound { H.tells → (image : Image) → reads (H.state h.old).now.words ≡ image
        → IfOk result (λ sound. sound ≡ is_some (graph_of (types_of image) (stored_in frames pool.now image))) }
    ensures only_reads { OnlyReads H.tells H.state H.counts (fault_of result) h.old h.new }
{
    Ok(pool_totals(h, frames, pool)?.is_some())
}
