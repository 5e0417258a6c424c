//! Pools that are placed: all puddles of a pool, whose frames were filled before, and the types that the pool brings.

ghost use Rattle.std.specs.Prelude.{◌≡◌, ◌+◌, ◌<◌, ◌≤◌, ℕ, All, ◌++◌, length, map};
ghost use Rattle.pm_model.specs.Counts.{after_fault, fault_of};
ghost use Rattle.pm_model.specs.Changes.{Changes};
ghost use Rattle.log_replay.specs.Replaying.{Anything};
ghost use Rattle.pud_defs.specs.declared.layout.TheConstants.{DAEMON_LOG, LOG_ENTRY_WORDS, NUMBER_LIMIT, TYPE_RECORDS};
ghost use Rattle.pud_defs.specs.declared.records.TheConstants.{POOL_RECORDS, MAX_PUDDLES};
ghost use Rattle.pud_defs.specs.Formats.Layout.{device_words};
ghost use Rattle.batch.specs.Batches.{HasIdleGate, word_count_of};
ghost use Rattle.registry.specs.Puts.{puts_batch};
ghost use Rattle.registry.specs.Adding.{IsAddedWithin, puddle_records};
ghost use Rattle.registry.specs.Placing.{new_type_put, placing, PlacesPool};
ghost use Rattle.registry.specs.Pools.{CommitsPuts};

use crate::adding::NewPuddle;
use crate::puts::{add_put, number_put};
use batch::Batch;
use pm_model::{Host, HostFault};
use pud_defs::layout::{MAX_FRAMES, NUMBER_LIMIT, TYPE_RECORDS};
use pud_defs::records::{MAX_PUDDLES, POOL_RECORDS, PoolRecord};

/// A type that is to be defined in a free record of the type table.
#[derive(Clone, Copy, Debug, Default, PartialEq, Eq)]
pub struct NewType {
    /// The number of its record.
    pub record_number: u32,
    /// Its id.
    pub id: u32,
    /// Its map.
    pub map: u64,
}

/// Adds the records of the types to the batch, if it has room for all of them.
fn add_types(batch: &mut Batch, types: &[NewType])
    requires records { All (λ t. t.record_number < TYPE_RECORDS) types.now }
    ensures { word_count_of batch.old + word_count_of (puts_batch (map new_type_put types.now)) ≤ LOG_ENTRY_WORDS → batch.new ≡ batch.old ++ puts_batch (map new_type_put types.now) }
{
    for t in types {
        add_put(batch, &type_maps::record_put(t.record_number, t.id, t.map));
    }
}

/// Adds the records of the puddles to the batch, if it has room for all of them.
fn add_puddles(batch: &mut Batch, puddles: &[NewPuddle])
    requires within { All (IsAddedWithin MAX_FRAMES) puddles.now }
    ensures { word_count_of batch.old + word_count_of (puts_batch (puddle_records puddles.now)) ≤ LOG_ENTRY_WORDS → batch.new ≡ batch.old ++ puts_batch (puddle_records puddles.now) }
{
    for added in puddles {
        add_put(batch, &puddle_table::record_put(added.frame, added.puddle));
    }
}

/// The batch that places the pool of this record in the slot, with its types and its puddles.
fn placing(slot: u32, rec: PoolRecord, types: &[NewType], puddles: &[NewPuddle]) -> Batch
    requires slot { slot < POOL_RECORDS }
    requires number { rec.number < NUMBER_LIMIT }
    requires types { length types.now ≤ TYPE_RECORDS }
    requires records { All (λ t. t.record_number < TYPE_RECORDS) types.now }
    requires puddles { length puddles.now ≤ MAX_PUDDLES }
    requires within { All (IsAddedWithin MAX_FRAMES) puddles.now }
    ensures { result ≡ puts_batch (placing slot rec types.now puddles.now) }
{
    let mut batch = Batch::new();
    add_types(&mut batch, types);
    add_put(&mut batch, &pool_table::record_put(slot, rec));
    let numbers_drawn = 1 + puddles.len() as u64;
    add_put(&mut batch, &number_put(rec.number + numbers_drawn));
    add_puddles(&mut batch, puddles);
    batch
}

/// Places a pool of this record in the slot, with these puddles and these types, by one batch. The frames of the
/// puddles were filled before.
///
/// The device has `frames` frames and the words that they need. Nothing is read. If the daemon log counts nothing in
/// each image at the start, then whatever a power loss leaves has, with that log replayed, all of the records or none.
/// At `Ok` they are durable, and the daemon log is closed. Suppose in addition that each image stands for one world,
/// the tables are durable, the pool is legal and may be placed, and its frames store the same in each image. Then
/// whatever a power loss leaves stands for that world, or for the world that has the types and the pool, with what its
/// frames store. At `Ok` each image stands for the second world. The only errors are the host's own.
pub fn place_pool<H: Host>(
    h: &mut H,
    frames: u32,
    slot: u32,
    rec: PoolRecord,
    types: &[NewType],
    puddles: &[NewPuddle],
) -> Result<(), HostFault>
    requires few { frames ≤ MAX_FRAMES }
    requires room { device_words frames ≤ (H.counts h.old).size }
    requires slot { slot < POOL_RECORDS }
    requires number { rec.number < NUMBER_LIMIT }
    requires types { length types.now ≤ TYPE_RECORDS }
    requires records { All (λ t. t.record_number < TYPE_RECORDS) types.now }
    requires puddles { length puddles.now ≤ MAX_PUDDLES }
    requires within { All (IsAddedWithin frames) puddles.now }
    ensures commits { H.tells → HasIdleGate DAEMON_LOG (H.state h.old).now.words
        → CommitsPuts (placing slot rec types.now puddles.now) (fault_of result) (H.state h.old) (H.state h.new) }
    ensures places { H.tells → (size : ℕ) → size ≡ (H.counts h.old).size → PlacesPool size frames slot rec types.now puddles.now (fault_of result) (H.state h.old) (H.state h.new) }
    ensures any { H.tells → Changes Anything (fault_of result) (H.state h.old) (H.state h.new) }
    ensures cause { H.counts h.new ≡ after_fault (fault_of result) (H.counts h.old) }
{
    placing(slot, rec, types, puddles).commit(h)
}
