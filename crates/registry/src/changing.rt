//! Pools whose mode is changed, and pools that are dropped.

ghost use Rattle.std.specs.Prelude.{◌≡◌, ◌+◌, ◌<◌, ◌≤◌, ℕ, IfOk};
ghost use Rattle.pm_model.specs.Words.{reads};
ghost use Rattle.pm_model.specs.Counts.{after_fault, fault_of};
ghost use Rattle.pm_model.specs.Reads.{OnlyReads};
ghost use Rattle.pm_model.specs.Changes.{Changes};
ghost use Rattle.log_replay.specs.Replaying.{Anything};
ghost use Rattle.pud_defs.specs.declared.layout.TheConstants.{DAEMON_LOG};
ghost use Rattle.pud_defs.specs.declared.records.TheConstants.{MAX_PUDDLES};
ghost use Rattle.pud_defs.specs.Formats.Image.{Image};
ghost use Rattle.pud_defs.specs.RegistryTables.Keyed.{count_used};
ghost use Rattle.pud_defs.specs.Formats.Layout.{tables_end};
ghost use Rattle.pud_defs.specs.RegistryTables.Puddles.{puddle_at, puddle_record_at};
ghost use Rattle.pud_defs.specs.RegistryTables.Puts.{is_of_pool};
ghost use Rattle.pud_defs.specs.RegistryTables.Tables.{tables_of, members};
ghost use Rattle.batch.specs.Batches.{HasIdleGate, Commits};
ghost use Rattle.registry.specs.Puts.{puts_batch};
ghost use Rattle.registry.specs.Pools.{changing, dropping, ChangesMode, DropsRecords, DropsPool};

use crate::puts::add_put;
use batch::Batch;
use pm_model::{Host, HostFault};
use pud_defs::layout::{MAX_FRAMES, PUDDLE_TABLE, puddle_record_at};
use pud_defs::records::{POOL_RECORDS, member_pool};

/// Gives the pool of this slot the mode, by one batch.
///
/// The device reaches up to the puddle table. If the daemon log counts nothing in each image at the start, then
/// whatever a power loss leaves has, with that log replayed, the new mode or the old one. At `Ok` the new mode is
/// durable, and the daemon log is closed. Suppose in addition that each image stands for one world, the tables are
/// durable, the slot's record is used and the mode is legal. Then whatever a power loss leaves stands for that world,
/// or for the world with this mode in the pool; at `Ok` each image stands for the second one. The only errors are the
/// host's own.
pub fn change_mode<H: Host>(h: &mut H, slot: u32, mode: u32) -> Result<(), HostFault>
    requires table { PUDDLE_TABLE ≤ (H.counts h.old).size }
    requires known { slot < POOL_RECORDS }
    ensures commits { H.tells → (size : ℕ) → size ≡ (H.counts h.old).size → HasIdleGate DAEMON_LOG (H.state h.old).now.words
        → Commits DAEMON_LOG (puts_batch (changing slot mode)) (fault_of result) (H.state h.old) (H.state h.new) }
    ensures changes { H.tells → (size : ℕ) → size ≡ (H.counts h.old).size → ChangesMode size slot mode (fault_of result) (H.state h.old) (H.state h.new) }
    ensures any { H.tells → Changes Anything (fault_of result) (H.state h.old) (H.state h.new) }
    ensures cause { H.counts h.new ≡ after_fault (fault_of result) (H.counts h.old) }
{
    let mut batch = Batch::new();
    add_put(&mut batch, &pool_table::set_mode(slot, mode));
    batch.commit(h)
}

/// Whether the puddle record of a frame names the pool of this slot.
fn is_of_pool<H: Host>(h: &mut H, frame: u32, slot: u32) -> Result<bool, HostFault>
    requires few { frame < MAX_FRAMES }
    requires record { puddle_record_at (frame + 1) ≤ (H.counts h.old).size }
    requires known { slot < POOL_RECORDS }
    ensures of { H.tells → (image : Image) → reads (H.state h.old).now.words ≡ image → IfOk result (λ of. of ≡ is_of_pool slot (puddle_at image frame)) }
    ensures only_reads { OnlyReads H.tells H.state H.counts (fault_of result) h.old h.new }
{
    let member = h.load(puddle_record_at(frame))?;
    Ok(member_pool(member) == slot + 1)
}

/// The batch that frees the record of this slot's pool and the records of that pool's puddles.
fn dropping<H: Host>(h: &mut H, frames: u32, slot: u32) -> Result<Batch, HostFault>
    requires few { frames ≤ MAX_FRAMES }
    requires table { tables_end frames ≤ (H.counts h.old).size }
    requires known { slot < POOL_RECORDS }
    ensures batch { H.tells → (image : Image) → reads (H.state h.old).now.words ≡ image → count_used (members (tables_of frames image) slot) 0 frames ≤ MAX_PUDDLES
        → IfOk result (λ batch. batch ≡ puts_batch (dropping (tables_of frames image) slot)) }
    ensures only_reads { OnlyReads H.tells H.state H.counts (fault_of result) h.old h.new }
{
    let mut batch = Batch::new();
    add_put(&mut batch, &pool_table::remove(slot));
    for frame in 0..frames {
        if is_of_pool(h, frame, slot)? {
            add_put(&mut batch, &puddle_table::remove(frame));
        }
    }
    Ok(batch)
}

/// Drops the pool of this slot with its puddles, by one batch. Their frames are free afterwards; they are not written.
///
/// The device has the tables of `frames` frames. If the daemon log counts nothing in each image at the start and the
/// pool has at most 16 puddles, then whatever a power loss leaves has, with that log replayed, all of these records
/// free or none of them changed. At `Ok` they are free, durably, and the daemon log is closed. Suppose in addition that
/// each image stands for one world of `frames` frames, the tables are durable and the slot's record is used. Then
/// whatever a power loss leaves stands for that world, or for the world without the pool; at `Ok` each image stands for
/// the second one. The only errors are the host's own. It takes one load for each frame.
pub fn drop_pool<H: Host>(h: &mut H, frames: u32, slot: u32) -> Result<(), HostFault>
    requires few { frames ≤ MAX_FRAMES }
    requires table { tables_end frames ≤ (H.counts h.old).size }
    requires known { slot < POOL_RECORDS }
    ensures commits { H.tells → (size : ℕ) → size ≡ (H.counts h.old).size → (image : Image) → reads (H.state h.old).now.words ≡ image
        → DropsRecords frames slot image (fault_of result) (H.state h.old) (H.state h.new) }
    ensures changes { H.tells → (size : ℕ) → size ≡ (H.counts h.old).size → DropsPool size frames slot (fault_of result) (H.state h.old) (H.state h.new) }
    ensures any { H.tells → Changes Anything (fault_of result) (H.state h.old) (H.state h.new) }
    ensures cause { H.counts h.new ≡ after_fault (fault_of result) (H.counts h.old) }
{
    dropping(h, frames, slot)?.commit(h)
}
