//! Pools that grow by one puddle.

ghost use Rattle.std.specs.Prelude.{◌≡◌, ◌<◌, ◌≤◌, ℕ, IfOk};
ghost use Rattle.pm_model.specs.Words.{reads};
ghost use Rattle.pm_model.specs.Counts.{after_fault, fault_of};
ghost use Rattle.pm_model.specs.Reads.{OnlyReads};
ghost use Rattle.pm_model.specs.Changes.{Changes, Write};
ghost use Rattle.log_replay.specs.Replaying.{Anything};
ghost use Rattle.pud_defs.specs.declared.layout.TheConstants.{DAEMON_LOG, NEXT_NUMBER_WORD};
ghost use Rattle.pud_defs.specs.declared.space.TheConstants.{CLASSES};
ghost use Rattle.pud_defs.specs.Formats.Image.{Image};
ghost use Rattle.pud_defs.specs.Formats.Layout.{device_words};
ghost use Rattle.pud_defs.specs.RegistryTables.Tables.{tables_of};
ghost use Rattle.pud_defs.specs.StateMachine.World.{StoredWorld};
ghost use Rattle.batch.specs.Batches.{HasIdleGate};
ghost use Rattle.registry.specs.Puts.{puts_batch};
ghost use Rattle.registry.specs.Adding.{filling, IsFilled, IsAddedWithin, PersistsThenCommits};
ghost use Rattle.registry.specs.Places.{refusal_in};
ghost use Rattle.registry.specs.Pools.{ChangesMasked};
ghost use Rattle.registry.specs.Growth.{has_room_to_grow, grow_refusal, IsGrowthFor, growing, GrowsAt};

use crate::adding::{NewPuddle, add_puddle, find_place};
use crate::puts::{add_put, number_put};
use batch::Batch;
use pm_model::{Host, HostFault};
use pud_defs::layout::{MAX_FRAMES, NEXT_NUMBER_WORD, NUMBER_LIMIT};
use pud_defs::machine::Refusal;
use pud_defs::records::{MAX_PUDDLES, POOL_RECORDS};
use puddle_table::PuddleFault;

/// Whether a pool of `puddles` puddles may have one more, and UUID number `number` is left for it.
fn has_room(puddles: u32, number: u64) -> bool
    ensures { result ≡ has_room_to_grow puddles number }
{
    puddles < MAX_PUDDLES && number < NUMBER_LIMIT
}

/// Finds the puddle by which the pool of slot `slot` grows, or why it does not grow. The pool has `puddles` puddles.
///
/// The new puddle is the next one of the pool, and it is of class `class`. It takes the lowest free frame, the lowest
/// free base and the next UUID number. The device has `frames` frames and the words that they need. `Full` comes
/// exactly if the pool has 16 puddles or no UUID number below 2^63 is left. `Space` comes exactly if neither is true and
/// no frame is free. Nothing changes, and the only errors are the host's own.
pub fn find_growth<H: Host>(
    h: &mut H,
    frames: u32,
    slot: u32,
    puddles: u32,
    class: u32,
) -> Result<Result<NewPuddle, Refusal>, HostFault>
    requires few { frames ≤ MAX_FRAMES }
    requires room { device_words frames ≤ (H.counts h.old).size }
    requires known { slot < POOL_RECORDS }
    requires class { class < CLASSES }
    ensures refusal { H.tells → (image : Image) → reads (H.state h.old).now.words ≡ image
        → IfOk result (λ found. refusal_in found ≡ grow_refusal (tables_of frames image) (image NEXT_NUMBER_WORD) puddles) }
    ensures growth { H.tells → (image : Image) → reads (H.state h.old).now.words ≡ image
        → IfOk result (λ found. IfOk found (IsGrowthFor (tables_of frames image) (image NEXT_NUMBER_WORD) slot puddles)) }
    ensures few { IfOk result (λ found. IfOk found (λ _. puddles < MAX_PUDDLES)) }
    ensures within { IfOk result (λ found. IfOk found (IsAddedWithin frames)) }
    ensures of_class { IfOk result (λ found. IfOk found (λ added. added.puddle.class ≡ class)) }
    ensures only_reads { OnlyReads H.tells H.state H.counts (fault_of result) h.old h.new }
{
    let number = h.load(NEXT_NUMBER_WORD)?;
    if !has_room(puddles, number) {
        return Ok(Err(Refusal::Full));
    }
    match find_place(h, frames, slot, puddles, number, class) {
        Ok(added) => Ok(Ok(added)),
        Err(PuddleFault::NoSpace) => Ok(Err(Refusal::Space)),
        Err(PuddleFault::Host(fault)) => Err(fault),
    }
}

/// The batch that adds the puddle to its pool.
fn growing(added: NewPuddle) -> Batch
    requires within { IsAddedWithin MAX_FRAMES added }
    ensures { result ≡ puts_batch (growing added) }
{
    let mut batch = Batch::new();
    add_put(&mut batch, &number_put(added.puddle.number + 1));
    add_put(
        &mut batch,
        &puddle_table::record_put(added.frame, added.puddle),
    );
    batch
}

/// Adds the puddle that `find_growth` found to its pool, by one batch.
///
/// The device has `frames` frames and the words that they need. The frame is filled and durable before the batch names
/// it. Suppose each image stands for one world, the tables are durable, and the puddle is the one by which a pool of
/// that world grows. Then whatever a power loss leaves stands for that world, or for the world in which this pool has
/// one more puddle; in the second case the frame is filled. At `Ok` each image stands for the second world, and the
/// daemon log is closed. A pool with a graph has the same graph afterwards. A pool without a graph still has none: it
/// keeps what it kept, and after that the record and the words of the new puddle. The only errors are the host's own.
pub fn grow_pool<H: Host>(h: &mut H, frames: u32, added: NewPuddle) -> Result<(), HostFault>
    requires few { frames ≤ MAX_FRAMES }
    requires room { device_words frames ≤ (H.counts h.old).size }
    requires within { IsAddedWithin frames added }
    ensures commits { H.tells → HasIdleGate DAEMON_LOG (H.state h.old).now.words
        → PersistsThenCommits (filling frames added) (puts_batch (growing added)) (fault_of result) (H.state h.old) (H.state h.new) }
    ensures grows { H.tells → (size : ℕ) → size ≡ (H.counts h.old).size → (s next : StoredWorld) (mask : Write) → GrowsAt size s next frames added mask (H.state h.old).now.words
        → ChangesMasked mask size s next (IsFilled frames added) (fault_of result) (H.state h.old) (H.state h.new) }
    ensures any { H.tells → Changes Anything (fault_of result) (H.state h.old) (H.state h.new) }
    ensures cause { H.counts h.new ≡ after_fault (fault_of result) (H.counts h.old) }
{
    add_puddle(h, frames, added, growing(added))
}
