//! Pools that are made.

ghost use Rattle.std.specs.Prelude.{◌≡◌, ◌≢◌, ◌≤◌, ℕ, Option, IfOk};
ghost use Rattle.pm_model.specs.Words.{reads};
ghost use Rattle.pm_model.specs.Counts.{after_fault};
ghost use Rattle.pm_model.specs.Reads.{OnlyReads};
ghost use Rattle.pm_model.specs.Changes.{Changes, Write};
ghost use Rattle.log_replay.specs.Replaying.{Anything};
ghost use Rattle.pud_defs.specs.declared.layout.TheConstants.{NEXT_NUMBER_WORD};
ghost use Rattle.pud_defs.specs.Formats.Image.{Image};
ghost use Rattle.pud_defs.specs.Formats.Layout.{device_words};
ghost use Rattle.pud_defs.specs.RegistryTables.Tables.{tables_of};
ghost use Rattle.pud_defs.specs.StateMachine.World.{StoredWorld};
ghost use Rattle.registry.specs.Puts.{puts_batch};
ghost use Rattle.registry.specs.Adding.{IsAddedWithin};
ghost use Rattle.registry.specs.Places.{make_fault, refusal_in, make_refusal, IsFirstFor};
ghost use Rattle.registry.specs.Pools.{making, MakesRecords, MayMake, MakesPool};

use crate::adding::{NewPuddle, add_puddle, find_place};
use crate::puts::{add_put, number_put};
use batch::Batch;
use pm_model::{Host, HostFault};
use pool_table::PoolFault;
use pud_defs::layout::{MAX_FRAMES, NEXT_NUMBER_WORD, NUMBER_LIMIT};
use pud_defs::records::{Name, PoolRecord};
use pud_defs::space::FIRST_CLASS;
use puddle_table::PuddleFault;

/// How many UUID numbers a new pool draws: its own, and after it that of its first puddle.
const NUMBERS_DRAWN: u64 = 2;

/// Why no pool was made. Nothing changed, except possibly if the host failed.
#[derive(Clone, Copy, Debug, PartialEq, Eq, thiserror::Error)]
pub enum MakeFault {
    /// A pool has the name.
    #[error("there is a pool of this name")]
    Exists,
    /// All records of the pool table are used, or too few UUID numbers are left.
    #[error("there is no room for another pool")]
    Full,
    /// No frame is free.
    #[error("no frame is free")]
    NoSpace,
    /// The host's own fault.
    #[error("the host failed")]
    Host(HostFault),
}

impl From<HostFault> for MakeFault {
    ghost use Rattle.registry.specs.declared.making.MakeFault.TheVariants.{Host};

    ghost from_gives = { λ fault e. e ≡ Host fault };

    fn from(fault: HostFault) -> Self {
        MakeFault::Host(fault)
    }
}

impl From<PoolFault> for MakeFault {
    ghost use Rattle.registry.specs.Places.{of_pool_fault};

    ghost from_gives = { λ fault e. e ≡ of_pool_fault fault };

    fn from(fault: PoolFault) -> Self {
        match fault {
            PoolFault::Exists => MakeFault::Exists,
            PoolFault::Full => MakeFault::Full,
            PoolFault::Host(fault) => MakeFault::Host(fault),
        }
    }
}

impl From<PuddleFault> for MakeFault {
    ghost use Rattle.registry.specs.Places.{of_puddle_fault};

    ghost from_gives = { λ fault e. e ≡ of_puddle_fault fault };

    fn from(fault: PuddleFault) -> Self {
        match fault {
            PuddleFault::NoSpace => MakeFault::NoSpace,
            PuddleFault::Host(fault) => MakeFault::Host(fault),
        }
    }
}

/// Finds the first puddle of a new pool of this name, with the slot that the pool takes, or why no pool can be made.
/// The pool's own UUID number is the one before the puddle's.
fn find_first<H: Host>(h: &mut H, frames: u32, name: Name) -> Result<NewPuddle, MakeFault>
    requires few { frames ≤ MAX_FRAMES }
    requires room { device_words frames ≤ (H.counts h.old).size }
    ensures refusal { H.tells → (image : Image) → reads (H.state h.old).now.words ≡ image → make_fault result ≡ Option.None
        → refusal_in result ≡ make_refusal (tables_of frames image) (image NEXT_NUMBER_WORD) name }
    ensures first { H.tells → (image : Image) → reads (H.state h.old).now.words ≡ image
        → IfOk result (IsFirstFor (tables_of frames image) (image NEXT_NUMBER_WORD) name) }
    ensures within { IfOk result (IsAddedWithin frames) }
    ensures not_first { IfOk result (λ added. 1 ≤ added.puddle.number) }
    ensures only_reads { OnlyReads H.tells H.state H.counts (make_fault result) h.old h.new }
{
    let slot = pool_table::free_slot(h, name)?;
    let number = h.load(NEXT_NUMBER_WORD)?;
    if number > NUMBER_LIMIT - NUMBERS_DRAWN {
        return Err(MakeFault::Full);
    }
    Ok(find_place(h, frames, slot, 0, number + 1, FIRST_CLASS)?)
}

/// The batch that makes the pool of this record with its first puddle.
fn making(rec: PoolRecord, added: NewPuddle) -> Batch
    requires within { IsAddedWithin MAX_FRAMES added }
    ensures { result ≡ puts_batch (making rec added) }
{
    let mut batch = Batch::new();
    add_put(&mut batch, &pool_table::record_put(added.puddle.pool, rec));
    add_put(&mut batch, &number_put(added.puddle.number + 1));
    add_put(
        &mut batch,
        &puddle_table::record_put(added.frame, added.puddle),
    );
    batch
}

/// Makes a pool of one puddle, by one batch. The pool takes the lowest free slot and the next UUID number. Its puddle
/// takes the lowest free frame, the lowest free base and the UUID number after the pool's.
///
/// The device has `frames` frames and the words that they need. If the host does not fail first, the errors are these.
/// `Exists` comes exactly if a pool has the name. `Full` comes exactly if none has it, and all records are used or
/// fewer than two UUID numbers below 2^63 are left. `NoSpace` comes exactly if none of this is true and no frame is
/// free. With these errors nothing changed.
///
/// Otherwise the frame is filled and durable before the batch names it. Suppose each image stands for one world, the
/// tables are durable, and a pool may have this name, owner, group and mode. Then whatever a power loss leaves stands
/// for that world, or for the world with the pool; in the second case the pool's frame is filled. At `Ok` each image
/// stands for the second world, and the daemon log is closed.
pub fn make_pool<H: Host>(
    h: &mut H,
    frames: u32,
    name: Name,
    uid: u32,
    gid: u32,
    mode: u32,
) -> Result<(), MakeFault>
    requires few { frames ≤ MAX_FRAMES }
    requires room { device_words frames ≤ (H.counts h.old).size }
    ensures refusal { H.tells → (image : Image) → reads (H.state h.old).now.words ≡ image → make_fault result ≡ Option.None
        → refusal_in result ≡ make_refusal (tables_of frames image) (image NEXT_NUMBER_WORD) name }
    ensures unchanged { H.tells → (image : Image) → reads (H.state h.old).now.words ≡ image
        → make_refusal (tables_of frames image) (image NEXT_NUMBER_WORD) name ≢ Option.None → H.state h.new ≡ H.state h.old }
    ensures commits { H.tells → (image : Image) → reads (H.state h.old).now.words ≡ image
        → MakesRecords frames image name uid gid mode (make_fault result) (H.state h.old) (H.state h.new) }
    ensures makes { H.tells → (size : ℕ) → size ≡ (H.counts h.old).size → (s : StoredWorld) (mask : Write) → MayMake size s frames name uid gid mode mask (H.state h.old).now.words
        → MakesPool size s frames name uid gid mode mask (make_fault result) (H.state h.old) (H.state h.new) }
    ensures any { H.tells → Changes Anything (make_fault result) (H.state h.old) (H.state h.new) }
    ensures cause { H.counts h.new ≡ after_fault (make_fault result) (H.counts h.old) }
{
    let added = find_first(h, frames, name)?;
    let rec = PoolRecord {
        name,
        uid,
        gid,
        mode,
        number: added.puddle.number - 1,
    };
    Ok(add_puddle(h, frames, added, making(rec, added))?)
}
