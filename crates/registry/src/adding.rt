//! Puddles that are added to pools, both to new pools and to existing ones.

ghost use Rattle.std.specs.Prelude.{◌≡◌, ◌<◌, ◌≤◌, ℕ, List, Option, Result, IfOk};
ghost use Rattle.pm_model.specs.Words.{reads};
ghost use Rattle.pm_model.specs.Counts.{after_fault, fault_of};
ghost use Rattle.pm_model.specs.Reads.{OnlyReads};
ghost use Rattle.pm_model.specs.Changes.{Changes, Write};
ghost use Rattle.log_replay.specs.Replaying.{Anything};
ghost use Rattle.pud_defs.specs.declared.layout.TheConstants.{DAEMON_LOG, NUMBER_LIMIT};
ghost use Rattle.pud_defs.specs.declared.records.Put.{Put};
ghost use Rattle.pud_defs.specs.declared.records.TheConstants.{POOL_RECORDS};
ghost use Rattle.pud_defs.specs.declared.space.TheConstants.{CLASSES};
ghost use Rattle.pud_defs.specs.Formats.Image.{Image};
ghost use Rattle.pud_defs.specs.RegistryTables.Keyed.{first_free};
ghost use Rattle.pud_defs.specs.Formats.Layout.{device_words};
ghost use Rattle.pud_defs.specs.RegistryTables.Tables.{tables_of};
ghost use Rattle.pud_defs.specs.StateMachine.World.{StoredWorld};
ghost use Rattle.batch.specs.Batches.{HasIdleGate};
ghost use Rattle.puddle_table.specs.Records.{fault_in};
ghost use Rattle.registry.specs.Puts.{puts_batch, AreOfPools};
ghost use Rattle.registry.specs.Adding.{filling, IsFilled, IsAddedWithin, IsNewPuddle, PersistsThenCommits, AddsTo};
ghost use Rattle.registry.specs.Pools.{ChangesMasked};

use crate::frames::fill_frame;
use batch::Batch;
use pm_model::{Host, HostFault};
use pud_defs::layout::{MAX_FRAMES, NUMBER_LIMIT};
use pud_defs::records::{POOL_RECORDS, PuddleRecord};
use pud_defs::space::class_steps;
use puddle_space::free_base;
use puddle_table::{PuddleFault, free_frame};

/// A puddle that is added to a pool.
#[derive(Clone, Copy, Debug, Default, PartialEq, Eq)]
pub struct NewPuddle {
    /// Its frame.
    pub frame: u32,
    /// The content of its record.
    pub puddle: PuddleRecord,
}

/// Finds the new puddle of this ordinal, this UUID number and this class for the pool of slot `slot`. It stands in the
/// lowest free frame and at the lowest free base. `NoSpace` comes only if no frame is free. Nothing changes.
pub(crate) fn find_place<H: Host>(
    h: &mut H,
    frames: u32,
    slot: u32,
    ordinal: u32,
    number: u64,
    class: u32,
) -> Result<NewPuddle, PuddleFault>
    requires few { frames ≤ MAX_FRAMES }
    requires room { device_words frames ≤ (H.counts h.old).size }
    requires known { slot < POOL_RECORDS }
    requires left { number < NUMBER_LIMIT }
    requires class { class < CLASSES }
    ensures no_space { H.tells → (image : Image) → reads (H.state h.old).now.words ≡ image
        → result ≡ Result.Err PuddleFault.NoSpace → first_free (tables_of frames image).puddles 0 (tables_of frames image).frames ≡ Option.None }
    ensures place { H.tells → (image : Image) → reads (H.state h.old).now.words ≡ image → IfOk result (IsNewPuddle (tables_of frames image) slot ordinal number) }
    ensures within { IfOk result (IsAddedWithin frames) }
    ensures drawn { IfOk result (λ added. added.puddle.number ≡ number) }
    ensures of_class { IfOk result (λ added. added.puddle.class ≡ class) }
    ensures only_reads { OnlyReads H.tells H.state H.counts (fault_in result) h.old h.new }
{
    let frame = free_frame(h, frames, 0)?;
    let base = free_base(h, frames, &[])?;
    Ok(NewPuddle {
        frame,
        puddle: PuddleRecord {
            pool: slot,
            ordinal,
            number,
            base,
            old_base: base,
            frontier: class_steps(class),
            class,
        },
    })
}

/// Adds the puddle: fills its frame, and after that writes the batch that names it. The only errors are the host's own.
pub(crate) fn add_puddle<H: Host>(
    h: &mut H,
    frames: u32,
    added: NewPuddle,
    batch: Batch,
) -> Result<(), HostFault>
    requires few { frames ≤ MAX_FRAMES }
    requires room { device_words frames ≤ (H.counts h.old).size }
    requires within { added.frame < frames }
    ensures commits { H.tells → (puts : List Put) → AreOfPools frames puts → batch ≡ puts_batch puts
        → HasIdleGate DAEMON_LOG (H.state h.old).now.words → PersistsThenCommits (filling frames added) (puts_batch puts) (fault_of result) (H.state h.old) (H.state h.new) }
    ensures adds { H.tells → (size : ℕ) → size ≡ (H.counts h.old).size → (s next : StoredWorld) (mask : Write) → AddsTo size s next frames added batch mask (H.state h.old).now.words
        → ChangesMasked mask size s next (IsFilled frames added) (fault_of result) (H.state h.old) (H.state h.new) }
    ensures any { H.tells → Changes Anything (fault_of result) (H.state h.old) (H.state h.new) }
    ensures cause { H.counts h.new ≡ after_fault (fault_of result) (H.counts h.old) }
{
    fill_frame(h, frames, added)?;
    batch.commit(h)
}
