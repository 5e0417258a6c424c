//! The log-space table of a device: whose the logs of each client are, and which of a client's logs is free.
//!
//! One batch changes a client's record, and one batch empties the whole table. So each image left meanwhile has the
//! record or the table either wholly as it was or wholly as it is to be.
#![tactic(auto)]

ghost use Rattle.std.specs.Prelude.{◌≡◌, ◌<◌, ◌≤◌, ℕ, Option, IfOk, IfSome, is_some, option_map, length};
ghost use Rattle.pm_model.specs.Words.{reads};
ghost use Rattle.pm_model.specs.Counts.{after_fault, fault_of};
ghost use Rattle.pm_model.specs.Reads.{OnlyReads};
ghost use Rattle.pm_model.specs.Changes.{Changes};
ghost use Rattle.pud_defs.specs.declared.layout.TheConstants.{DAEMON_LOG, PUDDLE_TABLE, SPACE_RECORD_WORDS, CLIENTS, MAX_FRAMES, MAX_OWNER_ID};
ghost use Rattle.pud_defs.specs.Formats.Layout.{device_words};
ghost use Rattle.pud_defs.specs.Formats.Image.{Image};
ghost use Rattle.pud_defs.specs.RegistryTables.Spaces.{owner_by, owner_of};
ghost use Rattle.pud_defs.specs.StateMachine.World.{StoredWorld};
ghost use Rattle.log_replay.specs.Replaying.{Anything};
ghost use Rattle.batch.specs.Batches.{HasIdleGate, ByBatch, Commits};
ghost use Rattle.batch.specs.Worlds.{IsQuiescent, WhileQuiescent};
ghost use Rattle.log_space.specs.Records.{record_batch, registration, unregistration, RecordMoves, InEachWorld, HasClosedLogs, Registers, Unregisters};
ghost use Rattle.log_space.specs.Clearing.{clearing, Clears, Empties};
ghost use Rattle.log_space.specs.Owners.{owner_read};
ghost use Rattle.log_space.specs.FreeLogs.{first_closed, IsLogOf};

mod closing;

use batch::Batch;
pub use closing::close_logs;
use log_entry::is_closed_log;
use pm_model::{Host, HostFault};
use pud_defs::layout::{CLIENT_LOGS, CLIENTS, LogNumber, log_at, space_record_at};
use pud_defs::records::Owner;

/// Writes these values to the first words of the record of client `slot`, either all of them or none.
fn write_record<H: Host>(h: &mut H, slot: u32, vals: &[u64]) -> Result<(), HostFault>
    requires table { PUDDLE_TABLE ≤ (H.counts h.old).size }
    requires known { slot < CLIENTS }
    requires some { 1 ≤ length vals.now }
    requires no_more { length vals.now ≤ SPACE_RECORD_WORDS }
    ensures commits { H.tells → HasIdleGate DAEMON_LOG (H.state h.old).now.words → Commits DAEMON_LOG (record_batch slot vals.now) (fault_of result) (H.state h.old) (H.state h.new) }
    ensures moves { H.tells → (size : ℕ) → size ≡ (H.counts h.old).size → (s next : StoredWorld)
        → WhileQuiescent size s (ByBatch DAEMON_LOG (record_batch slot vals.now)) (H.state h.old) (H.state h.new) (RecordMoves size s next slot vals.now (fault_of result)) }
    ensures any { H.tells → Changes Anything (fault_of result) (H.state h.old) (H.state h.new) }
    ensures cause { H.counts h.new ≡ after_fault (fault_of result) (H.counts h.old) }
{
    let mut batch = Batch::new();
    let _fits = batch.add(space_record_at(slot), vals);
    batch.commit(h)
}

/// Registers the logs of client `slot`, 0 to 7, for the owner `uid`, `gid`, by one batch. Each of the two is at most
/// 65,535.
///
/// The device must have the log-space table. If the daemon log counts nothing in each image, each image left meanwhile
/// has, with that log replayed, either all new words of the record or all old ones. On `Ok` the new words are durable,
/// and the daemon log is closed. If each image also stands for a world, and the client's logs are closed in it, then
/// each image left meanwhile stands for that world, with the record either as it was or registered. The only errors are
/// the host's own.
pub fn register<H: Host>(h: &mut H, slot: u32, uid: u32, gid: u32) -> Result<(), HostFault>
    requires table { PUDDLE_TABLE ≤ (H.counts h.old).size }
    requires known { slot < CLIENTS }
    requires uid_fits { uid ≤ MAX_OWNER_ID }
    requires gid_fits { gid ≤ MAX_OWNER_ID }
    ensures commits { H.tells → HasIdleGate DAEMON_LOG (H.state h.old).now.words → Commits DAEMON_LOG (registration slot uid gid) (fault_of result) (H.state h.old) (H.state h.new) }
    ensures registers { H.tells → InEachWorld (H.counts h.old).size (ByBatch DAEMON_LOG (registration slot uid gid)) (H.state h.old) (H.state h.new)
        (λ size s before after. HasClosedLogs s.frames slot before.now.words → Registers size s slot uid gid (fault_of result) before after) }
    ensures any { H.tells → Changes Anything (fault_of result) (H.state h.old) (H.state h.new) }
    ensures cause { H.counts h.new ≡ after_fault (fault_of result) (H.counts h.old) }
{
    write_record(h, slot, &[1, u64::from(uid), u64::from(gid)])
}

/// Frees the record of client `slot`, 0 to 7, by one batch. Its logs are then no longer registered.
///
/// The device must have the log-space table. If the daemon log counts nothing in each image, each image left meanwhile
/// has, with that log replayed, either the new or the old first word of the record. On `Ok` the new one is durable, and
/// the daemon log is closed. If each image also stands for a world, then each image left meanwhile stands for that
/// world, with the record either as it was or free. The only errors are the host's own.
pub fn unregister<H: Host>(h: &mut H, slot: u32) -> Result<(), HostFault>
    requires table { PUDDLE_TABLE ≤ (H.counts h.old).size }
    requires known { slot < CLIENTS }
    ensures commits { H.tells → HasIdleGate DAEMON_LOG (H.state h.old).now.words → Commits DAEMON_LOG (unregistration slot) (fault_of result) (H.state h.old) (H.state h.new) }
    ensures unregisters { H.tells → InEachWorld (H.counts h.old).size (ByBatch DAEMON_LOG (unregistration slot)) (H.state h.old) (H.state h.new)
        (λ size s before after. Unregisters size s slot (fault_of result) before after) }
    ensures any { H.tells → Changes Anything (fault_of result) (H.state h.old) (H.state h.new) }
    ensures cause { H.counts h.new ≡ after_fault (fault_of result) (H.counts h.old) }
{
    write_record(h, slot, &[0])
}

/// The batch that empties the records of the clients with numbers below `count`.
fn clearing(count: u32) -> Batch
    requires { count ≤ CLIENTS }
    ensures { result ≡ clearing count }
{
    let mut batch = Batch::new();
    for client in 0..count {
        let _fits = batch.add(space_record_at(client), &[0]);
    }
    batch
}

/// Empties the log-space table by one batch: no client's logs are registered any more.
///
/// The device must have that table. If the daemon log counts nothing in each image, each image left meanwhile has, with
/// that log replayed, the table either wholly as it was or wholly empty. On `Ok` it is empty in each image, durably,
/// and the daemon log is closed. If each image also stands for a world, each image left meanwhile stands for that
/// world. The only errors are the host's own.
pub fn clear_spaces<H: Host>(h: &mut H) -> Result<(), HostFault>
    requires { PUDDLE_TABLE ≤ (H.counts h.old).size }
    ensures empties { H.tells → HasIdleGate DAEMON_LOG (H.state h.old).now.words → Empties (fault_of result) (H.state h.old) (H.state h.new) }
    ensures clears { H.tells → (size : ℕ) → size ≡ (H.counts h.old).size → (s : StoredWorld) → IsQuiescent size s (H.state h.old).now.words
        → Clears size s (fault_of result) (H.state h.old) (H.state h.new) }
    ensures any { H.tells → Changes Anything (fault_of result) (H.state h.old) (H.state h.new) }
    ensures cause { H.counts h.new ≡ after_fault (fault_of result) (H.counts h.old) }
{
    clearing(CLIENTS).commit(h)
}

/// Whether the logs of client `slot`, 0 to 7, are registered. The device must have the log-space table. If the daemon
/// log names words of the table, the values in that log are not taken into account. The call changes nothing. The only
/// errors are the host's own.
pub fn is_registered<H: Host>(h: &mut H, slot: u32) -> Result<bool, HostFault>
    requires table { PUDDLE_TABLE ≤ (H.counts h.old).size }
    requires known { slot < CLIENTS }
    ensures registered { H.tells → IfOk result (λ registered. registered ≡ is_some (owner_of (reads (H.state h.old).now.words) slot)) }
    ensures only_reads { OnlyReads H.tells H.state H.counts (fault_of result) h.old h.new }
{
    Ok(h.load(space_record_at(slot))? == 1)
}

/// The owner in these three words of a record. There is none if the first word is not 1.
fn owner_by(used: u64, uid: u64, gid: u64) -> Option<Owner>
    ensures { result ≡ option_map owner_read (owner_by used uid gid) }
{
    if used != 1 {
        return None;
    }
    Some(Owner {
        uid: (uid % (1 << 32)) as u32,
        gid: (gid % (1 << 32)) as u32,
    })
}

/// The owner as whom client `slot`, 0 to 7, acts: the owner of its logs. It is None exactly if they are not registered.
///
/// The device must have the log-space table, whatever it stores. If the daemon log names words of the table, the values
/// in that log are not taken into account. The call changes nothing. The only errors are the host's own.
pub fn owner<H: Host>(h: &mut H, slot: u32) -> Result<Option<Owner>, HostFault>
    requires table { PUDDLE_TABLE ≤ (H.counts h.old).size }
    requires known { slot < CLIENTS }
    ensures owner { H.tells → (image : Image) → reads (H.state h.old).now.words ≡ image
        → IfOk result (λ found. found ≡ option_map owner_read (owner_of image slot)) }
    ensures only_reads { OnlyReads H.tells H.state H.counts (fault_of result) h.old h.new }
{
    let at = space_record_at(slot);
    let used = h.load(at)?;
    let uid = h.load(at + 1)?;
    let gid = h.load(at + 2)?;
    Ok(owner_by(used, uid, gid))
}

/// The log number of the lowest closed log of client `slot`, 0 to 7. It is None exactly if none of the four logs is
/// closed.
///
/// The device must have `frames` frames, at most 1,024, and the words that they need. Its other words may store
/// anything. The call changes nothing. The only errors are the host's own.
pub fn free_log<H: Host>(h: &mut H, frames: u32, slot: u32) -> Result<Option<LogNumber>, HostFault>
    requires few { frames ≤ MAX_FRAMES }
    requires room { device_words frames ≤ (H.counts h.old).size }
    requires known { slot < CLIENTS }
    ensures lowest { H.tells → IfOk result (λ found. found ≡ first_closed (reads (H.state h.old).now.words) frames slot) }
    ensures within { IfOk result (λ found. IfSome found (IsLogOf slot)) }
    ensures only_reads { OnlyReads H.tells H.state H.counts (fault_of result) h.old h.new }
{
    for number in 0..CLIENT_LOGS {
        if is_closed_log(h, log_at(frames, slot, number))? {
            return Ok(Some(CLIENT_LOGS * slot + number));
        }
    }
    Ok(None)
}
