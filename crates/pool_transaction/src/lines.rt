//! The calls that answer the commands of a transaction. They begin, commit and undo it, make and free objects in it,
//! set a field or the root, and defer a field's value.
ghost use Rattle.pool_transaction.specs.Premises.{DoesOwnChange, CarriesOutChange, memory_of, WhileOwn};
ghost use Rattle.daemon_memory.specs.Premises.{WhenReady};
ghost use Rattle.daemon_memory.specs.CarryingOut.{CarriesOutWith};
ghost use Rattle.daemon_memory.specs.Leading.{IsStill};
ghost use Rattle.daemon_memory.specs.LineAnswers.{as_line_answer};
ghost use Rattle.pool_transaction.specs.Ending.{BeginsOn, CommitsOn, AbortsOn};
ghost use Rattle.std.specs.Prelude.{◌≡◌, ◌≢◌, ◌<◌, ◌≤◌, ℕ, Option, IfOk};
ghost use Rattle.pm_model.specs.Words.{IsRested, reads};
ghost use Rattle.pm_model.specs.Counts.{after_fault, fault_of};
ghost use Rattle.pm_model.specs.Reads.{OnlyReads};
ghost use Rattle.pud_defs.specs.declared.layout.TheConstants.{CLIENTS, MAX_FRAMES};
ghost use Rattle.pud_defs.specs.declared.records.TheConstants.{POOL_RECORDS};
ghost use Rattle.pud_defs.specs.declared.machine.Command.TheVariants as commands;
ghost use Rattle.pud_defs.specs.Formats.Image.{Image};
ghost use Rattle.pud_defs.specs.Formats.Layout.{device_words};
ghost use Rattle.pud_defs.specs.Logging.Settled.{ALL_LOGS};
ghost use Rattle.pud_defs.specs.StateMachine.World.{Transaction, World, open_on};
ghost use Rattle.pool_transaction.specs.Changing.{IsLegalChange};
ghost use Rattle.daemon_memory.specs.ActiveTransactions.{AreActiveWithin};
ghost use Rattle.daemon_memory.specs.PoolKnowledge.{known_puddles_in, AreOnDevice, AreKnownPools};
ghost use Rattle.daemon_memory.specs.Ready.{KeepsRest, IsReady};

use crate::changing::{Change, Update, carry_out_change};
use crate::own::{begin_deeper, begin_on, commit_own, undo};
use daemon_memory::{DaemonMemory, KnownPools, Need, OwnTransaction, PoolTransactions};
use pm_model::{Host, HostFault};
use pud_defs::machine::{Refusal, Reply};
use pud_defs::records::Name;
use std::alloc::Global;

/// Before an update, builds an index of the pool in this slot, as `KnownPools::build` states: to free an object, one
/// that counts references. Before a change that makes an object it does nothing.
///
/// `frames` is the device's number of frames. The only errors are the host's own.
fn index_for<H: Host>(
    alloc: Global,
    h: &mut H,
    frames: u32,
    known_pools: &mut KnownPools,
    slot: u32,
    change: Change,
) -> Result<(), HostFault>
    requires few { frames ≤ MAX_FRAMES }
    requires room { device_words frames ≤ (H.counts h.old).size }
    requires slot { slot < POOL_RECORDS }
    requires known { AreOnDevice frames known_pools.old }
    ensures known_pools { H.tells → (image : Image) → reads (H.state h.old).now.words ≡ image → AreKnownPools frames known_pools.old image → AreKnownPools frames known_pools.new image }
    ensures puddles { (i : ℕ) → known_puddles_in known_pools.new i ≡ known_puddles_in known_pools.old i }
    ensures known { AreOnDevice frames known_pools.new }
    ensures only_reads { OnlyReads H.tells H.state H.counts (fault_of result) h.old h.new }
{
    match change {
        Change::New { .. } => Ok(()),
        Change::Update(Update::Free { .. }) => known_pools.build(alloc, h, frames, slot, true),
        Change::Update(_) => known_pools.build(alloc, h, frames, slot, false),
    }
}

/// Makes the change in the transaction that is active under the log number, on the known pool in the slot.
///
/// `frames` is the device's number of frames. The only errors are the host's own.
fn change_in<H: Host>(
    h: &mut H,
    frames: u32,
    all: &mut PoolTransactions,
    known_pools: &mut KnownPools,
    own: OwnTransaction,
    change: Change,
) -> Result<Reply, HostFault>
    requires few { frames ≤ MAX_FRAMES }
    requires room { device_words frames ≤ (H.counts h.old).size }
    requires slot { own.slot < POOL_RECORDS }
    requires number { own.log_number < ALL_LOGS }
    requires within { AreActiveWithin frames all.old }
    requires known { AreOnDevice frames known_pools.old }
    requires legal { IsLegalChange change }
    ensures does { H.tells → WhileOwn frames (H.counts h.old).size all.old known_pools.old own (H.state h.old) (λ size w sessions client name.
        DoesOwnChange size w client name change (memory_of frames all.new sessions known_pools.new) result (H.state h.old) (H.state h.new)) }
    ensures uncut { IfOk result (λ reply. reply ≢ Reply.Cut) }
    ensures within { AreActiveWithin frames all.new }
    ensures known { AreOnDevice frames known_pools.new }
    ensures rest { H.tells → KeepsRest (H.state h.old) (H.state h.new) }
    ensures rested { H.tells → fault_of result ≡ Option.Some HostFault.Cut → IsRested (H.state h.new).now.words }
    ensures cause { H.counts h.new ≡ after_fault (fault_of result) (H.counts h.old) }
{
    match &mut all[own.log_number as usize] {
        Some(opened) => match &mut known_pools.pools[own.slot as usize] {
            Some(pool) => carry_out_change(opened, h, frames, pool, change),
            None => Ok(Reply::No(Refusal::Wild)),
        },
        None => Ok(Reply::No(Refusal::Tx)),
    }
}

/// Begins a transaction of the client, 0 to 7, on the pool of this name, in the client's lowest closed log. If the
/// client's own transaction is open on the pool, begins it once more; nothing on the device changes then.
///
/// The reply is `Ok`, or the first of these refusals that holds:
/// - `Client`: the client is not present.
/// - `Pool`: no pool has the name.
/// - `Wild`: the pool has no graph.
/// - `Denied`: the pool's mode does not let the client write it.
/// - `Busy`: another client's transaction is open on the pool.
/// - `Deep`: the client's own transaction was begun 16 times.
/// - `Logs`: each of the client's logs has an open transaction.
///
/// The only errors are the host's own: `Failed` if a host call failed, `Cut` if power was lost. After either, the
/// device stands for what it stood for before the call, or for what the line gives. The daemon must then be stopped
/// and started again.
pub fn begin<H: Host>(
    memory: &mut DaemonMemory,
    h: &mut H,
    client: u8,
    name: Name,
) -> Result<Reply, HostFault>
    requires known { client < CLIENTS }
    requires room { device_words (memory.old).frames ≤ (H.counts h.old).size }
    ensures carries { H.tells → WhenReady (H.counts h.old).size memory.old (H.state h.old) (λ size w.
        CarriesOutWith IsStill (BeginsOn w client name) size w memory.new (commands.Begin client name) (as_line_answer result) (H.counts h.old) (H.counts h.new) (H.state h.old) (H.state h.new)) }
    // If a transaction is open on the pool, nothing on the device changes: the client's own is begun once more, or
    // the line is refused.
    ensures nested { H.tells → (size : ℕ) → (w : World) → IsReady size w memory.old (H.state h.old) → (t : Transaction) → open_on name w ≡ Option.Some t → H.state h.new ≡ H.state h.old }
    ensures uncut { IfOk result (λ reply. reply ≢ Reply.Cut) }
    ensures frames { (memory.new).frames ≡ (memory.old).frames }
    ensures rest { H.tells → KeepsRest (H.state h.old) (H.state h.new) }
    ensures rested { H.tells → fault_of result ≡ Option.Some HostFault.Cut → IsRested (H.state h.new).now.words }
    ensures cause { H.counts h.new ≡ after_fault (fault_of result) (H.counts h.old) }
{
    let found = match memory.find_pool(h, client, name, Need::Write)? {
        Err(refusal) => return Ok(Reply::No(refusal)),
        Ok(found) => found,
    };
    match found.own {
        Some(number) => Ok(begin_deeper(memory, client, found.slot, number)),
        None => begin_on(memory, h, client, name, found.slot),
    }
}

/// Commits the client's own transaction on the pool of this name. What it changed is then durable. If it was begun
/// more than once, it stays open, begun once less, and nothing on the device changes. The client is 0 to 7.
///
/// The reply is `Ok`, or the first of these refusals that holds:
/// - `Client`: the client is not present.
/// - `Pool`: no pool has the name.
/// - `Wild`: the pool has no graph.
/// - `Busy`: another client's transaction is open on the pool.
/// - `Tx`: no transaction is open on the pool.
///
/// The only errors are the host's own: `Failed` if a host call failed, `Cut` if power was lost. After either, the
/// device stands for what it stood for before the call, or for what the line gives. The daemon must then be stopped
/// and started again.
pub fn commit<H: Host>(
    memory: &mut DaemonMemory,
    h: &mut H,
    client: u8,
    name: Name,
) -> Result<Reply, HostFault>
    requires known { client < CLIENTS }
    requires room { device_words (memory.old).frames ≤ (H.counts h.old).size }
    ensures carries { H.tells → WhenReady (H.counts h.old).size memory.old (H.state h.old) (λ size w.
        CarriesOutWith IsStill (CommitsOn w client name) size w memory.new (commands.Commit client name) (as_line_answer result) (H.counts h.old) (H.counts h.new) (H.state h.old) (H.state h.new)) }
    // If it was begun more than once, nothing on the device changes.
    ensures nested { H.tells → (size : ℕ) → (w : World) → IsReady size w memory.old (H.state h.old) → (t : Transaction) → open_on name w ≡ Option.Some t → 1 < t.depth
        → H.state h.new ≡ H.state h.old }
    ensures uncut { IfOk result (λ reply. reply ≢ Reply.Cut) }
    ensures frames { (memory.new).frames ≡ (memory.old).frames }
    ensures rest { H.tells → KeepsRest (H.state h.old) (H.state h.new) }
    ensures rested { H.tells → fault_of result ≡ Option.Some HostFault.Cut → IsRested (H.state h.new).now.words }
    ensures cause { H.counts h.new ≡ after_fault (fault_of result) (H.counts h.old) }
{
    let own = match memory.find_own(h, client, name)? {
        Err(refusal) => return Ok(Reply::No(refusal)),
        Ok(own) => own,
    };
    commit_own(memory, h, client, own)?;
    Ok(Reply::Ok)
}

/// Undoes the client's own transaction on the pool of this name, however often it was begun. The pool's objects are
/// again as they were at the first `begin`. The client is 0 to 7.
///
/// The reply is `Ok`, or the first of these refusals that holds:
/// - `Client`: the client is not present.
/// - `Pool`: no pool has the name.
/// - `Wild`: the pool has no graph.
/// - `Busy`: another client's transaction is open on the pool.
/// - `Tx`: no transaction is open on the pool.
///
/// The only errors are the host's own: `Failed` if a host call failed, `Cut` if power was lost. After either, the
/// device stands for what it stood for before the call, or for what the line gives. The daemon must then be stopped
/// and started again.
pub fn abort<H: Host>(
    memory: &mut DaemonMemory,
    h: &mut H,
    client: u8,
    name: Name,
) -> Result<Reply, HostFault>
    requires known { client < CLIENTS }
    requires room { device_words (memory.old).frames ≤ (H.counts h.old).size }
    ensures carries { H.tells → WhenReady (H.counts h.old).size memory.old (H.state h.old) (λ size w.
        CarriesOutWith IsStill (AbortsOn w client name) size w memory.new (commands.Abort client name) (as_line_answer result) (H.counts h.old) (H.counts h.new) (H.state h.old) (H.state h.new)) }
    ensures uncut { IfOk result (λ reply. reply ≢ Reply.Cut) }
    ensures frames { (memory.new).frames ≡ (memory.old).frames }
    ensures rest { H.tells → KeepsRest (H.state h.old) (H.state h.new) }
    ensures rested { H.tells → fault_of result ≡ Option.Some HostFault.Cut → IsRested (H.state h.new).now.words }
    ensures cause { H.counts h.new ≡ after_fault (fault_of result) (H.counts h.old) }
{
    let own = match memory.find_own(h, client, name)? {
        Err(refusal) => return Ok(Reply::No(refusal)),
        Ok(own) => own,
    };
    undo(memory, h, own.log_number)?;
    Ok(Reply::Ok)
}

/// Makes the change in the client's own transaction on the pool of this name. The client is 0 to 7.
///
/// The client sees the change at once, and others see it once it is committed. A deferred value takes effect at the
/// commit, after all values that the transaction sets and all that it deferred before. Until then nobody sees it. A
/// new object has each field zero or null. If the pool has no free slot, it first grows by a puddle. It keeps this
/// puddle even if the transaction is undone.
///
/// The reply is `Ok`, or the serial of the new object, or the first of these refusals that holds; a refusal changes
/// nothing:
/// - `Client`: the client is not present.
/// - `Pool`: no pool has the name.
/// - `Wild`: the pool has no graph.
/// - `Busy`: another client's transaction is open on the pool.
/// - `Tx`: no transaction is open on the pool.
///
/// Then, for a new object:
/// - `Type`: the type is not defined.
/// - `TooBig`: the transaction's log has no room for the units of the object, 37 in a large puddle and 13 in a small one.
/// - `Full`: the pool has no serial left, or has as many objects as it may have, or must grow when no UUID is left.
/// - `Space`: the pool must grow and no frame is free.
///
/// Or, for an update:
/// - `Object`: there is no object of the serial that is named, or of the serial that is to be the value.
/// - `Field`: the object has no such field.
/// - `Kind`: the field is for a number and the value is a reference, or the other way round.
/// - `Held`: the object is to be freed, and it is the root, or a pointer of an object (itself included) leads to
///   it, or a deferred value is for one of its fields or leads to it.
/// - `TooBig`: the transaction's log has no room for three more units.
///
/// The only errors are the host's own: `Failed` if a host call failed, `Cut` if power was lost. After either, the
/// device stands for what it stood for before the call, or for what the line gives. The daemon must then be stopped
/// and started again.
pub fn change_own<H: Host>(
    memory: &mut DaemonMemory,
    alloc: Global,
    h: &mut H,
    client: u8,
    name: Name,
    change: Change,
) -> Result<Reply, HostFault>
    requires known { client < CLIENTS }
    requires legal { IsLegalChange change }
    requires room { device_words (memory.old).frames ≤ (H.counts h.old).size }
    ensures carries { H.tells → WhenReady (H.counts h.old).size memory.old (H.state h.old) (λ size w.
        CarriesOutChange size w memory.new client name change result (H.counts h.old) (H.counts h.new) (H.state h.old) (H.state h.new)) }
    ensures uncut { IfOk result (λ reply. reply ≢ Reply.Cut) }
    ensures frames { (memory.new).frames ≡ (memory.old).frames }
    ensures rest { H.tells → KeepsRest (H.state h.old) (H.state h.new) }
    ensures rested { H.tells → fault_of result ≡ Option.Some HostFault.Cut → IsRested (H.state h.new).now.words }
    ensures cause { H.counts h.new ≡ after_fault (fault_of result) (H.counts h.old) }
{
    let own = match memory.find_own(h, client, name)? {
        Err(refusal) => return Ok(Reply::No(refusal)),
        Ok(own) => own,
    };
    let frames = memory.frames;
    index_for(alloc, h, frames, &mut memory.known_pools, own.slot, change)?;
    change_in(
        h,
        frames,
        &mut memory.opened,
        &mut memory.known_pools,
        own,
        change,
    )
}
