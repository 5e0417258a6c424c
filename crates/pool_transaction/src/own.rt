//! Begins, commits and undoes transactions.
ghost use Rattle.daemon_memory.specs.Premises.{WhenReady};
ghost use Rattle.pool_transaction.specs.Premises.{WhileMayBegin, DoesBegin};
ghost use Rattle.pool_transaction.specs.Ending.{CommitsOwn, UndoesUnder, UndoesAll};
ghost use Rattle.pool_transaction.specs.Lifetime.{judged_after};
ghost use Rattle.daemon_memory.specs.Finding.{refusal_to};
ghost use Rattle.daemon_memory.specs.declared.finding.Need.TheVariants as needs;
ghost use Rattle.std.specs.Prelude.{length, ◌≡◌, ◌≢◌, ◌+◌, ◌<◌, ◌≤◌, ℕ, List, set, Option, IfOk, IfSome};
ghost use Rattle.pm_model.specs.Words.{IsRested};
ghost use Rattle.pm_model.specs.Counts.{after_fault, fault_of};
ghost use Rattle.pm_model.specs.Moments.{State};
ghost use Rattle.pud_defs.specs.declared.layout.TheConstants.{CLIENTS};
ghost use Rattle.pud_defs.specs.declared.records.TheConstants.{POOL_RECORDS};
ghost use Rattle.pud_defs.specs.declared.machine.Command.TheVariants as commands;
ghost use Rattle.pud_defs.specs.Formats.Layout.{device_words};
ghost use Rattle.pud_defs.specs.Logging.Settled.{ALL_LOGS};
ghost use Rattle.pud_defs.specs.StateMachine.World.{World};
ghost use Rattle.pud_defs.specs.StateMachine.Step.{answer_by, world_by};
ghost use Rattle.pud_defs.specs.StateMachine.Step.Answer.{of_reply};
ghost use Rattle.nesting.specs.Sessions.{session_in, depth_in, AreSessions};
ghost use Rattle.daemon_memory.specs.Memory.{active_under};
ghost use Rattle.daemon_memory.specs.OwnOnPool.{IsOwnTransactionOn};
ghost use Rattle.daemon_memory.specs.ActiveTransactions.{IsActiveWithin};
ghost use Rattle.daemon_memory.specs.Leaving.{sessions_after};
ghost use Rattle.daemon_memory.specs.Ready.{KeepsRest, IsReady};

use crate::lifetime::{abort_transaction, begin_transaction, commit_transaction};
use daemon_memory::{
    DaemonMemory, OwnTransaction, PoolTransaction, PoolTransactions, lose, refusal_to_enter,
};
use log_space::free_log;
use pm_model::{Host, HostFault};
use pud_defs::layout::CLIENT_LOGS;
use pud_defs::machine::{Refusal, Reply};
use pud_defs::records::Name;
use std::mem;

/// Puts a transaction under the number of its log. A transaction that was active there is given up.
fn put_transaction(all: &mut PoolTransactions, number: u32, opened: PoolTransaction)
    requires { number < ALL_LOGS }
    ensures active { all.new ≡ set all.old number (Option.Some opened) }
    ensures within { number < length all.old }
{
    lose(mem::replace(&mut all[number as usize], Some(opened)));
}

/// Begins the client's own transaction on the pool in this slot once more, or replies why not. The transaction is
/// open with the log of this number. No device is touched.
pub(crate) fn begin_deeper(memory: &mut DaemonMemory, client: u8, slot: u32, number: u32) -> Reply
    requires present { client < CLIENTS }
    requires slot { slot < POOL_RECORDS }
    requires number { number < ALL_LOGS }
    requires within { AreSessions (memory.old).sessions }
    requires own { session_in (memory.old).sessions slot ≡ Option.Some (record { client = client; log_number = number; depth = depth_in (memory.old).sessions slot }) }
    ensures reply { (size : ℕ) → (w : World) → (name : List ℕ) → (s : State) → IsReady size w memory.old s → IsOwnTransactionOn client name slot number (memory.old).active
        → refusal_to w needs.Write client name ≡ Option.None → of_reply result ≡ answer_by w (Option.Some (commands.Begin client name)) }
    ensures ready { (size : ℕ) → (w : World) → (name : List ℕ) → (s : State) → IsReady size w memory.old s → IsOwnTransactionOn client name slot number (memory.old).active
        → refusal_to w needs.Write client name ≡ Option.None → IsReady size (world_by w (Option.Some (commands.Begin client name))) memory.new s }
    ensures uncut { result ≢ Reply.Cut }
    ensures active { (memory.new).active ≡ (memory.old).active }
    ensures known_pools { (memory.new).known_pools ≡ (memory.old).known_pools }
    ensures frames { (memory.new).frames ≡ (memory.old).frames }
{
    match memory.sessions.enter(client, slot, number) {
        Ok(()) => Reply::Ok,
        Err(fault) => Reply::No(refusal_to_enter(fault)),
    }
}

/// Begins a transaction of the client on the pool of this name, in the client's lowest closed log. Or replies why
/// not: each of the client's logs has an open transaction. The pool's record has this slot, the pool is known to
/// have a graph, and no transaction is open on it.
pub(crate) fn begin_on<H: Host>(
    memory: &mut DaemonMemory,
    h: &mut H,
    client: u8,
    name: Name,
    slot: u32,
) -> Result<Reply, HostFault>
    requires room { device_words (memory.old).frames ≤ (H.counts h.old).size }
    requires present { client < CLIENTS }
    requires slot { slot < POOL_RECORDS }
    requires within { AreSessions (memory.old).sessions }
    requires shut { session_in (memory.old).sessions slot ≡ Option.None }
    ensures does { H.tells → WhileMayBegin (H.counts h.old).size memory.old client name slot (H.state h.old) (λ size w.
        DoesBegin size w client name memory.new result (H.state h.old) (H.state h.new)) }
    ensures uncut { IfOk result (λ reply. reply ≢ Reply.Cut) }
    ensures frames { (memory.new).frames ≡ (memory.old).frames }
    ensures rest { H.tells → KeepsRest (H.state h.old) (H.state h.new) }
    ensures rested { H.tells → fault_of result ≡ Option.Some HostFault.Cut → IsRested (H.state h.new).now.words }
    ensures cause { H.counts h.new ≡ after_fault (fault_of result) (H.counts h.old) }
{
    let Some(number) = free_log(h, memory.frames, client as u32)? else {
        return Ok(Reply::No(Refusal::Logs));
    };
    if let Err(fault) = memory.sessions.enter(client, slot, number) {
        return Ok(Reply::No(refusal_to_enter(fault)));
    }
    let opened = begin_transaction(h, memory.frames, client, name, slot, number)?;
    put_transaction(&mut memory.opened, number, opened);
    Ok(Reply::Ok)
}

/// Takes out the transaction that is active under the log number, if there is one, and ends its session. What is known
/// about its pool follows its end: it is to be `undone`, or to be committed.
fn take_transaction(memory: &mut DaemonMemory, number: u32, undone: bool) -> Option<PoolTransaction>
    requires { number < ALL_LOGS }
    ensures opened { result ≡ active_under (memory.old).active number }
    ensures within { IfSome result (IsActiveWithin (memory.old).frames) }
    ensures active { (memory.new).active ≡ set (memory.old).active number Option.None }
    ensures sessions { (memory.new).sessions ≡ sessions_after (active_under (memory.old).active number) (memory.old).sessions }
    ensures known_pools { (memory.new).known_pools ≡ judged_after undone (active_under (memory.old).active number) (memory.old).known_pools }
    ensures frames { (memory.new).frames ≡ (memory.old).frames }
{
    let opened = memory.opened[number as usize].take();
    if let Some(opened) = &opened {
        memory.sessions.end(opened.slot);
        let deferred = opened.tx.defers();
        memory.known_pools.ended(opened.slot, undone, deferred);
    }
    opened
}

/// Commits the client's own transaction. If it was begun more than once, it stays active, begun once less, and no
/// device is touched. Otherwise its deferred values take effect with the rest, and it is active no more.
pub(crate) fn commit_own<H: Host>(
    memory: &mut DaemonMemory,
    h: &mut H,
    client: u8,
    own: OwnTransaction,
) -> Result<(), HostFault>
    requires room { device_words (memory.old).frames ≤ (H.counts h.old).size }
    requires number { own.log_number < ALL_LOGS }
    requires slot { own.slot < POOL_RECORDS }
    requires whose { session_in (memory.old).sessions own.slot ≡ Option.Some (record { client = client; log_number = own.log_number; depth = depth_in (memory.old).sessions own.slot }) }
    ensures does { H.tells → (size : ℕ) → size ≡ (H.counts h.old).size → (w : World) → (name : List ℕ) → IsReady size w memory.old (H.state h.old)
        → IsOwnTransactionOn client name own.slot own.log_number (memory.old).active
        → CommitsOwn size w client name memory.new (fault_of result) (H.state h.old) (H.state h.new) }
    // If it was begun more than once, no device call is made.
    ensures nested { 1 < depth_in (memory.old).sessions own.slot → h.new ≡ h.old }
    ensures frames { (memory.new).frames ≡ (memory.old).frames }
    ensures rest { H.tells → KeepsRest (H.state h.old) (H.state h.new) }
    ensures rested { H.tells → fault_of result ≡ Option.Some HostFault.Cut → IsRested (H.state h.new).now.words }
    ensures cause { H.counts h.new ≡ after_fault (fault_of result) (H.counts h.old) }
{
    if memory.sessions.depth(own.slot) > 1 {
        memory.sessions.leave(client, own.slot);
        return Ok(());
    }
    let frames = memory.frames;
    match take_transaction(memory, own.log_number, false) {
        Some(opened) => commit_transaction(opened, h, frames),
        None => Ok(()),
    }
}

/// Undoes the transaction that is active under the log number, if there is one, however often it was begun. It is
/// then active no more, and its session ends.
pub(crate) fn undo<H: Host>(
    memory: &mut DaemonMemory,
    h: &mut H,
    number: u32,
) -> Result<(), HostFault>
    requires room { device_words (memory.old).frames ≤ (H.counts h.old).size }
    requires number { number < ALL_LOGS }
    ensures does { H.tells → WhenReady (H.counts h.old).size memory.old (H.state h.old) (λ size w.
        UndoesUnder number memory.old memory.new size w (fault_of result) (H.state h.old) (H.state h.new)) }
    ensures active { (memory.new).active ≡ set (memory.old).active number Option.None }
    ensures frames { (memory.new).frames ≡ (memory.old).frames }
    ensures rest { H.tells → KeepsRest (H.state h.old) (H.state h.new) }
    ensures rested { H.tells → fault_of result ≡ Option.Some HostFault.Cut → IsRested (H.state h.new).now.words }
    ensures cause { H.counts h.new ≡ after_fault (fault_of result) (H.counts h.old) }
{
    let frames = memory.frames;
    match take_transaction(memory, number, true) {
        Some(opened) => abort_transaction(opened, h, frames),
        None => Ok(()),
    }
}

/// Undoes the client's own transactions, whatever pools they are on.
pub fn undo_of<H: Host>(memory: &mut DaemonMemory, h: &mut H, client: u8) -> Result<(), HostFault>
    requires room { device_words (memory.old).frames ≤ (H.counts h.old).size }
    requires known { client < CLIENTS }
    ensures does { H.tells → WhenReady (H.counts h.old).size memory.old (H.state h.old) (λ size w.
        UndoesAll client memory.new size w (fault_of result) (H.state h.old) (H.state h.new)) }
    ensures frames { (memory.new).frames ≡ (memory.old).frames }
    ensures rest { H.tells → KeepsRest (H.state h.old) (H.state h.new) }
    ensures rested { H.tells → fault_of result ≡ Option.Some HostFault.Cut → IsRested (H.state h.new).now.words }
    ensures cause { H.counts h.new ≡ after_fault (fault_of result) (H.counts h.old) }
{
    let first = CLIENT_LOGS * u32::from(client);
    for number in first..first + CLIENT_LOGS {
        undo(memory, h, number)?;
    }
    Ok(())
}
