//! How a transaction begins on a pool, and how it ends: it is committed or undone.
ghost use Rattle.pool_transaction.specs.Premises.{AppliesBegin, WhileRuns};
ghost use Rattle.daemon_memory.specs.Premises.{ForReady};
ghost use Rattle.std.specs.Prelude.{length, ◌≡◌, ◌<◌, ◌≤◌, Option, IfOk};
ghost use Rattle.pm_model.specs.Words.{IsRested, reads};
ghost use Rattle.pm_model.specs.Counts.{after_fault, fault_of};
ghost use Rattle.pud_defs.specs.declared.layout.TheConstants.{CLIENTS, MAX_FRAMES};
ghost use Rattle.pud_defs.specs.declared.records.TheConstants.{POOL_RECORDS};
ghost use Rattle.pud_defs.specs.Formats.Layout.{device_words};
ghost use Rattle.log_space.specs.FreeLogs.{IsLogOf, first_closed};
ghost use Rattle.pool_transaction.specs.Lifetime.{MayBeginIn};
ghost use Rattle.known_pool.specs.Known.{Known};
ghost use Rattle.pool_transaction.specs.Ending.{CommitsActive, AbortsActive};
ghost use Rattle.pool_transaction.specs.Writing.{OpensLog};
ghost use Rattle.daemon_memory.specs.Beginning.{begins_as};
ghost use Rattle.daemon_memory.specs.ActiveTransactions.{IsActiveWithin};
ghost use Rattle.daemon_memory.specs.Ready.{KeepsRest};

use daemon_memory::PoolTransaction;
use hybrid_tx::Tx;
use pm_model::{Host, HostFault};
use pud_defs::records::Name;

/// Begins a transaction of the client, 0 to 7, on the pool with this name. The pool's record has this slot, 0 to
/// 31. The transaction gets the client's log with this number, 0 to 31 among the logs of all clients.
///
/// The device has `frames` frames. The only word that the call writes is the gate of the log. It takes one fence.
/// The only errors are the host's own.
pub(crate) fn begin_transaction<H: Host>(
    h: &mut H,
    frames: u32,
    client: u8,
    name: Name,
    slot: u32,
    number: u32,
) -> Result<PoolTransaction, HostFault>
    requires few { frames ≤ MAX_FRAMES }
    requires room { device_words frames ≤ (H.counts h.old).size }
    requires client { client < CLIENTS }
    requires slot { slot < POOL_RECORDS }
    requires number { IsLogOf client number }
    ensures opened { IfOk result (λ opened. opened ≡ begins_as client name slot frames number) }
    ensures applies { H.tells → ForReady (H.counts h.old).size frames (H.state h.old) (λ size w memory.
        MayBeginIn memory (reads (H.state h.old).now.words) client name slot number → (fault_of result ≡ Option.None → number < length memory.active)
        → AppliesBegin frames client name slot number size w memory (fault_of result) (H.state h.old) (H.state h.new)) }
    // Only the gate of this log is written, if the log is the client's lowest closed one.
    ensures writes { H.tells → Option.Some number ≡ first_closed (reads (H.state h.old).now.words) frames client → OpensLog frames client (fault_of result) (H.state h.old) (H.state h.new) }
    ensures within { IfOk result (IsActiveWithin frames) }
    ensures rest { H.tells → KeepsRest (H.state h.old) (H.state h.new) }
    ensures rested { H.tells → fault_of result ≡ Option.Some HostFault.Cut → IsRested (H.state h.new).now.words }
    ensures cause { H.counts h.new ≡ after_fault (fault_of result) (H.counts h.old) }
{
    let tx = Tx::begin(h, frames, number)?;
    Ok(PoolTransaction {
        client,
        name,
        slot,
        log_number: number,
        tx,
    })
}

/// Commits the transaction, if it was begun once. Its deferred values take effect with all that it changed. If
/// there are any, the references to the pool's objects are counted no more.
///
/// The device has `frames` frames. The call takes three fences, or four if a value was deferred. The only errors
/// are the host's own.
pub(crate) fn commit_transaction<H: Host>(
    opened: PoolTransaction,
    h: &mut H,
    frames: u32,
) -> Result<(), HostFault>
    requires few { frames ≤ MAX_FRAMES }
    requires room { device_words frames ≤ (H.counts h.old).size }
    requires within { IsActiveWithin frames opened }
    ensures commits { H.tells → (known : Known) → WhileRuns frames (H.counts h.old).size opened known (H.state h.old) (λ size w memory.
        CommitsActive frames opened known size w memory (fault_of result) (H.state h.old) (H.state h.new)) }
    ensures rest { H.tells → KeepsRest (H.state h.old) (H.state h.new) }
    ensures rested { H.tells → fault_of result ≡ Option.Some HostFault.Cut → IsRested (H.state h.new).now.words }
    ensures cause { H.counts h.new ≡ after_fault (fault_of result) (H.counts h.old) }
{
    let PoolTransaction {
        client: _client,
        name: _name,
        slot: _slot,
        log_number: _number,
        tx,
    } = opened;
    tx.commit(h, frames)
}

/// Undoes the transaction, however often it was begun. Of what was known about the pool only its puddles are still
/// known.
///
/// The device has `frames` frames. The call takes one fence, or two if something was changed or deferred. The only
/// errors are the host's own.
pub(crate) fn abort_transaction<H: Host>(
    opened: PoolTransaction,
    h: &mut H,
    frames: u32,
) -> Result<(), HostFault>
    requires few { frames ≤ MAX_FRAMES }
    requires room { device_words frames ≤ (H.counts h.old).size }
    requires within { IsActiveWithin frames opened }
    ensures aborts { H.tells → (known : Known) → WhileRuns frames (H.counts h.old).size opened known (H.state h.old) (λ size w memory.
        AbortsActive frames opened known size w memory (fault_of result) (H.state h.old) (H.state h.new)) }
    ensures rest { H.tells → KeepsRest (H.state h.old) (H.state h.new) }
    ensures rested { H.tells → fault_of result ≡ Option.Some HostFault.Cut → IsRested (H.state h.new).now.words }
    ensures cause { H.counts h.new ≡ after_fault (fault_of result) (H.counts h.old) }
{
    let PoolTransaction {
        client: _client,
        name: _name,
        slot: _slot,
        log_number: _number,
        tx,
    } = opened;
    tx.abort(h, frames)
}
