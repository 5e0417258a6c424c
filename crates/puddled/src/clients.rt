//! The lines that register and remove clients.
ghost use Rattle.daemon_memory.specs.Premises.{WhenReady, ForReady};
ghost use Rattle.std.specs.Prelude.{◌≡◌, ◌≢◌, ◌<◌, ◌≤◌, true, IfOk, is_some, Option};
ghost use Rattle.pm_model.specs.Words.{IsRested};
ghost use Rattle.pm_model.specs.Counts.{after_fault, fault_of};
ghost use Rattle.pud_defs.specs.declared.layout.TheConstants.{DAEMON_LOG, CLIENTS, MAX_OWNER_ID, MAX_FRAMES};
ghost use Rattle.pud_defs.specs.Formats.Layout.{device_words};
ghost use Rattle.pud_defs.specs.StateMachine.Step.{answer_by, after, world_by};
ghost use Rattle.pud_defs.specs.StateMachine.Step.Answer.{of_reply};
ghost use Rattle.pud_defs.specs.declared.machine.Command.TheVariants as commands;
ghost use Rattle.batch.specs.Batches.{HasIdleGate, Commits};
ghost use Rattle.log_space.specs.Closed.{ClosesGates};
ghost use Rattle.log_space.specs.Records.{registration, unregistration};
ghost use Rattle.daemon_memory.specs.ActiveTransactions.{AreOfOtherClients};
ghost use Rattle.daemon_memory.specs.Ready.{KeepsRest, Applies, ClosesBefore};
ghost use Rattle.daemon_memory.specs.Sequences.{Then};
ghost use Rattle.daemon_memory.specs.LineAnswers.{as_line_answer};
ghost use Rattle.puddled.specs.Acts.{Acts, ActsAs};

use daemon_memory::DaemonMemory;
use log_space::{close_logs, is_registered, register, unregister};
use pm_model::{Host, HostFault};
use pool_transaction::undo_of;
use pud_defs::machine::{Refusal, Reply};

/// Closes the client's logs, and then registers them for the owner `uid` and the group `gid`.
fn close_and_register<H: Host>(
    h: &mut H,
    frames: u32,
    client: u32,
    uid: u32,
    gid: u32,
) -> Result<(), HostFault>
    requires known { client < CLIENTS }
    requires uid_fits { uid ≤ MAX_OWNER_ID }
    requires gid_fits { gid ≤ MAX_OWNER_ID }
    requires few { frames ≤ MAX_FRAMES }
    requires room { device_words frames ≤ (H.counts h.old).size }
    ensures applies { H.tells → ForReady (H.counts h.old).size frames (H.state h.old) (λ size w memory. AreOfOtherClients client memory.active
        → Applies size w (after w (commands.Client client uid gid)) memory (fault_of result) (H.state h.old) (H.state h.new)) }
    // The record is written only after the logs are closed durably.
    ensures acts { H.tells → HasIdleGate DAEMON_LOG (H.state h.old).now.words
        → Then (ClosesGates frames client) (Commits DAEMON_LOG (registration client uid gid)) (fault_of result) (H.state h.old) (H.state h.new) }
    ensures rest { H.tells → KeepsRest (H.state h.old) (H.state h.new) }
    ensures rested { H.tells → fault_of result ≡ Option.Some HostFault.Cut → IsRested (H.state h.new).now.words }
    ensures cause { H.counts h.new ≡ after_fault (fault_of result) (H.counts h.old) }
{
    close_logs(h, frames, client)?;
    register(h, client, uid, gid)
}

/// Registers the client with this owner and group, or refuses to. Its logs are closed durably before they are
/// registered. `frames` is the device's number of frames.
///
/// The reply is `Ok`, or `Taken` if the client is registered already. A refusal changes nothing.
// Not inlined: its buffers would lie on the stack of every line.
#[inline(never)]
pub(crate) fn register_client<H: Host>(
    h: &mut H,
    frames: u32,
    client: u32,
    uid: u32,
    gid: u32,
) -> Result<Reply, HostFault>
    requires known { client < CLIENTS }
    requires uid_fits { uid ≤ MAX_OWNER_ID }
    requires gid_fits { gid ≤ MAX_OWNER_ID }
    requires few { frames ≤ MAX_FRAMES }
    requires room { device_words frames ≤ (H.counts h.old).size }
    ensures reply { H.tells → ForReady (H.counts h.old).size frames (H.state h.old) (λ size w memory.
        IfOk result (λ reply. of_reply reply ≡ answer_by w (Option.Some (commands.Client client uid gid)))) }
    ensures applies { H.tells → ForReady (H.counts h.old).size frames (H.state h.old) (λ size w memory.
        Applies size w (world_by w (Option.Some (commands.Client client uid gid))) memory (fault_of result) (H.state h.old) (H.state h.new)) }
    ensures acts { H.tells → ForReady (H.counts h.old).size frames (H.state h.old) (λ size w memory.
        ActsAs w (Option.Some (commands.Client client uid gid)) (as_line_answer result) (H.state h.old) (H.state h.new)) }
    ensures uncut { IfOk result (λ reply. reply ≢ Reply.Cut) }
    ensures rest { H.tells → KeepsRest (H.state h.old) (H.state h.new) }
    ensures rested { H.tells → fault_of result ≡ Option.Some HostFault.Cut → IsRested (H.state h.new).now.words }
    ensures cause { H.counts h.new ≡ after_fault (fault_of result) (H.counts h.old) }
{
    if is_registered(h, client)? {
        return Ok(Reply::No(Refusal::Taken));
    }
    close_and_register(h, frames, client, uid, gid)?;
    Ok(Reply::Ok)
}

/// Closes the logs of the client `slot`, and then unregisters them.
fn close_and_unregister<H: Host>(h: &mut H, frames: u32, slot: u32) -> Result<(), HostFault>
    requires known { slot < CLIENTS }
    requires few { frames ≤ MAX_FRAMES }
    requires room { device_words frames ≤ (H.counts h.old).size }
    ensures applies { H.tells → ForReady (H.counts h.old).size frames (H.state h.old) (λ size w memory. AreOfOtherClients slot memory.active
        → Applies size w (after w (commands.Leave slot)) memory (fault_of result) (H.state h.old) (H.state h.new)) }
    // The record is freed only after the logs are closed durably.
    ensures acts { H.tells → HasIdleGate DAEMON_LOG (H.state h.old).now.words
        → Then (ClosesGates frames slot) (Commits DAEMON_LOG (unregistration slot)) (fault_of result) (H.state h.old) (H.state h.new) }
    // In each image in which the client's record is free, or the daemon log gives it a value, its logs are closed, if
    // it was present.
    ensures closes_first { H.tells → ForReady (H.counts h.old).size frames (H.state h.old) (λ size w memory.
        true ≡ is_some (w.clients slot) → ClosesBefore w.stored.frames slot (H.state h.old) (H.state h.new)) }
    ensures rest { H.tells → KeepsRest (H.state h.old) (H.state h.new) }
    ensures rested { H.tells → fault_of result ≡ Option.Some HostFault.Cut → IsRested (H.state h.new).now.words }
    ensures cause { H.counts h.new ≡ after_fault (fault_of result) (H.counts h.old) }
{
    close_logs(h, frames, slot)?;
    unregister(h, slot)
}

/// Undoes the client's own transactions, closes its logs, and then unregisters them.
fn remove_client<H: Host>(memory: &mut DaemonMemory, h: &mut H, client: u8) -> Result<(), HostFault>
    requires known { client < CLIENTS }
    requires room { device_words (memory.old).frames ≤ (H.counts h.old).size }
    ensures applies { H.tells → WhenReady (H.counts h.old).size memory.old (H.state h.old) (λ size w.
        Applies size w (after w (commands.Leave client)) memory.new (fault_of result) (H.state h.old) (H.state h.new)) }
    ensures acts { H.tells → WhenReady (H.counts h.old).size memory.old (H.state h.old) (λ size w.
        Acts w (commands.Leave client) (fault_of result) (H.state h.old) (H.state h.new)) }
    // In each image in which the client's record is free, or the daemon log gives it a value, its logs are closed,
    // if it was present.
    ensures closes_first { H.tells → WhenReady (H.counts h.old).size memory.old (H.state h.old) (λ size w.
        true ≡ is_some (w.clients client) → ClosesBefore w.stored.frames client (H.state h.old) (H.state h.new)) }
    ensures frames { (memory.new).frames ≡ (memory.old).frames }
    ensures rest { H.tells → KeepsRest (H.state h.old) (H.state h.new) }
    ensures rested { H.tells → fault_of result ≡ Option.Some HostFault.Cut → IsRested (H.state h.new).now.words }
    ensures cause { H.counts h.new ≡ after_fault (fault_of result) (H.counts h.old) }
{
    undo_of(memory, h, client)?;
    close_and_unregister(h, memory.frames, u32::from(client))
}

/// Removes the client, or refuses to. Its own transactions are undone. Its logs are closed durably before they are
/// unregistered.
///
/// The reply is `Ok`, or `Client` if the client is not present. A refusal changes nothing.
// Not inlined: its buffers would lie on the stack of every line.
#[inline(never)]
pub(crate) fn leave<H: Host>(
    memory: &mut DaemonMemory,
    h: &mut H,
    client: u8,
) -> Result<Reply, HostFault>
    requires known { client < CLIENTS }
    requires room { device_words (memory.old).frames ≤ (H.counts h.old).size }
    ensures reply { H.tells → WhenReady (H.counts h.old).size memory.old (H.state h.old) (λ size w.
        IfOk result (λ reply. of_reply reply ≡ answer_by w (Option.Some (commands.Leave client)))) }
    ensures applies { H.tells → WhenReady (H.counts h.old).size memory.old (H.state h.old) (λ size w.
        Applies size w (world_by w (Option.Some (commands.Leave client))) memory.new (fault_of result) (H.state h.old) (H.state h.new)) }
    ensures acts { H.tells → WhenReady (H.counts h.old).size memory.old (H.state h.old) (λ size w.
        ActsAs w (Option.Some (commands.Leave client)) (as_line_answer result) (H.state h.old) (H.state h.new)) }
    // In each image in which the client's record is free, or the daemon log gives it a value, its logs are closed,
    // if it was present.
    ensures closes_first { H.tells → WhenReady (H.counts h.old).size memory.old (H.state h.old) (λ size w.
        true ≡ is_some (w.clients client) → ClosesBefore w.stored.frames client (H.state h.old) (H.state h.new)) }
    ensures uncut { IfOk result (λ reply. reply ≢ Reply.Cut) }
    ensures frames { (memory.new).frames ≡ (memory.old).frames }
    ensures rest { H.tells → KeepsRest (H.state h.old) (H.state h.new) }
    ensures rested { H.tells → fault_of result ≡ Option.Some HostFault.Cut → IsRested (H.state h.new).now.words }
    ensures cause { H.counts h.new ≡ after_fault (fault_of result) (H.counts h.old) }
{
    if !is_registered(h, u32::from(client))? {
        return Ok(Reply::No(Refusal::Client));
    }
    remove_client(memory, h, client)?;
    Ok(Reply::Ok)
}
