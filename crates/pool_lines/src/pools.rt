//! The lines that make, change and drop pools.
ghost use Rattle.daemon_memory.specs.Premises.{WhenReady, ForReady};
ghost use Rattle.daemon_memory.specs.Leading.{AppliesWith, FreesPool};
ghost use Rattle.daemon_memory.specs.Doing.{ActsWith};
ghost use Rattle.daemon_memory.specs.LineAnswers.{as_line_answer};
ghost use Rattle.pool_lines.specs.Effects.{MakesPool, ChangesMode, DropsPool};
ghost use Rattle.std.specs.Prelude.{◌≡◌, ◌≢◌, ◌<◌, ◌≤◌, ℕ, Option, IfOk};
ghost use Rattle.pm_model.specs.Words.{IsRested, reads};
ghost use Rattle.pm_model.specs.Counts.{after_fault, fault_of};
ghost use Rattle.pm_model.specs.Reads.{OnlyReads};
ghost use Rattle.pud_defs.specs.declared.layout.TheConstants.{CLIENTS, MAX_FRAMES};
ghost use Rattle.pud_defs.specs.declared.records.TheConstants.{POOL_RECORDS};
ghost use Rattle.pud_defs.specs.declared.machine.Command.TheVariants as commands;
ghost use Rattle.pud_defs.specs.Formats.Layout.{device_words};
ghost use Rattle.pud_defs.specs.StateMachine.World.{World};
ghost use Rattle.pud_defs.specs.StateMachine.Grammar.{IsLegalCommand};
ghost use Rattle.pud_defs.specs.StateMachine.Step.{refusal_of, answer_by, world_by};
ghost use Rattle.pud_defs.specs.StateMachine.Step.Answer.{of_reply};
ghost use Rattle.daemon_memory.specs.Owning.{reply_of_making, refusal_found, IsRecordSlot};
ghost use Rattle.daemon_memory.specs.PoolKnowledge.{ForgetsPool};
ghost use Rattle.daemon_memory.specs.Ready.{KeepsRest, IsReady, Applies};

use daemon_memory::{DaemonMemory, Need};
use log_space::owner;
use pm_model::{Host, HostFault};
use pud_defs::machine::{Refusal, Reply};
use pud_defs::records::Name;
use registry::{MakeFault, change_mode, drop_pool, make_pool};

/// The reply to a line that was to make a pool, by what became of it.
fn reply_of_making(done: Result<(), MakeFault>) -> Result<Reply, HostFault>
    ensures { result ≡ reply_of_making done }
{
    match done {
        Ok(()) => Ok(Reply::Ok),
        Err(MakeFault::Exists) => Ok(Reply::No(Refusal::Exists)),
        Err(MakeFault::Full) => Ok(Reply::No(Refusal::Full)),
        Err(MakeFault::NoSpace) => Ok(Reply::No(Refusal::Space)),
        Err(MakeFault::Host(fault)) => Err(fault),
    }
}

/// Makes the pool of this name with this mode for the client, or refuses to. A refusal changes nothing. `frames` is the
/// device's number of frames.
///
/// The reply is `Ok`, or the first of these refusals that holds:
/// - `Client`: the client is not present.
/// - `Exists`: a pool has the name.
/// - `Full`: all records are used, or fewer than two UUID numbers are left.
/// - `Space`: no frame is free.
// Not inlined: its buffers would lie on the stack of every line.
#[inline(never)]
pub fn create_pool<H: Host>(
    h: &mut H,
    frames: u32,
    client: u32,
    name: Name,
    mode: u32,
) -> Result<Reply, HostFault>
    requires known { client < CLIENTS }
    requires few { frames ≤ MAX_FRAMES }
    requires room { device_words frames ≤ (H.counts h.old).size }
    ensures reply { H.tells → ForReady (H.counts h.old).size frames (H.state h.old) (λ size w memory.
        IfOk result (λ reply. of_reply reply ≡ answer_by w (Option.Some (commands.Pool client name mode)))) }
    ensures applies { H.tells → ForReady (H.counts h.old).size frames (H.state h.old) (λ size w memory.
        IsLegalCommand (commands.Pool client name mode)
        → Applies size w (world_by w (Option.Some (commands.Pool client name mode))) memory (fault_of result) (H.state h.old) (H.state h.new)) }
    ensures acts { H.tells → ForReady (H.counts h.old).size frames (H.state h.old) (λ size w memory.
        ActsWith (MakesPool w client name mode) w (commands.Pool client name mode) (as_line_answer result) (H.state h.old) (H.state h.new)) }
    ensures uncut { IfOk result (λ reply. reply ≢ Reply.Cut) }
    ensures rest { H.tells → KeepsRest (H.state h.old) (H.state h.new) }
    ensures rested { H.tells → fault_of result ≡ Option.Some HostFault.Cut → IsRested (H.state h.new).now.words }
    ensures cause { H.counts h.new ≡ after_fault (fault_of result) (H.counts h.old) }
{
    let Some(who) = owner(h, client)? else {
        return Ok(Reply::No(Refusal::Client));
    };
    reply_of_making(make_pool(h, frames, name, who.uid, who.gid, mode))
}

/// The slot of the pool of this name, if the client owns the pool and no transaction is open on it. Otherwise why
/// the client may not change it: `Client`, `Pool`, `Denied` or `Busy` as `find_pool` states, or `OpenHere`, the
/// client's own transaction is open on it.
fn find_owned<H: Host>(
    memory: &mut DaemonMemory,
    h: &mut H,
    client: u8,
    name: Name,
) -> Result<Result<u32, Refusal>, HostFault>
    requires known { client < CLIENTS }
    requires room { device_words (memory.old).frames ≤ (H.counts h.old).size }
    ensures refusal { H.tells → (size : ℕ) → (w : World) → IsReady size w memory.old (H.state h.old)
        → IfOk result (λ found. refusal_found found ≡ refusal_of w (commands.Drop client name)) }
    ensures slot { H.tells → (size : ℕ) → (w : World) → IsReady size w memory.old (H.state h.old)
        → IfOk result (λ found. IfOk found (IsRecordSlot w.stored.frames name (reads (H.state h.old).now.words))) }
    ensures within { IfOk result (λ found. IfOk found (λ slot. slot < POOL_RECORDS)) }
    ensures ready { H.tells → (size : ℕ) → (w : World) → IsReady size w memory.old (H.state h.old) → IsReady size w memory.new (H.state h.old) }
    ensures known_pools { (memory.new).known_pools ≡ (memory.old).known_pools }
    ensures frames { (memory.new).frames ≡ (memory.old).frames }
    ensures active { (memory.new).active ≡ (memory.old).active }
    ensures sessions { (memory.new).sessions ≡ (memory.old).sessions }
    ensures only_reads { OnlyReads H.tells H.state H.counts (fault_of result) h.old h.new }
{
    let found = match memory.find_pool(h, client, name, Need::Owner)? {
        Err(refusal) => return Ok(Err(refusal)),
        Ok(found) => found,
    };
    if found.own.is_some() {
        return Ok(Err(Refusal::OpenHere));
    }
    Ok(Ok(found.slot))
}

/// Gives the client's pool of this name this mode, or refuses to, as `find_owned` states. A refusal changes
/// nothing.
// Not inlined: its buffers would lie on the stack of every line.
#[inline(never)]
pub fn set_mode_for<H: Host>(
    memory: &mut DaemonMemory,
    h: &mut H,
    client: u8,
    name: Name,
    mode: u32,
) -> Result<Reply, HostFault>
    requires known { client < CLIENTS }
    requires room { device_words (memory.old).frames ≤ (H.counts h.old).size }
    ensures reply { H.tells → (size : ℕ) → (w : World) → IsReady size w memory.old (H.state h.old)
        → IfOk result (λ reply. of_reply reply ≡ answer_by w (Option.Some (commands.Chmod client name mode))) }
    ensures applies { H.tells → WhenReady (H.counts h.old).size memory.old (H.state h.old) (λ size w. IsLegalCommand (commands.Chmod client name mode)
        → Applies size w (world_by w (Option.Some (commands.Chmod client name mode))) memory.new (fault_of result) (H.state h.old) (H.state h.new)) }
    ensures acts { H.tells → WhenReady (H.counts h.old).size memory.old (H.state h.old) (λ size w.
        ActsWith (ChangesMode w name mode) w (commands.Chmod client name mode) (as_line_answer result) (H.state h.old) (H.state h.new)) }
    ensures uncut { IfOk result (λ reply. reply ≢ Reply.Cut) }
    ensures frames { (memory.new).frames ≡ (memory.old).frames }
    ensures rest { H.tells → KeepsRest (H.state h.old) (H.state h.new) }
    ensures rested { H.tells → fault_of result ≡ Option.Some HostFault.Cut → IsRested (H.state h.new).now.words }
    ensures cause { H.counts h.new ≡ after_fault (fault_of result) (H.counts h.old) }
{
    let slot = match find_owned(memory, h, client, name)? {
        Err(refusal) => return Ok(Reply::No(refusal)),
        Ok(slot) => slot,
    };
    change_mode(h, slot, mode)?;
    Ok(Reply::Ok)
}

/// Drops the client's pool of this name with its puddles, or refuses to, as `find_owned` states. A refusal changes
/// nothing. After a drop nothing is known about the pool any more.
// Not inlined: its buffers would lie on the stack of every line.
#[inline(never)]
pub fn drop_for<H: Host>(
    memory: &mut DaemonMemory,
    h: &mut H,
    client: u8,
    name: Name,
) -> Result<Reply, HostFault>
    requires known { client < CLIENTS }
    requires room { device_words (memory.old).frames ≤ (H.counts h.old).size }
    ensures reply { H.tells → (size : ℕ) → (w : World) → IsReady size w memory.old (H.state h.old)
        → IfOk result (λ reply. of_reply reply ≡ answer_by w (Option.Some (commands.Drop client name))) }
    ensures applies { H.tells → WhenReady (H.counts h.old).size memory.old (H.state h.old) (λ size w.
        AppliesWith (FreesPool w.stored.frames name) size w (world_by w (Option.Some (commands.Drop client name))) (commands.Drop client name) memory.new (fault_of result) (H.state h.old) (H.state h.new)) }
    ensures acts { H.tells → WhenReady (H.counts h.old).size memory.old (H.state h.old) (λ size w.
        ActsWith (DropsPool w name) w (commands.Drop client name) (as_line_answer result) (H.state h.old) (H.state h.new)) }
    ensures keeps { H.tells → (size : ℕ) → (w : World) → IsReady size w memory.old (H.state h.old) → refusal_of w (commands.Drop client name) ≢ Option.None → (memory.new).known_pools ≡ (memory.old).known_pools }
    ensures forgets { H.tells → (size : ℕ) → (w : World) → IsReady size w memory.old (H.state h.old) → refusal_of w (commands.Drop client name) ≡ Option.None
        → IfOk result (λ reply. ForgetsPool w.stored.frames name (reads (H.state h.old).now.words) (memory.old).known_pools (memory.new).known_pools) }
    ensures uncut { IfOk result (λ reply. reply ≢ Reply.Cut) }
    ensures active { (memory.new).active ≡ (memory.old).active }
    ensures sessions { (memory.new).sessions ≡ (memory.old).sessions }
    ensures frames { (memory.new).frames ≡ (memory.old).frames }
    ensures rest { H.tells → KeepsRest (H.state h.old) (H.state h.new) }
    ensures rested { H.tells → fault_of result ≡ Option.Some HostFault.Cut → IsRested (H.state h.new).now.words }
    ensures cause { H.counts h.new ≡ after_fault (fault_of result) (H.counts h.old) }
{
    let slot = match find_owned(memory, h, client, name)? {
        Err(refusal) => return Ok(Reply::No(refusal)),
        Ok(slot) => slot,
    };
    memory.known_pools.forget(slot);
    drop_pool(h, memory.frames, slot)?;
    Ok(Reply::Ok)
}
