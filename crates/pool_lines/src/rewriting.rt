//! The line that rewrites the pointers of a pool.
ghost use Rattle.daemon_memory.specs.Premises.{WhenReady};
ghost use Rattle.pool_lines.specs.Promises.{ForKnown, AppliesSteps};
ghost use Rattle.daemon_memory.specs.Leading.{AppliesWith};
ghost use Rattle.daemon_memory.specs.Doing.{ActsWith};
ghost use Rattle.daemon_memory.specs.LineAnswers.{as_line_answer};
ghost use Rattle.pool_lines.specs.Effects.{RewritesPool, LeadsBySteps};
ghost use Rattle.pool_lines.specs.Rewriting.{DoesStepsInTurn, DoesSteps};
ghost use Rattle.std.specs.Prelude.{◌≡◌, ◌≢◌, ◌<◌, ◌≤◌, ℕ, List, Option, IfOk, min, set};
ghost use Rattle.pm_model.specs.Words.{IsRested, reads};
ghost use Rattle.pm_model.specs.Counts.{after_fault, fault_of};
ghost use Rattle.pm_model.specs.Changes.{Changes};
ghost use Rattle.pud_defs.specs.declared.layout.TheConstants.{DAEMON_LOG, MAX_FRAMES};
ghost use Rattle.pud_defs.specs.declared.records.TheConstants.{POOL_RECORDS};
ghost use Rattle.pud_defs.specs.declared.machine.Command.TheVariants as commands;
ghost use Rattle.pud_defs.specs.declared.records.Puddle.{Puddle};
ghost use Rattle.pud_defs.specs.Formats.Layout.{device_words};
ghost use Rattle.pud_defs.specs.PoolGraphs.Stored.{IsOnDevice};
ghost use Rattle.pud_defs.specs.StateMachine.Step.{answer_by, refusal_of, world_by};
ghost use Rattle.pud_defs.specs.StateMachine.Step.Answer.{of_reply};
ghost use Rattle.pud_defs.specs.StateMachine.World.{World};
ghost use Rattle.graph_read.specs.Bases.{HasLowBases};
ghost use Rattle.batch.specs.Batches.{HasIdleGate};
ghost use Rattle.known_pool.specs.Known.{Known, with_puddles};
ghost use Rattle.log_replay.specs.Replaying.{Anything};
ghost use Rattle.lazy_rewrite.specs.Batches.{Rewrites};
ghost use Rattle.lazy_rewrite.specs.Frontiers.{steps_from, left_among, frontiers_of};
ghost use Rattle.daemon_memory.specs.PoolKnowledge.{AreOnDevice, known_pool_in, known_puddles_in};
ghost use Rattle.daemon_memory.specs.Ready.{KeepsRest, IsReady};

use daemon_memory::{DaemonMemory, KnownPools, Need};
use known_pool::KnownPool;
use lazy_rewrite::step;
use pm_model::{Host, HostFault};
use pool_table::find;
use pud_defs::machine::{Refusal, Reply};
use pud_defs::records::Name;

/// Does the next `n` rewriting steps of the pool, or all that are left, and returns how many. Nothing else that is
/// known about the pool changes.
///
/// `frames` is the device's number of frames. The only errors are the host's own.
fn step_pool<H: Host>(
    h: &mut H,
    frames: u32,
    pool: &mut KnownPool,
    n: u32,
) -> Result<u32, HostFault>
    requires few { frames ≤ MAX_FRAMES }
    requires room { device_words frames ≤ (H.counts h.old).size }
    requires known { IsOnDevice frames pool.old.puddles }
    ensures steps { IfOk result (λ done. done ≡ min n (left_among pool.old.puddles)) }
    ensures pool { IfOk result (λ done. pool.new.puddles ≡ steps_from n pool.old.puddles) }
    ensures rest { pool.new ≡ with_puddles pool.new.puddles pool.old }
    ensures rewrites { H.tells → (size : ℕ) → size ≡ (H.counts h.old).size → HasIdleGate DAEMON_LOG (H.state h.old).now.words → HasLowBases pool.old.puddles
        → Rewrites frames (frontiers_of (steps_from n pool.old.puddles)) pool.old.puddles pool.new.puddles (fault_of result) (H.state h.old) (H.state h.new) }
    ensures known { IsOnDevice frames pool.new.puddles }
    ensures any { H.tells → Changes Anything (fault_of result) (H.state h.old) (H.state h.new) }
    ensures cause { H.counts h.new ≡ after_fault (fault_of result) (H.counts h.old) }
{
    step(h, frames, &mut pool.puddles, n)
}

/// Does the next `n` rewriting steps of the pool in the slot, or all that are left, if the pool is known to have a
/// graph, and returns how many. What is then known about the pool is true of the device.
///
/// `frames` is the device's number of frames. The only errors are the host's own.
fn step_in<H: Host>(
    h: &mut H,
    frames: u32,
    known_pools: &mut KnownPools,
    slot: u32,
    n: u32,
) -> Result<u32, HostFault>
    requires few { frames ≤ MAX_FRAMES }
    requires room { device_words frames ≤ (H.counts h.old).size }
    requires slot { slot < POOL_RECORDS }
    requires known { AreOnDevice frames known_pools.old }
    ensures applies { H.tells → ForKnown (H.counts h.old).size frames slot known_pools.old (H.state h.old) (λ size w at with_known.
        AppliesSteps slot n at size w (with_known known_pools.new) (fault_of result) (H.state h.old) (H.state h.new)) }
    ensures acts { H.tells → (size : ℕ) → size ≡ (H.counts h.old).size → HasIdleGate DAEMON_LOG (H.state h.old).now.words → (at : List (ℕ × Puddle)) → known_puddles_in known_pools.old slot ≡ Option.Some at → HasLowBases at
        → DoesStepsInTurn frames n at (fault_of result) (H.state h.old) (H.state h.new) }
    ensures steps { IfOk result (λ done. (at : List (ℕ × Puddle)) → known_puddles_in known_pools.old slot ≡ Option.Some at → done ≡ min n (left_among at)) }
    ensures moves { IfOk result (λ _. (kept : Known) → known_pool_in known_pools.old slot ≡ Option.Some kept → known_pools.new ≡ set known_pools.old slot (Option.Some (with_puddles (steps_from n kept.puddles) kept))) }
    ensures known { AreOnDevice frames known_pools.new }
    ensures rest { H.tells → KeepsRest (H.state h.old) (H.state h.new) }
    ensures rested { H.tells → fault_of result ≡ Option.Some HostFault.Cut → IsRested (H.state h.new).now.words }
    ensures cause { H.counts h.new ≡ after_fault (fault_of result) (H.counts h.old) }
{
    match &mut known_pools.pools[slot as usize] {
        Some(pool) => step_pool(h, frames, pool, n),
        None => Ok(0),
    }
}

/// Does the next `n` rewriting steps of the pool of this name, or all that are left, by ordinal and then by step.
/// Anyone may ask for it, whatever transactions are open. At every moment the graph of each pool is as it was. Up
/// to ten steps of a puddle take four fences.
///
/// The reply is `Ok`, or the first of these refusals that holds:
/// - `Pool`: no pool has the name.
/// - `Wild`: the pool has no graph.
///
/// The only errors are the host's own: `Failed` if a host call failed, `Cut` if power was lost. After either, some
/// of the steps may be done.
// Not inlined: its buffers would lie on the stack of every line.
#[inline(never)]
pub fn rewrite_for<H: Host>(
    memory: &mut DaemonMemory,
    h: &mut H,
    name: Name,
    n: u32,
) -> Result<Reply, HostFault>
    requires room { device_words (memory.old).frames ≤ (H.counts h.old).size }
    ensures reply { H.tells → (size : ℕ) → (w : World) → IsReady size w memory.old (H.state h.old)
        → IfOk result (λ reply. of_reply reply ≡ answer_by w (Option.Some (commands.Rewrite name n))) }
    ensures applies { H.tells → WhenReady (H.counts h.old).size memory.old (H.state h.old) (λ size w.
        AppliesWith (LeadsBySteps w.stored.frames name n) size w (world_by w (Option.Some (commands.Rewrite name n))) (commands.Rewrite name n) memory.new (fault_of result) (H.state h.old) (H.state h.new)) }
    ensures acts { H.tells → WhenReady (H.counts h.old).size memory.old (H.state h.old) (λ size w.
        ActsWith (RewritesPool w name n) w (commands.Rewrite name n) (as_line_answer result) (H.state h.old) (H.state h.new)) }
    ensures moves { H.tells → WhenReady (H.counts h.old).size memory.old (H.state h.old) (λ size w. refusal_of w (commands.Rewrite name n) ≡ Option.None
        → IfOk result (λ _. DoesSteps w.stored.frames name n (reads (H.state h.old).now.words) (reads (H.state h.new).now.words))) }
    ensures uncut { IfOk result (λ reply. reply ≢ Reply.Cut) }
    ensures active { (memory.new).active ≡ (memory.old).active }
    ensures sessions { (memory.new).sessions ≡ (memory.old).sessions }
    ensures frames { (memory.new).frames ≡ (memory.old).frames }
    ensures rest { H.tells → KeepsRest (H.state h.old) (H.state h.new) }
    ensures rested { H.tells → fault_of result ≡ Option.Some HostFault.Cut → IsRested (H.state h.new).now.words }
    ensures cause { H.counts h.new ≡ after_fault (fault_of result) (H.counts h.old) }
{
    let Some((slot, _)) = find(h, name)? else {
        return Ok(Reply::No(Refusal::Pool));
    };
    if memory.lacks_graph(h, slot, Need::Graph)? {
        return Ok(Reply::No(Refusal::Wild));
    }
    let frames = memory.frames;
    let _done = step_in(h, frames, &mut memory.known_pools, slot, n)?;
    Ok(Reply::Ok)
}
