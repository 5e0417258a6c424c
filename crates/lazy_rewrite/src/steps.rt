//! Does the steps of a puddle and of a pool, batch by batch.

ghost use Rattle.std.specs.Prelude.{◌≡◌, ◌<◌, ◌≤◌, ℕ, min, length, slice_get, Option, IfOk};
ghost use Rattle.pm_model.specs.Counts.{after_fault, fault_of};
ghost use Rattle.pm_model.specs.Changes.{Changes};
ghost use Rattle.log_replay.specs.Replaying.{Anything};
ghost use Rattle.pud_defs.specs.declared.records.Puddle.{Puddle};
ghost use Rattle.pud_defs.specs.Formats.Layout.{device_words};
ghost use Rattle.pud_defs.specs.PoolGraphs.Stored.{IsOnDevice};
ghost use Rattle.graph_read.specs.Bases.{HasLowBases};
ghost use Rattle.lazy_rewrite.specs.Frontiers.{steps_left, left_among, steps_from, stepped_at, finished_at, frontiers_of, frontier_at};
ghost use Rattle.lazy_rewrite.specs.Batches.{ByRewriting, Rewrites, IfIdle};
ghost use Rattle.lazy_rewrite.specs.Graphs.{KeepsGraph, KeepsEachWorld};

use crate::batches::{BATCH_STEPS, rewrite_batch};
use pm_model::{Host, HostFault};
use pud_defs::layout::MAX_FRAMES;
use pud_defs::records::Puddle;
use pud_defs::space::{MAX_STEPS, steps_of};
use puddle_table::Puddles;

/// How many steps of a puddle are left.
fn steps_left(puddle: &Puddle) -> u32
    ensures { result ≡ steps_left puddle.now }
{
    steps_of(puddle).saturating_sub(puddle.frontier)
}

/// Rewrites the next `n` steps of the ordinal's puddle, or all that are left, by batches of up to ten steps. Returns
/// how many steps it did.
#[tactic(auto, using(pud_defs::proofs::Formats::Geometry::few_slots))]
fn advance<H: Host>(
    h: &mut H,
    frames: u32,
    pool: &mut Puddles,
    ordinal: u32,
    n: u32,
) -> Result<u32, HostFault>
    requires few { frames ≤ MAX_FRAMES }
    requires room { device_words frames ≤ (H.counts h.old).size }
    requires known { IsOnDevice frames pool.old }
    requires within { ordinal < length pool.old }
    ensures steps { IfOk result (λ done. (e : ℕ × Puddle) → slice_get pool.old ordinal ≡ Option.Some e → done ≡ min n (steps_left e.1)) }
    ensures pool { IfOk result (λ done. pool.new ≡ stepped_at ordinal n pool.old) }
    ensures rewrites { H.tells → IfIdle (H.counts h.old).size (H.state h.old).now.words pool.old
        (Rewrites frames (frontier_at ordinal (stepped_at ordinal n pool.old)) pool.old pool.new (fault_of result) (H.state h.old) (H.state h.new)) }
    ensures known { IsOnDevice frames pool.new }
    ensures any { H.tells → Changes Anything (fault_of result) (H.state h.old) (H.state h.new) }
    ensures cause { H.counts h.new ≡ after_fault (fault_of result) (H.counts h.old) }
{
    let (_, puddle) = pool.as_slice()[ordinal as usize];
    let left = steps_left(&puddle);
    let steps = left.min(n);
    let start = steps_of(&puddle) - left;
    for round in 0..steps.div_ceil(BATCH_STEPS) {
        let from = start + BATCH_STEPS * round;
        let to = start + steps.min(BATCH_STEPS * (round + 1));
        rewrite_batch(h, frames, pool, ordinal, from, to)?;
    }
    Ok(steps)
}

/// Does the next `n` steps of a pool, or all that are left, puddle by puddle. Returns how many steps it did.
fn pass<H: Host>(h: &mut H, frames: u32, pool: &mut Puddles, n: u32) -> Result<u32, HostFault>
    requires few { frames ≤ MAX_FRAMES }
    requires room { device_words frames ≤ (H.counts h.old).size }
    requires known { IsOnDevice frames pool.old }
    ensures steps { IfOk result (λ done. done ≡ min n (left_among pool.old)) }
    ensures pool { IfOk result (λ done. pool.new ≡ steps_from n pool.old) }
    ensures rewrites { H.tells → IfIdle (H.counts h.old).size (H.state h.old).now.words pool.old
        (Rewrites frames (frontiers_of (steps_from n pool.old)) pool.old pool.new (fault_of result) (H.state h.old) (H.state h.new)) }
    ensures known { IsOnDevice frames pool.new }
    ensures any { H.tells → Changes Anything (fault_of result) (H.state h.old) (H.state h.new) }
    ensures cause { H.counts h.new ≡ after_fault (fault_of result) (H.counts h.old) }
{
    let mut done = 0;
    for ordinal in 0..pool.as_slice().len() as u32 {
        done += advance(h, frames, pool, ordinal, n - done)?;
    }
    Ok(done)
}

/// Does the next `n` steps of a pool, or all that are left, in the order of ordinals and then of steps. Returns how
/// many steps it did.
///
/// The device has `frames` frames and the words that they need. The pool is given by its puddles. At `Ok` the pool has
/// the frontiers after these steps. In any case it has the frontiers of the batches that are done. No batch of a puddle
/// comes before the steps of each puddle of a lower ordinal are done. Only the daemon log is written, and for the
/// puddles whose frontiers are to move, their frames and their frontiers in the table.
///
/// Suppose that the pool has a graph, its bases are low, the daemon log counts nothing, and each word of the tables and
/// of the frames in which steps are left has one value. Then each image that may be left meanwhile agrees, outside the
/// words that may be written, with an image from before. With the daemon log replayed, it has the graph of that image.
/// This also holds if one value is an address over both sets of bases. If each image also stands for a world, it stands
/// for the same world afterwards. The only errors are the host's own.
pub fn step<H: Host>(h: &mut H, frames: u32, pool: &mut Puddles, n: u32) -> Result<u32, HostFault>
    requires few { frames ≤ MAX_FRAMES }
    requires room { device_words frames ≤ (H.counts h.old).size }
    requires known { IsOnDevice frames pool.old }
    ensures steps { IfOk result (λ done. done ≡ min n (left_among pool.old)) }
    ensures pool { IfOk result (λ done. pool.new ≡ steps_from n pool.old) }
    ensures rewrites { H.tells → IfIdle (H.counts h.old).size (H.state h.old).now.words pool.old
        (Rewrites frames (frontiers_of (steps_from n pool.old)) pool.old pool.new (fault_of result) (H.state h.old) (H.state h.new)) }
    ensures writes { H.tells → IfIdle (H.counts h.old).size (H.state h.old).now.words pool.old
        (Changes (ByRewriting frames pool.old (frontiers_of (steps_from n pool.old))) (fault_of result) (H.state h.old) (H.state h.new)) }
    ensures keeps { H.tells → (size : ℕ) → size ≡ (H.counts h.old).size → HasLowBases pool.old
        → KeepsGraph frames pool.old (frontiers_of (steps_from n pool.old)) (H.state h.old) (H.state h.new) }
    // This holds with any words masked that the call does not write.
    ensures world { H.tells → (size : ℕ) → size ≡ (H.counts h.old).size → HasLowBases pool.old
        → KeepsEachWorld frames size pool.old (frontiers_of (steps_from n pool.old)) (fault_of result) (H.state h.old) (H.state h.new) }
    ensures known { IsOnDevice frames pool.new }
    ensures any { H.tells → Changes Anything (fault_of result) (H.state h.old) (H.state h.new) }
    ensures cause { H.counts h.new ≡ after_fault (fault_of result) (H.counts h.old) }
{
    pass(h, frames, pool, n)
}

/// Rewrites what is left of the ordinal's puddle, if there is one.
fn complete<H: Host>(
    h: &mut H,
    frames: u32,
    pool: &mut Puddles,
    ordinal: u32,
) -> Result<(), HostFault>
    requires few { frames ≤ MAX_FRAMES }
    requires room { device_words frames ≤ (H.counts h.old).size }
    requires known { IsOnDevice frames pool.old }
    ensures pool { IfOk result (λ _. pool.new ≡ finished_at ordinal pool.old) }
    ensures rewrites { H.tells → IfIdle (H.counts h.old).size (H.state h.old).now.words pool.old
        (Rewrites frames (frontier_at ordinal (finished_at ordinal pool.old)) pool.old pool.new (fault_of result) (H.state h.old) (H.state h.new)) }
    ensures known { IsOnDevice frames pool.new }
    ensures any { H.tells → Changes Anything (fault_of result) (H.state h.old) (H.state h.new) }
    ensures cause { H.counts h.new ≡ after_fault (fault_of result) (H.counts h.old) }
{
    if ordinal < pool.as_slice().len() as u32 {
        let _done = advance(h, frames, pool, ordinal, MAX_STEPS)?;
    }
    Ok(())
}

/// Rewrites the ordinal's puddle to its end, if there is one, by batches of up to ten steps. What `step` promises holds
/// here for this puddle alone.
pub fn finish<H: Host>(
    h: &mut H,
    frames: u32,
    pool: &mut Puddles,
    ordinal: u32,
) -> Result<(), HostFault>
    requires few { frames ≤ MAX_FRAMES }
    requires room { device_words frames ≤ (H.counts h.old).size }
    requires known { IsOnDevice frames pool.old }
    ensures pool { IfOk result (λ _. pool.new ≡ finished_at ordinal pool.old) }
    ensures rewrites { H.tells → IfIdle (H.counts h.old).size (H.state h.old).now.words pool.old
        (Rewrites frames (frontier_at ordinal (finished_at ordinal pool.old)) pool.old pool.new (fault_of result) (H.state h.old) (H.state h.new)) }
    ensures writes { H.tells → IfIdle (H.counts h.old).size (H.state h.old).now.words pool.old
        (Changes (ByRewriting frames pool.old (frontier_at ordinal (finished_at ordinal pool.old))) (fault_of result) (H.state h.old) (H.state h.new)) }
    ensures keeps { H.tells → (size : ℕ) → size ≡ (H.counts h.old).size → HasLowBases pool.old
        → KeepsGraph frames pool.old (frontier_at ordinal (finished_at ordinal pool.old)) (H.state h.old) (H.state h.new) }
    // This holds with any words masked that the call does not write.
    ensures world { H.tells → (size : ℕ) → size ≡ (H.counts h.old).size → HasLowBases pool.old
        → KeepsEachWorld frames size pool.old (frontier_at ordinal (finished_at ordinal pool.old)) (fault_of result) (H.state h.old) (H.state h.new) }
    ensures known { IsOnDevice frames pool.new }
    ensures any { H.tells → Changes Anything (fault_of result) (H.state h.old) (H.state h.new) }
    ensures cause { H.counts h.new ≡ after_fault (fault_of result) (H.counts h.old) }
{
    complete(h, frames, pool, ordinal)
}
