//! The pools that are known to have a graph, and what else the daemon knows about them.
ghost use Rattle.std.specs.Prelude.{◌≡◌, ◌≢◌, ◌<◌, ◌≤◌, ℕ, List, true, false, replicate, set, is_some, unwrap_or, [], Option, IfOk, IfSome};
ghost use Rattle.pm_model.specs.Words.{reads};
ghost use Rattle.pm_model.specs.Counts.{fault_of};
ghost use Rattle.pm_model.specs.Reads.{OnlyReads};
ghost use Rattle.pud_defs.specs.declared.layout.TheConstants.{MAX_FRAMES, MAX_FIELDS};
ghost use Rattle.pud_defs.specs.declared.records.Puddle.{Puddle};
ghost use Rattle.pud_defs.specs.declared.records.TheConstants.{POOL_RECORDS};
ghost use Rattle.pud_defs.specs.PoolGraphs.Graph.{Graph, graph_of, object_in};
ghost use Rattle.pud_defs.specs.Formats.Image.{Image};
ghost use Rattle.pud_defs.specs.Formats.Layout.{device_words};
ghost use Rattle.pud_defs.specs.PoolGraphs.Stored.{IsOnDevice, stored_in};
ghost use Rattle.pud_defs.specs.RegistryTables.Types.{types_of};
ghost use Rattle.graph_read.specs.Reading.{read_by};
ghost use Rattle.daemon_memory.specs.PoolKnowledge.{puddles_with_graph, known_puddles_in, known_after_end, AreOnDevice, AreKnownPools};
ghost use Rattle.known_pool.specs.Known.{by_puddles};

use graph_read::{FieldRead, pool_is_sound};
use known_pool::KnownPool;
use pm_model::{Host, HostFault};
use pud_defs::records::{POOL_RECORDS, Puddle};
use puddle_table::{Puddles, find_puddles};
use std::alloc::Global;
use std::array;
use std::marker::Model;

/// What the daemon knows about the pools that were found to have a graph, by the slots of the pools' records.
#[derive(Drop)]
pub struct KnownPools {
    pub pools: [Option<KnownPool>; POOL_RECORDS as usize],
}

impl Model for KnownPools {
    ghost use Rattle.std.specs.Prelude.{List, Option};
    ghost use Rattle.known_pool.specs.Known.{Known};

    ghost Value = { List (Option Known) };

    ghost view = { λ j. j.pools };
}

/// The puddles of the pool in this slot if they have a graph, otherwise `None`. `frames` is the device's number of
/// frames.
fn find_graph<H: Host>(h: &mut H, frames: u32, slot: u32) -> Result<Option<Puddles>, HostFault>
    requires known { slot < POOL_RECORDS }
    requires few { frames ≤ MAX_FRAMES }
    requires room { device_words frames ≤ (H.counts h.old).size }
    ensures found { H.tells → (image : Image) → reads (H.state h.old).now.words ≡ image
        → IfOk result (λ found. found ≡ puddles_with_graph frames image slot) }
    ensures known { IfOk result (λ found. IfSome found (IsOnDevice frames)) }
    ensures only_reads { OnlyReads H.tells H.state H.counts (fault_of result) h.old h.new }
{
    let puddles = find_puddles(h, frames, slot)?;
    if !pool_is_sound(h, frames, puddles.as_slice())? {
        return Ok(None);
    }
    Ok(Some(puddles))
}

impl KnownPools {
    /// Knows no pool yet.
    pub fn none() -> KnownPools
        ensures { result ≡ replicate POOL_RECORDS Option.None }
    {
        KnownPools {
            pools: array::from_fn(|_| None),
        }
    }

    /// Whether the pool in this slot is known to have a graph.
    pub fn knows(&self, slot: u32) -> bool
        requires { slot < POOL_RECORDS }
        ensures { result ≡ is_some (known_puddles_in self.now slot) }
    {
        self.pools[slot as usize].is_some()
    }

    /// The puddles of the pool in this slot by their ordinals, each with its frame, if the pool is known to have a
    /// graph. Otherwise none.
    pub fn puddles(&self, slot: u32) -> &[(u32, Puddle)]
        requires { slot < POOL_RECORDS }
        ensures puddles { result.now ≡ unwrap_or (known_puddles_in self.now slot) [] }
        ensures within { (F : ℕ) → AreOnDevice F self.now → IsOnDevice F result.now }
    {
        match &self.pools[slot as usize] {
            Some(pool) => pool.as_slice(),
            None => &[],
        }
    }

    /// Builds an index of the pool in this slot, if the pool is known and no index of it is kept, or with `counts` none
    /// that counts references. After a call that tried, the next 256 calls that find no such index do not try again. If
    /// an allocation fails, what is known does not change. `frames` is the device's number of frames.
    ///
    /// The only errors are the host's own, and then what is known does not change.
    pub fn build<H: Host>(
        &mut self,
        alloc: Global,
        h: &mut H,
        frames: u32,
        slot: u32,
        counts: bool,
    ) -> Result<(), HostFault>
        requires slot { slot < POOL_RECORDS }
        requires few { frames ≤ MAX_FRAMES }
        requires room { device_words frames ≤ (H.counts h.old).size }
        requires known { AreOnDevice frames self.old }
        ensures known_pools { H.tells → (image : Image) → reads (H.state h.old).now.words ≡ image → AreKnownPools frames self.old image → AreKnownPools frames self.new image }
        ensures puddles { (i : ℕ) → known_puddles_in self.new i ≡ known_puddles_in self.old i }
        ensures known { AreOnDevice frames self.new }
        ensures only_reads { OnlyReads H.tells H.state H.counts (fault_of result) h.old h.new }
    {
        match &mut self.pools[slot as usize] {
            Some(pool) => pool.build(alloc, h, frames, counts),
            None => Ok(()),
        }
    }

    /// Reads field `f`, 0 to 29, of the object of serial `s` in the known pool in this slot. If an index of the pool is
    /// kept, the object is not searched for. `frames` is the device's number of frames.
    ///
    /// The only errors are the host's own.
    pub fn read_field<H: Host>(
        &self,
        h: &mut H,
        frames: u32,
        slot: u32,
        s: u64,
        f: u32,
    ) -> Result<FieldRead, HostFault>
        requires slot { slot < POOL_RECORDS }
        requires few { frames ≤ MAX_FRAMES }
        requires room { device_words frames ≤ (H.counts h.old).size }
        requires known { AreOnDevice frames self.now }
        requires field { f < MAX_FIELDS }
        ensures object { H.tells → (image : Image) → reads (H.state h.old).now.words ≡ image → AreKnownPools frames self.now image → (at : List (ℕ × Puddle)) → known_puddles_in self.now slot ≡ Option.Some at
            → (g : Graph) → graph_of (types_of image) (stored_in frames at image) ≡ Option.Some g → IfOk result (λ read. read ≡ read_by (object_in s g) f) }
        ensures only_reads { OnlyReads H.tells H.state H.counts (fault_of result) h.old h.new }
    {
        match &self.pools[slot as usize] {
            Some(pool) => pool.read_field(h, frames, s, f),
            None => Ok(FieldRead::NoObject),
        }
    }

    /// Keeps the puddles of the pool in this slot, and nothing else about it.
    pub fn put(&mut self, slot: u32, puddles: Puddles)
        requires { slot < POOL_RECORDS }
        ensures put { self.new ≡ set self.old slot (Option.Some (by_puddles puddles)) }
        ensures known { known_puddles_in self.new slot ≡ Option.Some puddles }
    {
        self.pools[slot as usize] = Some(KnownPool::new(puddles));
    }

    /// Forgets what is known about the pool in this slot.
    pub fn forget(&mut self, slot: u32)
        requires { slot < POOL_RECORDS }
        ensures { self.new ≡ set self.old slot Option.None }
    {
        self.pools[slot as usize] = None;
    }

    /// A transaction on the pool in this slot has ended: it was `undone`, or it was committed, with `deferred` values or
    /// without. What is known about the pool follows this. Nothing changes if the pool is not known.
    pub fn ended(&mut self, slot: u32, undone: bool, deferred: bool)
        requires { slot < POOL_RECORDS }
        ensures ended { self.new ≡ known_after_end undone deferred slot self.old }
        ensures known { (F : ℕ) → AreOnDevice F self.old → AreOnDevice F self.new }
    {
        match &mut self.pools[slot as usize] {
            Some(pool) => pool.ended(undone, deferred),
            None => {}
        }
    }

    /// Whether the pool in this slot has a graph. The pool is judged, unless it is known to have one. If it has one, it
    /// is known afterwards. `frames` is the device's number of frames.
    pub fn judge<H: Host>(&mut self, h: &mut H, frames: u32, slot: u32) -> Result<bool, HostFault>
        requires known { slot < POOL_RECORDS }
        requires few { frames ≤ MAX_FRAMES }
        requires room { device_words frames ≤ (H.counts h.old).size }
        ensures sound { H.tells → (image : Image) → reads (H.state h.old).now.words ≡ image → AreKnownPools frames self.old image
            → IfOk result (λ sound. sound ≡ is_some (puddles_with_graph frames image slot)) }
        ensures puddles { IfOk result (λ sound. sound ≡ is_some (known_puddles_in self.new slot)) }
        ensures known_pools { H.tells → (image : Image) → reads (H.state h.old).now.words ≡ image → AreKnownPools frames self.old image → AreKnownPools frames self.new image }
        ensures kept { (i : ℕ) → (at : List (ℕ × Puddle)) → known_puddles_in self.old i ≡ Option.Some at → known_puddles_in self.new i ≡ Option.Some at }
        ensures others { (i : ℕ) → i ≢ slot → known_puddles_in self.new i ≡ known_puddles_in self.old i }
        ensures known { AreOnDevice frames self.old → AreOnDevice frames self.new }
        ensures only_reads { OnlyReads H.tells H.state H.counts (fault_of result) h.old h.new }
    {
        if self.knows(slot) {
            return Ok(true);
        }
        match find_graph(h, frames, slot)? {
            Some(puddles) => {
                self.put(slot, puddles);
                Ok(true)
            }
            None => Ok(false),
        }
    }
}
