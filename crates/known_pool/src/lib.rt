//! What the daemon keeps in memory about a pool that was found to have a graph. That is the pool's puddles, an index if
//! there is memory for one, and for each class the place from which a free slot is looked for.
//!
//! Queries of the pool are answered by the index if one is kept, and otherwise by a scan. The answers are the same: an
//! allocation that fails for an index changes none of them. Each call that reads takes the number of the device's
//! frames, at most 1,024. The device must have the words that this many frames need. The call answers whatever the
//! device stores.
#![tactic(auto)]

mod changes;
pub mod laws;
mod queries;
mod searches;

ghost use Rattle.std.specs.Prelude.{◌≡◌, ◌≤◌, length, Option};
ghost use Rattle.pud_defs.specs.declared.records.TheConstants.{MAX_PUDDLES};
ghost use Rattle.known_pool.specs.Searches.{full_of};
ghost use Rattle.known_pool.specs.Known.{by_puddles};

use graph_read::Index;
use pud_defs::records::Puddle;
use puddle_table::Puddles;
pub use searches::FullBelow;
use std::marker::Model;

/// How many calls of `build` leave a pool to scans after an index was built, if the index has gone since then or no
/// longer counts references. Then one is built again. A build costs some dozens of scans, which is little over this
/// many lines that want one.
const SCANS_BETWEEN: u32 = 256;

/// What the daemon keeps about a pool.
#[derive(Drop)]
pub struct KnownPool {
    /// The pool's puddles by their ordinals, each with its frame.
    pub puddles: Puddles,
    /// The pool's index, if one is kept.
    index: Option<Index>,
    /// Whether the index counts references. If not, it only tells where the objects stand.
    counted: bool,
    /// For each class, a place before which each slot of the class is live.
    full_below: FullBelow,
    /// How many more calls of `build` leave the pool to scans if they do not find what they ask for. It counts down from
    /// the last call that built an index or tried to.
    wait: u32,
}

impl Model for KnownPool {
    ghost use Rattle.std.specs.Prelude.{option_map};
    ghost use Rattle.known_pool.specs.Known.{Known, index_entries, counted_entries};

    ghost Value = { Known };

    ghost view = { λ k. record { puddles = k.puddles; index = counted_entries k.counted k.index; placed = option_map index_entries k.index; full_below = k.full_below } };
}

impl KnownPool {
    /// The pool with these puddles, about which nothing else is known.
    pub fn new(puddles: Puddles) -> KnownPool
        ensures { result ≡ by_puddles puddles }
    {
        KnownPool {
            puddles,
            index: None,
            counted: false,
            full_below: FullBelow::none(),
            wait: 0,
        }
    }

    /// The pool's puddles by their ordinals, each with its frame.
    pub fn as_slice(&self) -> &[(u32, Puddle)]
        ensures puddles { result.now ≡ self.now.puddles }
        ensures few { length result.now ≤ MAX_PUDDLES }
    {
        self.puddles.as_slice()
    }

    /// The place from which a free slot of a class is looked for. Each slot of the class before it is live, if what is
    /// kept is true of the device.
    pub fn full_below(&self, class: u32) -> u32
        ensures { result ≡ full_of class self.now.full_below }
    {
        self.full_below.of(class)
    }

    /// Forgets all but the puddles.
    pub fn forget(&mut self)
        ensures { self.new ≡ by_puddles self.old.puddles }
    {
        self.index = None;
        self.counted = false;
        self.full_below = FullBelow::none();
    }
}
