//! What the daemon keeps in memory between two lines.
ghost use Rattle.std.specs.Prelude.{◌≡◌, ◌<◌, ◌≤◌, [], unwrap_or};
ghost use Rattle.pud_defs.specs.declared.layout.TheConstants.{MIN_FRAMES, MAX_FRAMES};
ghost use Rattle.pud_defs.specs.declared.records.TheConstants.{POOL_RECORDS};
ghost use Rattle.pud_defs.specs.PoolGraphs.Stored.{IsOnDevice};
ghost use Rattle.daemon_memory.specs.Memory.{first_memory};
ghost use Rattle.daemon_memory.specs.PoolKnowledge.{known_puddles_in};

use crate::known_pools::KnownPools;
use crate::transactions::{PoolTransactions, lose_all, no_transactions};
use nesting::Sessions;
use pud_defs::records::{POOL_RECORDS, Puddle};
use std::marker::Model;

/// What the daemon keeps in memory between two lines. It is spent by `lose` alone.
pub struct DaemonMemory {
    /// How many frames the device has, 4 to 1,024.
    pub frames: u32,
    /// The open transactions, by the numbers of their logs.
    pub opened: PoolTransactions,
    /// Who owns each open transaction, which log it has, and how often it was begun, by the slot of its pool's record.
    pub sessions: Sessions,
    /// The pools that are known to have a graph, and their puddles. Each pool on which a transaction is open is among
    /// them.
    pub known_pools: KnownPools,
    /// Slots in which pools were found, by hashes of their names. A search begins there.
    pub(crate) hints: [u8; POOL_RECORDS as usize],
}

impl Model for DaemonMemory {
    ghost use Rattle.std.specs.Prelude.{◌≤◌};
    ghost use Rattle.pud_defs.specs.declared.layout.TheConstants.{MIN_FRAMES, MAX_FRAMES};
    ghost use Rattle.daemon_memory.specs.Memory.{Memory};
    ghost use Rattle.daemon_memory.specs.ActiveTransactions.{AreActiveWithin};
    ghost use Rattle.daemon_memory.specs.PoolKnowledge.{AreOnDevice};

    ghost Value = { Memory };

    ghost view = { λ d. record { frames = d.frames; active = d.opened; sessions = d.sessions; known_pools = d.known_pools } };

    ghost invariant = { λ d. (MIN_FRAMES ≤ d.frames) × (d.frames ≤ MAX_FRAMES) × AreActiveWithin d.frames d.opened × AreOnDevice d.frames d.known_pools };
}

impl DaemonMemory {
    /// The daemon after a start on a device with this many frames: no transaction is open, and no pool is known.
    pub fn with_frames(frames: u32) -> DaemonMemory
        requires some { MIN_FRAMES ≤ frames }
        requires no_more { frames ≤ MAX_FRAMES }
        ensures { result ≡ first_memory frames }
    {
        DaemonMemory {
            frames,
            opened: no_transactions(),
            sessions: Sessions::new(),
            known_pools: KnownPools::none(),
            hints: [0; POOL_RECORDS as usize],
        }
    }

    /// The puddles of the pool in this slot, each with its frame, if the pool is known to have a graph. Otherwise none.
    pub fn puddles_of(&self, slot: u32) -> &[(u32, Puddle)]
        requires { slot < POOL_RECORDS }
        ensures known { result.now ≡ unwrap_or (known_puddles_in (self.now).known_pools slot) [] }
        ensures within { IsOnDevice (self.now).frames result.now }
    {
        self.known_pools.puddles(slot)
    }

    /// Gives up what is kept, and with it each open transaction: power was lost, or the daemon ends. No device is
    /// touched; the next start undoes what is open.
    pub fn lose(self) {
        let DaemonMemory {
            frames: _frames,
            opened,
            sessions: _sessions,
            known_pools: _judged,
            hints: _hints,
        } = self;
        lose_all(opened);
    }
}
