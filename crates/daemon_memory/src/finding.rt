//! Finds the pool that a line names, or why the line is refused before the rest of what it asks is looked at. Nothing
//! is written.
ghost use Rattle.std.specs.Prelude.{◌≡◌, ◌<◌, ◌≤◌, ℕ, List, true, false, is_some, IfOk, IfSome};
ghost use Rattle.pm_model.specs.Words.{reads};
ghost use Rattle.pm_model.specs.Counts.{fault_of};
ghost use Rattle.pm_model.specs.Reads.{OnlyReads};
ghost use Rattle.pud_defs.specs.declared.layout.TheConstants.{CLIENTS};
ghost use Rattle.pud_defs.specs.declared.records.PoolRecord.{PoolRecord};
ghost use Rattle.pud_defs.specs.declared.records.TheConstants.{POOL_RECORDS};
ghost use Rattle.pud_defs.specs.declared.machine.Command.TheVariants as commands;
ghost use Rattle.pud_defs.specs.Formats.Layout.{device_words};
ghost use Rattle.pud_defs.specs.Formats.Image.{Image};
ghost use Rattle.pud_defs.specs.RegistryTables.Tables.{tables_of, pool_in};
ghost use Rattle.pool_table.specs.LookUp.{IsFoundInTable};
ghost use Rattle.pud_defs.specs.StateMachine.PoolChanges.{pool_named};
ghost use Rattle.pud_defs.specs.Logging.Settled.{ALL_LOGS};
ghost use Rattle.pud_defs.specs.RegistryTables.Spaces.{owner as owner_and};
ghost use Rattle.pud_defs.specs.StateMachine.Step.{refusal_of};
ghost use Rattle.pud_defs.specs.StateMachine.World.{World};
ghost use Rattle.nesting.specs.Sessions.{session_in, AreSessions};
ghost use Rattle.daemon_memory.specs.OwnOnPool.{IsOwnTransactionOn};
ghost use Rattle.daemon_memory.specs.PoolKnowledge.{known_puddles_in, AreKnownPools};
ghost use Rattle.daemon_memory.specs.Owning.{refusal_found};
ghost use Rattle.daemon_memory.specs.Ready.{IsReady};
ghost use Rattle.daemon_memory.specs.Finding.{needs_graph, lacks_graph, right_by, refusal_to, found_unless_busy, session_found, IsRecordOf, IsFound, FindsOwn, refusal_to_enter};

use crate::memory::DaemonMemory;
use log_space::owner;
use nesting::{EnterFault, Session};
use owner_modes::{may_read, may_write};
use pm_model::{Host, HostFault};
use pool_table::{find, find_in};
use pud_defs::machine::Refusal;
use pud_defs::records::{Name, Owner, POOL_RECORDS, PoolRecord};

/// An odd number near 2^64 divided by the golden ratio: the highest bits of a product with it depend on all bits.
const HASH_FACTOR: u64 = 0x9e37_79b9_7f4a_7c15;

/// What a line needs of the pool that it names.
#[derive(Clone, Copy)]
pub enum Need {
    /// The client must own the pool. The pool may have no graph.
    Owner,
    /// The pool must have a graph, and its mode must let the client read it.
    Read,
    /// The pool must have a graph, and its mode must let the client write it.
    Write,
    /// The pool must have a graph.
    Graph,
}

/// A pool that was found.
#[derive(Clone, Copy)]
pub struct FoundPool {
    /// The slot of its record, 0 to 31.
    pub slot: u32,
    /// Its UUID number.
    pub number: u64,
    /// The number of the log, 0 to 31, of the client's own transaction if that is open on the pool. `None`: no
    /// transaction is open on it.
    pub own: Option<u32>,
}

/// The client's own transaction on a pool.
#[derive(Clone, Copy)]
pub struct OwnTransaction {
    /// The slot of the pool's record, 0 to 31.
    pub slot: u32,
    /// The number of the transaction's log, 0 to 31, among the logs of all clients.
    pub log_number: u32,
}

/// Whether the line needs a graph.
fn needs_graph(need: Need) -> bool
    ensures { result ≡ needs_graph need }
{
    match need {
        Need::Owner => false,
        Need::Read | Need::Write | Need::Graph => true,
    }
}

/// Whether someone who acts as this owner has the needed right, by the pool's record.
fn has_right(need: Need, rec: &PoolRecord, who: Owner) -> bool
    ensures { result ≡ right_by need rec.now (owner_and who.uid who.gid) }
{
    match need {
        Need::Owner => who.uid == rec.uid,
        Need::Read => may_read(rec.mode, rec.uid, rec.gid, who.uid, who.gid),
        Need::Write => may_write(rec.mode, rec.uid, rec.gid, who.uid, who.gid),
        Need::Graph => true,
    }
}

/// The pool that was found, or `Busy` if this session on it is another client's.
fn found_unless_busy(
    session: Option<Session>,
    client: u8,
    slot: u32,
    number: u64,
) -> Result<FoundPool, Refusal>
    ensures { result ≡ found_unless_busy session client slot number }
{
    match session {
        None => Ok(FoundPool {
            slot,
            number,
            own: None,
        }),
        Some(session) => {
            if session.client == client {
                Ok(FoundPool {
                    slot,
                    number,
                    own: Some(session.log_number),
                })
            } else {
                Err(Refusal::Busy)
            }
        }
    }
}

/// The place of a name among the hints: five bits of a product of its first eight bytes.
fn hint_place(name: &Name) -> usize
    ensures { result < POOL_RECORDS }
{
    let first = u64::from_le_bytes([
        name[0], name[1], name[2], name[3], name[4], name[5], name[6], name[7],
    ]);
    (first.wrapping_mul(HASH_FACTOR) >> 59) as usize % POOL_RECORDS as usize
}

/// The refusal to a line whose transaction's session does not begin, or does not become one deeper.
pub fn refusal_to_enter(fault: EnterFault) -> Refusal
    ensures { result ≡ refusal_to_enter fault }
{
    match fault {
        EnterFault::Deep => Refusal::Deep,
        EnterFault::Logs => Refusal::Logs,
    }
}

impl DaemonMemory {
    /// Whether a graph is needed and the pool in this slot has none. If one is needed, the pool is judged, unless it is
    /// known to have one.
    ///
    /// The only errors are the host's own, and nothing on the device changes.
    pub fn lacks_graph<H: Host>(
        &mut self,
        h: &mut H,
        slot: u32,
        need: Need,
    ) -> Result<bool, HostFault>
        requires slot { slot < POOL_RECORDS }
        requires room { device_words (self.old).frames ≤ (H.counts h.old).size }
        ensures lacks { H.tells → (size : ℕ) → (w : World) → IsReady size w self.old (H.state h.old) → (name : List ℕ) (rec : PoolRecord) → IsRecordOf w.stored.frames name (reads (H.state h.old).now.words) slot rec
            → IfOk result (λ lacks. lacks ≡ lacks_graph need (pool_named name w.stored)) }
        ensures known { IfOk result (λ lacks. lacks ≡ false → needs_graph need ≡ true → true ≡ is_some (known_puddles_in (self.new).known_pools slot)) }
        ensures ready { H.tells → (size : ℕ) → (w : World) → IsReady size w self.old (H.state h.old) → IsReady size w self.new (H.state h.old) }
        ensures known_pools { H.tells → (image : Image) → reads (H.state h.old).now.words ≡ image → AreKnownPools (self.old).frames (self.old).known_pools image → AreKnownPools (self.old).frames (self.new).known_pools image }
        ensures unjudged { needs_graph need ≡ false → (self.new).known_pools ≡ (self.old).known_pools }
        ensures frames { (self.new).frames ≡ (self.old).frames }
        ensures active { (self.new).active ≡ (self.old).active }
        ensures sessions { (self.new).sessions ≡ (self.old).sessions }
        ensures only_reads { OnlyReads H.tells H.state H.counts (fault_of result) h.old h.new }
    {
        if !needs_graph(need) {
            return Ok(false);
        }
        let sound = self.known_pools.judge(h, self.frames, slot)?;
        Ok(!sound)
    }

    /// The slot and the record of the pool of this name, or `None` if no pool has it. The slot is read first in which a
    /// pool of such a name was found last. So if that was this pool, no other record is read.
    ///
    /// The only errors are the host's own, and nothing on the device changes.
    fn find_named<H: Host>(
        &mut self,
        h: &mut H,
        name: Name,
    ) -> Result<Option<(u32, PoolRecord)>, HostFault>
        requires room { device_words (self.old).frames ≤ (H.counts h.old).size }
        ensures found { H.tells → (size : ℕ) → (w : World) → IsReady size w self.old (H.state h.old) → (image : Image) → reads (H.state h.old).now.words ≡ image
            → IfOk result (λ found. found ≡ pool_in (tables_of w.stored.frames image) name) }
        ensures within { IfOk result IsFoundInTable }
        ensures memory { self.new ≡ self.old }
        ensures only_reads { OnlyReads H.tells H.state H.counts (fault_of result) h.old h.new }
    {
        let place = hint_place(&name);
        let slot = u32::from(self.hints[place]) % POOL_RECORDS;
        if let Some(rec) = find_in(h, slot, name)? {
            return Ok(Some((slot, rec)));
        }
        let found = find(h, name)?;
        if let Some((slot, _)) = &found {
            self.hints[place] = *slot as u8;
        }
        Ok(found)
    }

    /// The pool of this name, if the client has what the line needs of it and no other client's transaction is open on
    /// it. Otherwise the first of these refusals that holds:
    /// - `Client`: the client is not present.
    /// - `Pool`: no pool has the name.
    /// - `Wild`: a graph is needed, and the pool has none.
    /// - `Denied`: the client does not have the needed right.
    /// - `Busy`: another client's transaction is open on the pool.
    ///
    /// If a graph is needed, the pool is judged, unless it is known. If it has a graph, it is known afterwards.
    ///
    /// The only errors are the host's own, and nothing on the device changes.
    pub fn find_pool<H: Host>(
        &mut self,
        h: &mut H,
        client: u8,
        name: Name,
        need: Need,
    ) -> Result<Result<FoundPool, Refusal>, HostFault>
        requires known { client < CLIENTS }
        requires room { device_words (self.old).frames ≤ (H.counts h.old).size }
        ensures refusal { H.tells → (size : ℕ) → (w : World) → IsReady size w self.old (H.state h.old)
            → IfOk result (λ found. refusal_found found ≡ refusal_to w need client name) }
        ensures found { H.tells → (size : ℕ) → (w : World) → IsReady size w self.old (H.state h.old)
            → IfOk result (λ found. IfOk found (IsFound w need client name (reads (H.state h.old).now.words) self.new)) }
        ensures slot { IfOk result (λ found. IfOk found (λ found. found.slot < POOL_RECORDS)) }
        ensures whose { IfOk result (λ found. IfOk found (λ found. session_in (self.old).sessions found.slot ≡ session_found (self.old).sessions client found)) }
        ensures number { IfOk result (λ found. IfOk found (λ found. IfSome found.own (λ number. number < ALL_LOGS))) }
        ensures within { IfOk result (λ found. IfOk found (λ _. AreSessions (self.old).sessions)) }
        ensures known { IfOk result (λ found. IfOk found (λ found. needs_graph need ≡ true → true ≡ is_some (known_puddles_in (self.new).known_pools found.slot))) }
        // If a graph is needed, one more pool may be known. Nothing else changes.
        ensures ready { H.tells → (size : ℕ) → (w : World) → IsReady size w self.old (H.state h.old) → IsReady size w self.new (H.state h.old) }
        ensures known_pools { H.tells → (image : Image) → reads (H.state h.old).now.words ≡ image → AreKnownPools (self.old).frames (self.old).known_pools image → AreKnownPools (self.old).frames (self.new).known_pools image }
        ensures unjudged { needs_graph need ≡ false → (self.new).known_pools ≡ (self.old).known_pools }
        ensures frames { (self.new).frames ≡ (self.old).frames }
        ensures active { (self.new).active ≡ (self.old).active }
        ensures sessions { (self.new).sessions ≡ (self.old).sessions }
        ensures only_reads { OnlyReads H.tells H.state H.counts (fault_of result) h.old h.new }
    {
        let Some(who) = owner(h, client as u32)? else {
            return Ok(Err(Refusal::Client));
        };
        let Some((slot, rec)) = self.find_named(h, name)? else {
            return Ok(Err(Refusal::Pool));
        };
        if self.lacks_graph(h, slot, need)? {
            return Ok(Err(Refusal::Wild));
        }
        if !has_right(need, &rec, who) {
            return Ok(Err(Refusal::Denied));
        }
        Ok(found_unless_busy(self.sessions.session(slot), client, slot, rec.number))
    }

    /// The client's own transaction on the pool of this name, or why a line on it is refused before the rest of what it
    /// asks is looked at.
    ///
    /// The only errors are the host's own, and nothing on the device changes.
    pub fn find_own<H: Host>(
        &mut self,
        h: &mut H,
        client: u8,
        name: Name,
    ) -> Result<Result<OwnTransaction, Refusal>, HostFault>
        requires known { client < CLIENTS }
        requires room { device_words (self.old).frames ≤ (H.counts h.old).size }
        ensures refusal { H.tells → (size : ℕ) → (w : World) → IsReady size w self.old (H.state h.old)
            → IfOk result (λ found. refusal_found found ≡ refusal_of w (commands.Commit client name)) }
        ensures own { H.tells → (size : ℕ) → (w : World) → IsReady size w self.old (H.state h.old)
            → IfOk result (λ found. IfOk found (λ own. IsOwnTransactionOn client name own.slot own.log_number (self.old).active)) }
        ensures finds { IfOk result (λ found. IfOk found (FindsOwn client self.old)) }
        ensures ready { H.tells → (size : ℕ) → (w : World) → IsReady size w self.old (H.state h.old) → IsReady size w self.new (H.state h.old) }
        ensures frames { (self.new).frames ≡ (self.old).frames }
        ensures active { (self.new).active ≡ (self.old).active }
        ensures sessions { (self.new).sessions ≡ (self.old).sessions }
        ensures only_reads { OnlyReads H.tells H.state H.counts (fault_of result) h.old h.new }
    {
        let found = match self.find_pool(h, client, name, Need::Graph)? {
            Err(refusal) => return Ok(Err(refusal)),
            Ok(found) => found,
        };
        match found.own {
            Some(number) => Ok(Ok(OwnTransaction {
                slot: found.slot,
                log_number: number,
            })),
            None => Ok(Err(Refusal::Tx)),
        }
    }
}
