//! Sessions of clients on pools: whose transaction is open on each pool, with which log, and how often it was begun.
//!
//! A pool is given by the slot of its record in the pool table, 0 to 31. A client is given by its number, 0 to 7, and a
//! log by its number among those of all clients, 0 to 31. On each pool the transaction of at most one client is open.
//! No call allocates memory or touches a device.
#![tactic(auto)]

ghost use Rattle.std.specs.Prelude.{◌≡◌, ◌+◌, ◌<◌, ◌≤◌, ◌↔◌, replicate, set, Option, Result, IfOk, IfSome, OnErr};
ghost use Rattle.pud_defs.specs.declared.layout.TheConstants.{CLIENTS, CLIENT_LOGS, MAX_DEPTH};
ghost use Rattle.pud_defs.specs.declared.records.TheConstants.{POOL_RECORDS};
ghost use Rattle.pud_defs.specs.Logging.Settled.{ALL_LOGS};
ghost use Rattle.nesting.specs.Sessions.{session_in, holder_in, depth_in, is_of_client, count_of, entered, lowered_session, left, IsSession, AreSessions};

use pud_defs::layout::{CLIENT_LOGS, MAX_DEPTH};
use pud_defs::records::POOL_RECORDS;
use std::marker::Model;

/// A transaction that is open on a pool.
#[derive(Clone, Copy)]
pub struct Session {
    /// The client whose transaction it is, 0 to 7.
    pub client: u8,
    /// The number of its log, 0 to 31.
    pub log_number: u32,
    /// How often it was begun, 1 to 16.
    pub depth: u32,
}

/// Why no session begins or becomes one deeper. Nothing changed.
#[derive(Clone, Copy, Debug, PartialEq, Eq, thiserror::Error)]
pub enum EnterFault {
    /// The transaction was begun 16 times, as often as it may be.
    #[error("the transaction is as deep as it may be")]
    Deep,
    /// The client has no log left: its transactions are open on four other pools.
    #[error("the client has no log left")]
    Logs,
}

/// The sessions of all clients, by the slots of the pools' records.
#[derive(Drop)]
pub struct Sessions {
    pools: [Option<Session>; POOL_RECORDS as usize],
}

impl Model for Sessions {
    ghost use Rattle.std.specs.Prelude.{List, Option};
    ghost use Rattle.nesting.specs.declared.Session.{Session};
    ghost use Rattle.nesting.specs.Sessions.{AreSessions};

    ghost Value = { List (Option Session) };

    ghost view = { λ s. s.pools };

    ghost invariant = { λ s. AreSessions s.pools };
}

/// Whether the session is this client's.
fn is_of(client: u8, session: Option<Session>) -> bool
    ensures { result ≡ is_of_client client session }
{
    session.is_some_and(|session| session.client == client)
}

/// The session with its depth one less, or None if it was begun once.
fn lowered(session: Session) -> Option<Session>
    requires { 1 ≤ session.depth }
    ensures { result ≡ lowered_session (Option.Some session) }
{
    if session.depth <= 1 {
        return None;
    }
    Some(Session {
        depth: session.depth - 1,
        ..session
    })
}

impl Sessions {
    /// Makes sessions in which no transaction is open.
    pub fn new() -> Sessions
        ensures { result ≡ replicate POOL_RECORDS Option.None }
    {
        Sessions {
            pools: [None; POOL_RECORDS as usize],
        }
    }

    /// On how many pools the client's transactions are open.
    fn count_of(&self, client: u8) -> usize
        ensures { result ≡ count_of client self.now }
    {
        self.pools
            .iter()
            .filter(|session| is_of(client, **session))
            .count()
    }

    /// Why the client's session on the pool may not begin or become one deeper, or None if it may.
    fn fault_to_enter(&self, client: u8, pool: u32) -> Option<EnterFault>
        requires { pool < POOL_RECORDS }
        ensures deep { (result ≡ Option.Some EnterFault.Deep) ↔ (depth_in self.now pool ≡ MAX_DEPTH) }
        ensures logs { (result ≡ Option.Some EnterFault.Logs) ↔ ((session_in self.now pool ≡ Option.None) × (CLIENT_LOGS ≤ count_of client self.now)) }
    {
        match self.pools[pool as usize] {
            Some(session) => {
                if session.depth == MAX_DEPTH {
                    return Some(EnterFault::Deep);
                }
                None
            }
            None => {
                if CLIENT_LOGS as usize <= self.count_of(client) {
                    return Some(EnterFault::Logs);
                }
                None
            }
        }
    }

    /// After the call the client's transaction is open on the pool, with the log of this number, 0 to 31. It is begun
    /// once, or once more if it was open before.
    ///
    /// The error is `Deep` exactly if the transaction was begun 16 times. It is `Logs` exactly if no transaction is
    /// open on the pool and the client's are open on at least four pools. After an error nothing changed.
    pub fn enter(&mut self, client: u8, pool: u32, number: u32) -> Result<(), EnterFault>
        requires known { client < CLIENTS }
        requires slot { pool < POOL_RECORDS }
        requires log { number < ALL_LOGS }
        // No other client's transaction is open on the pool.
        requires own { IfSome (session_in self.old pool) (λ session. session.client ≡ client) }
        ensures deep { (result ≡ Result.Err EnterFault.Deep) ↔ (depth_in self.old pool ≡ MAX_DEPTH) }
        ensures logs { (result ≡ Result.Err EnterFault.Logs) ↔ ((session_in self.old pool ≡ Option.None) × (CLIENT_LOGS ≤ count_of client self.old)) }
        ensures entered { IfOk result (λ _. self.new ≡ entered client pool number self.old) }
        ensures stays { OnErr result (self.new ≡ self.old) }
    {
        if let Some(fault) = self.fault_to_enter(client, pool) {
            return Err(fault);
        }
        let depth = self.depth(pool) + 1;
        self.pools[pool as usize] = Some(Session {
            client,
            log_number: number,
            depth,
        });
        Ok(())
    }

    /// Lowers the depth of the client's transaction on the pool by one. A transaction that was begun once is then no
    /// longer open. Returns the new depth, 0 if the transaction ended.
    pub fn leave(&mut self, client: u8, pool: u32) -> u32
        requires slot { pool < POOL_RECORDS }
        requires holds { holder_in self.old pool ≡ Option.Some client }
        ensures depth { result + 1 ≡ depth_in self.old pool }
        ensures left { self.new ≡ left pool self.old }
    {
        let depth = self.depth(pool) - 1;
        self.pools[pool as usize] = self.pools[pool as usize].and_then(lowered);
        depth
    }

    /// Ends the transaction on the pool, however often it was begun. If none is open, nothing changes.
    pub fn end(&mut self, pool: u32)
        requires slot { pool < POOL_RECORDS }
        ensures { self.new ≡ set self.old pool Option.None }
    {
        self.pools[pool as usize] = None;
    }

    /// The session on the pool, or None if no transaction is open on it.
    pub fn session(&self, pool: u32) -> Option<Session>
        requires { pool < POOL_RECORDS }
        ensures session { result ≡ session_in self.now pool }
        ensures one { IfSome result IsSession }
        ensures within { AreSessions self.now }
    {
        self.pools[pool as usize]
    }

    /// The client whose transaction is open on the pool, 0 to 7, or None if none is open.
    pub fn holder(&self, pool: u32) -> Option<u8>
        requires { pool < POOL_RECORDS }
        ensures holder { result ≡ holder_in self.now pool }
        ensures within { AreSessions self.now }
    {
        self.pools[pool as usize].map(|session| session.client)
    }

    /// How often the transaction on the pool was begun, 1 to 16, or 0 if none is open.
    pub fn depth(&self, pool: u32) -> u32
        requires { pool < POOL_RECORDS }
        ensures depth { result ≡ depth_in self.now pool }
        ensures within { AreSessions self.now }
    {
        self.pools[pool as usize].map_or(0, |session| session.depth)
    }
}

#[cfg(test)]
mod tests;
