//! Active transactions, as the daemon keeps them in memory.
ghost use Rattle.std.specs.Prelude.{◌≡◌, Option, replicate};
ghost use Rattle.pud_defs.specs.Logging.Settled.{ALL_LOGS};

use hybrid_tx::Tx;
use pud_defs::layout::LOGS;
use pud_defs::records::Name;
use std::array;
use std::marker::Model;

/// An open transaction.
pub struct PoolTransaction {
    /// The client to which it belongs, 0 to 7.
    pub client: u8,
    /// The name of its pool.
    pub name: Name,
    /// The slot of the pool's record.
    pub slot: u32,
    /// The number of its log among the logs of all clients, 0 to 31.
    pub log_number: u32,
    /// The transaction on the pool's objects, which makes its changes.
    pub tx: Tx,
}

impl Model for PoolTransaction {
    ghost use Rattle.daemon_memory.specs.Memory.{ActiveTransaction};

    ghost Value = { ActiveTransaction };

    ghost view = { λ o. record { client = o.client; name = o.name; slot = o.slot; log_number = o.log_number; tx = o.tx } };
}

/// The open transactions, by the numbers of their logs.
pub type PoolTransactions = [Option<PoolTransaction>; LOGS];

/// The list in which no transaction is open.
pub(crate) fn no_transactions() -> PoolTransactions
    ensures { result ≡ replicate ALL_LOGS Option.None }
{
    array::from_fn(|_| None)
}

/// Gives up the transaction, if there is one: power was lost, or the daemon ends. It touches no device.
pub fn lose(opened: Option<PoolTransaction>) {
    match opened {
        Some(opened) => {
            let PoolTransaction {
                client: _client,
                name: _name,
                slot: _slot,
                log_number: _number,
                tx,
            } = opened;
            tx.lose();
        }
        None => {}
    }
}

/// Gives up the eight transactions of a quarter of the logs, as `lose` does.
fn lose_eight(
    o0: Option<PoolTransaction>,
    o1: Option<PoolTransaction>,
    o2: Option<PoolTransaction>,
    o3: Option<PoolTransaction>,
    o4: Option<PoolTransaction>,
    o5: Option<PoolTransaction>,
    o6: Option<PoolTransaction>,
    o7: Option<PoolTransaction>,
) {
    lose(o0);
    lose(o1);
    lose(o2);
    lose(o3);
    lose(o4);
    lose(o5);
    lose(o6);
    lose(o7);
}

/// Gives up all transactions that are open. No device is touched.
pub(crate) fn lose_all(opened: PoolTransactions) {
    let [
        o0,
        o1,
        o2,
        o3,
        o4,
        o5,
        o6,
        o7,
        o8,
        o9,
        o10,
        o11,
        o12,
        o13,
        o14,
        o15,
        o16,
        o17,
        o18,
        o19,
        o20,
        o21,
        o22,
        o23,
        o24,
        o25,
        o26,
        o27,
        o28,
        o29,
        o30,
        o31,
    ] = opened;
    lose_eight(o0, o1, o2, o3, o4, o5, o6, o7);
    lose_eight(o8, o9, o10, o11, o12, o13, o14, o15);
    lose_eight(o16, o17, o18, o19, o20, o21, o22, o23);
    lose_eight(o24, o25, o26, o27, o28, o29, o30, o31);
}
