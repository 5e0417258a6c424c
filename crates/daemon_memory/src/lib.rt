//! The daemon's memory: what it keeps between two lines, the pool that a line names, and what a line is answered. Its
//! laws say what each image of the device stands for while transactions are open, and what a command does that is
//! carried out beside them.
#![tactic(auto)]

mod finding;
mod known_pools;
mod line_answer;
mod memory;
mod transactions;

pub use finding::{FoundPool, Need, OwnTransaction, refusal_to_enter};
pub use known_pools::KnownPools;
pub use line_answer::{LineAnswer, Text, with_reply};
pub use memory::DaemonMemory;
pub use transactions::{PoolTransaction, PoolTransactions, lose};
