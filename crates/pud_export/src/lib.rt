//! Writes pools on a device as export files: bytes that stand for the types and the graph of a pool, apart from the
//! device.
#![tactic(auto)]

mod export;
mod faults;
mod frames;
mod front;
mod places;
mod slots;
mod types;
mod words;

pub use export::export_pool;
pub use faults::ExportFault;
