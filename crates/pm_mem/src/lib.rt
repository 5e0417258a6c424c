//! A persistent-memory device in memory, with its script, its replies and its files. It tells everything. It returns a
//! fault only if its plan, its room or an armed cut calls for one.
#![tactic(auto)]

mod device;
mod event;
mod mem_host;
mod plan;
mod turns;
mod watch;

pub use mem_host::MemHost;
pub use plan::Plan;
