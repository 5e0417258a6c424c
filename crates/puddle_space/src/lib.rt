//! The global space of addresses: which word of which frame an address names, which base is free, and which base is
//! taken.
//!
//! Each call on a device takes the number of its frames, at most 1,024. The device has the puddle table of so many
//! frames. The calls work on every content of the device. They change nothing on it, and their only errors are the
//! host's own.
#![tactic(auto)]

mod addresses;
mod bases;
mod taken;

pub use addresses::Nearby;
pub use bases::{MAX_TAKEN, free_base};
pub use taken::has_base;
