//! Whether a device is a sound registry once its daemon log is replayed.
//!
//! Nothing is replayed and nothing is written: each word is read as the replay would make it. Nothing is allocated. The
//! cost grows at most with the number of frames times its logarithm.
#![tactic(auto)]

mod distinct;
mod judge;
mod names;
mod overlay;
mod tables;

pub use judge::{Sound, judge_device};
