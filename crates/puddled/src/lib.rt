//! The daemon: it starts on a sound device and carries out one line of a script at a time.
#![tactic(auto)]

mod answers;
mod clients;
mod daemon;
mod starting;
mod types;

pub use daemon::{Daemon, RunFault, StartFault};
