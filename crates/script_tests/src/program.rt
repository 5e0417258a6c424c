//! Runs of the program, on hosts that tests look at.
//!
//! A test asserts what it gets from here. So nothing here has a contract, and a call returns None if allocation fails.
use pm_mem::MemHost;
use pm_model::Host;
use puddle_cli::puddle_main;
use std::alloc::Global;

/// The words of the mode `run`.
const RUN: [&str; 2] = ["puddle", "run"];

/// The pick by which a power loss keeps the oldest of each word's values.
pub const OLDEST: u64 = 0;

/// The pick by which a power loss keeps the newest of each word's values.
pub const NEWEST: u64 = 1;

/// The pick by which a power loss keeps the newest value of every other word.
pub const EVERY_OTHER: u64 = 0x5555_5555_5555_5555;

/// Runs the host's script, and returns the status that the program ends with. None if allocation fails.
pub fn run<H: Host>(alloc: Global, host: &mut H) -> Option<u8> {
    let mut all = Vec::new(alloc);
    for word in RUN {
        all.push(String::from_str(alloc, word).ok()?).ok()?;
    }
    Some(puddle_main(alloc, &all, host))
}

/// A host that tests look at without a call that might fail.
pub trait Seen: Host {
    /// What was printed so far.
    fn heard(&self) -> &[u8];

    /// Gives the host this script to read. Returns false if allocation fails.
    fn give(&mut self, alloc: Global, script: &str) -> bool;
}

impl Seen for MemHost {
    fn heard(&self) -> &[u8] {
        self.said()
    }

    fn give(&mut self, alloc: Global, script: &str) -> bool {
        self.refill(alloc, script.as_bytes()).is_ok()
    }
}
