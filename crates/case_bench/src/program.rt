//! The program that cases run.
use pm_mem::MemHost;
use std::alloc::Global;

/// A program that runs over a host in memory.
pub trait Program {
    /// Does what these words ask for. The result is the status with which the program ends.
    fn run(&self, alloc: Global, words: &[String], host: &mut MemHost) -> u8;
}
