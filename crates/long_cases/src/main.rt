//! The program `long_cases`: it carries out the case files whose loops are long, in a run of its own beside that of
//! `cases`, and prints one line for each file.
//!
//! Without words it takes each file of each folder in the current folder, in the order of their names, and the files of
//! the current folder itself. With words it takes the files that they name.
#![tactic(auto)]

use case_bench::program::Program;
use case_files::run_files;
use pm_mem::MemHost;
use puddle_cli::puddle_main;
use std::alloc::Global;
use std::io;
use std::process::ExitCode;

/// The program `puddle`.
struct Puddle;

impl Program for Puddle {
    fn run(&self, alloc: Global, words: &[String], host: &mut MemHost) -> u8 {
        puddle_main(alloc, words, host)
    }
}

fn main(rt: HostRuntime) -> io::Result<ExitCode> {
    run_files(&rt, &Puddle)
}
