//! The host over real files: a device in the file `puddles.pm`, a shelf of `.pud` files in the current folder, a
//! script from standard input, and replies to standard output.
#![tactic(auto)]

mod device;
mod device_file;
mod device_words;
#[cfg(test)]
mod fake_file;
mod file_host;
mod folder;
mod line_run;
mod reading;
mod script;
mod shelf;
mod storage_fault;

pub use file_host::FileHost;
