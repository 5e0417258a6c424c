//! Carries out case files: it runs a program over devices in memory, and compares what is seen with what is wanted.
//!
//! The program is a parameter ([`program::Program`]). The format of case files is in `case_text`.
#![tactic(auto)]

mod acts;
pub mod bench;
pub mod case_file;
mod checks;
mod device;
mod layouts;
mod names;
mod numbers;
mod places;
pub mod program;
mod runs;
mod shelf;
mod tries;
