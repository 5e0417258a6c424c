//! Case files as text: lines with repeated blocks, counters between `<` and `>`, the wanted text after an arrow, and
//! scripts with the wanted reply beside each line.
//!
//! A case file reads like sessions with the program. Nothing here knows a device or a run of the program.
#![tactic(auto)]

pub mod counters;
pub mod lines;
pub mod names;
pub mod transcript;
pub mod trouble;
pub mod wanted;
mod writing;
