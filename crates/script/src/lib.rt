//! Reads the lines of a script, and writes the replies to them.
#![tactic(auto)]

mod arguments;
mod fields;
mod lines;
mod names;
mod numbers;
mod pieces;
mod places;
mod replies;
mod values;

pub use lines::{Bad, parse_line};
pub use numbers::{read_number, read_within};
pub use pud_defs::machine::{Command, Refusal, Reply};
pub use replies::print_reply;
