//! The definitions of a device of puddles: where things lie on it, what its bits mean, and the state machine that the
//! daemon's lines drive.
//!
//! The contracts of the crates above cite these definitions.
#![tactic(auto)]

pub mod files;
pub mod laws;
pub mod layout;
pub mod log_words;
pub mod machine;
pub mod objects;
pub mod records;
pub mod settling;
pub mod space;
pub mod type_map;
