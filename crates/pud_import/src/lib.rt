//! Export files: whether bytes are a file, what the file contains, and how a pool is made of it. Nothing is allocated.
//!
//! The code that judges graphs is the same as for pools on devices: a file answers it like a device that has the file's
//! types in its type table and the file's frames as its own.
//!
//! A file is placed in two steps. First all that the pool needs is found, by reads alone. Then the frames are filled
//! and one batch is written.
#![tactic(auto)]

mod bases;
mod classes;
mod contents;
mod device;
mod file_view;
mod filling;
mod graph;
mod header;
mod judge;
pub mod laws;
mod new_places;
mod new_types;
mod placing;
mod plain;
mod plan;
mod sized_file;
mod types;
mod types_used;
mod words;

pub use file_view::{BadFile, FileView, read_file};
pub use placing::{PlaceFault, place};
