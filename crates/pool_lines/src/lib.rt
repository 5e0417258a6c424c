//! Lines on pools outside of transactions: a pool is read, written into a file, made of a file, rewritten, made, changed
//! and dropped.
#![tactic(auto)]

mod dumping;
mod exporting;
mod importing;
mod pools;
mod reading;
mod rewriting;

pub use dumping::dump_for;
pub use exporting::export_for;
pub use importing::import;
pub use pools::{create_pool, drop_for, set_mode_for};
pub use reading::get_for;
pub use rewriting::rewrite_for;
