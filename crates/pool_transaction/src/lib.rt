//! Transactions on a pool: how one begins and ends, why a line in it is refused, and what the line changes.
#![tactic(auto)]

mod changing;
mod lifetime;
mod lines;
mod own;
mod refusals;

pub use changing::{Change, Update};
pub use lines::{abort, begin, change_own, commit};
pub use own::undo_of;
