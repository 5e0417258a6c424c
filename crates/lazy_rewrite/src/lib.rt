//! Rewrites the pointers of a pool so that they stand over the pool's bases, a few steps of a puddle at a time.
//!
//! Step 0 of a puddle is its header, whose pointer is the root, and step s + 1 is its slot s. The frontier of a puddle
//! is the number of steps that are done. The pointers of these steps stand over the bases of the pool, all others over
//! the old bases. One batch writes up to ten steps and the frontier after them, all or none. So at each moment each
//! pointer leads where it led. The pool is given by the frames and the records of its puddles by their ordinals. These
//! records change together with the table.
#![tactic(auto)]

mod batches;
mod pointers;
mod steps;

pub use batches::{BATCH_STEPS, STEPS_WORDS};
pub use steps::{finish, step};
