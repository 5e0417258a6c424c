//! The laws that pools are independent of each other. What a pool keeps and how its lines are answered depends only on
//! its own lines, the types, the clients and the files that it imports. This is true as long as no limit that pools
//! share is met and no line is cut off by a power loss.
#![tactic(auto)]

pub mod laws;
