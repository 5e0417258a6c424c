//! Laws about graphs: how a change of a pool's words changes the graph that they stand for.
#![tactic(auto)]

pub mod laws;
