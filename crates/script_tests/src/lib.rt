//! Tests that run random scripts over a host in memory and compare the replies with a plain model of the machine.
#![tactic(auto)]

#[cfg(test)]
mod dice;
#[cfg(test)]
mod lines;
#[cfg(test)]
mod machine;
#[cfg(test)]
mod pokes;
#[cfg(test)]
mod program;
#[cfg(test)]
mod random;
#[cfg(test)]
mod random_cuts;
#[cfg(test)]
mod random_split;
#[cfg(test)]
mod talk;
