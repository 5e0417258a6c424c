//! Tests of the device through its public calls: the host in memory, words made durable on it, and the host over the
//! file.
#![tactic(auto)]

#[cfg(test)]
mod calls;
#[cfg(test)]
mod durability;
#[cfg(test)]
mod file_host;
#[cfg(test)]
mod memory_host;
