//! Tests of the crates for logs, through their public calls: entries that are read, a log that grows, replays and
//! batches.
#![tactic(auto)]

#[cfg(test)]
mod appends;
#[cfg(test)]
mod batches;
#[cfg(test)]
mod device;
#[cfg(test)]
mod entries;
#[cfg(test)]
mod puddle_replays;
#[cfg(test)]
mod replays;
