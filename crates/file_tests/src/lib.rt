//! Tests of the reader of export files through its public calls, next to a reader that is the tests' own.
#![tactic(auto)]

#[cfg(test)]
mod changed;
#[cfg(test)]
mod files;
#[cfg(test)]
mod plain;
#[cfg(test)]
mod readers;
#[cfg(test)]
mod worked;
