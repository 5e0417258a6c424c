//! Tests of the formats, the grammar, identifiers and command lines, through their public calls.
#![tactic(auto)]

#[cfg(test)]
mod commands;
#[cfg(test)]
mod gates;
#[cfg(test)]
mod identifiers;
#[cfg(test)]
mod maps;
#[cfg(test)]
mod places;
#[cfg(test)]
mod replies;
#[cfg(test)]
mod words;
