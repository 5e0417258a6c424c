//! Reads the graph of a pool from a device and returns it as the compact text of one JSON object.
//!
//! The text is `{"next":n,"objects":[..],"root":r}`, with the objects by ascending serials. `serde_json` builds and
//! writes the values, one object at a time.
#![tactic(auto)]

mod dump;
mod fault;
mod object;
mod places;
mod reading;
mod values;

pub use dump::dump_json;
pub use fault::DumpFault;
