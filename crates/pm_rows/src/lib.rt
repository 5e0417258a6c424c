//! The words of a device as a host keeps them: three rows, of the durable, the marked and the newest value of each
//! word, and the lines in which these may differ. A fence and a power loss go over those lines alone.
#![tactic(auto)]

mod device_rows;
mod line_set;

pub use device_rows::{DeviceRows, LINE_WORDS};
pub use line_set::LineSet;
