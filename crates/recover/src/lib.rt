//! Recovery under rights: what a start does with the logs that clients left.
//!
//! A registered log is replayed if it names in its range only words that its owner may write; otherwise it is refused
//! as a whole. A log that is not registered is not touched. The results are right for any content of the device.
//! Nothing is allocated.
#![tactic(auto)]

mod client_logs;
mod judge;
mod recovery;
mod upgrading;

pub use judge::Mark;
pub use recovery::{RecoverFault, Report, recover};
pub use upgrading::upgrade;
