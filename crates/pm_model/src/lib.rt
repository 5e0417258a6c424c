//! The model of the persistent-memory device and of its host: words with the values that a power loss may leave, a
//! reply stream, a script and a shelf of files.
#![tactic(auto)]

mod host;
mod laws;
mod loads;
mod losses;
mod tally;

pub use host::{FILE_READ_LIMIT, FileFault, Host, HostFault};
pub use laws::{
    a_rested_device_leaves_what_is_read, moments_of_calls_join,
    what_is_left_is_left_at_each_moment, what_is_read_may_be_left,
};
pub use loads::Loads;
pub use losses::{Armed, counted_down, keeps_newest};
pub use tally::Tally;
