//! All that the program does: the modes that its words ask for, formatting, the loop over a script, and the statuses.
#![tactic(auto)]

mod format;
mod generate;
mod generated;
mod line_buffer;
mod run;
mod show;
mod source;
mod status;
mod top;

pub use status::{
    DEVICE_FAULT, DONE, NO_MEMORY, NOT_USABLE, POWER_LOST, TOO_LONG, USAGE, message_of,
};
pub use top::puddle_main;
