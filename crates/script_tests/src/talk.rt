//! Scripts that are built line by line, with the output that they have to get.
use std::alloc::Global;
use std::process::Abort;

/// A script, and the output that it has to get.
#[derive(Drop)]
pub struct Talk {
    pub script: String,
    pub said: String,
}

impl Talk {
    /// The empty script. Its output is the line `ready`.
    pub fn new(rt: &impl Abort, alloc: Global) -> Talk {
        Talk {
            script: String::new(alloc),
            said: String::from_str(alloc, "ready\n").expect(rt, "memory"),
        }
    }

    /// Adds these lines to the script, and these replies to the output.
    pub fn add(&mut self, rt: &impl Abort, lines: &str, replies: &str) {
        self.script.push_str(lines).expect(rt, "memory");
        self.said.push_str(replies).expect(rt, "memory");
    }
}
