//! The program `puddle`: it formats a device of persistent memory, and runs scripts over it. All that it does is in
//! `puddle_cli`. This file gives it the words, the file of the device and the streams.
#![tactic(auto)]

use command_line::{WordsFault, read_words};
use pm_file::FileHost;
use pm_model::FileFault;
use puddle_cli::{DEVICE_FAULT, NO_MEMORY, USAGE, message_of, puddle_main};
use std::process::ExitCode;
use std::{env, io};

/// The words of the command line, or a status if there are none to read: 3 if allocation failed, and else 2, since
/// words that are not UTF-8 are no mode.
fn words_of(rt: &HostRuntime) -> Result<Vec<String>, u8> {
    let arguments = match env::args(rt) {
        Ok(arguments) => arguments,
        Err(error) if error.kind() == io::ErrorKind::OutOfMemory => return Err(NO_MEMORY),
        Err(_) => return Err(USAGE),
    };
    let mut words = Vec::new(rt.alloc());
    for word in arguments {
        if words.push(word).is_err() {
            return Err(NO_MEMORY);
        }
    }
    Ok(words)
}

/// Does what the words ask for, on the file `puddles.pm` of the current folder. Returns the status. Words that are no
/// mode touch no file.
fn status_with(rt: &HostRuntime) -> u8 {
    let words = match words_of(rt) {
        Ok(words) => words,
        Err(status) => return status,
    };
    match read_words(rt.alloc(), &words) {
        Ok(_mode) => {}
        Err(WordsFault::Usage) => return USAGE,
        Err(WordsFault::Memory) => return NO_MEMORY,
    }
    match FileHost::open(rt, rt.alloc()) {
        Ok(mut host) => puddle_main(rt.alloc(), &words, &mut host),
        Err(FileFault::Memory) => NO_MEMORY,
        Err(FileFault::Host(_)) => DEVICE_FAULT,
    }
}

fn main(rt: HostRuntime) -> ExitCode {
    let status = status_with(&rt);
    if let Some(message) = message_of(status) {
        let _ = eprintln!(rt; "{message}");
    }
    ExitCode::from(status)
}
