//! The program of case files: it carries out case files and prints one line for each.
//!
//! It takes the files that the words of the command line name. Without words it takes each file of each folder in the
//! current folder, and the files of the current folder itself.
//!
//! The program that the cases run is a parameter ([`Program`]), so a program of case files is its `main` and its data.
//! A file in the folder `wrong`, or in no folder, must be reported as its first line states. The status is 1 if a file
//! was not as it should be.
#![tactic(auto)]

use case_bench::case_file::run_file;
use case_bench::program::Program;
use case_text::trouble::{Trouble, amiss};
use std::alloc::{AllocError, Global};
use std::process::ExitCode;
use std::{env, fs, io};

/// The folder of the files that must be reported.
const WRONG: &str = "wrong/";

/// What is printed about a file with this text, and whether the file is as it should be.
fn verdict<P: Program>(
    program: &P,
    alloc: Global,
    path: &str,
    text: &str,
) -> Result<(String, bool), AllocError> {
    let is_outside = !path.contains('/');
    let is_wrong = is_outside || path.starts_with(WRONG);
    let carried_out = if is_outside {
        Err(amiss(1, format!(in alloc; "this file is in no folder")))
    } else {
        run_file(program, alloc, text)
    };
    let found = match carried_out {
        Ok(count) => {
            let said = format!(in alloc; "{} cases, {} runs", count.cases, count.runs)?;
            return Ok((said, !is_wrong));
        }
        Err(Trouble::At(number, why)) => format!(in alloc; "line {number}: {why}")?,
        Err(Trouble::Memory) => format!(in alloc; "an allocation failed")?,
    };
    let wanted = text.lines().next().and_then(|line| line.strip_prefix("# "));
    let is_wanted = is_wrong && wanted == Some(found.as_str());
    Ok((found, is_wanted))
}

/// Carries out the file and prints its line. The result tells whether the file is as it should be.
fn carry_out<P: Program>(rt: &HostRuntime, program: &P, path: &str) -> io::Result<bool> {
    let text = fs::read_to_string(rt, path)?;
    let (said, is_wanted) = verdict(program, rt.alloc(), path, &text)?;
    let failed = if is_wanted { "" } else { "FAILED: " };
    println!(rt; "{path}: {failed}{said}")?;
    Ok(is_wanted)
}

/// The names in the folder, in order.
fn names_in(rt: &HostRuntime, folder: &str) -> io::Result<Vec<String>> {
    let mut names = Vec::new(rt.alloc());
    for entry in fs::read_dir(rt, folder)? {
        names.push(String::from_str(rt.alloc(), entry?.file_name())?)?;
    }
    names.sort()?;
    Ok(names)
}

/// The files of the current folder and of its folders, in order.
fn all_files(rt: &HostRuntime) -> io::Result<Vec<String>> {
    let mut paths = Vec::new(rt.alloc());
    for folder in names_in(rt, ".")?.iter() {
        if fs::metadata(rt, folder.as_str())?.is_dir() {
            for name in names_in(rt, folder)?.iter() {
                paths.push(format!(in rt.alloc(); "{folder}/{name}")?)?;
            }
        } else {
            paths.push(folder.clone()?)?;
        }
    }
    Ok(paths)
}

/// Carries out the files that the words of the command line name, with the program. Without words it carries out each
/// file of each folder in the current folder, and the files of the current folder itself, in order. It prints one line
/// for each file, and one for all. The status is 1 if a file was not as it should be, else 0. An error is that of a
/// file or a stream, or that an allocation failed.
pub fn run_files<P: Program>(rt: &HostRuntime, program: &P) -> io::Result<ExitCode> {
    let mut paths: Vec<String> = Vec::new(rt.alloc());
    for word in env::args(rt)?.skip(1) {
        paths.push(word)?;
    }
    if paths.is_empty() {
        paths = all_files(rt)?;
    }
    let mut failed = 0u32;
    for path in paths.iter() {
        if !carry_out(rt, program, path)? {
            failed = failed.saturating_add(1);
        }
    }
    println!(rt; "{} files, {failed} failed", paths.len())?;
    Ok(ExitCode::from(u8::from(failed > 0)))
}
