//! The reader of files, next to the tests' own reader.
use crate::plain;
use pud_import::read_file;
use std::process::Abort;

/// Whether the bytes are a file by both readers, which must answer the same.
pub fn is_file(rt: &impl Abort, bytes: &[u8]) -> bool {
    let read = read_file(bytes).is_ok();
    assert_eq!(rt; read, plain::is_file(bytes));
    read
}
