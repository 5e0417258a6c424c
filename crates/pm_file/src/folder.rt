//! The current folder: files that are made in it, and the sync of its entries.
use std::fs::{File, OpenFile};
use std::io::ErrorKind;
use std::os::unix::fs::OpenOptionsExt;
use std::rt::Files;
use std::{fs, io};

/// The mode of a new file. Only its owner reads and writes it, since whoever can read it can read every pool in it.
const OWNER_ONLY: u32 = 0o600;

/// Makes a file at that path, if nothing is there, not even a link.
///
/// # Errors
///
/// Something is there, or the system made no file.
pub(crate) fn make_file<R: Files>(runtime: &R, path: &str) -> io::Result<R::File> {
    File::options()
        .read(true)
        .write(true)
        .create_new(true)
        .mode(OWNER_ONLY)
        .open(runtime, path)
}

/// Makes a file at that path. A file or a link that is there is removed first, so nothing is written through it.
///
/// # Errors
///
/// What is there could not be removed, for example a folder, or the system made no file.
pub(crate) fn remake_file<R: Files>(runtime: &R, path: &str) -> io::Result<R::File> {
    match fs::remove_file(runtime, path) {
        Err(error) if error.kind() != ErrorKind::NotFound => Err(error),
        _ => make_file(runtime, path),
    }
}

/// Makes the entries of the folder durable: which files it has, and under which names.
///
/// # Errors
///
/// The folder could not be opened, for example because it may not be read, or it could not be synced.
pub(crate) fn sync<R: Files>(runtime: &R) -> io::Result<()> {
    fs::open(runtime, ".")?.sync_all()
}
