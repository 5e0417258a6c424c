//! The shelf: the files `<name>.pud` of the current folder.
ghost use Rattle.std.specs.Prelude.{◌≤◌, vec_len, IfOk, IfSome};

use crate::folder;
use crate::reading::read_once;
use crate::storage_fault::StorageFault;
use pm_model::FILE_READ_LIMIT;
use std::alloc::Global;
use std::fs;
use std::fs::OpenFile;
use std::io::{ErrorKind, Read, Write};
use std::rt::Files;

const PIECE_BYTES: usize = 4_096;

/// The first bytes of the file of that name, at most [`FILE_READ_LIMIT`] of them. None if there is no such file.
///
/// # Errors
///
/// `Memory` if allocation failed. `Failed` if the file is there and could not be read.
pub(crate) fn get<R: Files>(
    runtime: &R,
    alloc: Global,
    name: &str,
) -> Result<Option<Vec<u8>>, StorageFault>
    ensures { IfOk result (λ found. IfSome found (λ bytes. vec_len bytes ≤ FILE_READ_LIMIT)) }
{
    if !is_file_name(name) {
        return Ok(None);
    }
    let path = format!(in alloc; "{name}.pud")?;
    match fs::open(runtime, path.as_str()) {
        Ok(mut file) => Ok(Some(read_limited(&mut file, alloc)?)),
        Err(error) if error.kind() == ErrorKind::NotFound => Ok(None),
        Err(_) => Err(StorageFault::Failed),
    }
}

/// Replaces the whole file of that name. The bytes are written and synced under another name, `<name>.pud.new`. Then
/// the new file is renamed, and the folder is synced. At `Ok` the file has the new bytes durably. If power is lost
/// before that, it has its old bytes or the new ones. If a file already has the other name, for example after a run
/// that was killed, it is removed first.
///
/// # Errors
///
/// `Memory` if allocation failed. `Failed` if the name is not the name of a file in the folder, or if the bytes could
/// not be written, synced or renamed: the file is as it was, and a file of the other name may be left. `Failed` also
/// if the folder could not be synced: the file has the new bytes, but perhaps not durably.
pub(crate) fn put<R: Files>(
    runtime: &R,
    alloc: Global,
    name: &str,
    bytes: &[u8],
) -> Result<(), StorageFault> {
    if !is_file_name(name) {
        return Err(StorageFault::Failed);
    }
    let path = format!(in alloc; "{name}.pud")?;
    let fresh = format!(in alloc; "{name}.pud.new")?;
    let mut file = folder::remake_file(runtime, fresh.as_str())?;
    file.write_all(bytes)?;
    file.sync_data()?;
    fs::rename(runtime, fresh.as_str(), path.as_str())?;
    folder::sync(runtime)?;
    Ok(())
}

// A name with a slash would leave the folder, and a name with a zero byte names no file.
fn is_file_name(name: &str) -> bool {
    name.as_bytes()
        .iter()
        .all(|byte| *byte != b'/' && *byte != 0)
}

fn read_limited<F: Read>(file: &mut F, alloc: Global) -> Result<Vec<u8>, StorageFault>
    ensures { IfOk result (λ bytes. vec_len bytes ≤ FILE_READ_LIMIT) }
{
    let mut bytes = Vec::new(alloc);
    let mut piece = [0u8; PIECE_BYTES];
    for _ in 0..u64::MAX {
        let room = PIECE_BYTES.min(FILE_READ_LIMIT.saturating_sub(bytes.len()));
        let count = read_once(file, &mut piece[..room])?;
        if count == 0 {
            break;
        }
        bytes.extend_from_slice(&piece[..count])?;
    }
    Ok(bytes)
}
