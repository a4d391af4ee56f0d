//! Writing a file of the system whole: the bytes go to a new file beside it, which then takes its place.
//!
//! What this does to real files is not proved.
ghost use Rattle.std.specs.Prelude.{◌≢◌};

use crate::ShelfErr;
use std::alloc::{AllocError, Global};
use std::fs::{Metadata, OpenFile, OpenOptions, Permissions};
use std::io::{ErrorKind, Write};
use std::os::unix::fs::{MetadataExt, OpenOptionsExt, PermissionsExt};
use std::rt::Files;
use std::{fs, io};

/// How many names beside a file are tried: more than there are runs at once and files that killed runs left.
const TRIES: u32 = 1000;

/// The permissions of a new file, before the user's mask.
const NEW_FILE: u32 = 0o666;

/// The bits of a file's mode that a file in its place gets, which are those to read, write and run it.
const PERMISSIONS: u32 = 0o777;

/// Why nothing took a file's place. It is as it was then.
#[derive(Clone, Copy)]
enum Unreplaced {
    /// Nothing can take its place, or has to: it is written in place.
    WriteInPlace,
    /// The bytes, or the new file, found no room; or the new file couldn't be moved.
    Fault,
    /// Memory ran out for a name.
    NoMemory,
}

impl From<AllocError> for Unreplaced {
    fn from(_: AllocError) -> Unreplaced {
        Unreplaced::NoMemory
    }
}

/// Makes the name hold exactly these bytes.
///
/// Where it is absent or a regular file, also by links, a new file takes the place of what it stands for, and gets its
/// permissions. What else it may be, a device, a pipe or a link to nothing, is written in place, and so is what lies in
/// `/dev/` or `/proc/`, and a regular file where none can be made beside it or moved to its place.
///
/// # Errors
///
/// `Fault` where writing failed, and then what was written in place holds any bytes, and all else is as before, but for
/// a new file that couldn't be removed again; `NoMemory`, and then no file changed.
pub fn write_whole<R: Files>(
    rt: &R,
    alloc: Global,
    name: &str,
    bytes: &[u8],
) -> Result<(), ShelfErr>
    ensures never_absent { result ≢ Err ShelfErr.Absent }
    ensures never_too_large { result ≢ Err ShelfErr.TooLarge }
{
    match replace(rt, alloc, name, bytes) {
        Ok(()) => Ok(()),
        Err(Unreplaced::NoMemory) => Err(ShelfErr::NoMemory),
        Err(Unreplaced::Fault) => Err(ShelfErr::Fault),
        Err(Unreplaced::WriteInPlace) => match fs::write(rt, name, bytes) {
            Ok(()) => Ok(()),
            Err(_) => Err(ShelfErr::Fault),
        },
    }
}

/// Puts a new file with the bytes in the place of what the name stands for. A link stays, and leads to the new file.
fn replace<R: Files>(rt: &R, alloc: Global, name: &str, bytes: &[u8]) -> Result<(), Unreplaced> {
    if name.starts_with("/dev/") || name.starts_with("/proc/") {
        return Err(Unreplaced::WriteInPlace);
    }
    match fs::symlink_metadata(rt, name) {
        Ok(found) if found.is_symlink() => match rt.canonicalize(alloc, name) {
            Ok(target) => replace_file(rt, alloc, target.as_str(), bytes),
            Err(error) if error.kind() == ErrorKind::OutOfMemory => Err(Unreplaced::NoMemory),
            Err(_) => Err(Unreplaced::WriteInPlace),
        },
        Ok(_) => replace_file(rt, alloc, name, bytes),
        Err(error) if error.kind() == ErrorKind::NotFound => put_file(rt, alloc, name, None, bytes),
        Err(_) => Err(Unreplaced::WriteInPlace),
    }
}

/// Puts a new file in the place of a file that is no link, where that is regular and may be written.
fn replace_file<R: Files>(
    rt: &R,
    alloc: Global,
    target: &str,
    bytes: &[u8],
) -> Result<(), Unreplaced> {
    let Ok(old) = fs::symlink_metadata(rt, target) else {
        return Err(Unreplaced::WriteInPlace);
    };
    if !old.is_file() || OpenOptions::new().write(true).open(rt, target).is_err() {
        return Err(Unreplaced::WriteInPlace);
    }
    put_file(rt, alloc, target, Some(&old), bytes)
}

/// Makes a file beside the target, under the first of some names that is free, and moves it there. It gets the
/// permissions of the old file, where there is one.
fn put_file<R: Files>(
    rt: &R,
    alloc: Global,
    target: &str,
    old: Option<&Metadata>,
    bytes: &[u8],
) -> Result<(), Unreplaced> {
    let mode = old.map_or(NEW_FILE, |file| file.mode() & PERMISSIONS);
    for number in 0..TRIES {
        let beside = format!(in alloc; "{target}.tmp{number}")?;
        match OpenOptions::new()
            .write(true)
            .create_new(true)
            .mode(mode)
            .open(rt, beside.as_str())
        {
            Ok(file) => {
                if let Some(old) = old {
                    keep_access(rt, &file, beside.as_str(), old);
                }
                return move_there(rt, file, beside.as_str(), target, bytes);
            }
            Err(error) if error.kind() == ErrorKind::AlreadyExists => {}
            Err(error) => return Err(cause_of(&error)),
        }
    }
    Err(Unreplaced::Fault)
}

/// Gives a new file the group, the owner and the permissions of the old one, as far as the system lets it. It was made
/// with no more permissions than these.
fn keep_access<R: Files>(rt: &R, file: &R::File, beside: &str, old: &Metadata) {
    let _ = rt.lchown(beside, None, Some(old.gid()));
    let _ = rt.lchown(beside, Some(old.uid()), None);
    let _ = file.set_permissions(Permissions::from_mode(old.mode() & PERMISSIONS));
}

/// Writes the bytes into the new file, and moves it to the target. Where one of these fails, the new file is removed.
fn move_there<R: Files>(
    rt: &R,
    mut file: R::File,
    beside: &str,
    target: &str,
    bytes: &[u8],
) -> Result<(), Unreplaced> {
    let written = file.write_all(bytes);
    drop(file);
    let cause = match written {
        Ok(()) => match fs::rename(rt, beside, target) {
            Ok(()) => return Ok(()),
            Err(error) => cause_of(&error),
        },
        Err(_) => Unreplaced::Fault,
    };
    let _ = fs::remove_file(rt, beside);
    Err(cause)
}

/// What follows where a new file can't be made beside another one, or be moved to its place. The folder may take no
/// new files, the name beside may be too long, and the file may be one that others alone remove or a mounted one.
fn cause_of(error: &io::Error) -> Unreplaced {
    match error.kind() {
        ErrorKind::PermissionDenied
        | ErrorKind::ReadOnlyFilesystem
        | ErrorKind::InvalidFilename
        | ErrorKind::ResourceBusy => Unreplaced::WriteInPlace,
        _ => Unreplaced::Fault,
    }
}
