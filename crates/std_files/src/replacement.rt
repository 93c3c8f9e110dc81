// Which files are replaced, and the steps: a text is written over the one of a file.
use std::fs::{File, Metadata, OpenFile, OpenOptions, TryLockError};
use std::io::{Error, ErrorKind, Read, Seek, Write};
use std::path::Path;
use std::{fs, io, rt};

/// Whether the file at a path is read. A pipe is refused before it is opened, since that would wait for a writer.
pub fn readable<R: rt::Files>(runtime: &R, path: Path<'_>) -> io::Result<Metadata> {
    let metadata = fs::metadata(runtime, path)?;
    if metadata.is_dir() {
        return Err(Error::from(ErrorKind::IsADirectory));
    }
    if !metadata.is_file() {
        return Err(Error::new(ErrorKind::InvalidInput, "not a regular file"));
    }
    Ok(metadata)
}

/// Opens a file to read and to write, if it is one that may be replaced.
pub fn open_writable<R: rt::Files>(runtime: &R, target: Path<'_>) -> io::Result<R::File> {
    let metadata = readable(runtime, target)?;
    if metadata.permissions().readonly() {
        return Err(Error::new(ErrorKind::PermissionDenied, "read-only"));
    }
    OpenOptions::new()
        .read(true)
        .write(true)
        .open(runtime, target)
}

/// Whether it is known that no other run is at work on a file: it is an error where one is. The lock ends with this
/// run, however that ends. On a file system without locks nothing is known.
pub fn is_alone(file: &File) -> io::Result<bool> {
    match file.try_lock() {
        Ok(()) => Ok(true),
        Err(TryLockError::WouldBlock) => Err(Error::new(
            ErrorKind::WouldBlock,
            "another run is at work on it",
        )),
        Err(TryLockError::Error(_)) => Ok(false),
    }
}

// Waits until a file is stored, with the permissions that it had: writing takes the set-user-ID and set-group-ID bits
// away.
fn store(file: &File, had: &Metadata) -> io::Result<()> {
    if file.metadata()?.permissions() != had.permissions() {
        file.set_permissions(had.permissions())?;
    }
    file.sync_all()
}

// Whether a file has this text.
fn has(file: &mut File, text: &str) -> io::Result<bool> {
    let mut left = text.as_bytes();
    let mut buffer = [0u8; 65536];
    file.rewind()?;
    for _ in 0..u64::MAX {
        let count = file.read(&mut buffer)?;
        if count == 0 {
            return Ok(left.is_empty());
        }
        if !left.starts_with(&buffer[..count]) {
            return Ok(false);
        }
        left = left.get(count..).unwrap_or_default();
    }
    Ok(false)
}

/// Writes a text over a file's, and waits until it is stored. It gives whether the file has it then: another program
/// may write at the same time. A file that this shortens or lengthens before the end of the text is left so.
pub fn overwrite(file: &mut File, had: &Metadata, text: &str) -> io::Result<bool> {
    let size = text.len() as u64;
    file.rewind()?;
    file.write_all(text.as_bytes())?;
    if file.metadata()?.len() != had.len().max(size) {
        return Ok(false);
    }
    if size < had.len() {
        file.set_len(size)?;
    }
    store(file, had)?;
    has(file, text)
}

/// Writes the text of a copy over a file's, and waits until it is stored.
pub fn restore(file: &mut File, had: &Metadata, copy: &mut File) -> io::Result<()> {
    file.rewind()?;
    copy.rewind()?;
    let size = io::copy(copy, file)?;
    file.set_len(size)?;
    store(file, had)
}
