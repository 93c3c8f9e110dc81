// What a folder has.
ghost use Rattle.std.specs.Prelude.{IfOk, IfSome};
ghost use Rattle.file_access.specs.Listing.{AreInOrder};

use file_access::{Entry, Kind};
use std::alloc::{AllocError, Allocator};
use std::fs::FileType;
use std::io::{Error, ErrorKind, Read};
use std::{fs, io, rt};

fn kind_of(found: FileType) -> Kind {
    if found.is_file() {
        Kind::File
    } else if found.is_dir() {
        Kind::Folder
    } else {
        Kind::Other
    }
}

/// What is wrong with a name that is not UTF-8. Such a word of the command line has a zero byte at its end, which no
/// path has.
pub fn not_utf8() -> Error {
    Error::new(ErrorKind::InvalidFilename, "its name is not UTF-8")
}

// The names in a folder, each with a zero byte at its end.
fn names_of<R: rt::Files + Alloc>(runtime: &R, path: &str) -> io::Result<Vec<u8, R::A>> {
    let path = format!(in runtime.alloc(); "{path}/")?;
    let mut folder = runtime.open_dir(path.as_str())?;
    let mut names = Vec::new(runtime.alloc());
    let mut buffer = [0u8; 4096];
    for _ in 0..u64::MAX {
        let count = folder.read(&mut buffer)?;
        if count == 0 {
            return Ok(names);
        }
        names.extend_from_slice(&buffer[..count])?;
    }
    Err(Error::from(ErrorKind::OutOfMemory))
}

// A name in a folder, and what has it. Symbolic links are not followed.
fn entry_of<R: rt::Files + Alloc, A: Allocator>(
    runtime: &R,
    alloc: A,
    folder: &str,
    bytes: &[u8],
) -> Result<Entry<A>, AllocError> {
    let name = String::from_utf8_lossy(alloc, bytes)?;
    if name.as_bytes() != bytes {
        return Ok(Entry {
            name,
            kind: Kind::Failed(not_utf8()),
        });
    }
    let path = format!(in runtime.alloc(); "{folder}/{name}")?;
    let kind = match fs::symlink_metadata(runtime, path.as_str()) {
        Ok(metadata) => kind_of(metadata.file_type()),
        Err(error) => Kind::Failed(error),
    };
    Ok(Entry { name, kind })
}

// Sorts entries by the bytes of their names.
fn sort<A: Allocator>(entries: &mut Vec<Entry<A>, A>)
    ensures { AreInOrder entries.new.items }
{
    entries.sort_unstable_by(|a, b| a.name.as_str().cmp(b.name.as_str()));
}

/// What the folder at a path has, in the bytewise order of the names, or nothing where no folder is there.
pub fn entries_of<R: rt::Files + Alloc + Clone + Drop, A: Allocator + Copy>(
    runtime: &R,
    alloc: A,
    path: &str,
) -> io::Result<Option<Vec<Entry<A>, A>>>
    ensures { IfOk result (λ found. IfSome found (λ entries. AreInOrder entries.items)) }
{
    match fs::metadata(runtime, path) {
        Ok(metadata) if metadata.is_dir() => {}
        _ => return Ok(None),
    }
    let mut entries = Vec::new(alloc);
    let names = names_of(runtime, path)?;
    for name in names.as_slice().split(|byte| *byte == 0) {
        if !matches!(name, b"" | b"." | b"..") {
            entries.push(entry_of(runtime, alloc, path, name)?)?;
        }
    }
    sort(&mut entries);
    Ok(Some(entries))
}
