// The copy of a file, beside it under a hidden name.
use std::alloc::{AllocError, Allocator};
use std::fs::{File, OpenOptions};
use std::io::{Error, ErrorKind, Read, Seek};
use std::os::unix::fs::OpenOptionsExt;
use std::path::{Path, PathBuf};
use std::{fs, io, rt};

// How many bytes of a file's name are in the hidden name at most. A name has 255.
const NAME: usize = 200;

// The permissions of a copy. Whoever makes it can read the file, and others might not.
const PRIVATE: u32 = 0o600;

const CUT_OFF: &str = "another run is at work, or was cut off";

// A hidden path beside a file, with its name and this end.
fn hidden_path<A: Allocator, B: Allocator>(
    alloc: A,
    words: B,
    target: Path<'_>,
    end: &str,
) -> Result<PathBuf<A>, AllocError> {
    let name = target.file_name().unwrap_or("");
    let front = name.get(..name.floor_char_boundary(NAME)).unwrap_or("");
    let hidden = format!(in words; ".{front}.{end}")?;
    target.with_file_name(alloc, hidden.as_str())
}

/// The path of the copy of a file, in memory of the allocator's.
pub fn copy_path<R: rt::Files + Alloc, A: Allocator>(
    runtime: &R,
    alloc: A,
    target: Path<'_>,
) -> Result<PathBuf<A>, AllocError> {
    hidden_path(alloc, runtime.alloc(), target, "gqlfmt")
}

/// Whether a file is at a path, and not only a link to one.
pub fn is_file<R: rt::Files>(runtime: &R, path: Path<'_>) -> io::Result<bool> {
    match fs::symlink_metadata(runtime, path) {
        Ok(metadata) => Ok(metadata.is_file()),
        Err(error) if error.kind() == ErrorKind::NotFound => Ok(false),
        Err(error) => Err(error),
    }
}

// Removes the file at a path, if one is there.
fn remove<R: rt::Files>(runtime: &R, path: Path<'_>) -> io::Result<()> {
    match fs::remove_file(runtime, path) {
        Err(error) if error.kind() == ErrorKind::NotFound => Ok(()),
        removed => removed,
    }
}

// Whether a file begins with the text of another one.
fn begins_with<R: rt::Files + Alloc>(
    runtime: &R,
    file: &mut File,
    other: Path<'_>,
) -> io::Result<bool> {
    let front = fs::read(runtime, other)?;
    let mut text = Vec::new(runtime.alloc());
    file.rewind()?;
    file.read_to_end(&mut text)?;
    file.rewind()?;
    Ok(text.as_slice().starts_with(front.as_slice()))
}

/// Where the copy of a file is, and where it is until it is stored.
#[derive(Drop)]
pub struct Beside<A: Allocator> {
    pub copy: PathBuf<A>,
    pub unstored: PathBuf<A>,
}

impl<A: Allocator> Beside<A> {
    /// Beside this file.
    pub fn of<R: rt::Files + Alloc<A = A>>(
        runtime: &R,
        target: Path<'_>,
    ) -> Result<Beside<A>, AllocError> {
        Ok(Beside {
            copy: copy_path(runtime, runtime.alloc(), target)?,
            unstored: hidden_path(runtime.alloc(), runtime.alloc(), target, "gqlfmt-new")?,
        })
    }

    /// Removes what a run that was cut off has left, where no other is at work: a copy that was not stored, before
    /// which nothing was written over the file; and one that the file begins with, which has nothing that the file has
    /// not.
    pub fn clear<R: rt::Files + Alloc>(&self, runtime: &R, file: &mut File) -> io::Result<()> {
        remove(runtime, self.unstored.as_path())?;
        let copy = self.copy.as_path();
        if is_file(runtime, copy)? && begins_with(runtime, file, copy)? {
            remove(runtime, copy)?;
        }
        Ok(())
    }

    /// Makes a new file for the copy, which no other user may read.
    pub fn create<R: rt::Files>(&self, runtime: &R) -> io::Result<R::File> {
        let copy = self.copy.as_path();
        if is_file(runtime, copy)? {
            return Err(Error::new(ErrorKind::AlreadyExists, CUT_OFF));
        }
        if fs::exists(runtime, copy)? {
            return Err(Error::new(ErrorKind::AlreadyExists, "the name of its copy is taken"));
        }
        let created = OpenOptions::new()
            .read(true)
            .write(true)
            .create_new(true)
            .mode(PRIVATE)
            .open(runtime, self.unstored.as_path());
        match created {
            Err(error) if error.kind() == ErrorKind::AlreadyExists => {
                Err(Error::new(ErrorKind::AlreadyExists, CUT_OFF))
            }
            created => created,
        }
    }
}
