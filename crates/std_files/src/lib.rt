//! The files of a runtime, as `gqlfmt` finds, reads and replaces them and `gqlcheck` and `gqlls` find and read them.
//! They hand `StdFiles` to their `run`.
//!
//! A file is replaced by writing over it, so that it stays the same file, after a copy of its text is stored beside it
//! under a hidden name. Where that fails, the old text is written back; the copy stays only where this fails too, where
//! another program writes at the same time, or where the program is ended in between. The next run removes it if the
//! file has all of it. A file that has changed since it was read is left as it is.
#![tactic(auto)]

ghost use Rattle.std.specs.Prelude.{◌≡◌, None};

mod copies;
mod entries;
mod locations;
mod replacement;
mod state;

use copies::{Beside, copy_path, is_file};
use entries::{entries_of, not_utf8};
use file_access::{Entry, Files};
use locations::located;
use replacement::{is_alone, open_writable, overwrite, readable, restore};
use state::State;
use std::alloc::Allocator;
use std::fs::{File, OpenFile};
use std::io::{Error, ErrorKind, Read};
use std::path::Path;
use std::{fs, io, rt};

/// The files that a runtime reaches.
#[derive(Drop)]
pub struct StdFiles<'a, R> {
    runtime: &'a R,
    // whether pipes and devices are read too
    any: bool,
    // the file that was read last, as it was then
    seen: Option<State>,
}

impl<'a, R> StdFiles<'a, R> {
    /// The regular files of this runtime.
    pub fn new(runtime: &'a R) -> Self
        ensures { result.runtime ≡ runtime.entry }
    {
        StdFiles {
            runtime,
            any: false,
            seen: None,
        }
    }

    /// All files of this runtime, pipes and devices among them.
    pub fn any(runtime: &'a R) -> Self
        ensures { result.runtime ≡ runtime.entry }
    {
        StdFiles {
            runtime,
            any: true,
            seen: None,
        }
    }
}

impl<'a, R: rt::Files<File = File> + Alloc> StdFiles<'a, R> {
    // Fails where a file is not as it was when it was read.
    fn check_unchanged(&self, file: &File) -> io::Result<()> {
        if self.seen == Some(State::of(&file.metadata()?)) {
            Ok(())
        } else {
            Err(Error::new(ErrorKind::Other, "it has changed since it was read"))
        }
    }

    // Stores the text that was read of a file in a copy, which has its name from then on.
    fn save(&self, file: &mut File, copy: &mut File, beside: &Beside<R::A>) -> io::Result<()> {
        self.check_unchanged(file)?;
        io::copy(file, copy)?;
        copy.sync_all()?;
        self.check_unchanged(file)?;
        fs::rename(
            self.runtime,
            beside.unstored.as_path(),
            beside.copy.as_path(),
        )
    }

    // Writes a text over a file's, of which there is a copy in the meantime. If it cannot, it writes the old one back.
    // Where this fails too, or another program writes at the same time, the copy stays.
    fn write(&self, target: Path<'_>, text: &str) -> io::Result<()> {
        let mut file = open_writable(self.runtime, target)?;
        let is_alone = is_alone(&file)?;
        let had = file.metadata()?;
        let beside = Beside::of(self.runtime, target)?;
        if is_alone {
            beside.clear(self.runtime, &mut file)?;
        }
        let mut copy = beside.create(self.runtime)?;
        if let Err(error) = self.save(&mut file, &mut copy, &beside) {
            let _ = fs::remove_file(self.runtime, beside.unstored.as_path());
            return Err(error);
        }
        let written = match overwrite(&mut file, &had, text) {
            Ok(true) => Ok(()),
            Ok(false) => {
                return Err(Error::new(
                    ErrorKind::Other,
                    "another program has changed it at the same time",
                ));
            }
            Err(error) => Err(error),
        };
        if written.is_err() && restore(&mut file, &had, &mut copy).is_err() {
            return written;
        }
        let removed = fs::remove_file(self.runtime, beside.copy.as_path());
        written.and(removed)
    }
}

impl<'a, R: rt::Files<File = File> + Alloc + Clone + Drop> Files for StdFiles<'a, R> {
    ghost use Rattle.std.specs.Prelude.{⊤};

    // nothing is stated about the file system
    ghost lists = { λ old path given new. ⊤ };

    ghost reads = { λ old path given new. ⊤ };

    ghost locates = { λ old path given new. ⊤ };

    ghost omits = { λ old path given new. ⊤ };

    ghost replaces = { λ old path text done new. ⊤ };

    fn list<A: Allocator + Copy>(
        &mut self,
        alloc: A,
        path: &str,
    ) -> io::Result<Option<Vec<Entry<A>, A>>> {
        entries_of(self.runtime, alloc, path)
    }

    fn read<A: Allocator>(&mut self, alloc: A, path: &str) -> io::Result<Vec<u8, A>> {
        self.read_up_to(alloc, path, usize::MAX)
    }

    fn read_up_to<A: Allocator>(
        &mut self,
        alloc: A,
        path: &str,
        most: usize,
    ) -> io::Result<Vec<u8, A>> {
        if path.contains('\0') {
            return Err(not_utf8());
        }
        if !self.any {
            readable(self.runtime, Path::new(path))?;
        }
        let mut file = File::open(self.runtime, path)?;
        let metadata = file.metadata()?;
        if metadata.len() > most as u64 {
            return Err(Error::from(ErrorKind::FileTooLarge));
        }
        self.seen = Some(State::of(&metadata));
        let mut bytes = Vec::new(alloc);
        file.read_to_end(&mut bytes)?;
        Ok(bytes)
    }

    fn locate<A: Allocator + Copy>(&mut self, alloc: A, path: &str) -> io::Result<String<A>> {
        if path.contains('\0') {
            return Err(not_utf8());
        }
        located(self.runtime, alloc, path)
    }

    // no file is left alone
    fn leaves_out<A: Allocator + Copy>(&mut self, _alloc: A, _path: &str) -> io::Result<bool> {
        Ok(false)
    }

    fn replace(&mut self, path: &str, text: &str) -> io::Result<()> {
        let target = fs::canonicalize(self.runtime, path)?;
        self.write(target.as_path(), text)
    }

    fn copy_path<A: Allocator>(&self, alloc: A, path: &str) -> io::Result<Option<String<A>>> {
        let target = fs::canonicalize(self.runtime, path)?;
        let copy = copy_path(self.runtime, alloc, target.as_path())?;
        if is_file(self.runtime, copy.as_path())? {
            Ok(Some(copy.into_string()))
        } else {
            Ok(None)
        }
    }
}
