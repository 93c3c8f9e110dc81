// How much of a folder is read.
ghost use Rattle.std.specs.Prelude.{◌≡◌};
ghost use Rattle.named_files.specs.Finding.{Lists};

use file_access::{Entry, Files};
use std::alloc::Allocator;
use std::io;

/// How many files of a folder are read at most.
pub(crate) const MOST_FILES: usize = 10_000;

/// How many bytes the files have together at most in which names are looked for: with their trees they take some 23
/// times as much memory.
pub(crate) const MOST_BYTES: usize = 1 << 24;

/// How many tokens a file has at most in which names are looked for, ignored ones and bad text among them.
pub(crate) const MOST_TOKENS: usize = 1 << 21;

/// How many errors it has at most.
pub(crate) const MOST_ERRORS: usize = 1000;

// How many folders are looked into at most.
const MOST_FOLDERS: usize = 20_000;

/// Files of which only some folders are listed; the others have nothing.
#[derive(Drop)]
pub(crate) struct Bounded<F> {
    pub files: F,
    folders: usize,
}

impl<F: Files> Bounded<F> {
    /// Before any folder is listed.
    pub(crate) fn new(files: F) -> Self
        ensures { result.files ≡ files }
    {
        Bounded {
            files,
            folders: MOST_FOLDERS,
        }
    }

    /// Has as many folders listed as at the beginning.
    pub(crate) fn begin(&mut self)
        ensures { self.new.files ≡ self.old.files }
    {
        self.folders = MOST_FOLDERS;
    }
}

impl<F: Files> Files for Bounded<F> {
    // nothing is promised of which files are found
    ghost lists = { λ old path listing new. Lists F.lists old.files new.files };

    ghost reads = { λ old path given new. F.reads old.files path given new.files };

    ghost locates = { λ old path given new. F.locates old.files path given new.files };

    ghost omits = { λ old path answer new. F.omits old.files path answer new.files };

    ghost replaces = { λ old path text is_done new. F.replaces old.files path text is_done new.files };

    fn list<A: Allocator + Copy>(
        &mut self,
        alloc: A,
        path: &str,
    ) -> io::Result<Option<Vec<Entry<A>, A>>> {
        if self.folders == 0 {
            return Ok(Some(Vec::new(alloc)));
        }
        self.folders -= 1;
        self.files.list(alloc, path)
    }

    fn read<A: Allocator>(&mut self, alloc: A, path: &str) -> io::Result<Vec<u8, A>> {
        self.files.read(alloc, path)
    }

    fn read_up_to<A: Allocator>(
        &mut self,
        alloc: A,
        path: &str,
        most: usize,
    ) -> io::Result<Vec<u8, A>> {
        self.files.read_up_to(alloc, path, most)
    }

    fn locate<A: Allocator + Copy>(&mut self, alloc: A, path: &str) -> io::Result<String<A>> {
        self.files.locate(alloc, path)
    }

    fn leaves_out<A: Allocator + Copy>(&mut self, alloc: A, path: &str) -> io::Result<bool> {
        self.files.leaves_out(alloc, path)
    }

    fn replace(&mut self, path: &str, text: &str) -> io::Result<()> {
        self.files.replace(path, text)
    }

    fn copy_path<A: Allocator>(&self, alloc: A, path: &str) -> io::Result<Option<String<A>>> {
        self.files.copy_path(alloc, path)
    }
}
