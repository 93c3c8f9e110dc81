// Files without those that are left out.
ghost use Rattle.std.specs.Prelude.{◌≡◌, [], IfOk, IfSome};
ghost use Rattle.file_access.specs.Listing.{AreInOrder, listing_of};
ghost use Rattle.ignore_rules.specs.Ignored.{as_rules};
ghost use Rattle.unignored_files.specs.Unignored.{IsLeftOut, Sifts};

use crate::above::{add_above, climb};
use crate::ignore_file::add_folder;
use crate::kept_entries::sift;
use file_access::{Entry, Files};
use ignore_rules::Rules;
use std::alloc::Allocator;
use std::io::{self, ErrorKind};

/// Files, but for those that ignore files leave out. `leaves_out` reads the ignore files above a path, and `list` those
/// of a folder before it gives what is left of its entries. All else is as the files have it.
#[derive(Drop)]
pub struct Unignored<F, A: Allocator> {
    alloc: A,
    files: F,
    // those of the ignore files that were read since `leaves_out` was called last
    rules: Rules<A>,
}

impl<F: Files, A: Allocator + Copy> Unignored<F, A> {
    /// These files, before any ignore file is read.
    pub fn new(alloc: A, files: F) -> Self
        ensures files { result.files ≡ files }
        ensures rules { as_rules result.rules ≡ [] }
    {
        Unignored {
            alloc,
            files,
            rules: Rules::new(alloc),
        }
    }
}

impl<F: Files, A: Allocator + Copy> Files for Unignored<F, A> {
    ghost lists = { λ old path listing new.
        Sifts F.lists F.locates F.reads path (as_rules old.rules) old.files listing (as_rules new.rules) new.files };

    ghost reads = { λ old path given new. F.reads old.files path given new.files };

    ghost locates = { λ old path given new. F.locates old.files path given new.files };

    ghost omits = { λ old path answer new. IsLeftOut F.lists F.locates F.reads path answer (as_rules new.rules)
        old.files new.files };

    ghost replaces = { λ old path text is_done new. F.replaces old.files path text is_done new.files };

    fn list<B: Allocator + Copy>(
        &mut self,
        alloc: B,
        path: &str,
    ) -> io::Result<Option<Vec<Entry<B>, B>>>
        ensures lists { Sifts F.lists F.locates F.reads path.now (as_rules self.old.rules) self.old.files
            (listing_of result) (as_rules self.new.rules) self.new.files }
        ensures ordered { IfOk result (λ found. IfSome found (λ entries. AreInOrder entries.items)) }
    {
        let Some(entries) = self.files.list(alloc, path)? else {
            return Ok(None);
        };
        let folder = self.files.locate(alloc, path)?;
        add_folder(
            self.alloc,
            &mut self.files,
            &mut self.rules,
            folder.as_str(),
            true,
        )?;
        let kept = sift(alloc, &self.rules, folder.as_str(), entries)?;
        Ok(Some(kept))
    }

    fn read<B: Allocator>(&mut self, alloc: B, path: &str) -> io::Result<Vec<u8, B>> {
        self.files.read(alloc, path)
    }

    fn read_up_to<B: Allocator>(
        &mut self,
        alloc: B,
        path: &str,
        most: usize,
    ) -> io::Result<Vec<u8, B>> {
        self.files.read_up_to(alloc, path, most)
    }

    fn locate<B: Allocator + Copy>(&mut self, alloc: B, path: &str) -> io::Result<String<B>> {
        self.files.locate(alloc, path)
    }

    fn leaves_out<B: Allocator + Copy>(&mut self, alloc: B, path: &str) -> io::Result<bool>
        ensures { IsLeftOut F.lists F.locates F.reads path.now result (as_rules self.new.rules)
            self.old.files self.new.files }
    {
        self.rules = Rules::new(self.alloc);
        let real = match self.files.locate(alloc, path) {
            Ok(real) => real,
            Err(error) => match error.kind() {
                ErrorKind::NotFound | ErrorKind::NotADirectory => return Ok(false),
                _ => return Err(error),
            },
        };
        let above = climb(self.alloc, &mut self.files, real.as_str())?;
        add_above(self.alloc, &mut self.files, &mut self.rules, above)?;
        let is_folder = self.files.list(alloc, path)?.is_some();
        let is_left_out = self.rules.ignore(real.as_str(), is_folder)?;
        Ok(is_left_out)
    }

    fn replace(&mut self, path: &str, text: &str) -> io::Result<()> {
        self.files.replace(path, text)
    }

    fn copy_path<B: Allocator>(&self, alloc: B, path: &str) -> io::Result<Option<String<B>>> {
        self.files.copy_path(alloc, path)
    }
}
