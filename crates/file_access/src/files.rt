// Files and folders.
ghost use Rattle.std.specs.Prelude.{ℕ, List, Bool, Result, is_ok, IfOk, IfSome};
ghost use Rattle.std.specs.declared.io.Error.{Error};
ghost use Rattle.file_access.specs.Listing.{AreInOrder, Listing, listing_of};
ghost use Rattle.file_access.specs.Reading.{bytes_of, text_of};

use crate::entries::Entry;
use std::alloc::Allocator;
use std::io;

/// Files by their paths, to read and to replace, and the folders that have them.
pub trait Files {
    // the outcome of a call of `list` at a path: what it gives, and what is left
    ghost lists: { Self → List ℕ → Listing → Self → Type 0 };

    // the outcome of a call of `read` at a path: the bytes that it gives or the error, and what is left
    ghost reads: { Self → List ℕ → Result (List ℕ) Error → Self → Type 0 };

    // the outcome of a call of `locate` at a path: the path that it gives or the error, and what is left
    ghost locates: { Self → List ℕ → Result (List ℕ) Error → Self → Type 0 };

    // the outcome of a call of `leaves_out` at a path: its answer or the error, and what is left
    ghost omits: { Self → List ℕ → Result Bool Error → Self → Type 0 };

    // the outcome of a call of `replace` at a path with a text: whether it was done, and what is left
    ghost replaces: { Self → List ℕ → List ℕ → Bool → Self → Type 0 };

    /// What the folder at a path has, in the bytewise order of the names, or nothing where no folder is there. A
    /// symbolic link at the path is followed.
    fn list<A: Allocator + Copy>(
        &mut self,
        alloc: A,
        path: &str,
    ) -> io::Result<Option<Vec<Entry<A>, A>>>
        ensures lists { lists self.old path.now (listing_of result) self.new }
        ensures ordered { IfOk result (λ found. IfSome found (λ entries. AreInOrder entries.items)) };

    /// All bytes of the file at a path. Where no file is there, the error is of the kind `NotFound`.
    fn read<A: Allocator>(&mut self, alloc: A, path: &str) -> io::Result<Vec<u8, A>>
        ensures { reads self.old path.now (bytes_of result) self.new };

    /// The same of a file with at most `most` bytes. A longer one is not read, and the error is of the kind
    /// `FileTooLarge`.
    fn read_up_to<A: Allocator>(
        &mut self,
        alloc: A,
        path: &str,
        most: usize,
    ) -> io::Result<Vec<u8, A>>
        ensures { reads self.old path.now (bytes_of result) self.new };

    /// The path of the file or folder at a path, from the root on and without symbolic links.
    fn locate<A: Allocator + Copy>(&mut self, alloc: A, path: &str) -> io::Result<String<A>>
        ensures { locates self.old path.now (text_of result) self.new };

    /// Whether the file or folder at a path is left alone, though it is named.
    fn leaves_out<A: Allocator + Copy>(&mut self, alloc: A, path: &str) -> io::Result<bool>
        ensures { omits self.old path.now result self.new };

    /// Gives the file at a path this text, or leaves its own as it is. Where an error keeps it from both, a copy has
    /// the file's own text.
    fn replace(&mut self, path: &str, text: &str) -> io::Result<()>
        ensures { replaces self.old path.now text.now (is_ok result) self.new };

    /// The path of the copy that `replace` makes of the file at a path before it changes that, if the copy is there:
    /// while a call is at work, or after one that was cut off or left it.
    fn copy_path<A: Allocator>(&self, alloc: A, path: &str) -> io::Result<Option<String<A>>>;
}
