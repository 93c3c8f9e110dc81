// Finding the files below a folder.
ghost use Rattle.std.specs.Prelude.{◌≡◌, ◌++◌, [], ◌∷◌, map, IfOk, OnOk, option_map, string_bytes};
ghost use Rattle.std.specs.List.{cons_option, filter_map};
ghost use Rattle.file_access.specs.Listing.{as_entry};
ghost use Rattle.named_files.specs.Finding.{Finds, IsNamed, Lists, as_named, folder, named, path_of, found_path_in};
ghost use Rattle.named_files.specs.Finding.{found_path_of};
ghost use Rattle.named_files.specs.Search.{Advances, as_found_path, found_by, waiting_of};

use crate::names::{is_graphql, is_hidden, is_of_others, path_in};
use file_access::{Entry, Files, Kind};
use std::alloc::{AllocError, Allocator};
use std::io::{self, ErrorKind};

/// What a path names.
#[derive(Drop)]
pub enum Named<A: Allocator> {
    /// The path of a file.
    File(String<A>),
    /// A path where no file or no folder could be read, and why.
    Failed(String<A>, io::Error),
}

impl<A: Allocator> Named<A> {
    /// The path.
    pub fn path(&self) -> &str
        ensures { result.now ≡ path_of (as_named self.now) }
    {
        match self {
            Named::File(path) | Named::Failed(path, _) => path.as_str(),
        }
    }
}

// A path that is still to be looked at.
#[derive(Drop)]
enum FoundPath<A: Allocator> {
    File(String<A>),
    // of a folder, or where nothing is known of it
    Folder(String<A>),
    Failed(String<A>, io::Error),
}

// What has this path and name, if it is looked at.
fn found_path_of<A: Allocator>(path: String<A>, name: &str, kind: Kind) -> Option<FoundPath<A>>
    ensures { option_map as_found_path result ≡ found_path_of (string_bytes path) name.now kind }
{
    match kind {
        Kind::File if is_graphql(name) => Some(FoundPath::File(path)),
        Kind::Folder if !is_of_others(name) => Some(FoundPath::Folder(path)),
        Kind::Failed(error) => Some(FoundPath::Failed(path, error)),
        Kind::File | Kind::Folder | Kind::Other => None,
    }
}

// The path of an entry of a folder, if it is looked at.
fn found_path_in<A: Allocator + Copy, B: Allocator>(
    alloc: A,
    folder: &str,
    entry: &Entry<B>,
) -> Result<Option<FoundPath<A>>, AllocError>
    ensures { IfOk result (λ found_path. option_map as_found_path found_path
        ≡ found_path_in folder.now (as_entry entry.now)) }
{
    let name = entry.name.as_str();
    if is_hidden(name) {
        return Ok(None);
    }
    let path = path_in(alloc, folder, name)?;
    Ok(found_path_of(path, name, entry.kind))
}

// What is found, and the paths that wait to be looked at, the next one last.
#[derive(Drop)]
struct Search<A: Allocator> {
    alloc: A,
    waiting: Vec<FoundPath<A>, A>,
    found: Vec<Named<A>, A>,
}

impl<A: Allocator + Copy> Search<A> {
    // Before it looks at the path that it begins with.
    #[tactic(auto, using(crate::proofs::SearchLemmas::reverse_more))]
    fn from(alloc: A, path: &str) -> Result<Search<A>, AllocError>
        ensures waiting { IfOk result (λ search. waiting_of search ≡ folder path.now ∷ []) }
        ensures found { IfOk result (λ search. found_by search ≡ []) }
    {
        let path = String::from_str(alloc, path)?;
        let mut waiting = Vec::new(alloc);
        waiting.push(FoundPath::Folder(path))?;
        Ok(Search {
            alloc,
            waiting,
            found: Vec::new(alloc),
        })
    }

    // Has an entry of a folder looked at next.
    #[tactic(auto, using(crate::proofs::SearchLemmas::reverse_more))]
    fn put(&mut self, folder: &str, entry: &Entry<A>) -> Result<(), AllocError>
        ensures waiting { OnOk result (waiting_of self.new
            ≡ cons_option (found_path_in folder.now (as_entry entry.now)) (waiting_of self.old)) }
        ensures found { found_by self.new ≡ found_by self.old }
    {
        if let Some(found_path) = found_path_in(self.alloc, folder, entry)? {
            self.waiting.push(found_path)?;
        }
        Ok(())
    }

    // Has the entries of a folder looked at next.
    #[tactic(auto, using(crate::proofs::SearchLemmas::filter_map_last))]
    fn put_all(&mut self, folder: &str, mut entries: Vec<Entry<A>, A>) -> Result<(), AllocError>
        ensures waiting { OnOk result (waiting_of self.new
            ≡ filter_map (found_path_in folder.now) (map as_entry entries.items) ++ waiting_of self.old) }
        ensures found { found_by self.new ≡ found_by self.old }
    {
        while let Some(entry) = entries.pop() {
            self.put(folder, &entry)?;
        }
        Ok(())
    }

    // Adds what is found.
    fn add(&mut self, named: Named<A>) -> Result<(), AllocError>
        ensures waiting { waiting_of self.new ≡ waiting_of self.old }
        ensures found { OnOk result (found_by self.new ≡ found_by self.old ++ as_named named ∷ []) }
    {
        self.found.push(named)?;
        Ok(())
    }

    // Looks at a path: adds what is found there, or has the entries of a folder looked at next.
    fn look<F: Files>(&mut self, files: &mut F, found_path: FoundPath<A>) -> Result<(), AllocError>
        ensures ok { OnOk result
            (Advances F.lists (as_found_path found_path ∷ waiting_of self.old) (found_by self.old) files.old
            (waiting_of self.new) (found_by self.new) files.new) }
        ensures lists { Lists F.lists files.old files.new }
    {
        match found_path {
            FoundPath::File(path) => self.add(Named::File(path)),
            FoundPath::Failed(path, error) => self.add(Named::Failed(path, error)),
            FoundPath::Folder(path) => match files.list(self.alloc, path.as_str()) {
                Ok(Some(entries)) => self.put_all(path.as_str(), entries),
                Ok(None) => self.add(Named::File(path)),
                Err(error) => self.add(Named::Failed(path, error)),
            },
        }
    }
}

// What is found at a path and below it.
fn find<F: Files, A: Allocator + Copy>(
    alloc: A,
    files: &mut F,
    path: &str,
) -> Result<Vec<Named<A>, A>, AllocError>
    ensures ok { IfOk result
        (λ found. Finds F.lists (folder path.now ∷ []) (map as_named found.items) files.old files.new) }
    ensures lists { Lists F.lists files.old files.new }
{
    let mut search = Search::from(alloc, path)?;
    for _ in 0..u64::MAX {
        let Some(found_path) = search.waiting.pop() else {
            return Ok(search.found);
        };
        search.look(files, found_path)?;
    }
    // never reached: no memory has room for 2^64 paths
    Err(AllocError)
}

// Where nothing is found, the path counts as unreadable.
fn or_failed<A: Allocator + Copy>(
    alloc: A,
    path: &str,
    mut found: Vec<Named<A>, A>,
) -> Result<Vec<Named<A>, A>, AllocError>
    ensures { IfOk result (λ it. map as_named it.items ≡ named path.now (map as_named found.items)) }
{
    if found.len() != 0 {
        return Ok(found);
    }
    let path = String::from_str(alloc, path)?;
    let error = io::Error::new(ErrorKind::NotFound, "no GraphQL files are there");
    found.push(Named::Failed(path, error))?;
    Ok(found)
}

/// The files that a path names: its own, or the GraphQL files below a folder in the order of their paths, one name
/// after the other. What could not be read is among them, and the path itself where there are none. Hidden names,
/// `node_modules` and symbolic links below the folder are left out.
pub fn named_files<F: Files, A: Allocator + Copy>(
    alloc: A,
    files: &mut F,
    path: &str,
) -> Result<Vec<Named<A>, A>, AllocError>
    ensures ok { IfOk result (λ found. IsNamed F.lists path.now (map as_named found.items) files.old files.new) }
    ensures lists { Lists F.lists files.old files.new }
{
    let found = find(alloc, files, path)?;
    let found = or_failed(alloc, path, found)?;
    Ok(found)
}
