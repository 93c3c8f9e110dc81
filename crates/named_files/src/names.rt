// Which names in a folder are looked at, and the paths that they have.
ghost use Rattle.std.specs.Prelude.{◌≡◌, IfOk, string_bytes};
ghost use Rattle.named_files.specs.Names.{is_hidden, is_of_others, is_graphql, path_in};

use std::alloc::{AllocError, Allocator};

/// Whether a name is hidden.
pub fn is_hidden(name: &str) -> bool
    ensures { result ≡ is_hidden name.now }
{
    name.as_bytes().starts_with(b".")
}

/// Whether a folder's name says that package managers fill it.
pub fn is_of_others(name: &str) -> bool
    ensures { result ≡ is_of_others name.now }
{
    name == "node_modules"
}

/// Whether a file's name is one of a GraphQL file.
pub fn is_graphql(name: &str) -> bool
    ensures { result ≡ is_graphql name.now }
{
    let name = name.as_bytes();
    name.ends_with(b".graphql") || name.ends_with(b".graphqls") || name.ends_with(b".gql")
}

/// The path of a name in a folder. In the working folder it is the name. Where a name could not be read, it is the
/// folder's.
pub fn path_in<A: Allocator>(alloc: A, folder: &str, name: &str) -> Result<String<A>, AllocError>
    ensures { IfOk result (λ path. string_bytes path ≡ path_in folder.now name.now) }
{
    if name == "" {
        return String::from_str(alloc, folder);
    }
    if folder == "." {
        return String::from_str(alloc, name);
    }
    let mut path = String::from_str(alloc, folder)?;
    if !folder.as_bytes().ends_with(b"/") {
        path.push_str("/")?;
    }
    path.push_str(name)?;
    Ok(path)
}
