// Paths from the root on.
ghost use Rattle.std.specs.Prelude.{◌≡◌, IfOk, OnOk, option_map};
ghost use Rattle.ignore_rules.specs.Paths.{before_names, below, inner_path};

use crate::parts::{SLASH, cut};
use std::alloc::{AllocError, Allocator};

// Adds a name to a path.
fn put_name<A: Allocator>(path: &mut Vec<u8, A>, name: &[u8]) -> Result<(), AllocError>
    ensures { OnOk result (path.new.items ≡ below path.old.items name.now) }
{
    if path.len() != 0 {
        path.push(SLASH)?;
    }
    path.extend_from_slice(name)
}

/// The names of a path, with a slash between them: `/a//./b` is `a/b`. There are none for the root, and where a name is
/// `..`.
pub fn inner_path<A: Allocator>(alloc: A, path: &[u8]) -> Result<Option<Vec<u8, A>>, AllocError>
    ensures { IfOk result (λ inner. option_map (λ it. it.items) inner ≡ inner_path path.now) }
{
    let mut inner = Vec::new(alloc);
    let mut rest = Some(path);
    while let Some(left) = rest {
        let (name, more) = cut(left, SLASH);
        if name == b"..".as_slice() {
            return Ok(None);
        }
        if name.len() != 0 && name != b".".as_slice() {
            put_name(&mut inner, name)?;
        }
        rest = more;
    }
    if inner.len() == 0 {
        return Ok(None);
    }
    Ok(Some(inner))
}

/// What is before the names in a folder: its path with a slash after it, and nothing in the root.
pub fn before_names<A: Allocator + Copy>(alloc: A, folder: &[u8]) -> Result<Vec<u8, A>, AllocError>
    ensures { IfOk result (λ path. path.items ≡ before_names (inner_path folder.now)) }
{
    match inner_path(alloc, folder)? {
        Some(mut path) => {
            path.push(SLASH)?;
            Ok(path)
        }
        None => Ok(Vec::new(alloc)),
    }
}
