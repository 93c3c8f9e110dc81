// Where a file is.
use std::alloc::Allocator;
use std::io::ErrorKind;
use std::path::{Path, PathBuf};
use std::{io, rt};

// The path of a name in the folder of a path, whether the name is there or not.
fn located_name<R: rt::Files, A: Allocator + Copy>(
    runtime: &R,
    alloc: A,
    path: Path<'_>,
) -> io::Result<PathBuf<A>> {
    let name = path.file_name().ok_or(ErrorKind::NotFound)?;
    let folder = match path.parent() {
        Some(folder) if folder.as_str() != "" => folder,
        _ => Path::new("."),
    };
    let mut located = runtime.canonicalize(alloc, folder.as_str())?;
    located.push(name)?;
    Ok(located)
}

/// The path of the file or folder at a path, from the root on and without symbolic links. Where nothing is there, it is
/// the one of its name in its folder.
pub fn located<R: rt::Files, A: Allocator + Copy>(
    runtime: &R,
    alloc: A,
    path: &str,
) -> io::Result<String<A>> {
    let located = match runtime.canonicalize(alloc, path) {
        Err(error) if error.kind() == ErrorKind::NotFound => {
            located_name(runtime, alloc, Path::new(path))?
        }
        located => located?,
    };
    Ok(located.into_string())
}
