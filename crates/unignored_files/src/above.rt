// The folders above a path.
ghost use Rattle.std.specs.Prelude.{◌≡◌, IfErr, IfOk, OnOk};
ghost use Rattle.std.specs.Path.{path_bytes};
ghost use Rattle.ignore_rules.specs.Ignored.{as_rules};
ghost use Rattle.unignored_files.specs.Above.{Climbs, Probes, folders_of};
ghost use Rattle.unignored_files.specs.Reading.{Adds, FailsToAdd, IsMemory, files_of_all};

use crate::ignore_file::add_folder;
use file_access::Files;
use ignore_rules::Rules;
use std::alloc::Allocator;
use std::io::{self, ErrorKind};
use std::path::Path;

/// The folders above a path whose ignore files count, the nearest first, and whether they are in a repository.
#[derive(Drop)]
pub struct Above<A: Allocator> {
    folders: Vec<String<A>, A>,
    is_repository: bool,
}

// Whether a folder is the top of a repository. No bytes are read.
fn is_top<F: Files, A: Allocator + Copy>(
    alloc: A,
    files: &mut F,
    folder: Path<'_>,
) -> io::Result<bool>
    ensures ok { IfOk result (λ it. Probes F.reads (path_bytes folder.entry) it files.old files.new) }
    ensures err { IfErr result IsMemory }
{
    let path = folder.join(alloc, ".git")?;
    match files.read_up_to(alloc, path.as_str(), 0) {
        Ok(_) => Ok(true),
        Err(error) => match error.kind() {
            ErrorKind::NotFound | ErrorKind::NotADirectory => Ok(false),
            ErrorKind::OutOfMemory => Err(error),
            _ => Ok(true),
        },
    }
}

/// The folders above a path, as far as their ignore files count.
pub fn climb<F: Files, A: Allocator + Copy>(
    alloc: A,
    files: &mut F,
    path: &str,
) -> io::Result<Above<A>>
    ensures ok { IfOk result
        (λ above. Climbs F.reads path.now (folders_of above) above.is_repository files.old files.new) }
    ensures err { IfErr result IsMemory }
{
    let mut folders = Vec::new(alloc);
    let mut folder = Path::new(path);
    loop {
        if is_top(alloc, files, folder)? {
            return Ok(Above {
                folders,
                is_repository: true,
            });
        }
        let Some(parent) = folder.parent() else {
            return Ok(Above {
                folders,
                is_repository: false,
            });
        };
        folders.push(String::from_str(alloc, parent.as_str())?)?;
        folder = parent;
    }
}

/// Adds the rules of the ignore files in these folders, from the top down.
pub fn add_above<F: Files, A: Allocator + Copy>(
    alloc: A,
    files: &mut F,
    rules: &mut Rules<A>,
    mut above: Above<A>,
) -> io::Result<()>
    ensures ok { OnOk result
        (Adds F.reads (files_of_all above.is_repository (folders_of above)) (as_rules rules.old) (as_rules rules.new)
        files.old files.new) }
    ensures err { IfErr result
        (FailsToAdd F.reads (files_of_all above.is_repository (folders_of above)) (as_rules rules.old)
        files.old files.new) }
{
    while let Some(folder) = above.folders.pop() {
        add_folder(alloc, files, rules, folder.as_str(), above.is_repository)?;
    }
    Ok(())
}
