// Reading the files that were found.
ghost use Rattle.std.specs.Prelude.{◌≡◌, map};
ghost use Rattle.named_files.specs.Finding.{as_named};
ghost use Rattle.named_files.specs.Handling.{InTurn};
ghost use Rattle.gqlcheck_run.specs.Inputs.{as_texts};
ghost use Rattle.gqlcheck_run.specs.Reading.{KeepsFile, KeepsFound, KeepsOnce, ReadsFound};

use crate::inputs::{Texts, keep};
use crate::outcome::end_of_file;
use byte_streams::Sink;
use command_lines::complaints::FileFault;
use file_access::Files;
use named_files::Named;
use std::alloc::Allocator;

// Adds the text of the file at a path.
fn keep_file<A: Allocator + Copy, F: Files>(
    alloc: A,
    files: &mut F,
    kept: &mut Texts<A>,
    path: &str,
) -> Result<(), FileFault>
    ensures { KeepsFile F.reads path.now result files.old files.new
        (as_texts kept.old) (as_texts kept.new) }
{
    match files.read(alloc, path) {
        Ok(bytes) => {
            kept.mark(alloc, path)?;
            keep(alloc, &mut kept.inputs, path, bytes)?;
            Ok(())
        }
        Err(error) => Err(FileFault::NotRead(error)),
    }
}

// Does that, unless the file was read before.
fn keep_once<A: Allocator + Copy, F: Files>(
    alloc: A,
    files: &mut F,
    kept: &mut Texts<A>,
    path: &str,
) -> Result<(), FileFault>
    ensures { KeepsOnce F.reads ((as_texts kept.old).was_read path.now) path.now result files.old files.new
        (as_texts kept.old) (as_texts kept.new) }
{
    if kept.was_read(path) {
        return Ok(());
    }
    keep_file(alloc, files, kept, path)
}

// Reads the file that was found, if it is one, and keeps its text.
fn keep_found<A: Allocator + Copy, F: Files>(
    alloc: A,
    files: &mut F,
    kept: &mut Texts<A>,
    named: &Named<A>,
) -> Result<(), FileFault>
    ensures { KeepsFound F.reads (as_named named.now) result files.old files.new
        (as_texts kept.old) (as_texts kept.new) }
{
    match named {
        Named::File(path) => keep_once(alloc, files, kept, path.as_str()),
        Named::Failed(_, error) => Err(FileFault::NotRead(*error)),
    }
}

// Does that, or tells why not. The status is 0 or 2.
fn read_found<A: Allocator + Copy, F: Files, E: Sink>(
    alloc: A,
    files: &mut F,
    complaints: &mut E,
    kept: &mut Texts<A>,
    named: &Named<A>,
) -> u8
    ensures { ReadsFound F.reads (as_named named.now) result
        (record { files = files.old; complaints = E.account complaints.old; texts = as_texts kept.old })
        (record { files = files.new; complaints = E.account complaints.new; texts = as_texts kept.new }) }
{
    let ended = keep_found(alloc, files, kept, named);
    end_of_file(alloc, complaints, named.path(), &ended)
}

/// Reads the files that were found in order, each once, also after one that is not read, and gives the greatest of
/// their statuses.
pub fn read_files<A: Allocator + Copy, F: Files, E: Sink>(
    alloc: A,
    files: &mut F,
    complaints: &mut E,
    kept: &mut Texts<A>,
    found: &[Named<A>],
) -> u8
    ensures { InTurn (ReadsFound F.reads) (map as_named found.now) result
        (record { files = files.old; complaints = E.account complaints.old; texts = as_texts kept.old })
        (record { files = files.new; complaints = E.account complaints.new; texts = as_texts kept.new }) }
{
    let mut status = 0;
    for named in found {
        let one = read_found(alloc, files, complaints, kept, named);
        status = status.max(one);
    }
    status
}
