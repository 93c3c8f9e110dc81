// Reading the files that paths of the command line name.
ghost use Rattle.std.specs.Prelude.{◌≡◌, option_map};
ghost use Rattle.command_lines.specs.Words.{texts};
ghost use Rattle.named_files.specs.Handling.{InTurn};
ghost use Rattle.gqlcheck_run.specs.Inputs.{as_texts};
ghost use Rattle.gqlcheck_run.specs.Reading.{ReadsNamed, ReadsPath};

use crate::command::PROGRAM;
use crate::files::read_files;
use crate::inputs::Texts;
use byte_streams::{Fault, Sink};
use command_lines::complaints::{FileFault, tell, tell_of_file};
use file_access::Files;
use named_files::named_files;
use std::alloc::Allocator;

// Reads the files that a path names, and gives the greatest of their statuses.
fn read_named<A: Allocator + Copy, F: Files, E: Sink>(
    alloc: A,
    files: &mut F,
    complaints: &mut E,
    kept: &mut Texts<A>,
    path: &str,
) -> u8
    ensures { ReadsNamed F.lists F.reads path.now result
        (record { files = files.old; complaints = E.account complaints.old; texts = as_texts kept.old })
        (record { files = files.new; complaints = E.account complaints.new; texts = as_texts kept.new }) }
{
    match named_files(alloc, files, path) {
        Ok(found) => read_files(alloc, files, complaints, kept, found.as_slice()),
        Err(_) => {
            tell(alloc, PROGRAM, complaints, path, Fault::Memory);
            2
        }
    }
}

// Does that unless what is at the path is left out.
fn read_path<A: Allocator + Copy, F: Files, E: Sink>(
    alloc: A,
    files: &mut F,
    complaints: &mut E,
    kept: &mut Texts<A>,
    path: &str,
) -> u8
    ensures { ReadsPath F.lists F.omits F.reads path.now result
        (record { files = files.old; complaints = E.account complaints.old; texts = as_texts kept.old })
        (record { files = files.new; complaints = E.account complaints.new; texts = as_texts kept.new }) }
{
    match files.leaves_out(alloc, path) {
        Ok(true) => 0,
        Ok(false) => read_named(alloc, files, complaints, kept, path),
        Err(error) => {
            let fault = FileFault::NotRead(error);
            tell_of_file(alloc, PROGRAM, complaints, path, &fault);
            2
        }
    }
}

/// Reads the files that these paths name in order, without those that `files` leaves out, also after one that is not
/// read. Adds their texts, and gives the greatest of their statuses, of which each is 0 or 2.
pub fn read_paths<A: Allocator + Copy, F: Files, E: Sink>(
    alloc: A,
    files: &mut F,
    complaints: &mut E,
    kept: &mut Texts<A>,
    paths: &[&str],
) -> u8
    ensures { InTurn (ReadsPath F.lists F.omits F.reads) (texts paths.now) result
        (record { files = files.old; complaints = E.account complaints.old; texts = as_texts kept.old })
        (record { files = files.new; complaints = E.account complaints.new; texts = as_texts kept.new }) }
{
    let mut status = 0;
    for path in paths {
        let one = read_path(alloc, files, complaints, kept, path);
        status = status.max(one);
    }
    status
}
