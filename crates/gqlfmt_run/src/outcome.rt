// How formatting a text ends.
ghost use Rattle.std.specs.Prelude.{◌≡◌};
ghost use Rattle.gqlfmt_run.specs.Complaints.{SaysFault, SaysFileFault};
ghost use Rattle.gqlfmt_run.specs.Status.{status_of};

use crate::command::PROGRAM;
use crate::report::tell_of_copy;
use crate::settlement::Settled;
use byte_streams::{Fault, Sink};
use command_lines::complaints::{FileFault, tell, tell_of_file};
use file_access::Files;
use std::alloc::Allocator;

// The status that the program ends with for this text alone.
fn status_of<E>(ended: &Result<Settled, E>) -> u8
    ensures { result ≡ status_of ended.now }
{
    match ended {
        Ok(Settled::Done) => 0,
        Ok(Settled::Found) => 1,
        Ok(Settled::Refused) | Err(_) => 2,
    }
}

/// Tells why standard input was not formatted, if it was not, and gives the status for it.
pub fn end<A: Allocator, E: Sink>(
    alloc: A,
    complaints: &mut E,
    name: &str,
    ended: &Result<Settled, Fault>,
) -> u8
    ensures says { SaysFault name.now ended.now (E.account complaints.old) (E.account complaints.new) }
    ensures counted { result ≡ status_of ended.now }
{
    if let Err(fault) = ended {
        tell(alloc, PROGRAM, complaints, name, *fault);
    }
    status_of(ended)
}

/// Tells why the file at a path was not formatted, if it was not, and which copy of it is there; and gives the status
/// for it.
pub fn end_of_file<A: Allocator + Copy, F: Files, E: Sink>(
    alloc: A,
    files: &F,
    complaints: &mut E,
    path: &str,
    ended: &Result<Settled, FileFault>,
) -> u8
    ensures says { SaysFileFault path.now ended.now (E.account complaints.old) (E.account complaints.new) }
    ensures counted { result ≡ status_of ended.now }
{
    if let Err(fault) = ended {
        tell_of_file(alloc, PROGRAM, complaints, path, fault);
        tell_of_copy(alloc, files, complaints, path, fault);
    }
    status_of(ended)
}
