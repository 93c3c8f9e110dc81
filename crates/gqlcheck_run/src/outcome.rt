// How reading a text ends, or writing of it.
ghost use Rattle.std.specs.Prelude.{◌≡◌};
ghost use Rattle.byte_streams.specs.Devices.{Account};
ghost use Rattle.gqlcheck_run.specs.Ending.{Says, SaysOfFile, status_of, verdict_of};

use crate::command::PROGRAM;
use byte_streams::{Fault, Sink};
use command_lines::complaints::{FileFault, tell, tell_of_file};
use std::alloc::Allocator;

/// The status for a text that passes, or does not.
pub fn verdict_of(passes: bool) -> u8
    ensures { result ≡ verdict_of passes }
{
    if passes { 0 } else { 1 }
}

/// Tells why a text was not read, or nothing written of it, if so, and gives the status for that.
pub fn end<A: Allocator, E: Sink>(
    alloc: A,
    complaints: &mut E,
    name: &str,
    ended: &Result<(), Fault>,
) -> u8
    ensures says { Says name.now ended.now (E.account complaints.old) (E.account complaints.new) }
    ensures counted { result ≡ status_of ended.now }
{
    match ended {
        Ok(()) => 0,
        Err(fault) => {
            tell(alloc, PROGRAM, complaints, name, *fault);
            2
        }
    }
}

/// The same of the file at a path.
pub fn end_of_file<A: Allocator + Copy, E: Sink>(
    alloc: A,
    complaints: &mut E,
    path: &str,
    ended: &Result<(), FileFault>,
) -> u8
    ensures says { SaysOfFile path.now ended.now (E.account complaints.old) (E.account complaints.new) }
    ensures counted { result ≡ status_of ended.now }
{
    match ended {
        Ok(()) => 0,
        Err(fault) => {
            tell_of_file(alloc, PROGRAM, complaints, path, fault);
            2
        }
    }
}
