// What a program says of a text that it could not read, or not write about.
ghost use Rattle.std.specs.Prelude.{◌≡◌, ◌++◌, IfOk, codes, string_bytes, ℕ, List};
ghost use Rattle.byte_streams.specs.declared.fault.Fault.TheVariants.{Memory};
ghost use Rattle.command_lines.specs.Complaints.{IsNameOf, Tells, TellsError, TellsOfFile, line_about, reason_of};
ghost use Rattle.command_lines.specs.declared.complaints.FileFault.TheVariants.{Device};

use crate::streams::{say, say_no_memory};
use byte_streams::{Fault, Sink};
use marked_lines::complaint;
use std::alloc::{AllocError, Allocator};
use std::io;

/// Why the text of a file has no outcome.
#[derive(Clone, Copy)]
pub enum FileFault {
    /// The file was not read.
    NotRead(io::Error),
    /// The file was not replaced.
    NotReplaced(io::Error),
    /// A device failed, the text is not UTF-8, or memory was refused.
    Device(Fault),
}

impl From<Fault> for FileFault {
    ghost from_gives = { λ fault it. it ≡ Device fault };

    fn from(fault: Fault) -> FileFault {
        FileFault::Device(fault)
    }
}

impl From<AllocError> for FileFault {
    ghost from_gives = { λ _ it. it ≡ Device Memory };

    fn from(_error: AllocError) -> FileFault {
        FileFault::Device(Fault::Memory)
    }
}

fn reason_of(fault: Fault) -> &'static str
    ensures { result.now ≡ reason_of fault }
{
    match fault {
        Fault::Read => "cannot read",
        Fault::Utf8 => "not UTF-8",
        Fault::Memory => "out of memory",
        Fault::Write => "cannot write",
    }
}

/// Tells why the text of this name has no outcome. What the sink does not take is lost.
pub fn tell<A: Allocator, E: Sink>(
    alloc: A,
    program: &str,
    complaints: &mut E,
    name: &str,
    fault: Fault,
)
    ensures { Tells program.now name.now fault (E.account complaints.old) (E.account complaints.new) }
{
    match complaint(alloc, program, name, reason_of(fault)) {
        Ok(line) => say(complaints, line.as_str()),
        Err(_) => say_no_memory(program, complaints),
    }
}

// A path without the zero byte at the end of a word that is not UTF-8.
fn name_of(path: &str) -> &str
    ensures { IsNameOf path.now result.now }
{
    match path.strip_suffix('\0') {
        Some(name) => name,
        None => path,
    }
}

// A line about an error of the file system.
fn error_line<A: Allocator + Copy>(
    alloc: A,
    program: &str,
    what: &str,
    path: &str,
    error: &io::Error,
) -> Result<String<A>, AllocError>
    ensures { IfOk result (λ line. (name : List ℕ) × (words : List ℕ) × IsNameOf path.now name
        × (string_bytes line ≡ line_about program.now name (what.now ++ codes ": " ++ words))) }
{
    let words = format!(in alloc; "{error}")?;
    let mut reason = String::from_str(alloc, what)?;
    reason.push_str(": ")?;
    reason.push_str(words.as_str())?;
    complaint(alloc, program, name_of(path), reason.as_str())
}

// Tells what could not be done with the file at a path.
fn tell_error<A: Allocator + Copy, E: Sink>(
    alloc: A,
    program: &str,
    complaints: &mut E,
    what: &str,
    path: &str,
    error: &io::Error,
)
    ensures { TellsError program.now what.now path.now (E.account complaints.old) (E.account complaints.new) }
{
    match error_line(alloc, program, what, path, error) {
        Ok(line) => say(complaints, line.as_str()),
        Err(_) => say_no_memory(program, complaints),
    }
}

/// Tells why the file at a path has no outcome. What the sink does not take is lost.
pub fn tell_of_file<A: Allocator + Copy, E: Sink>(
    alloc: A,
    program: &str,
    complaints: &mut E,
    path: &str,
    fault: &FileFault,
)
    ensures { TellsOfFile program.now path.now fault.now (E.account complaints.old) (E.account complaints.new) }
{
    match fault {
        FileFault::Device(fault) => tell(alloc, program, complaints, path, *fault),
        FileFault::NotRead(error) => {
            tell_error(alloc, program, complaints, "cannot read", path, error);
        }
        FileFault::NotReplaced(error) => {
            tell_error(alloc, program, complaints, "cannot replace", path, error);
        }
    }
}
