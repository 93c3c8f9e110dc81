// What a program writes about itself, and about the words that it is called with.
ghost use Rattle.std.specs.Prelude.{◌++◌};
ghost use Rattle.command_lines.specs.Streams.{Explains, IsPrinted, IsSaid, no_memory, no_output};

use crate::misuse::Misuse;
use byte_streams::{Sink, write_all};
use std::alloc::Allocator;

/// Writes a text to standard error. What the sink does not take is lost.
pub fn say<E: Sink>(complaints: &mut E, text: &str)
    ensures { IsSaid text.now (E.account complaints.old) (E.account complaints.new) }
{
    let _ = write_all(complaints, text.as_bytes());
}

// Says something in the name of a program. It takes no memory.
#[tactic(auto, using(crate::proofs::Saying::said_first))]
fn say_of<E: Sink>(program: &str, complaints: &mut E, what: &str)
    ensures { IsSaid (program.now ++ what.now) (E.account complaints.old) (E.account complaints.new) }
{
    match write_all(complaints, program.as_bytes()) {
        Ok(()) => say(complaints, what),
        Err(_) => {}
    }
}

/// Says that there is no memory for more, in the name of a program. It takes no memory itself.
pub fn say_no_memory<E: Sink>(program: &str, complaints: &mut E)
    ensures { IsSaid (no_memory program.now) (E.account complaints.old) (E.account complaints.new) }
{
    say_of(program, complaints, ": out of memory\n");
}

/// Prints a page of a program, and gives the status: 0, or 2 where the sink does not take all of it, which is said.
pub fn print<W: Sink, E: Sink>(program: &str, writer: &mut W, complaints: &mut E, page: &str) -> u8
    ensures { IsPrinted program.now page.now result (W.account writer.old) (W.account writer.new)
        (E.account complaints.old) (E.account complaints.new) }
{
    match write_all(writer, page.as_bytes()) {
        Ok(()) => 0,
        Err(_) => {
            say_of(program, complaints, ": cannot write\n");
            2
        }
    }
}

/// Says which word is wrong, and how the program of this name is called; only the latter where memory is refused. What
/// the sink does not take is lost.
pub fn explain<A: Allocator, E: Sink>(
    alloc: A,
    program: &str,
    usage: &str,
    complaints: &mut E,
    misuse: Misuse<'_>,
)
    ensures { Explains program.now usage.now misuse.entry.word.now misuse.entry.mistake (E.account complaints.old)
        (E.account complaints.new) }
{
    match misuse.explanation(alloc, program, usage) {
        Ok(text) => say(complaints, text.as_str()),
        Err(_) => say(complaints, usage),
    }
}
