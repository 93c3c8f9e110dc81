// A run of the program: it reads, parses and writes.
ghost use Rattle.std.specs.Prelude.{◌≡◌, List, ℕ, IfOk, OnErr};
ghost use Rattle.byte_streams.specs.Runs.{Reads, Writes};
ghost use Rattle.command_lines.specs.Words.{texts};
ghost use Rattle.gqlcst_run.specs.Buffering.{PutsSome};
ghost use Rattle.gqlcst_run.specs.Program.{IsOutput, Runs, information_text};

use crate::command::{HELP, PROGRAM, USAGE, VERSION};
use crate::finding::Finding;
use crate::outcome::end;
use crate::output_buffer::OutputBuffer;
use crate::parser::{lexer, parse};
use crate::report::{put_errors, put_tokens, put_tree};
use apollo_parser::Limits;
use byte_streams::{Fault, Sink, Source, read_to_end};
use command_lines::gqlcst::{Mode, options};
use command_lines::information::{Information, Request};
use command_lines::misuse::WordsError;
use command_lines::streams::{explain, print, say_no_memory};
use std::alloc::{AllocError, Allocator};

fn information_text(page: Information) -> &'static str
    ensures { result.now ≡ information_text page }
{
    match page {
        Information::Help => HELP,
        Information::Version => VERSION,
    }
}

// Puts what a mode shows of a text, and answers what was found. Mode tokens needs no parse. All memory that it takes is
// reserved before the first byte is put.
#[tactic(auto, using(crate::proofs::Outputs::check_put, crate::proofs::Outputs::tokens_put, crate::proofs::Outputs::tree_put))]
fn put_output<A: Allocator + Copy, W: Sink>(
    alloc: A,
    buffer: &mut OutputBuffer,
    writer: &mut W,
    source: &str,
    mode: Mode,
    limits: Limits,
) -> Result<Finding, AllocError>
    ensures ok { IfOk result
        (λ finding. PutsSome (IsOutput mode limits source.now finding) (buffer.old, W.account writer.old)
        (buffer.new, W.account writer.new)) }
    ensures err { OnErr result (W.account writer.new ≡ W.account writer.old) }
{
    match mode {
        Mode::Check => {
            let (tree, finding) = parse(alloc, source, limits)?;
            put_errors(buffer, writer, tree.errors().as_slice());
            Ok(finding)
        }
        Mode::Tokens => {
            let finding = put_tokens(buffer, writer, lexer(source, limits));
            Ok(finding)
        }
        Mode::Tree => {
            let (tree, finding) = parse(alloc, source, limits)?;
            put_tree(buffer, writer, &tree, source);
            Ok(finding)
        }
    }
}

// Reads to the end, and then writes what the mode shows, a buffer at a time.
fn process<A: Allocator + Copy, R: Source, W: Sink>(
    alloc: A,
    reader: &mut R,
    writer: &mut W,
    mode: Mode,
    limits: Limits,
) -> Result<Finding, Fault>
    ensures { (input : List ℕ) × Reads result input (R.account reader.old) (R.account reader.new)
        × Writes (IsOutput mode limits) result input (W.account writer.old) (W.account writer.new) }
{
    let bytes = read_to_end(alloc, reader)?;
    let Ok(source) = str::from_utf8(bytes.as_slice()) else {
        return Err(Fault::Utf8);
    };
    let mut buffer = OutputBuffer::new();
    let finding = put_output(alloc, &mut buffer, writer, source, mode, limits)?;
    buffer.finish(writer)?;
    Ok(finding)
}

/// Carries out the request in the words after the program's name, and gives the status. It prints a page of the
/// program, or reads a text to its end and then writes what the mode shows of it. The status is 0 when that is done and
/// the text has no errors, 1 when it has some, and 2 when something could not be read or written, the text is not
/// UTF-8, memory was refused, or the program is not called so. Then it says which.
pub fn run<A: Allocator + Copy, R: Source, W: Sink, E: Sink>(
    alloc: A,
    reader: &mut R,
    writer: &mut W,
    complaints: &mut E,
    words: &[&str],
) -> u8
    ensures { Runs (texts words.now) result
        (record { input = R.account reader.old; output = W.account writer.old; complaints = E.account complaints.old })
        (record {
          input = R.account reader.new;
          output = W.account writer.new;
          complaints = E.account complaints.new;
        }) }
{
    match options(alloc, words) {
        Ok(Request::Print(page)) => print(PROGRAM, writer, complaints, information_text(page)),
        Ok(Request::Process((mode, limits))) => {
            let ended = process(alloc, reader, writer, mode, limits);
            end(complaints, &ended)
        }
        Err(WordsError::Usage(misuse)) => {
            explain(alloc, PROGRAM, USAGE, complaints, misuse);
            2
        }
        Err(WordsError::Memory) => {
            say_no_memory(PROGRAM, complaints);
            2
        }
    }
}
