// What a run prints before the texts and after them.
ghost use Rattle.std.specs.Prelude.{◌≡◌, [], IfOk, false, string_bytes};
ghost use Rattle.gqlcheck_run.specs.Framing.{Closes, IsClosing, opening};

use crate::command::PROGRAM;
use crate::greatest::{greatest_object, push_greatest};
use crate::job::Printing;
use crate::sarif_log::{HEAD, INCOMPLETE_TAIL, TAIL};
use crate::tally::Tally;
use byte_streams::Sink;
use command_lines::gqlcheck::Format;
use command_lines::streams::{print, say_no_memory};
use std::alloc::{AllocError, Allocator};

/// What is printed before the first text.
pub fn opening(format: Format) -> &'static str
    ensures { result.now ≡ opening format }
{
    match format {
        Format::Text | Format::Json | Format::Github => "",
        Format::Sarif => HEAD,
    }
}

// The tally for people, and the greatest figures if they are wanted.
fn closing_text<A: Allocator>(
    alloc: A,
    tally: &Tally,
    figures: bool,
) -> Result<String<A>, AllocError>
    ensures { IfOk result (λ text. figures ≡ false → tally.now.errors ≡ 0 → string_bytes text ≡ []) }
{
    let mut text = tally.summary(alloc)?;
    if figures {
        push_greatest(&mut text, tally.greatest)?;
    }
    Ok(text)
}

// The object of the greatest figures, if they are wanted.
fn closing_object<A: Allocator>(
    alloc: A,
    tally: &Tally,
    figures: bool,
) -> Result<String<A>, AllocError>
    ensures { IfOk result (λ text. figures ≡ false → string_bytes text ≡ []) }
{
    if figures {
        greatest_object(alloc, tally.greatest)
    } else {
        Ok(String::new(alloc))
    }
}

// Prints lines, if there is memory for them, and gives the status of the run.
#[tactic(auto, using(crate::proofs::Quiet::greater))]
fn close_lines<A: Allocator, W: Sink, E: Sink>(
    lines: Result<String<A>, AllocError>,
    printing: Printing,
    writer: &mut W,
    complaints: &mut E,
    status: u8,
) -> u8
    requires { IfOk lines (λ text. IsClosing printing.format printing.figures status (string_bytes text)) }
    ensures { Closes printing status result (W.account writer.old) (W.account writer.new) (E.account complaints.old)
        (E.account complaints.new) }
{
    match lines {
        Ok(lines) => status.max(print(PROGRAM, writer, complaints, lines.as_str())),
        Err(_) => {
            say_no_memory(PROGRAM, complaints);
            2
        }
    }
}

/// Prints what comes after the last text, by the status of all texts, and gives the status of the run.
#[tactic(auto, using(crate::proofs::Quiet::greater))]
pub fn close<A: Allocator, W: Sink, E: Sink>(
    alloc: A,
    printing: Printing,
    writer: &mut W,
    complaints: &mut E,
    tally: &Tally,
    status: u8,
) -> u8
    requires { status ≡ 0 → tally.now.errors ≡ 0 }
    ensures { Closes printing status result (W.account writer.old) (W.account writer.new) (E.account complaints.old)
        (E.account complaints.new) }
{
    let tail = match printing.format {
        Format::Text => {
            let lines = closing_text(alloc, tally, printing.figures);
            return close_lines(lines, printing, writer, complaints, status);
        }
        Format::Json => {
            let lines = closing_object(alloc, tally, printing.figures);
            return close_lines(lines, printing, writer, complaints, status);
        }
        Format::Github => "",
        Format::Sarif if status == 2 => INCOMPLETE_TAIL,
        Format::Sarif => TAIL,
    };
    status.max(print(PROGRAM, writer, complaints, tail))
}
