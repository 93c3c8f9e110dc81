// The output of mode check.
ghost use Rattle.std.specs.Prelude.{◌≡◌, map};
ghost use Rattle.apollo_parser.specs.Errors.{error_of};
ghost use Rattle.apollo_parser.specs.Printed.{subject_shown};
ghost use Rattle.gqlcst_run.specs.Buffering.{PutsSome};
ghost use Rattle.gqlcst_run.specs.Rendering.{AreLines, IsErrorForm, IsVerdict};

use crate::output_buffer::OutputBuffer;
use apollo_parser::BorrowedError;
use byte_streams::Sink;

// What an error is about, as it is printed.
#[tactic(auto, using(crate::proofs::Forms::end_shown, crate::proofs::Forms::text_shown))]
fn shown<'i>(error: &BorrowedError<'i>) -> &'i str
    ensures { result.now ≡ subject_shown (error_of error.now).subject }
{
    if error.is_eof() {
        return "EOF";
    }
    error.data()
}

/// Puts the printed form of an error.
pub fn put_error<W: Sink>(buffer: &mut OutputBuffer, writer: &mut W, error: &BorrowedError<'_>)
    ensures { PutsSome (IsErrorForm (error_of error.now)) (buffer.old, W.account writer.old)
        (buffer.new, W.account writer.new) }
{
    let data = error.data();
    let (words, quoted, found) = error.message_parts();
    buffer.put_str(writer, "ERROR@");
    buffer.put_span(writer, error.index(), data.len());
    buffer.put_str(writer, " ");
    buffer.put_quoted_parts(writer, words, quoted, found);
    buffer.put_str(writer, " ");
    buffer.put_str(writer, shown(error));
}

// Puts a line for each of the errors.
#[tactic(auto, using(crate::proofs::Lines::lines_put_none))]
fn put_lines<W: Sink>(buffer: &mut OutputBuffer, writer: &mut W, errors: &[BorrowedError<'_>])
    ensures { PutsSome (AreLines (λ e. IsErrorForm (error_of e)) errors.now) (buffer.old, W.account writer.old)
        (buffer.new, W.account writer.new) }
{
    for error in errors {
        put_error(buffer, writer, error);
        buffer.put_str(writer, "\n");
    }
}

/// Puts `clean`, or the errors and their number.
#[tactic(auto, using(crate::proofs::Verdicts::clean_put, crate::proofs::Verdicts::report_put))]
pub fn put_errors<W: Sink>(buffer: &mut OutputBuffer, writer: &mut W, errors: &[BorrowedError<'_>])
    ensures { PutsSome (IsVerdict (map error_of errors.now)) (buffer.old, W.account writer.old)
        (buffer.new, W.account writer.new) }
{
    if errors.is_empty() {
        buffer.put_str(writer, "clean\n");
        return;
    }
    put_lines(buffer, writer, errors);
    buffer.put_str(writer, "errors: ");
    buffer.put_number(writer, errors.len());
    buffer.put_str(writer, "\n");
}
