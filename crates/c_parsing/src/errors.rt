// The rows of the errors, and their messages.
ghost use Rattle.std.specs.Prelude.{◌≡◌, ◌<◌, ◌^◌, length, true, IfSome};
ghost use Rattle.std.specs.List.{All};
ghost use Rattle.apollo_parser.specs.Filled.{filled};
ghost use Rattle.c_parsing.specs.Rows.{EndFits, error_row, error_rows, messages};

use crate::buffers::append;
use crate::rows::ErrorRow;
use apollo_parser::Error;
use std::alloc::Allocator;

// How many bytes all messages have; None when a usize can't say it.
fn message_bytes<A: Allocator>(errors: &[Error<A>]) -> Option<usize>
    ensures { IfSome result (λ bytes. bytes ≡ length (messages errors.now)) }
{
    let mut bytes: usize = 0;
    for error in errors {
        bytes = bytes.checked_add(error.message().len())?;
    }
    Some(bytes)
}

fn end_fits<A: Allocator>(error: &Error<A>) -> bool
    ensures { result ≡ true → EndFits error.now }
{
    error.index().checked_add(error.data().len()).is_some()
}

// Whether a usize can say where each text has ended that an error is about.
fn ends_fit<A: Allocator>(errors: &[Error<A>]) -> bool
    ensures { result ≡ true → All EndFits errors.now }
{
    for error in errors {
        if !end_fits(error) {
            return false;
        }
    }
    true
}

/// How many bytes all messages have; None when a usize can't say that, or where a text has ended that an error is
/// about.
///
/// It never is None: each error is about a text of the source, and the messages of all, which are in memory, are fewer
/// bytes than a `usize` counts. No clause of the parser says so, and the proof that follows from its clauses is longer
/// than two tests.
pub fn counted_bytes<A: Allocator>(errors: &[Error<A>]) -> Option<usize>
    ensures bytes { IfSome result (λ bytes. bytes ≡ length (messages errors.now)) }
    ensures ends { IfSome result (λ bytes. All EndFits errors.now) }
{
    let bytes = message_bytes(errors)?;
    if ends_fit(errors) { Some(bytes) } else { None }
}

fn row_of<A: Allocator>(error: &Error<A>, message: usize) -> ErrorRow
    requires { EndFits error.now }
    ensures { result ≡ error_row message error.now }
{
    let start = error.index();
    ErrorRow {
        start,
        end: start + error.data().len(),
        message,
        message_length: error.message().len(),
        is_limit: u32::from(error.is_limit()),
        is_eof: u32::from(error.is_eof()),
    }
}

// Writes the rows of errors, as far as there is room.
fn write_errors<A: Allocator>(errors: &[Error<A>], rows: &mut [ErrorRow])
    requires bytes { length (messages errors.now) < 2 ^ 64 }
    requires ends { All EndFits errors.now }
    ensures { rows.new ≡ filled rows.old (error_rows 0 errors.now) }
{
    let end = errors.len().min(rows.len());
    let mut message: usize = 0;
    for index in 0..end {
        let error = &errors[index];
        rows[index] = row_of(error, message);
        message += error.message().len();
    }
}

// Writes the messages of errors one after another, as far as there is room.
fn write_messages<A: Allocator>(errors: &[Error<A>], buffer: &mut [u8])
    requires { length (messages errors.now) < 2 ^ 64 }
    ensures { buffer.new ≡ filled buffer.old (messages errors.now) }
{
    let mut at: usize = 0;
    for error in errors {
        let message = error.message().as_bytes();
        append(buffer, at, message);
        at += message.len();
    }
}

/// Writes the rows of errors and their messages, each as far as there is room.
pub fn write_found<A: Allocator>(errors: &[Error<A>], rows: &mut [ErrorRow], buffer: &mut [u8])
    requires bytes { length (messages errors.now) < 2 ^ 64 }
    requires ends { All EndFits errors.now }
    ensures rows { rows.new ≡ filled rows.old (error_rows 0 errors.now) }
    ensures messages { buffer.new ≡ filled buffer.old (messages errors.now) }
{
    write_errors(errors, rows);
    write_messages(errors, buffer);
}
