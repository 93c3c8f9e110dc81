// What is said on standard error: the errors of a text, with their positions, and why a text was not formatted.
ghost use Rattle.std.specs.Prelude.{◌≡◌, ◌++◌, IfOk, MatchResult, string_bytes};
ghost use Rattle.apollo_parser.specs.Errors.{error_of};
ghost use Rattle.first_errors.specs.Places.{shown_at};
ghost use Rattle.marked_lines.specs.Places.{BeginsWith, OfFirst, place};
ghost use Rattle.gqlfmt_run.specs.Complaints.{IsReason, MayMentionCopy, MentionsCopy, SaysReason};
ghost use Rattle.gqlfmt_run.specs.Formatting.{IsRefusedFor};

use crate::command::PROGRAM;
use crate::job::Job;
use crate::revision::Refusal;
use apollo_parser::BorrowedError;
use byte_streams::Sink;
use command_lines::complaints::FileFault;
use command_lines::streams::say;
use file_access::Files;
use first_errors::{FirstErrors, for_people, shown_at};
use line_index::LineIndex;
use marked_lines::{Remark, complaint, push_message, push_more};
use std::alloc::{AllocError, Allocator};

// Why a text is left as it is, where it has no errors.
const OUTGROWN: &str = "it would have more tokens than allowed when formatted";

const TOO_LONG: &str = "it would have more bytes than --max-output allows when formatted";

// What is said of a copy.
const COPY_ADVICE: &str =
    "a copy of the file: once no run is at work, restore the file from it if need be, and remove it";

// A line `NAME:LINE:COLUMN: MESSAGE` for an error, and below it the line of the text with the position marked.
fn push_error<'s, A: Allocator>(
    report: &mut String<A>,
    name: &str,
    source: &'s str,
    index: &LineIndex<'_, A>,
    error: &BorrowedError<'s>,
) -> Result<(), AllocError>
    requires { index.now ≡ source.now }
    ensures { IfOk result (λ _. BeginsWith (string_bytes report.new)
        (string_bytes report.old ++ place name.now source.now (shown_at source.now (error_of error.now)))) }
{
    let (words, quoted, end) = error.message_parts();
    let (front, rest) = for_people(words);
    let remark = Remark {
        offset: shown_at(source, error),
        message: (front, rest, quoted, end),
        marked: error.data(),
    };
    push_message(report, name, index, &remark)
}

// That for each error; then how many more errors there are. Lines and columns count from 1, columns in characters.
fn render_report<A: Allocator + Copy>(
    alloc: A,
    name: &str,
    source: &str,
    first: &FirstErrors<'_, A>,
) -> Result<String<A>, AllocError>
    ensures { IfOk result (λ report. OfFirst
        (λ error. BeginsWith (string_bytes report) (place name.now source.now (shown_at source.now (error_of error))))
        first.now.errors.items) }
{
    let index = LineIndex::new(alloc, source)?;
    let mut report = String::new(alloc);
    for error in &first.errors {
        push_error(&mut report, name, source, &index, error)?;
    }
    push_more(&mut report, name, first.more)?;
    Ok(report)
}

impl<A: Allocator + Copy, L> Job<'_, A, L> {
    // Why a text is left as it is.
    fn reasons(
        &self,
        name: &str,
        source: &str,
        refusal: &Refusal<'_, A>,
    ) -> Result<String<A>, AllocError>
        ensures { IfOk result (λ report. IsRefusedFor self.now.bounds source.now refusal.now
            → IsReason self.now.bounds name.now source.now (string_bytes report)) }
    {
        match refusal {
            Refusal::Errors(first) => render_report(self.alloc, name, source, first),
            Refusal::Outgrown => complaint(self.alloc, PROGRAM, name, OUTGROWN),
            Refusal::TooLong => complaint(self.alloc, PROGRAM, name, TOO_LONG),
        }
    }

    /// Tells why a text is left as it is. What the sink does not take is lost.
    pub fn complain<E: Sink>(
        &self,
        complaints: &mut E,
        name: &str,
        source: &str,
        refusal: &Refusal<'_, A>,
    ) -> Result<(), AllocError>
        ensures { MatchResult result
            (λ _. IsRefusedFor self.now.bounds source.now refusal.now
            → SaysReason self.now.bounds name.now source.now (E.account complaints.old) (E.account complaints.new))
            (λ _. E.account complaints.new ≡ E.account complaints.old) }
    {
        let report = self.reasons(name, source, refusal)?;
        say(complaints, report.as_str());
        Ok(())
    }
}

// Names a copy of the file at a path, if one is there.
fn mention_copy<A: Allocator + Copy, F: Files, E: Sink>(
    alloc: A,
    files: &F,
    complaints: &mut E,
    path: &str,
)
    ensures { MayMentionCopy (E.account complaints.old) (E.account complaints.new) }
{
    if let Ok(Some(copy)) = files.copy_path(alloc, path)
        && let Ok(line) = complaint(alloc, PROGRAM, copy.as_str(), COPY_ADVICE)
    {
        say(complaints, line.as_str());
    }
}

/// After a file that was not replaced, names the copy of it that is there, if one is. What the sink does not take is
/// lost.
pub fn tell_of_copy<A: Allocator + Copy, F: Files, E: Sink>(
    alloc: A,
    files: &F,
    complaints: &mut E,
    path: &str,
    fault: &FileFault,
)
    ensures { MentionsCopy fault.now (E.account complaints.old) (E.account complaints.new) }
{
    match fault {
        FileFault::NotReplaced(_) => mention_copy(alloc, files, complaints, path),
        FileFault::NotRead(_) | FileFault::Device(_) => {}
    }
}
