// What becomes of a text.
ghost use Rattle.std.specs.Prelude.{◌≤◌, IfOk, length, map, string_bytes};
ghost use Rattle.lexical_grammar.specs.Reads.{items_of};
ghost use Rattle.document_grammar.specs.Derivation.{nest};
ghost use Rattle.apollo_parser.specs.Errors.{error_of};
ghost use Rattle.formatter.specs.Comments.{HasSameComments};
ghost use Rattle.formatter.specs.Finding.{AreFirstOf};
ghost use Rattle.formatter.specs.Formatted as format;
ghost use Rattle.formatter.specs.Lengths.{longest_layout, most_items};
ghost use Rattle.formatter.specs.LineEnds.{HasLineEnd};
ghost use Rattle.gqlfmt_run.specs.Formatting.{IsRevised, line_end_of, most_of, most_shown};

use crate::job::{Bounds, Job};
use first_errors::FirstErrors;
use formatter::{DocumentFormatter, WriteError, keeps_document, stays_within, with_line_end};
use std::alloc::{AllocError, Allocator};

// How many errors of a text are shown at most.
const SHOWN: usize = 20;

/// Why a text is left as it is.
#[derive(Drop)]
pub enum Refusal<'s, A: Allocator> {
    /// It has errors, of which these are shown.
    Errors(FirstErrors<'s, A>),
    /// Its formatted text has more items than the token limit allows, and would have errors.
    Outgrown,
    /// Its formatted text has more bytes than are allowed.
    TooLong,
}

// The formatted text of a source, unless it has more items than are allowed.
fn bounded<'s, A: Allocator>(
    source: &str,
    text: String<A>,
    bounds: Bounds,
) -> Result<String<A>, Refusal<'s, A>>
    ensures document { format.IsFormatted source.now bounds.limits.recursion bounds.limits.tokens (string_bytes text)
        → length (items_of (string_bytes text)) ≤ most_items (length (items_of source.now))
        → length (string_bytes text) ≤ most_of bounds.most_output source.now
        → HasLineEnd (line_end_of bounds.line_endings source.now) (string_bytes text)
        → IsRevised bounds source.now result }
    ensures comments { HasSameComments source.now (string_bytes text)
        → length (items_of source.now) ≤ bounds.limits.tokens
        → length (items_of (string_bytes text)) ≤ most_items (length (items_of source.now))
        → length (string_bytes text) ≤ most_of bounds.most_output source.now
        → HasLineEnd (line_end_of bounds.line_endings source.now) (string_bytes text)
        → IsRevised bounds source.now result }
{
    if text.as_str() == source {
        return Ok(text);
    }
    if stays_within(text.as_str(), bounds.limits.tokens) {
        Ok(text)
    } else {
        Err(Refusal::Outgrown)
    }
}

impl<A: Allocator + Copy, L: DocumentFormatter> Job<'_, A, L> {
    // That with the line ends that are wanted, unless it is too long.
    fn bounded_with_ends<'s>(
        &self,
        source: &str,
        text: String<A>,
    ) -> Result<Result<String<A>, Refusal<'s, A>>, AllocError>
        ensures document { IfOk result
            (λ revised. format.IsFormatted source.now self.now.bounds.limits.recursion
            self.now.bounds.limits.tokens (string_bytes text)
            → length (items_of (string_bytes text)) ≤ most_items (length (items_of source.now))
            → length (string_bytes text) ≤ most_of self.now.bounds.most_output source.now
            → ((d : format.IsDocument source.now self.now.bounds.limits.recursion self.now.bounds.limits.tokens)
            → length (string_bytes text) ≤ longest_layout (nest d.tree) (length source.now))
            → IsRevised self.now.bounds source.now revised) }
        ensures comments { IfOk result
            (λ revised. HasSameComments source.now (string_bytes text)
            → length (items_of source.now) ≤ self.now.bounds.limits.tokens
            → length (items_of (string_bytes text)) ≤ most_items (length (items_of source.now))
            → length (string_bytes text) ≤ most_of self.now.bounds.most_output source.now
            → length (string_bytes text) ≤ longest_layout 0 (length source.now)
            → IsRevised self.now.bounds source.now revised) }
    {
        let end = self.bounds.line_end_of(source);
        let ended = with_line_end(self.alloc, text, end)?;
        if ended.len() > self.bounds.most_of(source) {
            return Ok(Err(Refusal::TooLong));
        }
        keeps_document();
        Ok(bounded(source, ended, self.bounds))
    }

    // Formats a text that is no document: one of comments alone, or else it has errors, of which these are the first.
    fn revise_comments<'s>(
        &self,
        source: &'s str,
        first: FirstErrors<'s, A>,
    ) -> Result<Result<String<A>, Refusal<'s, A>>, AllocError>
        ensures { IfOk result (λ revised. format.IsNoDocument source.now self.now.bounds.limits.recursion
            self.now.bounds.limits.tokens
            → AreFirstOf self.now.bounds.limits source.now most_shown
            (map error_of first.entry.errors.items) first.entry.more
            → IsRevised self.now.bounds source.now revised) }
    {
        if !stays_within(source, self.bounds.limits.tokens) {
            return Ok(Err(Refusal::Errors(first)));
        }
        let most = self.bounds.most_of(source);
        match self.formatter.format_comments(self.alloc, source, most) {
            Ok(Some(text)) => self.bounded_with_ends(source, text),
            Ok(None) => Ok(Err(Refusal::Errors(first))),
            Err(WriteError::TooLong) => Ok(Err(Refusal::TooLong)),
            Err(WriteError::Memory) => Err(AllocError),
        }
    }

    /// The formatted text of a source, which is not refused when it is formatted again; or why there is none.
    pub fn revise<'s>(
        &self,
        source: &'s str,
    ) -> Result<Result<String<A>, Refusal<'s, A>>, AllocError>
        ensures { IfOk result (IsRevised self.now.bounds source.now) }
    {
        let limits = self.bounds.limits;
        let most = self.bounds.most_of(source);
        match self
            .formatter
            .format_or_errors(self.alloc, source, limits, most, SHOWN)
        {
            Ok(Ok(document)) => self.bounded_with_ends(source, document),
            Ok(Err(first)) => self.revise_comments(source, first),
            Err(WriteError::TooLong) => Ok(Err(Refusal::TooLong)),
            Err(WriteError::Memory) => Err(AllocError),
        }
    }
}
