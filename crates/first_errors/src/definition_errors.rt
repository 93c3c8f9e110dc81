// The first error of each definition of a document.
ghost use Rattle.std.specs.Prelude.{◌≡◌, ◌++◌, ◌≤◌, IfOk, OnOk, length, map, take_while};
ghost use Rattle.apollo_parser.specs.Errors.{error_of};
ghost use Rattle.apollo_parser.specs.References.{node_place};
ghost use Rattle.first_errors.specs.First.{IsFirst, firsts};
ghost use Rattle.first_errors.specs.Groups.{definition_starts, group_of, groups, is_earlier};

use apollo_parser::{BorrowedError, SyntaxNode};
use std::alloc::{AllocError, Allocator};

/// The errors of a text that people see. They borrow the text.
#[derive(Drop)]
pub struct FirstErrors<'i, A: Allocator> {
    pub errors: Vec<BorrowedError<'i>, A>,
    /// How many more the text has.
    pub more: usize,
}

/// Where the definitions of a document begin, as byte offsets, by the root of its tree. It fails only where memory is
/// refused.
pub fn definition_starts<A: Allocator>(
    alloc: A,
    document: &SyntaxNode<'_>,
) -> Result<Vec<usize, A>, AllocError>
    ensures { IfOk result (λ starts. starts.items ≡ definition_starts (node_place document.now)) }
{
    let mut starts = Vec::new(alloc);
    for node in document.children() {
        starts.push(node.text_range().start())?;
    }
    Ok(starts)
}

// How many errors there are before the first that is after the beginning of a definition.
fn count_earlier(errors: &[BorrowedError<'_>], start: usize) -> usize
    ensures value { result ≡ length (take_while (is_earlier start) (map error_of errors.now)) }
    ensures within { result ≤ length errors.now }
{
    for (count, error) in errors.iter().enumerate() {
        if error.index() > start {
            return count;
        }
    }
    errors.len()
}

// Adds the first of some errors, if there are any.
fn push_first<'i, A: Allocator>(
    found: &mut Vec<BorrowedError<'i>, A>,
    errors: &[BorrowedError<'i>],
) -> Result<(), AllocError>
    ensures { OnOk result (map error_of found.new.items ≡ map error_of found.old.items
        ++ firsts (group_of (map error_of errors.now))) }
{
    if let Some(error) = errors.first() {
        found.push(*error)?;
    }
    Ok(())
}

// The first error of each definition that has one.
fn first_of_each<'i, A: Allocator>(
    alloc: A,
    starts: &[usize],
    errors: &[BorrowedError<'i>],
) -> Result<Vec<BorrowedError<'i>, A>, AllocError>
    ensures { IfOk result (λ found. map error_of found.items ≡ firsts (groups starts.now (map error_of errors.now))) }
{
    let mut found = Vec::new(alloc);
    let mut seen = 0;
    for start in starts {
        let count = count_earlier(&errors[seen..], *start);
        push_first(&mut found, &errors[seen..seen + count])?;
        seen += count;
    }
    push_first(&mut found, &errors[seen..])?;
    Ok(found)
}

/// The errors of a document that people see, by the root of its tree: the first of each definition, at most `most` in
/// all; and how many more there are. It fails only where memory is refused.
pub fn first_errors<'i, A: Allocator + Copy>(
    alloc: A,
    document: &SyntaxNode<'_>,
    errors: &[BorrowedError<'i>],
    most: usize,
) -> Result<FirstErrors<'i, A>, AllocError>
    ensures { IfOk result (λ first. IsFirst (node_place document.now) (map error_of errors.now) most
        (map error_of first.errors.items) first.more) }
{
    let starts = definition_starts(alloc, document)?;
    let mut found = first_of_each(alloc, starts.as_slice(), errors)?;
    found.truncate(most);
    let more = errors.len().saturating_sub(found.len());
    Ok(FirstErrors {
        errors: found,
        more,
    })
}
