// Syntax errors as diagnostics.
ghost use Rattle.std.specs.Prelude.{◌≡◌, ◌++◌, IfOk, OnOk, length, map, not, string_bytes, take_while};
ghost use Rattle.lexical_grammar.specs.Characters.{is_line_terminator};
ghost use Rattle.editor_diagnostics.specs.Diagnostics.{as_diagnosis};
ghost use Rattle.first_errors.specs.Groups.{group_of, groups, is_earlier};
ghost use Rattle.editor_diagnostics.specs.Syntax.{IsAboutFirst, as_group, mark_end, more_diagnostics, noun_of};
ghost use Rattle.editor_diagnostics.specs.Syntax.{others_words, syntax_diagnostic, syntax_diagnostics, words_for};

use crate::diagnostic::{Diagnostic, Severity};
use crate::message_words::words_for;
use apollo_lexer::Error;
use std::alloc::{AllocError, Global};

// How many diagnostics on syntax errors of a document a client gets.
const MOST: usize = 100;

// The rule that these diagnostics are about.
const SYNTAX: &str = "syntax";

// The first of some errors, and how many others there are.
#[derive(Drop)]
struct ErrorGroup<'e> {
    first: &'e Error,
    others: usize,
}

// Adds some errors as a group, if there are any.
fn push_group<'e>(groups: &mut Vec<ErrorGroup<'e>>, errors: &'e [Error]) -> Result<(), AllocError>
    ensures { OnOk result (map as_group groups.new.items ≡ map as_group groups.old.items ++ group_of errors.now) }
{
    if let Some((first, others)) = errors.split_first() {
        groups.push(ErrorGroup {
            first,
            others: others.len(),
        })?;
    }
    Ok(())
}

// How many errors there are before the first that is after the beginning of a definition.
fn count_earlier(errors: &[Error], start: usize) -> usize
    ensures { result ≡ length (take_while (is_earlier start) errors.now) }
{
    errors
        .iter()
        .take_while(|error| error.index() <= start)
        .count()
}

// The errors of each definition that has some, where definitions begin at some offsets.
fn groups<'e>(
    alloc: Global,
    starts: &[usize],
    errors: &'e [Error],
) -> Result<Vec<ErrorGroup<'e>>, AllocError>
    ensures { IfOk result (λ found. map as_group found.items ≡ groups starts.now errors.now) }
{
    let mut found = Vec::new(alloc);
    let mut rest = errors;
    for start in starts {
        let (these, others) = rest.split_at(count_earlier(rest, *start));
        push_group(&mut found, these)?;
        rest = others;
    }
    push_group(&mut found, rest)?;
    Ok(found)
}

// The length of the first line of a text, in bytes.
fn first_line_length(text: &str) -> usize
    ensures { result ≡ length (take_while (λ c. not (is_line_terminator c)) text.now) }
{
    text.as_bytes()
        .iter()
        .take_while(|byte| **byte != b'\n' && **byte != b'\r')
        .count()
}

// Where the mark of an error ends: with the text that it is about, or that text's first line.
fn end_of(error: &Error) -> usize
    ensures { result ≡ mark_end error.now }
{
    error
        .index()
        .saturating_add(first_line_length(error.data()))
}

fn noun_for(count: usize) -> &'static str
    ensures { result.now ≡ noun_of count }
{
    if count == 1 { "error" } else { "errors" }
}

// Adds how many errors follow in the same definition, unless there are none.
fn push_others(message: &mut String, others: usize) -> Result<(), AllocError>
    ensures { OnOk result (string_bytes message.new ≡ string_bytes message.old ++ others_words others) }
{
    if others == 0 {
        return Ok(());
    }
    let noun = noun_for(others);
    write!(
        message,
        " ({others} more {noun} before the next definition)"
    )
}

// What is wrong, and how many errors follow in the same definition.
fn message_of(alloc: Global, group: &ErrorGroup<'_>) -> Result<String, AllocError>
    ensures { IfOk result (λ text. string_bytes text ≡ words_for group.now.first.now.message
        ++ others_words group.now.others) }
{
    let words = words_for(group.first.message());
    let mut text = String::from_str(alloc, words)?;
    push_others(&mut text, group.others)?;
    Ok(text)
}

fn diagnostic_of(alloc: Global, group: &ErrorGroup<'_>) -> Result<Diagnostic, AllocError>
    ensures { IfOk result (λ diagnostic. as_diagnosis diagnostic ≡ syntax_diagnostic (as_group group.now)) }
{
    Ok(Diagnostic {
        start: group.first.index(),
        end: end_of(group.first),
        code: SYNTAX,
        severity: Severity::Error,
        message: message_of(alloc, group)?,
        open_brace: None,
    })
}

fn diagnostics_of(alloc: Global, groups: &[ErrorGroup<'_>]) -> Result<Vec<Diagnostic>, AllocError>
    ensures { IfOk result (λ found. map as_diagnosis found.items ≡ map syntax_diagnostic (map as_group groups.now)) }
{
    let mut found = Vec::new(alloc);
    for group in groups {
        found.push(diagnostic_of(alloc, group)?)?;
    }
    Ok(found)
}

// Adds how many more diagnostics there would be, unless there are none.
fn push_more(alloc: Global, found: &mut Vec<Diagnostic>, more: usize) -> Result<(), AllocError>
    ensures { OnOk result (map as_diagnosis found.new.items
        ≡ map as_diagnosis found.old.items ++ more_diagnostics more) }
{
    if more == 0 {
        return Ok(());
    }
    let noun = noun_for(more);
    let message = format!(in alloc; "{more} more {noun}")?;
    found.push(Diagnostic {
        start: 0,
        end: 0,
        code: SYNTAX,
        severity: Severity::Error,
        message,
        open_brace: None,
    })?;
    Ok(())
}

/// The diagnostics on syntax errors of a document, whose definitions begin at some byte offsets: one for each
/// definition that has errors, about the first of them, with the number of the others; of a hundred definitions, and
/// then one that says how many more have errors. It fails only where memory is refused.
pub fn syntax_diagnostics(
    alloc: Global,
    starts: &[usize],
    errors: &[Error],
) -> Result<Vec<Diagnostic>, AllocError>
    ensures diagnostics { IfOk result
        (λ found. map as_diagnosis found.items ≡ syntax_diagnostics starts.now errors.now) }
    ensures first { IfOk result (λ found. IsAboutFirst errors.now (map as_diagnosis found.items)) }
{
    let groups = groups(alloc, starts, errors)?;
    let groups = groups.as_slice();
    let most = MOST.min(groups.len());
    let mut found = diagnostics_of(alloc, &groups[..most])?;
    push_more(alloc, &mut found, groups.len() - most)?;
    Ok(found)
}
