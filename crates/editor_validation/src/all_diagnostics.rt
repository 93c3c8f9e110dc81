// All diagnostics on a document.
ghost use Rattle.std.specs.Prelude.{◌≡◌, IfOk, map};
ghost use Rattle.apollo_tree.specs.References.{node_place};
ghost use Rattle.editor_diagnostics.specs.Diagnostics.{as_diagnosis, with_brace};
ghost use Rattle.editor_diagnostics.specs.Syntax.{IsAboutFirst, syntax_diagnostics};
ghost use Rattle.editor_validation.specs.Fragments.{as_fragments};
ghost use Rattle.first_errors.specs.Groups.{definition_starts};
ghost use Rattle.editor_validation.specs.Diagnostics.{AreDiagnosticsOn, brace_of};

use crate::braces::open_brace;
use crate::broken_rules::rule_diagnostics;
use crate::fragments::FragmentNames;
use apollo_lexer::Error;
use apollo_tree::SyntaxNode;
use editor_diagnostics::{Diagnostic, name_brace, syntax_diagnostics};
use first_errors::definition_starts;
use std::alloc::{AllocError, Global};

// The brace that the first error of a document follows from, where it is named.
fn brace_of(
    alloc: Global,
    document: &SyntaxNode<'_>,
    error: &Error,
    names_braces: bool,
) -> Result<Option<usize>, AllocError>
    ensures { IfOk result (λ brace. brace ≡ brace_of names_braces (node_place document.now) error.now) }
{
    if names_braces {
        open_brace(alloc, document, error.index())
    } else {
        Ok(None)
    }
}

// The diagnostics on the errors of a document, if there are any, by the root of its tree.
fn error_diagnostics(
    alloc: Global,
    document: &SyntaxNode<'_>,
    errors: &[Error],
    brace: Option<usize>,
) -> Result<Vec<Diagnostic>, AllocError>
    ensures diagnostics { IfOk result
        (λ found. map as_diagnosis found.items
        ≡ with_brace brace (syntax_diagnostics (definition_starts (node_place document.now)) errors.now)) }
    ensures first { IfOk result (λ found. IsAboutFirst errors.now (map as_diagnosis found.items)) }
{
    let starts = definition_starts(alloc, document)?;
    let mut found = syntax_diagnostics(alloc, starts.as_slice(), errors)?;
    name_brace(found.as_mut_slice(), brace);
    Ok(found)
}

/// The diagnostics on a document, by the root of its tree and the errors of its parse: on these, if there are any, and
/// else on the rules of validation that it breaks and no other document mends, by the names of the fragments of the
/// others; at most a hundred. If it may, the first one names a brace that is never closed. It fails only where memory
/// is refused.
pub fn diagnostics<'t>(
    alloc: Global,
    document: &SyntaxNode<'t>,
    errors: &[Error],
    others: &[&'t FragmentNames],
    names_braces: bool,
) -> Result<Vec<Diagnostic>, AllocError>
    ensures { IfOk result (λ found. AreDiagnosticsOn names_braces (map (λ f. as_fragments f.now) others.now)
        (node_place document.now) errors.now
        (map as_diagnosis found.items)) }
{
    let Some(first) = errors.first() else {
        return rule_diagnostics(alloc, document, others);
    };
    let brace = brace_of(alloc, document, first, names_braces)?;
    let found = error_diagnostics(alloc, document, errors, brace)?;
    Ok(found)
}
