//! Laws of the definitions that the contracts cite: calls that do nothing, each with a theorem as its contract.
ghost use Rattle.std.specs.Prelude.{◌≡◌, ◌↔◌, Bool, List};
ghost use Rattle.std.specs.List.{Contains};
ghost use Rattle.apollo_lexer.specs.Diagnostics.{Diagnostic};
ghost use Rattle.apollo_tree.specs.Order.{Place};
ghost use Rattle.editor_diagnostics.specs.Diagnostics.{Diagnosis};
ghost use Rattle.editor_validation.specs.Fragments.{Fragments};
ghost use Rattle.editor_validation.specs.Diagnostics.{AreDiagnosticsOn};

/// Diagnostics are a function of the document, its syntax errors, and which fragments the others have, in whatever
/// order.
pub fn same_diagnostics()
    ensures { (names_braces : Bool) (others same : List Fragments) (document : Place) (errors : List Diagnostic)
        (first second : List Diagnosis)
        → ((f : Fragments) → Contains others f ↔ Contains same f)
        → AreDiagnosticsOn names_braces others document errors first
        → AreDiagnosticsOn names_braces same document errors second → second ≡ first }
{}
