//! Laws of the definitions that the contracts cite: calls that do nothing, each with a theorem as its contract.
ghost use Rattle.std.specs.Prelude.{◌≡◌, ◌↔◌, ℕ, ℤ, Bool, List, None, Option};
ghost use Rattle.std.specs.List.{Contains};
ghost use Rattle.editor_validation.specs.Fragments.{Fragments};
ghost use Rattle.formatter.specs.Comments.{HasNoDefinitions};
ghost use Rattle.gqlls_server.specs.Files.{OpenFile};
ghost use Rattle.gqlls_server.specs.Same.{HaveSameDiagnostics};
ghost use Rattle.gqlls_server.specs.Diagnostics.{IsDiagnosticsNotification};

/// What is published of a GraphQL document depends on its text, its limits, which fragments the other documents have,
/// how the client counts columns, and whether it takes related information. It does not depend on how the text came
/// about, by one change or by many, nor on the order of the other documents. Two conversations that agree in these
/// publish the same diagnostics.
///
/// Left out are texts without definitions, of which nothing is marked.
pub fn same_notification()
    ensures { (takes_related : Bool) (uri : List ℕ) (version : Option ℤ) (file : OpenFile)
        (fragments same_fragments : Fragments) (others same : List Fragments)
        (first second : List ℕ) → file.host ≡ None → (¬ HasNoDefinitions file.content.text)
        → ((f : Fragments) → Contains others f ↔ Contains same f)
        → IsDiagnosticsNotification takes_related uri version file fragments others first
        → IsDiagnosticsNotification takes_related uri version file same_fragments same second
        → HaveSameDiagnostics uri version file first second }
{}
