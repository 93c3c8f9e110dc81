//! Laws of the definitions that the contracts cite: calls that do nothing, each with a theorem as its contract.
ghost use Rattle.std.specs.Prelude.{◌≡◌, ◌≢◌, ℕ, List, Option};
ghost use Rattle.std.specs.List.{AllPairs};
ghost use Rattle.apollo_tree.specs.Order.{Place};
ghost use Rattle.document_validation.specs.Breaches.{breaches};
ghost use Rattle.document_validation.specs.Validation.{ValidationEndsAt};

/// Nothing is in the list of breaches twice.
pub fn distinct_breaches()
    ensures { (documents : List Place) → AllPairs (λ a b. a ≢ b) (breaches documents) }
{}

/// Validation ends before one operation, or before none.
pub fn one_end()
    ensures some { (steps : Option ℕ) (documents : List Place)
        → (end : Option ℕ) × ValidationEndsAt steps documents end }
    ensures one { (steps : Option ℕ) (documents : List Place) (first second : Option ℕ)
        → ValidationEndsAt steps documents first → ValidationEndsAt steps documents second → first ≡ second }
{}
