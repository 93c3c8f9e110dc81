//! Laws of the definitions that the contracts cite: calls that do nothing, each with a theorem as its contract.
ghost use Rattle.std.specs.Prelude.{◌≡◌, List};
ghost use Rattle.validation_rules.specs.TextOrder.{IsInTextOrder};
ghost use Rattle.validation_rules.specs.Violations.{Breach};

/// There is one list with some breaches in the order of the text.
pub fn one_order()
    ensures { (breaches first second : List Breach) → IsInTextOrder breaches first
        → IsInTextOrder breaches second → first ≡ second }
{}
