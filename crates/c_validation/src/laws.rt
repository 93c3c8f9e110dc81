//! Laws of the calls' results: calls that do nothing, each with a theorem as its contract.

ghost use Rattle.std.specs.Prelude.{◌≡◌, ◌≢◌, ◌<◌, ◌↔◌, List, ℕ, length};
ghost use Rattle.c_parsing.specs.Outcomes.{NO_MEMORY, OK};
ghost use Rattle.c_validation.specs.Again.{HoldMeasures, HoldViolations};
ghost use Rattle.c_validation.specs.Outcomes.{IsValidated, MeasureOutcome, ValidationOutcome, ViolationBuffers};
ghost use Rattle.c_validation.specs.Outcomes.{limit_of};
ghost use Rattle.c_validation.specs.ValidTexts.{IsValidText};
ghost use Rattle.c_validation.specs.declared.rows.MeasureCounts.{MeasureCounts};
ghost use Rattle.c_validation.specs.declared.rows.OperationRow.{OperationRow};
ghost use Rattle.c_validation.specs.declared.rows.ViolationCounts.{ViolationCounts};

/// A second measurement of a text within the same limits counts what the first one did, and with just that room it
/// writes all figures.
pub fn measures_again()
    ensures { (source : List ℕ) (max_depth max_items : ℕ) (before after room filled : List OperationRow)
        (first second : MeasureCounts)
        → MeasureOutcome source max_depth max_items before after first → first.status ≡ OK
        → MeasureOutcome source max_depth max_items room filled second → second.status ≡ OK
        → (second ≡ first) × (length room ≡ first.operations → HoldMeasures source max_depth max_items filled) }
{}

/// A second validation of a text within the same limits counts what the first one did. With just that room it writes
/// all of them and their messages.
pub fn violations_again()
    ensures { (source : List ℕ) (max_depth max_items most steps : ℕ) (before after room filled : ViolationBuffers)
        (first second : ViolationCounts)
        → ValidationOutcome source max_depth max_items most steps before after first → IsValidated first.status
        → ValidationOutcome source max_depth max_items most steps room filled second → IsValidated second.status
        → (second ≡ first) × (length room.violations ≡ first.violations → length room.messages ≡ first.message_bytes
        → HoldViolations source max_depth max_items most steps filled) }
{}

/// Unless memory is refused, the status is `OK`, and no violations are found, exactly if the text is a document within
/// both limits that keeps all rules, and the steps suffice to decide that.
pub fn valid_texts()
    ensures { (source : List ℕ) (max_depth max_items most steps : ℕ) (before after : ViolationBuffers)
        (counts : ViolationCounts)
        → ValidationOutcome source max_depth max_items most steps before after counts
        → 0 < most → counts.status ≢ NO_MEMORY
        → ((counts.status ≡ OK) × (counts.violations ≡ 0))
        ↔ IsValidText source max_depth max_items (limit_of steps) }
{}
