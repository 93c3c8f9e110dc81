//! Laws of the calls' results: calls that do nothing, each with a theorem as its contract.

ghost use Rattle.std.specs.Prelude.{◌≡◌, List, ℕ, length};
ghost use Rattle.apollo_parser.specs.StringValues.{IsStringValue};
ghost use Rattle.c_parsing.specs.declared.rows.ByteCount.{ByteCount};
ghost use Rattle.c_parsing.specs.declared.rows.Counts.{Counts};
ghost use Rattle.c_parsing.specs.Again.{HasItemRoom, HasRoom, HoldItems, HoldParse};
ghost use Rattle.c_parsing.specs.Items.{ItemBuffers, ItemsOutcome};
ghost use Rattle.c_parsing.specs.Outcomes.{Buffers, Outcome, OK, StringOutcome};

/// A second parse of a text within the same limits counts what the first one did, and with just that room it writes all
/// of the parse.
pub fn parse_again()
    ensures { (source : List ℕ) (max_depth max_items : ℕ) (before after room filled : Buffers) (first second : Counts)
        → Outcome source max_depth max_items before after first → first.status ≡ OK
        → Outcome source max_depth max_items room filled second → second.status ≡ OK
        → (second ≡ first) × (HasRoom room first → HoldParse source max_depth max_items filled) }
{}

/// A second call on a string, with just the room that the first one counted, fills it with the value.
pub fn string_value_again()
    ensures { (literal before after room value : List ℕ) (first second : ByteCount)
        → StringOutcome literal before after first → first.status ≡ OK
        → StringOutcome literal room value second → second.status ≡ OK → length room ≡ first.bytes
        → IsStringValue literal value }
{}

/// A second cut of a text within the same limit counts what the first one did, and with just that room it writes all
/// items and errors.
pub fn items_again()
    ensures { (source : List ℕ) (max_items : ℕ) (before after room filled : ItemBuffers) (first second : Counts)
        → ItemsOutcome source max_items before after first → first.status ≡ OK
        → ItemsOutcome source max_items room filled second → second.status ≡ OK
        → (second ≡ first) × (HasItemRoom room first → HoldItems source max_items filled) }
{}
