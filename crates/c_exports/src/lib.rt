//! The calls of `c_parsing` and `c_validation` for C, each with its contract: a static library, which Python loads too.
//!
//! `bindings/c/include/dumyroke.h` declares them and says what each number is, and `bindings/c/tests/edges.c` calls
//! each of them.
#![tactic(auto)]

ghost use Rattle.std.specs.Prelude.{◌≡◌, ◌+◌, ◌*◌, ◌-◌, ◌^◌, min};
ghost use Rattle.c_parsing.specs.Items.{ItemsOutcome};
ghost use Rattle.c_parsing.specs.Outcomes.{FormatOutcome, Outcome, SelectionSetOutcome, StringOutcome, TypeOutcome};
ghost use Rattle.c_validation.specs.Outcomes.{MeasureOutcome, ValidationOutcome};

use c_parsing::{
    CompactElement, Counts, ErrorRow, ItemRow, Limits, format_into, lex_into, parse_into,
    parse_selection_set_into, parse_type_into, string_value_into,
};
use c_validation::{
    MeasureCounts, OperationRow, ViolationCounts, ViolationRow, default_steps, measure_into,
    validate_into,
};
use std::alloc::Global;

/// `parse_into`. It answers the status of the counts.
#[unsafe(no_mangle)]
pub extern "C" fn dumyroke_parse(
    alloc: Global,
    source: &[u8],
    limits: Limits,
    elements: &mut [CompactElement],
    errors: &mut [ErrorRow],
    messages: &mut [u8],
    counts: &mut Counts,
) -> u32
    ensures status { result ≡ counts.new.status }
    ensures outcome { Outcome source.now limits.recursion limits.tokens
        (record { elements = elements.old; errors = errors.old; messages = messages.old })
        (record { elements = elements.new; errors = errors.new; messages = messages.new }) counts.new }
{
    *counts = parse_into(alloc, source, limits, elements, errors, messages);
    counts.status
}

/// `parse_selection_set_into`. It answers the status of the counts.
#[unsafe(no_mangle)]
pub extern "C" fn dumyroke_parse_selection_set(
    alloc: Global,
    source: &[u8],
    limits: Limits,
    elements: &mut [CompactElement],
    errors: &mut [ErrorRow],
    messages: &mut [u8],
    counts: &mut Counts,
) -> u32
    ensures status { result ≡ counts.new.status }
    ensures outcome { SelectionSetOutcome source.now limits.recursion limits.tokens
        (record { elements = elements.old; errors = errors.old; messages = messages.old })
        (record { elements = elements.new; errors = errors.new; messages = messages.new }) counts.new }
{
    *counts = parse_selection_set_into(alloc, source, limits, elements, errors, messages);
    counts.status
}

/// `parse_type_into`. It answers the status of the counts.
#[unsafe(no_mangle)]
pub extern "C" fn dumyroke_parse_type(
    alloc: Global,
    source: &[u8],
    limits: Limits,
    elements: &mut [CompactElement],
    errors: &mut [ErrorRow],
    messages: &mut [u8],
    counts: &mut Counts,
) -> u32
    ensures status { result ≡ counts.new.status }
    ensures outcome { TypeOutcome source.now limits.recursion limits.tokens
        (record { elements = elements.old; errors = errors.old; messages = messages.old })
        (record { elements = elements.new; errors = errors.new; messages = messages.new }) counts.new }
{
    *counts = parse_type_into(alloc, source, limits, elements, errors, messages);
    counts.status
}

/// `lex_into`. It answers the status of the counts.
#[unsafe(no_mangle)]
pub extern "C" fn dumyroke_lex(
    alloc: Global,
    source: &[u8],
    token_limit: usize,
    items: &mut [ItemRow],
    errors: &mut [ErrorRow],
    messages: &mut [u8],
    counts: &mut Counts,
) -> u32
    ensures status { result ≡ counts.new.status }
    ensures outcome { ItemsOutcome source.now token_limit
        (record { items = items.old; errors = errors.old; messages = messages.old })
        (record { items = items.new; errors = errors.new; messages = messages.new }) counts.new }
{
    *counts = lex_into(alloc, source, token_limit, items, errors, messages);
    counts.status
}

/// `string_value_into`. It answers the status, and `bytes` gets the number of bytes.
#[unsafe(no_mangle)]
pub extern "C" fn dumyroke_string_value(
    alloc: Global,
    literal: &[u8],
    value: &mut [u8],
    bytes: &mut usize,
) -> u32
    ensures { StringOutcome literal.now value.old value.new (record { bytes = bytes.new; status = result }) }
{
    let count = string_value_into(alloc, literal, value);
    *bytes = count.bytes;
    count.status
}

/// `format_into`. It answers the status, and `bytes` gets the number of bytes.
#[unsafe(no_mangle)]
pub extern "C" fn dumyroke_format(
    alloc: Global,
    source: &[u8],
    limits: Limits,
    formatted: &mut [u8],
    bytes: &mut usize,
) -> u32
    ensures { FormatOutcome source.now limits.recursion limits.tokens formatted.old formatted.new
        (record { bytes = bytes.new; status = result }) }
{
    let count = format_into(alloc, source, limits, formatted);
    *bytes = count.bytes;
    count.status
}

/// `default_steps` of `variable_rules`: the limit of steps for a text of this number of bytes, if there is no reason
/// for another one.
#[unsafe(no_mangle)]
pub extern "C" fn dumyroke_default_steps(text_length: usize) -> usize
    ensures { result ≡ min (1000000 + 10 * text_length) (2 ^ 64 - 1) }
{
    default_steps(text_length)
}

/// `validate_into`. It answers the status of the counts.
#[unsafe(no_mangle)]
pub extern "C" fn dumyroke_validate(
    alloc: Global,
    source: &[u8],
    limits: Limits,
    most: usize,
    step_limit: usize,
    violations: &mut [ViolationRow],
    messages: &mut [u8],
    counts: &mut ViolationCounts,
) -> u32
    ensures status { result ≡ counts.new.status }
    ensures outcome { ValidationOutcome source.now limits.recursion limits.tokens most step_limit
        (record { violations = violations.old; messages = messages.old })
        (record { violations = violations.new; messages = messages.new }) counts.new }
{
    *counts = validate_into(
        alloc, source, limits, most, step_limit, violations, messages,
    );
    counts.status
}

/// `measure_into`. It answers the status of the counts.
#[unsafe(no_mangle)]
pub extern "C" fn dumyroke_measure(
    alloc: Global,
    source: &[u8],
    limits: Limits,
    operations: &mut [OperationRow],
    counts: &mut MeasureCounts,
) -> u32
    ensures status { result ≡ counts.new.status }
    ensures outcome { MeasureOutcome source.now limits.recursion limits.tokens operations.old
        operations.new counts.new }
{
    *counts = measure_into(alloc, source, limits, operations);
    counts.status
}
