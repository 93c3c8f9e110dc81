// The greatest figures of a run.
use crate::json_lines::key_of;
use crate::report::push_figures;
use document_checks::{Figures, Limit, OperationReport};
use std::alloc::{AllocError, Allocator};

// The greater of both, figure by figure.
fn greater(one: Figures, other: Figures) -> Figures {
    Figures {
        depth: one.depth.max(other.depth),
        fields: one.fields.max(other.fields),
        root_fields: one.root_fields.max(other.root_fields),
        aliases: one.aliases.max(other.aliases),
        directives: one.directives.max(other.directives),
        height: one.height.max(other.height),
        distinct_root_fields: one.distinct_root_fields.max(other.distinct_root_fields),
    }
}

/// The greatest figures of these operations, and of others before them if there are any.
pub fn greatest_of(before: Option<Figures>, operations: &[OperationReport]) -> Option<Figures> {
    let mut greatest = before;
    for operation in operations {
        greatest = match greatest {
            Some(figures) => Some(greater(figures, operation.figures)),
            None => Some(operation.figures),
        };
    }
    greatest
}

/// Adds a line `greatest: depth 3, fields 12, ..`, if any operation has figures.
pub fn push_greatest<A: Allocator>(
    text: &mut String<A>,
    greatest: Option<Figures>,
) -> Result<(), AllocError> {
    let Some(figures) = greatest else {
        return Ok(());
    };
    text.push_str("greatest")?;
    push_figures(text, &figures)
}

/// A line with an object that has the greatest figures, or no line where no operation has figures.
pub fn greatest_object<A: Allocator>(
    alloc: A,
    greatest: Option<Figures>,
) -> Result<String<A>, AllocError> {
    let mut text = String::new(alloc);
    let Some(figures) = greatest else {
        return Ok(text);
    };
    text.push_str("{\"greatest\":{")?;
    for (index, limit) in Limit::ALL.iter().enumerate() {
        let sign = if index == 0 { "" } else { "," };
        let name = key_of(*limit);
        let figure = figures.limited_by(*limit);
        write!(text, "{sign}\"{name}\":{figure}")?;
    }
    text.push_str("}}\n")?;
    Ok(text)
}
