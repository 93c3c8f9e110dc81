// A limit on the cost of operations, as a gateway sets it.
use apollo_parser::SyntaxNode;
use cost_limits::{Figures, MeasureError, MeasureOptions, measure, within};
use std::alloc::{AllocError, Global};

// At most two fields in one another, and a hundred in all.
const LIMITS: Figures = Figures {
    depth: 2,
    fields: 100,
    ..Figures::UNLIMITED
};

/// Why a gateway does not run the operations of a document, or `None` where it runs them.
pub(crate) fn refusal(alloc: Global, root: &SyntaxNode<'_>) -> Result<Option<String>, AllocError> {
    let reason = match measure(alloc, &[*root], &MeasureOptions::EVERYTHING) {
        Ok(operations) => match within(operations.as_slice(), &LIMITS) {
            Ok(()) => return Ok(None),
            Err(over) => {
                format!(in alloc;
                    "{:?} {} is more than {}",
                    over.limit, over.found, over.most
                )?
            }
        },
        Err(MeasureError::Memory) => return Err(AllocError),
        Err(_) => String::from_str(alloc, "a fragment is not there, there twice, or in itself")?,
    };
    Ok(Some(reason))
}
