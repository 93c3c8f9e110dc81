// Whether operations are within limits.
ghost use Rattle.std.specs.Prelude.{All, map, IfOk, IfErr};
ghost use Rattle.cost_limits.specs.Measures.{as_measure};
ghost use Rattle.cost_limits.specs.Limits.{IsWithin, IsExceeded};

use crate::measures::OperationFigures;
use cost_figures::{Figures, Limit};
use validation_names::ExecutableDefinition;

/// A limit that an operation exceeds.
#[derive(Clone, Copy)]
pub struct Exceeded<'t> {
    pub operation: ExecutableDefinition<'t>,
    pub limit: Limit,
    /// The greatest figure that the limit allows.
    pub most: u64,
    /// The operation's figure, which is greater.
    pub found: u64,
}

/// Whether each figure of each operation is at most the one that `limits` has. The error has the first operation that
/// exceeds a limit, and the first limit that it exceeds, in the order of `Limit`.
pub fn within<'t>(operations: &[OperationFigures<'t>], limits: &Figures) -> Result<(), Exceeded<'t>>
    ensures within { IfOk result (λ _. All (IsWithin limits.now) (map as_measure operations.now)) }
    ensures exceeded { IfErr result (IsExceeded (map as_measure operations.now) limits.now) }
{
    for measured in operations {
        if let Some(limit) = measured.figures.first_exceeded(limits) {
            return Err(Exceeded {
                operation: measured.operation,
                limit,
                most: limits.limited_by(limit),
                found: measured.figures.limited_by(limit),
            });
        }
    }
    Ok(())
}
