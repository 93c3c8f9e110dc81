// What is written to standard output of a text that is not refused.
ghost use Rattle.std.specs.Prelude.{◌≢◌, IfOk, string_bytes};
ghost use Rattle.gqlfmt_run.specs.declared.settlement.Settled.TheVariants.{Refused};
ghost use Rattle.gqlfmt_run.specs.Input.{IsShown};

use crate::diff::unified_diff;
use crate::quoted_names::quoted;
use crate::settlement::Settled;
use command_lines::gqlfmt::Mode;
use std::alloc::{AllocError, Allocator};

/// What comes of a source of this name that has this formatted text, and what is written of it. In the modes write and
/// print that is the formatted text. In the modes check and diff it is the quoted name as a line, or the changes from
/// the source, and nothing where formatting changes nothing.
pub fn formatted_output<A: Allocator + Copy>(
    alloc: A,
    mode: Mode,
    name: &str,
    source: &str,
    text: String<A>,
) -> Result<(Settled, String<A>), AllocError>
    ensures shown { IfOk result
        (λ it. IsShown mode name.now source.now (string_bytes text) it.0 (string_bytes it.1)) }
    ensures settled { IfOk result (λ it. it.0 ≢ Refused) }
{
    match mode {
        Mode::Write | Mode::Print => Ok((Settled::Done, text)),
        Mode::Check | Mode::Diff if text.as_str() == source => {
            Ok((Settled::Done, String::new(alloc)))
        }
        Mode::Check => {
            let mut line = quoted(alloc, name)?;
            line.push_str("\n")?;
            Ok((Settled::Found, line))
        }
        Mode::Diff => {
            let changes = unified_diff(alloc, name, source, text.as_str())?;
            Ok((Settled::Found, changes))
        }
    }
}
