// How a run over a text ends.
ghost use Rattle.std.specs.Prelude.{◌≡◌};
ghost use Rattle.gqlcst_run.specs.Ending.{Says, complaint_of, status_of};

use crate::finding::Finding;
use byte_streams::{Fault, Sink};
use command_lines::streams::say;

// The status for a text alone.
fn status_of(ended: &Result<Finding, Fault>) -> u8
    ensures { result ≡ status_of ended.now }
{
    match ended {
        Ok(Finding::Clean) => 0,
        Ok(Finding::Errors(_)) => 1,
        Err(_) => 2,
    }
}

fn complaint_of(fault: Fault) -> &'static str
    ensures { result.now ≡ complaint_of fault }
{
    match fault {
        Fault::Read => "gqlcst: cannot read\n",
        Fault::Utf8 => "gqlcst: input is not UTF-8\n",
        Fault::Memory => "gqlcst: out of memory\n",
        Fault::Write => "gqlcst: cannot write\n",
    }
}

/// Says why a text has no finding, if it has none, and gives the status for it: 0 when it is clean, 1 when it has
/// errors, and else 2.
pub fn end<E: Sink>(complaints: &mut E, ended: &Result<Finding, Fault>) -> u8
    ensures says { Says ended.now (E.account complaints.old) (E.account complaints.new) }
    ensures counted { result ≡ status_of ended.now }
{
    if let Err(fault) = ended {
        say(complaints, complaint_of(*fault));
    }
    status_of(ended)
}
