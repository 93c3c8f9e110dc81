// Formatting a text, and standard input.
ghost use Rattle.std.specs.Prelude.{◌≡◌, ◌≢◌, ℕ, List, [], Ok, IfErr, IfOk, MatchOption, MatchResult, string_bytes};
ghost use Rattle.byte_streams.specs.Runs.{Reads, Writes};
ghost use Rattle.byte_streams.specs.declared.fault.Fault.TheVariants.{Read};
ghost use Rattle.gqlfmt_run.specs.declared.settlement.Settled.TheVariants.{Refused};
ghost use Rattle.gqlfmt_run.specs.Complaints.{IsSilent, SaysReason};
ghost use Rattle.gqlfmt_run.specs.Formatting.{IsLaidOut, IsRefused};
ghost use Rattle.gqlfmt_run.specs.Input.{IsOutput, PassesOn, unformatted_output};

use crate::job::Job;
use crate::settlement::Settled;
use crate::shown_changes::formatted_output;
use byte_streams::{Fault, Sink, Source, read_to_end, write_all};
use command_lines::gqlfmt::Mode;
use formatter::DocumentFormatter;
use std::alloc::{AllocError, Allocator};

// What is written of a text that is left alone.
fn unformatted_output(mode: Mode, bytes: &[u8]) -> &[u8]
    ensures { result.now ≡ unformatted_output mode bytes.now }
{
    match mode {
        Mode::Write | Mode::Print => bytes,
        Mode::Check | Mode::Diff => &bytes[..0],
    }
}

impl<A: Allocator + Copy, L: DocumentFormatter> Job<'_, A, L> {
    /// The formatted text of a source of this name, or `None` where it is refused. `complaints` have why, and nothing
    /// else.
    pub fn format_or_complain<E: Sink>(
        &self,
        complaints: &mut E,
        name: &str,
        source: &str,
    ) -> Result<Option<String<A>>, AllocError>
        ensures formatted { IfOk result
            (λ formatted. MatchOption formatted (IsRefused self.now.bounds source.now)
            (λ text. IsLaidOut self.now.bounds source.now (string_bytes text))) }
        ensures silent { MatchResult result
            (λ formatted. MatchOption formatted
            (SaysReason self.now.bounds name.now source.now (E.account complaints.old) (E.account complaints.new))
            (λ _. E.account complaints.new ≡ E.account complaints.old))
            (λ _. E.account complaints.new ≡ E.account complaints.old) }
    {
        match self.revise(source)? {
            Ok(text) => Ok(Some(text)),
            Err(refusal) => {
                self.complain(complaints, name, source, &refusal)?;
                Ok(None)
            }
        }
    }

    // What is written of a text of this name, and what came of it: nothing where it is refused, and `complaints` have
    // why.
    #[tactic(auto, using(crate::proofs::Outputs::shown_output))]
    fn output_of<E: Sink>(
        &self,
        complaints: &mut E,
        name: &str,
        source: &str,
    ) -> Result<(Settled, String<A>), AllocError>
        ensures output { IfOk result
            (λ it. IsOutput self.now.mode self.now.bounds name.now source.now it.0 (string_bytes it.1)) }
        ensures empty { IfOk result (λ it. it.0 ≡ Refused → string_bytes it.1 ≡ []) }
        ensures silent { MatchResult result
            (λ it. IsSilent {E = Unit {0}} self.now.bounds name.now (Ok source.now) (Ok it.0) (E.account complaints.old)
            (E.account complaints.new))
            (λ error. E.account complaints.new ≡ E.account complaints.old) }
    {
        match self.format_or_complain(complaints, name, source)? {
            Some(text) => {
                let (settled, output) = formatted_output(
                    self.alloc, self.mode, name, source, text,
                )?;
                Ok((settled, output))
            }
            None => Ok((Settled::Refused, String::new(self.alloc))),
        }
    }

    /// Formats the text of these bytes in memory, and then writes what the mode shows of it. `complaints` have why it
    /// is refused, and nothing else.
    pub fn write_layout<W: Sink, E: Sink>(
        &self,
        writer: &mut W,
        complaints: &mut E,
        name: &str,
        bytes: &[u8],
    ) -> Result<Settled, Fault>
        ensures output { Writes (IsOutput self.now.mode self.now.bounds name.now) result bytes.now
            (W.account writer.old) (W.account writer.new) }
        ensures silent { IsSilent self.now.bounds name.now (Ok bytes.now) result (E.account complaints.old)
            (E.account complaints.new) }
        ensures reads { IfErr result (λ fault. fault ≢ Read) }
    {
        let Ok(source) = str::from_utf8(bytes) else {
            return Err(Fault::Utf8);
        };
        let (settled, output) = self.output_of(complaints, name, source)?;
        write_all(writer, output.as_bytes())?;
        Ok(settled)
    }

    /// Reads to the end, and does that with the whole text.
    pub fn format_input<R: Source, W: Sink, E: Sink>(
        &self,
        reader: &mut R,
        writer: &mut W,
        complaints: &mut E,
        name: &str,
    ) -> Result<Settled, Fault>
        ensures { (input : List ℕ) × Reads result input (R.account reader.old) (R.account reader.new)
            × Writes (IsOutput self.now.mode self.now.bounds name.now) result input (W.account writer.old)
            (W.account writer.new)
            × IsSilent self.now.bounds name.now (Ok input) result (E.account complaints.old)
            (E.account complaints.new) }
    {
        let bytes = read_to_end(self.alloc, reader)?;
        self.write_layout(writer, complaints, name, bytes.as_slice())
    }

    /// Reads to the end, and writes the whole text as it is, or nothing in a mode that shows what would change.
    pub fn pass_on<R: Source, W: Sink>(
        &self,
        reader: &mut R,
        writer: &mut W,
    ) -> Result<Settled, Fault>
        ensures { (input : List ℕ) × Reads result input (R.account reader.old) (R.account reader.new)
            × PassesOn self.now.mode result input (W.account writer.old) (W.account writer.new) }
    {
        let bytes = read_to_end(self.alloc, reader)?;
        write_all(writer, unformatted_output(self.mode, bytes.as_slice()))?;
        Ok(Settled::Done)
    }
}
