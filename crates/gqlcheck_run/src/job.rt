// Judging the texts of a run, and writing what is found.
ghost use Rattle.std.specs.Prelude.{◌≡◌, ◌↔◌, All, IfOk, OnOk, false, length, map, string_bytes, true};
ghost use Rattle.byte_streams.specs.Runs.{Writes};
ghost use Rattle.document_checks.specs.Checking.{PassTogether, as_asked};
ghost use Rattle.document_checks.specs.Findings.{AreReports};
ghost use Rattle.document_checks.specs.Passing.{PassEach};
ghost use Rattle.document_checks.specs.Warnings.{WarnEach};
ghost use Rattle.document_checks.specs.declared.report.Report.{Report};
ghost use Rattle.named_files.specs.Handling.{InTurn};
ghost use Rattle.gqlcheck_run.specs.Ending.{has_figures, prints_figures};
ghost use Rattle.gqlcheck_run.specs.Inputs.{as_input, text_of};
ghost use Rattle.gqlcheck_run.specs.Judging.{IsOutput, JudgesTexts, Prints, WritesReport, judged_by};
ghost use Rattle.gqlcheck_run.specs.Rendering.{BeginsAtFirst};

use crate::command::PROGRAM;
use crate::github::commands;
use crate::inputs::{Input, sources};
use crate::json_lines::json_lines;
use crate::others::Others;
use crate::outcome::{end, verdict_of};
use crate::report::rendered;
use crate::sarif_results::results;
use crate::tally::Tally;
use byte_streams::{Fault, Sink, write_all};
use command_lines::gqlcheck::Format;
use command_lines::streams::say_no_memory;
use document_checks::{Checks, DocumentChecker, Report};
use std::alloc::{AllocError, Allocator};

/// What is printed of texts, and in which form.
#[derive(Clone, Copy)]
pub struct Printing {
    pub figures: bool,
    pub format: Format,
}

// Whether a format has a place for figures.
fn has_figures(format: Format) -> bool
    ensures { result ≡ has_figures format }
{
    match format {
        Format::Text | Format::Json => true,
        Format::Github | Format::Sarif => false,
    }
}

// Whether figures are wanted in a format that has a place for them.
fn prints_figures(printing: Printing) -> bool
    ensures { result ≡ prints_figures printing }
{
    printing.figures && has_figures(printing.format)
}

/// How texts are checked, by which checker and against what, in memory of the allocator; and what is printed of them.
#[derive(Drop)]
pub struct Job<'c, 'w, A: Allocator, C> {
    pub alloc: A,
    pub checker: &'c C,
    pub checks: Checks<'w>,
    pub printing: Printing,
}

impl<A: Allocator + Copy, C: DocumentChecker> Job<'_, '_, A, C> {
    // A report for each text, of all texts together.
    fn judge(&self, inputs: &[Input<A>]) -> Result<Vec<Report>, AllocError>
        ensures judged { IfOk result (λ reports. All (λ (r : Report). r.passes ≡ true) reports.items
            ↔ PassTogether (as_asked self.now.checks) (map text_of (map as_input inputs.now))) }
        ensures found { IfOk result
            (λ reports. AreReports self.now.checks.limits (map text_of (map as_input inputs.now)) reports.items) }
        ensures each { IfOk result
            (λ reports. PassEach (as_asked self.now.checks) (map text_of (map as_input inputs.now)) reports.items) }
        ensures warned { IfOk result
            (λ reports. WarnEach (as_asked self.now.checks) (map text_of (map as_input inputs.now)) reports.items) }
    {
        let sources = sources(self.alloc, inputs)?;
        self.checker.check(sources.as_slice(), &self.checks)
    }

    // A report in the format, by the tally of those before it.
    fn in_format(
        &self,
        tally: &Tally,
        others: &Others<'_, A>,
        input: &Input<A>,
        report: &Report,
    ) -> Result<Vec<u8, A>, AllocError>
        ensures { IfOk result (λ output. BeginsAtFirst self.now.printing.format (string_bytes input.now.name)
            (string_bytes input.now.text) report.now.findings.items output.items) }
    {
        let Printing { figures, format } = self.printing;
        let (name, source) = (input.name.as_str(), input.text.as_str());
        match format {
            Format::Text => rendered(others, name, source, report, figures),
            Format::Json => json_lines(others, name, source, report, figures),
            Format::Github => commands(others, name, source, report),
            Format::Sarif => results(others, name, source, report, tally.has_findings),
        }
    }

    // What is printed of a text: what keeps it from passing, what it is warned of, and its figures if they are wanted.
    fn output_of(
        &self,
        tally: &Tally,
        others: &Others<'_, A>,
        input: &Input<A>,
        report: &Report,
    ) -> Result<Vec<u8, A>, AllocError>
        ensures { IfOk result (λ output. IsOutput self.now.printing
            (record { input = as_input input.now; report = report.now }) output.items) }
    {
        if report.findings.is_empty() && !prints_figures(self.printing) {
            return Ok(Vec::new(self.alloc));
        }
        self.in_format(tally, others, input, report)
    }

    // Prints that. What is found counts where it is printed.
    fn print_report<W: Sink>(
        &self,
        writer: &mut W,
        tally: &mut Tally,
        others: &Others<'_, A>,
        input: &Input<A>,
        report: &Report,
    ) -> Result<(), Fault>
        ensures prints { Prints
            (IsOutput self.now.printing (record { input = as_input input.now; report = report.now }))
            result (W.account writer.old) (W.account writer.new) }
        ensures quiet { OnOk result (report.now.passes ≡ true → tally.new.errors ≡ tally.old.errors) }
    {
        let output = self.output_of(tally, others, input, report)?;
        write_all(writer, output.as_slice())?;
        tally.add(report);
        Ok(())
    }

    // Does that, tells why it was not done, and gives the status of the text.
    fn write_report<W: Sink, E: Sink>(
        &self,
        writer: &mut W,
        complaints: &mut E,
        tally: &mut Tally,
        others: &Others<'_, A>,
        input: &Input<A>,
        report: &Report,
    ) -> u8
        ensures writes { WritesReport self.now.printing
            (record { input = as_input input.now; report = report.now }) result
            (record { output = W.account writer.old; complaints = E.account complaints.old })
            (record { output = W.account writer.new; complaints = E.account complaints.new }) }
        ensures quiet { result ≡ 0 → tally.new.errors ≡ tally.old.errors }
    {
        let ended = self.print_report(writer, tally, others, input, report);
        let one = end(self.alloc, complaints, input.name.as_str(), &ended);
        one.max(verdict_of(report.passes))
    }

    // Writes the reports on these texts, also after one that is not written, and gives the greatest of their statuses.
    fn write_reports<W: Sink, E: Sink>(
        &self,
        writer: &mut W,
        complaints: &mut E,
        tally: &mut Tally,
        inputs: &[Input<A>],
        reports: &[Report],
    ) -> u8
        requires { AreReports self.now.checks.limits (map text_of (map as_input inputs.now)) reports.now }
        ensures writes { InTurn (WritesReport self.now.printing)
            (judged_by inputs.now reports.now) result
            (record { output = W.account writer.old; complaints = E.account complaints.old })
            (record { output = W.account writer.new; complaints = E.account complaints.new }) }
        ensures quiet { result ≡ 0 → tally.new.errors ≡ tally.old.errors }
    {
        let mut status = 0;
        for (here, input) in inputs.iter().enumerate() {
            let others = Others {
                alloc: self.alloc,
                inputs,
                here,
            };
            let report = &reports[here];
            let one = self.write_report(writer, complaints, tally, &others, input, report);
            status = status.max(one);
        }
        status
    }

    /// Judges texts together, writes what is found of each, and gives the greatest of their statuses: 0 where a text
    /// passes, 1 where it does not, and 2 where its report was not written. Where memory is refused for judging them,
    /// nothing is written, and the status is 2.
    pub fn check_inputs<W: Sink, E: Sink>(
        &self,
        writer: &mut W,
        complaints: &mut E,
        tally: &mut Tally,
        inputs: &[Input<A>],
    ) -> u8
        ensures judges { JudgesTexts (as_asked self.now.checks) self.now.printing (map as_input inputs.now) result
            (record { output = W.account writer.old; complaints = E.account complaints.old })
            (record { output = W.account writer.new; complaints = E.account complaints.new }) }
        ensures quiet { result ≡ 0 → tally.new.errors ≡ tally.old.errors }
    {
        match self.judge(inputs) {
            Ok(reports) => {
                self.write_reports(writer, complaints, tally, inputs, reports.as_slice())
            }
            Err(_) => {
                say_no_memory(PROGRAM, complaints);
                2
            }
        }
    }
}
