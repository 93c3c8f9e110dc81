// A run of the program.
ghost use Rattle.std.specs.Prelude.{◌≡◌, ◌++◌, IfErr, IfOk, codes, map};
ghost use Rattle.document_checks.specs.Checking.{as_asked};
ghost use Rattle.command_lines.specs.Options.{texts_set};
ghost use Rattle.command_lines.specs.Reading.{as_given};
ghost use Rattle.command_lines.specs.Words.{texts};
ghost use Rattle.gqlcheck_run.specs.Inputs.{as_input, as_texts};
ghost use Rattle.gqlcheck_run.specs.Reading.{ReadsTexts};
ghost use Rattle.gqlcheck_run.specs.Program.{ChecksAll, ChecksIfRules, ChecksTexts, Refuses, Runs, allowed_by};
ghost use Rattle.gqlcheck_run.specs.Program.{as_paths, asked_by, asked_of, information_text, introspection_of};
ghost use Rattle.gqlcheck_run.specs.Program.{printing_of, schema_texts, warned_by};
ghost use Rattle.gqlcheck_run.specs.Rules.{AreRules, IsNotRead, IsUnknownRule};

use crate::command::{HELP, PROGRAM, USAGE, VERSION};
use crate::folders::read_paths;
use crate::frame::{close, opening};
use crate::inputs::{Input, Texts, bytes_in, read_input};
use crate::job::{Job, Printing};
use crate::rules::Rules;
use crate::tally::Tally;
use byte_streams::{Sink, Source};
use command_lines::gqlcheck::{Format, options};
use command_lines::information::{Information, Request};
use command_lines::misuse::WordsError;
use command_lines::options::Plan;
use command_lines::streams::{explain, print, say_no_memory};
use document_checks::{Checks, DocumentChecker, Introspection, default_steps};
use file_access::Files;
use std::alloc::Allocator;

// How many findings of a text are printed at most, in a format.
fn most_findings(format: Format) -> usize {
    match format {
        Format::Text | Format::Github => 20,
        Format::Json | Format::Sarif => 1000,
    }
}

// The paths of a run.
#[derive(Clone, Copy)]
struct Paths<'p> {
    // those whose texts are judged
    judged: &'p [&'p str],
    // those whose texts are known
    known: &'p [&'p str],
    // those of a schema
    schema: &'p [&'p str],
}

// What a plan names: rules, and paths beside its files.
#[derive(Drop)]
struct Named<'w, A: Allocator> {
    rules: Rules,
    known: Vec<&'w str, A>,
    schema: Vec<&'w str, A>,
}

impl<'w, A: Allocator + Copy> Named<'w, A> {
    fn of(alloc: A, plan: &Plan<'w, A>) -> Result<Named<'w, A>, WordsError<'w>>
        ensures rules { IfOk result (λ named. AreRules (allowed_by (as_given plan.now)) (warned_by (as_given plan.now))
            named.rules.judged named.rules.told) }
        ensures known { IfOk result (λ named. texts named.known.items
            ≡ texts_set (codes "--fragments") (as_given plan.now)) }
        ensures schema { IfOk result (λ named. texts named.schema.items
            ≡ texts_set (codes "--schema") (as_given plan.now)) }
        ensures err { IfErr result (λ error. IsNotRead
            (IsUnknownRule (allowed_by (as_given plan.now) ++ warned_by (as_given plan.now))) error) }
    {
        let rules = Rules::of(alloc, plan.text("--allow"), plan.text("--warn"))?;
        let known = plan.texts(alloc, "--fragments")?;
        let schema = plan.texts(alloc, "--schema")?;
        Ok(Named {
            rules,
            known,
            schema,
        })
    }

    // The paths of a run with these files.
    fn paths<'p>(&'p self, files: &'p [&'w str]) -> Paths<'p>
        ensures { as_paths result ≡ record {
          judged = texts files.now;
          known = texts self.now.known.items;
          schema = texts self.now.schema.items;
        } }
    {
        Paths {
            judged: files,
            known: self.known.as_slice(),
            schema: self.schema.as_slice(),
        }
    }
}

fn information_text(page: Information) -> &'static str
    ensures { result.now ≡ information_text page }
{
    match page {
        Information::Help => HELP,
        Information::Version => VERSION,
    }
}

// Whether the fields count that introspect the schema.
fn introspection_of<A: Allocator>(plan: &Plan<'_, A>) -> Introspection
    ensures { result ≡ introspection_of (as_given plan.now) }
{
    if plan.is_set("--without-introspection") {
        Introspection::LeftOut
    } else {
        Introspection::Counted
    }
}

// How many texts are those of the schema, by its paths and the status of their reading.
fn schema_texts(paths: &[&str], status: u8, count: usize) -> Option<usize>
    ensures { result ≡ schema_texts (texts paths.now) status count }
{
    match (paths, status) {
        ([], _) => None,
        (_, 0) => Some(count),
        _ => None,
    }
}

// Reads the files that these paths name, or standard input where there are none, and gives the status.
fn read_texts<A: Allocator + Copy, R: Source, E: Sink, F: Files>(
    alloc: A,
    reader: &mut R,
    complaints: &mut E,
    files: &mut F,
    kept: &mut Texts<A>,
    paths: &[&str],
) -> u8
    ensures { ReadsTexts F.lists F.omits F.reads (texts paths.now) result
        (R.account reader.old) (R.account reader.new)
        (record { files = files.old; complaints = E.account complaints.old; texts = as_texts kept.old })
        (record { files = files.new; complaints = E.account complaints.new; texts = as_texts kept.new }) }
{
    match paths {
        [] => read_input(alloc, reader, complaints, &mut kept.inputs),
        _ => read_paths(alloc, files, complaints, kept, paths),
    }
}

impl<'c, 'w, A: Allocator + Copy, C: DocumentChecker> Job<'c, 'w, A, C> {
    // What a run of this plan does with each text, by the rules.
    fn of(alloc: A, checker: &'c C, plan: &Plan<'w, A>, rules: Rules) -> Job<'c, 'w, A, C>
        ensures asked { as_asked result.checks ≡ asked_by (as_given plan.now) rules.judged rules.told }
        ensures printing { result.printing ≡ printing_of (as_given plan.now) }
    {
        Job {
            alloc,
            checker,
            checks: Checks {
                limits: plan.limits(),
                most: plan.most(),
                introspection: introspection_of(plan),
                operation: plan.operation(),
                findings: most_findings(plan.format()),
                judged: None,
                schema: None,
                rules: rules.judged,
                warnings: rules.told,
                steps: plan.number("--max-steps"),
            },
            printing: Printing {
                figures: plan.is_set("--figures"),
                format: plan.format(),
            },
        }
    }

    // The same for texts, of which some are those of a schema, and as many as this are judged.
    fn for_texts(
        &self,
        schema: Option<usize>,
        judged: usize,
        inputs: &[Input<A>],
    ) -> Job<'c, 'w, A, C>
        ensures asked { as_asked result.checks
            ≡ asked_of (as_asked self.now.checks) schema judged (map as_input inputs.now) }
        ensures printing { result.printing ≡ self.now.printing }
    {
        let steps = match self.checks.steps {
            Some(steps) => steps,
            None => default_steps(bytes_in(inputs)),
        };
        Job {
            alloc: self.alloc,
            checker: self.checker,
            checks: Checks {
                schema,
                judged: Some(judged),
                steps: Some(steps),
                ..self.checks
            },
            printing: self.printing,
        }
    }

    // Reads the files that these paths name, checks them together, and gives the status.
    fn check_texts<R: Source, W: Sink, E: Sink, F: Files>(
        &self,
        reader: &mut R,
        writer: &mut W,
        complaints: &mut E,
        files: &mut F,
        tally: &mut Tally,
        paths: Paths<'_>,
    ) -> u8
        ensures checks { ChecksTexts F.lists F.omits F.reads (as_asked self.now.checks) self.now.printing
            (as_paths paths.entry) result
            (record {
              input = R.account reader.old;
              output = W.account writer.old;
              complaints = E.account complaints.old;
              files = files.old;
            })
            (record {
              input = R.account reader.new;
              output = W.account writer.new;
              complaints = E.account complaints.new;
              files = files.new;
            }) }
        ensures quiet { result ≡ 0 → tally.new.errors ≡ tally.old.errors }
    {
        let alloc = self.alloc;
        let mut kept = Texts::new(alloc);
        let defined = read_paths(alloc, files, complaints, &mut kept, paths.schema);
        let schema = schema_texts(paths.schema, defined, kept.inputs.len());
        let read = read_texts(alloc, reader, complaints, files, &mut kept, paths.judged);
        let judged = kept.inputs.len();
        let added = read_paths(alloc, files, complaints, &mut kept, paths.known);
        let job = self.for_texts(schema, judged, kept.inputs.as_slice());
        let found = job.check_inputs(writer, complaints, tally, kept.inputs.as_slice());
        defined.max(read).max(added).max(found)
    }

    // Does that between what comes before the texts and what comes after them, and gives the status of the run.
    fn check_all<R: Source, W: Sink, E: Sink, F: Files>(
        &self,
        reader: &mut R,
        writer: &mut W,
        complaints: &mut E,
        files: &mut F,
        paths: Paths<'_>,
    ) -> u8
        ensures { ChecksAll F.lists F.omits F.reads (as_asked self.now.checks) self.now.printing
            (as_paths paths.entry) result
            (record {
              input = R.account reader.old;
              output = W.account writer.old;
              complaints = E.account complaints.old;
              files = files.old;
            })
            (record {
              input = R.account reader.new;
              output = W.account writer.new;
              complaints = E.account complaints.new;
              files = files.new;
            }) }
    {
        let opened = print(PROGRAM, writer, complaints, opening(self.printing.format));
        if opened != 0 {
            return opened;
        }
        let mut tally = Tally::NONE;
        let status = self.check_texts(reader, writer, complaints, files, &mut tally, paths);
        close(
            self.alloc,
            self.printing,
            writer,
            complaints,
            &tally,
            status,
        )
    }
}

// Says why there is nothing to carry out. The status is 2.
fn refuse<A: Allocator, E: Sink>(alloc: A, complaints: &mut E, error: WordsError<'_>) -> u8
    ensures { Refuses error.entry result (E.account complaints.old) (E.account complaints.new) }
{
    match error {
        WordsError::Usage(misuse) => explain(alloc, PROGRAM, USAGE, complaints, misuse),
        WordsError::Memory => say_no_memory(PROGRAM, complaints),
    }
    2
}

// Checks by a plan, if the rules that it names are rules, and gives the status.
fn check_by<A: Allocator + Copy, C: DocumentChecker, R: Source, W: Sink, E: Sink, F: Files>(
    alloc: A,
    checker: &C,
    reader: &mut R,
    writer: &mut W,
    complaints: &mut E,
    files: &mut F,
    plan: &Plan<'_, A>,
) -> u8
    ensures { ChecksIfRules F.lists F.omits F.reads (as_given plan.now) result
        (record {
          input = R.account reader.old;
          output = W.account writer.old;
          complaints = E.account complaints.old;
          files = files.old;
        })
        (record {
          input = R.account reader.new;
          output = W.account writer.new;
          complaints = E.account complaints.new;
          files = files.new;
        }) }
{
    match Named::of(alloc, plan) {
        Ok(named) => {
            let job = Job::of(alloc, checker, plan, named.rules);
            let paths = named.paths(plan.files.as_slice());
            job.check_all(reader, writer, complaints, files, paths)
        }
        Err(error) => refuse(alloc, complaints, error),
    }
}

/// Carries out the request in the words after the program's name, and gives the status: 0 when all texts are read and
/// pass together, 1 when they do not, 2 when something could not be read or written, memory was refused, or the program
/// is not called so. Texts that are not read do not keep the others from being judged. Those of `--schema` are judged,
/// too, and all that are judged by the types that they define, unless one of them was not read. Those of `--fragments`
/// are known and not judged. Nothing is said on standard error but with status 2, and a text in which nothing is found
/// prints nothing but its figures, if they are wanted. A SARIF log is one object for all texts: it is begun before the
/// first and ended after the last. No file is changed.
pub fn run<A: Allocator + Copy, C: DocumentChecker, R: Source, W: Sink, E: Sink, F: Files>(
    alloc: A,
    checker: &C,
    reader: &mut R,
    writer: &mut W,
    complaints: &mut E,
    files: &mut F,
    words: &[&str],
) -> u8
    ensures { Runs F.lists F.omits F.reads (texts words.now) result
        (record {
          input = R.account reader.old;
          output = W.account writer.old;
          complaints = E.account complaints.old;
          files = files.old;
        })
        (record {
          input = R.account reader.new;
          output = W.account writer.new;
          complaints = E.account complaints.new;
          files = files.new;
        }) }
{
    match options(alloc, words) {
        Ok(Request::Print(page)) => print(PROGRAM, writer, complaints, information_text(page)),
        Ok(Request::Process(plan)) => {
            check_by(alloc, checker, reader, writer, complaints, files, &plan)
        }
        Err(error) => refuse(alloc, complaints, error),
    }
}
