// A run of the program.
ghost use Rattle.std.specs.Prelude.{◌≡◌};
ghost use Rattle.command_lines.specs.Words.{texts};
ghost use Rattle.named_files.specs.Handling.{streams};
ghost use Rattle.gqlfmt_run.specs.Desks.{state_of};
ghost use Rattle.gqlfmt_run.specs.Program.{information_text, FormatsInput, Formats, HandlesInput, KeepsInput, Runs};

use crate::command::{HELP, PROGRAM, USAGE, VERSION};
use crate::desk::Desk;
use crate::job::{Bounds, Job};
use crate::outcome::end;
use byte_streams::{Sink, Source};
use command_lines::complaints::{FileFault, tell_of_file};
use command_lines::gqlfmt::{INPUT, options};
use command_lines::information::{Information, Request};
use command_lines::misuse::WordsError;
use command_lines::streams::{explain, print, say_no_memory};
use file_access::Files;
use formatter::DocumentFormatter;
use std::alloc::Allocator;

fn information_text(page: Information) -> &'static str
    ensures { result.now ≡ information_text page }
{
    match page {
        Information::Help => HELP,
        Information::Version => VERSION,
    }
}

impl<A: Allocator + Copy, L: DocumentFormatter> Job<'_, A, L> {
    // Formats standard input, and gives the status.
    fn format_standard_input<R: Source, W: Sink, E: Sink, F>(
        &self,
        reader: &mut R,
        desk: &mut Desk<F, W, E>,
        name: &str,
    ) -> u8
        ensures formats { FormatsInput self.now.mode self.now.bounds name.now result
            (streams (state_of R.account W.account E.account reader.old desk.old))
            (streams (state_of R.account W.account E.account reader.new desk.new)) }
        ensures files { desk.new.files ≡ desk.old.files }
    {
        let ended = self.format_input(reader, &mut desk.output, &mut desk.complaints, name);
        end(self.alloc, &mut desk.complaints, name, &ended)
    }

    // Passes standard input on as it is, and gives the status.
    fn keep_standard_input<R: Source, W: Sink, E: Sink, F>(
        &self,
        reader: &mut R,
        desk: &mut Desk<F, W, E>,
        name: &str,
    ) -> u8
        ensures keeps { KeepsInput self.now.mode name.now result
            (streams (state_of R.account W.account E.account reader.old desk.old))
            (streams (state_of R.account W.account E.account reader.new desk.new)) }
        ensures files { desk.new.files ≡ desk.old.files }
    {
        let ended = self.pass_on(reader, &mut desk.output);
        end(self.alloc, &mut desk.complaints, name, &ended)
    }

    // Formats standard input, unless it has a path that is left alone, and gives the status.
    fn handle_standard_input<R: Source, W: Sink, E: Sink, F: Files>(
        &self,
        reader: &mut R,
        desk: &mut Desk<F, W, E>,
        name: &str,
    ) -> u8
        ensures { HandlesInput F.lists F.omits F.reads F.replaces self.now.mode self.now.bounds name.now result
            (state_of R.account W.account E.account reader.old desk.old)
            (state_of R.account W.account E.account reader.new desk.new) }
    {
        if name == INPUT {
            return self.format_standard_input(reader, desk, name);
        }
        match desk.files.leaves_out(self.alloc, name) {
            Ok(true) => self.keep_standard_input(reader, desk, name),
            Ok(false) => self.format_standard_input(reader, desk, name),
            Err(error) => {
                let fault = FileFault::NotRead(error);
                tell_of_file(self.alloc, PROGRAM, &mut desk.complaints, name, &fault);
                2
            }
        }
    }

    // Formats the files that these paths name, or standard input, which has this name, where there are none, and gives
    // the status.
    fn format<R: Source, W: Sink, E: Sink, F: Files>(
        &self,
        reader: &mut R,
        desk: &mut Desk<F, W, E>,
        name: &str,
        paths: &[&str],
    ) -> u8
        ensures { Formats F.lists F.omits F.reads F.replaces self.now.mode self.now.bounds name.now
            (texts paths.now) result
            (state_of R.account W.account E.account reader.old desk.old)
            (state_of R.account W.account E.account reader.new desk.new) }
    {
        match paths {
            [] => self.handle_standard_input(reader, desk, name),
            _ => self.format_paths(desk, paths),
        }
    }
}

/// Carries out the request in the words after the program's name, and gives the status: 0 when all is done, 1 when a
/// mode that changes nothing found another layout, 2 when a text has errors, something could not be done, or the
/// program is not called so.
pub fn run<A: Allocator + Copy, L: DocumentFormatter, R: Source, W: Sink, E: Sink, F: Files>(
    alloc: A,
    formatter: &L,
    reader: &mut R,
    desk: &mut Desk<F, W, E>,
    words: &[&str],
) -> u8
    ensures { Runs F.lists F.omits F.reads F.replaces (texts words.now) result
        (state_of R.account W.account E.account reader.old desk.old)
        (state_of R.account W.account E.account reader.new desk.new) }
{
    match options(alloc, words) {
        Ok(Request::Print(page)) => {
            let text = information_text(page);
            print(PROGRAM, &mut desk.output, &mut desk.complaints, text)
        }
        Ok(Request::Process(plan)) => {
            let job = Job {
                alloc,
                formatter,
                mode: plan.mode(),
                bounds: Bounds {
                    limits: plan.limits(),
                    most_output: plan.most_output(),
                    line_endings: plan.line_endings(),
                },
            };
            job.format(reader, desk, plan.name(), plan.files.as_slice())
        }
        Err(WordsError::Usage(misuse)) => {
            explain(alloc, PROGRAM, USAGE, &mut desk.complaints, misuse);
            2
        }
        Err(WordsError::Memory) => {
            say_no_memory(PROGRAM, &mut desk.complaints);
            2
        }
    }
}
