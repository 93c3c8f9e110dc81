// Formatting files.
ghost use Rattle.std.specs.Prelude.{ℕ, List, Ok, Result, map};
ghost use Rattle.std.specs.declared.io.Error.{Error};
ghost use Rattle.named_files.specs.Finding.{as_named, path_of};
ghost use Rattle.named_files.specs.Handling.{InTurn};
ghost use Rattle.gqlfmt_run.specs.Complaints.{IsSilent};
ghost use Rattle.gqlfmt_run.specs.Desks.{desk_of};
ghost use Rattle.gqlfmt_run.specs.Paths.{FollowsText, FormatsFound, HandlesFile, HandlesFound};

use crate::desk::Desk;
use crate::job::Job;
use crate::outcome::end_of_file;
use crate::settlement::Settled;
use byte_streams::{Fault, Sink};
use command_lines::complaints::FileFault;
use command_lines::gqlfmt::Mode;
use file_access::Files;
use formatter::DocumentFormatter;
use named_files::Named;
use std::alloc::Allocator;

impl<A: Allocator + Copy, L: DocumentFormatter> Job<'_, A, L> {
    // Replaces the file at a path, which has this text, if formatting changes the text. `complaints` have why it is
    // refused, and nothing else. Here is the one call of the program that destroys something, so the function is small,
    // and its contract can be read alone.
    fn rewrite<F: Files, E: Sink>(
        &self,
        files: &mut F,
        complaints: &mut E,
        path: &str,
        bytes: &[u8],
    ) -> Result<Settled, FileFault>
        ensures follows { FollowsText F.reads F.replaces self.now.bounds path.now bytes.now result files.old files.new }
        ensures silent { IsSilent self.now.bounds path.now (Ok bytes.now) result (E.account complaints.old)
            (E.account complaints.new) }
    {
        let Ok(source) = str::from_utf8(bytes) else {
            return Err(FileFault::Device(Fault::Utf8));
        };
        let Some(text) = self.format_or_complain(complaints, path, source)? else {
            return Ok(Settled::Refused);
        };
        if text.as_str() == source {
            return Ok(Settled::Done);
        }
        match files.replace(path, text.as_str()) {
            Ok(()) => Ok(Settled::Done),
            Err(error) => Err(FileFault::NotReplaced(error)),
        }
    }

    /// Formats the file at a path: replaces it, or writes what the mode shows of it. `complaints` have why its text is
    /// refused, and nothing else.
    pub fn format_file<F: Files, W: Sink, E: Sink>(
        &self,
        desk: &mut Desk<F, W, E>,
        path: &str,
    ) -> Result<Settled, FileFault>
        ensures { (given : Result (List ℕ) Error)
            × HandlesFile F.reads F.replaces self.now.bounds self.now.mode path.now given result
            desk.old.files (W.account desk.old.output) desk.new.files (W.account desk.new.output)
            × IsSilent self.now.bounds path.now given result (E.account desk.old.complaints)
            (E.account desk.new.complaints) }
    {
        let bytes = match desk.files.read(self.alloc, path) {
            Ok(bytes) => bytes,
            Err(error) => return Err(FileFault::NotRead(error)),
        };
        let text = bytes.as_slice();
        match self.mode {
            Mode::Write => self.rewrite(&mut desk.files, &mut desk.complaints, path, text),
            Mode::Check | Mode::Diff | Mode::Print => {
                let settled = self.write_layout(
                    &mut desk.output,
                    &mut desk.complaints,
                    path,
                    text,
                )?;
                Ok(settled)
            }
        }
    }

    // Formats what was found, if it is a file.
    fn format_named<F: Files, W: Sink, E: Sink>(
        &self,
        desk: &mut Desk<F, W, E>,
        named: &Named<A>,
    ) -> Result<Settled, FileFault>
        ensures { (given : Result (List ℕ) Error)
            × HandlesFound F.reads F.replaces self.now.bounds self.now.mode (as_named named.now) given result
            desk.old.files (W.account desk.old.output) desk.new.files (W.account desk.new.output)
            × IsSilent self.now.bounds (path_of (as_named named.now)) given result (E.account desk.old.complaints)
            (E.account desk.new.complaints) }
    {
        match named {
            Named::File(path) => self.format_file(desk, path.as_str()),
            Named::Failed(_, error) => Err(FileFault::NotRead(*error)),
        }
    }

    // Does that, tells why it was not formatted, and gives the status.
    fn format_found<F: Files, W: Sink, E: Sink>(
        &self,
        desk: &mut Desk<F, W, E>,
        named: &Named<A>,
    ) -> u8
        ensures { FormatsFound F.reads F.replaces self.now.bounds self.now.mode (as_named named.now) result
            (desk_of W.account E.account desk.old) (desk_of W.account E.account desk.new) }
    {
        let ended = self.format_named(desk, named);
        end_of_file(
            self.alloc,
            &desk.files,
            &mut desk.complaints,
            named.path(),
            &ended,
        )
    }

    /// Formats the files that were found in order, also after one that fails, and gives the greatest of their statuses.
    /// `complaints` have why a text is refused or was not formatted.
    pub fn format_files<F: Files, W: Sink, E: Sink>(
        &self,
        desk: &mut Desk<F, W, E>,
        found: &[Named<A>],
    ) -> u8
        ensures { InTurn (FormatsFound F.reads F.replaces self.now.bounds self.now.mode) (map as_named found.now) result
            (desk_of W.account E.account desk.old) (desk_of W.account E.account desk.new) }
    {
        let mut status = 0;
        for named in found {
            let one = self.format_found(desk, named);
            status = status.max(one);
        }
        status
    }
}
