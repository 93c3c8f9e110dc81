// Formatting the files that paths of the command line name.
ghost use Rattle.command_lines.specs.Words.{texts};
ghost use Rattle.gqlfmt_run.specs.Desks.{desk_of};
ghost use Rattle.gqlfmt_run.specs.Folders.{FormatsNamed, HandlesPath, HandlesPaths};

use crate::command::PROGRAM;
use crate::desk::Desk;
use crate::job::Job;
use byte_streams::{Fault, Sink};
use command_lines::complaints::{FileFault, tell, tell_of_file};
use file_access::Files;
use formatter::DocumentFormatter;
use named_files::named_files;
use std::alloc::Allocator;

impl<A: Allocator + Copy, L: DocumentFormatter> Job<'_, A, L> {
    // Formats the files that a path names, and gives the greatest of their statuses.
    fn format_path<F: Files, W: Sink, E: Sink>(&self, desk: &mut Desk<F, W, E>, path: &str) -> u8
        ensures { FormatsNamed F.lists F.reads F.replaces self.now.mode self.now.bounds path.now result
            (desk_of W.account E.account desk.old) (desk_of W.account E.account desk.new) }
    {
        match named_files(self.alloc, &mut desk.files, path) {
            Ok(found) => self.format_files(desk, found.as_slice()),
            Err(_) => {
                tell(
                    self.alloc,
                    PROGRAM,
                    &mut desk.complaints,
                    path,
                    Fault::Memory,
                );
                2
            }
        }
    }

    // Does that if what is at the path isn't to be left alone.
    fn format_unless_left_out<F: Files, W: Sink, E: Sink>(
        &self,
        desk: &mut Desk<F, W, E>,
        path: &str,
    ) -> u8
        ensures { HandlesPath F.lists F.omits F.reads F.replaces self.now.mode self.now.bounds path.now result
            (desk_of W.account E.account desk.old) (desk_of W.account E.account desk.new) }
    {
        match desk.files.leaves_out(self.alloc, path) {
            Ok(true) => 0,
            Ok(false) => self.format_path(desk, path),
            Err(error) => {
                let fault = FileFault::NotRead(error);
                tell_of_file(self.alloc, PROGRAM, &mut desk.complaints, path, &fault);
                2
            }
        }
    }

    /// Formats the files that these paths name in order, also after one that fails, and gives the greatest of their
    /// statuses. What `files` leaves out is left alone. `complaints` have why a text is refused or was not formatted.
    pub fn format_paths<F: Files, W: Sink, E: Sink>(
        &self,
        desk: &mut Desk<F, W, E>,
        paths: &[&str],
    ) -> u8
        ensures { HandlesPaths F.lists F.omits F.reads F.replaces self.now.mode self.now.bounds (texts paths.now) result
            (desk_of W.account E.account desk.old) (desk_of W.account E.account desk.new) }
    {
        let mut status = 0;
        for path in paths {
            let one = self.format_unless_left_out(desk, path);
            status = status.max(one);
        }
        status
    }
}
