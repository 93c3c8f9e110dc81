// A whole run.
ghost use Rattle.std.specs.Prelude.{◌≡◌, IfErr, IfOk};
ghost use Rattle.command_lines.specs.Words.{texts};
ghost use Rattle.gqlls_program.specs.FolderDialogues.{Fails, Serves};
ghost use Rattle.gqlls_program.specs.Program.{Runs, complaint_of, information_text};

use crate::command::{HELP, PROGRAM, USAGE, VERSION};
use crate::folder::FolderServer;
use byte_streams::{Fault, Sink, Source};
use command_lines::gqlls::options;
use command_lines::information::{Information, Request};
use command_lines::misuse::WordsError;
use command_lines::streams::{explain, print, say, say_no_memory};
use file_access::Files;
use gqlls_server::{Limits, Server};
use rpc_serving::serve;
use std::alloc::Global;

fn information_text(page: Information) -> &'static str
    ensures { result.now ≡ information_text page }
{
    match page {
        Information::Help => HELP,
        Information::Version => VERSION,
    }
}

fn complaint_of(fault: Fault) -> &'static str
    ensures { result.now ≡ complaint_of fault }
{
    match fault {
        Fault::Read | Fault::Utf8 => "gqlls: cannot read\n",
        Fault::Memory => "gqlls: out of memory\n",
        Fault::Write => "gqlls: cannot write\n",
    }
}

// Serves a client until the end. Each text is parsed and formatted within the limits. Names are looked for in the open
// documents, and then in the GraphQL files of the folders that the client opens. It gives the exit status, and fails
// only when the reader or the writer fails, or when memory is refused.
fn serve_client<R: Source, W: Sink, F: Files + Drop>(
    alloc: Global,
    reader: &mut R,
    writer: &mut W,
    files: F,
    limits: Limits,
) -> Result<u8, Fault>
    ensures ok { IfOk result
        (λ status. Serves F.lists F.reads F.locates limits files status (R.account reader.old) (R.account reader.new)
        (W.account writer.old) (W.account writer.new)) }
    ensures err { IfErr result
        (Fails F.lists F.reads F.locates limits files (R.account reader.old) (R.account reader.new)
        (W.account writer.old) (W.account writer.new)) }
{
    let mut server = FolderServer::new(alloc, Server::new(alloc, limits), files);
    serve(alloc, &mut server, reader, writer)
}

/// Carries out the request in the words after the program's name, and gives the status. It prints a page of the
/// program, or serves a client within limits until the notification `exit` or the end of the input. Where that fails,
/// or a word is wrong, it says so, and the status is 2.
pub fn run<R: Source, W: Sink, E: Sink, F: Files + Drop>(
    alloc: Global,
    reader: &mut R,
    writer: &mut W,
    complaints: &mut E,
    files: F,
    words: &[&str],
) -> u8
    ensures { Runs F.lists F.reads F.locates files (texts words.now) result
        (record { input = R.account reader.old; output = W.account writer.old; complaints = E.account complaints.old })
        (record {
          input = R.account reader.new;
          output = W.account writer.new;
          complaints = E.account complaints.new;
        }) }
{
    match options(alloc, words) {
        Ok(Request::Print(page)) => print(PROGRAM, writer, complaints, information_text(page)),
        Ok(Request::Process(limits)) => match serve_client(alloc, reader, writer, files, limits) {
            Ok(status) => status,
            Err(fault) => {
                say(complaints, complaint_of(fault));
                2
            }
        },
        Err(WordsError::Usage(misuse)) => {
            explain(alloc, PROGRAM, USAGE, complaints, misuse);
            2
        }
        Err(WordsError::Memory) => {
            say_no_memory(PROGRAM, complaints);
            2
        }
    }
}
