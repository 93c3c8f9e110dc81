// The ignore files of a folder.
ghost use Rattle.std.specs.Prelude.{◌≡◌, ◌∷◌, [], false, IfErr, OnOk};
ghost use Rattle.std.specs.IoError.{error_kind};
ghost use Rattle.ignore_rules.specs.Ignored.{as_rules};
ghost use Rattle.unignored_files.specs.Reading.{Adds, FailsToAdd, file_at, files_of};

use file_access::Files;
use ignore_rules::Rules;
use std::alloc::Allocator;
use std::io::{self, Error, ErrorKind};
use std::path::Path;

const GIT: &str = ".gitignore";

const PRETTIER: &str = ".prettierignore";

const GQLFMT: &str = ".gqlfmtignore";

// Why nothing of a folder is looked at whose ignore file of this name can't be read.
fn unreadable(name: &str, error: Error) -> Error
    ensures { error_kind result ≡ error_kind error }
{
    let words = match name {
        GIT => "its .gitignore can't be read",
        PRETTIER => "its .prettierignore can't be read",
        _ => "its .gqlfmtignore can't be read",
    };
    Error::new(error.kind(), words)
}

// Adds the rules of the ignore file of this name in a folder, if it is there.
fn add_file<F: Files, A: Allocator + Copy>(
    alloc: A,
    files: &mut F,
    rules: &mut Rules<A>,
    folder: &str,
    name: &str,
) -> io::Result<()>
    ensures ok { OnOk result
        (Adds F.reads (file_at folder.now name.now ∷ []) (as_rules rules.old) (as_rules rules.new)
        files.old files.new) }
    ensures err { IfErr result
        (FailsToAdd F.reads (file_at folder.now name.now ∷ []) (as_rules rules.old) files.old files.new) }
{
    let path = Path::new(folder).join(alloc, name)?;
    match files.read(alloc, path.as_str()) {
        Ok(text) => {
            rules.add(folder, text.as_slice())?;
            Ok(())
        }
        Err(error) => match error.kind() {
            ErrorKind::NotFound => Ok(()),
            _ => Err(unreadable(name, error)),
        },
    }
}

// Adds the rules of the ignore files of formatters in a folder.
fn add_others<F: Files, A: Allocator + Copy>(
    alloc: A,
    files: &mut F,
    rules: &mut Rules<A>,
    folder: &str,
) -> io::Result<()>
    ensures ok { OnOk result
        (Adds F.reads (files_of false folder.now) (as_rules rules.old) (as_rules rules.new) files.old files.new) }
    ensures err { IfErr result
        (FailsToAdd F.reads (files_of false folder.now) (as_rules rules.old) files.old files.new) }
{
    add_file(alloc, files, rules, folder, PRETTIER)?;
    add_file(alloc, files, rules, folder, GQLFMT)
}

/// Adds the rules of the ignore files in a folder, with the one of git or without.
pub fn add_folder<F: Files, A: Allocator + Copy>(
    alloc: A,
    files: &mut F,
    rules: &mut Rules<A>,
    folder: &str,
    with_git: bool,
) -> io::Result<()>
    ensures ok { OnOk result
        (Adds F.reads (files_of with_git folder.now) (as_rules rules.old) (as_rules rules.new) files.old files.new) }
    ensures err { IfErr result
        (FailsToAdd F.reads (files_of with_git folder.now) (as_rules rules.old) files.old files.new) }
{
    if !with_git {
        return add_others(alloc, files, rules, folder);
    }
    add_file(alloc, files, rules, folder, GIT)?;
    add_others(alloc, files, rules, folder)
}
