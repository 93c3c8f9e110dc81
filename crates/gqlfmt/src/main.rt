//! `gqlfmt` puts GraphQL documents into one layout: files in place, or standard input to standard output.
//!
//! It can also list the files that would change, or show the changes. Here are only the words, the standard devices and
//! the exit status. What is done between them is `run` of `gqlfmt_run`.
#![tactic(auto)]

use byte_streams::{Patient, StdSink, StdSource, views, words};
use gqlfmt_run::{Desk, Formatter, run};
use std::process::ExitCode;
use std_files::StdFiles;
use unignored_files::Unignored;

fn main(rt: HostRuntime) -> ExitCode {
    let Ok(words) = words(&rt) else {
        let _ = eprintln!(rt; "gqlfmt: out of memory");
        return ExitCode::from(2);
    };
    let Ok(views) = views(rt.alloc(), words.as_slice()) else {
        let _ = eprintln!(rt; "gqlfmt: out of memory");
        return ExitCode::from(2);
    };
    let mut reader = StdSource::new(Patient::new(&rt, rt.stdin()));
    let mut desk = Desk {
        files: Unignored::new(rt.alloc(), StdFiles::new(&rt)),
        output: StdSink::new(rt.stdout()),
        complaints: StdSink::new(rt.stderr()),
    };
    let status = run(
        rt.alloc(),
        &Formatter,
        &mut reader,
        &mut desk,
        views.as_slice(),
    );
    ExitCode::from(status)
}
