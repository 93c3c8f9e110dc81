//! `gqlls` is a language server for GraphQL documents over standard input and output.
//!
//! Here are only the words, the standard devices and the exit status. What is done between them is `run` of
//! `gqlls_program`.
#![tactic(auto)]

use byte_streams::{StdSink, StdSource, views, words};
use gqlls_program::run;
use std::process::ExitCode;
use std_files::StdFiles;

fn main(rt: HostRuntime) -> ExitCode {
    let Ok(words) = words(&rt) else {
        let _ = eprintln!(rt; "gqlls: out of memory");
        return ExitCode::from(2);
    };
    let Ok(views) = views(rt.alloc(), words.as_slice()) else {
        let _ = eprintln!(rt; "gqlls: out of memory");
        return ExitCode::from(2);
    };
    let mut reader = StdSource::new(rt.stdin());
    let mut writer = StdSink::new(rt.stdout());
    let mut complaints = StdSink::new(rt.stderr());
    let status = run(
        rt.alloc(),
        &mut reader,
        &mut writer,
        &mut complaints,
        StdFiles::new(&rt),
        views.as_slice(),
    );
    ExitCode::from(status)
}
