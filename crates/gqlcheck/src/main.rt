//! `gqlcheck` checks GraphQL documents before they run: that each is a document, that all of them together are valid by
//! the rules of `validate`, and that their operations are within limits.
//!
//! Here are only the words, the standard devices and the exit status. What is done between them is `run` of
//! `gqlcheck_run`.
#![tactic(auto)]

use byte_streams::{Patient, StdSink, StdSource, views, words};
use gqlcheck_run::{Checker, run};
use std::process::ExitCode;
use std_files::StdFiles;
use unignored_files::Unignored;

fn main(rt: HostRuntime) -> ExitCode {
    let Ok(words) = words(&rt) else {
        let _ = eprintln!(rt; "gqlcheck: out of memory");
        return ExitCode::from(2);
    };
    let Ok(views) = views(rt.alloc(), words.as_slice()) else {
        let _ = eprintln!(rt; "gqlcheck: out of memory");
        return ExitCode::from(2);
    };
    let checker = Checker { alloc: rt.alloc() };
    let mut reader = StdSource::new(Patient::new(&rt, rt.stdin()));
    let mut writer = StdSink::new(rt.stdout());
    let mut complaints = StdSink::new(rt.stderr());
    let mut files = Unignored::new(rt.alloc(), StdFiles::any(&rt));
    let status = run(
        rt.alloc(),
        &checker,
        &mut reader,
        &mut writer,
        &mut complaints,
        &mut files,
        views.as_slice(),
    );
    ExitCode::from(status)
}
