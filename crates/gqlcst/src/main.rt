//! `gqlcst` reads a GraphQL document from the standard input, and says whether it is one or what is wrong with it.
//!
//! Its first word is the mode: `check` prints `clean` or the errors, `tokens` the items of the text, `tree` its syntax
//! tree. Options set the limits. Here are only the words, the standard devices and the exit status. What is done
//! between them is `run` of `gqlcst_run`.
#![tactic(auto)]

use byte_streams::{StdSink, StdSource, views, words};
use gqlcst_run::run;
use std::process::ExitCode;

fn main(rt: HostRuntime) -> ExitCode {
    let Ok(words) = words(&rt) else {
        let _ = eprintln!(rt; "gqlcst: out of memory");
        return ExitCode::from(2);
    };
    let Ok(views) = views(rt.alloc(), words.as_slice()) else {
        let _ = eprintln!(rt; "gqlcst: out of memory");
        return ExitCode::from(2);
    };
    let mut reader = StdSource::new(rt.stdin());
    let mut writer = StdSink::new(rt.stdout());
    let mut complaints = StdSink::new(rt.stderr());
    let status = run(
        rt.alloc(),
        &mut reader,
        &mut writer,
        &mut complaints,
        views.as_slice(),
    );
    ExitCode::from(status)
}
