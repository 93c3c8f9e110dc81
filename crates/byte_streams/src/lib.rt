//! Where a program reads and where it writes, as values of types that contracts can speak of.
//!
//! A `Source` gives bytes and a `Sink` takes them. A contract names the bytes that went through a device, and how often
//! it stopped or failed (`Account`). `read_to_end` and `write_all` go on to the end, and `Fault` says why a run has no
//! outcome.
//!
//! The programs above run over a `Source` and a `Sink`; their `main` makes both with `StdSource::new` and
//! `StdSink::new`. It has the `words` of its command line from here too, and in `gqlfmt` and `gqlcheck` a standard
//! input that waits (`Patient`).
#![tactic(auto)]

mod command_line;
mod devices;
mod fault;
mod input;
mod output;
mod patient;
mod std_devices;
mod trace;

pub use command_line::{views, words};
pub use devices::{DeviceError, Sink, Source};
pub use fault::Fault;
pub use input::read_to_end;
pub use output::write_all;
pub use patient::Patient;
pub use std_devices::{StdSink, StdSource};
pub use trace::Trace;
