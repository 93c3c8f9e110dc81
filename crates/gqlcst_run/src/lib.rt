//! What the program `gqlcst` does between its words, its reader and its writer.
//!
//! `gqlcst` calls `run`, which reads a text and writes what a mode shows of it: its errors, its tokens or its tree. The
//! words of the command line have the mode and the limits. Reader, writer and standard error are type parameters, so
//! that a contract can name the bytes that are read and written.
#![tactic(auto)]

mod command;
mod finding;
mod outcome;
mod output_buffer;
mod parser;
mod program;
mod report;

pub use program::run;
