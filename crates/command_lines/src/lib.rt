//! What the words of a command line have the programs do.
//!
//! Each program calls `options` of the module that has its name, on the words after that name. The module has the table
//! of the program's options, and what is made of their values. `options` reads the words by any such table, and
//! `information` knows `--help` and `--version`. `streams` has what `gqlfmt` and `gqlcheck` write of themselves and of
//! a wrong word, and `complaints` what they say of a text that they could not read. Nothing here knows the parser, so a
//! check of the words takes seconds.
#![tactic(auto)]

pub mod complaints;
pub mod gqlcheck;
pub mod gqlcst;
pub mod gqlfmt;
pub mod gqlls;
pub mod information;
pub mod misuse;
mod numbers;
pub mod options;
mod own_value;
pub mod streams;
