//! Writes the answers of calls on tokens, lexers, errors, trees and typed nodes, and then tries the texts of the
//! standard input: it prints those in which it finds something else than their records say. `stdout` has the right
//! answers.
//!
//! It is a program since a test function takes several times as long to prove, and one program since each loads the
//! parser anew.
#![tactic(auto)]

mod answers;
mod calls;
pub mod promises;
mod texts;

use apollo_parser::laws::one_parse;
use std::io;

fn main(rt: HostRuntime) -> io::Result<()> {
    // a law does nothing: this shows that a caller can call it
    one_parse();
    let answers = calls::answers(rt.alloc())?;
    print!(rt; "{answers}")?;
    let input = io::read_to_string(rt.alloc(), rt.stdin())?;
    texts::try_each(&rt, input.as_str())
}
