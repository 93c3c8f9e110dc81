//! Writes what breaks the rules on the variables of operations in the documents of the standard input, by
//! `variable_rules`.
//!
//! A record is a line `== MOST STEPS`, and the texts of documents that are judged together, with lines `%%` between
//! them. For each violation there is a line with its rule, and where it and the operation begin: the number of the
//! document, and the byte. The last line says which operation is the first that was not judged. `tests/variables`
//! writes the texts, and finds the answers by the rules' words alone.
#![tactic(auto)]

mod judged;

use judged::answer;
use std::io;

fn main(rt: HostRuntime) -> io::Result<()> {
    let input = io::read_to_string(rt.alloc(), rt.stdin())?;
    for record in input.as_str().split("== ").skip(1) {
        let answer = answer(rt.alloc(), record)?;
        print!(rt; "{answer}")?;
    }
    Ok(())
}
