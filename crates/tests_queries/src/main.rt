//! Writes where the operations and fragments of the standard input break rules that need the types of a schema, by
//! `query_validation`.
//!
//! A record is a line `== MOST` or `== MOST messages`, the texts of the documents of a schema, a line `%%%%`, and the
//! texts of documents with operations and fragments. Between two texts is a line `%%`. For each violation there is a
//! line with its rule, and where it begins: the number of the document, and the byte. If it is about a definition in
//! the schema, that place follows. Then come `: ` and its message, if messages are wanted. The last line of a record is
//! `--`. `tests/queries` writes the texts, and finds the answers by graphql-core.
#![tactic(auto)]

mod judged;

use judged::answer;
use std::io;

fn main(rt: HostRuntime) -> io::Result<()> {
    let input = io::read_to_string(rt.alloc(), rt.stdin())?;
    for record in input.as_str().split("== ").skip(1) {
        let answer = answer(rt.alloc(), record)?;
        print!(rt; "{answer}")?;
    }
    Ok(())
}
