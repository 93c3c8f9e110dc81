//! Five small programs over the trees of `apollo_parser`, run one after the other on the document that standard input
//! holds: its syntax errors, the rules that it breaks, a limit on the cost of its operations, the fields of its types,
//! and the fields of their keys.
#![tactic(auto)]

mod fields;
mod key_fields;
mod limiter;
mod linter;
mod syntax_errors;

use apollo_parser::Parser;
use std::io;

fn main(rt: HostRuntime) -> io::Result<()> {
    let source = io::read_to_string(rt.alloc(), rt.stdin())?;
    let tree = Parser::new(source.as_str()).parse(rt.alloc())?;
    let report = syntax_errors::report(rt.alloc(), source.as_str(), &tree)?;
    print!(rt; "{report}")?;
    let broken = linter::lint(rt.alloc(), source.as_str(), &tree.root())?;
    print!(rt; "{broken}")?;
    if let Some(reason) = limiter::refusal(rt.alloc(), &tree.root())? {
        println!(rt; "refused: {reason}")?;
    }
    let list = fields::list(rt.alloc(), tree.root())?;
    print!(rt; "{list}")?;
    let keys = key_fields::list(rt.alloc(), source.as_str(), tree.root())?;
    print!(rt; "{keys}")
}
