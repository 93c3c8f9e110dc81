#![tactic(auto)]

use apollo_parser::Parser;
use std::io;

fn main(rt: HostRuntime) -> io::Result<()> {
    let source = io::read_to_string(rt.alloc(), rt.stdin())?;
    let tree = Parser::new(source.as_str()).parse(rt.alloc())?;
    for error in tree.errors() {
        println!(rt; "byte {}: {}", error.index(), error.message())?;
    }
    for definition in tree.document().definitions() {
        if let Some(name) = definition.name() {
            println!(rt; "{} {}", definition.kind(), name.text())?;
        }
    }
    Ok(())
}
