// Texts, each with its findings. A record is a line `== MODE [RECURSION [TOKENS [COUNT]]]`, the text, a line `--`, and
// the findings; `-` sets no limit. With a count, the text is in five lines: its front, a piece that is repeated, the
// text inside, the piece that closes one, and its back. `finding` has the modes. The findings are those of
// `apollo-parser` 0.8.7, with the descriptions of September 2025 added to its grammar.
mod findings;
mod parts;
mod record;
mod typed;

use record::Record;
use std::alloc::{AllocError, Global};
use std::io;

// The findings, where they are not those of the record.
fn other_findings(alloc: Global, record: &Record<'_>) -> Result<Option<String>, AllocError> {
    let found = findings::findings(alloc, record)?;
    if found.as_str().trim_end() == record.wanted {
        return Ok(None);
    }
    Ok(Some(found))
}

/// Tries the records of an input, and prints those in which something else is found.
pub fn try_each(rt: &HostRuntime, input: &str) -> io::Result<()> {
    let mut tried = 0usize;
    for text in input.trim_end().split("\n== ").skip(1) {
        let Some(record) = Record::read(text) else {
            println!(rt; "no record: {text}")?;
            continue;
        };
        if let Some(found) = other_findings(rt.alloc(), &record)? {
            println!(rt; "== {text}\n-- but found was\n{found}")?;
        }
        tried = tried.saturating_add(1);
    }
    println!(rt; "{tried} texts")
}
