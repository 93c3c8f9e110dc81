// Lines, raw values and block values of strings, and the error of literals.
use crate::answers::Answers;
use apollo_cst_core::{GraphQLLines, LiteralError, block_value, raw_value};
use std::alloc::{AllocError, Global};

const TEXTS: [&str; 4] = [
    "with\nand\r\nand\rall in the same\r\nstring",
    "",
    "\n\r\r\n",
    "é\ré",
];

fn put_lines(found: &mut Answers, text: &str) {
    found.push_text("lines:");
    for line in GraphQLLines::new(text) {
        found.put(&line);
    }
    found.end_line();
}

// No line follows the last.
fn put_last_line(found: &mut Answers) {
    let mut lines = GraphQLLines::new("é");
    found.push_text("next lines:");
    for _ in 0..3 {
        found.put(&lines.next());
    }
    found.end_line();
}

// What is between the quotes of block strings.
const INSIDES: [&str; 4] = [r#"\""""#, r#"a\"""b\""""#, r#"\"""#, r#"\\""""#];

// The same, with the escapes of three quotes replaced.
const RAW_VALUES: [&str; 10] = [
    "\n    x\n  \n    y\n",
    "   ",
    "",
    "multi\r\nline",
    "multi\rline",
    "  a\n    b\n\t\n",
    "  one line  ",
    "\n\n    a\n      b\n    c\n\n  ",
    r"escaped \n\t",
    "\n\t\té\n\t😀",
];

fn put_strings(alloc: Global, found: &mut Answers) -> Result<(), AllocError> {
    found.push_text("raw values:");
    for inside in INSIDES {
        found.put(&raw_value(inside, alloc)?.as_str());
    }
    found.push_text("\nblock values:");
    for raw in RAW_VALUES {
        found.put(&block_value(raw, alloc)?.as_str());
    }
    found.end_line();
    Ok(())
}

pub fn put_answers(alloc: Global, found: &mut Answers) -> Result<(), AllocError> {
    for text in TEXTS {
        put_lines(found, text);
    }
    put_last_line(found);
    put_strings(alloc, found)?;
    found.push_text("error:");
    found.put(&LiteralError::OutOfRange);
    found.put(&(LiteralError::OutOfRange == LiteralError::OutOfRange));
    found.end_line();
    Ok(())
}
