// How a block string is spelled in an indented line. Nothing is promised of it: `spelled` compares the values.
use crate::style::{BlockStyle, WriteError};
use std::alloc::{AllocError, Allocator};

/// How block strings are spelled in a line that is indented by a number of spaces: with a line for the quotes before
/// them, one for each line of the value, and one for the quotes after them. It stops after about as many bytes as are
/// allowed.
#[derive(Clone, Copy)]
pub struct Indented {
    pub spaces: usize,
    /// How many bytes are allowed.
    pub most: usize,
}

// Whether the text begins with a space or a tab.
fn begins_white(text: &str) -> bool {
    text.starts_with(' ') || text.starts_with('\t')
}

// A new line with its indent.
fn begin_line<A: Allocator>(text: &mut String<A>, indent: usize) -> Result<(), AllocError> {
    text.push('\n')?;
    for _ in 0..indent {
        text.push(' ')?;
    }
    Ok(())
}

// A line, in which `"""` has a backslash before it.
fn push_escaped<A: Allocator>(text: &mut String<A>, line: &str) -> Result<(), AllocError> {
    let mut is_after_quotes = false;
    for part in line.split("\"\"\"") {
        if is_after_quotes {
            text.push_str("\\\"\"\"")?;
        }
        is_after_quotes = true;
        text.push_str(part)?;
    }
    Ok(())
}

impl Indented {
    // The lines of a value, each in a new line: the first one only where the value begins below the quotes.
    fn push_lines<A: Allocator>(
        self,
        text: &mut String<A>,
        value: &str,
        begins_below: bool,
    ) -> Result<(), WriteError> {
        let mut is_below = begins_below;
        for line in value.split('\n') {
            if text.len() > self.most {
                return Err(WriteError::TooLong);
            }
            if is_below {
                begin_line(text, if line.is_empty() { 0 } else { self.spaces })?;
            }
            is_below = true;
            push_escaped(text, line)?;
        }
        Ok(())
    }

    // A value and the quotes after it, with each line below the quotes before it. Only a line that begins with white
    // space and is the only one stays in the line of the quotes.
    fn push_value<A: Allocator>(self, text: &mut String<A>, value: &str) -> Result<(), WriteError> {
        let is_beside = value.is_empty() || (!value.contains('\n') && begins_white(value));
        self.push_lines(text, value, !is_beside)?;
        begin_line(text, self.spaces)?;
        text.push_str("\"\"\"")?;
        Ok(())
    }
}

impl BlockStyle for Indented {
    fn block_text<A: Allocator>(&self, alloc: A, value: &str) -> Result<String<A>, WriteError> {
        let mut text = String::from_str(alloc, "\"\"\"")?;
        self.push_value(&mut text, value)?;
        Ok(text)
    }
}
