// Calls on tokens, kinds, lexers, errors, builders, tables and typed nodes.
mod casts;
mod errors;
mod kinds;
mod laws;
mod lexer;
mod literals;
mod table;
mod tree;

use crate::answers::Answers;
use std::alloc::{AllocError, Global};

/// What the calls answer.
pub fn answers(alloc: Global) -> Result<String, AllocError> {
    laws::call_each();
    let mut found = Answers::new(alloc);
    kinds::put_answers(&mut found);
    lexer::put_answers(alloc, &mut found)?;
    errors::put_answers(alloc, &mut found)?;
    tree::put_answers(alloc, &mut found)?;
    table::put_answers(alloc, &mut found)?;
    literals::put_answers(alloc, &mut found)?;
    casts::put_answers(&mut found);
    found.into_text()
}
