// Calls on errors.
use crate::answers::Answers;
use apollo_lexer::{Error, quoting_error, static_error};
use std::alloc::{AllocError, Global};
use std::hash::{DefaultHasher, Hash, Hasher};

// Three errors that differ only in their subject: a text, the end and a limit.
fn about_a_text(alloc: Global) -> Result<Error, AllocError> {
    let message = String::from_str(alloc, "m")?;
    Ok(Error::with_loc(message, String::new(alloc), 5))
}

fn about_the_end(alloc: Global) -> Result<Error, AllocError> {
    Ok(Error::eof(String::from_str(alloc, "m")?, 5))
}

fn about_a_limit(alloc: Global) -> Result<Error, AllocError> {
    Ok(Error::limit(String::from_str(alloc, "m")?, 5))
}

fn put_error(found: &mut Answers, error: &Error) {
    found.show(error);
    found.push_text("|");
    found.put(error);
    found.put(&error.message());
    found.put(&error.data());
    found.put(&error.index());
    found.put(&error.is_eof());
    found.put(&error.is_limit());
    found.end_line();
}

fn put_comparison(found: &mut Answers, error: &Error, other: &Error) {
    found.push_text("equal:");
    found.put(&(*error == *other));
    found.end_line();
}

fn put_subjects(alloc: Global, found: &mut Answers) -> Result<(), AllocError> {
    let text = about_a_text(alloc)?;
    let end = about_the_end(alloc)?;
    let limit = about_a_limit(alloc)?;
    for error in [&text, &end, &limit] {
        put_error(found, error);
    }
    put_comparison(found, &text, &end);
    put_comparison(found, &text, &limit);
    put_comparison(found, &end, &limit);
    Ok(())
}

fn hash_of(error: &Error) -> u64 {
    let mut hasher = DefaultHasher::new();
    error.hash(&mut hasher);
    hasher.finish()
}

// A clone is equal, and has the same hash.
fn put_clone(alloc: Global, found: &mut Answers, error: &Error) -> Result<(), AllocError> {
    let copy = error.try_clone(alloc)?;
    put_comparison(found, error, &copy);
    found.push_text("one hash:");
    found.put(&(hash_of(error) == hash_of(&copy)));
    found.end_line();
    Ok(())
}

// An error whose message and text are its own.
fn owning(alloc: Global, message: &str, text: &str) -> Result<Error, AllocError> {
    let message = String::from_str(alloc, message)?;
    Ok(Error::with_loc(message, String::from_str(alloc, text)?, 0))
}

// An error of static words, beside one that owns its words.
fn put_static(alloc: Global, found: &mut Answers, text: &str) -> Result<(), AllocError> {
    let owned = owning(alloc, "expected definition", text)?;
    let error = static_error(alloc, "expected definition", text, 0)?;
    put_comparison(found, &error, &owned);
    Ok(())
}

// An error whose message quotes its text, beside one that owns its words.
fn put_quoting(
    alloc: Global,
    found: &mut Answers,
    (text, message): (&str, &str),
) -> Result<(), AllocError> {
    let owned = owning(alloc, message, text)?;
    let error = quoting_error(alloc, "expected COLON", ", got ", text, "!", 0)?;
    put_comparison(found, &error, &owned);
    put_clone(alloc, found, &error)
}

// Texts that an error holds in itself, and one that is too long for it.
const TEXTS: [&str; 4] = [
    "",
    "é",
    "\"twenty-four bytes long\"",
    "\"twenty-five bytes in it\"",
];

const QUOTED: [(&str, &str); 3] = [
    (")", "expected COLON, got )!"),
    (
        "nineteen_bytes_long",
        "expected COLON, got nineteen_bytes_long!",
    ),
    (
        "twenty_bytes_in_text",
        "expected COLON, got twenty_bytes_in_text!",
    ),
];

pub fn put_answers(alloc: Global, found: &mut Answers) -> Result<(), AllocError> {
    put_subjects(alloc, found)?;
    put_clone(alloc, found, &about_the_end(alloc)?)?;
    put_comparison(
        found,
        &Error::eof_from_static("m", 5),
        &about_the_end(alloc)?,
    );
    put_comparison(
        found,
        &Error::limit_from_static("m", 5),
        &about_a_limit(alloc)?,
    );
    for text in TEXTS {
        put_static(alloc, found, text)?;
    }
    for row in QUOTED {
        put_quoting(alloc, found, row)?;
    }
    Ok(())
}
