// Names in lines that other programs read.
ghost use Rattle.std.specs.Prelude.{◌≡◌, ◌==◌, ◌++◌, IfOk, encode_utf8, option_map, string_bytes};
ghost use Rattle.std.specs.List.{flat_map, list_any};
ghost use Rattle.std.specs.Str.{chars};
ghost use Rattle.gqlfmt_run.specs.Quoting.{head_name, is_escaped, needs_quotes, octal, quoted, quoted_char};
ghost use Rattle.gqlfmt_run.specs.Quoting.{short_escape};

use marked_lines::is_unseen;
use std::alloc::{AllocError, Allocator};

// C's escape of a character, where it has one of its own.
fn short_escape(c: char) -> Option<&'static str>
    ensures { option_map (λ escape. escape.now) result ≡ short_escape c }
{
    match c {
        '"' => Some("\\\""),
        '\\' => Some("\\\\"),
        '\x07' => Some("\\a"),
        '\x08' => Some("\\b"),
        '\t' => Some("\\t"),
        '\n' => Some("\\n"),
        '\x0b' => Some("\\v"),
        '\x0c' => Some("\\f"),
        '\r' => Some("\\r"),
        _ => None,
    }
}

fn is_escaped(c: char) -> bool
    ensures { result ≡ is_escaped c }
{
    short_escape(c).is_some() || is_unseen(c)
}

fn has_escaped(name: &str) -> bool
    ensures { result ≡ list_any is_escaped (chars name.now) }
{
    for c in name.chars() {
        if is_escaped(c) {
            return true;
        }
    }
    false
}

fn needs_quotes(name: &str) -> bool
    ensures { result ≡ needs_quotes name.now }
{
    has_escaped(name) || name.as_bytes().starts_with(b" ")
}

fn has_space(name: &str) -> bool
    ensures { result ≡ list_any (λ b. b == 32) name.now }
{
    name.as_bytes().contains(&b' ')
}

// Puts a byte as three octal digits after a backslash.
fn push_octal<A: Allocator>(text: &mut String<A>, byte: u8) -> Result<(), AllocError>
    ensures { IfOk result (λ _. string_bytes text.new ≡ string_bytes text.old ++ octal byte) }
{
    text.push('\\')?;
    text.push(char::from(b'0' + byte / 64))?;
    text.push(char::from(b'0' + byte / 8 % 8))?;
    text.push(char::from(b'0' + byte % 8))
}

// Puts the octal escapes of a character's bytes.
fn push_bytes<A: Allocator>(text: &mut String<A>, c: char) -> Result<(), AllocError>
    ensures { IfOk result (λ _. string_bytes text.new ≡ string_bytes text.old ++ flat_map octal (encode_utf8 c)) }
{
    let mut buffer = [0u8; 4];
    for byte in c.encode_utf8(&mut buffer).as_bytes() {
        push_octal(text, *byte)?;
    }
    Ok(())
}

// Puts a character as it is in quotes.
fn push_char<A: Allocator>(text: &mut String<A>, c: char) -> Result<(), AllocError>
    ensures { IfOk result (λ _. string_bytes text.new ≡ string_bytes text.old ++ quoted_char c) }
{
    match short_escape(c) {
        Some(escape) => text.push_str(escape),
        None if is_unseen(c) => push_bytes(text, c),
        None => text.push(c),
    }
}

// Puts the characters of a name as they are in quotes.
fn push_chars<A: Allocator>(text: &mut String<A>, name: &str) -> Result<(), AllocError>
    ensures { IfOk result (λ _. string_bytes text.new ≡ string_bytes text.old
        ++ flat_map quoted_char (chars name.now)) }
{
    for c in name.chars() {
        push_char(text, c)?;
    }
    Ok(())
}

/// A name as git writes it in a line: in quotes, with C's escapes, if it would not come back from the line otherwise.
pub fn quoted<A: Allocator>(alloc: A, name: &str) -> Result<String<A>, AllocError>
    ensures { IfOk result (λ text. string_bytes text ≡ quoted name.now) }
{
    if !needs_quotes(name) {
        return String::from_str(alloc, name);
    }
    let mut text = String::from_str(alloc, "\"")?;
    push_chars(&mut text, name)?;
    text.push('"')?;
    Ok(text)
}

/// The same at the head of a diff, where a tab after it says that its spaces are its own.
pub fn head_name<A: Allocator>(alloc: A, name: &str) -> Result<String<A>, AllocError>
    ensures { IfOk result (λ text. string_bytes text ≡ head_name name.now) }
{
    let mut text = quoted(alloc, name)?;
    if has_space(name) {
        text.push('\t')?;
    }
    Ok(text)
}
