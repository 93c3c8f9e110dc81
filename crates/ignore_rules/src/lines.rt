// The lines of an ignore file.
ghost use Rattle.std.specs.Prelude.{◌≡◌, ◌≤◌, IfOk, length, map, option_map};
ghost use Rattle.ignore_rules.specs.Fits.{as_sign, byte};
ghost use Rattle.ignore_rules.specs.Lines.{anchored, as_rule, ending, pattern, rule_of, spelled, without_return};
ghost use Rattle.ignore_rules.specs.Lines.{without_slash, without_spaces};

use crate::parts::SLASH;
use crate::pattern::Sign;
use crate::signs::read_signs;
use std::alloc::{AllocError, Allocator};

/// The rule of a line.
#[derive(Drop)]
pub struct Rule<A: Allocator> {
    /// It takes back what rules before it leave out.
    pub keeps: bool,
    pub folders_only: bool,
    pub signs: Vec<Sign<A>, A>,
}

// How many of a byte a text ends with.
fn ending(byte: u8, text: &[u8]) -> usize
    ensures count { result ≡ ending byte text.now }
    ensures within { result ≤ length text.now }
{
    text.iter().rev().take_while(|it| **it == byte).count()
}

// The line without the spaces that end it, unless a backslash quotes the first of them.
fn without_spaces(line: &[u8]) -> &[u8]
    ensures { result.now ≡ without_spaces line.now }
{
    let front = &line[..line.len() - ending(b' ', line)];
    let end = front.len() + ending(b'\\', front) % 2;
    &line[..end.min(line.len())]
}

fn without_return(line: &[u8]) -> &[u8]
    ensures { result.now ≡ without_return line.now }
{
    if line.ends_with(b"\r") {
        &line[..line.len() - 1]
    } else {
        line
    }
}

fn without_slash(text: &[u8]) -> &[u8]
    ensures { result.now ≡ without_slash text.now }
{
    if text.starts_with(b"/") {
        &text[1..]
    } else {
        text
    }
}

// The rule with the signs of a pattern after its own. An empty pattern gives none.
fn spelled<A: Allocator + Copy>(
    alloc: A,
    mut rule: Rule<A>,
    text: &[u8],
) -> Result<Option<Rule<A>>, AllocError>
    ensures { IfOk result (λ it. option_map as_rule it
        ≡ spelled rule.keeps rule.folders_only (as_rule rule).signs text.now) }
{
    if text.len() == 0 {
        return Ok(None);
    }
    read_signs(alloc, &mut rule.signs, text)?;
    Ok(Some(rule))
}

// The signs of a folder's path.
fn folder_signs<A: Allocator>(alloc: A, folder: &[u8]) -> Result<Vec<Sign<A>, A>, AllocError>
    ensures { IfOk result (λ signs. map (λ sign. as_sign sign) signs.items ≡ map byte folder.now) }
{
    let mut signs = Vec::new(alloc);
    for byte in folder {
        signs.push(Sign::Byte(*byte))?;
    }
    Ok(signs)
}

// A pattern with a slash at its beginning or in its middle is about paths from the folder of the file on; another is
// about names at any depth.
fn anchored<A: Allocator + Copy>(
    alloc: A,
    folder: &[u8],
    keeps: bool,
    folders_only: bool,
    text: &[u8],
) -> Result<Option<Rule<A>>, AllocError>
    ensures { IfOk result (λ rule. option_map as_rule rule
        ≡ anchored (map byte folder.now) keeps folders_only text.now) }
{
    let mut signs = folder_signs(alloc, folder)?;
    if text.contains(&SLASH) {
        let rule = Rule {
            keeps,
            folders_only,
            signs,
        };
        spelled(alloc, rule, without_slash(text))
    } else {
        signs.push(Sign::Folders)?;
        let rule = Rule {
            keeps,
            folders_only,
            signs,
        };
        spelled(alloc, rule, text)
    }
}

// A pattern with a slash at its end is about folders alone.
fn pattern<A: Allocator + Copy>(
    alloc: A,
    folder: &[u8],
    keeps: bool,
    text: &[u8],
) -> Result<Option<Rule<A>>, AllocError>
    ensures { IfOk result (λ rule. option_map as_rule rule ≡ pattern (map byte folder.now) keeps text.now) }
{
    if text.ends_with(b"/") {
        anchored(alloc, folder, keeps, true, &text[..text.len() - 1])
    } else {
        anchored(alloc, folder, keeps, false, text)
    }
}

/// The rule of a line, if it is neither blank nor a comment. The pattern is about paths in a folder, whose path is
/// before their names.
pub fn rule_of<A: Allocator + Copy>(
    alloc: A,
    folder: &[u8],
    line: &[u8],
) -> Result<Option<Rule<A>>, AllocError>
    ensures { IfOk result (λ rule. option_map as_rule rule ≡ rule_of (map byte folder.now) line.now) }
{
    let text = without_spaces(without_return(line));
    if text.starts_with(b"#") {
        Ok(None)
    } else if text.starts_with(b"!") {
        pattern(alloc, folder, true, &text[1..])
    } else {
        pattern(alloc, folder, false, text)
    }
}
