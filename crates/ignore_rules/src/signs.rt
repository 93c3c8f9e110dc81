// The signs of a pattern.
ghost use Rattle.std.specs.Prelude.{◌≡◌, ◌<◌, ◌++◌, IfOk, IsTrue, MatchOption, OnOk, drop, false, length, map};
ghost use Rattle.std.specs.Prelude.{option_map, true};
ghost use Rattle.ignore_rules.specs.Fits.{as_sign};
ghost use Rattle.ignore_rules.specs.Reading.{IsPut, asterisk_in, byte_in, closes_at, ends_name, is_inverse, joined};
ghost use Rattle.ignore_rules.specs.Reading.{quoted_in, range_in, ranges_in, set_in, sign_in, signs_of};

use crate::parts::SLASH;
use crate::pattern::{Range, Sign};
use std::alloc::{AllocError, Allocator};

// A byte in brackets, and what follows it.
fn byte_in(text: &[u8]) -> Option<(u8, &[u8])>
    ensures { option_map (λ it. record { value = it.0; after = it.1.now }) result ≡ byte_in text.now }
{
    let (first, more) = text.split_first()?;
    match more.split_first() {
        Some((second, after)) if *first == b'\\' => Some((*second, after)),
        _ => Some((*first, more)),
    }
}

// A byte or a range of bytes in brackets, and what follows it.
fn range_in(text: &[u8]) -> Option<(Range, &[u8])>
    ensures { option_map (λ it. record { value = it.0; after = it.1.now }) result ≡ range_in text.now }
{
    let (first, after) = byte_in(text)?;
    if after.starts_with(b"-") && !after.starts_with(b"-]") {
        let (last, after) = byte_in(&after[1..])?;
        Some((Range { first, last }, after))
    } else {
        Some((Range { first, last: first }, after))
    }
}

// What follows the bracket that closes a set here, if one may and does.
fn closing(closes: bool, text: &[u8]) -> Option<&[u8]>
    ensures { MatchOption result (closes_at closes text.now ≡ false)
        (λ after. (closes_at closes text.now ≡ true) × (after.now ≡ drop 1 text.now)) }
{
    if closes && text.starts_with(b"]") {
        Some(&text[1..])
    } else {
        None
    }
}

// Adds the ranges before the bracket that closes them, and gives what follows it, if one does.
fn read_ranges<'t, A: Allocator>(
    ranges: &mut Vec<Range, A>,
    text: &'t [u8],
    most: usize,
) -> Result<Option<&'t [u8]>, AllocError>
    ensures { IfOk result (λ after. MatchOption after (ranges_in most false text.now ≡ None)
        (λ it. option_map (joined ranges.old.items) (ranges_in most false text.now)
        ≡ Some (record { value = ranges.new.items; after = it.now }))) }
{
    let mut closes = false;
    let mut rest = text;
    for done in 0..most {
        if let Some(after) = closing(closes, rest) {
            return Ok(Some(after));
        }
        let Some((range, after)) = range_in(rest) else {
            return Ok(None);
        };
        ranges.push(range)?;
        closes = true;
        rest = after;
    }
    Ok(None)
}

// Whether a name begins after a sign.
fn ends_name<A: Allocator>(sign: &Sign<A>) -> bool
    ensures { result ≡ ends_name (as_sign sign.now) }
{
    match sign {
        Sign::Byte(byte) => *byte == SLASH,
        Sign::Folders => true,
        Sign::One | Sign::OneOf(_) | Sign::NoneOf(_) | Sign::Many | Sign::Nothing => false,
    }
}

// Adds a sign, and gives whether a name begins after it, and what follows it.
fn put<'t, A: Allocator>(
    signs: &mut Vec<Sign<A>, A>,
    sign: Sign<A>,
    after: &'t [u8],
) -> Result<(bool, &'t [u8]), AllocError>
    ensures { IfOk result (λ it. IsPut (record { value = as_sign sign; after = after.now })
        (map as_sign signs.old.items) (map as_sign signs.new.items) it.0 it.1.now) }
{
    let begins = ends_name(&sign);
    signs.push(sign)?;
    Ok((begins, after))
}

// Whether a set is of the bytes that are not in brackets.
fn is_inverse(text: &[u8]) -> bool
    ensures value { result ≡ is_inverse text.now }
    ensures within { IsTrue result → 0 < length text.now }
{
    text.starts_with(b"!") || text.starts_with(b"^")
}

// The same of the set after an opening bracket.
fn put_set<'t, A: Allocator + Copy>(
    alloc: A,
    signs: &mut Vec<Sign<A>, A>,
    text: &'t [u8],
) -> Result<(bool, &'t [u8]), AllocError>
    ensures { IfOk result (λ it. IsPut (set_in text.now) (map as_sign signs.old.items)
        (map as_sign signs.new.items) it.0 it.1.now) }
{
    let mut ranges = Vec::new(alloc);
    if is_inverse(text) {
        match read_ranges(&mut ranges, &text[1..], text.len())? {
            Some(after) => put(signs, Sign::NoneOf(ranges), after),
            None => put(signs, Sign::Nothing, &text[..0]),
        }
    } else {
        match read_ranges(&mut ranges, text, text.len())? {
            Some(after) => put(signs, Sign::OneOf(ranges), after),
            None => put(signs, Sign::Nothing, &text[..0]),
        }
    }
}

// The same after an asterisk, where a name begins or not.
fn put_asterisk<'t, A: Allocator>(
    signs: &mut Vec<Sign<A>, A>,
    begins: bool,
    text: &'t [u8],
) -> Result<(bool, &'t [u8]), AllocError>
    ensures { IfOk result (λ it. IsPut (asterisk_in begins text.now) (map as_sign signs.old.items)
        (map as_sign signs.new.items) it.0 it.1.now) }
{
    if begins && text.starts_with(b"*/") {
        put(signs, Sign::Folders, &text[2..])
    } else if begins && text == b"*".as_slice() {
        put(signs, Sign::Folders, text)
    } else {
        put(signs, Sign::Many, text)
    }
}

// The same after a backslash.
fn put_quoted<'t, A: Allocator>(
    signs: &mut Vec<Sign<A>, A>,
    text: &'t [u8],
) -> Result<(bool, &'t [u8]), AllocError>
    ensures { IfOk result (λ it. IsPut (quoted_in text.now) (map as_sign signs.old.items)
        (map as_sign signs.new.items) it.0 it.1.now) }
{
    match text.split_first() {
        Some((byte, after)) => put(signs, Sign::Byte(*byte), after),
        None => put(signs, Sign::Nothing, text),
    }
}

// The same of the sign that begins with this byte.
fn put_sign<'t, A: Allocator + Copy>(
    alloc: A,
    signs: &mut Vec<Sign<A>, A>,
    begins: bool,
    first: u8,
    text: &'t [u8],
) -> Result<(bool, &'t [u8]), AllocError>
    ensures { IfOk result (λ it. IsPut (sign_in begins first text.now) (map as_sign signs.old.items)
        (map as_sign signs.new.items) it.0 it.1.now) }
{
    match first {
        b'*' => put_asterisk(signs, begins, text),
        b'?' => put(signs, Sign::One, text),
        b'[' => put_set(alloc, signs, text),
        b'\\' => put_quoted(signs, text),
        byte => put(signs, Sign::Byte(byte), text),
    }
}

/// Adds the signs of a pattern.
pub fn read_signs<A: Allocator + Copy>(
    alloc: A,
    signs: &mut Vec<Sign<A>, A>,
    text: &[u8],
) -> Result<(), AllocError>
    ensures { OnOk result (map as_sign signs.new.items ≡ map as_sign signs.old.items ++ signs_of text.now) }
{
    let mut begins = true;
    let mut rest = text;
    for done in 0..text.len() {
        let Some((first, more)) = rest.split_first() else {
            return Ok(());
        };
        (begins, rest) = put_sign(alloc, signs, begins, *first, more)?;
    }
    Ok(())
}
