// Whether a pattern fits a path. A table says which ends of the path the last signs of the pattern fit. The signs are
// put before one another, the last one first. A window says where the ends are that pass. After a sign or two they are
// mostly few, and no more than the window is looked at.
ghost use Rattle.std.specs.Prelude.{◌≡◌, ◌+◌, ◌<◌, ◌≤◌, ℕ, List, [], Bool, false, length, map, slice_index_or};
ghost use Rattle.ignore_rules.specs.Fits.{after_byte, after_bytes, after_sign, as_sign, fits, folders, is_in, takes};
ghost use Rattle.ignore_rules.specs.Tables.{IsClear, IsWindow, IsWithin};

use crate::parts::SLASH;
use crate::pattern::{Range, Sign};
use std::alloc::Allocator;

/// Places of a path: from the first on, and before the end.
#[derive(Clone, Copy)]
pub struct Window {
    pub first: usize,
    pub end: usize,
}

fn is_in(ranges: &[Range], byte: u8) -> bool
    ensures { result ≡ is_in ranges.now byte }
{
    ranges
        .iter()
        .any(|range| range.first <= byte && byte <= range.last)
}

// Whether a sign for one byte is for this one.
fn takes<A: Allocator>(sign: &Sign<A>, byte: u8) -> bool
    ensures { result ≡ takes (as_sign sign.now) byte }
{
    match sign {
        Sign::Byte(wanted) => *wanted == byte,
        Sign::One => byte != SLASH,
        Sign::OneOf(ranges) => byte != SLASH && is_in(ranges.as_slice(), byte),
        Sign::NoneOf(ranges) => byte != SLASH && !is_in(ranges.as_slice(), byte),
        Sign::Many | Sign::Folders | Sign::Nothing => false,
    }
}

// Puts a sign for one byte before signs, of which a table says which ends of the path they fit, and gives the new
// window.
fn put_byte<A: Allocator>(table: &mut [bool], window: Window, sign: &Sign<A>, path: &[u8]) -> Window
    requires room { length path.now < length table.old }
    requires some { window.first < window.end }
    requires end { window.end ≤ length path.now + 1 }
    ensures places { (test : List ℕ → Bool) → IsWindow test path.now window table.old
        → IsWindow (after_byte (as_sign sign.now) test) path.now result table.new }
    ensures end { result.end ≤ length path.now + 1 }
{
    let first = window.first.saturating_sub(1);
    let end = window.end - 1;
    for index in first..end {
        table[index] = takes(sign, path[index]) && table[index + 1];
    }
    table[end] = false;
    Window { first, end }
}

// The same of `*`. Before the window nothing is left once an end doesn't pass.
fn put_many(table: &mut [bool], window: Window, path: &[u8]) -> Window
    requires room { length path.now < length table.old }
    requires end { window.end ≤ length path.now + 1 }
    ensures places { (test : List ℕ → Bool) → IsWindow test path.now window table.old
        → IsWindow (after_bytes test) path.now result table.new }
    ensures end { result.end ≤ length path.now + 1 }
{
    let end = window.end;
    for index in (0..end.min(path.len())).rev() {
        if index < window.first && !table[index + 1] {
            return Window {
                first: index + 1,
                end,
            };
        }
        table[index] = table[index] || (path[index] != SLASH && table[index + 1]);
    }
    Window { first: 0, end }
}

// The same of `**/`.
fn put_folders(table: &mut [bool], window: Window, path: &[u8]) -> Window
    requires room { length path.now < length table.old }
    requires end { window.end ≤ length path.now + 1 }
    ensures places { (test : List ℕ → Bool) → IsWindow test path.now window table.old
        → IsWindow (after_sign folders test) path.now result table.new }
    ensures end { result.end ≤ length path.now + 1 }
{
    let end = window.end;
    let mut below = false;
    for index in (0..end.min(path.len())).rev() {
        below = below || (path[index] == SLASH && table[index + 1]);
        table[index] = table[index] || below;
    }
    Window { first: 0, end }
}

// The same of any sign.
fn put<A: Allocator>(table: &mut [bool], window: Window, sign: &Sign<A>, path: &[u8]) -> Window
    requires room { length path.now < length table.old }
    requires some { window.first < window.end }
    requires end { window.end ≤ length path.now + 1 }
    ensures places { (test : List ℕ → Bool) → IsWindow test path.now window table.old
        → IsWindow (after_sign (as_sign sign.now) test) path.now result table.new }
    ensures end { result.end ≤ length path.now + 1 }
{
    match sign {
        Sign::Many => put_many(table, window, path),
        Sign::Folders => put_folders(table, window, path),
        Sign::Byte(_) | Sign::One | Sign::OneOf(_) | Sign::NoneOf(_) | Sign::Nothing => {
            put_byte(table, window, sign, path)
        }
    }
}

// The first place of the window where an end passes, or its end.
fn first_in(table: &[bool], window: Window) -> usize
    requires { window.end ≤ length table.now }
    ensures { (k : ℕ) → IsWithin window table.now → k < result → slice_index_or table.now k false ≡ false }
{
    for index in window.first..window.end {
        if table[index] {
            return index;
        }
    }
    window.end
}

// The place after the last one of the window where an end passes, or its first one.
fn end_in(table: &[bool], window: Window) -> usize
    requires { window.end ≤ length table.now }
    ensures none { (k : ℕ) → IsWithin window table.now → result ≤ k → slice_index_or table.now k false ≡ false }
    ensures end { window.first ≤ window.end → result ≤ window.end }
{
    for index in (window.first..window.end).rev() {
        if table[index] {
            return index + 1;
        }
    }
    window.first
}

// The window without places at its ends where no end of the path passes.
fn trimmed(table: &[bool], window: Window) -> Window
    requires { window.end ≤ length table.now }
    ensures within { IsWithin window table.now → IsWithin result table.now }
    ensures end { result.end ≤ window.end }
{
    let first = first_in(table, window);
    if window.end <= first {
        return Window {
            first,
            end: window.end,
        };
    }
    let end = end_in(
        table,
        Window {
            first,
            end: window.end,
        },
    );
    Window { first, end }
}

// Puts these signs before none, by the table of none, and gives the window that is left.
fn fit_in<A: Allocator>(table: &mut [bool], signs: &[Sign<A>], path: &[u8]) -> Window
    requires room { length path.now < length table.old }
    ensures places { IsWindow (fits []) path.now (record { first = length path.now; end = length path.now + 1 })
        table.old → IsWindow (fits (map as_sign signs.now)) path.now result table.new }
    ensures end { result.end ≤ length path.now + 1 }
{
    let mut window = Window {
        first: path.len(),
        end: path.len() + 1,
    };
    for index in (0..signs.len()).rev() {
        if window.end <= window.first {
            return window;
        }
        window = put(table, window, &signs[index], path);
        window = trimmed(table, window);
    }
    window
}

// Clears the window of a table.
fn clear(table: &mut [bool], window: Window)
    requires { window.end ≤ length table.old }
    ensures { IsWithin window table.old → IsClear table.new }
{
    for index in window.first..window.end {
        table[index] = false;
    }
}

/// Whether these signs fit the whole path. The table, which has a place more than the path and is clear, is clear again
/// afterwards.
pub fn fit<A: Allocator>(table: &mut [bool], signs: &[Sign<A>], path: &[u8]) -> bool
    requires room { length path.now < length table.old }
    requires clear { IsClear table.old }
    ensures value { result ≡ fits (map as_sign signs.now) path.now }
    ensures clear { IsClear table.new }
{
    table[path.len()] = true;
    let window = fit_in(table, signs, path);
    let result = table[0];
    clear(table, window);
    result
}
