// Sixteen bytes at a time: how many of the first ones are of a class.
ghost use Rattle.std.specs.Prelude.{◌≡◌, ◌≤◌, ◌==◌, if◌then◌else◌, length, take};
ghost use Rattle.std.specs.Int.{w64, trailing_zeros};
ghost use Rattle.std.specs.List.{prefix_len};
ghost use Rattle.lexical_grammar.specs.Characters.{is_name_continue, is_plain_string_character};
ghost use Rattle.apollo_lexer.specs.Starts.{is_blank_byte};

use std::simd::prelude::*;

/// The bytes that are looked at together.
pub const LANES: usize = 16;

// The lowest bit that is set.
#[inline(always)]
fn first_set(mask: u64) -> usize
    ensures { result ≡ (if mask == 0 then 16 else trailing_zeros w64 mask) }
{
    if mask == 0 {
        LANES
    } else {
        mask.trailing_zeros() as usize
    }
}

/// Of the first sixteen bytes, how many go on with a name.
#[inline(always)]
pub fn name_lanes(bytes: &[u8]) -> usize
    requires { LANES ≤ length bytes.now }
    ensures { result ≡ prefix_len is_name_continue (take 16 bytes.now) }
{
    let v = u8x16::from_slice(bytes);
    let letter = (v | u8x16::splat(0x20)) - u8x16::splat(b'a');
    let digit = v - u8x16::splat(b'0');
    let no_letter = letter.simd_ge(u8x16::splat(26));
    let no_digit = digit.simd_ge(u8x16::splat(10));
    let stops = no_letter & no_digit & v.simd_ne(u8x16::splat(b'_'));
    first_set(stops.to_bitmask())
}

/// Of the first sixteen bytes, how many are a blank character each.
#[inline(always)]
pub fn blank_lanes(bytes: &[u8]) -> usize
    requires { LANES ≤ length bytes.now }
    ensures { result ≡ prefix_len is_blank_byte (take 16 bytes.now) }
{
    let v = u8x16::from_slice(bytes);
    let no_space = v.simd_ne(u8x16::splat(b' ')) & v.simd_ne(u8x16::splat(b'\t'));
    let no_end = v.simd_ne(u8x16::splat(b'\n')) & v.simd_ne(u8x16::splat(b'\r'));
    first_set((no_space & no_end).to_bitmask())
}

/// Of the first sixteen bytes, how many are a plain character of a quoted string each.
#[inline(always)]
pub fn plain_lanes(bytes: &[u8]) -> usize
    requires { LANES ≤ length bytes.now }
    ensures { result ≡ prefix_len is_plain_string_character (take 16 bytes.now) }
{
    let v = u8x16::from_slice(bytes);
    let mark = v.simd_eq(u8x16::splat(b'"')) | v.simd_eq(u8x16::splat(b'\\'));
    let end = v.simd_eq(u8x16::splat(b'\n')) | v.simd_eq(u8x16::splat(b'\r'));
    first_set((mark | end).to_bitmask())
}
