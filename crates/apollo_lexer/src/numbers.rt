// How far a number goes.
ghost use Rattle.std.specs.Prelude.{◌≡◌, ◌≤◌, take, length};
ghost use Rattle.lexical_grammar.specs.Cut.{ends_number};
ghost use Rattle.lexical_grammar.specs.NumberStates.{step, run, live_len, after_integer, whole_start, number_kind};
ghost use Rattle.lexical_grammar.specs.Reads.{number_at};
ghost use Rattle.lexical_grammar.specs.declared.NumberState.TheVariants.{Begin};

use lexical_grammar::{NumberState, TokenKind};

fn after_integer(b: u8) -> NumberState
    ensures { result ≡ after_integer b }
{
    match b {
        b'.' => NumberState::Point,
        b'e' | b'E' => NumberState::ExponentIndicator,
        _ => NumberState::Dead,
    }
}

fn whole_start(b: u8) -> NumberState
    ensures { result ≡ whole_start b }
{
    match b {
        b'0' => NumberState::Zero,
        b'1'..=b'9' => NumberState::Integer,
        _ => NumberState::Dead,
    }
}

fn step(state: NumberState, b: u8) -> NumberState
    ensures { result ≡ step state b }
{
    match state {
        NumberState::Begin => if b == b'-' {
            NumberState::Minus
        } else {
            whole_start(b)
        },
        NumberState::Minus => whole_start(b),
        NumberState::Zero => after_integer(b),
        NumberState::Integer => if b.is_ascii_digit() {
            NumberState::Integer
        } else {
            after_integer(b)
        },
        NumberState::Point => if b.is_ascii_digit() {
            NumberState::Fraction
        } else {
            NumberState::Dead
        },
        NumberState::Fraction => match b {
            b'0'..=b'9' => NumberState::Fraction,
            b'e' | b'E' => NumberState::ExponentIndicator,
            _ => NumberState::Dead,
        },
        NumberState::ExponentIndicator => match b {
            b'0'..=b'9' => NumberState::Exponent,
            b'+' | b'-' => NumberState::ExponentSign,
            _ => NumberState::Dead,
        },
        NumberState::ExponentSign => if b.is_ascii_digit() {
            NumberState::Exponent
        } else {
            NumberState::Dead
        },
        NumberState::Exponent => if b.is_ascii_digit() {
            NumberState::Exponent
        } else {
            NumberState::Dead
        },
        NumberState::Dead => NumberState::Dead,
    }
}

/// The longest beginning of a number at the front, in bytes, and its kind.
#[inline(never)]
pub fn number_len(bytes: &[u8]) -> (NumberState, usize)
    ensures state { result.0 ≡ run Begin (take result.1 bytes.now) }
    ensures len { result.1 ≡ live_len Begin bytes.now }
    ensures within { result.1 ≤ length bytes.now }
{
    let mut state = NumberState::Begin;
    let mut n = 0;
    while n < bytes.len() {
        let next = step(state, bytes[n]);
        if next == NumberState::Dead {
            return (state, n);
        }
        state = next;
        n += 1;
    }
    (state, n)
}

// The kind of the number that was read, if it was a whole one.
fn number_kind(state: NumberState) -> Option<TokenKind>
    ensures { result ≡ number_kind state }
{
    match state {
        NumberState::Zero | NumberState::Integer => Some(TokenKind::Int),
        NumberState::Fraction | NumberState::Exponent => Some(TokenKind::Float),
        _ => None,
    }
}

// No digit, `.` or name start follows.
fn ends_number(after: &[u8]) -> bool
    ensures { result ≡ ends_number after.now }
{
    match after {
        [b, ..] => !(b.is_ascii_digit() || *b == b'.' || b.is_ascii_alphabetic() || *b == b'_'),
        [] => true,
    }
}

/// The number at the front, and its length in bytes.
#[inline(always)]
pub fn number_at(bytes: &[u8]) -> Option<(TokenKind, usize)>
    ensures { result ≡ number_at bytes.now }
{
    let (state, n) = number_len(bytes);
    if !ends_number(&bytes[n..]) {
        return None;
    }
    let kind = number_kind(state)?;
    Some((kind, n))
}
