// Kinds of tokens and of elements, escapes, and which tokens may touch.
use crate::answers::Answers;
use document_grammar::SyntaxKind;
use lexical_grammar::{Edge, TokenKind, escape, hex_digits_len};

// What the derives give: copies, equality and the printed names.
fn put_token_kinds(found: &mut Answers) {
    let kind = TokenKind::StringValue;
    let copy = kind;
    found.push_text("token kinds:");
    found.put(&kind);
    found.put(&(copy == kind));
    found.put(&(kind == TokenKind::Name));
    found.end_line();
}

// Each form of escape, and what begins none: a lone surrogate, braces with no digits, a number above those of
// characters.
const ESCAPES: [&str; 15] = [
    r"\n",
    "\\\"\"",
    r"\u00E9 ",
    r"\u{1F4A9}",
    r"\u{00000061}",
    r"\uD83D\uDCA9",
    r"\uD83D",
    r"\uD83D\u0061",
    r"\uDCA9",
    r"\u{}",
    r"\u{110000}",
    r"\u{61",
    r"\u006",
    r"\q",
    r"\",
];

fn put_escapes(found: &mut Answers) {
    for text in ESCAPES {
        found.push_text(text);
        found.put(&escape(text.as_bytes()));
        found.end_line();
    }
    found.push_text("hex digits:");
    found.put(&hex_digits_len(b"09afAFg"));
    found.end_line();
}

// A token, and then what may be the next byte after it and what may not.
const TOUCHING: [(TokenKind, &str, u8, u8); 4] = [
    (TokenKind::Name, "a", b'(', b'9'),
    (TokenKind::Int, "1", b')', b'.'),
    (TokenKind::Comment, "#", b'\n', b'a'),
    (TokenKind::StringValue, "\"\"", b'a', b'"'),
];

fn put_touching(found: &mut Answers) {
    for (kind, text, after, joining) in TOUCHING {
        let edge = Edge::of(kind, text);
        found.push_text(text);
        found.put(&edge.may_touch(TokenKind::Name, after));
        found.put(&edge.may_touch(TokenKind::Name, joining));
        found.end_line();
    }
}

// A string that is not empty is like a brace, and white space joins with white space.
fn put_edges(found: &mut Answers) {
    let string = Edge::of(TokenKind::StringValue, "\"a\"");
    let blank = Edge::of(TokenKind::Whitespace, " ");
    found.push_text("edges:");
    found.put(&(string == Edge::of(TokenKind::RCurly, "}")));
    found.put(&blank.may_touch(TokenKind::Whitespace, b' '));
    found.end_line();
}

// The numbers that are those of trivia, that are no kind's, or that give another kind's.
fn put_numbers(found: &mut Answers) {
    found.push_text("numbers:");
    for number in 0..=SyntaxKind::COUNT {
        match SyntaxKind::from_u16(number) {
            Some(kind) if kind.to_u16() == number && !kind.is_trivia() => {}
            other => found.put(&other),
        }
    }
    found.end_line();
}

fn put_keywords(found: &mut Answers) {
    for kind in [
        SyntaxKind::query_KW,
        SyntaxKind::QUERY_KW,
        SyntaxKind::NAME,
        SyntaxKind::IDENT,
    ] {
        found.push_text("kind:");
        found.put(&kind);
        found.put(&kind.keyword());
        found.put(&kind.is(SyntaxKind::NAME));
        found.put(&(kind == SyntaxKind::QUERY_KW));
        found.end_line();
    }
}

pub fn put_answers(found: &mut Answers) {
    put_token_kinds(found);
    put_escapes(found);
    put_touching(found);
    put_edges(found);
    put_numbers(found);
    put_keywords(found);
}
