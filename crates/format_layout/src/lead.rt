// Which signs before a first member may come or go.
ghost use Rattle.std.specs.Prelude.{◌≡◌};
ghost use Rattle.format_layout.specs.Leads.{after_interface, after_member, after_name, after_word, lead_after};
ghost use Rattle.format_layout.specs.Leads.{may_come, may_go};

use lexical_grammar::TokenKind;

/// What the last significant tokens say of a sign `|` or `&` after them: it is optional only before the first of some
/// members. They tell the equals sign before the members of a union from the one before a default value, and the words
/// `implements` and `on` from types of these names. Where that is open, as in `type implements implements & A`, the
/// sign is taken for one that has to stay.
#[derive(Clone, Copy)]
pub enum Lead {
    /// A colon: a type follows.
    Colon,
    /// A type after a colon, or the end of one: a default value may follow.
    Typed,
    /// The equals sign before a default value.
    Equals,
    /// The equals sign before the members of a union.
    Members,
    /// The sign `|`.
    Pipe,
    /// The sign `&`, or a member with the name `implements`.
    Amp,
    /// The word `implements`.
    Implements,
    /// The word `on`.
    On,
    /// Anything else.
    Other,
}

// After a name that may be a word of the grammar.
fn after_word(text: &str) -> Lead
    ensures { result ≡ after_word text.now }
{
    if text == "on" {
        Lead::On
    } else if text == "implements" {
        Lead::Implements
    } else {
        Lead::Other
    }
}

// After a name that is not one of them.
fn after_member(text: &str) -> Lead
    ensures { result ≡ after_member text.now }
{
    if text == "implements" {
        Lead::Amp
    } else {
        Lead::Other
    }
}

// After a name that is not the word `implements`.
fn after_interface(text: &str) -> Lead
    ensures { result ≡ after_interface text.now }
{
    if text == "on" {
        Lead::On
    } else {
        after_member(text)
    }
}

impl Lead {
    fn after_name(self, text: &str) -> Lead
        ensures { result ≡ after_name self text.now }
    {
        match self {
            Lead::Colon => Lead::Typed,
            Lead::On | Lead::Other => after_word(text),
            Lead::Amp | Lead::Implements | Lead::Typed => after_interface(text),
            _ => after_member(text),
        }
    }

    /// What it is after one more token.
    #[inline(always)]
    pub fn after(self, kind: TokenKind, text: &str) -> Lead
        ensures { result ≡ lead_after self kind text.now }
    {
        match kind {
            TokenKind::Comment | TokenKind::Whitespace | TokenKind::Comma | TokenKind::Eof => self,
            TokenKind::Name => self.after_name(text),
            TokenKind::Colon => Lead::Colon,
            TokenKind::Bang | TokenKind::RBracket => Lead::Typed,
            TokenKind::Eq => match self {
                Lead::Typed => Lead::Equals,
                _ => Lead::Members,
            },
            TokenKind::Pipe => Lead::Pipe,
            TokenKind::Amp => Lead::Amp,
            _ => Lead::Other,
        }
    }

    /// Whether a token that follows is a sign that may go.
    #[inline(always)]
    pub fn may_go(self, kind: TokenKind) -> bool
        ensures { result ≡ may_go self kind }
    {
        match (self, kind) {
            (Lead::Members | Lead::On, TokenKind::Pipe) => true,
            (Lead::Implements, TokenKind::Amp) => true,
            _ => false,
        }
    }

    /// Whether a sign `|` may come before a token that follows.
    #[inline(always)]
    pub fn may_come(self, kind: TokenKind) -> bool
        ensures { result ≡ may_come self kind }
    {
        match (self, kind) {
            (Lead::Members, TokenKind::Name) => true,
            _ => false,
        }
    }
}
