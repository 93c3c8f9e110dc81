// The place before a token, as the walk over the tree leaves it. Whether a group breaks that begins there is known only
// with its column.
ghost use Rattle.std.specs.Prelude.{◌≡◌, ◌<◌, true, false};
ghost use Rattle.format_layout.specs.Breaking.{ends_line};

use crate::gap::Gap;

// How many spaces a level of indent has.
const INDENT: u16 = 2;

/// What separates a token from the one before it.
#[derive(Clone, Copy)]
pub enum Separator {
    /// Nothing.
    Nothing,
    /// A space.
    Space,
    /// Nothing, or the end of a line where the group breaks.
    SoftNothing,
    /// A space, or the end of a line where the group breaks.
    SoftSpace,
    /// A comma and a space, or the end of a line where the group breaks.
    Comma,
    /// A comma and a space, or the end of a line and an empty line where the group breaks.
    BlankComma,
    /// A sign before the first member of a union, which is left out. Where the group breaks, it stays after the end of
    /// a line.
    FirstSign,
    /// A space before the first member of a union, which has no sign. Where the group breaks, the end of a line and a
    /// sign.
    FirstMember,
    /// A sign before the first interface or location, which is left out.
    NoSign,
    /// The end of a line.
    Line,
    /// The end of a line, and an empty line.
    BlankLine,
    /// The white space and the commas of the source.
    Written,
}

// The end of a number of lines, and the indent of a level.
#[inline(always)]
fn line(lines: u8, level: u16) -> Gap
    ensures lines { result.lines ≡ lines }
    ensures comma { result.comma ≡ false }
{
    Gap {
        comma: false,
        lines,
        spaces: level.saturating_mul(INDENT),
    }
}

impl Separator {
    /// Whether a line always ends there.
    #[inline(always)]
    pub fn is_line(self) -> bool {
        matches!(self, Separator::Line | Separator::BlankLine)
    }

    /// Whether a line ends there where the group breaks.
    #[inline(always)]
    pub fn is_soft(self) -> bool {
        matches!(
            self,
            Separator::SoftNothing
                | Separator::SoftSpace
                | Separator::Comma
                | Separator::BlankComma
                | Separator::FirstSign
                | Separator::FirstMember
        )
    }

    /// How many columns it takes in a line.
    #[inline(always)]
    pub fn width(self) -> usize {
        match self {
            Separator::Comma | Separator::BlankComma => 2,
            Separator::Space | Separator::SoftSpace | Separator::FirstMember => 1,
            _ => 0,
        }
    }

    /// What it is while the group around it does not break. A line that begins after it is indented by a number of
    /// levels.
    #[inline(always)]
    pub fn flat(self, level: u16) -> Gap {
        match self {
            Separator::Nothing
            | Separator::SoftNothing
            | Separator::FirstSign
            | Separator::Written => Gap::NONE,
            Separator::Space | Separator::SoftSpace | Separator::FirstMember | Separator::NoSign =>
                Gap::SPACE,
            Separator::Comma | Separator::BlankComma => Gap {
                comma: true,
                ..Gap::SPACE
            },
            Separator::Line => line(1, level),
            Separator::BlankLine => line(2, level),
        }
    }

    /// What it is in a group that breaks: the end of a line at each comma and at each place where a line may end, and
    /// no comma.
    #[inline(always)]
    pub fn broken(self, level: u16) -> Gap
        ensures lines { ends_line self ≡ true → 0 < result.lines }
        ensures comma { result.comma ≡ false }
    {
        match self {
            Separator::Nothing | Separator::Written => Gap::NONE,
            Separator::Space | Separator::NoSign => Gap::SPACE,
            Separator::SoftNothing
            | Separator::SoftSpace
            | Separator::Comma
            | Separator::FirstSign
            | Separator::FirstMember
            | Separator::Line => line(1, level),
            Separator::BlankComma | Separator::BlankLine => line(2, level),
        }
    }

    /// The separator with an empty line where it ends a line.
    #[inline(always)]
    pub fn with_blank(self) -> Separator {
        match self {
            Separator::Line => Separator::BlankLine,
            Separator::Comma => Separator::BlankComma,
            other => other,
        }
    }
}

/// Which part of a group a token is.
#[derive(Clone, Copy)]
pub enum Part {
    /// None that begins or ends one.
    Neither,
    /// The opening bracket.
    Open,
    /// The closing bracket.
    Close,
    /// The first token of a group without brackets.
    First,
    /// The same, of a group whose lines are not indented.
    FirstFlush,
    /// A token that stays letter by letter.
    Written,
}

/// The width of a group that breaks at any column.
pub const BREAKS: u8 = u8::MAX;

/// The place before a token or a comment.
#[derive(Clone, Copy)]
pub struct Slot {
    /// What is there.
    pub separator: Separator,
    /// Which part of a group the token is.
    pub part: Part,
    /// Whether a group without brackets ends before it.
    pub is_after_group: bool,
    /// How many columns the group that begins with the token takes in one line, with the tokens after it up to the next
    /// place where a line may end.
    pub width: u8,
    /// How many levels deep a line that begins there is indented, without the broken groups around it.
    pub level: u16,
}

impl Slot {
    /// The place before a token or a comment that stays with all that is before it.
    pub const WRITTEN: Slot = Slot {
        separator: Separator::Written,
        part: Part::Written,
        is_after_group: false,
        width: BREAKS,
        level: 0,
    };
}
