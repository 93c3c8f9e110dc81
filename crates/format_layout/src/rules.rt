// The layout of each construct, and all of it: what is between two neighbours below a node, where empty lines stay, and
// which lines are indented.
use crate::slot::Separator;
use document_grammar::SyntaxKind;

/// What a node's children are to each other.
#[derive(Clone, Copy)]
pub enum Inside {
    /// The definitions of a document.
    Document,
    /// Arguments, variable definitions or the fields of an object value, in one line or with a line each, and empty
    /// lines between them.
    Entries,
    /// The values of a list, in one line or with a line each.
    Values,
    /// Directives, in one line or with a line each.
    Directives,
    /// The members of a union, in one line or with a line each.
    Members,
    /// Between braces, with a line for each of them.
    Braces,
    /// A schema, whose braces have no node of their own.
    Schema,
    /// The parts of another construct.
    Construct,
}

impl Inside {
    /// What the children of a node of this kind are to each other.
    #[inline(always)]
    pub fn of(kind: SyntaxKind) -> Inside {
        match kind {
            SyntaxKind::SELECTION_SET
            | SyntaxKind::FIELDS_DEFINITION
            | SyntaxKind::ENUM_VALUES_DEFINITION
            | SyntaxKind::INPUT_FIELDS_DEFINITION => Inside::Braces,
            SyntaxKind::ARGUMENTS
            | SyntaxKind::ARGUMENTS_DEFINITION
            | SyntaxKind::VARIABLE_DEFINITIONS
            | SyntaxKind::OBJECT_VALUE => Inside::Entries,
            SyntaxKind::LIST_VALUE => Inside::Values,
            SyntaxKind::DIRECTIVES => Inside::Directives,
            SyntaxKind::UNION_MEMBER_TYPES => Inside::Members,
            SyntaxKind::SCHEMA_DEFINITION | SyntaxKind::SCHEMA_EXTENSION => Inside::Schema,
            SyntaxKind::DOCUMENT => Inside::Document,
            _ => Inside::Construct,
        }
    }

    /// Whether it is a group between brackets.
    #[inline(always)]
    pub fn has_brackets(self) -> bool {
        matches!(self, Inside::Entries | Inside::Values)
    }

    /// Whether it is a group without brackets, which ends where the next token begins.
    #[inline(always)]
    pub fn is_open_ended(self) -> bool {
        matches!(self, Inside::Directives | Inside::Members)
    }

    /// Whether it is a group: in one line if it fits, else with a line for each of its parts.
    #[inline(always)]
    pub fn is_group(self) -> bool {
        self.has_brackets() || self.is_open_ended()
    }
}

/// Whether a node of this kind always holds one token and nothing else.
#[inline(always)]
pub fn is_word(kind: SyntaxKind) -> bool {
    matches!(
        kind,
        SyntaxKind::NAME
            | SyntaxKind::NAMED_TYPE
            | SyntaxKind::OPERATION_TYPE
            | SyntaxKind::DESCRIPTION
            | SyntaxKind::STRING_VALUE
            | SyntaxKind::INT_VALUE
            | SyntaxKind::FLOAT_VALUE
            | SyntaxKind::BOOLEAN_VALUE
            | SyntaxKind::NULL_VALUE
            | SyntaxKind::ENUM_VALUE
    )
}

/// Whether a leaf of this kind is an opening bracket.
#[inline(always)]
pub fn opens(kind: SyntaxKind) -> bool {
    matches!(
        kind,
        SyntaxKind::L_PAREN | SyntaxKind::L_BRACK | SyntaxKind::L_CURLY
    )
}

/// Whether a leaf of this kind is a closing bracket.
#[inline(always)]
pub fn closes(kind: SyntaxKind) -> bool {
    matches!(
        kind,
        SyntaxKind::R_PAREN | SyntaxKind::R_BRACK | SyntaxKind::R_CURLY
    )
}

/// Whether what follows this child has a line of its own between braces: in a schema, what follows the opening brace or
/// a root operation.
#[inline(always)]
pub fn is_in_braces(inside: Inside, left: SyntaxKind) -> bool {
    match inside {
        Inside::Braces => true,
        Inside::Schema => {
            matches!(
                left,
                SyntaxKind::L_CURLY | SyntaxKind::ROOT_OPERATION_TYPE_DEFINITION
            )
        }
        _ => false,
    }
}

// Whether nothing is between two neighbours below a node of this kind.
#[inline(always)]
fn is_tight(parent: SyntaxKind, left: SyntaxKind, right: SyntaxKind) -> bool {
    let joins_left = match right {
        SyntaxKind::COLON
        | SyntaxKind::BANG
        | SyntaxKind::ARGUMENTS
        | SyntaxKind::ARGUMENTS_DEFINITION => true,
        SyntaxKind::VARIABLE_DEFINITIONS => left == SyntaxKind::NAME,
        _ => false,
    };
    joins_left
        || matches!(left, SyntaxKind::AT | SyntaxKind::DOLLAR)
        || match parent {
            SyntaxKind::LIST_TYPE => true,
            SyntaxKind::FRAGMENT_SPREAD => left == SyntaxKind::SPREAD,
            _ => false,
        }
}

/// Whether a comment after this child is one between items, and not inside a construct.
#[inline(always)]
pub fn is_between_items(inside: Inside, left: SyntaxKind) -> bool {
    matches!(inside, Inside::Document) || inside.has_brackets() || is_in_braces(inside, left)
}

// Whether empty lines after this child become one: between items, and after a comment in a line of its own.
#[inline(always)]
fn may_keep_blank(inside: Inside, left: Option<SyntaxKind>, is_after_comment: bool) -> bool {
    is_after_comment
        || match left {
            Some(left) => !opens(left) && is_between_items(inside, left),
            None => false,
        }
}

/// Whether empty lines between two neighbours become one, where the right one is no comment. Between the values of a
/// list they go, and before a closing bracket.
#[inline(always)]
pub fn keeps_blank(
    inside: Inside,
    left: Option<SyntaxKind>,
    right: SyntaxKind,
    is_after_comment: bool,
) -> bool {
    let is_dropped = matches!(inside, Inside::Values) && !is_after_comment;
    !closes(right) && !is_dropped && may_keep_blank(inside, left, is_after_comment)
}

/// Whether empty lines before a comment become one. They do before the first child too.
#[inline(always)]
pub fn keeps_blank_before_comment(
    inside: Inside,
    left: Option<SyntaxKind>,
    is_after_comment: bool,
) -> bool {
    left.is_none() || may_keep_blank(inside, left, is_after_comment)
}

/// Whether a comment after this child is inside a construct. Its line is then one level deeper.
#[inline(always)]
pub fn is_inside_construct(inside: Inside, left: Option<SyntaxKind>) -> bool {
    !matches!(inside, Inside::Document)
        && !inside.is_group()
        && left != Some(SyntaxKind::DESCRIPTION)
}

/// Whether a construct goes on with this child. After a comment its line is then one level deeper.
#[inline(always)]
pub fn goes_on(inside: Inside, right: SyntaxKind) -> bool {
    !inside.is_group()
        && !matches!(Inside::of(right), Inside::Braces)
        && right != SyntaxKind::L_CURLY
}

/// Whether a sign between members is left out that is the first child: `|` before the first location of a directive.
/// Before the first member of a union and the first interface, `between` says it.
#[inline(always)]
pub fn leaves_out_sign(parent: SyntaxKind, left: Option<SyntaxKind>) -> bool {
    parent == SyntaxKind::DIRECTIVE_LOCATIONS && left.is_none()
}

// What is between two items of a group between brackets, or between an item and a bracket.
#[inline(always)]
fn in_brackets(parent: SyntaxKind, left: SyntaxKind, right: SyntaxKind) -> Separator {
    match (opens(left), closes(right)) {
        (false, false) => Separator::Comma,
        (true, true) => Separator::Nothing,
        _ if parent == SyntaxKind::OBJECT_VALUE => Separator::SoftSpace,
        _ => Separator::SoftNothing,
    }
}

// What is between two neighbours in the members of a union, or between the equals sign and its neighbour.
#[inline(always)]
fn in_members(left: SyntaxKind, right: SyntaxKind) -> Separator {
    match (left, right) {
        (SyntaxKind::EQ, SyntaxKind::PIPE) => Separator::FirstSign,
        (SyntaxKind::EQ, _) => Separator::FirstMember,
        (_, SyntaxKind::PIPE) => Separator::SoftSpace,
        _ => Separator::Space,
    }
}

/// What is between two neighbours below a node of this kind.
#[inline(always)]
pub fn between(
    inside: Inside,
    parent: SyntaxKind,
    left: SyntaxKind,
    right: SyntaxKind,
) -> Separator {
    match inside {
        Inside::Document => Separator::Line,
        Inside::Entries | Inside::Values => in_brackets(parent, left, right),
        Inside::Directives => Separator::SoftSpace,
        Inside::Members => in_members(left, right),
        _ if left == SyntaxKind::DESCRIPTION || is_in_braces(inside, left) => Separator::Line,
        _ if is_tight(parent, left, right) => Separator::Nothing,
        _ if right == SyntaxKind::DIRECTIVES => Separator::SoftSpace,
        _ if left == SyntaxKind::implements_KW && right == SyntaxKind::AMP => Separator::NoSign,
        _ => Separator::Space,
    }
}
