// What is to be between two tokens.

/// What is to be between a token and the one before it: perhaps a comma, then line feeds, then spaces. It is advice:
/// the writer adds the white space that keeps the tokens apart, and leaves a comma out after a comment.
#[derive(Clone, Copy)]
pub struct Gap {
    /// Whether a comma comes first.
    pub comma: bool,
    /// How many line feeds follow.
    pub lines: u8,
    /// How many spaces follow them.
    pub spaces: u16,
}

impl Gap {
    /// Nothing.
    pub const NONE: Gap = Gap {
        comma: false,
        lines: 0,
        spaces: 0,
    };
    /// One space.
    pub const SPACE: Gap = Gap {
        comma: false,
        lines: 0,
        spaces: 1,
    };
}
