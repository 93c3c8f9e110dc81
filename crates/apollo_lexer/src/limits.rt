// The limits of a reader and of a parser, as values.

/// How much of a text is read. It has C's layout, since C passes it by value.
#[repr(C)]
#[derive(Clone, Copy, Debug, PartialEq, Eq)]
pub struct Limits {
    /// How deep selection sets, list types and values may nest.
    pub recursion: usize,
    /// How many items of the text are read, ignored ones and the end among them.
    pub tokens: usize,
}

impl Limits {
    /// The limits where none are set: 500 levels, and any number of items.
    pub const DEFAULT: Limits = Limits {
        recursion: 500,
        tokens: usize::MAX,
    };
}
