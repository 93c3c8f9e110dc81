/// Where a text is in one of some documents.
#[derive(Clone, Copy)]
pub struct Span {
    /// The number of the document, from 0.
    pub document: usize,
    /// The byte offset at which the text begins.
    pub start: usize,
    /// The byte offset at which it has ended.
    pub end: usize,
}

/// What is counted in a definition.
#[derive(Clone, Copy)]
pub enum Item {
    /// A field, and how many fields of its definition enclose it.
    Field(usize),
    /// The first field of its response name in its selection set, and how many fields of its definition enclose it. It
    /// follows that `Field`.
    ResponseName(usize),
    /// A field's alias.
    Alias,
    /// A directive, wherever it is.
    Directive,
    /// A fragment spread: how many fields of its definition enclose it, the number of the definition that it names, and
    /// where it is.
    Spread(usize, usize, Span),
}
