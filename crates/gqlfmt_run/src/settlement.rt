// The outcome of handling a text.

/// What came of a text.
#[derive(Clone, Copy)]
pub enum Settled {
    /// It has the layout now.
    Done,
    /// It has another layout, in a mode that changes nothing.
    Found,
    /// It has errors, or is not formatted for another reason.
    Refused,
}
