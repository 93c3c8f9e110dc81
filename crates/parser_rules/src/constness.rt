// Constant places.
/// Whether a place is a constant one, where a value may hold no variable (section 2.10, "Variables").
#[derive(Clone, Copy)]
pub enum Constness {
    /// It is, as below a default value.
    Const,
    /// It is not.
    NotConst,
}
