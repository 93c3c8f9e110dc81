// What a pattern is written with.
use std::alloc::Allocator;

/// The bytes from a first to a last.
#[derive(Clone, Copy)]
pub struct Range {
    pub first: u8,
    pub last: u8,
}

/// A sign of a pattern.
#[derive(Drop)]
pub enum Sign<A: Allocator> {
    /// This byte.
    Byte(u8),
    /// `?`: any byte but a slash.
    One,
    /// `[..]`: one of these bytes.
    OneOf(Vec<Range, A>),
    /// `[!..]`: any byte but these and a slash.
    NoneOf(Vec<Range, A>),
    /// `*`: any bytes but slashes.
    Many,
    /// `**/`: any folders, each with its slash.
    Folders,
    /// What fits nothing: a backslash at the end, or a bracket that is not closed.
    Nothing,
}
