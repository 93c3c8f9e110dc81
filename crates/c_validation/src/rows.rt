// The structs that C reads and writes.
use std::mem::size_of;

/// How a call ended: the numbers of `c_parsing`, those of a document whose operations have no figures, and one for a
/// validation that ended early.
pub mod status {
    pub use c_parsing::status::{NO_MEMORY, NOT_A_DOCUMENT, NOT_UTF8, OK};

    /// Two fragments have one name.
    pub const SAME_NAME: u32 = 6;

    /// An operation leads to a cycle of fragments.
    pub const CYCLE: u32 = 7;

    /// An operation leads to a spread of a fragment that is not defined.
    pub const UNDEFINED: u32 = 8;

    /// Validation ended before an operation, since the steps were used up.
    pub const UNDECIDED: u32 = 10;
}

/// A violation of a rule. Offsets are in bytes of the text.
#[repr(C)]
#[derive(Clone, Copy)]
pub struct ViolationRow {
    /// Where the node begins that breaks the rule.
    pub start: usize,
    /// Where that node has ended.
    pub end: usize,
    /// Where the other party begins; 0 where there is none.
    pub other_start: usize,
    /// Where the other party has ended; 0 where there is none.
    pub other_end: usize,
    /// Where its message begins in the bytes of all messages.
    pub message: usize,
    /// How many bytes its message has.
    pub message_length: usize,
    /// The rule's number.
    pub rule: u32,
    /// 1 where there is another party, else 0.
    pub has_other: u32,
}

const _: () = prove!(size_of::<ViolationRow>() == 56);

/// How a validation ended, and how much it found, whether or not the buffers had room for it. All numbers are 0 when it
/// was refused.
#[repr(C)]
#[derive(Clone, Copy)]
pub struct ViolationCounts {
    /// How many violations were found, at most as many as the caller allows.
    pub violations: usize,
    /// How many bytes all messages have.
    pub message_bytes: usize,
    /// Where the operation begins before which validation ended; 0 where there is none.
    pub undecided_start: usize,
    /// Where that operation has ended; 0 where there is none.
    pub undecided_end: usize,
    /// One of the numbers of the module `status`.
    pub status: u32,
}

/// An operation, and its figures with all fragments expanded, each at most 2^64 - 1. Offsets are in bytes of the text.
#[repr(C)]
#[derive(Clone, Copy)]
pub struct OperationRow {
    /// Where the operation begins.
    pub start: usize,
    /// Where the operation has ended.
    pub end: usize,
    /// Where its name begins; 0 where it has none.
    pub name_start: usize,
    /// Where its name has ended; 0 where it has none.
    pub name_end: usize,
    /// The greatest number of fields in one another.
    pub depth: u64,
    /// The number of fields.
    pub fields: u64,
    /// The number of fields that no field encloses.
    pub root_fields: u64,
    /// The number of aliases.
    pub aliases: u64,
    /// The number of directives.
    pub directives: u64,
    /// The number of fields, where each selection set counts a response name once.
    pub height: u64,
    /// The number of root fields, counted like `height`.
    pub distinct_root_fields: u64,
}

const _: () = prove!(size_of::<OperationRow>() == 88);

/// How a measurement ended, and how many operations there are, whether or not the buffer had room for them. All numbers
/// are 0 when it was refused, but for the places of the fault that operations have no figures for.
#[repr(C)]
#[derive(Clone, Copy)]
pub struct MeasureCounts {
    /// How many operations the document has.
    pub operations: usize,
    /// Where the second fragment of a name begins, or the spread that is on a cycle or is one of no fragment.
    pub start: usize,
    /// Where that fragment or spread has ended.
    pub end: usize,
    /// Where the first fragment of the name begins.
    pub other_start: usize,
    /// Where that fragment has ended.
    pub other_end: usize,
    /// One of the numbers of the module `status`.
    pub status: u32,
}
