// The structs that C reads and writes.
use std::mem::size_of;

/// How a call ended.
pub mod status {
    /// It did what it is for. Errors of the text are no failure.
    pub const OK: u32 = 0;

    /// The bytes are not UTF-8.
    pub const NOT_UTF8: u32 = 1;

    /// The text has 2 ^ 31 bytes or more, or its tree 2 ^ 28 elements or more.
    pub const TOO_LONG: u32 = 2;

    /// Memory was refused.
    pub const NO_MEMORY: u32 = 3;

    /// The text is not one string with its quotes.
    pub const NOT_A_STRING: u32 = 4;

    /// The text is no document within both limits.
    pub const NOT_A_DOCUMENT: u32 = 5;

    // 6 to 8 are statuses of `c_validation`

    /// The formatted text has more bytes than there is room for.
    pub const NO_ROOM: u32 = 9;
}

/// An error.
#[repr(C)]
#[derive(Clone, Copy)]
pub struct ErrorRow {
    /// The byte offset at which the text begins that it is about.
    pub start: usize,
    /// The byte offset at which that text has ended. The text is empty for a limit and for the end.
    pub end: usize,
    /// Where its message begins in the bytes of all messages.
    pub message: usize,
    /// How many bytes its message has.
    pub message_length: usize,
    /// 1 when it is about a limit, else 0.
    pub is_limit: u32,
    /// 1 when it is about the end of the text, else 0.
    pub is_eof: u32,
}

const _: () = prove!(size_of::<ErrorRow>() == 40);

/// An item of a text: a token, bad text, the end, or the token limit where it was met.
#[repr(C)]
#[derive(Clone, Copy)]
pub struct ItemRow {
    /// The byte offset at which its text begins.
    pub start: u32,
    /// The byte offset at which its text has ended.
    pub end: u32,
    /// The number of its kind, which is its leaf's in a tree: IDENT for each name; ERROR for bad text, the end and the
    /// limit.
    pub kind: u16,
    /// 1 for bad text and for the limit, 0 for a token and for the end.
    pub is_error: u16,
}

const _: () = prove!(size_of::<ItemRow>() == 12);

/// How a parse ended, and how much there is, whether or not the buffers had room for it. All numbers are 0 when it was
/// refused.
#[repr(C)]
#[derive(Clone, Copy)]
pub struct Counts {
    /// How many elements the tree has; or items the text, and one more where the token limit is met.
    pub elements: usize,
    /// How many bytes the text of the tree has; 0 where a text is only cut into its items.
    pub text_bytes: usize,
    /// How many errors there are.
    pub errors: usize,
    /// How many bytes all messages have.
    pub message_bytes: usize,
    /// The highest nesting, entered or refused; 0 where a text is only cut into its items.
    pub recursion_high: usize,
    /// How many items were read, and one more where the token limit is met.
    pub token_high: usize,
    /// One of the numbers of the module `status`.
    pub status: u32,
}

/// How a call that writes one text ended, and how many bytes the text has, whether or not the buffer had room for it.
#[repr(C)]
#[derive(Clone, Copy)]
pub struct ByteCount {
    /// How many bytes there are; 0 when the call was refused.
    pub bytes: usize,
    /// One of the numbers of the module `status`.
    pub status: u32,
}
