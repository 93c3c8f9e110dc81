// Records in the forms that take fewer bytes.
ghost use Rattle.std.specs.Prelude.{◌≡◌, ◌+◌, ◌*◌, ◌/◌, ◌%◌, ◌==◌, ◌^◌, ◌<◌, true};
ghost use Rattle.apollo_tree.specs.declared.record.Record.{Record as Plain};
ghost use Rattle.apollo_tree.specs.Widened.{joined, of_small, widened, IsSmall, IsNarrow};
ghost use Rattle.apollo_tree.specs.Compact.{compact_record};

use crate::compact::CompactElement;
use crate::record::Record;
use document_grammar::SyntaxKind;
use std::mem::size_of;

// The most records that a table of small ones has, and the greatest size and distance to a parent in it.
pub const MOST_SMALL: usize = (1 << 28) - 1;

// The bit that says that a small record is a node's. It comes above the record's start.
const NODE: u32 = 1 << 31;

// The greatest start of a small record.
pub const LAST_SMALL_START: usize = NODE as usize - 1;

// A record in one of a table's forms.
pub trait Packed: Copy {
    // the record with the same fields
    ghost plain: { Self → Plain };

    fn row(self) -> Record
        ensures { result ≡ plain self };

    // The record in twelve bytes, whatever the form was.
    fn compact(self) -> CompactElement
        requires { IsSmall (plain self) }
        ensures { result ≡ compact_record (plain self) };
}

// A record of a table with fewer than 2 ^ 28 records, whose text begins before byte 2 ^ 31.
#[derive(Clone, Copy)]
pub struct SmallRecord {
    // twice the start, and one more for a node
    pub(crate) start_and_node: u32,
    // sixteen times the size, and the highest four bits of the distance to the parent
    pub(crate) size_and_parent: u32,
    pub(crate) parent_low: u16,
    pub(crate) parent_middle: u8,
    pub(crate) kind: SyntaxKind,
}

const _: () = prove!(size_of::<SmallRecord>() == 12);

// A record whose numbers are below 2 ^ 32.
#[derive(Clone, Copy)]
pub struct NarrowRecord {
    kind: SyntaxKind,
    is_node: bool,
    start: u32,
    size: u32,
    to_parent: u32,
}

const _: () = prove!(size_of::<NarrowRecord>() == 16);

// The number with these parts: four bits, eight and sixteen.
#[inline(always)]
fn join(high: u32, middle: u8, low: u16) -> usize
    requires { high < 16 }
    ensures { result ≡ joined high middle low }
{
    low as usize + 65536 * (middle as usize + 256 * high as usize)
}

// The parts of a number below 2 ^ 28.
#[inline(always)]
fn split(number: usize) -> (u32, u8, u16)
    requires { number < 2 ^ 28 }
    ensures high { result.0 < 16 }
    ensures number { joined result.0 result.1 result.2 ≡ number }
{
    (
        (number / 65536 / 256) as u32,
        (number / 65536 % 256) as u8,
        (number % 65536) as u16,
    )
}

// A start, and whether the record is a node's.
#[inline(always)]
fn start_word(start: usize, is_node: bool) -> u32
    requires { start < 2 ^ 31 }
    ensures start { result % 2 ^ 31 ≡ start }
    ensures node { (result / 2 ^ 31 == 1) ≡ is_node }
{
    if is_node {
        start as u32 + NODE
    } else {
        start as u32
    }
}

// A size, and the highest part of a distance.
#[inline(always)]
fn size_word(size: usize, high: u32) -> u32
    requires size { size < 2 ^ 28 }
    requires high { high < 16 }
    ensures size { result / 16 ≡ size }
    ensures high { result % 16 ≡ high }
{
    size as u32 * 16 + high
}

impl Packed for SmallRecord {
    ghost plain = { of_small };

    #[inline(always)]
    fn row(self) -> Record {
        Record {
            kind: self.kind,
            is_node: self.start_and_node / NODE == 1,
            start: (self.start_and_node % NODE) as usize,
            size: (self.size_and_parent / 16) as usize,
            to_parent: join(
                self.size_and_parent % 16,
                self.parent_middle,
                self.parent_low,
            ),
        }
    }

    #[inline(always)]
    fn compact(self) -> CompactElement {
        CompactElement {
            start_and_node: self.start_and_node,
            size_and_parent: self.size_and_parent,
            parent_low: self.parent_low,
            parent_middle: self.parent_middle,
            kind: self.kind.to_u16() as u8,
        }
    }
}

impl Packed for NarrowRecord {
    ghost plain = { widened };

    #[inline(always)]
    fn row(self) -> Record {
        Record {
            kind: self.kind,
            is_node: self.is_node,
            start: self.start as usize,
            size: self.size as usize,
            to_parent: self.to_parent as usize,
        }
    }

    #[inline(always)]
    fn compact(self) -> CompactElement {
        self.row().compact()
    }
}

impl Packed for Record {
    ghost plain = { λ r. r };

    #[inline(always)]
    fn row(self) -> Record {
        self
    }

    #[inline(always)]
    fn compact(self) -> CompactElement {
        SmallRecord::new(self).compact()
    }
}

impl SmallRecord {
    // Whether a table with this number of records can take one more in this form.
    #[inline]
    pub fn fits(len: usize, row: Record) -> bool
        ensures len { result ≡ true → len + 1 < 2 ^ 28 }
        ensures row { result ≡ true → IsSmall row }
    {
        len < MOST_SMALL
            && row.start <= LAST_SMALL_START
            && row.size <= MOST_SMALL
            && row.to_parent <= MOST_SMALL
    }

    #[inline]
    pub fn new(row: Record) -> SmallRecord
        requires { IsSmall row }
        ensures { of_small result ≡ row }
    {
        let (parent_high, parent_middle, parent_low) = split(row.to_parent);
        SmallRecord {
            start_and_node: start_word(row.start, row.is_node),
            size_and_parent: size_word(row.size, parent_high),
            parent_low,
            parent_middle,
            kind: row.kind,
        }
    }

    // The same record in the narrow form.
    #[inline(always)]
    pub fn narrow(self) -> NarrowRecord
        ensures { widened result ≡ of_small self }
    {
        let row = self.row();
        NarrowRecord {
            kind: row.kind,
            is_node: row.is_node,
            start: row.start as u32,
            size: row.size as u32,
            to_parent: row.to_parent as u32,
        }
    }

    #[inline]
    pub fn with_size(self, size: usize) -> SmallRecord
        requires { size < 2 ^ 28 }
        ensures { of_small result ≡ record (of_small self) { size = size } }
    {
        SmallRecord {
            size_and_parent: size_word(size, self.size_and_parent % 16),
            ..self
        }
    }

    #[inline]
    pub fn with_parent(self, to_parent: usize) -> SmallRecord
        requires { to_parent < 2 ^ 28 }
        ensures { of_small result ≡ record (of_small self) { to_parent = to_parent } }
    {
        let (parent_high, parent_middle, parent_low) = split(to_parent);
        SmallRecord {
            size_and_parent: size_word((self.size_and_parent / 16) as usize, parent_high),
            parent_low,
            parent_middle,
            ..self
        }
    }
}

impl NarrowRecord {
    // Whether a table with this number of records can take one more in this form.
    #[inline]
    pub fn fits(len: usize, row: Record) -> bool
        ensures len { result ≡ true → len + 1 < 2 ^ 32 }
        ensures row { result ≡ true → IsNarrow row }
    {
        len < u32::MAX as usize
            && row.start <= u32::MAX as usize
            && row.size <= u32::MAX as usize
            && row.to_parent <= u32::MAX as usize
    }

    #[inline]
    pub fn new(row: Record) -> NarrowRecord
        requires { IsNarrow row }
        ensures { widened result ≡ row }
    {
        NarrowRecord {
            kind: row.kind,
            is_node: row.is_node,
            start: row.start as u32,
            size: row.size as u32,
            to_parent: row.to_parent as u32,
        }
    }

    #[inline]
    pub fn with_size(self, size: usize) -> NarrowRecord
        requires { size < 2 ^ 32 }
        ensures { widened result ≡ record (widened self) { size = size } }
    {
        NarrowRecord {
            size: size as u32,
            ..self
        }
    }

    #[inline]
    pub fn with_parent(self, to_parent: usize) -> NarrowRecord
        requires { to_parent < 2 ^ 32 }
        ensures { widened result ≡ record (widened self) { to_parent = to_parent } }
    {
        NarrowRecord {
            to_parent: to_parent as u32,
            ..self
        }
    }
}
