// Elements in twelve bytes, for programs in other languages.
ghost use Rattle.std.specs.Prelude.{◌≡◌, map};
ghost use Rattle.std.specs.List.{All};
ghost use Rattle.apollo_tree.specs.Compact.{compact_record};
ghost use Rattle.apollo_tree.specs.Filled.{filled};
ghost use Rattle.apollo_tree.specs.Widened.{IsSmall};

use crate::packed::Packed;
use std::alloc::Allocator;
use std::mem::size_of;

/// A node or a leaf of a tree with fewer than 2 ^ 28 elements, whose text has fewer than 2 ^ 31 bytes.
///
/// Elements are in document order: the first child of a node is the element after it, and the next child after a child
/// comes after all elements of that child's subtree. The text of an element ends where the text begins of the element
/// after its subtree, or with the tree's.
#[repr(C)]
#[derive(Clone, Copy)]
pub struct CompactElement {
    /// The byte offset at which its text begins, and 2 ^ 31 more for a node.
    pub start_and_node: u32,
    /// Sixteen times the number of elements in its subtree, itself counted, and the highest four bits of the distance
    /// to its parent.
    pub size_and_parent: u32,
    /// The lowest sixteen bits of the distance to its parent: how many elements before it its parent is, or 0 for the
    /// root.
    pub parent_low: u16,
    /// The eight bits of the distance between those.
    pub parent_middle: u8,
    /// The number of its kind.
    pub kind: u8,
}

const _: () = prove!(size_of::<CompactElement>() == 12);

// Writes records as far as there is room. It goes over one slice of records, all of one form.
#[inline(always)]
fn write_all<R: Packed>(records: &[R], rows: &mut [CompactElement])
    requires { All IsSmall (map R.plain records.now) }
    ensures { rows.new ≡ filled rows.old (map compact_record (map R.plain records.now)) }
{
    let end = records.len().min(rows.len());
    for index in 0..end {
        rows[index] = records[index].compact();
    }
}

// How many records take so much memory that its half is worth giving back.
const MANY: usize = 1 << 16;

// Writes the records of a table that ends here, as far as there is room. Of many, it writes the later half first, and
// gives its memory back before the rows of the first half take theirs.
#[inline(always)]
pub fn write_and_free<R: Packed, A: Allocator>(records: Vec<R, A>, rows: &mut [CompactElement])
    requires { All IsSmall (map R.plain records.items) }
    ensures { rows.new ≡ filled rows.old (map compact_record (map R.plain records.items)) }
{
    if records.len() < MANY {
        write_all(records.as_slice(), rows);
        return;
    }
    let mut records = records;
    let half = records.len() / 2;
    let (front, back) = rows.split_at_mut(half.min(rows.len()));
    write_all(&records[half..], back);
    records.truncate(half);
    records.shrink_to_fit();
    write_all(records.as_slice(), front);
}
