// The search for the leaves at a byte offset.
ghost use Rattle.std.specs.Prelude.{◌≡◌, ◌++◌, option_map};
ghost use Rattle.std.specs.Option.{option_to_list};
ghost use Rattle.apollo_tree.specs.AtOffset.{answer_places};
ghost use Rattle.apollo_tree.specs.References.{token_place};

use crate::node::{SyntaxToken, Table};

/// The leaves at a byte offset.
#[derive(Clone, Copy)]
pub enum TokenAtOffset<'t> {
    /// No leaf with text is there.
    None,
    /// The offset is inside this leaf, or at an end of the text.
    Single(SyntaxToken<'t>),
    /// The first leaf ends at the offset, and the second begins there.
    Between(SyntaxToken<'t>, SyntaxToken<'t>),
}

impl<'t> TokenAtOffset<'t> {
    ghost use Rattle.std.specs.Prelude.{None};
    ghost use Rattle.std.specs.List.{last_or};

    // The leaf before an offset and the leaf after it, as one answer.
    fn new(left: Option<SyntaxToken<'t>>, right: Option<SyntaxToken<'t>>) -> TokenAtOffset<'t>
        ensures { answer_places result ≡ option_to_list (option_map token_place left.entry)
            ++ option_to_list (option_map token_place right.entry) }
    {
        match (left, right) {
            (None, None) => TokenAtOffset::None,
            (Some(leaf), None) | (None, Some(leaf)) => TokenAtOffset::Single(leaf),
            (Some(left), Some(right)) => TokenAtOffset::Between(left, right),
        }
    }

    /// The only leaf, or the second of two; `None` where there is none.
    pub fn right_biased(self) -> Option<SyntaxToken<'t>>
        ensures { option_map token_place result ≡ last_or None (answer_places self.entry) }
    {
        match self {
            TokenAtOffset::None => None,
            TokenAtOffset::Single(leaf) | TokenAtOffset::Between(_, leaf) => Some(leaf),
        }
    }
}

impl<'t> Table<'t> {
    ghost use Rattle.std.specs.Prelude.{ℕ, ◌+◌, ◌-◌, ◌<◌, ◌≤◌, false, length};
    ghost use Rattle.std.specs.List.{filter};
    ghost use Rattle.apollo_tree.specs.AtOffset.{is_at_offset};
    ghost use Rattle.apollo_tree.specs.Below.{places_from};
    ghost use Rattle.apollo_tree.specs.Forms.{readable};
    ghost use Rattle.apollo_tree.specs.References.{table_place, table_tree};
    ghost use Rattle.apollo_tree.specs.Starts.{BeginBefore, BeginFrom};

    // The first of the records from one up to another that begins after a byte offset, or that other if none does.
    fn first_after(self, from: usize, to: usize, offset: usize) -> usize
        requires order { from ≤ to }
        requires inside { to ≤ length (readable self.records) }
        ensures order { (from ≤ result) × (result ≤ to) }
        ensures before { BeginBefore (offset + 1) self.entry from result }
        ensures after { BeginFrom (offset + 1) self.entry result to }
    {
        let mut low = from;
        let mut high = to;
        while low < high {
            let middle = low + (high - low) / 2;
            if self.record(middle).start <= offset {
                low = middle + 1;
            } else {
                high = middle;
            }
        }
        low
    }

    // The first of the records from one up to another that begins at a byte offset or after it, or that other if none
    // does.
    fn first_from(self, from: usize, to: usize, offset: usize) -> usize
        requires order { from ≤ to }
        requires inside { to ≤ length (readable self.records) }
        ensures order { (from ≤ result) × (result ≤ to) }
        ensures before { BeginBefore offset self.entry from result }
        ensures after { BeginFrom offset self.entry result to }
    {
        if offset == 0 {
            from
        } else {
            self.first_after(from, to, offset - 1)
        }
    }

    // The last of the records from one up to another, if it is a leaf at a byte offset. None of the others may be one.
    fn last_leaf(self, from: usize, to: usize, offset: usize) -> Option<SyntaxToken<'t>>
        requires inside { to ≤ length (readable self.records) }
        requires others { (k : ℕ) → from ≤ k → k + 1 < to → is_at_offset offset (table_place self k) ≡ false }
        ensures { option_to_list (option_map token_place result)
            ≡ filter (is_at_offset offset) (places_from (table_tree self.entry) from (to - from)) }
    {
        if to <= from {
            return None;
        }
        let index = to - 1;
        if !self.record(index).is_node && self.range(index).meets(offset) {
            Some(SyntaxToken { table: self, index })
        } else {
            None
        }
    }

    // The leaves at a byte offset among the records from one up to another.
    pub(crate) fn tokens_at(self, from: usize, to: usize, offset: usize) -> TokenAtOffset<'t>
        requires order { from ≤ to }
        requires inside { to ≤ length (readable self.records) }
        ensures { answer_places result
            ≡ filter (is_at_offset offset) (places_from (table_tree self.entry) from (to - from)) }
    {
        let here = self.first_from(from, to, offset);
        let next = self.first_after(here, to, offset);
        TokenAtOffset::new(
            self.last_leaf(from, here, offset),
            self.last_leaf(here, next, offset),
        )
    }
}
