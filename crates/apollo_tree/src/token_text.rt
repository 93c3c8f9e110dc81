ghost use Rattle.std.specs.Prelude.{◌≡◌, IfOk, Some, string_bytes, nat_eq};
ghost use Rattle.std.proofs.Common.{rules};
ghost use Rattle.std.specs.Cmp.{partial_order_from_own_ties};
ghost use Rattle.std.specs.Cmp.Lexicographic.{pointwise, slice_cmp};
ghost use Rattle.std.specs.Cmp.Rules.{comparing};
ghost use Rattle.std.specs.Fmt.{debug_str};
ghost use Rattle.std.specs.Ordering.{on, nat_cmp, as_partial_cmp};
ghost use Rattle.apollo_tree.specs.References.{token_text};

use std::alloc::{AllocError, Allocator};
use std::cmp::Ordering;
use std::fmt;

/// The text of a leaf, or of a node that is one leaf. It borrows from the tree.
#[derive(Clone, Copy)]
pub struct TokenText<'t> {
    text: &'t str,
}

impl<'t> TokenText<'t> {
    /// A text as it is.
    pub fn new(text: &'t str) -> TokenText<'t>
        ensures { token_text result ≡ text.now }
    {
        TokenText { text }
    }

    /// The text itself.
    pub fn as_str(&self) -> &'t str
        ensures { result.now ≡ token_text self.now }
    {
        self.text
    }

    /// The text in memory of its own. Fails only where memory is refused.
    pub fn to_string_in<A: Allocator>(&self, alloc: A) -> Result<String<A>, AllocError>
        ensures { IfOk result (λ s. string_bytes s ≡ token_text self.now) }
    {
        String::from_str(alloc, self.text)
    }
}

/// Equal where they are the same bytes.
impl PartialEq for TokenText<'_> {
    ghost eq = { on token_text (pointwise nat_eq) };

    ghost laws = { Prim.search (comparing, rules) };

    fn eq(&self, other: &TokenText<'_>) -> bool {
        self.as_str() == other.as_str()
    }
}

impl Eq for TokenText<'_> {
    ghost laws = { Prim.search (comparing, rules) };
}

/// The first byte that differs decides; a text comes before the longer ones that begin with it.
impl Ord for TokenText<'_> {
    ghost cmp = { on token_text (slice_cmp nat_cmp) };

    ghost total = { Prim.search (comparing, rules) };

    ghost matches_partial_cmp = { Prim.search (comparing, rules) };

    ghost matches_eq = { Prim.search (comparing, rules) };

    fn cmp(&self, other: &TokenText<'_>) -> Ordering {
        self.as_str().cmp(other.as_str())
    }
}

impl PartialOrd for TokenText<'_> {
    ghost partial_cmp = { as_partial_cmp (on token_text (slice_cmp nat_cmp)) };

    ghost laws = { partial_order_from_own_ties (Prim.search (comparing, rules)) (Prim.search (comparing, rules)) };

    fn partial_cmp(&self, other: &TokenText<'_>) -> Option<Ordering> {
        Some(self.cmp(other))
    }
}

/// The text as it is.
impl fmt::Display for TokenText<'_> {
    ghost output = { λ t. Some (token_text t) };

    fn fmt<W: fmt::Write>(&self, f: &mut fmt::Formatter<W>) -> fmt::Result {
        f.write_str(self.text)
    }
}

/// The text in quotes and with escapes, as a `str` is shown.
impl fmt::Debug for TokenText<'_> {
    ghost debug_output = { λ t. debug_str (token_text t) };

    fn fmt<W: fmt::Write>(&self, f: &mut fmt::Formatter<W>) -> fmt::Result {
        let text = self.text;
        write!(f, "{text:?}")
    }
}
