// The figures of a list of items, from those of its parts.
ghost use Rattle.std.specs.Prelude.{◌≡◌, List, [], ◌∷◌, ◌++◌};
ghost use Rattle.cost_figures.specs.Counts.{figures_of, root_part, lowered, capped};
ghost use Rattle.cost_figures.specs.Expansion.{within};
ghost use Rattle.cost_figures.specs.declared.items.Item.{Item};

use crate::items::Item;

/// How large an operation is with its fragments expanded. Each number stops at `u64::MAX`, which then means that or
/// more.
///
/// The figures limit an operation too: then each is the greatest that is allowed.
#[derive(Clone, Copy)]
pub struct Figures {
    /// The greatest number of fields in one another: 2 for `{a{b}}`.
    pub depth: u64,
    /// The number of fields (GraphQL October 2021, section 2.5), `__typename` among them.
    pub fields: u64,
    /// The number of fields that no field encloses.
    pub root_fields: u64,
    /// The number of aliases (section 2.7).
    pub aliases: u64,
    /// The number of directives (section 2.12) of the operation, its variables, its selections, and its fragments at
    /// each of their spreads.
    pub directives: u64,
    /// The number of fields, where each selection set counts a response name (section 2.7) once. Inline fragments and
    /// fragments have selection sets of their own. Apollo Router limits this number as `max_height`.
    pub height: u64,
    /// The number of root fields, counted like `height`.
    pub distinct_root_fields: u64,
}

impl Figures {
    /// The figures of nothing.
    pub const NONE: Self = Figures {
        depth: 0,
        fields: 0,
        root_fields: 0,
        aliases: 0,
        directives: 0,
        height: 0,
        distinct_root_fields: 0,
    };

    /// Limits that no figure exceeds.
    pub const UNLIMITED: Self = Figures {
        depth: u64::MAX,
        fields: u64::MAX,
        root_fields: u64::MAX,
        aliases: u64::MAX,
        directives: u64::MAX,
        height: u64::MAX,
        distinct_root_fields: u64::MAX,
    };

    // The figures of one item. A spread has none of its own.
    pub(crate) fn of(item: Item) -> Self
        ensures { result ≡ figures_of (item ∷ []) }
    {
        match item {
            Item::Field(enclosing) => Figures {
                depth: (enclosing as u64).saturating_add(1),
                fields: 1,
                root_fields: at_root(enclosing, 1),
                ..Figures::NONE
            },
            Item::ResponseName(enclosing) => Figures {
                height: 1,
                distinct_root_fields: at_root(enclosing, 1),
                ..Figures::NONE
            },
            Item::Alias => Figures {
                aliases: 1,
                ..Figures::NONE
            },
            Item::Directive => Figures {
                directives: 1,
                ..Figures::NONE
            },
            Item::Spread(_, _, _) => Figures::NONE,
        }
    }

    // Those of two lists, one after the other.
    pub(crate) fn plus(self, next: Figures) -> Self
        ensures { (xs ys : List Item) → self ≡ figures_of xs → next ≡ figures_of ys → result ≡ figures_of (xs ++ ys) }
    {
        Figures {
            depth: self.depth.max(next.depth),
            fields: self.fields.saturating_add(next.fields),
            root_fields: self.root_fields.saturating_add(next.root_fields),
            aliases: self.aliases.saturating_add(next.aliases),
            directives: self.directives.saturating_add(next.directives),
            height: self.height.saturating_add(next.height),
            distinct_root_fields: self
                .distinct_root_fields
                .saturating_add(next.distinct_root_fields),
        }
    }

    // Those of the same list where more fields enclose it, as many as `enclosing` says.
    pub(crate) fn within(self, enclosing: usize) -> Self
        ensures { (xs : List Item) → self ≡ figures_of xs → result ≡ figures_of (within enclosing xs) }
    {
        Figures {
            depth: lower(self.depth, enclosing),
            root_fields: at_root(enclosing, self.root_fields),
            distinct_root_fields: at_root(enclosing, self.distinct_root_fields),
            ..self
        }
    }
}

// How many of the root fields of a selection set are root fields of its operation.
fn at_root(enclosing: usize, count: u64) -> u64
    ensures { result ≡ root_part enclosing count }
{
    if enclosing == 0 { count } else { 0 }
}

// The depth of a selection set that this number of fields encloses. One with no field has none.
fn lower(depth: u64, enclosing: usize) -> u64
    ensures { result ≡ capped (lowered depth enclosing) }
{
    if depth == 0 {
        0
    } else {
        depth.saturating_add(enclosing as u64)
    }
}
