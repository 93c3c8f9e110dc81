// Whether the fields that introspect the schema count.
ghost use Rattle.std.specs.Prelude.{◌≡◌, option_map};
ghost use Rattle.apollo_tree.specs.References.{node_place};
ghost use Rattle.cost_limits.specs.Items.{is_introspection, is_counted};

use apollo_tree::{SyntaxKind, SyntaxNode};
use validation_names::name;

/// Whether the fields count that introspect the schema: `__schema` and `__type` (GraphQL October 2021, section 4.2).
#[derive(Clone, Copy)]
pub enum Introspection {
    /// They count as any other field does.
    Counted,
    /// Neither they nor anything below them counts. A spread that is only there leads nowhere.
    LeftOut,
}

// Whether this is the name of a field that introspects the schema.
fn is_introspection(name: Option<&str>) -> bool
    ensures { result ≡ is_introspection (option_map (λ n. n.now) name.entry) }
{
    match name {
        Some(name) => name == "__schema" || name == "__type",
        None => false,
    }
}

/// Whether a node counts, and what is below it.
pub(crate) fn is_counted(introspection: Introspection, node: &SyntaxNode<'_>) -> bool
    ensures { result ≡ is_counted introspection (node_place node.now) }
{
    match introspection {
        Introspection::Counted => true,
        Introspection::LeftOut => {
            !(node.kind().is(SyntaxKind::FIELD) && is_introspection(name(node)))
        }
    }
}
