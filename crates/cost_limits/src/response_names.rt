// Response names, and the numbers of fragments.
ghost use Rattle.std.specs.Prelude.{◌≡◌, Option, List, ℕ, IfOk, option_map};
ghost use Rattle.apollo_tree.specs.References.{node_place};
ghost use Rattle.validation_names.specs.Names.{Name};
ghost use Rattle.cost_limits.specs.Items.{response_name};
ghost use Rattle.cost_limits.specs.Collecting.{AreNames, IsNoted, number_of};

use apollo_cst_core::{CstNode, child};
use apollo_cst_executable::Alias;
use apollo_tree::SyntaxNode;
use std::alloc::{AllocError, Allocator};
use std::collections::BTreeMap;
use validation_names::{enter, name};

/// The response name of a field.
pub(crate) fn response_name<'t>(field: &SyntaxNode<'t>) -> Option<&'t str>
    ensures { option_map (λ n. n.now) result ≡ response_name (node_place field.now) }
{
    let alias: Option<Alias<'t>> = child(field);
    match alias {
        Some(alias) => name(alias.syntax()),
        None => name(field),
    }
}

/// Whether a response name is new in its selection set, which then has it. A field without a name, after a syntax
/// error, counts as new.
pub(crate) fn is_new<'t, A: Allocator + Copy>(
    name: Option<&'t str>,
    names: &mut BTreeMap<&'t str, (), A>,
) -> Result<bool, AllocError>
    ensures { IfOk result (λ new. (seen : List Name) → AreNames names.old seen
        → IsNoted (option_map (λ n. n.now) name.entry) seen names.new new) }
{
    match name {
        Some(name) => Ok(enter(names, name, ())?.is_none()),
        None => Ok(true),
    }
}

/// The number of the definition of the fragment with a name; where there is none, a number that no definition has.
pub(crate) fn number_of<A: Allocator + Copy>(
    fragments: &BTreeMap<&str, usize, A>,
    name: Option<&str>,
) -> usize
    ensures { result ≡ number_of fragments.now (option_map (λ n. n.now) name.entry) }
{
    match name {
        Some(name) => fragments.get(name).copied().unwrap_or(usize::MAX),
        None => usize::MAX,
    }
}
