// The contexts of the nodes above a node, each found once.
ghost use Rattle.std.specs.Prelude.{◌≡◌, IfOk, option_map};
ghost use Rattle.std.specs.List.{All};
ghost use Rattle.apollo_tree.specs.Order.{parent_place};
ghost use Rattle.apollo_tree.specs.References.{node_place};
ghost use Rattle.type_system.specs.Schemas.{types};
ghost use Rattle.apollo_tree.specs.Above.{at_or_above};
ghost use Rattle.query_validation.specs.Contexts.{around, as_context, inside, step};
ghost use Rattle.query_validation.specs.Stack.{IsLevel};

use crate::contexts::{Context, inside_of, step};
use apollo_tree::SyntaxNode;
use std::alloc::{AllocError, Global};
use type_system::Schema;

// A node, by its number in its tree, with the context inside it.
#[derive(Clone, Copy)]
pub(crate) struct Level<'s, 't> {
    pub index: usize,
    pub inside: Context<'s, 't>,
}

// What holds around a node and in it.
#[derive(Clone, Copy)]
pub(crate) struct Contexts<'s, 't> {
    pub around: Context<'s, 't>,
    pub inside: Context<'s, 't>,
}

// What holds in the parent of a node: the levels below the parent's are left, and where it has no level, what holds is
// found by the nodes above it.
fn inside_parent<'s, 't>(
    alloc: Global,
    schema: &'s Schema<'t>,
    stack: &mut Vec<Level<'s, 't>>,
    parent: &SyntaxNode<'s>,
) -> Result<Context<'s, 't>, AllocError>
    requires { All (IsLevel (types schema.now) (node_place parent.now).whole) stack.old.items }
    ensures levels { All (IsLevel (types schema.now) (node_place parent.now).whole) stack.new.items }
    ensures context { IfOk result (λ context.
        as_context context ≡ inside (types schema.now) (at_or_above (node_place parent.now))) }
{
    'levels: while let Some(level) = stack.pop() {
        if level.index == parent.index() {
            stack.push(level)?;
            return Ok(level.inside);
        }
    }
    inside_of(alloc, schema, parent)
}

// What holds around a node with this parent.
fn around<'s, 't>(
    alloc: Global,
    schema: &'s Schema<'t>,
    stack: &mut Vec<Level<'s, 't>>,
    node: &SyntaxNode<'s>,
    parent: Option<SyntaxNode<'s>>,
) -> Result<Context<'s, 't>, AllocError>
    requires levels { All (IsLevel (types schema.now) (node_place node.now).whole) stack.old.items }
    requires parent { option_map node_place parent ≡ parent_place (node_place node.now) }
    ensures levels { All (IsLevel (types schema.now) (node_place node.now).whole) stack.new.items }
    ensures context { IfOk result (λ context.
        as_context context ≡ around (types schema.now) (node_place node.now)) }
{
    match parent {
        Some(parent) => inside_parent(alloc, schema, stack, &parent),
        None => Ok(Context {
            parent: None,
            definition: None,
            wanted: None,
        }),
    }
}

// What holds around a node that comes after those of the levels, and in it. The node gets a level.
pub(crate) fn contexts_of<'s, 't>(
    alloc: Global,
    schema: &'s Schema<'t>,
    stack: &mut Vec<Level<'s, 't>>,
    node: &SyntaxNode<'s>,
) -> Result<Contexts<'s, 't>, AllocError>
    requires { All (IsLevel (types schema.now) (node_place node.now).whole) stack.old.items }
    ensures levels { All (IsLevel (types schema.now) (node_place node.now).whole) stack.new.items }
    ensures around { IfOk result (λ c. as_context c.around ≡ around (types schema.now) (node_place node.now)) }
    ensures inside { IfOk result (λ c.
        as_context c.inside
        ≡ step (types schema.now) (around (types schema.now) (node_place node.now)) (node_place node.now)) }
{
    let parent = node.parent();
    let around = around(alloc, schema, stack, node, parent)?;
    let inside = step(schema, &around, node);
    let index = node.index();
    stack.push(Level { index, inside })?;
    Ok(Contexts { around, inside })
}
