// What an extension of a type adds.

ghost use Rattle.std.specs.Prelude.{◌≡◌, true};
ghost use Rattle.apollo_grammar.specs.Clauses.{holds, At, Child, Parses};
ghost use Rattle.apollo_grammar.specs.Clauses.rules;
ghost use Rattle.apollo_grammar.specs.Blocks as blocks;

use super::directive::optional_directives;
use super::enum_::enum_values_definition;
use super::field::fields_definition;
use super::input::input_fields_definition;
use super::union_::union_member_types;
use lexical_grammar::TokenKind;
use parser_rules::{Constness, Message};
use parser_state::ParserState;
use std::alloc::{AllocError, Allocator};

/// What a type is made of, at the end of its definition or its extension.
#[derive(Clone, Copy)]
pub enum Block {
    FieldsDefinition,
    UnionMemberTypes,
    EnumValuesDefinition,
    InputFieldsDefinition,
}

// The token with which the block begins.
fn first_of(block: Block) -> TokenKind
    ensures { result ≡ blocks.first_of block }
{
    match block {
        Block::UnionMemberTypes => TokenKind::Eq,
        Block::FieldsDefinition | Block::EnumValuesDefinition | Block::InputFieldsDefinition => {
            TokenKind::LCurly
        }
    }
}

/// Directives and a block: an extension adds one of them at least.
pub fn extended<A: Allocator + Copy>(
    p: &mut ParserState<'_, A>,
    block: Block,
    message: Message,
) -> Result<(), AllocError>
    ensures { Parses (rules.extended (blocks.first_of block) (blocks.node_of block) message) result p.old p.new }
{
    if p.at(TokenKind::At) {
        optional_directives(p, Constness::Const)?;
        if p.at(first_of(block)) {
            return node_of(p, block);
        }
        return Ok(());
    }
    if p.at(first_of(block)) {
        return node_of(p, block);
    }
    p.err(message)
}

// The block, where its first token comes next.
fn node_of<A: Allocator + Copy>(p: &mut ParserState<'_, A>, block: Block) -> Result<(), AllocError>
    requires { true ≡ holds (At (blocks.first_of block)) p.old }
    ensures { Parses (Child (blocks.node_of block)) result p.old p.new }
{
    match block {
        Block::FieldsDefinition => fields_definition(p),
        Block::UnionMemberTypes => union_member_types(p),
        Block::EnumValuesDefinition => enum_values_definition(p),
        Block::InputFieldsDefinition => input_fields_definition(p),
    }
}
