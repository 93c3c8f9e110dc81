// Types.

ghost use Rattle.std.specs.Prelude.{◌≡◌, true, [], OnOk};
ghost use Rattle.apollo_grammar.specs.Clauses.{holds, Here, At, Child, Call, flush, Parses};
ghost use Rattle.apollo_grammar.specs.Clauses.fragments;
ghost use Rattle.apollo_grammar.specs.Clauses.rule;
ghost use Rattle.apollo_grammar.specs.Clauses.rules;
ghost use Rattle.apollo_grammar.specs.Clauses.token;

use super::name::name;
use apollo_tree::Checkpoint;
use document_grammar::SyntaxKind;
use lexical_grammar::TokenKind;
use parser_rules::Message;
use parser_state::ParserState;
use std::alloc::{AllocError, Allocator};

/// Whether a type starts here.
#[tactic(auto, unfolding(parser_rules::specs::RuleLanguage::holds))]
pub fn starts_type<A: Allocator + Copy>(p: &ParserState<'_, A>) -> bool
    ensures { result ≡ holds (Here rules.type_start) p.now }
{
    p.at(TokenKind::Name) || p.at(TokenKind::LBracket)
}

/// A type (GraphQL October 2021, section 2.11, "Type References"). Whether it is a non-null type is known at its end.
///     Type (2.11) : NamedType, ListType, or NonNullType; NonNullType : NamedType !, or ListType !
#[cycle(ty)]
pub fn ty<A: Allocator + Copy>(p: &mut ParserState<'_, A>) -> Result<(), AllocError>
    ensures { Parses (Call rule.Ty) result p.old p.new }
{
    let checkpoint = p.checkpoint()?;
    nullable_type(p)?;
    if p.at(TokenKind::Bang) {
        p.wrap(checkpoint, SyntaxKind::NON_NULL_TYPE)?;
        p.bump(SyntaxKind::BANG)?;
        p.finish_node();
    }
    Ok(())
}

#[cycle(ty)]
fn nullable_type<A: Allocator + Copy>(p: &mut ParserState<'_, A>) -> Result<(), AllocError>
    ensures { Parses rules.nullable_type result p.old p.new }
{
    if p.at(TokenKind::LBracket) {
        return list_type(p);
    }
    named_type(p)
}

//     ListType (2.11) : [ Type ]
#[cycle(ty)]
fn list_type<A: Allocator + Copy>(p: &mut ParserState<'_, A>) -> Result<(), AllocError>
    requires { true ≡ holds (At token.LBracket) p.old }
    ensures { Parses (Child rule.ListType) result p.old p.new }
{
    p.start_node(SyntaxKind::LIST_TYPE)?;
    inside_list_type(p)?;
    p.finish_node();
    Ok(())
}

// What is in a list type, its brackets too.
#[cycle(ty)]
fn inside_list_type<A: Allocator + Copy>(p: &mut ParserState<'_, A>) -> Result<(), AllocError>
    requires { true ≡ holds (At token.LBracket) p.old }
    ensures { Parses (rules.inside rule.ListType) result p.old p.new }
{
    p.bump(SyntaxKind::L_BRACK)?;
    if p.is_too_deep() {
        return p.too_deep();
    }
    p.enter();
    item_type(p)?;
    p.leave();
    p.expect(
        TokenKind::RBracket,
        SyntaxKind::R_BRACK,
        Message::ExpectedRBracket,
    )
}

// The type of a list's items. A token that starts none is popped.
#[cycle(ty)]
fn item_type<A: Allocator + Copy>(p: &mut ParserState<'_, A>) -> Result<(), AllocError>
    ensures { Parses (Call rule.ItemType) result p.old p.new }
{
    if starts_type(p) {
        return ty(p);
    }
    p.err_and_pop(Message::ExpectedItemType)
}

/// A named type.
///     NamedType (2.11) : Name
pub fn named_type<A: Allocator + Copy>(p: &mut ParserState<'_, A>) -> Result<(), AllocError>
    ensures { Parses (Child rule.NamedType) result p.old p.new }
{
    p.start_node(SyntaxKind::NAMED_TYPE)?;
    name(p)?;
    p.finish_node();
    Ok(())
}

/// The root of a type that is parsed by itself, which opens around what is there. The checkpoint is the index before
/// the leading text.
pub fn type_root<A: Allocator + Copy>(
    p: &mut ParserState<'_, A>,
    first: Checkpoint,
) -> Result<(), AllocError>
    requires first { first.index ≡ 0 }
    requires not_open { p.old.tree.above ≡ [] }
    ensures runs { OnOk result (fragments.RunsTypeRoot (flush p.old) p.new) }
    ensures budget { p.new.budget ≡ p.old.budget }
{
    let checkpoint = p.checkpoint()?;
    if p.at(TokenKind::LBracket) {
        inside_list_type(p)?;
        return p.close_type(first, checkpoint, SyntaxKind::LIST_TYPE);
    }
    if p.at(TokenKind::Name) {
        name(p)?;
        return p.close_type(first, checkpoint, SyntaxKind::NAMED_TYPE);
    }
    p.err_and_pop(Message::ExpectedFieldType)?;
    p.wrap(first, SyntaxKind::ERROR)
}
