// Extensions: the word after `extend` says which.
#![tactic(auto, using(crate::proofs::Keywords::extending), unfolding(parser_rules::specs::Rules::body, parser_rules::specs::RuleLanguage::holds))]

ghost use Rattle.std.specs.Prelude.{◌≡◌};
ghost use Rattle.apollo_grammar.specs.Clauses.{Call, second, current_of, Parses};
ghost use Rattle.apollo_grammar.specs.Clauses.rule;
ghost use Rattle.apollo_document.specs.Keywords as keywords;

use super::keyword::{DefinitionKeyword, definition_keyword};
use apollo_grammar::{
    enum_type_extension, input_object_type_extension, interface_type_extension,
    object_type_extension, scalar_type_extension, schema_extension, union_type_extension,
};
use apollo_lexer::Token;
use parser_rules::Message;
use parser_state::ParserState;
use std::alloc::{AllocError, Allocator};

/// An extension of the type system (GraphQL October 2021, section 3, "Type System Extensions"), where `extend` comes
/// next.
pub fn extensions<A: Allocator + Copy>(p: &mut ParserState<'_, A>) -> Result<(), AllocError>
    ensures { Parses (Call rule.Extensions) result p.old p.new }
{
    let next = p.peek();
    extensions_before(p, next)
}

// The same, where the word after `extend` is known.
fn extensions_before<A: Allocator + Copy>(
    p: &mut ParserState<'_, A>,
    next: Option<Token<'_>>,
) -> Result<(), AllocError>
    requires { current_of next ≡ second p.old.items }
    ensures { Parses (Call rule.Extensions) result p.old p.new }
{
    extension_of(p, definition_keyword(next))
}

// The extension that has the keyword, or a token in its place that is popped.
fn extension_of<A: Allocator + Copy>(
    p: &mut ParserState<'_, A>,
    keyword: Option<DefinitionKeyword>,
) -> Result<(), AllocError>
    ensures { Parses (keywords.extension_of keyword) result p.old p.new }
{
    match keyword {
        Some(DefinitionKeyword::Schema) => schema_extension(p),
        Some(DefinitionKeyword::Scalar) => scalar_type_extension(p),
        Some(DefinitionKeyword::Object) => object_type_extension(p),
        Some(DefinitionKeyword::Interface) => interface_type_extension(p),
        Some(DefinitionKeyword::Union) => union_type_extension(p),
        Some(DefinitionKeyword::Enum) => enum_type_extension(p),
        Some(DefinitionKeyword::InputObject) => input_object_type_extension(p),
        Some(
            DefinitionKeyword::Query
            | DefinitionKeyword::Mutation
            | DefinitionKeyword::Subscription
            | DefinitionKeyword::Fragment
            | DefinitionKeyword::Directive,
        )
        | None => p.err_and_pop(Message::InvalidExtension),
    }
}
