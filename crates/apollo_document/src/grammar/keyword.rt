// The keyword that says which definition or extension it is.

ghost use Rattle.parser_state.specs.View.{current_of};
ghost use Rattle.apollo_document.specs.Keywords.{IsKeyword};

use apollo_lexer::Token;
use lexical_grammar::TokenKind;
use parser_state::is_kind;

/// The keyword with which a definition begins, after its description, or that an extension has after `extend`.
#[derive(Clone, Copy)]
pub enum DefinitionKeyword {
    Query,
    Mutation,
    Subscription,
    Fragment,
    Schema,
    Directive,
    Scalar,
    Object,
    Interface,
    Union,
    Enum,
    InputObject,
}

/// The keyword that the token is, or None where it is no such keyword.
pub fn definition_keyword(token: Option<Token<'_>>) -> Option<DefinitionKeyword>
    ensures { IsKeyword (current_of token.entry) result }
{
    let Some(name) = token else {
        return None;
    };
    if !is_kind(token, TokenKind::Name) {
        return None;
    }
    match name.data() {
        "query" => Some(DefinitionKeyword::Query),
        "mutation" => Some(DefinitionKeyword::Mutation),
        "subscription" => Some(DefinitionKeyword::Subscription),
        "fragment" => Some(DefinitionKeyword::Fragment),
        "schema" => Some(DefinitionKeyword::Schema),
        "directive" => Some(DefinitionKeyword::Directive),
        "scalar" => Some(DefinitionKeyword::Scalar),
        "type" => Some(DefinitionKeyword::Object),
        "interface" => Some(DefinitionKeyword::Interface),
        "union" => Some(DefinitionKeyword::Union),
        "enum" => Some(DefinitionKeyword::Enum),
        "input" => Some(DefinitionKeyword::InputObject),
        _ => None,
    }
}
