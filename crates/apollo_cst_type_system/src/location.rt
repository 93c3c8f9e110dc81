// The text of a directive location.
ghost use Rattle.std.specs.Prelude.{◌≡◌, option_map};
ghost use Rattle.document_grammar.specs.Choices.{DirectiveLocations};
ghost use Rattle.apollo_tree.specs.Order.{text_at};
ghost use Rattle.apollo_tree.specs.References.{node_place, token_text};
ghost use Rattle.apollo_cst_core.specs.Cast.{first_of, one_of};
ghost use Rattle.apollo_cst_type_system.specs.Locations.{location_leaves};

use crate::directives::DirectiveLocation;
use apollo_cst_core::CstNode;
use apollo_tree::{SyntaxKind, TokenText};

// Whether the kind is one of the keywords of directive locations, which have consecutive numbers.
fn is_location(kind: SyntaxKind) -> bool
    ensures { result ≡ one_of DirectiveLocations kind }
{
    let number = kind.to_u16();
    SyntaxKind::QUERY_KW.to_u16() <= number
        && number <= SyntaxKind::INPUT_FIELD_DEFINITION_KW.to_u16()
}

impl<'t> DirectiveLocation<'t> {
    /// The location, such as `FIELD_DEFINITION`, or `None` when a syntax error left it out.
    pub fn text(&self) -> Option<TokenText<'t>>
        ensures { option_map token_text result
            ≡ option_map text_at (first_of (location_leaves (node_place self.now.syntax))) }
    {
        let mut elements = self.syntax().children_with_tokens();
        while let Some(element) = elements.next() {
            if let Some(token) = element.into_token() {
                if is_location(token.kind()) {
                    return Some(TokenText::new(token.text()));
                }
            }
        }
        None
    }
}
