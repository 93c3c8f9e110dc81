// The fragments that documents define and spread.
ghost use Rattle.std.specs.Prelude.{◌≡◌, ◌++◌, IfOk, OnOk, map, string_bytes};
ghost use Rattle.apollo_tree.specs.References.{node_place};
ghost use Rattle.validation_names.specs.Definitions.{as_defined};
ghost use Rattle.validation_names.specs.Mentions.{as_named};
ghost use Rattle.editor_validation.specs.Fragments.{as_fragments, fragments_in, names_of, spread_by};

use apollo_tree::SyntaxNode;
use std::alloc::{AllocError, Global};
use validation_names::{
    DefinitionKind, ExecutableDefinition, Mention, MentionKind, definitions, mentions,
    named_definitions,
};

/// The names of the fragments that a document defines, and of those that it spreads.
#[derive(Drop)]
pub struct FragmentNames {
    pub defined: Vec<String>,
    pub spread: Vec<String>,
}

// Adds the names that are mentioned.
fn push_names(
    alloc: Global,
    names: &mut Vec<String>,
    mentions: &[Mention<'_>],
) -> Result<(), AllocError>
    ensures { OnOk result (map string_bytes names.new.items ≡ map string_bytes names.old.items
        ++ names_of (map as_named mentions.now)) }
{
    for mention in mentions {
        names.push(String::from_str(alloc, mention.name)?)?;
    }
    Ok(())
}

// The names of the fragments that definitions spread.
fn spread_names(
    alloc: Global,
    definitions: &[ExecutableDefinition<'_>],
) -> Result<Vec<String>, AllocError>
    ensures { IfOk result (λ names. map string_bytes names.items ≡ spread_by (map as_defined definitions.now)) }
{
    let mut names = Vec::new(alloc);
    for definition in definitions {
        let spread = mentions(alloc, &definition.site, MentionKind::Spread)?;
        push_names(alloc, &mut names, spread.as_slice())?;
    }
    Ok(names)
}

/// The names of the fragments that a document defines and spreads, by the root of its tree. It fails only where memory
/// is refused.
pub fn fragment_names(alloc: Global, document: &SyntaxNode<'_>) -> Result<FragmentNames, AllocError>
    ensures { IfOk result (λ names. as_fragments names ≡ fragments_in (node_place document.now)) }
{
    let definitions = definitions(alloc, &[*document])?;
    let named = named_definitions(alloc, definitions.as_slice(), DefinitionKind::Fragment)?;
    let mut defined = Vec::new(alloc);
    push_names(alloc, &mut defined, named.as_slice())?;
    let spread = spread_names(alloc, definitions.as_slice())?;
    Ok(FragmentNames { defined, spread })
}
