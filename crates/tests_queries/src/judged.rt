// What breaks the rules in the documents of one record.
use apollo_parser::{DocumentRoot, Parser, SyntaxNode, SyntaxTree};
use query_validation::{QueryViolation, message, validate};
use std::alloc::{AllocError, Global};
use type_system::{STANDARD, Schema};
use validation_names::Site;

// Adds the trees of some texts, which are apart by lines `%%`.
fn add_trees(
    alloc: Global,
    trees: &mut Vec<SyntaxTree<DocumentRoot>>,
    texts: &str,
) -> Result<(), AllocError> {
    for text in texts.split("%%\n") {
        trees.push(Parser::new(text).parse(alloc)?)?;
    }
    Ok(())
}

fn roots(
    alloc: Global,
    trees: &[SyntaxTree<DocumentRoot>],
) -> Result<Vec<SyntaxNode<'_>>, AllocError> {
    let mut roots = Vec::new(alloc);
    for tree in trees {
        roots.push(tree.root())?;
    }
    Ok(roots)
}

// The number of a document, and the byte at which a node begins in it.
fn write_site(answer: &mut String, site: &Site<'_>) -> Result<(), AllocError> {
    let start = site.node.text_range().start();
    write!(answer, " {}:{start}", site.document)
}

// What a line on a violation begins with.
fn write_places(answer: &mut String, violation: &QueryViolation<'_, '_>) -> Result<(), AllocError> {
    let rule = violation.rule.name();
    write!(answer, "{rule}")?;
    write_site(answer, &violation.site)?;
    if let Some(definition) = &violation.definition {
        write_site(answer, definition)?;
    }
    Ok(())
}

// What a record wants to know.
#[derive(Clone, Copy)]
struct Wanted<'t> {
    most: usize,
    messages: bool,
    schema: &'t str,
    documents: &'t str,
}

// The lines on the documents in some texts. Their trees do not live as long as the schema.
fn write_violations(
    alloc: Global,
    answer: &mut String,
    schema: &Schema<'_>,
    wanted: &Wanted<'_>,
) -> Result<(), AllocError> {
    let mut trees = Vec::new(alloc);
    add_trees(alloc, &mut trees, wanted.documents)?;
    let documents = roots(alloc, &trees)?;
    for violation in &validate(alloc, schema, &documents, wanted.most)? {
        write_places(answer, violation)?;
        if wanted.messages {
            let message = message(alloc, schema, violation)?;
            write!(answer, ": {message}")?;
        }
        writeln!(answer)?;
    }
    Ok(())
}

// The bound in a record's first line, whether messages are wanted, the texts of its schema, and those of its
// operations.
fn read(record: &str) -> Option<Wanted<'_>> {
    let (head, texts) = record.split_once('\n')?;
    let (most, messages) = match head.strip_suffix(" messages") {
        Some(most) => (most, true),
        None => (head, false),
    };
    let most = most.parse::<usize>().ok()?;
    let (schema, documents) = texts.split_once("%%%%\n")?;
    Some(Wanted {
        most,
        messages,
        schema,
        documents,
    })
}

/// The lines on one record.
pub(crate) fn answer(alloc: Global, record: &str) -> Result<String, AllocError> {
    let mut answer = String::new(alloc);
    let Some(wanted) = read(record) else {
        writeln!(answer, "no record")?;
        return Ok(answer);
    };
    let mut types = Vec::new(alloc);
    add_trees(alloc, &mut types, wanted.schema)?;
    types.push(Parser::new(STANDARD).parse(alloc)?)?;
    let definitions = roots(alloc, &types)?;
    let schema = Schema::read(alloc, &definitions)?;
    write_violations(alloc, &mut answer, &schema, &wanted)?;
    writeln!(answer, "--")?;
    Ok(answer)
}
