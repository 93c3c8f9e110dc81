// What breaks the rules in the documents of one record.
use apollo_parser::{DocumentRoot, Parser, SyntaxNode, SyntaxTree};
use std::alloc::{AllocError, Global};
use validation_names::{Site, definitions, fragments};
use validation_rules::{Selection, Violation, Violations, operations, parts, spread_graph};
use variable_rules::{add_variables, default_steps};

// The trees of some documents, which are apart by lines `%%`.
fn trees(alloc: Global, texts: &str) -> Result<Vec<SyntaxTree<DocumentRoot>>, AllocError> {
    let mut trees = Vec::new(alloc);
    for text in texts.split("%%\n") {
        trees.push(Parser::new(text).parse(alloc)?)?;
    }
    Ok(trees)
}

fn roots(
    alloc: Global,
    trees: &[SyntaxTree<DocumentRoot>],
) -> Result<Vec<SyntaxNode<'_>>, AllocError> {
    let mut roots = Vec::new(alloc);
    for tree in trees {
        roots.push(tree.root())?;
    }
    Ok(roots)
}

// Adds what breaks the rules in some documents, and answers at which operation the steps were used up.
fn judge<'t>(
    alloc: Global,
    violations: &mut Violations<'t>,
    documents: &[SyntaxNode<'t>],
    steps: Option<usize>,
) -> Result<Option<usize>, AllocError> {
    let definitions = definitions(alloc, documents)?;
    let fragments = fragments(alloc, &definitions)?;
    let parts = parts(alloc, &definitions)?;
    let graph = spread_graph(alloc, &parts, &fragments)?;
    let numbers = operations(alloc, &parts)?;
    add_variables(alloc, violations, &parts, &graph, &numbers, steps)
}

// The number of a document, and the byte at which a node begins in it.
fn write_site(answer: &mut String, site: &Site<'_>) -> Result<(), AllocError> {
    let start = site.node.text_range().start();
    write!(answer, " {}:{start}", site.document)
}

// A line on a violation.
fn write_line(answer: &mut String, violation: &Violation<'_>) -> Result<(), AllocError> {
    let rule = violation.rule.name();
    write!(answer, "{rule}")?;
    write_site(answer, &violation.site)?;
    if let Some(other) = &violation.other {
        write_site(answer, other)?;
    }
    writeln!(answer)
}

// The limit of steps that a word says, for texts of some length: `default`, a number, or none.
fn limit(word: &str, bytes: usize) -> Option<usize> {
    if word == "default" {
        return Some(default_steps(bytes));
    }
    word.parse::<usize>().ok()
}

// The bound and the limit of steps in a record's first line, and its texts.
fn read(record: &str) -> Option<(usize, Option<usize>, &str)> {
    let (head, texts) = record.split_once('\n')?;
    let (most, steps) = head.split_once(' ')?;
    let most = most.parse::<usize>().ok()?;
    Some((most, limit(steps, texts.len()), texts))
}

/// The lines on one record.
pub(crate) fn answer(alloc: Global, record: &str) -> Result<String, AllocError> {
    let mut answer = String::new(alloc);
    let Some((most, steps, texts)) = read(record) else {
        writeln!(answer, "no record")?;
        return Ok(answer);
    };
    let trees = trees(alloc, texts)?;
    let roots = roots(alloc, &trees)?;
    let mut violations = Violations::new(alloc, most, Selection::everything());
    let ended_at = judge(alloc, &mut violations, &roots, steps)?;
    for violation in &violations.list {
        write_line(&mut answer, violation)?;
    }
    match ended_at {
        Some(number) => writeln!(answer, "ended at {number}")?,
        None => writeln!(answer, "all")?,
    }
    Ok(answer)
}
