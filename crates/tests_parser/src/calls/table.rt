// Tables of records, and the texts of tokens.
ghost use Rattle.std.specs.Prelude.{◌≡◌, ◌↔◌, IsTrue};
ghost use Rattle.std.specs.Ordering.{nat_cmp};
ghost use Rattle.std.specs.Cmp.Lexicographic.{slice_cmp};
ghost use Rattle.apollo_tree.specs.References.{token_text};

use crate::answers::Answers;
use apollo_tree::{Record, RecordTable, SyntaxKind, TokenText};
use std::alloc::{AllocError, Global};
use std::cmp::Ordering;

fn leaf_at(start: usize) -> Record {
    Record {
        kind: SyntaxKind::IDENT,
        is_node: false,
        start,
        size: 1,
        to_parent: 0,
    }
}

// Three records: a size is written into the first, and the last starts past 2 ^ 32.
fn wide_table(alloc: Global) -> Result<RecordTable<Global>, AllocError> {
    let mut table = RecordTable::new(alloc);
    table.push(leaf_at(7))?;
    table.push(leaf_at(1_099_511_627_776))?;
    table.insert(0, leaf_at(7))?;
    if table.len() == 3 {
        table.set_size(0, 3);
    }
    Ok(table)
}

// Two records: the second one has a size that takes more than 24 bits.
fn narrow_table(alloc: Global) -> Result<RecordTable<Global>, AllocError> {
    let mut table = RecordTable::new(alloc);
    table.push(leaf_at(7))?;
    table.push(Record {
        size: 16_777_217,
        ..leaf_at(8)
    })?;
    Ok(table)
}

// The numbers of records, and the start and the size of each.
fn put_table(found: &mut Answers, table: &RecordTable<Global>) {
    let records = table.as_records();
    found.push_text("table:");
    found.put(&table.len());
    found.put(&records.len());
    for index in 0..records.len() {
        let record = records.get(index);
        found.put(&(record.start, record.size));
    }
    found.end_line();
}

// A record that starts past 2 ^ 32 makes a table wide, and one whose size takes more than 24 bits narrow, each with the
// records that it held.
fn put_tables(alloc: Global, found: &mut Answers) -> Result<(), AllocError> {
    put_table(found, &wide_table(alloc)?.try_clone(alloc)?);
    put_table(found, &narrow_table(alloc)?);
    Ok(())
}

// What a caller knows of `==` and of the order.
fn are_equal(left: TokenText<'_>, right: TokenText<'_>) -> bool
    ensures { IsTrue result ↔ (token_text left.entry ≡ token_text right.entry) }
{
    left == right
}

fn order_of(left: TokenText<'_>, right: TokenText<'_>) -> Ordering
    ensures { result ≡ slice_cmp nat_cmp (token_text left.entry) (token_text right.entry) }
{
    left.cmp(&right)
}

// A text is like its `str`.
fn put_text(alloc: Global, found: &mut Answers) -> Result<(), AllocError> {
    let text = TokenText::new(r#"a"b"#);
    found.show(&text);
    found.put(&text);
    found.put(&text.as_str());
    found.put(&text.to_string_in(alloc)?.as_str());
    found.put(&are_equal(text, TokenText::new(r#"a"b"#)));
    found.put(&order_of(TokenText::new("a"), text));
    found.end_line();
    Ok(())
}

pub fn put_answers(alloc: Global, found: &mut Answers) -> Result<(), AllocError> {
    put_tables(alloc, found)?;
    put_text(alloc, found)
}
