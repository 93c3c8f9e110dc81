// An error as people see it: its words, and where it is.
ghost use Rattle.std.specs.Prelude.{◌≡◌, ◌++◌, ◌≤◌, length};
ghost use Rattle.apollo_parser.specs.Errors.{error_of};
ghost use Rattle.first_errors.specs.Places.{shown_at};
ghost use Rattle.first_errors.specs.Words.{IsForPeople, IsReplaced};

use apollo_parser::BorrowedError;

// How messages of the parser begin, and the words for people in their place.
const WORDS: [(&str, &str); 9] = [
    ("expected L_CURLY", "expected {"),
    ("expected R_CURLY", "expected }"),
    ("expected R_PAREN", "expected )"),
    ("expected R_BRACK", "expected ]"),
    ("expected COLON", "expected :"),
    (
        "expected a StringValue, Name or OperationDefinition",
        "expected a definition",
    ),
    ("expected definition", "expected a definition"),
    ("exptected ", "expected "),
    ("Unexpected <EOF>.", "The text has no definition."),
];

// A message in two parts, where the earliest row whose first text begins it has the words in place of that.
fn replaced<'m>(message: &'m str, rows: &[(&'static str, &'static str)]) -> (&'static str, &'m str)
    ensures { IsReplaced (λ row. row.0.now) (λ row. row.1.now) rows.now message.now (result.0.now ++ result.1.now) }
{
    for row in rows {
        if let Some(rest) = message.strip_prefix(row.0) {
            return (row.1, rest);
        }
    }
    ("", message)
}

/// An error's message for people, or its first part, in two parts. Punctuators are called by their signs.
pub fn for_people(message: &str) -> (&'static str, &str)
    ensures { IsForPeople message.now (result.0.now ++ result.1.now) }
{
    replaced(message, &WORDS)
}

/// The byte offset at which an error is shown. One at the end of the text is shown after its last character that is no
/// white space.
pub fn shown_at(source: &str, error: &BorrowedError<'_>) -> usize
    ensures value { result ≡ shown_at source.now (error_of error.now) }
    ensures within { result ≤ length source.now }
{
    let offset = if error.is_eof() {
        source.trim_end().len()
    } else {
        error.index()
    };
    offset.min(source.len())
}
