// The parser's messages in words for people.
ghost use Rattle.std.specs.Prelude.{◌≡◌};
ghost use Rattle.editor_diagnostics.specs.Syntax.{begins, words_for};

fn begins(message: &str, front: &str) -> bool
    ensures { result ≡ begins message.now front.now }
{
    message.as_bytes().starts_with(front.as_bytes())
}

/// The words for a message of the parser: with a punctuator in place of its name, and without the text that was found,
/// which is marked.
pub(crate) fn words_for(message: &str) -> &str
    ensures { result.now ≡ words_for message.now }
{
    if begins(message, "expected R_CURLY") {
        "expected }"
    } else if begins(message, "expected R_PAREN") {
        "expected )"
    } else if begins(message, "expected R_BRACK") {
        "expected ]"
    } else if begins(message, "expected L_CURLY") {
        "expected {"
    } else if begins(message, "expected COLON") {
        "expected :"
    } else if begins(message, "expected a StringValue") {
        "expected a definition"
    } else if begins(message, "expected definition") {
        "expected a definition"
    } else if begins(message, "Unexpected <EOF>") {
        "expected a definition"
    } else if begins(message, "exptected an Implements") {
        "expected Implements Interfaces, Directives or a Fields Definition"
    } else {
        message
    }
}
