//! Names of files as URIs (RFC 8089), as the Language Server Protocol has them, and the paths that they name.
//!
//! `path_of` gives the path of a URI, and `uri_of` the URI of a path. Clients spell URIs in different ways, so files
//! are compared by their paths, or by the one URI of a path, which `normalized` gives.
//!
//! `gqlls_server` and `gqlls_program`, the crates above, call them.
#![tactic(auto)]

ghost use Rattle.std.specs.Prelude.{◌≡◌, ◌∷◌, ℕ, IfOk, MatchOption, None, Some, List, option_map, string_bytes};
ghost use Rattle.std.specs.Str.{IsUtf8};
ghost use Rattle.file_uris.specs.Uris.{absolute, after_word, authority_path, hierarchical_path, normalized, path_of};
ghost use Rattle.file_uris.specs.Uris.{spelled_path, uri_of};

use percent_encoding::{AsciiSet, NON_ALPHANUMERIC, ascii_set, percent_decode, percent_encode};
use std::alloc::{AllocError, Global};

// The bytes of a path that are escaped: all but the unreserved ones (RFC 3986, section 2.3) and the slash.
const ESCAPED: AsciiSet = ascii_set!(
    NON_ALPHANUMERIC
        .remove(b'-')
        .remove(b'.')
        .remove(b'_')
        .remove(b'~')
        .remove(b'/')
);

// What follows a word in lower case, which the text may spell in any case.
fn after_word<'t>(text: &'t [u8], word: &[u8]) -> Option<&'t [u8]>
    ensures { MatchOption result (after_word word.now text.now ≡ None)
        (λ rest. after_word word.now text.now ≡ Some rest.now) }
{
    let mut rest = text;
    for wanted in word {
        let [byte, others @ ..] = rest else {
            return None;
        };
        if byte.to_ascii_lowercase() != *wanted {
            return None;
        }
        rest = others;
    }
    Some(rest)
}

// A path, if it begins with a slash.
fn absolute(path: &[u8]) -> Option<&[u8]>
    ensures { MatchOption result (absolute path.now ≡ None) (λ same. absolute path.now ≡ Some same.now) }
{
    match path {
        [b'/', ..] => Some(path),
        _ => None,
    }
}

// The path after `//` and the name of this machine, if that is there.
fn authority_path(text: &[u8]) -> Option<&[u8]>
    ensures { MatchOption result (authority_path text.now ≡ None) (λ path. authority_path text.now ≡ Some path.now) }
{
    match after_word(text, b"localhost") {
        Some(path) => absolute(path),
        None => absolute(text),
    }
}

// The path after the scheme.
fn hierarchical_path(text: &[u8]) -> Option<&[u8]>
    ensures { MatchOption result (hierarchical_path text.now ≡ None)
        (λ path. hierarchical_path text.now ≡ Some path.now) }
{
    match after_word(text, b"//") {
        Some(rest) => authority_path(rest),
        None => absolute(text),
    }
}

// The path in a URI, as it is spelled there.
fn spelled_path(uri: &[u8]) -> Option<&[u8]>
    ensures { MatchOption result (spelled_path uri.now ≡ None) (λ path. spelled_path uri.now ≡ Some path.now) }
{
    match after_word(uri, b"file:") {
        Some(rest) => hierarchical_path(rest),
        None => None,
    }
}

// The bytes of the path that a URI names.
fn bytes_of(alloc: Global, uri: &str) -> Result<Option<Vec<u8>>, AllocError>
    ensures { IfOk result (λ path. MatchOption path (path_of uri.now ≡ None)
        (λ path. path_of uri.now ≡ Some path.items)) }
{
    let Some(spelled) = spelled_path(uri.as_bytes()) else {
        return Ok(None);
    };
    let mut bytes = Vec::new(alloc);
    percent_decode(spelled).append_to(&mut bytes)?;
    Ok(Some(bytes))
}

/// The path that a URI names, from the root on; `None` where it names no file of this machine, or none with a name in
/// UTF-8. It fails only where memory is refused.
pub fn path_of(alloc: Global, uri: &str) -> Result<Option<String>, AllocError>
    ensures { IfOk result (λ path. MatchOption path ((named : List ℕ) → path_of uri.now ≡ Some named → IsUtf8 named → ⊥)
        (λ path. path_of uri.now ≡ Some (string_bytes path))) }
{
    match bytes_of(alloc, uri)? {
        Some(bytes) => Ok(String::from_utf8(bytes).ok()),
        None => Ok(None),
    }
}

// A URI of a path in bytes.
fn uri_of_bytes(alloc: Global, path: &[u8]) -> Result<String, AllocError>
    ensures { IfOk result (λ uri. string_bytes uri ≡ uri_of path.now) }
{
    let mut uri = String::from_str(alloc, "file://")?;
    percent_encode(path, ESCAPED).append_to(&mut uri)?;
    Ok(uri)
}

/// A URI of a path, with all but the unreserved bytes and slashes as escapes. It names the path if that begins with a
/// slash. It fails only where memory is refused.
pub fn uri_of(alloc: Global, path: &str) -> Result<String, AllocError>
    ensures spelling { IfOk result (λ uri. string_bytes uri ≡ uri_of path.now) }
    ensures names { (rest : List ℕ) → path.now ≡ 47 ∷ rest
        → IfOk result (λ uri. path_of (string_bytes uri) ≡ Some path.now) }
{
    let uri = uri_of_bytes(alloc, path.as_bytes())?;
    Ok(uri)
}

/// The URI that `uri_of` gives for the path that a URI names; `None` where it names no file of this machine. It fails
/// only where memory is refused.
pub fn normalized(alloc: Global, uri: &str) -> Result<Option<String>, AllocError>
    ensures { IfOk result (λ found. option_map string_bytes found ≡ normalized uri.now) }
{
    let Some(path) = bytes_of(alloc, uri)? else {
        return Ok(None);
    };
    let uri = uri_of_bytes(alloc, path.as_slice())?;
    Ok(Some(uri))
}
