//! Texts that are cut at separators.

use std::alloc::{AllocError, Global};

// The pieces of a text between the separators that stand outside quotes. Within quotes, a backslash and
// what follows it stand together.
pub(crate) fn split_outside_quotes<'a>(
    alloc: Global,
    text: &'a str,
    separator: char,
) -> Result<Vec<&'a str>, AllocError> {
    let mut is_quoted = false;
    let mut is_escaped = false;
    let mut pieces = Vec::new(alloc);
    for piece in text.split(|c: char| {
        let is_end = c == separator && !is_quoted;
        is_quoted ^= c == '"' && !is_escaped;
        is_escaped = is_quoted && c == '\\' && !is_escaped;
        is_end
    }) {
        pieces.push(piece)?;
    }
    Ok(pieces)
}
