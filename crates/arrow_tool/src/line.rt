//! A line's form: a command's name and arguments, parted by spaces.

use crate::answer::{Answer, Refusal};
use crate::commands::Command;
use crate::literals::{Literal, ReadError};
use crate::text::split_outside_quotes;
use std::alloc::{AllocError, Global};

// The answer to a line without its end, or none to a blank line.
pub(crate) fn answer_to(alloc: Global, line: &[u8]) -> Result<Option<Answer>, AllocError> {
    let line = match Line::read(alloc, line) {
        Ok(Some(line)) => line,
        Ok(None) => return Ok(None),
        Err(ReadError::Syntax) => return Ok(Some(Answer::Refused(Refusal::Syntax))),
        Err(ReadError::Refused(error)) => return Ok(Some(Answer::Refused(Refusal::Kernel(error)))),
        Err(ReadError::OutOfMemory(error)) => return Err(error),
    };
    match Command::from_name(line.name) {
        Some(command) => Ok(Some(command.call(alloc, &line.arguments)?)),
        None => Ok(Some(Answer::Refused(Refusal::Command))),
    }
}

/// A command's name, and its arguments.
#[derive(Drop)]
struct Line<'a> {
    name: &'a str,
    arguments: Vec<Literal<'a>>,
}

impl Line<'_> {
    /// Reads a line without its end. A line of spaces alone, or none, has no command.
    fn read<'a>(alloc: Global, bytes: &'a [u8]) -> Result<Option<Line<'a>>, ReadError> {
        let bytes = bytes.strip_suffix(b"\r").unwrap_or(bytes);
        let Ok(text) = str::from_utf8(bytes) else {
            return Err(ReadError::Syntax);
        };
        let words = split_outside_quotes(alloc, text, ' ')?;
        let Some(first) = words.iter().position(|word| !word.is_empty()) else {
            return Ok(None);
        };
        let name = words[first];
        if !is_name(name) {
            return Err(ReadError::Syntax);
        }
        let arguments = read_arguments(alloc, &words[first + 1..])?;
        Ok(Some(Line { name, arguments }))
    }
}

// Whether a word can be a command's name.
fn is_name(word: &str) -> bool {
    word.bytes()
        .all(|byte| byte == b'_' || byte.is_ascii_lowercase())
}

// The arguments that these words are. No word stands between two spaces.
fn read_arguments<'a>(alloc: Global, words: &[&'a str]) -> Result<Vec<Literal<'a>>, ReadError> {
    let mut arguments = Vec::new(alloc);
    for word in words {
        if !word.is_empty() {
            arguments.push(Literal::read(alloc, word)?)?;
        }
    }
    Ok(arguments)
}
