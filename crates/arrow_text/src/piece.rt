//! Parts of a line: texts that know where in the line they begin.

use crate::fault::Fault;
use crate::number::Integer;
use std::alloc::Global;

/// A part of a line, and the byte of the line at which it begins.
#[derive(Clone, Copy)]
pub struct Piece<'a> {
    at: usize,
    text: &'a str,
}

impl<'a> Piece<'a> {
    /// The text, which begins at this byte of a line.
    pub fn new(at: usize, text: &'a str) -> Piece<'a> {
        Piece { at, text }
    }

    /// The text.
    pub fn text(self) -> &'a str {
        self.text
    }

    /// That the text has not the form that is asked for.
    pub fn fault(self) -> Fault {
        Fault::Syntax(self.at)
    }

    /// Whether it has no character.
    pub fn is_empty(self) -> bool {
        self.text.is_empty()
    }

    /// The null row that stores nothing, where this row stands.
    pub fn nothing(self) -> Piece<'a> {
        Piece::new(self.at, "_")
    }

    /// The piece so many bytes further on in the line.
    fn behind(self, count: usize, text: &'a str) -> Piece<'a> {
        Piece::new(self.at.saturating_add(count), text)
    }

    /// What stands behind a prefix, if the text has it.
    pub fn strip_prefix(self, prefix: &str) -> Option<Piece<'a>> {
        let text = self.text.strip_prefix(prefix)?;
        Some(self.behind(prefix.len(), text))
    }

    /// What stands before a suffix, if the text has it.
    pub fn strip_suffix(self, suffix: &str) -> Option<Piece<'a>> {
        let text = self.text.strip_suffix(suffix)?;
        Some(Piece::new(self.at, text))
    }

    /// What stands between an opening and a closing bracket.
    pub fn between(self, opening: &str, closing: &str) -> Result<Piece<'a>, Fault> {
        match self.strip_prefix(opening) {
            Some(rest) => rest.strip_suffix(closing).ok_or(self.fault()),
            None => Err(self.fault()),
        }
    }

    /// What stands before the first opening bracket, and what stands between it and a closing one at the end.
    pub fn headed(self, opening: char, closing: &str) -> Option<(Piece<'a>, Piece<'a>)> {
        self.strip_suffix(closing)?.parted(opening)
    }

    /// What stands before the first separator, and what stands behind it.
    pub fn parted(self, separator: char) -> Option<(Piece<'a>, Piece<'a>)> {
        let (head, rest) = self.text.split_once(separator)?;
        let behind = head.len().saturating_add(separator.len_utf8());
        Some((Piece::new(self.at, head), self.behind(behind, rest)))
    }

    /// The pieces between the separators that stand outside quotes and brackets. Within quotes a backslash and
    /// what follows it stand together.
    pub fn split(self, alloc: Global, separator: char) -> Result<Vec<Piece<'a>>, Fault> {
        let mut is_quoted = false;
        let mut is_escaped = false;
        let mut depth = 0usize;
        let mut pieces = Vec::new(alloc);
        let mut start = 0;
        for (i, c) in self.text.char_indices() {
            if c == separator && !is_quoted && depth == 0 {
                pieces.push(self.part(start, i))?;
                start = i.saturating_add(separator.len_utf8());
            } else if !is_quoted {
                match c {
                    '[' | '(' | '{' | '<' => depth = depth.saturating_add(1),
                    ']' | ')' | '}' | '>' => depth = depth.saturating_sub(1),
                    _ => (),
                }
            }
            is_quoted ^= c == '"' && !is_escaped;
            is_escaped = is_quoted && c == '\\' && !is_escaped;
        }
        pieces.push(self.part(start, self.text.len()))?;
        Ok(pieces)
    }

    /// The part of the text from one byte on to another.
    fn part(self, start: usize, end: usize) -> Piece<'a> {
        self.behind(start, self.text.get(start..end).unwrap_or(""))
    }

    /// The same, but no piece where there is no text.
    pub fn items(self, alloc: Global, separator: char) -> Result<Vec<Piece<'a>>, Fault> {
        if self.is_empty() {
            return Ok(Vec::new(alloc));
        }
        self.split(alloc, separator)
    }

    /// The integer that the text is. One that its type does not hold is no argument.
    pub fn integer<T: Integer>(self) -> Result<T, Fault> {
        let digits = self.text.strip_prefix('-').unwrap_or(self.text);
        if digits.is_empty() || !digits.bytes().all(|byte| byte.is_ascii_digit()) {
            return Err(self.fault());
        }
        self.text.parse().ok().ok_or(Fault::Usage)
    }

    /// A truth value: `t` or `f`.
    pub fn truth(self) -> Result<bool, Fault> {
        match self.text {
            "t" => Ok(true),
            "f" => Ok(false),
            _ => Err(self.fault()),
        }
    }
}
