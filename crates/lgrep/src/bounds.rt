//! Word boundaries in the texts of patterns: those of Unicode, which the library cannot decide in each text, become
//! those of ASCII words.
use anyhow::Result;
use std::alloc::Global;

/// The escapes that are word boundaries. What begins with another one is before it.
const BOUNDARIES: [&str; 8] = [
    "\\b{start-half}",
    "\\b{end-half}",
    "\\b{start}",
    "\\b{end}",
    "\\b",
    "\\B",
    "\\<",
    "\\>",
];

/// How many brackets are open before a character of a pattern.
#[derive(Clone, Copy)]
struct Brackets {
    depth: u64,
    /// Whether one was just opened, so that `]` is a member of its class.
    is_new: bool,
}

impl Brackets {
    /// Takes a character that is not escaped.
    fn take(&mut self, character: char) {
        match character {
            '[' => {
                self.depth = self.depth.saturating_add(1);
                self.is_new = true;
            }
            '^' if self.is_new => {}
            ']' if !self.is_new => self.depth = self.depth.saturating_sub(1),
            _ => self.is_new = false,
        }
    }
}

/// Returns the word boundary with which a text begins, if it does, and the text after it.
fn boundary_of(text: &str) -> Option<(&'static str, &str)> {
    for boundary in BOUNDARIES {
        if let Some(after) = text.strip_prefix(boundary) {
            return Some((boundary, after));
        }
    }
    None
}

/// Appends the next boundary or character of a pattern, and returns the text after it. In brackets there is no
/// boundary.
fn push_next<'t>(brackets: &mut Brackets, text: &'t str, pattern: &mut String) -> Result<&'t str> {
    if brackets.depth == 0
        && let Some((boundary, after)) = boundary_of(text)
    {
        pattern.push_str("(?-u:")?;
        pattern.push_str(boundary)?;
        pattern.push(')')?;
        return Ok(after);
    }
    let mut characters = text.chars();
    match characters.next() {
        Some('\\') => {
            pattern.push('\\')?;
            if let Some(escaped) = characters.next() {
                pattern.push(escaped)?;
            }
            brackets.is_new = false;
        }
        Some(character) => {
            pattern.push(character)?;
            brackets.take(character);
        }
        None => {}
    }
    Ok(characters.as_str())
}

/// Returns a pattern with the word boundaries of ASCII words in place of those of Unicode.
pub fn with_ascii_words(alloc: Global, text: &str) -> Result<String> {
    let mut pattern = String::new(alloc);
    let mut brackets = Brackets {
        depth: 0,
        is_new: false,
    };
    let mut rest = text;
    for _ in 0..text.len() {
        rest = push_next(&mut brackets, rest, &mut pattern)?;
    }
    Ok(pattern)
}
