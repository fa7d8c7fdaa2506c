//! The texts of the patterns, as the flags change them.
use crate::bounds::with_ascii_words;
use anyhow::Result;
use regex_syntax::escape;
use std::alloc::Global;

/// How the text of a pattern is read.
#[derive(Clone, Copy)]
pub struct Wording {
    /// Whether it is literal.
    pub fixed: bool,
    /// Whether a match has to be a whole line.
    pub lines: bool,
    /// Whether a match has to begin and end at the bounds of words.
    pub words: bool,
    /// Whether `.` matches a line feed.
    pub dots: bool,
    pub case_insensitive: bool,
}

impl Wording {
    /// Whether a pattern without word boundaries has its own text.
    pub fn is_plain(&self) -> bool {
        !self.lines && !self.words && !self.dots
    }

    /// Returns the text of a pattern by itself.
    fn inner(&self, alloc: Global, text: &str) -> Result<String> {
        if self.fixed {
            Ok(escape(alloc, text)?)
        } else {
            Ok(String::from_str(alloc, text)?)
        }
    }

    /// Returns a text around which lines or words have to end. An ASCII letter, a digit and `_` are the characters of
    /// words.
    fn bounded(&self, alloc: Global, text: &str) -> Result<String> {
        let flags = if self.dots { "(?s)" } else { "" };
        if self.lines {
            Ok(format!(in alloc; "{flags}^(?:{text})$")?)
        } else if self.words {
            Ok(format!(in alloc; "{flags}(?-u:\\b{{start-half}})(?:{text})(?-u:\\b{{end-half}})")?)
        } else {
            Ok(format!(in alloc; "{flags}{text}")?)
        }
    }

    /// Returns the texts of patterns by themselves: as they are given, or as literals.
    pub fn inner_texts(&self, alloc: Global, patterns: &[String]) -> Result<Vec<String>> {
        let mut texts = Vec::new(alloc);
        for pattern in patterns {
            texts.push(self.inner(alloc, pattern.as_str())?)?;
        }
        Ok(texts)
    }

    /// Returns the texts to search for, whose word boundaries are those of ASCII words. A match has to be a whole line,
    /// or to begin and end at the bounds of words, if that is asked for.
    pub fn bounded_texts(&self, alloc: Global, inner: &[String]) -> Result<Vec<String>> {
        let mut texts = Vec::new(alloc);
        for text in inner {
            let text = with_ascii_words(alloc, text.as_str())?;
            texts.push(self.bounded(alloc, text.as_str())?)?;
        }
        Ok(texts)
    }
}
