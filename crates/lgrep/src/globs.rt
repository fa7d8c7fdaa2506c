//! Which files and directories are searched, by their names.
use crate::build::{patterns_nfa, set_searcher};
use crate::sets::SetSearcher;
use anyhow::{Result, bail};
use regex_syntax::escape;
use std::alloc::Global;

/// The capacity of the cache of a set of globs, in bytes.
const CAPACITY: usize = 1 << 20;

/// A glob, and whether the files that it matches are searched.
pub struct Glob {
    pub text: String,
    pub is_included: bool,
}

// An owner drops this with one call, so that its proof has no step for each field.
impl Drop for Glob {
    fn drop(self) {
        let Self {
            text: _text,
            is_included: _is_included,
        } = self;
    }
}

/// Globs in the order in which they are given. The last one that matches a name decides.
pub struct Globs {
    /// The searcher for the globs, unless there are none.
    searcher: Option<SetSearcher>,
    /// For each glob, whether the files that it matches are searched.
    included: Vec<bool>,
}

// An owner drops this with one call, so that its proof has no step for each field.
impl Drop for Globs {
    fn drop(self) {
        let Self {
            searcher: _searcher,
            included: _included,
        } = self;
    }
}

/// Where in a glob a character stands.
#[derive(Clone, Copy)]
enum Place {
    Outside,
    /// After a backslash.
    Escaped,
    /// At the start of a bracket, where `!` and `^` negate it.
    Opened,
    /// At the start of a negated bracket.
    Negated,
    /// After a character of a bracket, where `]` closes it.
    Inside,
}

/// Appends the pattern of a character that is itself.
fn push_literal(alloc: Global, character: char, pattern: &mut String) -> Result<()> {
    let text = character.to_string(alloc)?;
    let literal = escape(alloc, text.as_str())?;
    Ok(pattern.push_str(literal.as_str())?)
}

/// Appends the pattern of a character outside brackets: `*` is any text, and `?` any character.
fn push_outside(alloc: Global, character: char, pattern: &mut String) -> Result<Place> {
    match character {
        '*' => pattern.push_str(".*")?,
        '?' => pattern.push('.')?,
        '[' => {
            pattern.push('[')?;
            return Ok(Place::Opened);
        }
        '\\' => return Ok(Place::Escaped),
        _ => push_literal(alloc, character, pattern)?,
    }
    Ok(Place::Outside)
}

/// Appends the pattern of a character in brackets.
fn push_inside(
    alloc: Global,
    place: Place,
    character: char,
    pattern: &mut String,
) -> Result<Place> {
    match (place, character) {
        (Place::Opened, '!' | '^') => {
            pattern.push('^')?;
            return Ok(Place::Negated);
        }
        (Place::Inside, ']') => {
            pattern.push(']')?;
            return Ok(Place::Outside);
        }
        (Place::Inside, '-') => pattern.push('-')?,
        _ => push_literal(alloc, character, pattern)?,
    }
    Ok(Place::Inside)
}

/// Appends the pattern of a character, and returns where the next one stands.
fn push_character(
    alloc: Global,
    place: Place,
    character: char,
    pattern: &mut String,
) -> Result<Place> {
    match place {
        Place::Outside => push_outside(alloc, character, pattern),
        Place::Escaped => {
            push_literal(alloc, character, pattern)?;
            Ok(Place::Outside)
        }
        _ => push_inside(alloc, place, character, pattern),
    }
}

/// Returns the pattern of a glob: it matches a path that ends in a name that the glob matches.
fn pattern_of(alloc: Global, glob: &str) -> Result<String> {
    let mut pattern = String::from_str(alloc, "(?s:(?:^|/)")?;
    let mut place = Place::Outside;
    for character in glob.chars() {
        place = push_character(alloc, place, character, &mut pattern)?;
    }
    pattern.push_str("$)")?;
    Ok(pattern)
}

/// Builds the searcher for patterns.
fn searcher_of(alloc: Global, patterns: &[String]) -> Result<SetSearcher> {
    let mut texts = Vec::new(alloc);
    for pattern in patterns {
        texts.push(pattern.as_str())?;
    }
    match patterns_nfa(alloc, texts.as_slice(), false) {
        Ok(nfa) => set_searcher(nfa, CAPACITY),
        Err(_) => bail!("a glob is invalid or too large"),
    }
}

impl Globs {
    /// Builds the searcher for globs.
    pub fn new(alloc: Global, globs: &[Glob]) -> Result<Globs> {
        let mut patterns = Vec::new(alloc);
        let mut included = Vec::new(alloc);
        for glob in globs {
            patterns.push(pattern_of(alloc, glob.text.as_str())?)?;
            included.push(glob.is_included)?;
        }
        let searcher = if globs.is_empty() {
            None
        } else {
            Some(searcher_of(alloc, patterns.as_slice())?)
        };
        Ok(Globs { searcher, included })
    }

    /// Whether a file or directory is searched, by its path. If no glob matches it, it is searched unless the first
    /// glob is one of files that are searched.
    pub fn takes(&mut self, alloc: Global, path: &str) -> Result<bool> {
        let last = match &mut self.searcher {
            Some(searcher) => searcher.last(alloc, path.as_bytes())?,
            None => return Ok(true),
        };
        let is_first_included = self.included.first().copied().unwrap_or(false);
        let decided = last.and_then(|number| self.included.get(number).copied());
        Ok(decided.unwrap_or(!is_first_included))
    }
}
