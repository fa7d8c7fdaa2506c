//! The rules of a file, and how often each one matched.
use super::matcher::RuleMatcher;
use anyhow::Result;
use patterns::{Options, nfa_of};
use regex_automata::util::search::PatternSet;
use std::alloc::Global;
use std::fmt::Write;

/// A rule: the number of its line, and how many records it matched.
#[derive(Clone, Copy)]
struct Rule {
    line: u64,
    count: u64,
}

/// The rules of a file, and a matcher whose pattern k is rule k.
pub struct Book {
    matcher: RuleMatcher,
    rules: Vec<Rule>,
}

// With this, dropping the value is one call in the proof of a caller, not a step for each field.
impl Drop for Book {
    fn drop(self) {
        let Self {
            matcher: _matcher,
            rules: _rules,
        } = self;
    }
}

/// Whether a line of the file is a rule, which is neither empty nor a comment.
fn is_rule(line: &str) -> bool {
    !line.is_empty() && !line.starts_with('#')
}

/// Whether a line is a valid pattern. If it is not, its error is appended.
fn is_pattern(alloc: Global, line: u64, text: &str, shown: &mut String) -> Result<bool> {
    let options = Options::default();
    match nfa_of(alloc, &[text], &options) {
        Ok(_) => Ok(true),
        Err(error) => {
            writeln!(
                shown,
                "line {line} is left out: {}",
                error.show(alloc, text, &options)?
            )?;
            Ok(false)
        }
    }
}

/// Reads the rules of a file. A rule that is not a valid pattern is shown with its error, and left out.
pub fn read_rules(alloc: Global, text: &str, shown: &mut String) -> Result<Book> {
    let mut patterns = Vec::new(alloc);
    let mut rules = Vec::new(alloc);
    let mut line: u64 = 0;
    for pattern in text.lines() {
        line = line.saturating_add(1);
        if is_rule(pattern) && is_pattern(alloc, line, pattern, shown)? {
            patterns.push(pattern)?;
            rules.push(Rule { line, count: 0 })?;
        }
    }
    let nfa = nfa_of(alloc, patterns.as_slice(), &Options::default())?;
    let matcher = RuleMatcher::new(nfa)?;
    Ok(Book { matcher, rules })
}

impl Book {
    /// Returns the line number of a rule in the file, counted from 1.
    pub fn line(&self, rule: usize) -> u64 {
        match self.rules.get(rule) {
            Some(rule) => rule.line,
            None => 0,
        }
    }

    /// Returns the rules that match a record, and counts them.
    pub fn rules_of(&mut self, alloc: Global, record: &[u8]) -> Result<PatternSet> {
        let found = self.matcher.rules_of(alloc, record)?;
        for rule in found.iter() {
            if let Some(rule) = self.rules.get_mut(rule.as_usize()) {
                rule.count = rule.count.saturating_add(1);
            }
        }
        Ok(found)
    }

    /// Appends how many records each rule matched, and how much memory the cache takes.
    pub fn push_counts(&self, shown: &mut String) -> Result<()> {
        for rule in &self.rules {
            writeln!(shown, "line {} matches {}", rule.line, rule.count)?;
        }
        let kib = self.matcher.memory_usage() / 1024;
        Ok(writeln!(shown, "the cache takes {kib} KiB")?)
    }
}
