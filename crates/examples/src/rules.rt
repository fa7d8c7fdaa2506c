//! Prints which rules match each line of standard input, and how many lines each rule matches:
//!
//!     rules RULES < RECORDS
//!
//! RULES is a file with a pattern on each line; lines that begin with `#` are comments. A rule is identified by its
//! line number. A rule that is not a valid pattern is shown, with a caret below each character that the error is about,
//! and left out. All rules are searched at once: a record takes one pass, however many rules there are, in memory whose
//! bound is known beforehand.
//!
//! It is proved that the rules named for a record are exactly those that match it: a rule matches if some path of its
//! pattern through the record ends in a match (`RuleMatcher::rules_of`).
#![tactic(auto)]

mod book;
mod matcher;

use self::book::{Book, read_rules};
use anyhow::{Result, bail};
use regex_automata::util::search::PatternSet;
use std::alloc::Global;
use std::env::{self, Args};
use std::fmt::Write;
use std::fs;
use std::io::Read;

/// Appends the output for a record: the line numbers of the rules that match it, and the record.
fn push_record(book: &Book, found: &PatternSet, record: &str, shown: &mut String) -> Result<()> {
    for rule in found.iter() {
        write!(shown, "{} ", book.line(rule.as_usize()))?;
    }
    writeln!(shown, "| {record}")?;
    Ok(())
}

/// Appends the output for each record of a text, one on each line.
fn push_records(alloc: Global, book: &mut Book, records: &str, shown: &mut String) -> Result<()> {
    for record in records.lines() {
        let found = book.rules_of(alloc, record.as_bytes())?;
        push_record(book, &found, record, shown)?;
    }
    Ok(())
}

/// Returns what the program prints for the text of a file of rules and the text of the records.
fn report(alloc: Global, rules: &str, records: &str) -> Result<String> {
    let mut shown = String::new(alloc);
    let mut book = read_rules(alloc, rules, &mut shown)?;
    push_records(alloc, &mut book, records, &mut shown)?;
    book.push_counts(&mut shown)?;
    Ok(shown)
}

/// Prints which rules of the file that the argument names match each line of standard input.
pub fn run(rt: &HostRuntime, mut args: Args) -> Result<()> {
    let Some(path) = args.next() else {
        bail!("usage: rules RULES < RECORDS");
    };
    let rules = fs::read_to_string(rt, path)?;
    let mut records = String::new(rt.alloc());
    rt.reader().read_to_string(&mut records)?;
    let shown = report(rt.alloc(), rules.as_str(), records.as_str())?;
    print!(rt; "{shown}")?;
    Ok(())
}

/// Runs the example as a program of its own, with the arguments after the program's name.
pub fn main(rt: HostRuntime) -> Result<()> {
    let mut args = env::args(&rt)?;
    let _program = args.next();
    run(&rt, args)
}
