//! Prints which patterns match each line of standard input, and where their matches end:
//!
//!     sets PATTERN.. < LINES
//!
//! A pattern is identified by its position among the arguments, counted from 0. With the patterns `[0-9]+` and
//! `[a-z]+[0-9]` it prints `0 1 | 1@2 0@2 | a1 b`: both match the line `a1 b`, and a match of each ends after its
//! second byte. Matches may overlap; only their first ten ends are printed.
//!
//! `RegexSet::which` promises which patterns match. Of the printing only safety is proved.
#![tactic(auto)]

ghost use Rattle.regex_automata.specs.Promises.{IsCacheOf};

use anyhow::Result;
use patterns::{Options, RegexSet};
use regex_automata::hybrid::dfa::{Cache, OverlappingState};
use regex_automata::util::search::Input;
use std::alloc::Global;
use std::env::{self, Args};
use std::fmt::Write;
use std::io::Read;

/// Appends the numbers of the patterns that match a line.
fn push_numbers(
    alloc: Global,
    set: &RegexSet,
    cache: &mut Cache,
    line: &str,
    shown: &mut String,
) -> Result<()>
    requires { IsCacheOf cache.old set.now.dfa }
    ensures { IsCacheOf cache.new set.now.dfa }
{
    let found = set.which(alloc, cache, line.as_bytes())?;
    for pattern in found.iter() {
        write!(shown, "{} ", pattern.as_usize())?;
    }
    Ok(())
}

/// Appends the ends of the first ten matches in a line, with their patterns.
fn push_ends(set: &RegexSet, cache: &mut Cache, line: &str, shown: &mut String) -> Result<()>
    requires { IsCacheOf cache.old set.now.dfa }
    ensures { IsCacheOf cache.new set.now.dfa }
{
    let input = Input::new(line.as_bytes());
    let mut state = OverlappingState::start();
    for _ in 0..10 {
        set.dfa
            .try_search_overlapping_fwd(cache, &input, &mut state)?;
        let Some(half) = state.get_match() else {
            return Ok(());
        };
        write!(shown, " {}@{}", half.pattern().as_usize(), half.offset())?;
    }
    Ok(())
}

/// Appends the output for each line of a text.
fn push_lines(alloc: Global, set: &RegexSet, text: &str, shown: &mut String) -> Result<()> {
    let mut cache = set.create_cache()?;
    for line in text.lines() {
        push_numbers(alloc, set, &mut cache, line, shown)?;
        shown.push('|')?;
        push_ends(set, &mut cache, line, shown)?;
        writeln!(shown, " | {line}")?;
    }
    Ok(())
}

/// Returns the set of these patterns.
fn set_of(alloc: Global, patterns: &[String]) -> Result<RegexSet> {
    let mut texts = Vec::new(alloc);
    for pattern in patterns {
        texts.push(pattern.as_str())?;
    }
    Ok(RegexSet::new(alloc, texts.as_slice(), &Options::default())?)
}

/// Prints which of the patterns that the arguments name match each line of standard input, and where.
pub fn run(rt: &HostRuntime, args: Args) -> Result<()> {
    let mut patterns = Vec::new(rt.alloc());
    for pattern in args {
        patterns.push(pattern)?;
    }
    let mut text = String::new(rt.alloc());
    rt.reader().read_to_string(&mut text)?;
    let set = set_of(rt.alloc(), patterns.as_slice())?;
    let mut shown = String::new(rt.alloc());
    push_lines(rt.alloc(), &set, text.as_str(), &mut shown)?;
    print!(rt; "{shown}")?;
    Ok(())
}

/// Runs the example as a program of its own, with the arguments after the program's name.
pub fn main(rt: HostRuntime) -> Result<()> {
    let mut args = env::args(&rt)?;
    let _program = args.next();
    run(&rt, args)
}
