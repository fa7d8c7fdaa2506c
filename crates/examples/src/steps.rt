//! Prints, for each line of standard input, the least offset at which a match of `[0-9]+` ends, by a search that takes
//! its own steps.
//!
//! The loop of `first_match` requests one transition after another, and could stop at any byte, for a time limit or for
//! more input. Here it stops at a `;`, a quit byte of its DFA, and a second DFA of the same NFA then searches the line.
//! The NFA is built state by state, as the compiler of your own regex engine would build it.
//!
//! It is proved that both ways find the same match: `find` returns what `try_search_fwd` returns for an input with
//! `earliest`, and no path of the NFA ends in a match before it (`IsEarliest`).
#![tactic(auto)]

mod search;

use self::search::Finder;
use anyhow::{Result, bail};
use regex_automata::nfa::thompson::{Builder, NFA, Transition};
use regex_automata::util::primitives::StateID;
use std::alloc::Global;
use std::fmt::Write;
use std::io::Read;

/// Returns the NFA of `[0-9]+`: a digit, and then more digits or the match. The prefix skips bytes in unanchored
/// searches.
fn number(alloc: Global) -> Result<NFA> {
    let mut builder = Builder::new(alloc);
    builder.start_pattern()?;
    let (lo, hi, next) = (b'0', b'9', StateID::ZERO);
    let digit = builder.add_range(Transition { lo, hi, next })?;
    let found = builder.add_match()?;
    let more = builder.add_union(vec![in alloc; digit, found]?)?;
    builder.patch(digit, more)?;
    builder.finish_pattern(digit)?;
    let prefix = builder.add_unanchored_prefix(digit)?;
    Ok(builder.build(digit, prefix)?)
}

/// Returns a finder of numbers.
fn finder(alloc: Global) -> Result<Finder> {
    let nfa = number(alloc)?;
    if nfa.is_utf8() {
        bail!("offsets inside UTF-8 encoded characters would be skipped");
    }
    Finder::new(nfa)
}

/// Appends the output for a line: the least offset at which a number ends, and the line.
fn push_end(finder: &mut Finder, line: &str, shown: &mut String) -> Result<()> {
    match finder.find(line.as_bytes())? {
        Some(half) => writeln!(shown, "ends at {}: {line}", half.offset())?,
        None => writeln!(shown, "no number: {line}")?,
    }
    Ok(())
}

/// Appends the output for each line of a text.
fn push_ends(alloc: Global, text: &str, shown: &mut String) -> Result<()> {
    let mut finder = finder(alloc)?;
    for line in text.lines() {
        push_end(&mut finder, line, shown)?;
    }
    Ok(())
}

/// Prints the least offset at which a number ends in each line of standard input.
pub fn main(rt: HostRuntime) -> Result<()> {
    let mut text = String::new(rt.alloc());
    rt.reader().read_to_string(&mut text)?;
    let mut shown = String::new(rt.alloc());
    push_ends(rt.alloc(), text.as_str(), &mut shown)?;
    print!(rt; "{shown}")?;
    Ok(())
}
