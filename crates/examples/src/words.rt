//! Prints where the words of a text begin and end.
#![tactic(auto)]

use anyhow::Result;
use patterns::{Options, nfa_of};
use regex_automata::hybrid::regex::Regex;
use regex_automata::nfa::thompson::NFA;
use regex_automata::util::search::Input;
use std::alloc::Global;

/// Returns the NFA of a word: a run of letters of any language.
fn word(alloc: Global) -> Result<NFA> {
    Ok(nfa_of(alloc, &[r"\pL+"], &Options::default())?)
}

/// Prints the span, in bytes, of each word of a text.
pub fn main(rt: HostRuntime) -> Result<()> {
    let regex = Regex::builder().build_from_nfa(word(rt.alloc())?)?;
    let mut cache = regex.create_cache()?;
    for found in regex.find_iter(&mut cache, Input::new(b"foo 12 bar")) {
        let found = found?;
        println!(rt; "{}..{}", found.start(), found.end())?;
    }
    Ok(())
}
