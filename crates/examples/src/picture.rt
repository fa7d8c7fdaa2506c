//! Prints the NFA of patterns as a graph, in the language of Graphviz:
//!
//!     picture PATTERN.. | dot -Tsvg > nfa.svg
//!
//! A state is labelled with its ID. A solid edge reads a byte, and is labelled with the bytes that it can read. The
//! other edges read no byte: a dashed one is labelled with its rank among the alternates, of which the first is
//! preferred, or with the look-around assertion that has to hold, and a dotted one begins or ends a group. Unanchored
//! searches start in a state of their own, whose loop skips bytes.
//!
//! If the first argument is `--in=TEXT`, a second graph follows: the cache of a DFA after a search of the text. A state
//! is labelled with its number, its NFA states in order of preference, and the patterns that match there, delayed by
//! one byte. An edge is labelled with the bytes on which the cached transition leads there, and with `end` for the end
//! of the haystack. What is not drawn is not cached.
#![tactic(auto)]

mod cached;
mod graph;

use self::cached::push_cached;
use self::graph::push_graph;
use anyhow::Result;
use patterns::{Options, nfa_of};
use regex_automata::hybrid::dfa::DFA;
use regex_automata::nfa::thompson::NFA;
use regex_automata::util::search::Input;
use std::alloc::Global;
use std::env::{self, Args};

/// Returns the NFA of these patterns.
fn patterns_nfa(alloc: Global, patterns: &[String]) -> Result<NFA> {
    let mut texts = Vec::new(alloc);
    for pattern in patterns {
        texts.push(pattern.as_str())?;
    }
    Ok(nfa_of(alloc, texts.as_slice(), &Options::default())?)
}

/// Appends the graph of the cache after a search of a text.
fn push_searched(nfa: NFA, text: &str, shown: &mut String) -> Result<()> {
    let dfa = DFA::builder().build_from_nfa(nfa)?;
    let mut cache = dfa.create_cache()?;
    dfa.try_search_fwd(&mut cache, &Input::new(text.as_bytes()))?;
    push_cached(&dfa, &cache, shown)
}

/// Prints the graph of the NFA of the patterns in the arguments, and, if there is a text, the graph of its search.
pub fn run(rt: &HostRuntime, args: Args) -> Result<()> {
    let mut text = None;
    let mut patterns = Vec::new(rt.alloc());
    for word in args {
        match word.strip_prefix("--in=") {
            Some(rest) if patterns.is_empty() => text = Some(String::from_str(rt.alloc(), rest)?),
            _ => patterns.push(word)?,
        }
    }
    let nfa = patterns_nfa(rt.alloc(), patterns.as_slice())?;
    let mut shown = String::new(rt.alloc());
    push_graph(&nfa, &mut shown)?;
    if let Some(text) = text {
        push_searched(nfa, text.as_str(), &mut shown)?;
    }
    print!(rt; "{shown}")?;
    Ok(())
}

/// Runs the example as a program of its own, with the arguments after the program's name.
pub fn main(rt: HostRuntime) -> Result<()> {
    let mut args = env::args(&rt)?;
    let _program = args.next();
    run(&rt, args)
}
