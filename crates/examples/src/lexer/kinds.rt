//! The kinds of tokens of a small language.
use anyhow::Result;
use patterns::{Options, nfa_of};
use regex_automata::nfa::thompson::NFA;
use std::alloc::Global;

/// The kinds, each with its pattern. If two match, the first one is preferred: a comment is not an operator.
const KINDS: [(&str, &str); 6] = [
    ("blank", r"\s+"),
    ("comment", r"//[^\n]*|/\*(?s:.)*?\*/"),
    ("name", r"[\pL_][\pL\p{Nd}_]*"),
    ("number", r"[0-9]+(?:\.[0-9]+)?"),
    ("string", r#""(?:[^"\\\n]|\\.)*""#),
    ("operator", r"[-+*/%=<>!&|]=?|[(){}\[\];,.]"),
];

/// Returns the NFA whose pattern k is the pattern of kind k.
pub fn kinds_nfa(alloc: Global) -> Result<NFA> {
    let mut patterns = Vec::new(alloc);
    for (_, pattern) in KINDS {
        patterns.push(pattern)?;
    }
    Ok(nfa_of(alloc, patterns.as_slice(), &Options::default())?)
}

/// Returns the name of the kind with this number.
pub fn kind_name(kind: usize) -> &'static str {
    match KINDS.get(kind) {
        Some((name, _)) => name,
        None => "unknown",
    }
}
