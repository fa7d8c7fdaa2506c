//! The states of a cache, as a graph.
use super::graph::push_byte;
use anyhow::Result;
use regex_automata::hybrid::LazyStateID;
use regex_automata::hybrid::dfa::{Cache, CachedState, DFA};
use regex_automata::util::alphabet::ByteClasses;
use regex_automata::util::determinize::State;
use regex_automata::util::look::{Look, LookSet};
use std::fmt::Write;

/// How many look-around assertions there are.
const LOOKS: u32 = 18;

/// How many start states a group has.
const GROUP: usize = 6;

/// Returns what comes before a start state, by its index in its group.
fn before(kind: usize) -> &'static str {
    match kind {
        0 => "another byte",
        1 => "a word byte",
        2 => "no byte",
        3 => "a line feed",
        4 => "a carriage return",
        _ => "another line terminator",
    }
}

/// Returns which searches use the start states of a group.
fn group(number: usize) -> &'static str {
    match number {
        0 => "unanchored",
        1 => "anchored",
        _ => "one pattern",
    }
}

/// Appends the name of the state with this ID: `dead`, `quit`, or its number in the cache.
fn push_name(cache: &Cache, id: LazyStateID, shown: &mut String) -> Result<()> {
    if id.is_dead() {
        return Ok(shown.push_str("dead")?);
    }
    if id.is_quit() {
        return Ok(shown.push_str("quit")?);
    }
    for (at, state) in (0..usize::MAX).zip(cache.states()) {
        if state.id() == id {
            return Ok(write!(shown, "{at}")?);
        }
    }
    Ok(())
}

/// Returns the ID to which a state's transition on a byte leads.
fn target(state: &CachedState<'_>, classes: &ByteClasses, byte: u8) -> Option<LazyStateID> {
    let class = usize::from(classes.get(byte));
    state.transitions().get(class).copied()
}

/// Appends a part of a label, after a comma if it is not the first.
fn push_part(part: &str, label: &mut String) -> Result<()> {
    if !label.is_empty() {
        label.push_str(", ")?;
    }
    Ok(label.push_str(part)?)
}

/// Appends a range of bytes to a label, after a comma if it is not the first part.
fn push_bytes(lo: u8, hi: u8, label: &mut String) -> Result<()> {
    push_part("", label)?;
    push_byte(lo, label)?;
    if lo != hi {
        label.push('-')?;
        push_byte(hi, label)?;
    }
    Ok(())
}

/// Appends the bytes on which a state leads to another one, as ranges.
fn push_on(
    state: &CachedState<'_>,
    classes: &ByteClasses,
    to: LazyStateID,
    label: &mut String,
) -> Result<()> {
    let mut first = None;
    for byte in 0..=u8::MAX {
        if target(state, classes, byte) != Some(to) {
            first = None;
            continue;
        }
        let lo = first.unwrap_or(byte);
        first = Some(lo);
        let goes_on = byte < u8::MAX && target(state, classes, byte + 1) == Some(to);
        if !goes_on {
            push_bytes(lo, byte, label)?;
        }
    }
    Ok(())
}

/// Whether an ID is among the first `place` of these.
fn stands_before(ids: &[LazyStateID], place: usize, id: LazyStateID) -> bool {
    ids.iter().take(place).any(|other| *other == id)
}

/// Appends the edge from a state to another one, labelled with the bytes on which it leads there, and with `end` if the
/// end of the haystack does.
fn push_edge(
    dfa: &DFA,
    cache: &Cache,
    from: usize,
    state: &CachedState<'_>,
    to: LazyStateID,
    shown: &mut String,
) -> Result<()> {
    let classes = dfa.byte_classes();
    let mut label = String::new(dfa.get_nfa().alloc());
    push_on(state, classes, to, &mut label)?;
    if state.transitions().get(classes.eoi()).copied() == Some(to) {
        push_part("end", &mut label)?;
    }
    write!(shown, "    {from} -> ")?;
    push_name(cache, to, shown)?;
    Ok(writeln!(shown, " [label=\"{label}\"]")?)
}

/// Appends the edges of a state: its cached transitions, one edge for each state that they lead to.
fn push_edges(
    dfa: &DFA,
    cache: &Cache,
    from: usize,
    state: &CachedState<'_>,
    shown: &mut String,
) -> Result<()> {
    let ids = state.transitions();
    let last = dfa.byte_classes().eoi();
    for (class, to) in ids.iter().enumerate() {
        if class <= last && !to.is_unknown() && !stands_before(ids, class, *to) {
            push_edge(dfa, cache, from, state, *to, shown)?;
        }
    }
    Ok(())
}

/// Appends what is known of the byte before a state, if its NFA states depend on that.
fn push_before(state: &State, shown: &mut String) -> Result<()> {
    let known = LookSet::from_bits(state.known());
    for index in 0..LOOKS {
        let look = Look::from_index(index);
        if known.contains(look) {
            write!(shown, " {look:?}")?;
        }
    }
    if state.word() {
        shown.push_str(" word")?;
    }
    if state.half() {
        shown.push_str(" half")?;
    }
    Ok(())
}

/// Appends a state: its number, its NFA states in order of preference, what is known of the byte before it, and the
/// patterns that match there.
fn push_state(at: usize, state: &CachedState<'_>, shown: &mut String) -> Result<()> {
    write!(shown, "    {at} [")?;
    if state.id().is_match() {
        shown.push_str("peripheries=2 ")?;
    }
    write!(shown, "label=\"{at}:")?;
    let powerset = state.state();
    for id in powerset.nfa() {
        write!(shown, " {}", id.as_usize())?;
    }
    push_before(powerset, shown)?;
    for index in 0..powerset.match_len() {
        let pattern = powerset.match_pattern(index);
        write!(shown, " match {}", pattern.as_usize())?;
    }
    Ok(shown.push_str("\"]\n")?)
}

/// Appends the cached start states.
fn push_starts(cache: &Cache, shown: &mut String) -> Result<()> {
    for (slot, id) in cache.starts().iter().enumerate() {
        if !id.is_unknown() {
            let (searches, byte) = (group(slot / GROUP), before(slot % GROUP));
            writeln!(
                shown,
                "    start{slot} [shape=plain label=\"{searches}, after {byte}\"]"
            )?;
            write!(shown, "    start{slot} -> ")?;
            push_name(cache, *id, shown)?;
            shown.push('\n')?;
        }
    }
    Ok(())
}

/// Appends the states of a cache.
fn push_states(cache: &Cache, shown: &mut String) -> Result<()> {
    for (at, state) in (0..usize::MAX).zip(cache.states()) {
        push_state(at, &state, shown)?;
    }
    Ok(())
}

/// Appends the cached transitions.
fn push_transitions(dfa: &DFA, cache: &Cache, shown: &mut String) -> Result<()> {
    for (at, state) in (0..usize::MAX).zip(cache.states()) {
        push_edges(dfa, cache, at, &state, shown)?;
    }
    Ok(())
}

/// Appends the graph of the states in a cache of a DFA, in the language of Graphviz.
pub fn push_cached(dfa: &DFA, cache: &Cache, shown: &mut String) -> Result<()> {
    shown.push_str("digraph states {\n    rankdir=LR\n    node [shape=box]\n")?;
    push_starts(cache, shown)?;
    push_states(cache, shown)?;
    push_transitions(dfa, cache, shown)?;
    Ok(shown.push_str("}\n")?)
}
