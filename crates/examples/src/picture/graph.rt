//! An NFA as a graph.
use anyhow::Result;
use regex_automata::nfa::thompson::{NFA, State, Transition};
use regex_automata::util::primitives::StateID;
use std::fmt::Write;

/// The style of an edge: solid if it reads a byte, dotted if it begins or ends a group, and otherwise dashed.
#[derive(Clone, Copy)]
enum Line {
    Solid,
    Dashed,
    Dotted,
}

impl Line {
    /// Returns the name of the style in the language of Graphviz.
    fn name(self) -> &'static str {
        match self {
            Line::Solid => "solid",
            Line::Dashed => "dashed",
            Line::Dotted => "dotted",
        }
    }
}

/// Appends a byte: its character if that is visible and needs no escape, and otherwise its number.
pub fn push_byte(byte: u8, text: &mut String) -> Result<()> {
    if byte.is_ascii_graphic() && byte != b'"' && byte != b'\\' {
        text.push(char::from(byte))?;
    } else {
        write!(text, "\\\\x{byte:02X}")?;
    }
    Ok(())
}

/// Appends the beginning of an edge's line, up to its label.
fn begin_edge(from: usize, to: StateID, line: Line, shown: &mut String) -> Result<()> {
    let style = line.name();
    Ok(write!(
        shown,
        "    {from} -> {} [style={style} label=\"",
        to.as_usize()
    )?)
}

/// Appends an edge that reads a byte from `lo` to `hi`.
fn push_range(from: usize, edge: Transition, shown: &mut String) -> Result<()> {
    begin_edge(from, edge.next, Line::Solid, shown)?;
    push_byte(edge.lo, shown)?;
    if edge.lo != edge.hi {
        shown.push('-')?;
        push_byte(edge.hi, shown)?;
    }
    Ok(shown.push_str("\"]\n")?)
}

/// Appends the edges that read a byte, one for each range.
fn push_ranges(from: usize, edges: &[Transition], shown: &mut String) -> Result<()> {
    for edge in edges {
        push_range(from, *edge, shown)?;
    }
    Ok(())
}

/// Appends the edges that read a byte, one for each byte with a target.
fn push_targets(from: usize, targets: &[StateID], shown: &mut String) -> Result<()> {
    for (byte, next) in (0..=u8::MAX).zip(targets.iter()) {
        if *next != StateID::ZERO {
            let (lo, hi, next) = (byte, byte, *next);
            push_range(from, Transition { lo, hi, next }, shown)?;
        }
    }
    Ok(())
}

/// Appends an edge to the alternate of a union with this rank.
fn push_alternate(from: usize, to: StateID, rank: usize, shown: &mut String) -> Result<()> {
    begin_edge(from, to, Line::Dashed, shown)?;
    Ok(writeln!(shown, "{rank}\"]")?)
}

/// Appends the edges to the alternates of a union, of which the first is preferred.
fn push_alternates(from: usize, alternates: &[StateID], shown: &mut String) -> Result<()> {
    for (rank, to) in alternates.iter().enumerate() {
        push_alternate(from, *to, rank.saturating_add(1), shown)?;
    }
    Ok(())
}

/// Appends the edges of a state, or its label if it is a match or a fail state.
fn push_state(at: usize, state: &State, shown: &mut String) -> Result<()> {
    match state {
        State::ByteRange { lo, hi, next } => {
            let (lo, hi, next) = (*lo, *hi, *next);
            push_range(at, Transition { lo, hi, next }, shown)
        }
        State::Sparse(edges) => push_ranges(at, edges.as_slice(), shown),
        State::Dense(targets) => push_targets(at, targets.as_slice(), shown),
        State::Look { look, next } => {
            begin_edge(at, *next, Line::Dashed, shown)?;
            Ok(writeln!(shown, "{look:?}\"]")?)
        }
        State::Union { alternates } => push_alternates(at, alternates.as_slice(), shown),
        State::BinaryUnion { alt1, alt2 } => push_alternates(at, &[*alt1, *alt2], shown),
        State::Capture { next, .. } => {
            begin_edge(at, *next, Line::Dotted, shown)?;
            Ok(shown.push_str("\"]\n")?)
        }
        State::Fail => Ok(writeln!(shown, "    {at} [label=\"{at}: fail\"]")?),
        State::Match { pattern } => {
            let pattern = pattern.as_usize();
            Ok(writeln!(
                shown,
                "    {at} [shape=doublecircle label=\"{at}: match {pattern}\"]"
            )?)
        }
    }
}

/// Appends the two states in which searches start.
fn push_starts(nfa: &NFA, shown: &mut String) -> Result<()> {
    let anchored = nfa.start_anchored().as_usize();
    let unanchored = nfa.start_unanchored().as_usize();
    writeln!(shown, "    anchored [shape=plain]")?;
    writeln!(shown, "    anchored -> {anchored}")?;
    writeln!(shown, "    unanchored [shape=plain]")?;
    Ok(writeln!(shown, "    unanchored -> {unanchored}")?)
}

/// Appends the graph of an NFA, in the language of Graphviz.
pub fn push_graph(nfa: &NFA, shown: &mut String) -> Result<()> {
    shown.push_str("digraph nfa {\n    rankdir=LR\n    node [shape=circle]\n")?;
    push_starts(nfa, shown)?;
    for (at, state) in nfa.states().iter().enumerate() {
        push_state(at, state, shown)?;
    }
    Ok(shown.push_str("}\n")?)
}
