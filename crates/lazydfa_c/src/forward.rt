//! Regexes that only search forward: they report whether there is a match and where it ends. No part that finds starts
//! is built.
ghost use Rattle.std.specs.Prelude.{IfErr, IfOk};
ghost use Rattle.automata_config.specs.Options.{overwritten, unset};
ghost use Rattle.lazydfa_c.specs.Texts.{MatchesNothing, IsFailure, IsForwardOnly};

use crate::builder::state_id;
use crate::code::Code;
use crate::regex::pair_of;
use crate::status::{Status, errors_differ};
use regex_automata::hybrid::dfa::Config;
use regex_automata::hybrid::regex::Regex;
use regex_automata::nfa::thompson::{Flags, NFA, State};
use std::alloc::Global;

/// Builds an NFA with this number of patterns, none of which matches.
fn nfa_without_match(alloc: Global, patterns: usize) -> Result<NFA, Status>
    ensures none { IfOk result MatchesNothing }
    ensures refused { IfErr result IsFailure }
{
    let fail = state_id(0)?;
    let mut states = Vec::new(alloc);
    states.push(State::Fail)?;
    let mut starts = Vec::new(alloc);
    starts.resize(patterns, fail)?;
    let flags = Flags {
        utf8: false,
        reverse: true,
        line_terminator: b'\n',
    };
    match NFA::from_states(alloc, states, fail, fail, starts, flags) {
        Ok(nfa) => Ok(nfa),
        Err(error) => Err(Status::from(Code::from(error))),
    }
}

/// Builds the regex whose forward DFA is that of an NFA and whose reverse DFA finds nothing.
pub fn forward_of(alloc: Global, nfa: NFA, config: Config) -> Result<Regex, Status>
    ensures built { IfOk result (IsForwardOnly (overwritten unset config) nfa) }
    ensures refused { IfErr result IsFailure }
{
    errors_differ();
    match nfa_without_match(alloc, nfa.pattern_len()) {
        Ok(none) => pair_of(nfa, none, config),
        Err(status) => Err(status),
    }
}
