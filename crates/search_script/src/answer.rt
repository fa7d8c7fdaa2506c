//! Reads, checks and answers a script.

use crate::error::RunError;
use crate::reply::Line;
use crate::script::{Definition, Script, Source};
use regex_automata::hybrid::dfa::Config;
use regex_automata::hybrid::regex::{Regex, RegexBuildError};
use regex_automata::nfa::thompson::{NFA, NfaError};
use replay::replay;
use std::alloc::{AllocError, Global};
use std::fmt::Write;
use std::io::Read;
use std::{io, mem};

/// Answers a script that it reads from `input`: writes a line for each line of the script that is neither empty nor a
/// comment.
///
/// Nothing is written before all lines are read and checked and all replies are known. If there are several errors, the
/// first is returned, in this order: reading, the first bad line, building and answering, writing. Out of memory is
/// returned where it happens. If a write fails, the beginning of the output may already be written.
pub fn run<R: Read, W: io::Write>(
    alloc: Global,
    input: &mut R,
    output: &mut W,
) -> Result<(), RunError> {
    let mut text = Vec::new(alloc);
    input.read_to_end(&mut text).map_err(RunError::of_io)?;
    let script = Script::parse(alloc, text.as_slice())?;
    let replies = replies_to(alloc, script)?;
    output
        .write_all(replies.as_bytes())
        .map_err(RunError::of_io)?;
    output.flush().map_err(RunError::of_io)
}

/// Returns the replies to all lines of a script, one line each.
fn replies_to(alloc: Global, script: Script) -> Result<String, RunError> {
    let mut script = script;
    let definitions = mem::replace(&mut script.definitions, Vec::new(alloc));
    let mut built = Built::new(alloc);
    built.define_all(alloc, definitions)?;
    let requests = script.requests(alloc)?;
    let replies = replay(alloc, built.regexes.as_slice(), requests.as_slice())?;
    for reply in &replies {
        writeln!(built.text, "{}", Line(reply))?;
    }
    Ok(built.text)
}

/// The NFAs and regexes that the definitions have built, in order, and the replies so far.
#[derive(Drop)]
struct Built {
    nfas: Vec<NFA>,
    regexes: Vec<Regex>,
    text: String,
}

impl Built {
    /// Returns the state before the first definition.
    fn new(alloc: Global) -> Built {
        Built {
            nfas: Vec::new(alloc),
            regexes: Vec::new(alloc),
            text: String::new(alloc),
        }
    }

    /// Builds what the definitions describe, in order.
    fn define_all(&mut self, alloc: Global, definitions: Vec<Definition>) -> Result<(), RunError> {
        for definition in definitions {
            match definition {
                Definition::Nfa(outline) => self.add_nfa(outline.build(alloc))?,
                Definition::Regex { source, config } => {
                    let regex = self.build(alloc, source, config);
                    self.add_regex(regex)?;
                }
            }
        }
        Ok(())
    }

    /// Adds an NFA under the next number. An NFA that could not be built takes no number.
    fn add_nfa(&mut self, nfa: Result<NFA, NfaError>) -> Result<(), RunError> {
        match nfa {
            Ok(nfa) => {
                let number = self.nfas.len();
                writeln!(self.text, "nfa {number}")?;
                self.nfas.push(nfa).map_err(AllocError::from)?;
            }
            Err(error) => writeln!(self.text, "refused {error}")?,
        }
        Ok(())
    }

    /// Adds a regex under the next number. A regex that could not be built takes no number.
    fn add_regex(&mut self, regex: Result<Regex, Refusal>) -> Result<(), RunError> {
        match regex {
            Ok(regex) => {
                let number = self.regexes.len();
                writeln!(self.text, "regex {number}")?;
                self.regexes.push(regex).map_err(AllocError::from)?;
            }
            Err(Refusal::NoNfa) => writeln!(self.text, "bad nfa")?,
            Err(Refusal::Build(error)) => writeln!(self.text, "refused {error}")?,
        }
        Ok(())
    }

    /// Builds the regex of a source.
    fn build(&self, alloc: Global, source: Source, config: Config) -> Result<Regex, Refusal> {
        match source {
            Source::Entry(entry) => {
                let forward = entry_nfa(entry.forward(alloc))?;
                build_pair(forward, entry_nfa(entry.reverse(alloc))?, config)
            }
            Source::EntryMade(entry) => build_made(entry_nfa(entry.forward(alloc))?, config),
            Source::Pair(forward, reverse) => {
                let forward = self.nfa(forward)?;
                build_pair(forward, self.nfa(reverse)?, config)
            }
            Source::Made(forward) => build_made(self.nfa(forward)?, config),
        }
    }

    /// Returns a clone of the NFA with this number, which shares its states.
    fn nfa(&self, number: usize) -> Result<NFA, Refusal> {
        let nfa = self.nfas.get(number).ok_or(Refusal::NoNfa)?;
        nfa.clone().map_err(|_| OUT_OF_MEMORY)
    }
}

/// Why a line does not build a regex.
#[derive(Drop)]
enum Refusal {
    /// The line names an NFA that does not exist.
    NoNfa,
    Build(RegexBuildError),
}

const OUT_OF_MEMORY: Refusal = Refusal::Build(RegexBuildError::OutOfMemory);

/// Returns an NFA of the catalogue. These NFAs are well formed, so the only error is out of memory.
fn entry_nfa(nfa: Result<NFA, NfaError>) -> Result<NFA, Refusal> {
    match nfa {
        Ok(nfa) => Ok(nfa),
        Err(_) => Err(OUT_OF_MEMORY),
    }
}

/// Builds the regex of a forward and a reverse NFA. NFAs with cycles through looks keep their unions, so that replies
/// follow the ordered paths.
fn build_pair(forward: NFA, reverse: NFA, config: Config) -> Result<Regex, Refusal> {
    match Regex::builder()
        .dfa(config)
        .build_from_nfas(forward.keeping_unions(), reverse.keeping_unions())
    {
        Ok(regex) => Ok(regex),
        Err(error) => Err(Refusal::Build(RegexBuildError::Build(error))),
    }
}

/// Builds the regex of one NFA, which the library reverses.
fn build_made(forward: NFA, config: Config) -> Result<Regex, Refusal> {
    match Regex::builder().dfa(config).build_from_nfa(forward) {
        Ok(regex) => Ok(regex),
        Err(error) => Err(Refusal::Build(error)),
    }
}
