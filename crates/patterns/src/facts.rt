//! What every match of a pattern has in common, by the pattern's text.
ghost use Rattle.std.specs.Prelude.{IfErr, IfOk};
ghost use Rattle.patterns.specs.Facts.{AreFactsOf, IsFactsError};
ghost use Rattle.patterns.specs.Faults.{IsFaultOf};

use crate::compile::{Options, parse};
use crate::error::{Fault, PatternError};
use match_facts::{Facts, facts_of_tree};
use std::alloc::Global;

/// Returns what every match of a pattern has in common: whether it touches an edge of the haystack, the bytes that it
/// begins with, and literals that it contains.
///
/// It parses the text and compiles nothing: a text that is too large for an NFA, or has a Unicode word boundary, has
/// facts too. They hold for every way in which the pattern matches, whether or not a search would prefer it, and in
/// bytes as well as in text. A letter that matches in both cases is not a literal. An error has number 0.
pub fn facts_of(alloc: Global, text: &str, options: &Options) -> Result<Facts, PatternError>
    ensures facts { IfOk result (AreFactsOf options.now text.now) }
    ensures refused { IfErr result (IsFactsError options.now text.now) }
{
    match read_facts(alloc, text, options) {
        Ok(facts) => Ok(facts),
        Err(fault) => Err(PatternError { number: 0, fault }),
    }
}

/// Returns the facts, or what is wrong with the text.
fn read_facts(alloc: Global, text: &str, options: &Options) -> Result<Facts, Fault>
    ensures facts { IfOk result (AreFactsOf options.now text.now) }
    ensures refused { IfErr result (IsFaultOf options.now text.now) }
{
    let parsed = parse(alloc, text, options)?;
    match facts_of_tree(alloc, &parsed.hir) {
        Ok(facts) => Ok(facts),
        Err(error) => Err(Fault::from(error)),
    }
}
