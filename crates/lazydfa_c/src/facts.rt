//! What all matches of a pattern have in common.
ghost use Rattle.std.specs.Prelude.{◌≡◌, IfErr, IfOk, IsTrue, OnErr, OnOk};
ghost use Rattle.patterns.specs.Facts.{AreFactsOf};
ghost use Rattle.lazydfa_c.specs.Facts.{HasFacts, ReportsFacts, default_settings, fact_bytes, facts_of, literal_lengths};
ghost use Rattle.lazydfa_c.specs.Facts.{IsFactsFailure, no_facts, plain_reading};
ghost use Rattle.lazydfa_c.specs.Limits.{admits};

use crate::code::Code;
use crate::output::write_over;
use crate::settings::Settings;
use crate::status::Status;
use crate::text::{TextOptions, status_of};
use patterns::{Facts as PatternFacts, facts_of};
use std::alloc::{AllocError, Global};

/// The length of the prefix, the number of literals, the number of bytes of all of these, and the flags, each 0 or 1:
/// whether every match begins where the haystack begins, whether every match ends where it ends, and whether every
/// match is exactly the prefix.
#[repr(C)]
#[derive(Clone, Copy)]
pub struct Facts {
    pub prefix: usize,
    pub count: usize,
    pub length: usize,
    pub anchored_start: u32,
    pub anchored_end: u32,
    pub exact: u32,
    pub reserved: u32,
}

impl Facts {
    /// Returns no facts, as a call reports after an error.
    fn none() -> Facts
        ensures { result ≡ no_facts }
    {
        Facts {
            prefix: 0,
            count: 0,
            length: 0,
            anchored_start: 0,
            anchored_end: 0,
            exact: 0,
            reserved: 0,
        }
    }

    /// Converts facts to their layout in C, where `length` is the number of bytes of the prefix and the literals.
    fn of(facts: &PatternFacts, length: usize) -> Facts
        ensures { result ≡ facts_of facts.now length }
    {
        Facts {
            prefix: facts.prefix.len(),
            count: facts.literals.len(),
            length,
            anchored_start: facts.anchored_start as u32,
            anchored_end: facts.anchored_end as u32,
            exact: facts.exact as u32,
            reserved: 0,
        }
    }
}

/// Returns the settings with which a pattern is parsed for its facts, which do not depend on whether a Unicode word
/// boundary is allowed.
fn default_settings() -> Settings
    ensures { result ≡ default_settings }
{
    Settings {
        cache_capacity: 0,
        cache_limit: 0,
        minimum_cache_clear_count: 0,
        minimum_bytes_per_state: 0,
        has_cache_capacity: 0,
        has_cache_limit: 0,
        has_minimum_cache_clear_count: 0,
        has_minimum_bytes_per_state: 0,
        match_kind: 0,
        starts_for_each_pattern: 0,
        no_byte_classes: 0,
        unicode_word_boundary: 0,
        specialize_start_states: 0,
        skip_cache_capacity_check: 0,
        always_anchored: 0,
    }
}

/// Returns the facts of a pattern's text. It fails with `Code::TooLarge` if the text exceeds the limits on text and on
/// class escapes, before anything is parsed, and with `Code::NotText` and an offset in the text if it is not UTF-8.
fn facts_of_text(alloc: Global, text: &[u8], options: &TextOptions) -> Result<PatternFacts, Status>
    ensures within { IfOk result (λ _. IsTrue (admits options.now text.now)) }
    ensures ok { IfOk result (AreFactsOf (plain_reading options.now) text.now) }
    ensures err { IfErr result (IsFactsFailure options.now text.now) }
{
    if !options.admits(text) {
        return Err(Status::from(Code::TooLarge));
    }
    let text = match str::from_utf8(text) {
        Ok(text) => text,
        Err(error) => return Err(Status::at(Code::NotText, error.valid_up_to())),
    };
    let options = options.options(&default_settings());
    match facts_of(alloc, text, &options) {
        Ok(facts) => Ok(facts),
        Err(error) => Err(status_of(&error)),
    }
}

/// Concatenates the bytes of the prefix and of the literals.
fn joined(alloc: Global, facts: &PatternFacts) -> Result<Vec<u8>, AllocError>
    ensures { IfOk result (λ v. v.items ≡ fact_bytes facts.now) }
{
    let mut all = Vec::from_slice(alloc, facts.prefix.as_slice())?;
    for literal in &facts.literals {
        all.extend_from_slice(literal)?;
    }
    Ok(all)
}

/// Returns the lengths of the literals, in bytes.
fn lengths_of(alloc: Global, facts: &PatternFacts) -> Result<Vec<usize>, AllocError>
    ensures { IfOk result (λ v. v.items ≡ literal_lengths facts.now) }
{
    facts
        .literals
        .iter()
        .map(|literal| literal.len())
        .collect(alloc)
}

/// Writes the facts of a pattern's text, and as many of the bytes and lengths as there is room for. After an error
/// nothing is written.
fn write_facts(
    alloc: Global,
    text: &[u8],
    options: &TextOptions,
    facts: &mut Facts,
    bytes: &mut [u8],
    lengths: &mut [usize],
) -> Result<(), Status>
    ensures ok { OnOk result (HasFacts options.now text.now facts.new bytes.old bytes.new lengths.old lengths.new) }
    ensures kept { OnErr result ((facts.new ≡ facts.old) × (bytes.new ≡ bytes.old) × (lengths.new ≡ lengths.old)) }
    ensures err { IfErr result (IsFactsFailure options.now text.now) }
{
    let known = facts_of_text(alloc, text, options)?;
    let all = joined(alloc, &known)?;
    let sizes = lengths_of(alloc, &known)?;
    *facts = Facts::of(&known, all.len());
    write_over(all.as_slice(), bytes);
    write_over(sizes.as_slice(), lengths);
    Ok(())
}

/// Writes what all matches of a pattern have in common, and as many of the bytes and lengths as there is room for.
/// After an error all facts are 0, and no bytes or lengths are written.
#[unsafe(no_mangle)]
pub extern "C" fn lazydfa_raw_text_facts(
    alloc: Global,
    text: &[u8],
    options: &TextOptions,
    facts: &mut Facts,
    bytes: &mut [u8],
    lengths: &mut [usize],
) -> Status
    ensures { ReportsFacts options.now text.now facts.new bytes.old bytes.new lengths.old lengths.new result }
{
    *facts = Facts::none();
    Status::of(write_facts(alloc, text, options, facts, bytes, lengths))
}
