//! What every match of a pattern has in common, computed from the tree to which the kit's parser parses the pattern:
//! whether it touches an edge of the haystack, the bytes that it begins with, and literals that it contains.
//!
//! A search with an index, or with a fast search for a literal, may skip haystacks that lack these. Nothing is
//! compiled, and no haystack is read.
#![tactic(auto)]

ghost use Rattle.std.specs.Prelude.{IfOk};
ghost use Rattle.regex_hir.specs.Meaning.{meaning};
ghost use Rattle.match_facts.specs.Facts.{AreFacts};

mod literals;
mod prefix;

use crate::literals::literals_of;
use crate::prefix::prefix_of;
pub use prefix::common_prefix;
use regex_extract::{is_anchored_end, is_anchored_start, max_len};
use regex_hir::Hir;
use std::alloc::{AllocError, Global};

/// What every match of a pattern has in common. A flag that is false, and an empty list of bytes, say nothing.
#[derive(Drop)]
pub struct Facts {
    /// Whether every match begins where the haystack does.
    pub anchored_start: bool,
    /// Whether every match ends where the haystack does.
    pub anchored_end: bool,
    /// Whether every match is the prefix and nothing more.
    pub exact: bool,
    /// The bytes that every match begins with.
    pub prefix: Vec<u8>,
    /// Byte strings that every match contains. None is empty, and a literal may overlap the prefix or be in it.
    pub literals: Vec<Vec<u8>>,
}

/// Returns the facts of a pattern. A prefix has at most about 130 bytes, while the literals may have as many bytes as
/// the pattern. Neither is the longest possible: the strings of an alternation or a class count only for the prefix.
pub fn facts_of_tree(alloc: Global, hir: &Hir) -> Result<Facts, AllocError>
    ensures { IfOk result (AreFacts (meaning hir.now)) }
{
    let prefix = prefix_of(alloc, hir)?;
    let literals = literals_of(alloc, hir)?;
    let exact = max_len(hir) == Some(prefix.len());
    Ok(Facts {
        anchored_start: is_anchored_start(hir),
        anchored_end: is_anchored_end(hir),
        exact,
        prefix,
        literals,
    })
}
