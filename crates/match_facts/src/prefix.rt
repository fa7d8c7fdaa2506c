//! The bytes that every match begins with.
ghost use Rattle.std.specs.Prelude.{◌≡◌, ℕ, ◌<◌, ◌≤◌, IfOk, length, map, take};
ghost use Rattle.regex_hir.specs.Meaning.{meaning};
ghost use Rattle.regex_literal.specs.Find.{needle_at};
ghost use Rattle.match_facts.specs.Facts.{StartsWith};
ghost use Rattle.match_facts.specs.Prefixes.{BeginsWith};

use regex_extract::prefixes;
use regex_hir::Hir;
use std::alloc::{AllocError, Global};

/// Returns the bytes that every match begins with: the longest common prefix of needles, one of which each match begins
/// with.
pub(crate) fn prefix_of(alloc: Global, hir: &Hir) -> Result<Vec<u8>, AllocError>
    ensures { IfOk result (λ v. StartsWith (meaning hir.now) v.items) }
{
    match prefixes(alloc, hir) {
        Ok(Some(needles)) => Vec::from_slice(alloc, common_prefix(needles.as_slice())),
        Ok(None) => Ok(Vec::new(alloc)),
        Err(error) => Err(error),
    }
}

/// Returns the longest common prefix of needles. A match that begins with one of them begins with the prefix.
pub fn common_prefix(needles: &[Vec<u8>]) -> &[u8]
    ensures { (n : ℕ) → n < length needles.now
        → BeginsWith result.now (needle_at (map (λ v. v.items) needles.now) n) }
{
    let mut common: &[u8] = match needles.first() {
        Some(first) => first.as_slice(),
        None => &[],
    };
    for needle in needles {
        let len = common_len(common, needle);
        common = &common[..len];
    }
    common
}

/// Returns the length of the common prefix of two byte strings.
fn common_len(first: &[u8], second: &[u8]) -> usize
    ensures within { result ≤ length first.now }
    ensures same { take result first.now ≡ take result second.now }
{
    let shorter = first.len().min(second.len());
    for i in 0..shorter {
        if first[i] != second[i] {
            return i;
        }
    }
    shorter
}
