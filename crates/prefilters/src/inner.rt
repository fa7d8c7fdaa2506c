//! Literals inside of matches of any length.
ghost use Rattle.std.specs.Prelude.{◌<◌, IfOk, IfSome, length, map};
ghost use Rattle.regex_extract.specs.Frames.{IsWithin};
ghost use Rattle.regex_hir.specs.Meaning.{cat_all, meaning};
ghost use Rattle.regex_hir.specs.Re.{literal};
ghost use Rattle.prefilters.specs.Needles.{HasNeedleNear};

use crate::heads::Head;
use crate::prefilter::Prefilter;
use regex_hir::Hir;
use std::alloc::{AllocError, Global};

/// The least length of a literal that is searched for.
const LITERAL: usize = 3;

/// Returns the parts of a tree that is a sequence, or a group of one; otherwise none.
#[cycle(parts)]
fn parts_of(hir: &Hir) -> &[Hir]
    ensures { 0 < length result.now → IsWithin (meaning hir.now) (cat_all (map meaning result.now)) }
{
    match hir {
        Hir::Capture { sub, .. } => parts_of(sub),
        Hir::Concat(subs) => subs.as_slice(),
        _ => &[],
    }
}

/// Returns the bytes of a tree that is a literal, or a group of one; otherwise none.
#[cycle(literals)]
fn literal_of(hir: &Hir) -> &[u8]
    ensures { 0 < length result.now → IsWithin (meaning hir.now) (literal result.now) }
{
    match hir {
        Hir::Capture { sub, .. } => literal_of(sub),
        Hir::Literal(bytes) => bytes.as_slice(),
        _ => &[],
    }
}

/// Returns which of some parts is the longest literal; the first part if none is a literal.
fn longest_literal(parts: &[Hir]) -> usize
    requires { 0 < length parts.now }
    ensures { result < length parts.now }
{
    let mut best = 0;
    let mut most = 0;
    for at in 0..parts.len() {
        let len = literal_of(&parts[at]).len();
        if len > most {
            best = at;
            most = len;
        }
    }
    best
}

/// Returns the search for a literal that follows the first `at` parts of a sequence.
fn literal_after(alloc: Global, parts: &[Hir], at: usize) -> Result<Option<Prefilter>, AllocError>
    requires { at < length parts.now }
    ensures { IfOk result (λ o. IfSome o (HasNeedleNear (cat_all (map meaning parts.now)))) }
{
    let bytes = literal_of(&parts[at]);
    if bytes.len() < LITERAL {
        return Ok(None);
    }
    let needle = Vec::from_slice(alloc, bytes)?;
    let mut needles = Vec::new(alloc);
    needles.push(needle)?;
    Prefilter::new(alloc, needles, Head::of_sequence(&parts[..at]))
}

impl Prefilter {
    /// Returns the search for the longest literal of a tree that is a sequence; none if it is not, or if no part of it is
    /// a literal of three bytes or more.
    pub fn after_head(alloc: Global, hir: &Hir) -> Result<Option<Prefilter>, AllocError>
        ensures { IfOk result (λ o. IfSome o (HasNeedleNear (meaning hir.now))) }
    {
        let parts = parts_of(hir);
        if parts.is_empty() {
            Ok(None)
        } else {
            literal_after(alloc, parts, longest_literal(parts))
        }
    }
}
