//! The literals with which matches of a tree begin.
ghost use Rattle.std.specs.Prelude.{◌≡◌, ◌≤◌, IfOk, IfSome, length, map};
ghost use Rattle.regex_extract.specs.Needles.{StartsWithNeedle, needles_of};
ghost use Rattle.regex_hir.specs.Meaning.{alt_all, cat_all, meaning};
ghost use Rattle.prefilters.specs.Beginnings.{AreBeginnings, BeginsWithOneOf};

use crate::prefilter::Needles;
use regex_class::Class;
use regex_extract::prefixes;
use regex_hir::Hir;
use std::alloc::{AllocError, Global};

/// A class with more members than this makes too many literals where it is at the start.
const FEW: usize = 4;

/// About how many literals a beginning may have.
const MOST: usize = 64;

/// The largest number of branches that are cut.
const BRANCHES: usize = 16;

/// Returns how many members a class has.
fn members(class: &Class) -> usize {
    let mut count = 0usize;
    for range in class.ranges.iter() {
        let more = range.1.saturating_sub(range.0) as usize;
        count = count.saturating_add(more).saturating_add(1);
    }
    count
}

/// Returns by how many a tree multiplies the literals of what comes before it: the members of a class.
fn choices(hir: &Hir) -> usize {
    match hir {
        Hir::Bytes(class) | Hir::Chars(class) => members(class),
        _ => 1,
    }
}

/// Whether the matches of a tree begin with a member of a class that has many.
#[cycle(many)]
fn begins_with_many(hir: &Hir) -> bool {
    match hir {
        Hir::Bytes(_) | Hir::Chars(_) => choices(hir) > FEW,
        Hir::Repetition { sub, .. } | Hir::Capture { sub, .. } => begins_with_many(sub),
        Hir::Concat(subs) => first_begins_with_many(subs),
        Hir::Alternation(subs) => any_begins_with_many(subs),
        _ => false,
    }
}

/// Whether the first of some parts, apart from assertions, begins with one of many members.
#[cycle(many)]
fn first_begins_with_many(subs: &[Hir]) -> bool {
    for at in 0..subs.len() {
        if !matches!(subs[at], Hir::Look(_)) {
            return begins_with_many(&subs[at]);
        }
    }
    false
}

/// Whether one of some branches begins with one of many members.
#[cycle(many)]
fn any_begins_with_many(subs: &[Hir]) -> bool {
    for at in 0..subs.len() {
        if begins_with_many(&subs[at]) {
            return true;
        }
    }
    false
}

/// Whether one of some trees is a class.
fn has_class(subs: &[Hir]) -> bool {
    for sub in subs {
        if choices(sub) > 1 {
            return true;
        }
    }
    false
}

/// Whether a tree is a sequence with classes, or an alternation of a few such.
#[cycle(cuts)]
fn is_cut(hir: &Hir) -> bool {
    match hir {
        Hir::Capture { sub, .. } => is_cut(sub),
        Hir::Concat(subs) => has_class(subs),
        Hir::Alternation(subs) => subs.len() <= BRANCHES && any_is_cut(subs),
        _ => false,
    }
}

/// Whether one of some branches is such a tree.
#[cycle(cuts)]
fn any_is_cut(subs: &[Hir]) -> bool {
    for at in 0..subs.len() {
        if is_cut(&subs[at]) {
            return true;
        }
    }
    false
}

/// Returns how many of some parts have at most `most` literals together.
fn parts_within(subs: &[Hir], most: usize) -> usize
    ensures { result ≤ length subs.now }
{
    let mut count = 1usize;
    for at in 0..subs.len() {
        count = count.saturating_mul(choices(&subs[at]));
        if count > most {
            return at;
        }
    }
    subs.len()
}

/// Copies trees.
fn copies(alloc: Global, subs: &[Hir]) -> Result<Vec<Hir>, AllocError>
    ensures { IfOk result (λ v. map meaning v.items ≡ map meaning subs.now) }
{
    let mut all = Vec::new(alloc);
    for at in 0..subs.len() {
        all.push(subs[at].copy(alloc)?)?;
    }
    Ok(all)
}

/// Returns a sequence of trees.
fn sequence(alloc: Global, subs: &[Hir]) -> Result<Hir, AllocError>
    ensures { IfOk result (λ h. meaning h ≡ cat_all (map meaning subs.now)) }
{
    match copies(alloc, subs) {
        Ok(all) => Ok(Hir::Concat(all)),
        Err(error) => Err(error),
    }
}

/// Returns a tree with which each match of another one begins: its first parts, as far as they have at most `most`
/// literals together.
#[cycle(begins)]
fn beginning(alloc: Global, hir: &Hir, most: usize) -> Result<Hir, AllocError>
    ensures { IfOk result (λ h. BeginsWithOneOf (meaning hir.now) (meaning h)) }
{
    match hir {
        Hir::Capture { sub, .. } => beginning(alloc, sub, most),
        Hir::Concat(subs) => {
            let parts = parts_within(subs, most);
            sequence(alloc, &subs[..parts])
        }
        Hir::Alternation(subs) => match beginnings(alloc, subs, most / subs.len().max(1)) {
            Ok(all) => Ok(Hir::Alternation(all)),
            Err(error) => Err(error),
        },
        _ => hir.copy(alloc),
    }
}

/// Returns the beginnings of trees.
#[cycle(begins)]
fn beginnings(alloc: Global, subs: &[Hir], most: usize) -> Result<Vec<Hir>, AllocError>
    ensures { IfOk result (λ v. AreBeginnings (map meaning subs.now) (map meaning v.items)) }
{
    let mut all = Vec::new(alloc);
    for at in 0..subs.len() {
        all.push(beginning(alloc, &subs[at], most)?)?;
    }
    Ok(all)
}

/// Returns literals with one of which every match of a tree begins, if there are such. There are none if the tree begins
/// with a class of more than four members. Of a sequence, or of each of a few, only so many parts count that the
/// literals are about 64.
pub fn first_literals(alloc: Global, hir: &Hir) -> Result<Option<Needles>, AllocError>
    ensures { IfOk result (λ o. IfSome o (λ v. StartsWithNeedle (meaning hir.now) (needles_of v))) }
{
    if begins_with_many(hir) {
        return Ok(None);
    }
    if !is_cut(hir) {
        return prefixes(alloc, hir);
    }
    match beginning(alloc, hir, MOST) {
        Ok(first) => prefixes(alloc, &first),
        Err(error) => Err(error),
    }
}
