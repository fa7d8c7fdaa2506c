//! The literals with which matches of patterns begin, or which short matches contain.
ghost use Rattle.std.specs.Prelude.{◌≡◌, ◌<◌, ◌∷◌, [], IfOk, IfSome, IsTrue, OnOk, false, map};
ghost use Rattle.std.specs.List.{Contains};
ghost use Rattle.regex_extract.specs.Needles.{needles_of};
ghost use Rattle.match_facts.specs.Prefixes.{BeginsWith};
ghost use Rattle.regex_hir.specs.Meaning.{meaning};
ghost use Rattle.prefilters.specs.Needles.{HasNeedleNear};
ghost use Rattle.patterns.specs.Searches.{AreNearFor, AreNeedlesOf, HaveNeedlesNear, KeepsNeedles, MayReplace};

use crate::compile::{Options, parse};
use crate::error::Fault;
use match_facts::common_prefix;
use prefilters::{Head, Needles, Prefilter, first_literals};
use regex_extract::{max_len, required};
use regex_hir::Hir;
use std::alloc::{AllocError, Global};

/// How many bytes a match may have at most where a literal inside of it is searched for.
const SHORT: usize = 64;

/// The largest number of needles that are searched for.
const MOST: usize = 64;

/// The greatest length of a needle.
const LONGEST: usize = 64;

/// How many bytes of a text in a row have to be letters, digits or spaces for it to have a literal inside worth a search.
const LITERAL: usize = 3;

/// Returns the literals with one of which every match of a text begins, if there are such.
fn needles_of_text(alloc: Global, text: &str, options: &Options) -> Result<Option<Needles>, Fault>
    ensures { IfOk result (λ o. IfSome o (λ v. AreNeedlesOf options.now (text.now ∷ []) (needles_of v))) }
{
    let parsed = parse(alloc, text, options)?;
    match first_literals(alloc, &parsed.hir) {
        Ok(needles) => Ok(needles),
        Err(error) => Err(Fault::from(error)),
    }
}

/// Returns the literals with one of which every match of these texts begins, if each text has such.
fn needles_of(alloc: Global, texts: &[&str], options: &Options) -> Result<Option<Needles>, Fault>
    ensures { IfOk result (λ o. IfSome o (λ v.
        AreNeedlesOf options.now (map (λ text. text.now) texts.now) (needles_of v))) }
{
    let mut needles = Vec::new(alloc);
    for text in texts {
        let Some(mut own) = needles_of_text(alloc, text, options)? else {
            return Ok(None);
        };
        needles.append(&mut own)?;
    }
    Ok(Some(needles))
}

/// Returns at most `len` bytes from the beginning of a needle.
fn cut(needle: &[u8], len: usize) -> &[u8]
    ensures { BeginsWith result.now needle.now }
{
    &needle[..needle.len().min(len)]
}

/// Returns the length of the common prefix of two needles, if that is below 64; at most 63.
fn common_len(first: &[u8], second: &[u8]) -> usize
    ensures { result < 64 }
{
    let most = first.len().min(second.len()).min(LONGEST - 1);
    for at in 0..most {
        if first[at] != second[at] {
            return at;
        }
    }
    most
}

/// Returns, for each length, how many needles have a common prefix of this length with the one before.
fn common_lens(needles: &[Vec<u8>]) -> [usize; LONGEST] {
    let mut counts = [0usize; LONGEST];
    let mut last: &[u8] = &[];
    for needle in needles {
        let len = common_len(last, needle);
        counts[len] = counts[len].saturating_add(1);
        last = needle;
    }
    counts
}

/// Returns the greatest length, up to 64, to which needles may be cut so that at most 64 of them are left, where
/// neighbours that become equal count once.
fn length_for(needles: &[Vec<u8>]) -> usize {
    let mut left = 0usize;
    for (len, count) in common_lens(needles).iter().enumerate() {
        left = left.saturating_add(*count);
        if left > MOST {
            return len;
        }
    }
    LONGEST
}

/// Whether the last of the needles is this one.
fn ends_with(needles: &[Vec<u8>], needle: &[u8]) -> bool
    ensures { IsTrue result → Contains (map (λ v. v.items) needles.now) needle.now }
{
    let len = needles.len();
    if len == 0 {
        return false;
    }
    let last = &needles[len - 1];
    last.as_slice() == needle
}

/// Adds a needle, unless it is the last one.
fn add(needles: &mut Needles, needle: &[u8]) -> Result<(), AllocError>
    ensures kept { OnOk result (KeepsNeedles (needles_of needles.old) (needles_of needles.new)) }
    ensures added { OnOk result (Contains (needles_of needles.new) needle.now) }
{
    if !ends_with(needles, needle) {
        let own = Vec::from_slice(*needles.allocator(), needle)?;
        needles.push(own)?;
    }
    Ok(())
}

/// Returns the needles, each cut to `len` bytes.
fn shortened(alloc: Global, needles: &[Vec<u8>], len: usize) -> Result<Needles, AllocError>
    ensures { IfOk result (λ v. MayReplace (map (λ n. n.items) needles.now) (needles_of v)) }
{
    let mut short = Vec::new(alloc);
    for needle in needles {
        add(&mut short, cut(needle, len))?;
    }
    Ok(short)
}

/// Returns the needles, or shorter ones of three bytes or more if they are too many, unless those are too many, too.
fn few_of(alloc: Global, needles: Needles) -> Result<Needles, AllocError>
    ensures { IfOk result (λ v. MayReplace (needles_of needles) (needles_of v)) }
{
    if needles.len() <= MOST {
        return Ok(needles);
    }
    let len = length_for(&needles);
    if len < LITERAL {
        Ok(needles)
    } else {
        shortened(alloc, &needles, len)
    }
}

/// Whether a search for several needles pays, by their common prefix: it is empty, or one ASCII character, which may be
/// frequent.
fn is_short(prefix: &[u8]) -> bool {
    match prefix {
        [] => true,
        [byte] => byte.is_ascii(),
        _ => false,
    }
}

/// Whether a search for needles pays: for one, for two that begin with different bytes, and for more if they have at
/// least two bytes each, and a short common prefix.
fn is_fast(needles: &[Vec<u8>]) -> bool {
    match needles.len() {
        0 => false,
        1 => true,
        2 if needles[0].first() != needles[1].first() => true,
        _ => is_short(common_prefix(needles)) && needles.iter().all(|needle| needle.len() > 1),
    }
}

/// Returns the longest common prefix of needles as the only needle, or none if it is empty.
fn common_needle(alloc: Global, needles: &[Vec<u8>]) -> Result<Option<Needles>, AllocError>
    ensures { IfOk result (λ o. IfSome o (λ v. MayReplace (map (λ n. n.items) needles.now) (needles_of v))) }
{
    let prefix = common_prefix(needles);
    if prefix.is_empty() {
        return Ok(None);
    }
    let needle = Vec::from_slice(alloc, prefix)?;
    let mut only = Vec::new(alloc);
    only.push(needle)?;
    Ok(Some(only))
}

/// Returns the search for needles, shorter ones if they are too many, if it pays, and otherwise that for their longest
/// common prefix, unless it is empty.
fn fast_prefilter(alloc: Global, needles: Needles) -> Result<Option<Prefilter>, AllocError>
    ensures { IfOk result (λ o. IfSome o (AreNearFor (needles_of needles))) }
{
    let few = few_of(alloc, needles)?;
    if is_fast(&few) {
        return Prefilter::new(alloc, few, Head::Within(0));
    }
    match common_needle(alloc, &few) {
        Ok(Some(only)) => Prefilter::new(alloc, only, Head::Within(0)),
        Ok(None) => Ok(None),
        Err(error) => Err(error),
    }
}

/// Returns a search for literals with one of which every match of these texts begins, if there is one that pays, and
/// memory for it.
fn prefix_prefilter(alloc: Global, texts: &[&str], options: &Options) -> Option<Prefilter>
    ensures { IfSome result (HaveNeedlesNear options.now (map (λ text. text.now) texts.now)) }
{
    match needles_of(alloc, texts, options) {
        Ok(Some(needles)) => match fast_prefilter(alloc, needles) {
            Ok(prefilter) => prefilter,
            Err(_) => None,
        },
        _ => None,
    }
}

/// Whether a text may have a literal inside of short matches that is worth a search, at a glance: a row of letters,
/// digits or spaces, and no repetition without a bound.
fn may_have_inner(text: &str) -> bool {
    let mut row = 0usize;
    let mut longest = 0;
    for byte in text.as_bytes() {
        row = if byte.is_ascii_alphanumeric() || *byte == b' ' {
            row.saturating_add(1)
        } else {
            0
        };
        if row > longest {
            longest = row;
        }
    }
    longest >= LITERAL
}

/// Whether a search for literals inside of matches pays: none is too short.
fn is_fast_inside(needles: &[Vec<u8>]) -> bool {
    is_fast(needles) && needles.iter().all(|needle| needle.len() >= LITERAL)
}

/// Returns a search for literals one of which every match of a tree contains, if the matches are short and it pays.
fn inner_of(alloc: Global, hir: &Hir) -> Result<Option<Prefilter>, AllocError>
    ensures { IfOk result (λ o. IfSome o (HasNeedleNear (meaning hir.now))) }
{
    let most = match max_len(hir) {
        Some(most) if most <= SHORT => most,
        _ => return Prefilter::after_head(alloc, hir),
    };
    match required(alloc, hir) {
        Ok(Some(needles)) if is_fast_inside(&needles) => Prefilter::for_inner(alloc, needles, most),
        Ok(_) => Ok(None),
        Err(error) => Err(error),
    }
}

/// Returns a search for literals one of which every match of a text contains, if the matches are short and it pays.
fn inner_prefilter(alloc: Global, text: &str, options: &Options) -> Result<Option<Prefilter>, Fault>
    ensures { IfOk result (λ o. IfSome o (HaveNeedlesNear options.now (text.now ∷ []))) }
{
    let parsed = parse(alloc, text, options)?;
    match inner_of(alloc, &parsed.hir) {
        Ok(prefilter) => Ok(prefilter),
        Err(error) => Err(Fault::from(error)),
    }
}

/// Returns a search for literals near the start of every match of these texts, if there is one that pays: literals with
/// which matches begin, if `begins` says that these are few, or, of one text, literals that short matches contain. There
/// is none either if memory runs out, since searches do without it.
///
/// If the text is ASCII, there is none: a Unicode word boundary does not mean the same over other text, where a search
/// for it is not promised to find anything, but one for another pattern is.
pub(crate) fn prefilter_of(
    alloc: Global,
    texts: &[&str],
    options: &Options,
    begins: bool,
) -> Option<Prefilter>
    ensures needles { IfSome result (HaveNeedlesNear options.now (map (λ text. text.now) texts.now)) }
    ensures ascii { IfSome result (λ _. options.now.ascii ≡ false) }
{
    if options.ascii {
        return None;
    }
    if begins {
        let found = prefix_prefilter(alloc, texts, options);
        if found.is_some() {
            return found;
        }
    }
    match texts {
        [text] if may_have_inner(text) => match inner_prefilter(alloc, text, options) {
            Ok(prefilter) => prefilter,
            Err(_) => None,
        },
        _ => None,
    }
}
