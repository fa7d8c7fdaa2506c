//! Groups of matches, compared with those that Rust's regex crate reports.
ghost use Rattle.meta.specs.Caches.{HaveRoomFor, IsMetaCacheOf};

use super::*;
use patterns::Options;
use regex_automata::hybrid::SearchError;
use regex_automata::util::search::Match;
use std::alloc::Global;
use std::fmt::Write;
use std::test::Fail;

/// A pattern, a haystack, and the spans of the groups of the first match.
const FIRST_MATCHES: [(&str, &str, &str); 8] = [
    ("(a)(b)?", "xac", "0: 1..2 1..2 -"),
    ("(?:(a)|b)*", "ab", "0: 0..2 0..1"),
    ("((a)|(b))+", "ab", "0: 0..2 1..2 0..1 1..2"),
    ("(a|ab)(c|bcd)(d*)", "abcd", "0: 0..4 0..1 1..4 4..4"),
    (
        r"(?P<y>\d{4})-(?P<m>\d\d)",
        "é 2026-11",
        "0: 3..10 3..7 8..10",
    ),
    ("(a*?)(a*)", "aaa", "0: 0..3 0..0 0..3"),
    ("()", "", "0: 0..0 0..0"),
    ("(?i)(É)+", "éÉ", "0: 0..4 2..4"),
];

/// A pattern with a word boundary, a haystack, and its matches.
const WORDS: [(&str, &str, &str); 7] = [
    (r"\bfoo\b", "foo fooд дfoo foo", "0..3 16..19 "),
    (
        r"\b\w+\b",
        "сколько слов, и café",
        "0..14 15..23 25..27 28..33 ",
    ),
    (r"\B", "да", "2..2 "),
    (r"\bд|а\b", "да ад", "0..2 2..4 "),
    (r"\b", "字 x", "0..0 3..3 4..4 5..5 "),
    (r"\Bо\B|x", "кот x о", "2..4 7..8 "),
    (r"\b", "abc", "0..0 3..3 "),
];

/// The texts of a set.
const SET: [&str; 5] = [r"\bfoo\b", r"\bслово\b", r"\Bо\B", "字", r"\b"];

/// A haystack, and which texts of the set match in it.
const MEMBERS: [(&str, &str); 5] = [
    ("слово", "1 2 4 "),
    ("foo 字", "0 3 4 "),
    ("foo", "0 4 "),
    ("…", ""),
    ("", ""),
];

/// Offsets of a haystack, and the match of texts there.
const MATCHES_THERE: [(usize, &str); 4] = [
    (0, "1: 0..10"),
    (1, ""),
    (6, "1: 6..10"),
    (10, "2: 10..10"),
];

/// Shows the pattern of the first match from an offset on, and the spans of its groups.
fn shown(alloc: Global, texts: &[&str], hay: &[u8], start: usize) -> Result<String, Fail> {
    let regex = Regex::any_of(alloc, texts, &Options::default())?;
    let mut cache = regex.create_cache(alloc)?;
    let mut captures = regex.create_captures(alloc)?;
    let mut text = String::new(alloc);
    if start > hay.len() {
        return Ok(text);
    }
    if let Some(found) = regex.captures_at(&mut cache, hay, start, &mut captures) {
        write!(text, "{}:", found.pattern().as_usize())?;
        for group in 0..regex.group_len(found.pattern()) {
            match captures.get(group) {
                Some(span) => write!(text, " {}..{}", span.start, span.end)?,
                None => write!(text, " -")?,
            }
        }
    }
    Ok(text)
}

#[test]
fn groups_are_those_of_the_preferred_path(rt: HostRuntime) -> Result<(), Fail> {
    for (pattern, hay, expected) in FIRST_MATCHES {
        let found = shown(rt.alloc(), &[pattern], hay.as_bytes(), 0)?;
        assert_eq!(rt; found.as_str(), expected, "{pattern}");
    }
    Ok(())
}

#[test]
fn each_pattern_has_groups_of_its_own(rt: HostRuntime) -> Result<(), Fail> {
    let texts = ["a(b)", "(x)(?P<last>y)?"];
    let hay = "xy ab x".as_bytes();
    for (start, expected) in [
        (0, "1: 0..2 0..1 1..2"),
        (2, "0: 3..5 4..5"),
        (5, "1: 6..7 6..7 -"),
        (7, ""),
    ] {
        let found = shown(rt.alloc(), &texts, hay, start)?;
        assert_eq!(rt; found.as_str(), expected);
    }
    let regex = Regex::any_of(rt.alloc(), &texts, &Options::default())?;
    let last = texts.len() - 1;
    let pattern = regex_automata::util::primitives::PatternID::new(last).ok_or("no ID")?;
    assert!(rt; regex.group_index(pattern, "last") == Some(2));
    assert!(rt; regex.group_index(pattern, "first").is_none());
    Ok(())
}

/// Shows the spans of all matches.
fn spans(alloc: Global, pattern: &str, hay: &[u8]) -> Result<String, Fail> {
    let regex = Regex::new(alloc, pattern, &Options::default())?;
    let mut cache = regex.create_cache(alloc)?;
    let mut text = String::new(alloc);
    for found in regex.find_iter(&mut cache, hay) {
        write!(text, "{}..{} ", found.start(), found.end())?;
    }
    Ok(text)
}

#[test]
fn words_have_boundaries_in_every_text(rt: HostRuntime) -> Result<(), Fail> {
    for (pattern, hay, expected) in WORDS {
        let found = spans(rt.alloc(), pattern, hay.as_bytes())?;
        assert_eq!(rt; found.as_str(), expected, "{pattern}");
    }
    Ok(())
}

/// Where a match starts.
fn start_of(found: Option<Match>) -> Option<usize> {
    found.map(|found| found.start())
}

#[test]
fn searches_begin_at_the_start_or_later(rt: HostRuntime) -> Result<(), Fail> {
    let alloc = rt.alloc();
    let regex = Regex::new(alloc, r"\b(s)?o\b", &Options::default())?;
    let mut captures = regex.create_captures(alloc)?;
    let mut searcher = Searcher::new(alloc, regex)?;
    let (hay, start) = ("so дo o".as_bytes(), 1);
    assert!(rt; start <= hay.len());
    assert_eq!(rt; start_of(searcher.captures(hay, &mut captures)), Some(0));
    assert_eq!(rt;
        start_of(searcher.captures_at(hay, start, &mut captures)),
        Some(7)
    );
    assert!(rt; captures.get(1).is_none());
    assert_eq!(rt; start_of(searcher.find(hay)), Some(0));
    assert_eq!(rt; start_of(searcher.find_at(hay, start)), Some(7));
    assert!(rt; searcher.is_match(hay) && searcher.is_match_at(hay, start));
    Ok(())
}

/// Counts the matches in which a group took part.
fn count(
    regex: &Regex,
    cache: &mut Cache,
    captures: &mut Captures,
    hay: &[u8],
    group: usize,
) -> Result<usize, SearchError>
    requires of { IsMetaCacheOf cache.old regex.now }
    requires room { HaveRoomFor captures.old regex.now.programs }
{
    let mut count = 0usize;
    for item in regex.pattern.find_iter(&mut cache.dfas, hay) {
        let found = item?;
        regex.groups_of(&mut cache.simulations, hay, &found, captures);
        count = count.saturating_add(usize::from(captures.get(group).is_some()));
    }
    Ok(count)
}

/// Counts the matches in which a group took part, each with its groups in turn.
fn count_in_turn(
    regex: &Regex,
    cache: &mut Cache,
    captures: &mut Captures,
    hay: &[u8],
    group: usize,
) -> usize
    requires of { IsMetaCacheOf cache.old regex.now }
    requires room { HaveRoomFor captures.old regex.now.programs }
{
    let mut count = 0usize;
    let mut matches = regex.find_iter(cache, hay);
    'matches: while let Some(_) = matches.next_captures(captures) {
        count = count.saturating_add(usize::from(captures.get(group).is_some()));
    }
    count
}

#[test]
fn matches_of_an_iteration_have_groups(rt: HostRuntime) -> Result<(), Fail> {
    let alloc = rt.alloc();
    let regex = Regex::new(alloc, r"(\w)=(\d)?", &Options::default())?;
    let mut cache = regex.create_cache(alloc)?;
    let mut captures = regex.create_captures(alloc)?;
    let hay = "a=1 b= c=2".as_bytes();
    assert_eq!(rt; count(&regex, &mut cache, &mut captures, hay, 2)?, 2);
    Ok(())
}

#[test]
fn matches_have_groups_in_turn(rt: HostRuntime) -> Result<(), Fail> {
    let alloc = rt.alloc();
    let regex = Regex::new(alloc, r"(\w)=(\d)?", &Options::default())?;
    let mut cache = regex.create_cache(alloc)?;
    let mut captures = regex.create_captures(alloc)?;
    let hay = "é=1 b= c=2".as_bytes();
    assert_eq!(rt; count_in_turn(&regex, &mut cache, &mut captures, hay, 2), 2);
    assert!(rt; captures.get_match().is_none());
    Ok(())
}

/// Shows which texts of the set match in a haystack, and whether one does.
fn members(alloc: Global, hay: &[u8]) -> Result<(String, bool), Fail> {
    let set = RegexSet::new(alloc, &SET, &Options::default())?;
    let mut cache = set.create_cache(alloc)?;
    let mut text = String::new(alloc);
    let found = set.which(alloc, &mut cache, hay)?;
    for pattern in found.iter() {
        write!(text, "{} ", pattern.as_usize())?;
    }
    Ok((text, set.is_match(&mut cache, hay)))
}

#[test]
fn sets_have_matching_texts_in_every_haystack(rt: HostRuntime) -> Result<(), Fail> {
    for (hay, expected) in MEMBERS {
        let (found, is_match) = members(rt.alloc(), hay.as_bytes())?;
        assert_eq!(rt; found.as_str(), expected);
        assert_eq!(rt; is_match, !expected.is_empty());
    }
    Ok(())
}

/// Shows the match of texts at an offset.
fn match_there(alloc: Global, hay: &[u8], at: usize) -> Result<String, Fail> {
    let texts = [r"\bв\w*", r"\w+", ""];
    let programs = Programs::new(alloc, &texts, &Options::default())?;
    let mut simulations = programs.create_simulations(alloc)?;
    let mut text = String::new(alloc);
    if at > hay.len() {
        return Ok(text);
    }
    if let Some(found) = programs.match_at(&mut simulations, hay, at) {
        let (start, end) = (found.start(), found.end());
        write!(text, "{}: {start}..{end}", found.pattern().as_usize())?;
    }
    Ok(text)
}

#[test]
fn matches_at_an_offset_are_of_the_first_text(rt: HostRuntime) -> Result<(), Fail> {
    for (at, expected) in MATCHES_THERE {
        let found = match_there(rt.alloc(), "слово!".as_bytes(), at)?;
        assert_eq!(rt; found.as_str(), expected);
    }
    Ok(())
}
