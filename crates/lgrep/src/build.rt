//! Builds the searchers for the patterns: their NFA, and what is built from it.
ghost use Rattle.std.specs.Prelude.{◌≡◌, Bool, List, IfOk, IsTrue, OnOk, map};
ghost use Rattle.regex_hir.specs.Re.{Re};
ghost use Rattle.automata_base.specs.Answers.TruePairs.{KeepsUtf8};
ghost use Rattle.automata_config.specs.Options.{overwritten, unset};
ghost use Rattle.automata_hybrid.specs.Machines.Builds.{Builds};
ghost use Rattle.regex_automata.specs.Promises.{Forward, KindAll, LeftmostFirst, engine_of};
ghost use Rattle.regex_automata.specs.Regexes.Builds.{BuildsOne};
ghost use Rattle.meta.specs.Groups.{FindAllGroups};
ghost use Rattle.meta.specs.Programs.{AreProgramsOf};
ghost use Rattle.patterns.specs.Patterns.{AreMeanings, HasNoLookCycle, IsJoinedNfa, IsNfaOf, IsRegexOf, config_of};
ghost use Rattle.patterns.specs.Patterns.{settings_with};
ghost use Rattle.patterns.specs.Sets.{IsDfaOf};
ghost use Rattle.lgrep.specs.Lines.{bytewise};
ghost use Rattle.lgrep.specs.Contexts.{IsFirstContext};
ghost use Rattle.lgrep.specs.Built.{IsGrepBuilt, IsViewBuilt, grep_settings};
ghost use Rattle.lgrep.specs.Greps.{HasGroupsFor, IsGrepFor, IsReplacerFor, IsViewFor, replaces};

use crate::around::Context;
use crate::lines::LineSearcher;
use crate::replace::{GroupFinder, Replacer};
use crate::search::Grep;
use crate::sets::SetSearcher;
use crate::show::{Around, How, Show};
use crate::spans::SpanSearcher;
use crate::view::View;
use anyhow::{Result, bail};
use meta::Programs;
use patterns::{Options, Pattern, PatternError, RegexSet, nfa_of};
use regex_automata::hybrid::BuildError;
use regex_automata::hybrid::dfa::{Config, DFA};
use regex_automata::nfa::thompson::NFA;
use regex_automata::util::search::MatchKind;
use std::alloc::Global;

/// Returns the options that patterns are read with: they match bytes, and not only UTF-8.
pub fn bytewise(case_insensitive: bool) -> Options
    ensures { result ≡ bytewise case_insensitive }
{
    Options {
        unicode: true,
        case_insensitive,
        multi_line: false,
        dot_matches_new_line: false,
        crlf: false,
        swap_greed: false,
        ignore_whitespace: false,
        octal: false,
        utf8: false,
        ascii: false,
        size_limit: 10 << 20,
        nest_limit: 250,
        cache_capacity: 8 << 20,
        cache_limit: 256 << 20,
    }
}

/// Returns the NFA of the patterns.
pub fn patterns_nfa(
    alloc: Global,
    patterns: &[&str],
    case_insensitive: bool,
) -> Result<NFA, PatternError>
    ensures meant { IfOk result (IsNfaOf (bytewise case_insensitive) (map (λ text. text.now) patterns.now)) }
    ensures acyclic { IfOk result HasNoLookCycle }
{
    let how = bytewise(case_insensitive);
    nfa_of(alloc, patterns, &how)
}

/// Tests whether the patterns are valid; they may have word boundaries of Unicode.
pub fn test_patterns(
    alloc: Global,
    patterns: &[&str],
    case_insensitive: bool,
) -> Result<(), PatternError> {
    let mut how = bytewise(case_insensitive);
    how.ascii = true;
    nfa_of(alloc, patterns, &how)?;
    Ok(())
}

/// Returns the settings of a DFA: which matches it reports, and the capacity of its cache, in bytes. A capacity that is
/// too small is raised to the minimum.
fn settings(match_kind: MatchKind, capacity: usize) -> Config
    ensures { result ≡ grep_settings match_kind capacity }
{
    DFA::config()
        .match_kind(match_kind)
        .cache_capacity(capacity)
        .skip_cache_capacity_check(true)
}

/// Builds the DFA of an NFA with these settings.
fn built(nfa: NFA, config: Config) -> Result<DFA, BuildError>
    ensures { IfOk result (Builds (overwritten unset config) nfa) }
{
    let mut builder = DFA::builder();
    builder.configure(config);
    builder.build_from_nfa(nfa)
}

/// Builds the DFA of an NFA that reports matches of this kind.
fn dfa_of(nfa: NFA, match_kind: MatchKind, capacity: usize) -> Result<DFA>
    ensures { IfOk result (Builds (grep_settings match_kind capacity) nfa) }
{
    let config = settings(match_kind, capacity);
    let dfa = built(nfa, config)?;
    Ok(dfa)
}

/// Builds the searcher for lines with a match of the patterns of an NFA.
fn line_searcher(nfa: NFA, capacity: usize) -> Result<LineSearcher>
    requires { HasNoLookCycle nfa }
    ensures built { IfOk result (λ s. Builds (grep_settings LeftmostFirst capacity) nfa s.dfa) }
    ensures next { IfOk result (λ s. s.next ≡ record { lines = 0; bytes = 0 }) }
{
    let dfa = dfa_of(nfa, MatchKind::LeftmostFirst, capacity)?;
    LineSearcher::new(dfa)
}

/// Builds the pattern of an NFA, whose searches find the matches of the patterns.
fn pattern_of(nfa: NFA, case_insensitive: bool, capacity: usize) -> Result<Pattern>
    ensures meant { IfOk result (λ p. (res : List Re) → IsJoinedNfa (bytewise case_insensitive) res nfa
        → IsRegexOf (bytewise case_insensitive) res p.regex) }
    ensures built { IfOk result (λ p. BuildsOne (settings_with (grep_settings LeftmostFirst capacity)
        (bytewise case_insensitive)) nfa p.regex) }
{
    let how = bytewise(case_insensitive);
    let config = settings(MatchKind::LeftmostFirst, capacity);
    let mut pattern = Pattern::from_nfa_with(nfa, &how, config)?;
    pattern.try_first_bytes();
    Ok(pattern)
}

/// Builds the searcher for the matches of the patterns of an NFA.
fn span_searcher(nfa: NFA, case_insensitive: bool, capacity: usize) -> Result<SpanSearcher>
    ensures meant { IfOk result (λ s. (res : List Re) → IsJoinedNfa (bytewise case_insensitive) res nfa
        → IsRegexOf (bytewise case_insensitive) res s.pattern.regex) }
    ensures built { IfOk result (λ s. BuildsOne (settings_with (grep_settings LeftmostFirst capacity)
        (bytewise case_insensitive)) nfa s.pattern.regex) }
{
    let pattern = pattern_of(nfa, case_insensitive, capacity)?;
    let spans = SpanSearcher::new(pattern)?;
    Ok(spans)
}

/// Builds what replaces the matches of the patterns of an NFA, by programs that find the groups of the same patterns.
fn replacer(
    alloc: Global,
    nfa: NFA,
    programs: Programs,
    case_insensitive: bool,
    capacity: usize,
) -> Result<Replacer>
    ensures meant { IfOk result (λ r. (res : List Re) → IsJoinedNfa (bytewise case_insensitive) res nfa
        → FindAllGroups programs.list.items res → IsReplacerFor case_insensitive res r) }
    ensures built { IfOk result (λ r. BuildsOne (settings_with (grep_settings LeftmostFirst capacity)
        (bytewise case_insensitive)) nfa r.pattern.regex) }
{
    let groups = GroupFinder::new(alloc, programs)?;
    let pattern = pattern_of(nfa, case_insensitive, capacity)?;
    let replacer = Replacer::new(alloc, pattern, groups)?;
    Ok(replacer)
}

/// Compiles what finds the groups of patterns, if their matches are replaced; otherwise it finds no groups.
pub fn programs_of(
    alloc: Global,
    how: How,
    patterns: &[&str],
    case_insensitive: bool,
) -> Result<Programs, PatternError>
    ensures meant { IfOk result (λ programs. (res : List Re)
        → AreMeanings (config_of (bytewise case_insensitive)) (map (λ text. text.now) patterns.now) res
        → HasGroupsFor how res programs) }
    ensures named { IfOk result (λ programs. IsTrue (replaces how) →
        AreProgramsOf (config_of (bytewise case_insensitive)) (map (λ text. text.now) patterns.now)
        programs.list.items) }
{
    let options = bytewise(case_insensitive);
    match how {
        How::Replaced | How::Replacements => Programs::new(alloc, patterns, &options),
        How::Whole | How::Matches | How::Which => Programs::new(alloc, &[], &options),
    }
}

/// Fails if a match might split a UTF-8 encoded character. An NFA outside UTF-8 mode always passes.
fn test_utf8(nfa: &NFA) -> Result<()>
    ensures { OnOk result (KeepsUtf8 Forward (engine_of nfa.now KindAll)) }
{
    if !nfa.keeps_utf8()? {
        bail!("a match might split a character");
    }
    Ok(())
}

/// Builds the searcher for the numbers of the patterns that match, for the patterns of an NFA.
pub fn set_searcher(nfa: NFA, capacity: usize) -> Result<SetSearcher>
    ensures meant { IfOk result (λ s. (case_insensitive : Bool) (res : List Re)
        → IsJoinedNfa (bytewise case_insensitive) res nfa → IsDfaOf (bytewise case_insensitive) res s.set.dfa) }
    ensures built { IfOk result (λ s. Builds (grep_settings KindAll capacity) nfa s.set.dfa) }
{
    test_utf8(&nfa)?;
    let dfa = dfa_of(nfa, MatchKind::All, capacity)?;
    SetSearcher::new(RegexSet { dfa })
}

/// Builds the searcher for what is shown of each line.
fn view_of(
    alloc: Global,
    nfa: &NFA,
    programs: Programs,
    how: How,
    case_insensitive: bool,
    capacity: usize,
) -> Result<View>
    ensures meant { IfOk result (λ view. (res : List Re) → IsJoinedNfa (bytewise case_insensitive) res nfa.now
        → HasGroupsFor how res programs → IsViewFor case_insensitive how res view) }
    ensures built { IfOk result (IsViewBuilt case_insensitive capacity nfa.now) }
{
    match how {
        How::Whole => Ok(View::Whole),
        How::Matches => {
            let copy = nfa.clone()?;
            let spans = span_searcher(copy, case_insensitive, capacity)?;
            Ok(View::Matches(spans))
        }
        How::Which => {
            let copy = nfa.clone()?;
            let sets = set_searcher(copy, capacity)?;
            Ok(View::Which(sets))
        }
        How::Replaced => {
            let copy = nfa.clone()?;
            let replacer = replacer(alloc, copy, programs, case_insensitive, capacity)?;
            Ok(View::Replaced(replacer))
        }
        How::Replacements => {
            let copy = nfa.clone()?;
            let replacer = replacer(alloc, copy, programs, case_insensitive, capacity)?;
            Ok(View::Replacements(replacer))
        }
    }
}

/// Returns the context of the first line, if lines around those that are taken are shown.
fn context_of(alloc: Global, around: Option<Around>) -> Context
    ensures { IsFirstContext around result }
{
    let none = Around {
        before: 0,
        after: 0,
    };
    Context::new(alloc, around.unwrap_or(none))
}

/// Builds a grep for the patterns of an NFA, which has searched nothing yet; the programs are those that `programs_of`
/// compiled. Each cache has this capacity, in bytes, or the minimum if that is larger; no byte makes a search quit, and
/// no search gives up.
pub fn grep_of(
    alloc: Global,
    show: Show,
    nfa: NFA,
    programs: Programs,
    case_insensitive: bool,
    capacity: usize,
) -> Result<Grep>
    requires { HasNoLookCycle nfa }
    ensures meant { IfOk result (λ grep. (res : List Re) → IsJoinedNfa (bytewise case_insensitive) res nfa
        → HasGroupsFor show.flags.how res programs → IsGrepFor case_insensitive res grep) }
    ensures built { IfOk result (IsGrepBuilt case_insensitive capacity nfa) }
    ensures show { IfOk result (λ grep. grep.show ≡ show) }
    ensures next { IfOk result (λ grep. grep.lines.next ≡ record { lines = 0; bytes = 0 }) }
    ensures count { IfOk result (λ grep. grep.count ≡ 0) }
    ensures context { IfOk result (λ grep. IsFirstContext show.flags.around grep.context) }
{
    let how = show.flags.how;
    let view = view_of(alloc, &nfa, programs, how, case_insensitive, capacity)?;
    let lines = line_searcher(nfa, capacity)?;
    let context = context_of(alloc, show.flags.around);
    Ok(Grep::new(alloc, show, lines, view, context))
}
