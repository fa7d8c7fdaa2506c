//! Laws that callers cite. The contract of each function is the law; its body only cites other laws.
ghost use Rattle.patterns.specs.Facts.{FoundIsMatch};
ghost use Rattle.patterns.specs.Searches.{NarrowedIsKept, WithoutNarrowedIsNone};
ghost use Rattle.patterns.specs.Sets.{WalksReportEnds};

use crate::set::RegexSet;
use regex_automata::laws::walk_is_right;

/// An overlapping search with the DFA of a set over a whole haystack reports, by what the texts mean, each pattern with
/// each end of a match of it, in whatever way it matches; and no pattern without a match.
pub fn walks_report_ends(set: &RegexSet)
    ensures { WalksReportEnds set.now.dfa }
{
    walk_is_right(set.dfa.get_nfa());
}

/// A match that `Pattern::find` returns for one text is a match in the sense of `facts_of`, so it has that text's
/// facts.
pub fn found_is_match()
    ensures { FoundIsMatch }
{}

/// A search of the input that `Pattern::narrow` returns finds what one of the given input finds; if it returns none,
/// there is no match.
pub fn narrowed_inputs_are_enough()
    ensures kept { NarrowedIsKept }
    ensures none { WithoutNarrowedIsNone }
{}
