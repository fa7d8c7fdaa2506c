//! Laws about searches and walks. The contract of each function is a law; its body only cites other facts.
ghost use Rattle.std.specs.Prelude.{ℕ};
ghost use Rattle.automata_determinize.specs.Answers.Within.{StatesReportOwn};
ghost use Rattle.automata_hybrid.specs.Cache.Caches.{HoldsRow, IsCacheOf};
ghost use Rattle.automata_hybrid.specs.Cache.Survival.{HaveDistinctStates, IdsSurvive};
ghost use Rattle.automata_hybrid.specs.Known.Bounds.{IsKnown};
ghost use Rattle.automata_hybrid.specs.Known.Stores.{known_of};
ghost use Rattle.automata_hybrid.specs.Known.Cached.{KnownStays};
ghost use Rattle.automata_hybrid.specs.Known.Effects.{EventsFollow, KnowsId, StartsFollow, StepsFollow};
ghost use Rattle.automata_hybrid.specs.Known.Follows.{PassesCost, SearchesFollow};
ghost use Rattle.automata_hybrid.specs.Known.PiecesFollow.{PieceAnswersFollow, PiecesFollow, WalkEndsFollow};
ghost use Rattle.automata_hybrid.specs.Known.PiecesFollow.{WalkPiecesFollow};
ghost use Rattle.automata_hybrid.specs.Known.WalksFollow.{CallsFollow, SetsFollow};
ghost use Rattle.automata_hybrid.specs.Machines.Machine.{IsSized};
ghost use Rattle.automata_hybrid.specs.Pieces.Matching.{StatesHaveMatching};
ghost use Rattle.automata_hybrid.specs.Pieces.Whole.{PiecesAreWhole, WalksAreWhole};
ghost use Rattle.automata_hybrid.specs.Private.Machines.Machine.{IsMachine};
ghost use Rattle.automata_hybrid.specs.Walks.SetsByPaths.{SetsHaveMatching};
ghost use Rattle.automata_hybrid.specs.Searches.Agreement.{AnswersAgree, WalksAgree};
ghost use Rattle.automata_hybrid.specs.Steps.BySteps.{FirstMatchIsFound};

use crate::cache::Cache;
use crate::dfa::DFA;
use automata_determinize::laws::{
    passes_report_paths, reported_is_right, steps_are_right, walk_is_right,
};

/// Answers do not depend on earlier searches or on the size of the cache: two searches with the same automaton, match
/// kind and input find the same if neither fails.
pub fn answers_agree()
    ensures { AnswersAgree }
{
    passes_report_paths();
}

/// Overlapping searches do not depend on earlier searches or on the size of the cache: two with the same NFA, match
/// kind and input report the same list, match by match.
pub fn walks_agree(dfa: &DFA)
    ensures { WalksAgree dfa.now }
{
    walk_is_right(dfa.get_nfa());
}

/// The sizes by which a DFA's caches are accounted follow from its NFA, its settings and its byte classes.
pub fn sizes_are_of_nfa(dfa: &DFA)
    ensures { IsSized dfa.now }
{
    states_are_bounded(dfa);
}

/// The patterns of the states of a DFA are its NFA's, and the numbers of the DFA are its own: these bound what a state
/// costs.
fn states_are_bounded(dfa: &DFA)
    ensures machine { IsMachine dfa.now }
    ensures own { StatesReportOwn dfa.now.nfa }
{
    dfa.reveal_invariant();
    steps_are_right(dfa.get_nfa());
}

/// What a cache of a DFA knows meets the premises of these laws: no row has the dead state, or a state that costs more
/// than a state may; all start slots are there; the accounted bytes are within the capacity; and each ID from which a
/// step may be taken is known. No two rows have the same state.
pub fn cache_is_known(dfa: &DFA, cache: &Cache)
    requires { IsCacheOf cache.now dfa.now }
    ensures known { IsKnown dfa.now (known_of cache.now) }
    ensures ids { (id : ℕ) → HoldsRow cache.now id → KnowsId dfa.now (known_of cache.now) id }
    ensures distinct { HaveDistinctStates (known_of cache.now).rows }
{
    cache.reveal_invariant_of(dfa);
}

/// An ID names its state as long as no row is lost, which is until the next clear: `Keeps` says so of a call, as the
/// field `kept` of `IsGrown` gives it.
pub fn ids_survive()
    ensures { IdsSurvive }
{}

/// The effect of a search on what its cache knows: how often it determinizes, and when it does not clear; that nothing
/// is lost before the next clear; that everything it used is cached after an answer, if nothing was cleared; that only
/// the progress changes if all of it was cached before; and when its only error is out of memory. Also, what
/// consecutive passes cost.
pub fn searches_follow(dfa: &DFA)
    ensures searches { SearchesFollow dfa.now }
    ensures passes { PassesCost dfa.now }
{
    states_are_bounded(dfa);
}

/// The effect of an event, and so of a step or a call for a start state, on what its cache knows: how often it
/// determinizes, what stays, which row is added, when the cache is cleared, and what is cached then.
pub fn steps_follow(dfa: &DFA)
    ensures events { EventsFollow dfa.now }
    ensures steps { StepsFollow dfa.now }
    ensures starts { StartsFollow dfa.now }
{
    states_are_bounded(dfa);
}

/// Until the cache is cleared, everything that a search uses stays cached.
pub fn known_stays(dfa: &DFA)
    ensures { KnownStays dfa.now }
{}

/// If no offset is skipped, what a search by steps answers at its first match, or at the end of the span, is what
/// `try_search_fwd` returns with an earliest input.
pub fn first_match_is_found(dfa: &DFA)
    ensures { FirstMatchIsFound dfa.now }
{
    reported_is_right(dfa.get_nfa());
}

/// Under `MatchKind::All`, `try_which_overlapping_matches` adds to a set exactly the patterns below its capacity that
/// match, those for which some path through the span ends in a match.
pub fn sets_have_matching(dfa: &DFA)
    ensures { SetsHaveMatching dfa.now }
{
    walk_is_right(dfa.get_nfa());
}

/// If the pieces that a search has read are the whole haystack, `end_pieces` answers what `try_search_fwd` returns for
/// it.
pub fn pieces_are_whole()
    ensures { PiecesAreWhole }
{}

/// If the pieces that a walk has read are the whole haystack, the calls of `walk_piece` and then `end_walk` report what
/// an overlapping search reports, match by match and in the same order.
pub fn walks_are_whole()
    ensures { WalksAreWhole }
{}

/// Under `MatchKind::All`, at each offset of a span, its end included, the state of a pass reports exactly the patterns
/// that match there. So the calls of a walk over a haystack in pieces, together with its end, report all patterns that
/// match, each offset once.
pub fn states_have_matching(dfa: &DFA)
    ensures { StatesHaveMatching dfa.now }
{
    let _states = dfa.get_nfa().states();
}

/// The effect of reading a piece, or of asking for the answer of a search in pieces, on what the cache knows: how often
/// it determinizes, what stays, when nothing is cleared, what is cached after it, and when the only error is out of
/// memory; that only the progress changes if everything it uses is cached. Even then, a piece with a quit byte is not
/// read, and reading may fail because the state after the piece cannot be held.
pub fn pieces_follow(dfa: &DFA)
    ensures pieces { PiecesFollow dfa.now }
    ensures answers { PieceAnswersFollow dfa.now }
{
    states_are_bounded(dfa);
}

/// The same for a call of a walk over a piece, which reads the piece up to the next match, and for asking for the end
/// of the walk. Both may fail because the state at which they stop cannot be held, but not once nothing can match.
pub fn walk_pieces_follow(dfa: &DFA)
    ensures pieces { WalkPiecesFollow dfa.now }
    ensures ends { WalkEndsFollow dfa.now }
{
    states_are_bounded(dfa);
}

/// The effect of a call of an overlapping search on what its cache knows: how often it determinizes, what stays, what
/// is cached after it, and that only the progress changes if everything it uses is cached.
pub fn calls_follow(dfa: &DFA)
    ensures { CallsFollow dfa.now }
{
    states_are_bounded(dfa);
    let _skips = dfa.skips();
}

/// The effect of the search for a set of patterns on what its cache knows: how often it determinizes, what stays, what
/// is cached after it, and that only the progress changes if everything it uses is cached.
pub fn sets_follow(dfa: &DFA)
    ensures { SetsFollow dfa.now }
{
    states_are_bounded(dfa);
    walk_is_right(dfa.get_nfa());
    let _skips = dfa.skips();
}
