//! Laws about reversed, merged, flattened and anchored NFAs. Each function does nothing: its contract is the law.
ghost use Rattle.automata_transform.specs.Laws.AnchoredStarts.{AnchoredAnswerAlike, AnchoredKeepUtf8};
ghost use Rattle.automata_transform.specs.Laws.AnchoredStarts.{AnchoredPairsAlike};
ghost use Rattle.automata_transform.specs.Laws.FlattenedChains.{FlattenedAnswerAlike, FlattenedKeepUtf8};
ghost use Rattle.automata_transform.specs.Laws.FlattenedChains.{FlattenedPairsAlike};
ghost use Rattle.automata_transform.specs.Nfas.Mirrors.{PatternsAreReversed, ReversedIsTrue};
ghost use Rattle.automata_transform.specs.Laws.MergedUnions.{MergedAcceptAlike, MergedAnswerAlike, MergedBeginAlike};
ghost use Rattle.automata_transform.specs.Laws.MergedUnions.{MergedKeepUtf8, MergedReadUtf8, MergedStayAcyclic};
ghost use Rattle.automata_transform.specs.Laws.MergedUnions.{MergedPairsAlike, MergedStayPaired};

use automata_base::nfa::thompson::NFA;

/// An NFA that skips lazily and its reversed NFA are a true pair: each edge of one is an edge of the other in the
/// opposite direction, with its look flipped. In the reversed NFA, the paths of a pattern begin at the pattern's
/// matches, and end where the paths of the NFA begin.
pub fn reversed_is_true()
    ensures pair { ReversedIsTrue }
    ensures patterns { PatternsAreReversed }
{}

/// Merging unions changes no answer: the paths of an NFA correspond to those of the merged NFA, in the same order. The
/// other properties that searches and regexes need carry over: no cycle of epsilon edges passes a look, the NFA keeps
/// the UTF-8 promise, the empty match begins alike, and it is the reverse NFA of a true pair.
pub fn merged_answers_alike()
    ensures answers { MergedAnswerAlike }
    ensures accepts { MergedAcceptAlike }
    ensures pairs { MergedPairsAlike }
    ensures acyclic { MergedStayAcyclic }
    ensures utf8 { MergedKeepUtf8 }
    ensures reads { MergedReadUtf8 }
    ensures begins { MergedBeginAlike }
    ensures pair { MergedStayPaired }
{}

/// An NFA that `anchored` returns gives the same answers as the given one: if its matches begin only at the start of a
/// haystack, an accepting path skips no byte in the lazy loop. The accepting paths end at the same offsets, and
/// the NFA keeps the UTF-8 promise exactly if the given one does.
pub fn anchored_answers_alike()
    ensures answers { AnchoredAnswerAlike }
    ensures pairs { AnchoredPairsAlike }
    ensures utf8 { AnchoredKeepUtf8 }
{}

/// Flattening chains of unions changes no answer: the paths of an NFA correspond to those of the flattened NFA, in the
/// same order. The accepting paths end at the same offsets, and the NFA keeps the UTF-8 promise exactly if the given one
/// does.
pub fn flattened_answers_alike()
    ensures answers { FlattenedAnswerAlike }
    ensures pairs { FlattenedPairsAlike }
    ensures utf8 { FlattenedKeepUtf8 }
{}
