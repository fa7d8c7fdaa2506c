//! Laws by which a search may begin past offsets where no match begins. Each function does nothing: its contract is the
//! law.
ghost use Rattle.prefilters.specs.Needles.{BeginningsHaveNeedles, HeadsLead, InnerAreNear, MeaningBeginsNone};
ghost use Rattle.prefilters.specs.Needles.{NeedlesGrow, NeedlesJoin, NeedlesMeanNone, StartsAreNear};
ghost use Rattle.prefilters.specs.Skipping.{AnchoredIsSpan, AnswersMove, NoneIsFound, SelectionsMove, SpansMove};
ghost use Rattle.prefilters.specs.Skipping.{TruthsMove};

/// A search may skip the offsets before the first one where a match begins: from there on it selects, answers and finds
/// the same. If no match begins in the span, it finds none.
pub fn skipped_offsets_change_nothing()
    ensures selections { SelectionsMove }
    ensures answers { AnswersMove }
    ensures spans { SpansMove }
    ensures truths { TruthsMove }
    ensures none { NoneIsFound }
{}

/// An anchored search at the first offset where a match begins finds that match: no reverse search is needed.
pub fn anchored_search_is_enough()
    ensures { AnchoredIsSpan }
{}

/// Where no needle is near, no match begins that has one near its start: needles with which matches begin, that short
/// matches contain, or that come after a head of known bytes. Where no match begins that the patterns mean, no path of their NFA begins.
pub fn needles_may_skip()
    ensures starts { StartsAreNear }
    ensures inner { InnerAreNear }
    ensures heads { HeadsLead }
    ensures needles { NeedlesMeanNone }
    ensures meaning { MeaningBeginsNone }
    ensures join { NeedlesJoin }
    ensures grow { NeedlesGrow }
    ensures beginnings { BeginningsHaveNeedles }
{}
