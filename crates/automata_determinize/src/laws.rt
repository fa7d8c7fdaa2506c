//! The laws that searches rely on. Each function does nothing: its contract is the law.
ghost use Rattle.automata_determinize.specs.Laws.LateIsRight.{SearchesAreRight, WalksAreRight, NearestEndsAreRight};
ghost use Rattle.automata_determinize.specs.Laws.LateIsRight.{EndsAreRight, PairsAreRight};
ghost use Rattle.automata_determinize.specs.Laws.StartIsRight.{StartsAreRight, SpansAreFound, AreOne};
ghost use Rattle.automata_determinize.specs.Laws.StartIsRight.{IterationsAreRight};
ghost use Rattle.automata_determinize.specs.Laws.StartIsRight.{AllEndsRise, MatchIffFound, BackMeetsNone};
ghost use Rattle.automata_determinize.specs.Laws.Steps.{ClassesStepAlike, ClassesQuitAlike, StartsAreAlike};
ghost use Rattle.automata_determinize.specs.Laws.Steps.{DeadStaysDead};
ghost use Rattle.automata_determinize.specs.Laws.Steps.{PassesSelect, PassesFindNearest, PassesFindFarthest};
ghost use Rattle.automata_determinize.specs.Laws.Steps.{PowersetStartsAreRight, SuccessorsAreRight};
ghost use Rattle.automata_determinize.specs.Answers.OfPasses.{ReportedEndsAreRight, ReportedIsOne, ReportedIsRight};
ghost use Rattle.automata_determinize.specs.Laws.Walks.{AllPairsAreReported, OverlappingIsReported, WalkIsRight};
ghost use Rattle.automata_determinize.specs.Laws.Walks.{WalksAreOne, WalksAreReported};
ghost use Rattle.automata_determinize.specs.Answers.Within.{StatesReportOwn, ReportedLiesWithin, WalkLiesWithin};

use automata_base::nfa::thompson::NFA;

/// Delayed matches are sound: a pass, which delays matches by one byte and decides looks when the next byte is known,
/// reports what the ordered paths select, if the NFA keeps its cycles. For every NFA, an earliest search reports the
/// nearest end. Under `MatchKind::All`, any other search reports the farthest end, and an overlapping search the
/// patterns of all accepting paths.
pub fn late_is_right()
    ensures searches { SearchesAreRight }
    ensures walks { WalksAreRight }
    ensures nearest { NearestEndsAreRight }
    ensures ends { EndsAreRight }
    ensures pairs { PairsAreRight }
{}

/// The reverse search finds the right start: over a true pair whose forward NFA keeps the UTF-8 promise, the reverse
/// pass finds where the chosen path began. Every reverse NFA, even one with look cycles, finds the farthest place, and
/// that is enough.
pub fn start_is_right()
    ensures starts { StartsAreRight }
    ensures found { SpansAreFound }
    ensures one { AreOne }
    ensures iterations { IterationsAreRight }
    ensures rise { AllEndsRise }
    ensures matches { MatchIffFound }
    ensures quits { BackMeetsNone }
{}

/// The functions with which contracts retrace the powerset construction agree with its relations: `successor` gives the
/// only successor of a state, and `start_state_of` the only start state of a search. The patterns of both are patterns
/// of the NFA.
pub fn steps_are_right(nfa: &NFA)
    ensures successors { SuccessorsAreRight nfa.now }
    ensures starts { PowersetStartsAreRight nfa.now }
    ensures own { StatesReportOwn nfa.now }
{
    let _states = nfa.states();
}

/// Steps do not distinguish the bytes of a class, and starts do not distinguish look-behind bytes of one kind. So one
/// transition serves a class of bytes, and one start state all look-behind bytes of a kind.
pub fn steps_are_alike()
    ensures classes { ClassesStepAlike }
    ensures quits { ClassesQuitAlike }
    ensures starts { StartsAreAlike }
    ensures dead { DeadStaysDead }
{}

/// A pass, which reads byte by byte, reports what the ordered paths through the tape select, if the NFA keeps its
/// cycles. For every NFA, an earliest pass reports the nearest end, and under `MatchKind::All` any other pass reports
/// the farthest end. Passes report at most one answer, even if offsets inside a UTF-8 encoded character are skipped.
pub fn passes_report_paths()
    ensures selects { PassesSelect }
    ensures nearest { PassesFindNearest }
    ensures farthest { PassesFindFarthest }
    ensures one { ReportedIsOne }
{}

/// If the NFA keeps its cycles, passes report the answer of the ordered paths, with the same offsets inside characters
/// skipped. For every NFA, the answer is the nearest end in an earliest search, and under `MatchKind::All` the farthest
/// end in any other one. It lies in the span, and its pattern is a pattern of the NFA.
pub fn reported_is_right(nfa: &NFA)
    ensures answer { ReportedIsRight nfa.now }
    ensures ends { ReportedEndsAreRight nfa.now }
    ensures within { ReportedLiesWithin nfa.now }
{
    let _states = nfa.states();
}

/// The pass of an overlapping search reports exactly one list. If the NFA keeps its cycles, it is the list of the
/// ordered paths. For every NFA, under `MatchKind::All`, it has the pairs of all accepting paths. Each pair lies in the
/// span, and its pattern is a pattern of the NFA.
pub fn walk_is_right(nfa: &NFA)
    ensures reported { WalksAreReported nfa.now }
    ensures one { WalksAreOne }
    ensures right { WalkIsRight nfa.now }
    ensures overlapping { OverlappingIsReported nfa.now }
    ensures all { AllPairsAreReported nfa.now }
    ensures within { WalkLiesWithin nfa.now }
{
    let _states = nfa.states();
    let _utf8 = nfa.is_utf8();
    let _empty = nfa.has_empty();
}
