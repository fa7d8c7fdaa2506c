//! Laws about NFAs. Each function does nothing: its contract is the law.
ghost use Rattle.automata_base.specs.Nfas.Drafts.{PrefixesSkipLazily};
ghost use Rattle.automata_base.specs.Laws.KeptUnions.{AcyclicKeepsCycles, UnionsKeepCycles, UnionsAreDropped};

use crate::nfa::thompson::NFA;

/// An NFA keeps its cycles if no cycle of epsilon edges passes a look, and also if it keeps unions. If it does not keep
/// unions, its powerset states have only byte, look and match states.
pub fn cycles_are_kept()
    ensures acyclic { AcyclicKeepsCycles }
    ensures unions { UnionsKeepCycles }
    ensures dropped { UnionsAreDropped }
{}

/// `NFA::skips_lazily` is true of an NFA that starts at the lazy loop which a builder adds, if the states before the
/// loop lead only to each other.
pub fn prefixes_skip_lazily()
    ensures { PrefixesSkipLazily }
{}
