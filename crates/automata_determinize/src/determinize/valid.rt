//! The test of the parts of a powerset state: no pattern may repeat.
ghost use Rattle.std.specs.Prelude.{◌≡◌, IsTrue, ◌↔◌, nat_eq, false};
ghost use Rattle.std.specs.List.{AllByRecursion};
ghost use Rattle.automata_base.specs.Lists.{Distinct};

use automata_base::util::primitives::PatternID;

/// Whether the pattern is not one of these.
fn is_apart(id: PatternID, ids: &[PatternID]) -> bool
    ensures { IsTrue result ↔ AllByRecursion (λ other. nat_eq id other ≡ false) ids.now }
{
    ids.iter().all(|other| id != *other)
}

/// Whether no pattern repeats in the list.
pub fn are_distinct(ids: &[PatternID]) -> bool
    ensures { IsTrue result ↔ Distinct ids.now }
{
    let mut rest = ids;
    while let [first, others @ ..] = rest {
        if !is_apart(*first, others) {
            return false;
        }
        rest = others;
    }
    true
}
