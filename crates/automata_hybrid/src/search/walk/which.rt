//! The set of the patterns that match, found by one forward overlapping search.
ghost use Rattle.std.specs.Prelude.{OnOk};
ghost use Rattle.std.specs.Result.{result_err};
ghost use Rattle.automata_base.specs.Haystacks.Input.{IsValidInput};
ghost use Rattle.automata_hybrid.specs.Cache.Caches.{IsCacheOf};
ghost use Rattle.automata_hybrid.specs.Walks.Contracts.{IsWhich, JoinsReported};
ghost use Rattle.automata_hybrid.specs.Private.Walks.Contracts.{IsSetReported};
ghost use Rattle.automata_hybrid.specs.Known.Stores.{known_of};
ghost use Rattle.automata_hybrid.specs.Known.Walks.{IsSetRun};

use crate::cache::Cache;
use crate::dfa::DFA;
use crate::search::walk::overlapping::report_next;
use crate::search::walk::{Cursor, Held};
use automata_base::util::pattern_set::PatternSet;
use automata_base::util::search::{Direction, Input};
use automata_config::error::SearchError;
use automata_determinize::laws::walk_is_right;

impl DFA {
    /// Adds the patterns of all overlapping matches to a set; patterns that are not below its capacity are ignored.
    /// With an earliest input it adds only the pattern of the first match. After an error the set also has the patterns
    /// that were reported before the error.
    ///
    /// ```rust
    /// let mut found = PatternSet::new(alloc, self.dfa.pattern_len())?;
    /// let input = Input::new(bytes);
    /// self.dfa
    ///     .try_which_overlapping_matches(&mut self.cache, &input, &mut found)?;
    /// ```
    pub fn try_which_overlapping_matches(
        &self,
        cache: &mut Cache,
        input: &Input<'_>,
        patset: &mut PatternSet,
    ) -> Result<(), SearchError>
        requires { IsCacheOf cache.old self.now }
        ensures of { IsCacheOf cache.new self.now }

        // What is added to the set, by paths and by passes, whatever the cache.
        ensures which { IsWhich self.now input.now patset.old patset.new result }
        ensures found { OnOk result (JoinsReported self.now input.now patset.old patset.new) }

        // What it does to the cache, why it fails, and what the set has then.
        ensures effect { IsSetRun self.now input.now patset.old patset.new (known_of cache.old) (known_of cache.new)
            (result_err result) }
    {
        collect(self, cache, input, patset)
    }
}

/// Adds the pattern of one match after another, until no match is left, the set is full, or an earliest search has
/// found one.
fn collect(
    dfa: &DFA,
    cache: &mut Cache,
    input: &Input<'_>,
    patset: &mut PatternSet,
) -> Result<(), SearchError>
    requires { IsCacheOf cache.old dfa.now }
    ensures of { IsCacheOf cache.new dfa.now }
    ensures reported { IsSetReported dfa.now input.now patset.old patset.new result }
    ensures effect { IsSetRun dfa.now input.now patset.old patset.new (known_of cache.old) (known_of cache.new)
        (result_err result) }
    ensures valid { IsValidInput input.now }
{
    cache.reveal_invariant_of(dfa);
    walk_is_right(dfa.get_nfa());
    let mut walk = Cursor::start();
    let mut held = Held::Row(None);
    'walk: loop {
        report_next(dfa, cache, input, Direction::Forward, &mut walk, &mut held)?;
        let Some(half) = walk.get_match() else {
            return Ok(());
        };
        let _ = patset.try_insert(half.pattern());
        if patset.is_full() {
            return Ok(());
        }
        if input.get_earliest() {
            return Ok(());
        }
    }
}
