//! Finds where the first match ends, by steps, or by a search if the steps stop.
ghost use Rattle.std.specs.Prelude.{◌≡◌, ◌≤◌, IfOk, IfSome, false, true};
ghost use Rattle.regex_automata.specs.Promises.{HoldsRow, IsCacheOf, IsFirstMatch, IsStepAt, StandsAt, match_kind_of};
ghost use Rattle.examples.specs.Steps.{IsEarliest};

use anyhow::Result;
use regex_automata::hybrid::dfa::{Cache, DFA};
use regex_automata::hybrid::{LazyStateID, SearchError, StepError};
use regex_automata::laws::{answers_agree, first_match_is_found};
use regex_automata::nfa::thompson::NFA;
use regex_automata::util::search::{HalfMatch, Input};

/// Two DFAs of one NFA: one that quits at `;`, and one to fall back on.
pub struct Finder {
    fast: DFA,
    fast_cache: Cache,
    sure: DFA,
    sure_cache: Cache,
    ghost fast_of: { IsCacheOf fast_cache fast },
    ghost sure_of: { IsCacheOf sure_cache sure },
    ghost nfa: { fast.nfa ≡ sure.nfa },
    ghost kind: { match_kind_of fast.config ≡ match_kind_of sure.config },
    ghost bytes: { fast.nfa.flags.utf8 ≡ false },
}

// With this, dropping the value is one call in the proof of a caller, not a step for each field.
impl Drop for Finder {
    fn drop(self) {
        let Self {
            fast: _fast,
            fast_cache: _fast_cache,
            sure: _sure,
            sure_cache: _sure_cache,
        } = self;
    }
}

/// Takes the step on the unit at an offset: a byte of the haystack, or its end.
fn step(
    dfa: &DFA,
    cache: &mut Cache,
    input: &Input<'_>,
    at: usize,
    id: LazyStateID,
) -> Result<LazyStateID, StepError>
    requires of { IsCacheOf cache.old dfa.now }
    requires stands { StandsAt dfa.now cache.old input.now at id }
    ensures of { IsCacheOf cache.new dfa.now }
    ensures row { IfOk result (HoldsRow cache.new) }
    ensures steps { IfOk result (IsStepAt dfa.now cache.new input.now at) }
{
    match input.haystack().get(at) {
        Some(byte) => dfa.next_state(cache, id, *byte),
        None => dfa.next_eoi_state(cache, id),
    }
}

/// Returns the first match in an input's span, if there is one, found by steps. The outer option is `None` if the steps
/// stop before that is known.
fn first_match(dfa: &DFA, cache: &mut Cache, input: &Input<'_>) -> Option<Option<HalfMatch>>
    requires of { IsCacheOf cache.old dfa.now }
    requires early { input.now.earliest ≡ true }
    requires undone { input.now.start ≤ input.now.end }
    ensures of { IsCacheOf cache.new dfa.now }
    ensures found { IfSome result (IsFirstMatch dfa.now input.now) }
{
    let Ok(mut id) = dfa.start_state_forward(cache, input) else {
        return None;
    };
    let mut at = input.start();
    'units: loop {
        let Ok(next) = step(dfa, cache, input, at, id) else {
            return None;
        };
        if next.is_match() {
            let pattern = dfa.match_pattern(cache, next, 0);
            return Some(Some(HalfMatch::new(pattern, at)));
        }
        if next.is_quit() {
            return None;
        }
        if next.is_dead() || at == input.end() {
            return Some(None);
        }
        id = next;
        at += 1;
    }
}

impl Finder {
    /// Returns a finder over fresh caches of two DFAs of the NFA.
    pub fn new(nfa: NFA) -> Result<Finder>
        requires { nfa.flags.utf8 ≡ false }
        ensures { IfOk result (λ finder. finder.sure.nfa ≡ nfa) }
    {
        let sure = DFA::builder().build_from_nfa(nfa.clone()?)?;
        let mut builder = DFA::builder();
        let fast = builder
            .configure(DFA::config().quit(b';', true))
            .build_from_nfa(nfa)?;
        let fast_cache = fast.create_cache()?;
        let sure_cache = sure.create_cache()?;
        Ok(Finder {
            fast,
            fast_cache,
            sure,
            sure_cache,
        })
    }

    /// Returns the end of the first match in a text, found by steps, or by a search if the steps stop.
    pub fn find(&mut self, text: &[u8]) -> Result<Option<HalfMatch>, SearchError>
        ensures same { self.new.sure ≡ self.old.sure }
        ensures found { IfOk result (IsEarliest self.old.sure text.now) }
    {
        answers_agree();
        first_match_is_found(&self.fast);
        let input = Input::new(text).earliest(true);
        match first_match(&self.fast, &mut self.fast_cache, &input) {
            Some(found) => Ok(found),
            None => self.sure.try_search_fwd(&mut self.sure_cache, &input),
        }
    }
}
