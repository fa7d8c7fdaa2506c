ghost use Rattle.std.specs.Prelude.{IfOk};
ghost use Rattle.std.specs.Result.{result_err};
ghost use Rattle.automata_base.specs.Haystacks.Input.{IsValidInput};
ghost use Rattle.regex_automata.specs.Spans.IsMatch.{IsAsked};
ghost use Rattle.regex_automata.specs.Spans.Contracts.{IsTruthOf, IsTruthReported};
ghost use Rattle.regex_automata.specs.Spans.Runs.{IsTruthRun};
ghost use Rattle.regex_automata.specs.Regexes.Caches.{AreCachesOf};

use crate::hybrid::regex::{Cache, Regex};
use automata_base::util::search::Input;
use automata_config::error::SearchError;
use automata_determinize::laws::reported_is_right;

impl Regex {
    /// Returns the input that `is_match` searches. It is earliest, unless the first match may be skipped.
    fn asked<'h>(&self, input: &Input<'h>) -> Input<'h>
        ensures asked { IsAsked self.now.forward input.now result }
        ensures valid { IsValidInput input.now }
    {
        let skips = self.forward.skips();
        input.copied().earliest(!skips)
    }

    /// Whether there is a match, whatever the input's earliest flag. It uses only the forward DFA, and returns the
    /// errors of its search.
    pub fn is_match(&self, cache: &mut Cache, input: &Input<'_>) -> Result<bool, SearchError>
        requires { AreCachesOf cache.old self.now }
        ensures of { AreCachesOf cache.new self.now }

        // What it returns, by the ordered paths and by the passes, whatever the caches.
        ensures returned { IsTruthOf self.now input.now result }
        ensures found { IfOk result (IsTruthReported self.now.forward input.now) }

        // What it does to the caches, and why it fails.
        ensures effect { IsTruthRun self.now input.now cache.old cache.new (result_err result) }
    {
        reported_is_right(self.forward.get_nfa());
        let asked = self.asked(input);
        let found = self.forward.try_search_fwd(&mut cache.forward, &asked)?;
        Ok(found.is_some())
    }
}
