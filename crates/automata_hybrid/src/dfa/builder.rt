//! The builder of lazy DFAs, and two DFAs that are ready to use: one that always matches, and one that never does.
ghost use Rattle.std.specs.Prelude.{◌≡◌, IfOk, IfErr, None};
ghost use Rattle.automata_config.specs.Options.{unset, overwritten};
ghost use Rattle.automata_config.specs.Settling.{settling_error};
ghost use Rattle.automata_hybrid.specs.Machines.Builds.{Builds, always_matching, never_matching, one_state};

use crate::dfa::DFA;
use automata_base::nfa::thompson::{Flags, NFA, State};
use automata_base::util::primitives::{PatternID, StateID};
use automata_config::config::Config;
use automata_config::error::BuildError;
use std::alloc::Global;
use std::marker::Model;

/// A builder of lazy DFAs, which holds their settings.
#[derive(Clone, Copy, Debug)]
pub struct Builder {
    config: Config,
}

impl Model for Builder {
    ghost use Rattle.automata_config.specs.Options.{Options};

    ghost Value = { Options };

    ghost view = { λ b. b.config };

    ghost inverse = { λ o. record { config = o } };
}

impl Default for Builder {
    ghost use Rattle.std.specs.Prelude.{◌≡◌};
    ghost use Rattle.automata_config.specs.Options.{unset};

    fn default() -> Builder
        ensures { result ≡ unset }
    {
        Builder::new()
    }
}

impl DFA {
    /// Returns a builder of lazy DFAs, with the default settings.
    ///
    /// ```rust
    /// let mut builder = DFA::builder();
    /// let config = DFA::config().match_kind(MatchKind::All);
    /// let dfa = builder.configure(config).build_from_nfa(nfa)?;
    /// let cache = dfa.create_cache()?;
    /// ```
    pub fn builder() -> Builder
        ensures { result ≡ unset }
    {
        Builder::new()
    }
}

impl Builder {
    ghost use Rattle.std.specs.Result.{result_err};

    /// Returns a builder with the default settings.
    pub fn new() -> Builder
        ensures { result ≡ unset }
    {
        Builder {
            config: Config::new(),
        }
    }

    /// Sets the options that are set in `config`, and keeps the others.
    ///
    /// ```rust
    /// let mut builder = DFA::builder();
    /// let fast = builder
    ///     .configure(DFA::config().quit(b';', true))
    ///     .build_from_nfa(nfa)?;
    /// ```
    pub fn configure(&mut self, config: Config) -> &mut Builder
        ensures same { result.ghost_name ≡ self.entry.ghost_name }
        ensures value { result.now ≡ overwritten self.old config }
    {
        self.config = self.config.overwrite(config);
        self
    }

    /// Builds the lazy DFA of an NFA. This does not allocate. An error does not return the NFA, so clone it first if
    /// you need it again.
    ///
    /// ```rust
    /// let sure = DFA::builder().build_from_nfa(nfa.clone()?)?;
    /// ```
    pub fn build_from_nfa(&self, nfa: NFA) -> Result<DFA, BuildError>
        ensures ok { IfOk result (Builds self.now nfa) }
        ensures refused { result_err result ≡ settling_error self.now nfa }
    {
        let settled = self.config.settle(&nfa)?;
        let dfa = DFA::of_settled(nfa, self.config, settled);
        Ok(dfa)
    }
}

/// Returns the DFA of an NFA with one state, with the default settings. The only error is out of memory.
fn of_state(alloc: Global, state: State, starts: Vec<StateID>) -> Result<DFA, BuildError>
    requires { settling_error unset (one_state state starts.items) ≡ None }
    ensures refused { IfErr result (λ e. e ≡ BuildError.OutOfMemory) }
    ensures built { IfOk result (Builds unset (one_state state starts.items)) }
{
    let mut states = Vec::new(alloc);
    states.push(state)?;
    let flags = Flags {
        utf8: false,
        reverse: false,
        line_terminator: b'\n',
    };
    match NFA::from_states(alloc, states, StateID::ZERO, StateID::ZERO, starts, flags) {
        Ok(nfa) => {
            let dfa = Builder::new().build_from_nfa(nfa)?;
            Ok(dfa)
        }
        Err(_) => Err(BuildError::OutOfMemory),
    }
}

impl DFA {
    /// Returns a DFA with one pattern, which matches at every offset. The only error is out of memory.
    pub fn always_match(alloc: Global) -> Result<DFA, BuildError>
        ensures refused { IfErr result (λ e. e ≡ BuildError.OutOfMemory) }
        ensures built { IfOk result (Builds unset always_matching) }
    {
        let mut starts = Vec::new(alloc);
        starts.push(StateID::ZERO)?;
        let dfa = of_state(
            alloc,
            State::Match {
                pattern: PatternID::ZERO,
            },
            starts,
        )?;
        Ok(dfa)
    }

    /// Returns a DFA with no patterns, which never matches. The only error is out of memory.
    pub fn never_match(alloc: Global) -> Result<DFA, BuildError>
        ensures refused { IfErr result (λ e. e ≡ BuildError.OutOfMemory) }
        ensures built { IfOk result (Builds unset never_matching) }
    {
        let dfa = of_state(alloc, State::Fail, Vec::new(alloc))?;
        Ok(dfa)
    }
}
