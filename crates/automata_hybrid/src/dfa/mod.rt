//! The lazy DFA itself: its NFA, settings, byte classes and quit bytes. Its states are in a `Cache`, which only the
//! submodules use: `caches` creates and resets caches, and `start` and `step` search step by step. `builder` builds
//! DFAs.
ghost use Rattle.std.specs.Prelude.{◌≡◌, ◌<◌, ◌≤◌, true, false, slice_index, length};
ghost use Rattle.automata_base.specs.ByteClasses.Classes.{AreClasses, class_in, eoi_class, is_quit};
ghost use Rattle.automata_determinize.specs.Powersets.Passes.{IsUnit};
ghost use Rattle.automata_config.specs.Options.{unset};
ghost use Rattle.automata_config.specs.Settling.{IsSettled};
ghost use Rattle.automata_hybrid.specs.Cache.Ids.{quit_id, unknown_id};
ghost use Rattle.automata_hybrid.specs.Machines.Builds.{built_machine};
ghost use Rattle.automata_hybrid.specs.Machines.Machine.{quits_on, unit_class};
ghost use Rattle.automata_hybrid.specs.Private.Machines.Machine.{IsMachine};
ghost use Rattle.automata_hybrid.specs.Searches.Passes.{Skips};

pub mod builder;
mod caches;
mod start;
mod step;

use automata_base::nfa::thompson::NFA;
use automata_base::util::alphabet::ByteClasses;
use automata_base::util::byte_set::ByteSet;
use automata_config::config::{Config, Settled};
use std::alloc::AllocError;
use std::marker::Model;

/// A lazy DFA: an NFA with its settings, byte classes and quit bytes, and the capacity of its caches. States,
/// transitions and start slots are in a `Cache`.
#[derive(Debug)]
pub struct DFA {
    nfa: NFA,
    config: Config,
    classes: ByteClasses,
    quits: ByteSet,
    capacity: usize,
}

// An owner drops this with one call, so that its proof has no step for each field.
impl Drop for DFA {
    fn drop(self) {
        let Self {
            nfa: _nfa,
            config: _config,
            classes: _classes,
            quits: _quits,
            capacity: _capacity,
        } = self;
    }
}

impl Model for DFA {
    ghost use Rattle.automata_hybrid.specs.Machines.Machine.{Machine};
    ghost use Rattle.automata_hybrid.specs.Private.Machines.Machine.{IsMachine};

    ghost Value = { Machine };

    ghost use Rattle.automata_hybrid.specs.Private.Machines.Fields.{machine_of};

    ghost view = { machine_of };

    ghost invariant = { λ d. IsMachine (machine_of d) };
}

impl Clone for DFA {
    ghost is_clone = { λ a b. b ≡ a };

    fn clone(&self) -> Result<DFA, AllocError> {
        let nfa = self.nfa.clone()?;
        Ok(DFA {
            nfa,
            config: self.config,
            classes: self.classes,
            quits: self.quits,
            capacity: self.capacity,
        })
    }
}

impl DFA {
    /// Returns the default settings, to set options on.
    pub fn config() -> Config
        ensures { result ≡ unset }
    {
        Config::new()
    }

    /// Returns the DFA of an NFA, its settings, and the byte classes, quit set and capacity that they settle for this
    /// NFA.
    pub(crate) fn of_settled(nfa: NFA, config: Config, settled: Settled) -> DFA
        requires { IsSettled config nfa settled }
        ensures { result ≡ built_machine config nfa settled }
    {
        let classes = *settled.classes();
        let _ = classes.stride();
        let _ = classes.eoi();
        DFA {
            nfa,
            config,
            classes,
            quits: *settled.quit_set(),
            capacity: settled.capacity(),
        }
    }

    /// Returns the classes of bytes that the DFA distinguishes.
    pub fn byte_classes(&self) -> &ByteClasses
        ensures { result.now ≡ self.now.classes }
    {
        &self.classes
    }

    /// Returns the settings that the DFA was built with.
    pub fn get_config(&self) -> &Config
        ensures { result.now ≡ self.now.config }
    {
        &self.config
    }

    /// Returns the number of heap bytes that the DFA takes in addition to its NFA, which is 0. `Cache::memory_usage`
    /// returns those of its states.
    pub fn memory_usage(&self) -> usize
        ensures { result ≡ 0 }
    {
        0
    }

    /// Returns the NFA that the DFA was built from.
    pub fn get_nfa(&self) -> &NFA
        ensures { result.now ≡ self.now.nfa }
    {
        &self.nfa
    }

    /// Whether matches at offsets inside a character are skipped, which is so if the NFA is in UTF-8 mode and matches
    /// the empty string.
    pub fn skips(&self) -> bool
        ensures yes { result ≡ true → Skips self.now }
        ensures no { result ≡ false → Skips self.now → ⊥ }
    {
        let nfa = self.get_nfa();
        if !nfa.is_utf8() {
            return false;
        }
        nfa.has_empty()
    }

    /// Returns the number of patterns.
    pub fn pattern_len(&self) -> usize
        ensures { result ≡ length self.now.nfa.start_pattern }
    {
        self.nfa.pattern_starts().len()
    }

    /// Returns the class of a byte.
    #[inline(always)]
    pub(crate) fn class_of(&self, byte: u8) -> usize
        ensures value { result ≡ class_in self.now.classes byte }
        ensures below { result < self.now.stride }
        ensures small { self.now.stride ≤ 512 }
        ensures quit { is_quit self.now.quits byte ≡ true
            → slice_index self.now.template result ≡ quit_id self.now.stride }
        ensures free { is_quit self.now.quits byte ≡ false → slice_index self.now.template result ≡ unknown_id }
    {
        usize::from(self.classes.get(byte))
    }

    /// Returns the class of the end of the haystack.
    pub(crate) fn end_class(&self) -> usize
        ensures value { result ≡ eoi_class self.now.classes }
        ensures below { result < self.now.stride }
        ensures small { self.now.stride ≤ 512 }
        ensures free { slice_index self.now.template result ≡ unknown_id }
    {
        self.classes.eoi()
    }

    /// Returns the class of a byte, or of the end of the haystack.
    #[inline(always)]
    pub(crate) fn unit_class(&self, unit: Option<u8>) -> usize
        ensures value { result ≡ unit_class self.now unit }
        ensures unit { IsUnit unit }
        ensures below { result < self.now.stride }
        ensures small { self.now.stride ≤ 512 }
        ensures quit { quits_on self.now unit ≡ true
            → slice_index self.now.template result ≡ quit_id self.now.stride }
        ensures free { quits_on self.now unit ≡ false → slice_index self.now.template result ≡ unknown_id }
    {
        match unit {
            Some(byte) => self.class_of(byte),
            None => self.end_class(),
        }
    }

    /// Returns the quit bytes.
    pub(crate) fn quit_set(&self) -> &ByteSet
        ensures { result.now ≡ self.now.quits }
    {
        &self.quits
    }

    /// Whether a byte is a quit byte.
    #[inline(always)]
    pub(crate) fn quits(&self, byte: u8) -> bool
        ensures { result ≡ is_quit self.now.quits byte }
    {
        self.quits.contains(byte)
    }

    /// Returns the capacity of the DFA's caches.
    pub(crate) fn capacity(&self) -> usize
        ensures { result ≡ self.now.capacity }
    {
        self.capacity
    }

    /// Reveals the invariant of a DFA to a proof. It does nothing.
    pub(crate) fn reveal_invariant(&self)
        ensures machine { IsMachine self.now }
        ensures rising { AreClasses self.now.classes }
    {
        let _len = self.classes.alphabet_len();
    }
}
