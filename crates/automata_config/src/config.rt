//! The options of a lazy DFA, and what they settle for an NFA.
ghost use Rattle.std.specs.Prelude.{◌≡◌, ◌<◌, ◌||◌, ℕ, length, nat_le};
ghost use Rattle.automata_base.specs.ByteClasses.Classes.{is_quit};
ghost use Rattle.automata_base.specs.Haystacks.LookSets.{truth_of};
ghost use Rattle.std.specs.List.{list_any};
ghost use Rattle.automata_config.specs.Settling.{has_unicode_word, holds_non_ascii};

use crate::accounting::{fixed_cost, greatest_offset, max_cost, minimum_capacity, start_slots};
use crate::error::BuildError;
use automata_base::nfa::thompson::NFA;
use automata_base::util::alphabet::ByteClasses;
use automata_base::util::byte_set::ByteSet;
use automata_base::util::look::{Look, LookSet};
use automata_base::util::search::MatchKind;
use std::marker::Model;

/// The options of a lazy DFA. An option that is not set has its default.
#[derive(Clone, Copy, Debug, Default)]
pub struct Config {
    match_kind: Option<MatchKind>,
    starts_for_each_pattern: Option<bool>,
    byte_classes: Option<bool>,
    unicode_word_boundary: Option<bool>,
    quits: Option<ByteSet>,
    specialize_start_states: Option<bool>,
    cache_capacity: Option<usize>,
    cache_limit: Option<usize>,
    skip_cache_capacity_check: Option<bool>,
    minimum_cache_clear_count: Option<Option<usize>>,
    minimum_bytes_per_state: Option<Option<usize>>,
}

impl Model for Config {
    ghost use Rattle.automata_config.specs.Options.{Options};

    ghost Value = { Options };

    ghost view = { λ c. record {
      match_kind = c.match_kind;
      starts_for_each_pattern = c.starts_for_each_pattern;
      byte_classes = c.byte_classes;
      unicode_word_boundary = c.unicode_word_boundary;
      quits = c.quits;
      specialize_start_states = c.specialize_start_states;
      cache_capacity = c.cache_capacity;
      cache_limit = c.cache_limit;
      skip_cache_capacity_check = c.skip_cache_capacity_check;
      minimum_cache_clear_count = c.minimum_cache_clear_count;
      minimum_bytes_per_state = c.minimum_bytes_per_state;
    } };

    ghost inverse = { λ o. record {
      match_kind = o.match_kind;
      starts_for_each_pattern = o.starts_for_each_pattern;
      byte_classes = o.byte_classes;
      unicode_word_boundary = o.unicode_word_boundary;
      quits = o.quits;
      specialize_start_states = o.specialize_start_states;
      cache_capacity = o.cache_capacity;
      cache_limit = o.cache_limit;
      skip_cache_capacity_check = o.skip_cache_capacity_check;
      minimum_cache_clear_count = o.minimum_cache_clear_count;
      minimum_bytes_per_state = o.minimum_bytes_per_state;
    } };
}

impl Config {
    ghost use Rattle.std.specs.Prelude.{◌≡◌, ◌≤◌, ◌&&◌, not, nat_lt, length, Some, None, if◌then◌else◌, IfOk, IsTrue};
    ghost use Rattle.std.specs.Prelude.{slice_set};
    ghost use Rattle.std.specs.Result.{result_err};
    ghost use Rattle.automata_config.specs.Settling.{settled_minimum, settled_stride, settled_quits, greatest_offset};
    ghost use Rattle.automata_config.specs.Settling.{capacity_for};
    ghost use Rattle.automata_config.specs.Settling.{is_unsupported, settling_error, IsSettled};
    ghost use Rattle.automata_base.specs.ByteClasses.Classes.{is_quit};
    ghost use Rattle.automata_config.specs.Options.{unset, overwritten};
    ghost use Rattle.automata_config.specs.Options as options;

    /// Returns a configuration in which no option is set.
    pub fn new() -> Config
        ensures { result ≡ unset }
    {
        Config::default()
    }

    /// Sets which matches a search reports. The default is `MatchKind::LeftmostFirst`: the match of the preferred path.
    /// Choose `MatchKind::All` for all overlapping matches, for sets of patterns, and for the DFA of a reversed NFA.
    ///
    /// ```rust
    /// let mut builder = DFA::builder();
    /// let config = DFA::config().match_kind(MatchKind::All);
    /// let dfa = builder.configure(config).build_from_nfa(nfa)?;
    /// ```
    pub fn match_kind(self, kind: MatchKind) -> Config
        ensures { result ≡ record self { match_kind = Some kind } }
    {
        Config {
            match_kind: Some(kind),
            ..self
        }
    }

    /// Sets whether each pattern has its own start states, so that a search can be anchored to it by
    /// `Anchored::Pattern`. By default it does not, and such a search is an error. The six additional start states for
    /// each pattern raise the minimum capacity of a cache.
    pub fn starts_for_each_pattern(self, yes: bool) -> Config
        ensures { result ≡ record self { starts_for_each_pattern = Some yes } }
    {
        Config {
            starts_for_each_pattern: Some(yes),
            ..self
        }
    }

    /// Sets whether bytes that the NFA does not distinguish share a class, which makes rows shorter. By default they
    /// do. Otherwise each byte is its own class, which only helps to debug a DFA.
    pub fn byte_classes(self, yes: bool) -> Config
        ensures { result ≡ record self { byte_classes = Some yes } }
    {
        Config {
            byte_classes: Some(yes),
            ..self
        }
    }

    /// Sets whether Unicode word boundaries are heuristically enabled. If the NFA has one, it is then treated as an
    /// ASCII word boundary, and the bytes from 0x80 on are quit bytes, so that a search fails at such a byte. By
    /// default they are not enabled: an NFA that has one is an error, unless all these bytes are quit bytes.
    pub fn unicode_word_boundary(self, yes: bool) -> Config
        ensures { result ≡ record self { unicode_word_boundary = Some yes } }
    {
        Config {
            unicode_word_boundary: Some(yes),
            ..self
        }
    }

    /// Whether `quit` accepts these arguments: with `unicode_word_boundary`, no byte from 0x80 on may be removed.
    pub fn allows_quit(&self, byte: u8, yes: bool) -> bool
        ensures { result ≡ options.allows_quit self.now byte yes }
    {
        !(self.get_unicode_word_boundary() && byte >= 0x80 && !yes)
    }

    /// Adds a byte to the quit set if `yes` is true, and removes it otherwise. A search stops with an error at a byte
    /// of this set. By default the set is empty. With `unicode_word_boundary`, no byte from 0x80 on may be removed;
    /// `allows_quit` tests this.
    ///
    /// A search that meets a quit byte returns an error with its offset. A caller that has a second engine can use it
    /// for the haystacks that this DFA is not meant for:
    ///
    /// ```rust
    /// let fast = builder
    ///     .configure(DFA::config().quit(b';', true))
    ///     .build_from_nfa(nfa)?;
    /// ```
    pub fn quit(self, byte: u8, yes: bool) -> Config
        requires { IsTrue (options.allows_quit self byte yes) }
        ensures { result ≡ record self { quits = Some (slice_set (options.quits_of self) byte yes) } }
    {
        Config {
            quits: Some(self.quit_set().with(byte, yes)),
            ..self
        }
    }

    /// Sets whether the IDs of start states are tagged, so that `LazyStateID::is_start` is true of them. By default
    /// they are not. Only a search by your own steps can use the tag.
    pub fn specialize_start_states(self, yes: bool) -> Config
        ensures { result ≡ record self { specialize_start_states = Some yes } }
    {
        Config {
            specialize_start_states: Some(yes),
            ..self
        }
    }

    /// Sets the most bytes that a cache may account for. The default is 2 MiB. A capacity below
    /// `get_minimum_cache_capacity` is an error when a DFA is built, unless `cache_limit` raises it or
    /// `skip_cache_capacity_check` is set.
    ///
    /// A full cache is cleared, and its states are determinized again, so a small cache costs time.
    pub fn cache_capacity(self, bytes: usize) -> Config
        ensures { result ≡ record self { cache_capacity = Some bytes } }
    {
        Config {
            cache_capacity: Some(bytes),
            ..self
        }
    }

    /// Sets the bytes up to which the capacity is raised for an NFA whose minimum is large: each DFA then has the
    /// configured capacity, or four times its minimum if that is more, but not more than this limit. The default is 0,
    /// so that the capacity is not raised.
    ///
    /// A cache that holds only few states is cleared again and again. With a limit, large NFAs get large caches, and
    /// others do not.
    pub fn cache_limit(self, bytes: usize) -> Config
        ensures { result ≡ record self { cache_limit = Some bytes } }
    {
        Config {
            cache_limit: Some(bytes),
            ..self
        }
    }

    /// Sets whether a capacity below the minimum is raised to it. By default such a capacity is an error.
    pub fn skip_cache_capacity_check(self, yes: bool) -> Config
        ensures { result ≡ record self { skip_cache_capacity_check = Some yes } }
    {
        Config {
            skip_cache_capacity_check: Some(yes),
            ..self
        }
    }

    /// Sets the number of clears after which a search may give up instead of clearing the cache once more. With `None`,
    /// the default, it never gives up. Set it if you have another engine to fall back on.
    pub fn minimum_cache_clear_count(self, min: Option<usize>) -> Config
        ensures { result ≡ record self { minimum_cache_clear_count = Some min } }
    {
        Config {
            minimum_cache_clear_count: Some(min),
            ..self
        }
    }

    /// Sets how many bytes must have been searched since the last clear, for each state of the cache, to keep a search
    /// from giving up. With `None`, the default, no number of bytes does. The setting counts only if
    /// `minimum_cache_clear_count` is set.
    pub fn minimum_bytes_per_state(self, min: Option<usize>) -> Config
        ensures { result ≡ record self { minimum_bytes_per_state = Some min } }
    {
        Config {
            minimum_bytes_per_state: Some(min),
            ..self
        }
    }

    /// Returns which matches a search reports. The default is `MatchKind::LeftmostFirst`.
    pub fn get_match_kind(&self) -> MatchKind
        ensures { result ≡ options.match_kind_of self.now }
    {
        self.match_kind.unwrap_or(MatchKind::LeftmostFirst)
    }

    /// Whether each pattern has its own start states. By default it does not.
    pub fn get_starts_for_each_pattern(&self) -> bool
        ensures { result ≡ options.starts_for_each_pattern_of self.now }
    {
        self.starts_for_each_pattern.unwrap_or(false)
    }

    /// Whether bytes that the NFA does not distinguish share a class. By default they do.
    pub fn get_byte_classes(&self) -> bool
        ensures { result ≡ options.byte_classes_of self.now }
    {
        self.byte_classes.unwrap_or(true)
    }

    /// Whether Unicode word boundaries are treated as ASCII ones, with the bytes from 0x80 on as quit bytes. By default
    /// they are not.
    pub fn get_unicode_word_boundary(&self) -> bool
        ensures { result ≡ options.unicode_word_boundary_of self.now }
    {
        self.unicode_word_boundary.unwrap_or(false)
    }

    /// Whether the byte was added to the quit set. Bytes that `unicode_word_boundary` adds are not included.
    pub fn get_quit(&self, byte: u8) -> bool
        ensures { result ≡ is_quit (options.quits_of self.now) byte }
    {
        self.quit_set().contains(byte)
    }

    /// Whether IDs of start states are tagged. By default they are not.
    pub fn get_specialize_start_states(&self) -> bool
        ensures { result ≡ options.specialize_start_states_of self.now }
    {
        self.specialize_start_states.unwrap_or(false)
    }

    /// Returns the most bytes that a cache may account for. The default is 2 MiB.
    pub fn get_cache_capacity(&self) -> usize
        ensures { result ≡ options.cache_capacity_of self.now }
    {
        self.cache_capacity.unwrap_or(2 * (1 << 20))
    }

    /// Returns the bytes up to which the capacity is raised for an NFA whose minimum is large. The default is 0.
    pub fn get_cache_limit(&self) -> usize
        ensures { result ≡ options.cache_limit_of self.now }
    {
        self.cache_limit.unwrap_or(0)
    }

    /// Whether a capacity below the minimum is raised to it. By default it is an error.
    pub fn get_skip_cache_capacity_check(&self) -> bool
        ensures { result ≡ options.skip_cache_capacity_check_of self.now }
    {
        self.skip_cache_capacity_check.unwrap_or(false)
    }

    /// Returns the number of clears after which a search may give up instead of clearing the cache once more. With
    /// `None`, the default, it never gives up.
    pub fn get_minimum_cache_clear_count(&self) -> Option<usize>
        ensures { result ≡ options.minimum_cache_clear_count_of self.now }
    {
        self.minimum_cache_clear_count.unwrap_or(None)
    }

    /// Returns how many bytes must have been searched since the last clear, for each state of the cache, to keep a
    /// search from giving up. With `None`, the default, no number of bytes does.
    pub fn get_minimum_bytes_per_state(&self) -> Option<usize>
        ensures { result ≡ options.minimum_bytes_per_state_of self.now }
    {
        self.minimum_bytes_per_state.unwrap_or(None)
    }

    /// Returns the options that `new` sets, and for the others those of this configuration.
    pub fn overwrite(&self, new: Config) -> Config
        ensures { result ≡ overwritten self.now new }
    {
        Config {
            match_kind: new.match_kind.or(self.match_kind),
            starts_for_each_pattern: new.starts_for_each_pattern.or(self.starts_for_each_pattern),
            byte_classes: new.byte_classes.or(self.byte_classes),
            unicode_word_boundary: new.unicode_word_boundary.or(self.unicode_word_boundary),
            quits: new.quits.or(self.quits),
            specialize_start_states: new.specialize_start_states.or(self.specialize_start_states),
            cache_capacity: new.cache_capacity.or(self.cache_capacity),
            cache_limit: new.cache_limit.or(self.cache_limit),
            skip_cache_capacity_check: new
                .skip_cache_capacity_check
                .or(self.skip_cache_capacity_check),
            minimum_cache_clear_count: new
                .minimum_cache_clear_count
                .or(self.minimum_cache_clear_count),
            minimum_bytes_per_state: new.minimum_bytes_per_state.or(self.minimum_bytes_per_state),
        }
    }

    /// Returns the minimum capacity, in bytes, of a cache for the NFA. The only error is `Unsupported`.
    pub fn get_minimum_cache_capacity(&self, nfa: &NFA) -> Result<usize, BuildError>
        ensures ok { IfOk result (λ minimum. minimum ≡ settled_minimum self.now nfa.now) }
        ensures refused { result_err result
            ≡ (if is_unsupported self.now nfa.now then Some BuildError.Unsupported else None) }
    {
        let quits = self.settled_quits(nfa)?;
        let classes = ByteClasses::of(nfa, &quits, self.get_byte_classes());
        Ok(self.minimum_for(nfa, classes.stride()))
    }

    /// Computes the byte classes, the quit set and the cache capacity of a DFA of the NFA.
    ///
    /// It fails if the NFA has a Unicode word boundary that cannot be decided, if the capacity is below the minimum and
    /// the check is not skipped, or if a row offset at the minimum capacity is too large for an ID. The first test that
    /// fails, in this order, determines the error.
    pub fn settle(&self, nfa: &NFA) -> Result<Settled, BuildError>
        ensures ok { IfOk result (IsSettled self.now nfa.now) }
        ensures refused { result_err result ≡ settling_error self.now nfa.now }
    {
        let quits = self.settled_quits(nfa)?;
        let classes = ByteClasses::of(nfa, &quits, self.get_byte_classes());
        let stride = classes.stride();
        let minimum = self.minimum_for(nfa, stride);
        let given = self.capacity_for(minimum);
        if self.is_too_small_for(minimum) {
            return Err(BuildError::InsufficientCacheCapacity { minimum, given });
        }
        let attempted = self.greatest_offset_for(nfa, stride);
        if attempted > GREATEST_OFFSET {
            return Err(BuildError::InsufficientStateIDCapacity { attempted });
        }
        Ok(Settled {
            classes,
            quits,
            capacity: given.max(minimum),
        })
    }

    /// Returns the capacity of a cache that needs this minimum, both in bytes: the configured one, raised to four times
    /// the minimum as far as the limit allows.
    fn capacity_for(&self, minimum: usize) -> usize
        ensures { result ≡ capacity_for self.now minimum }
    {
        let raised = self.get_cache_limit().min(minimum.saturating_mul(4));
        self.get_cache_capacity().max(raised)
    }

    /// Whether the capacity of a cache that needs this minimum, in bytes, is below it, and the check is not skipped.
    fn is_too_small_for(&self, minimum: usize) -> bool
        ensures { result ≡ (not (options.skip_cache_capacity_check_of self.now) && nat_lt
            (capacity_for self.now minimum) minimum) }
    {
        !self.get_skip_cache_capacity_check() && self.capacity_for(minimum) < minimum
    }

    /// Returns the minimum capacity, in bytes, of a cache for the NFA at this stride.
    fn minimum_for(&self, nfa: &NFA, stride: usize) -> usize
        requires few { stride ≤ 512 }
        requires stride { stride ≡ settled_stride self.now nfa.now }
        ensures { result ≡ settled_minimum self.now nfa.now }
    {
        let slots = start_slots(nfa, self.get_starts_for_each_pattern());
        minimum_capacity(stride, slots, max_cost(nfa), fixed_cost(nfa))
    }

    /// Returns the greatest offset of a row, in cells, in the table of a cache for the NFA that has the minimum
    /// capacity.
    fn greatest_offset_for(&self, nfa: &NFA, stride: usize) -> usize
        requires few { stride ≤ 512 }
        requires stride { stride ≡ settled_stride self.now nfa.now }
        ensures { result ≡ greatest_offset self.now nfa.now }
    {
        let slots = start_slots(nfa, self.get_starts_for_each_pattern());
        greatest_offset(stride, slots)
    }

    /// Returns the quit set of a DFA of the NFA. If the NFA has a Unicode word boundary, the set must have every byte
    /// from 0x80 on: the heuristic adds these bytes; if it is off and one of them is missing, the call fails with
    /// `Unsupported`.
    fn settled_quits(&self, nfa: &NFA) -> Result<ByteSet, BuildError>
        ensures ok { IfOk result (λ quits. quits ≡ settled_quits self.now nfa.now) }
        ensures refused { result_err result
            ≡ (if is_unsupported self.now nfa.now then Some BuildError.Unsupported else None) }
    {
        let quits = self.quit_set();
        if !has_unicode_word(nfa) {
            return Ok(quits);
        }
        if self.get_unicode_word_boundary() {
            return Ok(with_non_ascii(&quits));
        }
        if holds_non_ascii(&quits) {
            return Ok(quits);
        }
        Err(BuildError::Unsupported)
    }

    /// Returns the configured quit set, or the empty one if none is set.
    fn quit_set(&self) -> ByteSet
        ensures whole { length result ≡ 256 }
        ensures set { result ≡ options.quits_of self.now }
    {
        ByteSet::or_empty(self.quits)
    }
}

// The largest offset that the ID of a row can hold beside its tags: 2^27 - 1.
const GREATEST_OFFSET: usize = 134217727;

const UNICODE_WORD_LOOKS: [Look; 6] = [
    Look::WordUnicode,
    Look::WordUnicodeNegate,
    Look::WordStartUnicode,
    Look::WordEndUnicode,
    Look::WordStartHalfUnicode,
    Look::WordEndHalfUnicode,
];

/// Whether some state of the NFA is a Unicode word boundary.
fn has_unicode_word(nfa: &NFA) -> bool
    ensures { result ≡ has_unicode_word nfa.now }
{
    contains_any(nfa.look_set_any(), &UNICODE_WORD_LOOKS)
}

/// Whether one of these looks is in the set.
fn contains_any(set: LookSet, looks: &[Look]) -> bool
    ensures { result ≡ list_any (truth_of set) looks.now }
{
    looks.iter().any(|look| set.contains(*look))
}

/// Whether each byte from 0x80 on is in the quit set.
fn holds_non_ascii(quits: &ByteSet) -> bool
    ensures { result ≡ holds_non_ascii quits.now }
{
    for byte in 128..256usize {
        if !quits.contains(byte as u8) {
            return false;
        }
    }
    true
}

/// Returns the quit set with every byte from 0x80 on added.
fn with_non_ascii(quits: &ByteSet) -> ByteSet
    requires { length quits.now ≡ 256 }
    ensures whole { length result ≡ 256 }
    ensures set { (byte : ℕ) → byte < 256 → is_quit result byte ≡ (is_quit quits.now byte || nat_le 128 byte) }
{
    let mut all = *quits;
    for byte in 128..256usize {
        all = all.with(byte as u8, true);
    }
    all
}

/// The byte classes, the quit set and the capacity that a DFA is built with, by its settings and its NFA.
#[derive(Clone, Copy, Debug)]
pub struct Settled {
    classes: ByteClasses,
    quits: ByteSet,
    capacity: usize,
}

impl Model for Settled {
    ghost use Rattle.automata_config.specs.Settled as settled;

    ghost Value = { settled.Settled };

    ghost view = { λ s. record { classes = s.classes; quits = s.quits; capacity = s.capacity } };

    ghost inverse = { λ v. record { classes = v.classes; quits = v.quits; capacity = v.capacity } };
}

impl Settled {
    ghost use Rattle.std.specs.Prelude.{◌≡◌};
    ghost use Rattle.automata_base.specs.ByteClasses.Classes.{is_quit};

    /// Returns the byte classes: bytes that the NFA or the quit set distinguishes are in different ones.
    pub fn classes(&self) -> &ByteClasses
        ensures { result.now ≡ self.now.classes }
    {
        &self.classes
    }

    /// Whether the byte is a quit byte, by the settings or by the heuristic for Unicode word boundaries.
    pub fn quits(&self, byte: u8) -> bool
        ensures { result ≡ is_quit self.now.quits byte }
    {
        self.quits.contains(byte)
    }

    /// Returns the quit bytes.
    pub fn quit_set(&self) -> &ByteSet
        ensures { result.now ≡ self.now.quits }
    {
        &self.quits
    }

    /// Returns the most bytes that a cache may account for: at least the minimum.
    pub fn capacity(&self) -> usize
        ensures { result ≡ self.now.capacity }
    {
        self.capacity
    }
}
