//! Start states. There is a start slot for each anchored mode, with one mode per pattern if the settings ask for that,
//! and each kind of look-behind byte (`Start`). A slot is unknown until its start state is determinized; then it has
//! the state's ID.
ghost use Rattle.std.specs.Prelude.{◌≡◌, ◌+◌, ◌-◌, ◌*◌, ◌^◌, ◌<◌, ◌≤◌, ◌↔◌, IfOk, IfErr, OnOk, IfSome, IfNone, Err};
ghost use Rattle.std.specs.Prelude.{Some, slice_get, false};
ghost use Rattle.automata_determinize.specs.ByteClasses.LookBehind.{behind_of};
ghost use Rattle.automata_base.specs.Haystacks.Tapes.{byte_before};
ghost use Rattle.automata_base.specs.Powersets.Powerset.{dead};
ghost use Rattle.automata_determinize.specs.Retraced.Steps.{start_state_of};
ghost use Rattle.automata_hybrid.specs.Cache.Caches.{IsCacheOf};
ghost use Rattle.automata_hybrid.specs.Cache.Ids.{unknown_id};
ghost use Rattle.automata_hybrid.specs.Known.Steps.{IsStartRun, StartFails, StartFailsAt};
ghost use Rattle.automata_hybrid.specs.Known.Stores.{known_of};
ghost use Rattle.automata_hybrid.specs.Machines.StartSlots.{supports, slot_of};
ghost use Rattle.automata_hybrid.specs.Private.Cache.Sound.{IsSoundCacheOf};
ghost use Rattle.automata_hybrid.specs.Private.Machines.Machine.{IsMachine};
ghost use Rattle.automata_hybrid.specs.Steps.BySteps.{StartsAt};
ghost use Rattle.automata_hybrid.specs.Steps.Starts.{quit_behind, start_search_error, IsStartAnswer};

use crate::cache::Cache;
use crate::dfa::DFA;
use crate::id::LazyStateID;
use automata_base::util::search::{Anchored, Input, MatchError};
use automata_base::util::start;
use automata_config::error::{SearchError, StartError};

/// The kinds of look-behind byte that start states depend on. A group has a start slot for each, in this order.
enum Start {
    /// A byte that is none of the following.
    NonWordByte,
    WordByte,
    /// No byte: the start of the haystack, or for a reverse search its end.
    Text,
    LineLF,
    LineCR,
    /// The line terminator, if it is neither a line feed nor a carriage return.
    CustomLineTerminator,
}

/// The number of start slots in a group.
const GROUP: usize = Start::CustomLineTerminator as usize + 1;

const N: u8 = Start::NonWordByte as u8;

const W: u8 = Start::WordByte as u8;

const F: u8 = Start::LineLF as u8;

const R: u8 = Start::LineCR as u8;

/// The kind of each look-behind byte that is not the line terminator, as the number of a `Start`. A table of numbers is
/// a constant in memory; one of an enum would be built again at each call.
const KINDS: [u8; 256] = [
    N, N, N, N, N, N, N, N, N, N, F, N, N, R, N, N, N, N, N, N, N, N, N, N, N, N, N, N, N, N, N, N,
    N, N, N, N, N, N, N, N, N, N, N, N, N, N, N, N, W, W, W, W, W, W, W, W, W, W, N, N, N, N, N, N,
    N, W, W, W, W, W, W, W, W, W, W, W, W, W, W, W, W, W, W, W, W, W, W, W, W, W, W, N, N, N, N, W,
    N, W, W, W, W, W, W, W, W, W, W, W, W, W, W, W, W, W, W, W, W, W, W, W, W, W, W, N, N, N, N, N,
    N, N, N, N, N, N, N, N, N, N, N, N, N, N, N, N, N, N, N, N, N, N, N, N, N, N, N, N, N, N, N, N,
    N, N, N, N, N, N, N, N, N, N, N, N, N, N, N, N, N, N, N, N, N, N, N, N, N, N, N, N, N, N, N, N,
    N, N, N, N, N, N, N, N, N, N, N, N, N, N, N, N, N, N, N, N, N, N, N, N, N, N, N, N, N, N, N, N,
    N, N, N, N, N, N, N, N, N, N, N, N, N, N, N, N, N, N, N, N, N, N, N, N, N, N, N, N, N, N, N, N,
];

/// Returns the kind of a look-behind byte that is the line terminator.
#[inline(never)]
fn behind_line(byte: u8) -> usize
    ensures { result ≡ behind_of byte (Some byte) }
{
    if byte == b'\n' {
        Start::LineLF as usize
    } else if byte == b'\r' {
        Start::LineCR as usize
    } else {
        Start::CustomLineTerminator as usize
    }
}

impl DFA {
    /// Returns the kind of a look-behind byte, as the number of a `Start`.
    fn behind(&self, prev: Option<u8>) -> usize
        ensures value { result ≡ behind_of self.now.nfa.flags.line_terminator prev }
        ensures below { result < 6 }
    {
        let Some(byte) = prev else {
            return Start::Text as usize;
        };
        if byte == self.get_nfa().flags().line_terminator {
            return behind_line(byte);
        }
        usize::from(KINDS[usize::from(byte)])
    }

    /// Returns the start slot of a group for a kind of look-behind byte.
    fn slot(&self, group: usize, kind: usize) -> usize
        requires room { group * 6 + 6 ≤ self.now.slots }
        requires kind { kind < 6 }
        requires fits { self.now.slots < 2 ^ 64 }
        ensures value { result ≡ group * 6 + kind }
        ensures within { result < self.now.slots }
    {
        group * GROUP + kind
    }

    /// Returns the start slot of an anchored mode, or `None` for a pattern that is out of range. It fails if the mode
    /// is not supported.
    #[inline(always)]
    fn mode_slot(&self, mode: Anchored, prev: Option<u8>) -> Result<Option<usize>, StartError>
        requires { IsMachine self.now }
        ensures within { IfOk result (λ o. IfSome o (λ slot. slot < self.now.slots)) }
        ensures past { IfOk result (λ o. IfNone o (start_state_of self.now.nfa mode prev ≡ dead)) }
        ensures slot { IfOk result (λ o. IfSome o
            (λ slot. slot ≡ slot_of mode (behind_of self.now.nfa.flags.line_terminator prev))) }
        ensures behind { IfOk result
            (λ o. IfNone o (self.now.slots ≤ slot_of mode (behind_of self.now.nfa.flags.line_terminator prev))) }
        ensures refused { (result ≡ Err (StartError.UnsupportedAnchored mode)) ↔ (supports self.now mode ≡ false) }
        ensures only { IfErr result (λ e. e ≡ StartError.UnsupportedAnchored mode) }
    {
        let kind = self.behind(prev);
        match mode {
            Anchored::No => Ok(Some(self.slot(0, kind))),
            Anchored::Yes => Ok(Some(self.slot(1, kind))),
            Anchored::Pattern(pattern) => {
                if !self.get_config().get_starts_for_each_pattern() {
                    return Err(StartError::UnsupportedAnchored {
                        mode: Anchored::Pattern(pattern),
                    });
                }
                let pattern = pattern.as_usize();
                if pattern >= self.pattern_len() {
                    return Ok(None);
                }
                Ok(Some(self.slot(pattern + 2, kind)))
            }
        }
    }
}

impl DFA {
    /// Returns the look-behind byte, if it is a quit byte.
    #[inline(always)]
    fn quits_behind(&self, prev: Option<u8>) -> Option<u8>
        ensures { result ≡ quit_behind self.now prev }
    {
        match prev {
            Some(byte) if self.quits(byte) => Some(byte),
            _ => None,
        }
    }

    /// Returns the start state of an anchored mode after a look-behind byte. It fails if that is a quit byte, if the
    /// mode is not supported, if the state does not fit and the settings do not allow a clear, and if memory runs out.
    /// A quit byte is reported before a mode that is not supported.
    ///
    /// If you have an input, `start_state_forward` and `start_state_reverse` take the anchored mode and the look-behind
    /// byte from it. If the start state is cached, this does not allocate.
    #[inline(always)]
    pub fn start_state(
        &self,
        cache: &mut Cache,
        config: &start::Config,
    ) -> Result<LazyStateID, StartError>
        requires { IsCacheOf cache.old self.now }
        ensures of { IsCacheOf cache.new self.now }
        ensures answer { IfOk result
            (IsStartAnswer self.now config.now.anchored config.now.look_behind cache.old cache.new) }
        ensures refusal { IfErr result
            (StartFails self.now config.now.anchored config.now.look_behind (known_of cache.old) (known_of cache.new)) }
        ensures run { OnOk result
            (IsStartRun self.now config.now.anchored config.now.look_behind (known_of cache.old) (known_of cache.new)) }
    {
        cache.reveal_invariant_of(self);
        if let Some(byte) = self.quits_behind(config.get_look_behind()) {
            return Err(StartError::Quit { byte });
        }
        match self.mode_slot(config.get_anchored(), config.get_look_behind())? {
            None => Ok(cache.dead()),
            Some(slot) => cache.start(self, slot, config.get_anchored(), config.get_look_behind()),
        }
    }

    /// Returns the start state of an anchored mode after a look-behind byte, if a search may start there and the state
    /// is cached; otherwise the unknown ID.
    #[inline(always)]
    pub(crate) fn start_state_known(
        &self,
        cache: &Cache,
        mode: Anchored,
        prev: Option<u8>,
    ) -> LazyStateID
        requires { IsSoundCacheOf cache.now self.now }
        ensures answer { result < unknown_id → IsStartAnswer self.now mode prev cache.now cache.now result }
        ensures run { result < unknown_id
            → IsStartRun self.now mode prev (known_of cache.now) (known_of cache.now) }
    {
        if self.quits_behind(prev).is_some() {
            return LazyStateID::UNKNOWN;
        }
        let Ok(Some(slot)) = self.mode_slot(mode, prev) else {
            return LazyStateID::UNKNOWN;
        };
        cache.start_slot(slot)
    }

    /// Returns the start state of a forward search. The look-behind byte is the one before the span. The error for a
    /// quit byte has that byte's offset, and the "gave up" error has the span's start.
    ///
    /// A search by steps begins with this call; the example `steps` has a complete one:
    ///
    /// ```rust
    /// let Ok(mut id) = dfa.start_state_forward(cache, input) else {
    ///     return None;
    /// };
    /// let mut at = input.start();
    /// ```
    #[inline(always)]
    pub fn start_state_forward(
        &self,
        cache: &mut Cache,
        input: &Input<'_>,
    ) -> Result<LazyStateID, SearchError>
        requires { IsCacheOf cache.old self.now }
        ensures of { IsCacheOf cache.new self.now }
        ensures answer { IfOk result
            (IsStartAnswer self.now input.now.anchored (byte_before input.now.haystack input.now.start)
            cache.old cache.new) }
        ensures refusal { IfErr result
            (StartFailsAt self.now input.now.anchored (byte_before input.now.haystack input.now.start)
            (input.now.start - 1) input.now.start (known_of cache.old) (known_of cache.new)) }
        ensures run { OnOk result (IsStartRun self.now input.now.anchored
            (byte_before input.now.haystack input.now.start) (known_of cache.old) (known_of cache.new)) }
        ensures stands { IfOk result (StartsAt self.now cache.new input.now) }
    {
        let at = input.start();
        let config = start::Config::from_input_forward(input);
        match self.start_state(cache, &config) {
            Ok(id) => {
                cache.reveal_invariant_of(self);
                Ok(id)
            }
            Err(error) => Err(start_search_error(error, at.saturating_sub(1), at)),
        }
    }

    /// Returns the start state of a reverse search. The look-behind byte is the one at the span's end. The error for a
    /// quit byte and the "gave up" error both have the span's end as their offset.
    ///
    /// A reverse search by steps begins with this call, and then reads the bytes of the span from its end to its start.
    /// Its last step is `next_state` on the byte before the span, or `next_eoi_state` if there is none.
    #[inline(always)]
    pub fn start_state_reverse(
        &self,
        cache: &mut Cache,
        input: &Input<'_>,
    ) -> Result<LazyStateID, SearchError>
        requires { IsCacheOf cache.old self.now }
        ensures of { IsCacheOf cache.new self.now }
        ensures answer { IfOk result
            (IsStartAnswer self.now input.now.anchored (slice_get input.now.haystack input.now.end)
            cache.old cache.new) }
        ensures refusal { IfErr result
            (StartFailsAt self.now input.now.anchored (slice_get input.now.haystack input.now.end)
            input.now.end input.now.end (known_of cache.old) (known_of cache.new)) }
        ensures run { OnOk result (IsStartRun self.now input.now.anchored
            (slice_get input.now.haystack input.now.end) (known_of cache.old) (known_of cache.new)) }
    {
        let config = start::Config::from_input_reverse(input);
        match self.start_state(cache, &config) {
            Ok(id) => Ok(id),
            Err(error) => Err(start_search_error(error, input.end(), input.end())),
        }
    }
}

/// Returns the error that a search reports for a start state: a quit byte has the offset `behind`, and the "gave up"
/// error has the offset `at`.
fn start_search_error(error: StartError, behind: usize, at: usize) -> SearchError
    ensures { result ≡ start_search_error error behind at }
{
    match error {
        StartError::Cache { .. } => SearchError::Match(MatchError::gave_up(at)),
        StartError::Quit { byte } => SearchError::Match(MatchError::quit(byte, behind)),
        StartError::UnsupportedAnchored { mode } => SearchError::Match(
            MatchError::unsupported_anchored(mode),
        ),
        StartError::OutOfMemory => SearchError::OutOfMemory,
    }
}
