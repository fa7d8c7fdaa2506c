//! The ID of a state of a lazy DFA.
ghost use Rattle.std.specs.Prelude.{◌≡◌, ◌+◌, ◌*◌, ◌%◌, ◌-◌, ◌^◌, ◌<◌, ◌≤◌, ◌↔◌, IsTrue, IsBitSet};
ghost use Rattle.automata_hybrid.specs.Cache.Ids.{tags, unknown_id, dead_id, quit_id, fixed_from, offset_limit};
ghost use Rattle.automata_hybrid.specs.Cache.Ids.{HasDeadTag, HasMatchTag, HasQuitTag, HasStartTag};
ghost use Rattle.automata_hybrid.specs.Private.Cache.Ids.{HasOnly};

use std::marker::Model;

/// The ID of a state of a lazy DFA: the offset of the state's row in the transition table. The five high bits are tags:
/// unknown, dead, quit, start and match. An ID belongs to one cache, and a clear of that cache can invalidate it.
///
/// The default, 0, is the offset of the unknown row without its tag. No cache has a row with this ID, and `is_unknown`
/// returns false for it.
///
/// A search by steps checks the tags of each ID that a step returns:
///
/// ```rust
/// if next.is_match() {
///     let pattern = dfa.match_pattern(cache, next, 0);
///     return Some(Some(HalfMatch::new(pattern, at)));
/// }
/// if next.is_quit() {
///     return None;
/// }
/// if next.is_dead() || at == input.end() {
///     return Some(None);
/// }
/// ```
#[derive(Clone, Copy, Debug, Default, PartialEq, Eq, PartialOrd, Ord, Hash)]
pub struct LazyStateID {
    id: u32,
}

impl Model for LazyStateID {
    ghost use Rattle.std.specs.Prelude.{ℕ};

    ghost Value = { ℕ };

    ghost view = { λ a. a.id };

    ghost inverse = { λ n. record { id = n } };
}

impl LazyStateID {
    /// All offsets of rows are less than this.
    pub(crate) const OFFSET_LIMIT: usize = 1 << 27;

    /// The greatest ID without a tag.
    const MAX: u32 = LazyStateID::OFFSET_LIMIT as u32 - 1;

    /// The match tag.
    pub(crate) const MATCH: u32 = 1 << 27;

    /// The value of an empty cell or start slot.
    pub(crate) const UNKNOWN: LazyStateID = LazyStateID { id: 1 << 31 };

    /// Returns the ID of the row at this offset, with the start tag if `started` and the match tag if `matches`.
    pub(crate) fn of_row(offset: u32, started: bool, matches: bool) -> LazyStateID
        requires { offset < offset_limit }
        ensures { result ≡ offset + tags started matches }
    {
        let start = if started { 1 << 28 } else { 0 };
        let matched = if matches { 1 << 27 } else { 0 };
        LazyStateID {
            id: offset + (start + matched),
        }
    }

    /// Returns the ID of the dead row, which is the second row.
    pub(crate) fn dead(stride: u32) -> LazyStateID
        requires { stride ≤ 512 }
        ensures { result ≡ dead_id stride }
    {
        LazyStateID {
            id: stride + (1 << 30),
        }
    }

    /// Returns the ID of the quit row, which is the third row.
    pub(crate) fn quit(stride: u32) -> LazyStateID
        requires { stride ≤ 512 }
        ensures { result ≡ quit_id stride }
    {
        LazyStateID {
            id: 2 * stride + (1 << 29),
        }
    }

    /// Whether any tag is set. While none is, a search of your own can read on without checking each tag.
    pub fn is_tagged(self) -> bool
        ensures { IsTrue result ↔ (offset_limit ≤ self) }
    {
        self.id > LazyStateID::MAX
    }

    /// Whether this is the unknown ID, which stands for a transition that is not computed yet. If
    /// `DFA::next_state_untagged` returns it, take the same step with `DFA::next_state`.
    pub fn is_unknown(self) -> bool
        ensures bit { IsTrue result ↔ IsBitSet self 31 }
        ensures size { IsTrue result ↔ (unknown_id ≤ self) }
    {
        self.id >= 1 << 31
    }

    /// Whether this is the dead state, after which no match can come. A search stops there and reports the last match
    /// it has seen.
    pub fn is_dead(self) -> bool
        ensures { IsTrue result ↔ HasDeadTag self }
    {
        self.id & (1 << 30) != 0
    }

    /// Whether this is the quit state, which a quit byte leads to. A search stops there with an error, since it cannot
    /// know what comes after.
    pub fn is_quit(self) -> bool
        ensures { IsTrue result ↔ HasQuitTag self }
    {
        self.id & (1 << 29) != 0
    }

    /// Whether the state was added as a start state by a DFA that specializes start states
    /// (`Config::specialize_start_states`). A search of your own can run a prefilter there.
    pub fn is_start(self) -> bool
        ensures { IsTrue result ↔ HasStartTag self }
    {
        self.id & (1 << 28) != 0
    }

    /// Whether patterns match at this state; `DFA::match_pattern` returns them. Matches are delayed by one byte: they
    /// end before the byte that led to this state.
    pub fn is_match(self) -> bool
        ensures { IsTrue result ↔ HasMatchTag self }
    {
        self.id & (1 << 27) != 0
    }

    /// Whether it has no tag, or only the match tag.
    #[inline(always)]
    pub(crate) fn is_plain(self) -> bool
        ensures { IsTrue result ↔ (self < 2 ^ 28) }
    {
        self.id < 1 << 28
    }

    /// Whether it is unknown, dead or quit.
    pub(crate) fn is_fixed(self) -> bool
        ensures { IsTrue result ↔ (fixed_from ≤ self) }
    {
        self.id >= 1 << 29
    }

    /// Whether `tag` is its only tag; if `tag` is 0, whether it has no tag.
    #[inline(always)]
    pub(crate) fn has_only(self, tag: u32) -> bool
        requires { tag ≤ offset_limit }
        ensures { IsTrue result ↔ HasOnly tag self }
    {
        self.id.wrapping_sub(tag) <= LazyStateID::MAX
    }

    /// Returns the row's offset if `tag` is its only tag; otherwise a value that is not an offset.
    #[inline(always)]
    pub(crate) fn offset_by(self, tag: u32) -> usize
        requires { tag ≤ offset_limit }
        ensures only { HasOnly tag self → result ≡ self - tag }
        ensures other { result < offset_limit → HasOnly tag self }
    {
        (self.id as usize).wrapping_sub(tag as usize)
    }

    /// Returns the ID of the row at an offset, with a tag.
    #[inline(always)]
    pub(crate) fn at_offset(offset: usize, tag: u32) -> LazyStateID
        requires offset { offset < offset_limit }
        requires tag { tag ≤ offset_limit }
        ensures { result ≡ offset + tag }
    {
        LazyStateID {
            id: offset as u32 + tag,
        }
    }

    /// Returns the offset of an untagged ID, which needs no mask.
    #[inline(always)]
    pub(crate) fn untagged(self) -> u32
        requires { self < offset_limit }
        ensures { result ≡ self % offset_limit }
    {
        self.id
    }

    /// Returns the row's offset, without the tags.
    pub(crate) fn offset(self) -> u32
        ensures { result ≡ self % offset_limit }
    {
        self.id & LazyStateID::MAX
    }
}
