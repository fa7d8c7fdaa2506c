//! A walk over a haystack in pieces, which stops at each offset where patterns match, and continues from there.
ghost use Rattle.std.specs.Prelude.{◌≡◌, ◌<◌, IfOk, IfErr, OnOk, OnErr, length, None, Some, slice_index, true, false};
ghost use Rattle.std.specs.Result.{result_err};
ghost use Rattle.automata_hybrid.specs.Cache.Caches.{IsCacheOf};
ghost use Rattle.automata_base.specs.Powersets.Powerset.{Powerset, dead};
ghost use Rattle.automata_hybrid.specs.Cache.Table.{IsRowId, Leads};
ghost use Rattle.automata_hybrid.specs.Known.Pieces.{IsBeginRun, IsWalkCallRun, IsWalkEndRun};
ghost use Rattle.automata_hybrid.specs.Known.Stores.{known_of};
ghost use Rattle.automata_hybrid.specs.Pieces.State.{IsPiecesOf};
ghost use Rattle.automata_hybrid.specs.Pieces.Walks.{HasBegunWalk, IsWalked, EndsWith, patterns_here};
ghost use Rattle.automata_hybrid.specs.Private.Cache.Sound.{IsSoundCacheOf};
ghost use Rattle.automata_hybrid.specs.Private.Pieces.Walks.{IsPiecesWalk, StandsInRow};

use crate::cache::Cache;
use crate::cache::handle::Handle;
use crate::dfa::DFA;
use crate::id::LazyStateID;
use crate::search::pieces::{
    BeginError, PieceEnd, Pieces, found_in, resume_pieces, run_piece, start_pieces,
};
use crate::search::read;
use automata_base::util::primitives::PatternID;
use automata_base::util::search::{HalfMatch, MatchError};
use automata_base::util::start;
use automata_config::error::SearchError;
use std::fmt;
use std::marker::Model;

/// The state of a walk over a haystack in pieces. It reports each offset at which patterns match once, with all
/// patterns that its DFA reports there: build the DFA with `MatchKind::All` to get all that match. Like `Pieces`, it
/// belongs to one DFA, and continues with any cache of that DFA.
///
/// A piece may have several such offsets. Then several calls read it, each from where the previous one stopped:
///
/// 1. `DFA::begin_walk` creates it, for an anchored mode and the byte before the first piece.
/// 2. `DFA::walk_piece` reads a piece up to the next match. Take the patterns that match there, `match_pattern(0)` to
///    `match_pattern(match_len() - 1)`, and call it again with the remaining bytes, until there are none.
/// 3. `DFA::end_walk` returns the patterns that match up to the end of the pieces so far, given the byte that follows.
pub struct PiecesWalk {
    /// An earliest search: it ends at its first match, which is where the walk stops.
    pieces: Pieces,
}

// An owner drops this with one call, so that its proof has no step for each field.
impl Drop for PiecesWalk {
    fn drop(self) {
        let Self { pieces: _pieces } = self;
    }
}

impl Model for PiecesWalk {
    ghost use Rattle.automata_hybrid.specs.Pieces.State.{PiecesView};
    ghost use Rattle.automata_hybrid.specs.Private.Pieces.Walks.{IsPiecesWalk};

    ghost Value = { PiecesView };

    ghost view = { λ s. s.pieces };

    ghost invariant = { λ s. IsPiecesWalk s.pieces };
}

impl PiecesWalk {
    /// Returns the match at which the last call stopped: the first pattern that matches there, and the offset where it
    /// ends, counted from the first byte of the first piece. It is `None` if the last call stopped at no match.
    pub fn get_match(&self) -> Option<HalfMatch>
        ensures { result ≡ self.now.found }
    {
        self.pieces.get_match()
    }

    /// Returns how many patterns match up to the offset of `get_match`, or 0 if there is no match.
    pub fn match_len(&self) -> usize
        ensures { result ≡ length (patterns_here self.now) }
    {
        self.pieces.match_len()
    }

    /// Returns a pattern that matches up to the offset of `get_match`, by its index below `match_len`.
    pub fn match_pattern(&self, index: usize) -> PatternID
        requires { index < length (patterns_here self.now) }
        ensures { result ≡ slice_index (patterns_here self.now) index }
    {
        self.pieces.match_pattern(index)
    }

    /// Whether nothing that follows can match. Then further pieces are not read.
    pub fn is_done(&self) -> bool
        ensures yes { result ≡ true → self.now.state ≡ None }
        ensures no { result ≡ false → self.now.state ≡ None → ⊥ }
    {
        self.pieces.is_done()
    }

    /// Returns how many bytes were read: all so far, or those up to the byte after which nothing can match.
    pub fn bytes_read(&self) -> usize
        ensures { result ≡ self.now.read }
    {
        self.pieces.bytes_read()
    }
}

/// Shows how many bytes it has read and its match, but not its powerset state.
impl fmt::Debug for PiecesWalk {
    fn fmt<W: fmt::Write>(&self, f: &mut fmt::Formatter<W>) -> fmt::Result {
        f.debug_struct("PiecesWalk")
            .field("read", &self.bytes_read())
            .field("match", &self.get_match())
            .finish_non_exhaustive()
    }
}

/// The patterns that match up to the end of a walk's haystack.
pub struct WalkEnd {
    /// The state after the end of the haystack; `None` if that is dead.
    held: Option<Handle>,
}

// An owner drops this with one call, so that its proof has no step for each field.
impl Drop for WalkEnd {
    fn drop(self) {
        let Self { held: _held } = self;
    }
}

impl Model for WalkEnd {
    ghost use Rattle.std.specs.Prelude.{ℕ, List};
    ghost use Rattle.automata_hybrid.specs.Private.Pieces.Walks.{patterns_held};

    ghost Value = { List ℕ };

    ghost view = { λ s. patterns_held s.held };
}

impl WalkEnd {
    /// Returns how many patterns match at the end of the walk's haystack.
    pub fn match_len(&self) -> usize
        ensures { result ≡ length self.now }
    {
        match &self.held {
            Some(handle) => handle.state.match_len(),
            None => 0,
        }
    }

    /// Returns a pattern that matches at the end of the walk's haystack, by its index below `match_len`.
    pub fn match_pattern(&self, index: usize) -> PatternID
        requires { index < length self.now }
        ensures { result ≡ slice_index self.now index }
    {
        match &self.held {
            Some(handle) => handle.state.match_pattern(index),
            None => unreachable!(),
        }
    }
}

impl DFA {
    /// Begins a walk over a haystack in pieces, for an anchored mode and the byte before the first piece, as
    /// `begin_pieces` begins a search. It fails if the DFA skips ends inside characters (`DFA::skips`), and if
    /// `DFA::start_state` fails.
    pub fn begin_walk(
        &self,
        cache: &mut Cache,
        config: &start::Config,
    ) -> Result<PiecesWalk, BeginError>
        requires { IsCacheOf cache.old self.now }
        ensures of { IsCacheOf cache.new self.now }
        ensures walk { IfOk result (λ w. IsPiecesOf w self.now) }
        ensures begun { IfOk result (HasBegunWalk self.now config.now.anchored config.now.look_behind) }
        ensures effect { IsBeginRun self.now config.now.anchored config.now.look_behind
            (known_of cache.old) (known_of cache.new) (result_err result) }
    {
        match start_pieces(self, cache, config, true) {
            Ok(pieces) => Ok(PiecesWalk { pieces }),
            Err(error) => Err(error),
        }
    }

    /// Reads a piece up to the next offset at which patterns match, or to its end, and returns how many bytes it has
    /// read. Pass the remaining bytes of the piece to the next call.
    ///
    /// Matches are delayed by one byte: an offset is reported once the byte after it is read, so the offset is one less
    /// than the number of bytes read. `end_walk` reports matches at the end of the haystack. Once nothing can match
    /// (`PiecesWalk::is_done`), the remaining bytes are skipped.
    ///
    /// It fails as `read_piece` does. An error leaves the walk as it was before the call, with the same match.
    pub fn walk_piece(
        &self,
        cache: &mut Cache,
        walk: &mut PiecesWalk,
        piece: &[u8],
    ) -> Result<usize, SearchError>
        requires of { IsCacheOf cache.old self.now }
        requires walk { IsPiecesOf walk.old self.now }
        ensures of { IsCacheOf cache.new self.now }
        ensures walk { IsPiecesOf walk.new self.now }
        ensures walked { IfOk result (IsWalked self.now piece.now walk.old walk.new) }
        ensures unchanged { OnErr result (walk.new ≡ walk.old) }
        ensures effect { IsWalkCallRun self.now piece.now walk.old walk.new
            (known_of cache.old) (known_of cache.new) (result_err result) }
    {
        walk_pieces(self, cache, &mut walk.pieces, piece)
    }

    /// Returns the patterns that match up to the end of the pieces so far. `look_ahead` is the byte that follows, which
    /// no match includes, or `None` if the haystack ends here. The walk is unchanged, and more pieces may follow.
    ///
    /// A quit byte as `look_ahead` is an error at its offset.
    pub fn end_walk(
        &self,
        cache: &mut Cache,
        walk: &PiecesWalk,
        look_ahead: Option<u8>,
    ) -> Result<WalkEnd, SearchError>
        requires of { IsCacheOf cache.old self.now }
        requires walk { IsPiecesOf walk.now self.now }
        ensures of { IsCacheOf cache.new self.now }
        ensures ends { IfOk result (EndsWith self.now walk.now look_ahead) }
        ensures effect { IsWalkEndRun self.now look_ahead walk.now (known_of cache.old) (known_of cache.new)
            (result_err result) }
    {
        end_pieces_walk(self, cache, &walk.pieces, look_ahead)
    }
}

/// Makes one call of a walk, with the search that it holds.
fn walk_pieces(
    dfa: &DFA,
    cache: &mut Cache,
    pieces: &mut Pieces,
    piece: &[u8],
) -> Result<usize, SearchError>
    requires of { IsCacheOf cache.old dfa.now }
    requires pieces { IsPiecesOf pieces.old dfa.now }
    requires walk { IsPiecesWalk pieces.old }
    ensures of { IsCacheOf cache.new dfa.now }
    ensures walk { IsPiecesOf pieces.new dfa.now × IsPiecesWalk pieces.new }
    ensures walked { IfOk result (IsWalked dfa.now piece.now pieces.old pieces.new) }
    ensures unchanged { OnErr result (pieces.new ≡ pieces.old) }
    ensures effect { IsWalkCallRun dfa.now piece.now pieces.old pieces.new
        (known_of cache.old) (known_of cache.new) (result_err result) }
{
    let Some(from) = resume_pieces(dfa, cache, pieces)? else {
        return Ok(piece.len());
    };
    let base = pieces.bytes_read();
    let Some(after) = base.checked_add(piece.len()) else {
        return Err(SearchError::Match(MatchError::gave_up(base)));
    };
    match run_piece(dfa, cache, piece, true, from, base)? {
        PieceEnd::Over(at, id, found) => {
            if found.is_none() {
                pieces.end(base + at + 1, None);
                return Ok(piece.len());
            }
            let found = found_in(found, base, None);
            hold_row(dfa, cache, pieces, id, base + at + 1, found)?;
            Ok(at + 1)
        }
        PieceEnd::At(id, _) => {
            hold_row(dfa, cache, pieces, id, after, None)?;
            Ok(piece.len())
        }
    }
}

/// Returns the end of a walk, from the search that it holds.
fn end_pieces_walk(
    dfa: &DFA,
    cache: &mut Cache,
    pieces: &Pieces,
    look_ahead: Option<u8>,
) -> Result<WalkEnd, SearchError>
    requires of { IsCacheOf cache.old dfa.now }
    requires pieces { IsPiecesOf pieces.now dfa.now }
    ensures of { IsCacheOf cache.new dfa.now }
    ensures ends { IfOk result (EndsWith dfa.now pieces.now look_ahead) }
    ensures effect { IsWalkEndRun dfa.now look_ahead pieces.now (known_of cache.old) (known_of cache.new)
        (result_err result) }
{
    let Some(from) = resume_pieces(dfa, cache, pieces)? else {
        return Ok(WalkEnd { held: None });
    };
    let at = pieces.bytes_read();
    cache.search_start(at);
    let next = read(dfa, cache, from, LazyStateID::UNKNOWN, look_ahead, at, at)?;
    cache.end_search(at);
    match end_at(dfa, cache, next) {
        Ok(end) => Ok(end),
        Err(error) => Err(error),
    }
}

/// Returns the patterns of an ID's state, which has none if it is dead.
fn end_at(dfa: &DFA, cache: &Cache, id: LazyStateID) -> Result<WalkEnd, SearchError>
    requires sound { IsSoundCacheOf cache.now dfa.now }
    requires leads { (q : Powerset) × Leads cache.now.store.table id q }
    ensures patterns { IfOk result (λ end. (q : Powerset) → Leads cache.now.store.table id q → end ≡ q.patterns) }
    ensures error { IfErr result (λ e. (e ≡ SearchError.OutOfMemory)
        × ((q : Powerset) → Leads cache.now.store.table id q → q ≡ dead → ⊥)) }
{
    if id.is_dead() {
        return Ok(WalkEnd { held: None });
    }
    let handle = cache.handle(id)?;
    Ok(WalkEnd { held: Some(handle) })
}

/// Moves a search to a row after `read` bytes, and holds the row's state. An error changes nothing.
fn hold_row(
    dfa: &DFA,
    cache: &Cache,
    pieces: &mut Pieces,
    id: LazyStateID,
    read: usize,
    found: Option<HalfMatch>,
) -> Result<(), SearchError>
    requires sound { IsSoundCacheOf cache.now dfa.now }
    requires valid { IsRowId cache.now.store.table id }
    ensures stands { OnOk result (IsPiecesOf pieces.new dfa.now
        × StandsInRow cache.now.store.table id read found pieces.old pieces.new) }
    ensures fails { IfErr result (λ e. (e ≡ SearchError.OutOfMemory) × (pieces.new ≡ pieces.old)) }
{
    let _state = cache.snapshot(id);
    let handle = cache.handle(id)?;
    pieces.stand(handle, id, read, found);
    Ok(())
}
