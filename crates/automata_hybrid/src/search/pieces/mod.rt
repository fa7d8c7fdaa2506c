//! A forward search over a haystack that arrives in pieces. Between two pieces it holds its powerset state, as a walk
//! does. So its cache may serve other searches and be cleared, and another cache of the same DFA may replace it. `walk`
//! is a search that stops at each match.
ghost use Rattle.std.specs.Prelude.{◌≡◌, ◌+◌, ◌^◌, ◌<◌, ◌≤◌, length, IfOk, IfSome, OnOk, OnErr, slice_index, Some};
ghost use Rattle.std.specs.Prelude.{None, true, false};
ghost use Rattle.std.specs.Result.{result_err};
ghost use Rattle.automata_base.specs.declared.util.search.Direction.TheVariants.{Forward};
ghost use Rattle.automata_hybrid.specs.Cache.Caches.{IsCacheOf};
ghost use Rattle.automata_hybrid.specs.Cache.Table.{IsRowId, IsRowState};
ghost use Rattle.automata_hybrid.specs.Known.Known.{begun};
ghost use Rattle.automata_hybrid.specs.Known.Pieces.{IsAnswerRun, IsBeginRun, IsPieceRun};
ghost use Rattle.automata_hybrid.specs.Known.Stores.{known_of};
ghost use Rattle.automata_hybrid.specs.Pieces.Answers.{EndsHere, HasBegun, ReadsOn};
ghost use Rattle.automata_hybrid.specs.Pieces.State.{IsPiecesOf};
ghost use Rattle.automata_hybrid.specs.Pieces.Walks.{HasBegunWalk, patterns_here};
ghost use Rattle.automata_hybrid.specs.Private.Cache.Sound.{IsSoundCacheOf};
ghost use Rattle.automata_hybrid.specs.Private.Pieces.State.{IsResumed, found_in};
ghost use Rattle.automata_hybrid.specs.Private.Searches.PassState.{IsOnTrace};
ghost use Rattle.automata_hybrid.specs.Private.Searches.PieceRuns.{HasOffset, IsPieceResult, IsRunResult, error_from};
ghost use Rattle.automata_hybrid.specs.Private.Walks.Parts.{IsRestoreResult};
ghost use Rattle.automata_hybrid.specs.Private.Walks.State.{IsHandle};
ghost use Rattle.automata_hybrid.specs.Searches.Passes.{given_up_offset};
ghost use Rattle.automata_hybrid.specs.Searches.Traces.{Trace};

pub mod walk;

use crate::cache::Cache;
use crate::cache::handle::Handle;
use crate::dfa::DFA;
use crate::id::LazyStateID;
use crate::search::direction::{byte_at, byte_offset, last_place, place_offset, span_offset};
use crate::search::fast::follow::next_known;
use crate::search::fast::run::{Place, follow_with_leaps, near_end, run_to_match};
use crate::search::{found_at, read, read_peeked, step_error};
use automata_base::util::primitives::PatternID;
use automata_base::util::search::{Direction, HalfMatch, Input, MatchError, MatchErrorKind};
use automata_base::util::start;
use automata_config::error::{SearchError, StartError, StepError};
use automata_determinize::laws::reported_is_right;
use std::fmt;
use std::marker::Model;
use thiserror::Error;

/// Why a search in pieces cannot begin.
#[derive(Clone, Copy, Debug, PartialEq, Eq, Error)]
pub enum BeginError {
    /// The DFA skips ends inside UTF-8 encoded characters (`DFA::skips`). To skip such an end, a search starts again
    /// one offset later, and the bytes from there on are no longer available.
    #[error("cannot search in pieces for an NFA in UTF-8 mode that matches the empty string")]
    Skips,
    /// `DFA::start_state` failed.
    #[error("{0}")]
    Start(StartError),
}

/// The state of a search in pieces. It belongs to one DFA, and continues with any cache of that DFA, since it holds its
/// powerset state, which a clear cannot drop.
///
/// Pass the pieces of the haystack in order. They may have any length, including 0. Offsets are counted in bytes from
/// the first byte of the first piece. You may ask for the answer after each piece, and then continue:
///
/// 1. `DFA::begin_pieces` creates it, for an anchored mode and the byte before the first piece.
/// 2. `DFA::read_piece` reads the next piece. An error leaves the search as it was before that piece.
/// 3. `DFA::end_pieces` returns the match in the pieces so far, given the byte that follows them.
pub struct Pieces {
    /// The state after the bytes read so far; `None` once nothing that follows can change the answer.
    held: Option<Handle>,
    /// The ID of the state's row when the search last stopped there.
    row: LazyStateID,
    read: usize,
    earliest: bool,
    found: Option<HalfMatch>,
}

// An owner drops this with one call, so that its proof has no step for each field.
impl Drop for Pieces {
    fn drop(self) {
        let Self {
            held: _held,
            row: _row,
            read: _read,
            earliest: _earliest,
            found: _found,
        } = self;
    }
}

impl Model for Pieces {
    ghost use Rattle.automata_hybrid.specs.Pieces.State.{PiecesView};
    ghost use Rattle.automata_hybrid.specs.Private.Pieces.State.{HasOwnKey, pieces_view};

    ghost Value = { PiecesView };

    ghost view = { pieces_view };

    ghost invariant = { λ s. HasOwnKey s.held };
}

impl Pieces {
    /// Returns the match in the bytes read so far. Since matches are delayed by one byte, this does not include a match
    /// that ends after the last of these bytes; `DFA::end_pieces` returns that one.
    pub fn get_match(&self) -> Option<HalfMatch>
        ensures { result ≡ self.now.found }
    {
        self.found
    }

    /// Whether the answer is final, whatever follows. Then it is what `get_match` returns, and further pieces are not
    /// read.
    pub fn is_done(&self) -> bool
        ensures yes { result ≡ true → self.now.state ≡ None }
        ensures no { result ≡ false → self.now.state ≡ None → ⊥ }
    {
        self.held.is_none()
    }

    /// Returns how many bytes were read: all so far, or those up to the byte after which the answer is final.
    pub fn bytes_read(&self) -> usize
        ensures { result ≡ self.now.read }
    {
        self.read
    }

    /// Whether the search ends at its first match.
    fn is_earliest(&self) -> bool
        ensures { result ≡ self.now.earliest }
    {
        self.earliest
    }

    /// Returns how many patterns the current state has, if there is a match, and 0 otherwise. An earliest search has no
    /// current state after a match, but a walk does.
    pub(crate) fn match_len(&self) -> usize
        ensures { result ≡ length (patterns_here self.now) }
    {
        match (&self.held, self.found) {
            (Some(handle), Some(_)) => handle.state.match_len(),
            _ => 0,
        }
    }

    /// Returns a pattern of the current state, by its index below `match_len`.
    pub(crate) fn match_pattern(&self, index: usize) -> PatternID
        requires { index < length (patterns_here self.now) }
        ensures { result ≡ slice_index (patterns_here self.now) index }
    {
        match &self.held {
            Some(handle) => handle.state.match_pattern(index),
            None => unreachable!(),
        }
    }

    /// Ends the search after `read` bytes, with a final answer.
    pub(crate) fn end(&mut self, read: usize, found: Option<HalfMatch>)
        ensures state { self.new.state ≡ None }
        ensures read { self.new.read ≡ read }
        ensures found { self.new.found ≡ found }
        ensures earliest { self.new.earliest ≡ self.old.earliest }
    {
        self.held = None;
        self.read = read;
        self.found = found;
    }

    /// Moves the search to the state that `handle` holds, after `read` bytes. The state's row has this ID.
    pub(crate) fn stand(
        &mut self,
        handle: Handle,
        id: LazyStateID,
        read: usize,
        found: Option<HalfMatch>,
    )
        requires key { IsHandle handle handle.state }
        ensures state { self.new.state ≡ Some handle.state }
        ensures read { self.new.read ≡ read }
        ensures found { self.new.found ≡ found }
        ensures earliest { self.new.earliest ≡ self.old.earliest }
    {
        self.held = Some(handle);
        self.row = id;
        self.read = read;
        self.found = found;
    }
}

/// Shows how many bytes it has read and what it has found, but not its powerset state.
impl fmt::Debug for Pieces {
    fn fmt<W: fmt::Write>(&self, f: &mut fmt::Formatter<W>) -> fmt::Result {
        f.debug_struct("Pieces")
            .field("read", &self.bytes_read())
            .field("match", &self.get_match())
            .finish_non_exhaustive()
    }
}

/// Returns the match found in a piece that begins at `base`, with its offset counted from the first piece; if there is
/// none, what was found before.
#[inline(always)]
pub(crate) fn found_in(
    piece: Option<HalfMatch>,
    base: usize,
    before: Option<HalfMatch>,
) -> Option<HalfMatch>
    requires { IfSome piece (λ half. base + half.offset < 2 ^ 64) }
    ensures { result ≡ found_in piece base before }
{
    match piece {
        Some(half) => Some(HalfMatch::new(half.pattern(), base + half.offset())),
        None => before,
    }
}

/// How a run over a piece ended.
#[derive(Clone, Copy)]
pub(crate) enum PieceEnd {
    /// With the byte at this place: nothing after it can change what is found. The ID belongs to the state after the
    /// byte.
    Over(usize, LazyStateID, Option<HalfMatch>),
    /// After the last byte of the piece, at a state.
    At(LazyStateID, Option<HalfMatch>),
}

/// Returns the error of a run over a piece, with its offset counted from `base` bytes before the piece.
fn error_from(base: usize, error: SearchError) -> SearchError
    requires { HasOffset (λ at. base + at < 2 ^ 64) error }
    ensures { result ≡ error_from base error }
{
    let SearchError::Match(found) = error else {
        return error;
    };
    match *found.kind() {
        MatchErrorKind::Quit { byte, offset } => {
            SearchError::Match(MatchError::quit(byte, base + offset))
        }
        MatchErrorKind::GaveUp { offset } => SearchError::Match(MatchError::gave_up(base + offset)),
        MatchErrorKind::UnsupportedAnchored { .. } => SearchError::Match(found),
    }
}

impl DFA {
    /// Begins a search over a haystack in pieces, for an anchored mode and the byte before the first piece, if there is
    /// one. An earliest search ends at its first match.
    ///
    /// It fails if the DFA skips ends inside characters (`DFA::skips`), and if `DFA::start_state` fails. It reads no
    /// bytes, and needs only the start state from the cache.
    pub fn begin_pieces(
        &self,
        cache: &mut Cache,
        config: &start::Config,
        earliest: bool,
    ) -> Result<Pieces, BeginError>
        requires { IsCacheOf cache.old self.now }
        ensures of { IsCacheOf cache.new self.now }
        ensures pieces { IfOk result (λ p. IsPiecesOf p self.now) }
        ensures begun { IfOk result (HasBegun self.now config.now.anchored config.now.look_behind earliest) }
        ensures effect { IsBeginRun self.now config.now.anchored config.now.look_behind
            (known_of cache.old) (known_of cache.new) (result_err result) }
    {
        start_pieces(self, cache, config, earliest)
    }

    /// Reads the next piece, with any cache of the DFA. Once the answer is final (`Pieces::is_done`), it reads nothing.
    ///
    /// The error for a quit byte has the byte's offset, counted from the first byte of the first piece; the "gave up"
    /// error has the offset of the byte that was to be read next. For the rule for giving up, each piece counts as a
    /// search of its own. An error leaves the search as it was before the piece: you can pass the piece again, for
    /// example with another cache or after a reset. If the pieces have more than `usize::MAX` bytes together, the
    /// search gives up.
    pub fn read_piece(
        &self,
        cache: &mut Cache,
        pieces: &mut Pieces,
        piece: &[u8],
    ) -> Result<(), SearchError>
        requires of { IsCacheOf cache.old self.now }
        requires pieces { IsPiecesOf pieces.old self.now }
        ensures of { IsCacheOf cache.new self.now }
        ensures pieces { IsPiecesOf pieces.new self.now }
        ensures reads { OnOk result (ReadsOn self.now piece.now pieces.old pieces.new) }
        ensures unchanged { OnErr result (pieces.new ≡ pieces.old) }
        ensures effect { IsPieceRun self.now piece.now pieces.old pieces.new
            (known_of cache.old) (known_of cache.new) (result_err result) }
    {
        let Some(from) = resume_pieces(self, cache, pieces)? else {
            return Ok(());
        };
        let base = pieces.bytes_read();
        let Some(after) = base.checked_add(piece.len()) else {
            return Err(SearchError::Match(MatchError::gave_up(base)));
        };
        match run_piece(self, cache, piece, pieces.is_earliest(), from, base)? {
            PieceEnd::Over(at, _, found) => {
                let found = found_in(found, base, pieces.get_match());
                pieces.end(base + at + 1, found);
                Ok(())
            }
            PieceEnd::At(id, found) => {
                let found = found_in(found, base, pieces.get_match());
                let _state = cache.snapshot(id);
                // Always take a new handle: after a clear the same ID can name another state.
                let handle = cache.handle(id)?;
                pieces.stand(handle, id, after, found);
                Ok(())
            }
        }
    }

    /// Returns the match in the pieces so far. `look_ahead` is the byte that follows, which the match does not include,
    /// or `None` if the haystack ends here. The search is unchanged, and more pieces may follow.
    ///
    /// The answer is what `try_search_fwd` finds in the whole haystack. A quit byte as `look_ahead` is an error at its
    /// offset.
    pub fn end_pieces(
        &self,
        cache: &mut Cache,
        pieces: &Pieces,
        look_ahead: Option<u8>,
    ) -> Result<Option<HalfMatch>, SearchError>
        requires of { IsCacheOf cache.old self.now }
        requires pieces { IsPiecesOf pieces.now self.now }
        ensures of { IsCacheOf cache.new self.now }
        ensures answer { IfOk result (EndsHere self.now pieces.now look_ahead) }
        ensures effect { IsAnswerRun self.now look_ahead pieces.now (known_of cache.old) (known_of cache.new)
            (result_err result) }
    {
        reported_is_right(self.get_nfa());
        let Some(from) = resume_pieces(self, cache, pieces)? else {
            return Ok(pieces.get_match());
        };
        let at = pieces.bytes_read();
        cache.search_start(at);
        let next = read(self, cache, from, LazyStateID::UNKNOWN, look_ahead, at, at)?;
        cache.end_search(at);
        Ok(found_at(self, cache, next, at, pieces.get_match()))
    }
}

/// Begins a search in pieces, or a walk.
pub(crate) fn start_pieces(
    dfa: &DFA,
    cache: &mut Cache,
    config: &start::Config,
    earliest: bool,
) -> Result<Pieces, BeginError>
    requires { IsCacheOf cache.old dfa.now }
    ensures of { IsCacheOf cache.new dfa.now }
    ensures pieces { IfOk result (λ p. IsPiecesOf p dfa.now) }
    ensures begun { IfOk result (HasBegun dfa.now config.now.anchored config.now.look_behind earliest) }
    ensures walk { IfOk result (HasBegunWalk dfa.now config.now.anchored config.now.look_behind) }
    ensures early { IfOk result (λ p. p.earliest ≡ earliest) }
    ensures effect { IsBeginRun dfa.now config.now.anchored config.now.look_behind
        (known_of cache.old) (known_of cache.new) (result_err result) }
{
    if dfa.skips() {
        return Err(BeginError::Skips);
    }
    let id = match dfa.start_state(cache, config) {
        Ok(id) => id,
        Err(error) => return Err(BeginError::Start(error)),
    };
    cache.reveal_invariant_of(dfa);
    if id.is_dead() {
        return Ok(Pieces {
            held: None,
            row: id,
            read: 0,
            earliest,
            found: None,
        });
    }
    let _state = cache.snapshot(id);
    match cache.handle(id) {
        Ok(handle) => Ok(Pieces {
            held: Some(handle),
            row: id,
            read: 0,
            earliest,
            found: None,
        }),
        Err(_) => Err(BeginError::Start(StartError::OutOfMemory)),
    }
}

/// Returns the ID of a search's current state, whose row the cache then has; `None` once the answer is final.
#[inline(always)]
pub(crate) fn resume_pieces(
    dfa: &DFA,
    cache: &mut Cache,
    pieces: &Pieces,
) -> Result<Option<LazyStateID>, SearchError>
    requires of { IsCacheOf cache.old dfa.now }
    requires pieces { IsPiecesOf pieces.now dfa.now }
    ensures sound { IsSoundCacheOf cache.new dfa.now }
    ensures resumed { IsResumed dfa.now pieces.now cache.old cache.new result }
{
    cache.reveal_invariant_of(dfa);
    let Some(handle) = &pieces.held else {
        return Ok(None);
    };
    match row_of(dfa, cache, handle, pieces.row) {
        Ok(id) => Ok(Some(id)),
        Err(error) => Err(step_error(error, pieces.read)),
    }
}

/// Returns the ID of a state that is held: its previous ID, if that row still has the state; otherwise a look-up, and
/// the state is added if the cache does not have it.
#[inline(always)]
fn row_of(
    dfa: &DFA,
    cache: &mut Cache,
    handle: &Handle,
    row: LazyStateID,
) -> Result<LazyStateID, StepError>
    requires sound { IsSoundCacheOf cache.old dfa.now }
    requires key { handle.now.key ≡ handle.now.state }
    requires state { IsRowState dfa.now handle.now.state }
    ensures sound { IsSoundCacheOf cache.new dfa.now }
    ensures back { IsRestoreResult dfa.now handle.now.state cache.old cache.new result }
{
    let table = cache.table();
    if table.has_row(row) && *table.state(row) == handle.state {
        return Ok(row);
    }
    cache.restore(dfa, handle)
}

/// Runs over the bytes of a piece from a row. `base` bytes come before the piece: errors have offsets in the whole
/// haystack, and what is found has an offset in the piece. The cache counts the piece as a search that begins at 0.
// It takes the parts of the input, so that they stay in registers.
#[inline(never)]
pub(crate) fn run_piece(
    dfa: &DFA,
    cache: &mut Cache,
    piece: &[u8],
    earliest: bool,
    from: LazyStateID,
    base: usize,
) -> Result<PieceEnd, SearchError>
    requires sound { IsSoundCacheOf cache.old dfa.now }
    requires valid { IsRowId cache.old.store.table from }
    requires room { base + length piece.now < 2 ^ 64 }
    ensures sound { IsSoundCacheOf cache.new dfa.now }
    ensures ran { IsPieceResult dfa.now piece.now earliest from base cache.old cache.new result }
{
    let own = Input::new(piece).earliest(earliest);
    match run_span(dfa, cache, &own, from) {
        Ok(end) => Ok(end),
        Err(error) => Err(error_from(base, error)),
    }
}

/// Runs over the bytes of a span from a row.
#[inline(always)]
fn run_span(
    dfa: &DFA,
    cache: &mut Cache,
    input: &Input<'_>,
    from: LazyStateID,
) -> Result<PieceEnd, SearchError>
    ghost trace: { Trace }
    requires sound { IsSoundCacheOf cache.old dfa.now }
    requires on { IsOnTrace trace Forward dfa.now cache.old.store.table input.now 0 from }
    requires open { input.now.start ≤ input.now.end }
    ensures sound { IsSoundCacheOf cache.new dfa.now }
    ensures ran { IsRunResult trace dfa.now input.now
        (begun (given_up_offset Forward input.now 0) (known_of cache.old)) cache.new result }
{
    let way = Direction::Forward;
    let last = last_place(input);
    cache.search_start(span_offset(input, way, 0));
    let mut run = Place {
        at: 0,
        id: from,
        found: None,
        next: next_known(dfa, cache, input, way, 0, from, last),
    };
    let mut end = near_end(cache, input, way, 0);
    while run.at < last {
        let offset = byte_offset(input, way, run.at);
        let byte = byte_at(input, way, run.at);
        let next = match read_peeked(dfa, cache, run.id, run.next, Some(byte), offset, offset) {
            Ok(next) => next,
            Err(error) => return Err(error),
        };
        if next.is_dead() {
            cache.end_search(offset);
            return Ok(PieceEnd::Over(run.at, next, run.found));
        }
        let found = found_at(
            dfa,
            cache,
            next,
            place_offset(input, way, run.at),
            run.found,
        );
        if input.get_earliest() && found.is_some() {
            cache.end_search(offset);
            return Ok(PieceEnd::Over(run.at, next, found));
        }
        let near = run_to_match(dfa, cache, input, way, run.at + 1, next, found, end);
        let (far, due) = follow_with_leaps(dfa, cache, input, way, near, end);
        run = far;
        end = due;
    }
    cache.end_search(span_offset(input, way, last));
    Ok(PieceEnd::At(run.id, run.found))
}
