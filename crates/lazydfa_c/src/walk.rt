//! A walk in pieces, together with the regex whose matches it lists.
ghost use Rattle.std.specs.Prelude.{◌≡◌, ◌<◌, IfOk, IsSomeAnd, None, OnErr, OnOk, length, slice_get, slice_index};
ghost use Rattle.std.specs.Result.{result_err};
ghost use Rattle.automata_hybrid.specs.Pieces.State.{IsPiecesOf};
ghost use Rattle.automata_hybrid.specs.Known.Pieces.{IsWalkCallRun, IsWalkEndRun};
ghost use Rattle.automata_hybrid.specs.Known.Stores.{known_of};
ghost use Rattle.automata_hybrid.specs.Pieces.Walks.{EndsWith, IsWalked};
ghost use Rattle.lazydfa_c.specs.Stops.{nowhere, stop_of, stop_status};
ghost use Rattle.lazydfa_c.specs.Streams.{listed, offset_of};
ghost use Rattle.regex_automata.specs.Promises.{IsCacheOf};

use crate::code::Code;
use crate::status::Status;
use patterns::Pattern;
use regex_automata::PatternID;
use regex_automata::hybrid::SearchError;
use regex_automata::hybrid::dfa::{Cache, PiecesWalk, WalkEnd};
use std::marker::Model;
use std::sync::Arc;

/// The position of a walk: how many bytes of a piece were read, the offset of the match, in bytes, and how many
/// patterns match there.
#[repr(C)]
#[derive(Clone, Copy)]
pub struct Stop {
    pub read: usize,
    pub offset: usize,
    pub patterns: usize,
}

impl Stop {
    /// The position after no byte, with no match.
    pub fn nowhere() -> Stop
        ensures { result ≡ nowhere }
    {
        Stop {
            read: 0,
            offset: 0,
            patterns: 0,
        }
    }

    /// Returns the status: `Code::Done` if patterns match there, and `Code::Nothing` if none do.
    pub fn status(&self) -> Status
        ensures { result ≡ stop_status self.now.patterns }
    {
        if self.patterns == 0 {
            Status::from(Code::Nothing)
        } else {
            Status::from(Code::Done)
        }
    }
}

/// A walk in pieces by the forward DFA of a shared regex. It lists the patterns that match at its current offset, or,
/// once `end` was called, those that match at the end of the haystack.
#[derive(Drop)]
pub struct Walk {
    pattern: Arc<Pattern>,
    walk: PiecesWalk,
    end: Option<WalkEnd>,
}

impl Model for Walk {
    ghost use Rattle.automata_hybrid.specs.Pieces.State.{IsPiecesOf};
    ghost use Rattle.lazydfa_c.specs.Streams.{WalkView, walk_view};

    ghost Value = { WalkView };

    ghost view = { walk_view };

    ghost invariant = { λ s. IsPiecesOf s.walk s.pattern.value.regex.forward };
}

impl Walk {
    /// Returns a walk that was begun by the regex's forward DFA.
    pub fn of(pattern: Arc<Pattern>, walk: PiecesWalk) -> Walk
        requires { IsPiecesOf walk pattern.value.regex.forward }
        ensures machine { result.machine ≡ pattern.value.regex.forward }
        ensures walk { result.walk ≡ walk }
        ensures end { result.end ≡ None }
    {
        Walk {
            pattern,
            walk,
            end: None,
        }
    }

    /// Reads a piece up to the next match, with a cache of the forward DFA, and returns the number of bytes read.
    pub fn read(&mut self, cache: &mut Cache, piece: &[u8]) -> Result<usize, SearchError>
        requires { IsCacheOf cache.old self.old.machine }
        ensures of { IsCacheOf cache.new self.old.machine }
        ensures machine { self.new.machine ≡ self.old.machine }
        ensures walked { IfOk result (IsWalked self.old.machine piece.now self.old.walk self.new.walk) }
        ensures listed { OnOk result (self.new.end ≡ None) }
        ensures unchanged { OnErr result ((self.new.walk ≡ self.old.walk) × (self.new.end ≡ self.old.end)) }
        ensures effect { IsWalkCallRun self.old.machine piece.now self.old.walk self.new.walk
            (known_of cache.old) (known_of cache.new) (result_err result) }
    {
        let regex = &self.pattern.regex;
        match regex.forward().walk_piece(cache, &mut self.walk, piece) {
            Ok(read) => {
                self.end = None;
                Ok(read)
            }
            Err(error) => Err(error),
        }
    }

    /// Lists the patterns that match at the end of the pieces so far, with a cache of the forward DFA, where `ahead` is
    /// the byte that follows, if any.
    pub fn end(&mut self, cache: &mut Cache, ahead: Option<u8>) -> Result<(), SearchError>
        requires { IsCacheOf cache.old self.old.machine }
        ensures of { IsCacheOf cache.new self.old.machine }
        ensures machine { self.new.machine ≡ self.old.machine }
        ensures walk { self.new.walk ≡ self.old.walk }
        ensures ends { OnOk result (IsSomeAnd self.new.end (EndsWith self.old.machine self.old.walk ahead)) }
        ensures unchanged { OnErr result (self.new.end ≡ self.old.end) }
        ensures effect { IsWalkEndRun self.old.machine ahead self.old.walk (known_of cache.old) (known_of cache.new)
            (result_err result) }
    {
        let regex = &self.pattern.regex;
        match regex.forward().end_walk(cache, &self.walk, ahead) {
            Ok(end) => {
                self.end = Some(end);
                Ok(())
            }
            Err(error) => Err(error),
        }
    }

    /// Returns how many patterns the walk lists.
    fn len(&self) -> usize
        ensures { result ≡ length (listed self.now) }
    {
        match &self.end {
            Some(end) => end.match_len(),
            None => self.walk.match_len(),
        }
    }

    /// Returns the listed pattern at an index.
    fn at(&self, index: usize) -> PatternID
        requires { index < length (listed self.now) }
        ensures { result ≡ slice_index (listed self.now) index }
    {
        match &self.end {
            Some(end) => end.match_pattern(index),
            None => self.walk.match_pattern(index),
        }
    }

    /// Returns the listed pattern at an index, or `None` if fewer are listed.
    pub fn pattern(&self, index: usize) -> Option<PatternID>
        ensures { result ≡ slice_get (listed self.now) index }
    {
        if index < self.len() {
            Some(self.at(index))
        } else {
            None
        }
    }

    /// Returns the offset at which the listed patterns match.
    fn offset(&self) -> usize
        ensures { result ≡ offset_of self.now }
    {
        match &self.end {
            Some(_) => self.walk.bytes_read(),
            None => match self.walk.get_match() {
                Some(half) => half.offset(),
                None => 0,
            },
        }
    }

    /// Returns the position of the walk after it has read this many bytes of a piece.
    pub fn stop(&self, read: usize) -> Stop
        ensures { result ≡ stop_of read self.now }
    {
        Stop {
            read,
            offset: self.offset(),
            patterns: self.len(),
        }
    }
}
