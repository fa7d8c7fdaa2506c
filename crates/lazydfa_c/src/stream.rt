//! A search in pieces, together with the regex it is a search of.
ghost use Rattle.std.specs.Prelude.{◌≡◌, IfOk, None, OnErr, OnOk, false, true};
ghost use Rattle.std.specs.Result.{result_err};
ghost use Rattle.automata_hybrid.specs.Pieces.Answers.{EndsHere, ReadsOn};
ghost use Rattle.automata_hybrid.specs.Known.Pieces.{IsAnswerRun, IsPieceRun};
ghost use Rattle.automata_hybrid.specs.Known.Stores.{known_of};
ghost use Rattle.automata_hybrid.specs.Pieces.State.{IsPiecesOf};
ghost use Rattle.regex_automata.specs.Promises.{IsCacheOf};

use patterns::Pattern;
use regex_automata::HalfMatch;
use regex_automata::hybrid::SearchError;
use regex_automata::hybrid::dfa::{Cache, Pieces};
use std::marker::Model;
use std::sync::Arc;

/// A search in pieces by the forward DFA of a regex, which it shares.
#[derive(Drop)]
pub struct Stream {
    pattern: Arc<Pattern>,
    pieces: Pieces,
}

impl Model for Stream {
    ghost use Rattle.automata_hybrid.specs.Pieces.State.{IsPiecesOf};
    ghost use Rattle.lazydfa_c.specs.Streams.{StreamView, stream_view};

    ghost Value = { StreamView };

    ghost view = { stream_view };

    ghost invariant = { λ s. IsPiecesOf s.pieces s.pattern.value.regex.forward };
}

impl Stream {
    /// Returns a search that was begun by the regex's forward DFA.
    pub fn of(pattern: Arc<Pattern>, pieces: Pieces) -> Stream
        requires { IsPiecesOf pieces pattern.value.regex.forward }
        ensures machine { result.machine ≡ pattern.value.regex.forward }
        ensures pieces { result.pieces ≡ pieces }
    {
        Stream { pattern, pieces }
    }

    /// Whether the result is final, whatever follows.
    pub fn is_done(&self) -> bool
        ensures yes { result ≡ true → self.now.pieces.state ≡ None }
        ensures no { result ≡ false → self.now.pieces.state ≡ None → ⊥ }
    {
        self.pieces.is_done()
    }

    /// Reads the next piece, with a cache of the forward DFA.
    pub fn read(&mut self, cache: &mut Cache, piece: &[u8]) -> Result<(), SearchError>
        requires { IsCacheOf cache.old self.old.machine }
        ensures of { IsCacheOf cache.new self.old.machine }
        ensures machine { self.new.machine ≡ self.old.machine }
        ensures reads { OnOk result (ReadsOn self.old.machine piece.now self.old.pieces self.new.pieces) }
        ensures unchanged { OnErr result (self.new.pieces ≡ self.old.pieces) }
        ensures effect { IsPieceRun self.old.machine piece.now self.old.pieces self.new.pieces
            (known_of cache.old) (known_of cache.new) (result_err result) }
    {
        let regex = &self.pattern.regex;
        regex.forward().read_piece(cache, &mut self.pieces, piece)
    }

    /// Returns the match in the pieces so far, with a cache of the forward DFA, where `ahead` is the byte that follows,
    /// if any.
    pub fn end(
        &self,
        cache: &mut Cache,
        ahead: Option<u8>,
    ) -> Result<Option<HalfMatch>, SearchError>
        requires { IsCacheOf cache.old self.now.machine }
        ensures of { IsCacheOf cache.new self.now.machine }
        ensures answer { IfOk result (EndsHere self.now.machine self.now.pieces ahead) }
        ensures effect { IsAnswerRun self.now.machine ahead self.now.pieces
            (known_of cache.old) (known_of cache.new) (result_err result) }
    {
        self.pattern
            .regex
            .forward()
            .end_pieces(cache, &self.pieces, ahead)
    }
}
