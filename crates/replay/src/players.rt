//! What a replay keeps between requests.
ghost use Rattle.std.specs.Prelude.{◌≡◌, IfOk, Some, slice_get};
ghost use Rattle.replay.specs.Histories.{History, start};
ghost use Rattle.replay.specs.Players.{HasPlayed, IsReplyTo, MakesCaches, KeepsHistory};
ghost use Rattle.regex_automata.specs.Regexes.Caches.{AreFresh};
ghost use Rattle.replay.specs.declared.requests.Request.TheVariants as request;

use crate::iteration::matches_upto;
use crate::patterns::patterns_below;
use crate::requests::{Fault, Reply, Request};
use crate::tokens::tokens_upto;
use crate::walks::{KeptWalk, step_at};
use automata_base::util::search::{Direction, Input};
use automata_config::error::SearchError;
use regex_automata::hybrid::dfa::OverlappingState;
use regex_automata::hybrid::regex::{Cache, Regex};
use std::alloc::{AllocError, Global};

/// The current regex, its caches, and the walks so far.
pub struct Player<'r, 'h> {
    alloc: Global,
    regexes: &'r [Regex],
    pub(super) regex: &'r Regex,
    current: usize,
    pub(super) cache: Cache,
    walks: Vec<KeptWalk<'h>>,
}

// With its own `drop`, the proof of an owner has one step for it instead of one for each part.
impl<'r, 'h> Drop for Player<'r, 'h> {
    fn drop(self) {
        let Self {
            alloc: _alloc,
            regexes: _regexes,
            regex: _regex,
            current: _current,
            cache: _cache,
            walks: _walks,
        } = self;
    }
}

impl<'r, 'h> Player<'r, 'h> {
    /// Returns the state before the first request: regex 0 is current, with fresh caches.
    #[tactic(auto, using(crate::proofs::Replies::Contracts::fresh_caches))]
    pub fn new(
        alloc: Global,
        regexes: &'r [Regex],
        regex: &'r Regex,
    ) -> Result<Player<'r, 'h>, AllocError>
        requires { slice_get regexes.now 0 ≡ Some regex.now }
        ensures at { IfOk result (HasPlayed start) }
        ensures regexes { IfOk result (λ player. player.regexes.now ≡ regexes.now) }
        ensures fresh { IfOk result (λ player. AreFresh regex.now player.cache) }
    {
        let cache = regex.create_cache()?;
        Ok(Player {
            alloc,
            regexes,
            regex,
            current: 0,
            cache,
            walks: Vec::new(alloc),
        })
    }

    /// Answers one request.
    pub fn answer(&mut self, request: &Request<'h>) -> Reply
        requires { (h : History) × HasPlayed h self.old }
        ensures regexes { self.new.regexes.now ≡ self.old.regexes.now }
        ensures reply { IsReplyTo self.old request.now result }
        ensures at { KeepsHistory self.old request.now result self.new }
        ensures made { MakesCaches self.old request.now result self.new }
    {
        let alloc = self.alloc;
        let regex = self.regex;
        match request {
            Request::SearchFwd(input) => Reply::Half(
                regex
                    .forward()
                    .try_search_fwd(self.cache.forward_mut(), input),
            ),
            Request::SearchRev(input) => Reply::Half(
                regex
                    .reverse()
                    .try_search_rev(self.cache.reverse_mut(), input),
            ),
            Request::Find(input) => Reply::Span(regex.find(&mut self.cache, input)),
            Request::IsMatch(input) => Reply::Truth(regex.is_match(&mut self.cache, input)),
            Request::Iterate(input) => {
                let (found, error) = matches_upto(alloc, regex, &mut self.cache, input.copied());
                Reply::Spans { found, error }
            }
            Request::Tokenise(input) => {
                let (found, error) = tokens_upto(alloc, regex, &mut self.cache, input.copied());
                Reply::Tokens { found, error }
            }
            Request::BeginWalk { way, input } => self.begin(*way, input),
            Request::StepWalk(number) => self.step(*number),
            Request::Which { capacity, input } => {
                let (found, error) = patterns_below(
                    alloc,
                    regex.forward(),
                    self.cache.forward_mut(),
                    *capacity,
                    input,
                );
                Reply::Patterns { found, error }
            }
            Request::Reset(number) => self.reset(*number),
        }
    }

    /// Begins a walk of the current regex.
    fn begin(&mut self, way: Direction, input: &Input<'h>) -> Reply
        requires { (h : History) × HasPlayed h self.old }
        ensures regexes { self.new.regexes.now ≡ self.old.regexes.now }
        ensures reply { IsReplyTo self.old (request.BeginWalk way input.now) result }
        ensures at { KeepsHistory self.old (request.BeginWalk way input.now) result self.new }
        ensures made { MakesCaches self.old (request.BeginWalk way input.now) result self.new }
    {
        let number = self.walks.len();
        let walk = KeptWalk {
            regex: self.current,
            way,
            input: input.copied(),
            state: OverlappingState::start(),
        };
        let Ok(()) = self.walks.push(walk) else {
            return Reply::Begun(Err(SearchError::OutOfMemory));
        };
        Reply::Begun(Ok(number))
    }

    /// Makes one step of a walk, if it belongs to the current regex.
    fn step(&mut self, number: usize) -> Reply
        requires { (h : History) × HasPlayed h self.old }
        ensures regexes { self.new.regexes.now ≡ self.old.regexes.now }
        ensures reply { IsReplyTo self.old (request.StepWalk number) result }
        ensures at { KeepsHistory self.old (request.StepWalk number) result self.new }
        ensures made { MakesCaches self.old (request.StepWalk number) result self.new }
    {
        let of = match self.walks.get(number) {
            Some(walk) => walk.regex,
            None => return Reply::Bad(Fault::NoWalk),
        };
        if of != self.current {
            return Reply::Bad(Fault::OtherRegex);
        }
        let regex = self.regex;
        Reply::Half(step_at(&mut self.walks, number, regex, &mut self.cache))
    }

    /// Makes regex `number` the current one, with fresh caches. An error changes nothing.
    #[tactic(auto, using(crate::proofs::Replies::Contracts::fresh_caches))]
    fn reset(&mut self, number: usize) -> Reply
        requires { (h : History) × HasPlayed h self.old }
        ensures regexes { self.new.regexes.now ≡ self.old.regexes.now }
        ensures reply { IsReplyTo self.old (request.Reset number) result }
        ensures at { KeepsHistory self.old (request.Reset number) result self.new }
        ensures made { MakesCaches self.old (request.Reset number) result self.new }
    {
        let regexes = self.regexes;
        match regexes.get(number) {
            None => Reply::Bad(Fault::NoRegex),
            Some(regex) => match regex.reset_cache(&mut self.cache) {
                Ok(()) => {
                    self.regex = regex;
                    self.current = number;
                    Reply::Done(Ok(()))
                }
                Err(_) => Reply::Done(Err(SearchError::OutOfMemory)),
            },
        }
    }
}
