//! Walks over a haystack that arrives in pieces, one for each cache. A walk lists the offsets at which patterns match,
//! in order. Other searches may use the cache between two calls.
ghost use Rattle.std.specs.Prelude.{◌≡◌, None};
ghost use Rattle.lazydfa_c.specs.Calls.{KeepsUnlessCache, KeepsUnlessOpen, OfHandle, OfObject, WritesIfDone};
ghost use Rattle.lazydfa_c.specs.Pieces.{OfNumbers};
ghost use Rattle.lazydfa_c.specs.Requests.{beside_of, start_of};
ghost use Rattle.lazydfa_c.specs.Stops.{nowhere};
ghost use Rattle.lazydfa_c.specs.Walks.{BeginsWalk, BeginsWalkBy, EndsWalkIn, ListsIn, WalksIn};

use crate::code::Code;
use crate::handle::Handle;
use crate::input::{beside_of, start_of};
use crate::object::{Object, Searcher};
use crate::status::Status;
use crate::walk::{Stop, Walk};
use regex_automata::util::start;
use std::alloc::Global;

impl Searcher {
    /// Begins a walk in pieces by the forward DFA, which replaces the previous one. If it fails, the previous one
    /// remains.
    fn begin_walk(&mut self, start: &start::Config) -> Status
        ensures { BeginsWalk start.now self.old self.new result }
    {
        let shared = &self.shared;
        let dfa = shared.pattern.regex.forward();
        match dfa.begin_walk(self.cache.forward_mut(), start) {
            Ok(walk) => match shared.pattern.clone() {
                Ok(pattern) => {
                    self.pieces.walk = Some(Walk::of(pattern, walk));
                    Status::from(Code::Done)
                }
                Err(error) => Status::from(error),
            },
            Err(error) => Status::from(error),
        }
    }

    /// Reads a piece up to the next match, and writes the walk's position. The status is `Code::Nothing` if there is no
    /// match in the piece, and `Code::NotBegun` if no walk was begun.
    fn walk_piece(&mut self, piece: &[u8], stop: &mut Stop) -> Status
        ensures { WalksIn piece.now stop.new self.old self.new result }
    {
        *stop = Stop::nowhere();
        let Some(walk) = &mut self.pieces.walk else {
            return Status::from(Code::NotBegun);
        };
        match walk.read(self.cache.forward_mut(), piece) {
            Ok(read) => {
                *stop = walk.stop(read);
                stop.status()
            }
            Err(error) => Status::from(error),
        }
    }

    /// Lists the patterns that match at the end of the pieces so far, where `ahead` is the byte that follows them, if
    /// any, and writes the walk's position. The status is `Code::Nothing` if no pattern matches there, and
    /// `Code::NotBegun` if no walk was begun.
    fn end_walk(&mut self, ahead: Option<u8>, stop: &mut Stop) -> Status
        ensures { EndsWalkIn ahead stop.new self.old self.new result }
    {
        *stop = Stop::nowhere();
        let Some(walk) = &mut self.pieces.walk else {
            return Status::from(Code::NotBegun);
        };
        match walk.end(self.cache.forward_mut(), ahead) {
            Ok(()) => {
                *stop = walk.stop(0);
                stop.status()
            }
            Err(error) => Status::from(error),
        }
    }

    /// Writes the listed pattern at an index. The status is `Code::Argument` if fewer are listed, and `Code::NotBegun`
    /// if no walk was begun.
    fn walk_pattern(&self, index: usize, pattern: &mut u32) -> Status
        ensures lists { ListsIn index pattern.new self.now self.now result }
        ensures written { WritesIfDone pattern.old pattern.new result }
    {
        let Some(walk) = &self.pieces.walk else {
            return Status::from(Code::NotBegun);
        };
        match walk.pattern(index) {
            Some(found) => {
                *pattern = found.as_u32();
                Status::from(Code::Done)
            }
            None => Status::from(Code::Argument),
        }
    }
}

/// Begins a walk in pieces over a cache. The status is `Code::Kind` if the object is not a cache, and `Code::Argument`
/// if `start` is `None`.
fn begin_in(object: &mut Object, start: Option<start::Config>) -> Status
    ensures { OfObject (BeginsWalkBy start) object.old object.new result }
{
    match object {
        Object::Searcher(searcher) => match start {
            Some(start) => searcher.begin_walk(&start),
            None => Status::from(Code::Argument),
        },
        Object::Builder(_) | Object::Regex(_) => Status::from(Code::Kind),
    }
}

/// Reads a piece over a cache up to the next match, and writes the walk's position. The status is `Code::Kind` if the
/// object is not a cache.
fn walk_in(object: &mut Object, piece: &[u8], stop: &mut Stop) -> Status
    ensures walks { OfObject (WalksIn piece.now stop.new) object.old object.new result }
    ensures kept { KeepsUnlessCache (stop.new ≡ stop.old) object.old }
{
    match object {
        Object::Searcher(searcher) => searcher.walk_piece(piece, stop),
        Object::Builder(_) | Object::Regex(_) => Status::from(Code::Kind),
    }
}

/// Lists the patterns that match at the end of the pieces so far, over a cache, and writes the walk's position. The
/// status is `Code::Kind` if the object is not a cache, and `Code::Argument` if `ahead` is `None`.
fn end_in(object: &mut Object, ahead: Option<Option<u8>>, stop: &mut Stop) -> Status
    ensures ends { OfObject (OfNumbers (λ a. EndsWalkIn a stop.new) ahead) object.old object.new result }
    ensures kept { KeepsUnlessCache (stop.new ≡ stop.old) object.old }
    ensures argument { ahead ≡ None → stop.new ≡ stop.old }
{
    match object {
        Object::Searcher(searcher) => match ahead {
            Some(ahead) => searcher.end_walk(ahead, stop),
            None => Status::from(Code::Argument),
        },
        Object::Builder(_) | Object::Regex(_) => Status::from(Code::Kind),
    }
}

/// Writes the pattern at an index that the walk over a cache lists. The status is `Code::Kind` if the object is not a
/// cache.
fn pattern_in(object: &mut Object, index: usize, pattern: &mut u32) -> Status
    ensures lists { OfObject (ListsIn index pattern.new) object.old object.new result }
    ensures written { WritesIfDone pattern.old pattern.new result }
{
    match object {
        Object::Searcher(searcher) => searcher.walk_pattern(index, pattern),
        Object::Builder(_) | Object::Regex(_) => Status::from(Code::Kind),
    }
}

/// Begins a walk in pieces over a handle's cache. Two numbers give the anchored mode, and a third gives the byte before
/// the pieces, if any.
#[unsafe(no_mangle)]
pub extern "C" fn lazydfa_raw_walk_begin(
    alloc: Global,
    cache: &mut Handle,
    anchored: u32,
    pattern: u32,
    behind: u32,
) -> Status
    ensures { OfHandle (BeginsWalkBy (start_of anchored pattern behind)) cache.old cache.new result }
{
    let Some(mut object) = cache.take(alloc) else {
        return Status::from(Code::Closed);
    };
    let status = begin_in(object.as_mut(), start_of(anchored, pattern, behind));
    cache.put(object);
    status
}

/// Reads a piece up to the next match, by the walk over a handle's cache, and writes the walk's position.
#[unsafe(no_mangle)]
pub extern "C" fn lazydfa_raw_walk_read(
    alloc: Global,
    cache: &mut Handle,
    piece: &[u8],
    stop: &mut Stop,
) -> Status
    ensures walks { OfHandle (WalksIn piece.now stop.new) cache.old cache.new result }
    ensures none { KeepsUnlessOpen (stop.new ≡ nowhere) cache.old }
{
    *stop = Stop::nowhere();
    let Some(mut object) = cache.take(alloc) else {
        return Status::from(Code::Closed);
    };
    let status = walk_in(object.as_mut(), piece, stop);
    cache.put(object);
    status
}

/// Lists the patterns that match at the end of the pieces so far, by the walk over a handle's cache, and writes the
/// walk's position. A number gives the byte after the pieces, if any.
#[unsafe(no_mangle)]
pub extern "C" fn lazydfa_raw_walk_end(
    alloc: Global,
    cache: &mut Handle,
    ahead: u32,
    stop: &mut Stop,
) -> Status
    ensures ends { OfHandle (OfNumbers (λ a. EndsWalkIn a stop.new) (beside_of ahead)) cache.old cache.new result }
    ensures none { KeepsUnlessOpen (stop.new ≡ nowhere) cache.old }
    ensures argument { beside_of ahead ≡ None → stop.new ≡ nowhere }
{
    *stop = Stop::nowhere();
    let Some(mut object) = cache.take(alloc) else {
        return Status::from(Code::Closed);
    };
    let status = end_in(object.as_mut(), beside_of(ahead), stop);
    cache.put(object);
    status
}

/// Writes the pattern at an index that the walk over a handle's cache lists.
#[unsafe(no_mangle)]
pub extern "C" fn lazydfa_raw_walk_pattern(
    alloc: Global,
    cache: &mut Handle,
    index: usize,
    pattern: &mut u32,
) -> Status
    ensures lists { OfHandle (ListsIn index pattern.new) cache.old cache.new result }
    ensures written { WritesIfDone pattern.old pattern.new result }
{
    let Some(mut object) = cache.take(alloc) else {
        return Status::from(Code::Closed);
    };
    let status = pattern_in(object.as_mut(), index, pattern);
    cache.put(object);
    status
}
