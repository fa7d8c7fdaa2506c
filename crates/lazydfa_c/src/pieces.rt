//! Searches over a haystack that arrives in pieces, one for each cache. Other searches may use the cache between two
//! pieces.
ghost use Rattle.std.specs.Prelude.{◌≡◌, ◌==◌, not};
ghost use Rattle.lazydfa_c.specs.Calls.{KeepsUnlessCache, KeepsUnlessOpen, OfHandle, OfObject, WritesIfDone};
ghost use Rattle.lazydfa_c.specs.Pieces.{BeginsBy, BeginsPieces, EndsIn, OfNumbers, ReadsIn};
ghost use Rattle.lazydfa_c.specs.Requests.{beside_of, start_of};

use crate::code::Code;
use crate::handle::Handle;
use crate::input::{FoundHalf, beside_of, start_of};
use crate::object::{Object, Searcher};
use crate::status::Status;
use crate::stream::Stream;
use regex_automata::util::start;
use std::alloc::Global;

impl Searcher {
    /// Begins a search in pieces by the forward DFA, which replaces the previous one. If it fails, the previous one
    /// remains.
    fn begin_pieces(&mut self, start: &start::Config, earliest: bool) -> Status
        ensures { BeginsPieces earliest start.now self.old self.new result }
    {
        let shared = &self.shared;
        let dfa = shared.pattern.regex.forward();
        match dfa.begin_pieces(self.cache.forward_mut(), start, earliest) {
            Ok(pieces) => match shared.pattern.clone() {
                Ok(pattern) => {
                    self.pieces.search = Some(Stream::of(pattern, pieces));
                    Status::from(Code::Done)
                }
                Err(error) => Status::from(error),
            },
            Err(error) => Status::from(error),
        }
    }

    /// Reads the next piece, and writes whether the result is final. The status is `Code::NotBegun` if no search in
    /// pieces was begun.
    fn read_piece(&mut self, piece: &[u8], done: &mut u32) -> Status
        ensures { ReadsIn piece.now done.new self.old self.new result }
    {
        let Some(stream) = &mut self.pieces.search else {
            *done = 0;
            return Status::from(Code::NotBegun);
        };
        let read = stream.read(self.cache.forward_mut(), piece);
        *done = if stream.is_done() { 1 } else { 0 };
        match read {
            Ok(()) => Status::from(Code::Done),
            Err(error) => Status::from(error),
        }
    }

    /// Writes the end of the match in the pieces so far, where `ahead` is the byte that follows them, if any. The
    /// status is `Code::Nothing` if there is no match, and `Code::NotBegun` if no search in pieces was begun.
    fn end_pieces(&mut self, ahead: Option<u8>, found: &mut FoundHalf) -> Status
        ensures found { EndsIn found.new ahead self.old self.new result }
        ensures written { WritesIfDone found.old found.new result }
    {
        let Some(stream) = &self.pieces.search else {
            return Status::from(Code::NotBegun);
        };
        match stream.end(self.cache.forward_mut(), ahead) {
            Ok(Some(half)) => {
                *found = FoundHalf::of(half);
                Status::from(Code::Done)
            }
            Ok(None) => Status::from(Code::Nothing),
            Err(error) => Status::from(error),
        }
    }
}

/// Begins a search in pieces over a cache. The status is `Code::Kind` if the object is not a cache, and
/// `Code::Argument` if `start` is `None`.
fn begin_in(object: &mut Object, start: Option<start::Config>, earliest: bool) -> Status
    ensures { OfObject (BeginsBy earliest start) object.old object.new result }
{
    match object {
        Object::Searcher(searcher) => match start {
            Some(start) => searcher.begin_pieces(&start, earliest),
            None => Status::from(Code::Argument),
        },
        Object::Builder(_) | Object::Regex(_) => Status::from(Code::Kind),
    }
}

/// Reads the next piece over a cache, and writes whether the result is final. The status is `Code::Kind` if the object
/// is not a cache.
fn read_in(object: &mut Object, piece: &[u8], done: &mut u32) -> Status
    ensures reads { OfObject (ReadsIn piece.now done.new) object.old object.new result }
    ensures kept { KeepsUnlessCache (done.new ≡ done.old) object.old }
{
    match object {
        Object::Searcher(searcher) => searcher.read_piece(piece, done),
        Object::Builder(_) | Object::Regex(_) => Status::from(Code::Kind),
    }
}

/// Writes the end of the match in the pieces so far, over a cache. The status is `Code::Kind` if the object is not a
/// cache, and `Code::Argument` if `ahead` is `None`.
fn end_in(object: &mut Object, ahead: Option<Option<u8>>, found: &mut FoundHalf) -> Status
    ensures found { OfObject (OfNumbers (EndsIn found.new) ahead) object.old object.new result }
    ensures written { WritesIfDone found.old found.new result }
{
    match object {
        Object::Searcher(searcher) => match ahead {
            Some(ahead) => searcher.end_pieces(ahead, found),
            None => Status::from(Code::Argument),
        },
        Object::Builder(_) | Object::Regex(_) => Status::from(Code::Kind),
    }
}

/// Begins a search in pieces over a handle's cache. Two numbers give the anchored mode, and a third gives the byte
/// before the pieces, if any.
#[unsafe(no_mangle)]
pub extern "C" fn lazydfa_raw_pieces_begin(
    alloc: Global,
    cache: &mut Handle,
    anchored: u32,
    pattern: u32,
    behind: u32,
    earliest: u32,
) -> Status
    ensures { OfHandle (BeginsBy (not (earliest == 0)) (start_of anchored pattern behind)) cache.old cache.new result }
{
    let Some(mut object) = cache.take(alloc) else {
        return Status::from(Code::Closed);
    };
    let start = start_of(anchored, pattern, behind);
    let status = begin_in(object.as_mut(), start, earliest != 0);
    cache.put(object);
    status
}

/// Reads the next piece of the search over a handle's cache, and writes whether the result is final: 0 if no search was
/// begun.
#[unsafe(no_mangle)]
pub extern "C" fn lazydfa_raw_pieces_read(
    alloc: Global,
    cache: &mut Handle,
    piece: &[u8],
    done: &mut u32,
) -> Status
    ensures reads { OfHandle (ReadsIn piece.now done.new) cache.old cache.new result }
    ensures none { KeepsUnlessOpen (done.new ≡ 0) cache.old }
{
    *done = 0;
    let Some(mut object) = cache.take(alloc) else {
        return Status::from(Code::Closed);
    };
    let status = read_in(object.as_mut(), piece, done);
    cache.put(object);
    status
}

/// Writes the end of the match in the pieces so far, for the search over a handle's cache. A number gives the byte
/// after the pieces, if any.
#[unsafe(no_mangle)]
pub extern "C" fn lazydfa_raw_pieces_end(
    alloc: Global,
    cache: &mut Handle,
    ahead: u32,
    found: &mut FoundHalf,
) -> Status
    ensures found { OfHandle (OfNumbers (EndsIn found.new) (beside_of ahead)) cache.old cache.new result }
    ensures written { WritesIfDone found.old found.new result }
{
    let Some(mut object) = cache.take(alloc) else {
        return Status::from(Code::Closed);
    };
    let status = end_in(object.as_mut(), beside_of(ahead), found);
    cache.put(object);
    status
}
