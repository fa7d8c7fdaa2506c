//! Follows leaps, which read several bytes each, and between them cached transitions one by one. It starts only from
//! untagged IDs, far into a run.
ghost use Rattle.std.specs.Prelude.{ℕ, ◌≡◌, ◌+◌, ◌-◌, ◌^◌, ◌<◌, ◌≤◌, length};
ghost use Rattle.automata_base.specs.ByteClasses.Classes.{AreClasses, eoi_class};
ghost use Rattle.automata_hybrid.specs.Cache.Ids.{offset_limit};
ghost use Rattle.automata_hybrid.specs.Cache.Table.{IsRowId};
ghost use Rattle.automata_hybrid.specs.Private.Cache.Ids.{HasOnly};
ghost use Rattle.automata_hybrid.specs.Private.Cache.Leaps.{AreLeaps};
ghost use Rattle.automata_hybrid.specs.Private.Cache.Sound.{IsSoundCacheOf};
ghost use Rattle.automata_hybrid.specs.Private.Fast.Leaps.{IsLeapt, LeadsIds, column_of};
ghost use Rattle.automata_hybrid.specs.Private.Fast.SelfLoops.{byte_in};
ghost use Rattle.automata_hybrid.specs.Private.Searches.PassContracts.{FollowsAlong, MayBegin, input_at};
ghost use Rattle.automata_hybrid.specs.Private.Searches.PassState.{IsPeekedAlong, IsNextCell, IsOnTrace, IsRun};
ghost use Rattle.automata_hybrid.specs.Private.Searches.PassState.{MayFollow};
ghost use Rattle.automata_hybrid.specs.Private.Searches.Traces.{IsTrace};
ghost use Rattle.automata_hybrid.specs.Searches.Traces.{Trace};

use crate::cache::Cache;
use crate::cache::leaps::{Leaps, MARK};
use crate::dfa::DFA;
use crate::id::LazyStateID;
use crate::search::direction::{bytes_from, input_of, last_place, span_offset};
use crate::search::fast::follow::{Spot, Stop, follow, next_known};
use crate::search::fast::self_loop::byte_at;
use automata_base::util::search::{Anchored, Direction, Input, Span};

/// Leaps that read fewer bytes than this were short.
const SHORT: usize = 32;

/// The minimum number of bytes that are followed one by one after leaps.
const FEW: usize = 8;

/// The maximum number of bytes that are followed one by one after short leaps.
const MANY: usize = 256;

/// Leaping stops after this many leaps in succession that lead to the same row: a self-loop is followed faster in other
/// ways.
const LOOPS: usize = 32;

/// Where leaps stopped.
#[derive(Clone, Copy)]
struct Leapt {
    /// The number of bytes that they read.
    len: usize,
    /// The index of the row's first cell.
    row: u32,
}

/// The ID at which leaps stopped.
#[derive(Clone, Copy)]
struct Landing {
    /// The number of bytes that they read.
    len: usize,
    id: LazyStateID,
}

/// Returns how many leaps in succession have led to the same row.
#[inline(always)]
fn again_after(same: bool, again: usize) -> usize
    requires { again < 32 }
    ensures { result ≤ 32 }
{
    if same { again + 1 } else { 0 }
}

/// Returns how many bytes are followed one by one after leaps over `len` bytes: after short leaps twice as many as the
/// last time, but at most `MANY`; otherwise `FEW`.
fn wait_after(len: usize, wait: usize) -> usize
    requires some { 8 ≤ wait }
    requires most { wait ≤ 256 }
    ensures some { 8 ≤ result }
    ensures most { result ≤ 256 }
{
    if len < SHORT { MANY.min(2 * wait) } else { FEW }
}

/// Follows leaps from where a run stopped, if there are any.
#[inline(always)]
pub(crate) fn follow_any_leaps(
    dfa: &DFA,
    cache: &mut Cache,
    input: &Input<'_>,
    way: Direction,
    near: Stop,
) -> Stop
    ghost trace: { Trace }
    requires sound { IsSoundCacheOf cache.old dfa.now }
    requires near { FollowsAlong trace way dfa.now cache.old.store input.now 0 near.at near }
    requires trace { IsTrace way dfa.now input.now trace }
    requires open { input.now.start ≤ input.now.end }
    ensures same { cache.new ≡ cache.old }
    ensures far { FollowsAlong trace way dfa.now cache.new.store input.now 0 near.at result }
    ensures read { result.at < input.now.end - input.now.start
        → IsNextCell way dfa.now cache.new.store input.now result.at result.id result.next }
{
    let far = follow_far(
        dfa,
        cache,
        input.haystack(),
        input.get_span(),
        input.get_anchored(),
        input.get_earliest(),
        way,
        Spot {
            at: near.at,
            id: near.id,
        },
    );
    Stop {
        at: far.at,
        id: far.id,
        next: far.next,
    }
}

/// Returns the column for the classes of the bytes from a place on.
#[inline(always)]
fn column(dfa: &DFA, classes: usize, reach: usize, way: Direction, bytes: &[u8], at: usize) -> usize
    requires rising { AreClasses dfa.now.classes }
    requires classes { classes ≡ eoi_class dfa.now.classes }
    requires few { classes ≤ 32 }
    requires short { reach ≤ 4 }
    requires within { at + reach ≤ length bytes.now }
    ensures value { result ≡ column_of dfa.now.classes classes way bytes.now at reach }
    ensures below { result < classes ^ reach }
{
    let mut column = 0;
    for k in 0..reach {
        column = column * classes + dfa.class_of(byte_at(way, bytes, at + k));
    }
    column
}

/// Follows leaps from a row as far as they lead, or until too many in succession have led to the same row.
#[inline(always)]
fn leap_by(
    dfa: &DFA,
    cache: &Cache,
    leaps: &Leaps,
    reach: usize,
    way: Direction,
    bytes: &[u8],
    index: usize,
) -> Leapt
    requires sound { IsSoundCacheOf cache.now dfa.now }
    requires leaps { AreLeaps cache.now.store.table leaps.now }
    requires reach { reach ≡ leaps.now.shape.reach }
    requires row { index < leaps.now.shape.rows }
    ensures { IsLeapt cache.now.store.table leaps.now.shape way bytes.now index result.len result.row }
{
    let end = bytes.len();
    let classes = leaps.shape.classes;
    let mut at = 0;
    let mut row = (index * leaps.shape.width) as u32;
    let mut again = 0usize;
    'leaps: while end - at >= reach {
        let next = leaps.cell(row, column(dfa, classes, reach, way, bytes, at));
        if next == MARK || again >= LOOPS {
            return Leapt { len: at, row };
        }
        at += reach;
        again = again_after(next == row, again);
        row = next;
    }
    Leapt { len: at, row }
}

/// Follows leaps from a row in a constant direction, with a separate loop for each number of bytes that a leap reads.
#[inline(always)]
fn leap_reach(
    dfa: &DFA,
    cache: &Cache,
    leaps: &Leaps,
    way: Direction,
    bytes: &[u8],
    index: usize,
) -> Leapt
    requires sound { IsSoundCacheOf cache.now dfa.now }
    requires leaps { AreLeaps cache.now.store.table leaps.now }
    requires row { index < leaps.now.shape.rows }
    ensures { IsLeapt cache.now.store.table leaps.now.shape way bytes.now index result.len result.row }
{
    match leaps.shape.reach {
        4 => leap_by(dfa, cache, leaps, 4, way, bytes, index),
        3 => leap_by(dfa, cache, leaps, 3, way, bytes, index),
        2 => leap_by(dfa, cache, leaps, 2, way, bytes, index),
        _ => leap_by(dfa, cache, leaps, 1, way, bytes, index),
    }
}

/// Follows leaps from a row.
#[inline(never)]
fn leap(
    dfa: &DFA,
    cache: &Cache,
    leaps: &Leaps,
    way: Direction,
    bytes: &[u8],
    index: usize,
) -> Leapt
    requires sound { IsSoundCacheOf cache.now dfa.now }
    requires leaps { AreLeaps cache.now.store.table leaps.now }
    requires row { index < leaps.now.shape.rows }
    ensures { IsLeapt cache.now.store.table leaps.now.shape way bytes.now index result.len result.row }
{
    match way {
        Direction::Forward => leap_reach(dfa, cache, leaps, Direction::Forward, bytes, index),
        Direction::Backward => leap_reach(dfa, cache, leaps, Direction::Backward, bytes, index),
    }
}

/// Follows leaps from an untagged ID.
fn leap_from(
    dfa: &DFA,
    cache: &Cache,
    leaps: &Leaps,
    way: Direction,
    bytes: &[u8],
    id: LazyStateID,
) -> Landing
    requires sound { IsSoundCacheOf cache.now dfa.now }
    requires leaps { AreLeaps cache.now.store.table leaps.now }
    requires valid { IsRowId cache.now.store.table id }
    requires untagged { id < offset_limit }
    ensures leads { LeadsIds cache.now.store.table way bytes.now result.len id result.id }
    ensures bytes { (k : ℕ) → byte_in way bytes.now k < 256 }
{
    let index = cache.row_index(id);
    if index >= leaps.shape.rows {
        return Landing { len: 0, id };
    }
    let leapt = leap(dfa, cache, leaps, way, bytes, index);
    Landing {
        len: leapt.len,
        id: cache.row_at(leapt.row as usize / leaps.shape.width),
    }
}

/// Follows leaps and, where they stop, some bytes one by one: more of them after short leaps.
#[inline(always)]
fn follow_leaps(
    dfa: &DFA,
    cache: &Cache,
    leaps: &Leaps,
    input: &Input<'_>,
    way: Direction,
    start: usize,
    from: LazyStateID,
) -> Stop
    ghost trace: { Trace }
    requires sound { IsSoundCacheOf cache.now dfa.now }
    requires leaps { AreLeaps cache.now.store.table leaps.now }
    requires may { MayFollow trace way dfa.now cache.now.store.table input.now start
        (input.now.end - input.now.start) from }
    requires only { HasOnly 0 from }
    ensures within { result.at ≤ input.now.end - input.now.start }
    ensures run { IsRun trace way dfa.now cache.now.store input.now 0 start result.at result.id }
    ensures peeked { IsPeekedAlong trace way dfa.now cache.now.store input.now result.at result.id result.next }
    ensures read { result.at < input.now.end - input.now.start
        → IsNextCell way dfa.now cache.now.store input.now result.at result.id result.next }
{
    let last = last_place(input);
    let mut at = start;
    let mut id = from;
    let mut wait = FEW;
    'turns: while last - at >= 16 {
        let far = leap_from(dfa, cache, leaps, way, bytes_from(input, way, at), id);
        at += far.len;
        wait = wait_after(far.len, wait);
        let end = last.min(at + wait);
        let few = follow(dfa, cache, input, way, at, far.id, 0, end);
        if few.at < end {
            return few;
        }
        at = few.at;
        id = few.id;
    }
    Stop {
        at,
        id,
        next: next_known(dfa, cache, input, way, at, id, last),
    }
}

/// Follows leaps with a separate loop for each direction.
#[inline(always)]
fn leap_along(
    dfa: &DFA,
    cache: &Cache,
    leaps: &Leaps,
    input: &Input<'_>,
    way: Direction,
    start: usize,
    from: LazyStateID,
) -> Stop
    ghost trace: { Trace }
    requires sound { IsSoundCacheOf cache.now dfa.now }
    requires leaps { AreLeaps cache.now.store.table leaps.now }
    requires may { MayFollow trace way dfa.now cache.now.store.table input.now start
        (input.now.end - input.now.start) from }
    requires only { HasOnly 0 from }
    ensures within { result.at ≤ input.now.end - input.now.start }
    ensures run { IsRun trace way dfa.now cache.now.store input.now 0 start result.at result.id }
    ensures peeked { IsPeekedAlong trace way dfa.now cache.now.store input.now result.at result.id result.next }
    ensures read { result.at < input.now.end - input.now.start
        → IsNextCell way dfa.now cache.now.store input.now result.at result.id result.next }
{
    match way {
        Direction::Forward => {
            follow_leaps(dfa, cache, leaps, input, Direction::Forward, start, from)
        }
        Direction::Backward => {
            follow_leaps(dfa, cache, leaps, input, Direction::Backward, start, from)
        }
    }
}

/// Makes leaps, if they are due, and follows them if there are any. It takes the parts of the input, so that a search
/// without leaps keeps them in registers.
#[inline(never)]
fn follow_far(
    dfa: &DFA,
    cache: &mut Cache,
    haystack: &[u8],
    span: Span,
    anchored: Anchored,
    earliest: bool,
    way: Direction,
    from: Spot,
) -> Stop
    ghost trace: { Trace }
    requires may { MayBegin dfa.now cache.old (input_at haystack.now span anchored earliest) }
    requires on { IsOnTrace trace way dfa.now cache.old.store.table
        (input_at haystack.now span anchored earliest) from.at from.id }
    requires open { span.start ≤ span.end }
    requires within { from.at ≤ span.end - span.start }
    ensures same { cache.new ≡ cache.old }
    ensures far { FollowsAlong trace way dfa.now cache.old.store
        (input_at haystack.now span anchored earliest) 0 from.at result }
    ensures read { result.at < span.end - span.start
        → IsNextCell way dfa.now cache.old.store
        (input_at haystack.now span anchored earliest) result.at result.id result.next }
{
    let own = input_of(haystack, span, anchored, earliest);
    cache.prepare_leaps(dfa, span_offset(&own, way, from.at));
    leap_if(dfa, cache, &own, way, from.at, from.id)
}

/// Follows leaps, if there are any and the ID is untagged.
#[inline(always)]
fn leap_if(
    dfa: &DFA,
    cache: &Cache,
    input: &Input<'_>,
    way: Direction,
    start: usize,
    from: LazyStateID,
) -> Stop
    ghost trace: { Trace }
    requires sound { IsSoundCacheOf cache.now dfa.now }
    requires on { IsOnTrace trace way dfa.now cache.now.store.table input.now start from }
    requires within { start ≤ input.now.end - input.now.start }
    requires open { input.now.start ≤ input.now.end }
    ensures far { FollowsAlong trace way dfa.now cache.now.store input.now 0 start result }
    ensures read { result.at < input.now.end - input.now.start
        → IsNextCell way dfa.now cache.now.store input.now result.at result.id result.next }
{
    if from.has_only(0) {
        if let Some(leaps) = cache.leaps() {
            return leap_along(dfa, cache, leaps, input, way, start, from);
        }
    }
    Stop {
        at: start,
        id: from,
        next: next_known(dfa, cache, input, way, start, from, last_place(input)),
    }
}
