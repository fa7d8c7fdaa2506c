//! The groups of matches.
ghost use Rattle.std.specs.Prelude.{◌≡◌, ◌≤◌, IfOk, IfSome, List, length, map};
ghost use Rattle.std.specs.List.{range_with_len};
ghost use Rattle.regex_hir.specs.Find as kit;
ghost use Rattle.regex_hir.specs.Re.{Re};
ghost use Rattle.meaning.specs.Patterns.{numbered_match};
ghost use Rattle.meta.specs.Caches.{AreRoomsOf, HaveRoomFor};
ghost use Rattle.meta.specs.Captures.{HoldGroups, LieInMatch, span_in};
ghost use Rattle.meta.specs.Groups.{FindAllGroups, IsPreferredMatch};
ghost use Rattle.lazydfa_c.specs.Caches.{written_over};
ghost use Rattle.lazydfa_c.specs.Calls.{KeepsUnlessCache, KeepsUnlessOpen, OfHandle, OfObject};
ghost use Rattle.lazydfa_c.specs.Groups.{ReadsGroups, ReportsGroups, match_in, span_as_read};
ghost use Rattle.lazydfa_c.specs.Programs.{HasRoomForGroups};

use crate::code::Code;
use crate::handle::Handle;
use crate::input::Found;
use crate::names::pattern_at;
use crate::object::{GroupMemory, Object, Searcher};
use crate::status::Status;
use meta::{Captures, Programs};
use regex_automata::util::primitives::PatternID;
use regex_automata::util::search::{Match, Span};
use std::alloc::{AllocError, Global};

/// The span of a group, by its offsets in bytes. Both are `usize::MAX` if the group took no part in the match.
#[repr(C)]
#[derive(Clone, Copy)]
pub struct GroupSpan {
    pub start: usize,
    pub end: usize,
}

impl GroupSpan {
    /// Converts a span to its layout in C.
    fn of(span: Option<Span>) -> GroupSpan
        ensures { result ≡ span_as_read span }
    {
        match span {
            Some(Span { start, end }) => GroupSpan { start, end },
            None => GroupSpan {
                start: usize::MAX,
                end: usize::MAX,
            },
        }
    }
}

impl Found {
    /// Returns the match if it lies in a haystack of this length, and its pattern is a valid ID.
    fn match_in(&self, length: usize) -> Option<Match>
        ensures is { result ≡ match_in length self.now }
        ensures pattern { IfSome result (λ m. m.pattern ≡ self.now.pattern) }
    {
        if self.start > self.end || self.end > length {
            return None;
        }
        let (start, end) = (self.start, self.end);
        match PatternID::new(self.pattern as usize) {
            Some(pattern) => Some(Match::new(pattern, Span { start, end })),
            None => None,
        }
    }
}

impl GroupMemory {
    /// Returns the memory for the groups of each pattern.
    pub fn new(alloc: Global, programs: &Programs) -> Result<GroupMemory, AllocError>
        ensures { IfOk result (λ memory. HasRoomForGroups memory programs.now) }
    {
        let simulations = programs.create_simulations(alloc)?;
        match programs.create_captures(alloc) {
            Ok(captures) => Ok(GroupMemory {
                simulations,
                captures,
            }),
            Err(error) => Err(error),
        }
    }

    /// Finds the groups of a match.
    fn find(&mut self, programs: &Programs, haystack: &[u8], it: &Match)
        requires rooms { AreRoomsOf self.old.simulations.items programs.now.list.items }
        requires room { HaveRoomFor self.old.captures programs.now }
        requires within { it.now.end ≤ length haystack.now }
        ensures groups { (res : List Re) (k : kit.Match) → FindAllGroups programs.now.list.items res
            → IsPreferredMatch res haystack.now k → it.now ≡ numbered_match res haystack.now k
            → HoldGroups k self.new.captures }
        ensures within { LieInMatch it.now self.new.captures }
        ensures rooms { AreRoomsOf self.new.simulations.items programs.now.list.items }
        ensures room { HaveRoomFor self.new.captures programs.now }
    {
        programs.groups_of(&mut self.simulations, haystack, it, &mut self.captures);
    }
}

/// Writes the spans of this number of groups, as many as there is room for.
fn write_spans(captures: &Captures, groups: usize, out: &mut [GroupSpan])
    ensures { out.new ≡ written_over
        (map (λ group. span_as_read (span_in captures.now group)) (range_with_len 0 groups)) out.old }
{
    for group in 0..groups {
        let span = GroupSpan::of(captures.get(group));
        if group < out.len() {
            out[group] = span;
        }
    }
}

/// Writes the spans of the groups of a match, as many as there is room for, and counts them all. The status is
/// `Code::Argument` if the match does not lie in the haystack, or no pattern has its number.
fn report_groups(
    programs: &Programs,
    memory: &mut GroupMemory,
    haystack: &[u8],
    found: &Found,
    out: &mut [GroupSpan],
    count: &mut usize,
) -> Status
    requires room { HasRoomForGroups memory.old programs.now }
    requires count { count.old ≡ 0 }
    ensures reports { ReportsGroups programs.now haystack.now found.now out.old out.new count.new result }
    ensures room { HasRoomForGroups memory.new programs.now }
{
    let Some(it) = found.match_in(haystack.len()) else {
        return Status::from(Code::Argument);
    };
    let Some(pattern) = pattern_at(programs, found.pattern) else {
        return Status::from(Code::Argument);
    };
    memory.find(programs, haystack, &it);
    *count = programs.group_len(pattern);
    write_spans(&memory.captures, *count, out);
    Status::from(Code::Done)
}

impl Searcher {
    /// Writes the spans of the groups of a match, as many as there is room for, and counts them all. The status is
    /// `Code::NoGroups` if the regex was not built for groups.
    fn groups(
        &mut self,
        haystack: &[u8],
        found: &Found,
        out: &mut [GroupSpan],
        count: &mut usize,
    ) -> Status
        ensures { ReadsGroups haystack.now found.now out.old out.new count.new self.old self.new result }
    {
        *count = 0;
        let Some(programs) = &self.shared.programs else {
            return Status::from(Code::NoGroups);
        };
        let Some(memory) = &mut self.groups else {
            return Status::from(Code::NoGroups);
        };
        report_groups(programs, memory, haystack, found, out, count)
    }
}

/// Writes the spans of the groups of a match, over a cache, as many as there is room for, and counts them all. The
/// status is `Code::Kind` if the object is not a cache.
fn groups_in(
    object: &mut Object,
    haystack: &[u8],
    found: &Found,
    out: &mut [GroupSpan],
    count: &mut usize,
) -> Status
    ensures found { OfObject (ReadsGroups haystack.now found.now out.old out.new count.new)
        object.old object.new result }
    ensures kept { KeepsUnlessCache ((out.new ≡ out.old) × (count.new ≡ count.old)) object.old }
{
    match object {
        Object::Searcher(searcher) => searcher.groups(haystack, found, out, count),
        Object::Builder(_) | Object::Regex(_) => Status::from(Code::Kind),
    }
}

/// Writes the spans of the groups of a match that a search over a handle's cache found in this haystack, as many as
/// there is room for, and counts them all.
#[unsafe(no_mangle)]
pub extern "C" fn lazydfa_raw_groups(
    alloc: Global,
    cache: &mut Handle,
    haystack: &[u8],
    found: &Found,
    groups: &mut [GroupSpan],
    count: &mut usize,
) -> Status
    ensures found { OfHandle (ReadsGroups haystack.now found.now groups.old groups.new count.new)
        cache.old cache.new result }
    ensures kept { KeepsUnlessOpen ((groups.new ≡ groups.old) × (count.new ≡ count.old)) cache.old }
{
    let Some(mut object) = cache.take(alloc) else {
        return Status::from(Code::Closed);
    };
    let status = groups_in(object.as_mut(), haystack, found, groups, count);
    cache.put(object);
    status
}
