//! Memory accounting of caches, and their reset.
ghost use Rattle.std.specs.Prelude.{◌≡◌};
ghost use Rattle.lazydfa_c.specs.Calls.{OfHandle, OfObject, WritesIfDone};
ghost use Rattle.lazydfa_c.specs.Caches.{IsUsageOf, ReportsUsage, Resets};

use crate::code::Code;
use crate::handle::Handle;
use crate::object::{Object, Searcher};
use crate::status::Status;
use automata_base::util::heap::{array, block};
use std::alloc::Global;

/// A cache's accounted bytes, the bytes of its leaps, all bytes that it holds from the allocator, how often each of its
/// two parts was cleared, and the number of patterns of its regex.
#[repr(C)]
#[derive(Clone, Copy)]
pub struct Usage {
    pub memory: usize,
    pub leaps: usize,
    pub held: usize,
    pub forward_clears: usize,
    pub reverse_clears: usize,
    pub patterns: usize,
}

impl Searcher {
    /// Resets the cache to a fresh one of its regex.
    fn reset(&mut self) -> Status
        ensures { Resets self.old self.new result }
    {
        let shared = &self.shared;
        match self.cache.reset(&shared.pattern.regex) {
            Ok(()) => Status::from(Code::Done),
            Err(error) => Status::from(error),
        }
    }

    /// Returns the bytes that the memory for groups takes from the allocator.
    fn group_usage(&self) -> usize {
        match (&self.shared.programs, &self.groups) {
            (Some(programs), Some(memory)) => {
                programs.footprint(&memory.simulations, &memory.captures)
            }
            _ => 0,
        }
    }

    /// Returns the bytes that the cache holds from the allocator in addition to its two parts: those of the object that
    /// the handle owns, of its set of patterns and of the memory for groups. The state that a search or walk in pieces
    /// holds is not counted.
    fn own_usage(&self) -> usize {
        array(self.patterns.capacity(), 1)
            .saturating_add(block(size_of::<Object>()))
            .saturating_add(self.group_usage())
    }

    /// Returns the bytes that the cache accounts for and holds, how often each of its two parts was cleared, and the
    /// number of patterns of its regex.
    fn usage(&self) -> Usage
        ensures { IsUsageOf self.now result }
    {
        let (forward, reverse) = self.cache.as_parts();
        let footprint = self.cache.footprint();
        Usage {
            memory: footprint.accounted,
            leaps: footprint.leaps,
            held: footprint.held.saturating_add(self.own_usage()),
            forward_clears: forward.clear_count(),
            reverse_clears: reverse.clear_count(),
            patterns: self.shared.pattern.regex.pattern_len(),
        }
    }
}

/// Resets a cache to a fresh one of its regex. The status is `Code::Kind` if the object is not a cache.
fn reset_in(object: &mut Object) -> Status
    ensures { OfObject Resets object.old object.new result }
{
    match object {
        Object::Searcher(searcher) => searcher.reset(),
        Object::Builder(_) | Object::Regex(_) => Status::from(Code::Kind),
    }
}

/// Writes the memory usage of a cache. The status is `Code::Kind` if the object is not a cache.
fn usage_in(object: &mut Object, usage: &mut Usage) -> Status
    ensures reports { OfObject (ReportsUsage usage.new) object.old object.new result }
    ensures written { WritesIfDone usage.old usage.new result }
{
    match object {
        Object::Searcher(searcher) => {
            *usage = searcher.usage();
            Status::from(Code::Done)
        }
        Object::Builder(_) | Object::Regex(_) => Status::from(Code::Kind),
    }
}

/// Resets a handle's cache to a fresh one of its regex.
#[unsafe(no_mangle)]
pub extern "C" fn lazydfa_raw_cache_reset(alloc: Global, cache: &mut Handle) -> Status
    ensures { OfHandle Resets cache.old cache.new result }
{
    let Some(mut object) = cache.take(alloc) else {
        return Status::from(Code::Closed);
    };
    let status = reset_in(object.as_mut());
    cache.put(object);
    status
}

/// Writes the memory usage of a handle's cache, in bytes, and how often each of its two parts was cleared.
#[unsafe(no_mangle)]
pub extern "C" fn lazydfa_raw_cache_usage(
    alloc: Global,
    cache: &mut Handle,
    usage: &mut Usage,
) -> Status
    ensures reports { OfHandle (ReportsUsage usage.new) cache.old cache.new result }
    ensures written { WritesIfDone usage.old usage.new result }
{
    let Some(mut object) = cache.take(alloc) else {
        return Status::from(Code::Closed);
    };
    let status = usage_in(object.as_mut(), usage);
    cache.put(object);
    status
}
