//! The memory that allocations take from the allocator, by one rule for all reports of it.

/// Returns the memory, in bytes, that an allocation of `bytes` bytes takes: these and eight of the allocator's own,
/// rounded up to a multiple of 16, and at least 32. This is what `malloc` of glibc takes. For zero bytes nothing is
/// allocated.
pub fn block(bytes: usize) -> usize {
    if bytes == 0 {
        return 0;
    }
    (bytes.saturating_add(23) & !15).max(32)
}

/// Returns the memory, in bytes, that an allocation of `count` elements of `size` bytes each takes.
pub fn array(count: usize, size: usize) -> usize {
    block(count.saturating_mul(size))
}
