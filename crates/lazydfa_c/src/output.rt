//! Writing to memory of the caller's.
ghost use Rattle.std.specs.Prelude.{◌≡◌};
ghost use Rattle.lazydfa_c.specs.Caches.{written_over};

/// Writes as many of the items as there is room for.
pub(crate) fn write_over<T: Copy>(items: &[T], out: &mut [T])
    ensures { out.new ≡ written_over items.now out.old }
{
    let mut at = 0usize;
    for item in items {
        if at < out.len() {
            out[at] = *item;
            at += 1;
        }
    }
}
