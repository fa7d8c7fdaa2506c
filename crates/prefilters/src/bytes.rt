//! Tables that say of each byte whether it is in a set.
ghost use Rattle.std.specs.Prelude.{◌≡◌, ℕ, true};
ghost use Rattle.automata_base.specs.Haystacks.Looks.{within};
ghost use Rattle.prefilters.specs.Bytes.{in_table};

/// Adds the bytes from `lo` to `hi` to the table.
pub(crate) fn add_range(table: &mut [bool; 256], lo: u8, hi: u8)
    ensures kept { (byte : ℕ) → in_table table.old byte ≡ true → in_table table.new byte ≡ true }
    ensures added { (byte : ℕ) → within lo hi byte ≡ true → in_table table.new byte ≡ true }
{
    for byte in usize::from(lo)..usize::from(hi) + 1 {
        table[byte] = true;
    }
}
