//! Escapes in the texts of patterns.
ghost use Rattle.std.specs.Prelude.{◌≡◌};
ghost use Rattle.patterns.specs.Faults.{has_boundary_escape, is_boundary_letter};

/// Whether an escape with this byte can be a word boundary.
fn is_boundary_letter(byte: u8) -> bool
    ensures { result ≡ is_boundary_letter byte }
{
    byte == b'b' || byte == b'B' || byte == b'<' || byte == b'>'
}

/// Whether the text has an escape that can be a word boundary.
pub(crate) fn has_boundary_escape(text: &str) -> bool
    ensures { result ≡ has_boundary_escape text.now }
{
    let mut found = false;
    let mut behind = false;
    for byte in text.as_bytes() {
        if behind && is_boundary_letter(*byte) {
            found = true;
        }
        behind = *byte == b'\\';
    }
    found
}
