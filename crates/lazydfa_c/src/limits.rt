//! Limits on the texts of patterns, which are checked before anything is parsed.
ghost use Rattle.std.specs.Prelude.{◌≡◌};
ghost use Rattle.lazydfa_c.specs.Limits.{class_escapes, is_class_letter};

/// Whether a backslash before this byte begins a class escape.
fn is_class_letter(byte: u8) -> bool
    ensures { result ≡ is_class_letter byte }
{
    byte == b'd'
        || byte == b'D'
        || byte == b'p'
        || byte == b'P'
        || byte == b's'
        || byte == b'S'
        || byte == b'w'
        || byte == b'W'
}

/// Counts the class letters that follow a backslash: at least as many as the text has class escapes. The parser turns
/// each class escape into a class that may have some hundred ranges, and every other byte into a few at most.
pub fn class_escapes(text: &[u8]) -> usize
    ensures { result ≡ class_escapes text.now }
{
    let mut count = 0usize;
    let mut behind = false;
    for byte in text {
        if behind && is_class_letter(*byte) {
            count += 1;
        }
        behind = *byte == b'\\';
    }
    count
}
