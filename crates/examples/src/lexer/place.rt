//! The line and column of a byte in a text.
use std::fmt;

/// A line and a column, counted from 1. A column is one character.
#[derive(Clone, Copy)]
pub struct Place {
    line: u64,
    column: u64,
}

impl Place {
    /// Returns the place of the first byte: line 1, column 1.
    pub fn start() -> Place {
        Place { line: 1, column: 1 }
    }

    /// Returns the place after a byte.
    fn after(self, byte: u8) -> Place {
        let Place { line, column } = self;
        match byte {
            b'\n' => Place {
                line: line.saturating_add(1),
                column: 1,
            },
            // A byte of a character after its first one.
            0x80..=0xBF => self,
            _ => Place {
                line,
                column: column.saturating_add(1),
            },
        }
    }

    /// Returns the place after these bytes.
    pub fn after_all(self, bytes: &[u8]) -> Place {
        let mut place = self;
        for byte in bytes {
            place = place.after(*byte);
        }
        place
    }
}

impl fmt::Display for Place {
    fn fmt<W: fmt::Write>(&self, f: &mut fmt::Formatter<W>) -> fmt::Result {
        let Place { line, column } = *self;
        write!(f, "{line}:{column}")
    }
}
