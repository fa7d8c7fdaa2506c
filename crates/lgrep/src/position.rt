//! Positions of lines in a file.
ghost use Rattle.std.specs.Prelude.{◌≡◌};
ghost use Rattle.lgrep.specs.Lines.{line_number, position_after};

/// The position of a line in a file: how many lines and how many bytes precede it.
#[derive(Clone, Copy)]
pub struct Position {
    pub lines: u64,
    pub bytes: u64,
}

impl Position {
    /// Returns the position of the first line.
    pub fn first() -> Position
        ensures { result ≡ record { lines = 0; bytes = 0 } }
    {
        Position { lines: 0, bytes: 0 }
    }

    /// Returns the number of the line, counted from 1.
    pub fn number(self) -> u64
        ensures { result ≡ line_number self }
    {
        self.lines.saturating_add(1)
    }

    /// Returns the position of the line after this one, which has these bytes and one more, which ends it.
    pub fn after(self, line: &[u8]) -> Position
        ensures { result ≡ position_after self line.now }
    {
        let length = (line.len() as u64).saturating_add(1);
        Position {
            lines: self.lines.saturating_add(1),
            bytes: self.bytes.saturating_add(length),
        }
    }
}
