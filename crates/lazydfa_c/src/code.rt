//! The codes that calls return.
ghost use Rattle.std.specs.Prelude.{◌≡◌};
ghost use Rattle.lazydfa_c.specs.Codes.{number_of};

/// What a call returns. The header says what each means.
#[derive(Clone, Copy)]
pub enum Code {
    Done,
    Nothing,
    Closed,
    Open,
    Kind,
    Argument,
    Memory,
    NoPattern,
    UnfinishedPattern,
    PatchRange,
    SparsePatch,
    TooLarge,
    StateRange,
    StartRange,
    PatternRange,
    Ranges,
    NotLazy,
    NotUtf8,
    Starts,
    Unsupported,
    Capacity,
    StateIDs,
    PatternCounts,
    OneStart,
    Quit,
    GaveUp,
    Anchored,
    NotAPair,
    NoToken,
    Skips,
    NotBegun,
    NoGroups,
    Syntax,
    NotText,
    NotCompiled,
}

impl Code {
    /// The number of the code in the header.
    pub fn number(self) -> u32
        ensures { result ≡ number_of self }
    {
        match self {
            Code::Done => 0,
            Code::Nothing => 1,
            Code::Closed => 2,
            Code::Open => 3,
            Code::Kind => 4,
            Code::Argument => 5,
            Code::Memory => 6,
            Code::NoPattern => 10,
            Code::UnfinishedPattern => 11,
            Code::PatchRange => 12,
            Code::SparsePatch => 13,
            Code::TooLarge => 14,
            Code::StateRange => 15,
            Code::StartRange => 16,
            Code::PatternRange => 17,
            Code::Ranges => 18,
            Code::NotLazy => 20,
            Code::NotUtf8 => 22,
            Code::Starts => 23,
            Code::Unsupported => 24,
            Code::Capacity => 25,
            Code::StateIDs => 26,
            Code::PatternCounts => 27,
            Code::OneStart => 28,
            Code::Quit => 30,
            Code::GaveUp => 31,
            Code::Anchored => 32,
            Code::NotAPair => 33,
            Code::NoToken => 34,
            Code::Skips => 35,
            Code::NotBegun => 36,
            Code::NoGroups => 37,
            Code::Syntax => 40,
            Code::NotText => 41,
            Code::NotCompiled => 42,
        }
    }
}
