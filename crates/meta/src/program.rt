//! What finds the groups of texts, and of one text.
ghost use Rattle.std.specs.Prelude.{◌≤◌, vec_len};

use regex_nfa::Nfa;

/// What finds the groups of one pattern: the NFA that is simulated, and the names of the groups.
pub(crate) struct Program {
    pub(crate) nfa: Nfa,
    /// The name of each group, if it has one. Group 0 has none.
    pub(crate) names: Vec<Option<String>>,
}

// With its own `drop`, the proof of an owner has one step for it instead of one for each part.
impl Drop for Program {
    fn drop(self) {
        let Self {
            nfa: _nfa,
            names: _names,
        } = self;
    }
}

/// What finds the groups of texts: for each text an NFA, which is simulated over the span of a match, and the names of
/// its groups. It finds the groups of a match that a search of these texts returned, whatever searched for them.
///
/// ```rust
/// let programs = Programs::new(alloc, &texts, &options)?;
/// let mut simulations = programs.create_simulations(alloc)?;
/// let mut captures = programs.create_captures(alloc)?;
/// if let Some(found) = pattern.find(&mut cache, hay)? {
///     programs.groups_of(&mut simulations, hay, &found, &mut captures);
/// }
/// ```
pub struct Programs {
    pub(crate) list: Vec<Program>,
    /// Whether text is searched, so that no match begins inside a character.
    pub(crate) utf8: bool,
    pub ghost few: { vec_len list ≤ 2147483647 },
}

// With its own `drop`, the proof of an owner has one step for it instead of one for each part.
impl Drop for Programs {
    fn drop(self) {
        let Self {
            list: _list,
            utf8: _utf8,
        } = self;
    }
}
