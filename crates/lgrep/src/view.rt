//! What is shown of a line that is taken: the line, its matches, which patterns match it, or what replaces its matches.
ghost use Rattle.std.specs.Prelude.{◌≡◌, ◌++◌, Bool, List, OnOk};
ghost use Rattle.regex_hir.specs.Re.{Re};
ghost use Rattle.lgrep.specs.Greps.{IsViewFor, KeepsView};
ghost use Rattle.lgrep.specs.Shown.{line_shown};
ghost use Rattle.lgrep.specs.declared.show.How as how;

use crate::replace::Replacer;
use crate::sets::SetSearcher;
use crate::show::{Frame, push_after};
use crate::spans::SpanSearcher;
use crate::stats::Usage;
use crate::template::Replacement;
use anyhow::Result;
use std::alloc::Global;

/// The searcher for what is shown of a line that is taken, if that is not the whole line.
pub enum View {
    Whole,
    Matches(SpanSearcher),
    Which(SetSearcher),
    Replaced(Replacer),
    Replacements(Replacer),
}

// An owner drops this with one call, so that its proof has no step for each field.
impl Drop for View {
    fn drop(self) {
        match self {
            View::Whole => {}
            View::Matches(_spans) => {}
            View::Which(_sets) => {}
            View::Replaced(_replacer) => {}
            View::Replacements(_replacer) => {}
        }
    }
}

impl View {
    /// Appends what is shown of a line, after the prefix and in the frame.
    pub fn push(
        &mut self,
        alloc: Global,
        replacements: &[Replacement],
        prefix: &[u8],
        frame: &Frame,
        line: &[u8],
        shown: &mut Vec<u8>,
    ) -> Result<()>
        ensures same { OnOk result (KeepsView self.old self.new) }
        ensures shown { OnOk result ((case_insensitive : Bool) (asked : how.How) (res : List Re)
            → IsViewFor case_insensitive asked res self.old
            → shown.new.items ≡ shown.old.items ++ line_shown asked replacements.now res prefix.now frame.now
            line.now) }
    {
        match self {
            View::Whole => push_after(alloc, prefix, frame, 0, line, shown),
            View::Matches(spans) => spans.push_matches(alloc, prefix, frame, line, shown),
            View::Which(sets) => sets.push_which(alloc, prefix, frame, line, shown),
            View::Replaced(replacer) => {
                replacer.push_replaced(alloc, replacements, prefix, frame, line, shown)
            }
            View::Replacements(replacer) => {
                replacer.push_replacements(alloc, replacements, prefix, frame, line, shown)
            }
        }
    }

    /// Returns how the caches were used.
    pub fn usage(&self) -> Usage {
        match self {
            View::Whole => Usage {
                clears: 0,
                states: 0,
                bytes: 0,
            },
            View::Matches(spans) => spans.usage(),
            View::Which(sets) => sets.usage(),
            View::Replaced(replacer) => replacer.usage(),
            View::Replacements(replacer) => replacer.usage(),
        }
    }
}
