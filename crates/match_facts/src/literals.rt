//! Literals that every match contains.
ghost use Rattle.std.specs.Prelude.{IfOk, OnOk, map};
ghost use Rattle.regex_hir.specs.Meaning.{cat_all, meaning};
ghost use Rattle.regex_extract.specs.Needles.{AreFilled, needles_of};
ghost use Rattle.match_facts.specs.Facts.{ContainsAll};
ghost use Rattle.match_facts.specs.Runs.{EndsRun, ExtendsRun};

use regex_hir::Hir;
use std::alloc::{AllocError, Global};
use std::mem;

/// What is known at a position of the walk over a tree: the literals before it, and the bytes that the haystack has
/// just before this offset.
struct Run {
    literals: Vec<Vec<u8>>,
    last: Vec<u8>,
}

// With its own `drop`, the proof of an owner has one step for it instead of one for each part.
impl Drop for Run {
    fn drop(self) {
        let Self {
            literals: _literals,
            last: _last,
        } = self;
    }
}

impl Run {
    /// Ends the run: its last bytes become a literal, unless there are none.
    fn end(&mut self, alloc: Global) -> Result<(), AllocError>
        ensures { OnOk result (EndsRun self.old self.new) }
    {
        if self.last.is_empty() {
            return Ok(());
        }
        let last = mem::replace(&mut self.last, Vec::new(alloc));
        self.literals.push(last)?;
        Ok(())
    }
}

/// Returns literals that every match contains, in the order in which they occur. An alternation has none, and an
/// optional part has none.
pub(crate) fn literals_of(alloc: Global, hir: &Hir) -> Result<Vec<Vec<u8>>, AllocError>
    ensures contains { IfOk result (λ v. ContainsAll (meaning hir.now) (needles_of v)) }
    ensures filled { IfOk result (λ v. AreFilled (needles_of v)) }
{
    let mut run = Run {
        literals: Vec::new(alloc),
        last: Vec::new(alloc),
    };
    walk(alloc, hir, &mut run)?;
    run.end(alloc)?;
    Ok(mem::replace(&mut run.literals, Vec::new(alloc)))
}

/// Walks over a tree.
#[cycle(walk)]
fn walk(alloc: Global, hir: &Hir, run: &mut Run) -> Result<(), AllocError>
    ensures { OnOk result (ExtendsRun (meaning hir.now) run.old run.new) }
{
    match hir {
        Hir::Empty | Hir::Look(_) => Ok(()),
        Hir::Literal(bytes) => {
            run.last.extend_from_slice(bytes)?;
            Ok(())
        }
        Hir::Capture { sub, .. } => walk(alloc, sub, run),
        Hir::Concat(subs) => walk_all(alloc, subs, run),
        Hir::Repetition { min, sub, .. } if *min > 0 => {
            walk(alloc, sub, run)?;
            run.end(alloc)
        }
        _ => run.end(alloc),
    }
}

/// Walks over a sequence of trees.
#[cycle(walk)]
fn walk_all(alloc: Global, subs: &[Hir], run: &mut Run) -> Result<(), AllocError>
    ensures { OnOk result (ExtendsRun (cat_all (map meaning subs.now)) run.old run.new) }
{
    for i in 0..subs.len() {
        walk(alloc, &subs[i], run)?;
    }
    Ok(())
}
