//! The simulation of the NFA of one pattern.
ghost use Rattle.std.specs.Prelude.{◌≡◌, ◌<◌, ◌≤◌, ◌+◌, ◌-◌, IfOk, IfSome, Some, length, vec_len};
ghost use Rattle.regex_hir.specs.Re.{Trace};
ghost use Rattle.regex_hir.specs.Text as text;
ghost use Rattle.regex_nfa.specs.Run.{run};
ghost use Rattle.regex_vm.specs.Found.{group_cells};
ghost use Rattle.meta.specs.Caches.{HasRoomOf};
ghost use Rattle.meta.specs.Simulations.{IsSimulatedSpan};

use crate::program::Program;
use regex_automata::util::search::Match;
use regex_vm::PikeVm;
use std::alloc::{AllocError, Global};

/// The memory that the simulation of one pattern writes to.
#[derive(Drop)]
pub struct Simulation {
    vm: PikeVm,
    /// From group 1 on, two slots for each group: an offset plus one, or 0 for none.
    pub(crate) slots: Vec<usize>,
}

/// Whether no character continues at an offset.
fn is_boundary(hay: &[u8], at: usize) -> bool
    ensures { result ≡ text.is_boundary hay.now at }
{
    if at >= hay.len() {
        return true;
    }
    (hay[at] < 0x80) | (hay[at] > 0xBF)
}

impl Simulation {
    /// Returns the memory for a program.
    pub(crate) fn new(alloc: Global, program: &Program) -> Result<Simulation, AllocError>
        ensures { IfOk result (HasRoomOf program.now) }
    {
        let vm = PikeVm::new(alloc, &program.nfa)?;
        let width = program.nfa.slot_count as usize - 2;
        let slots = vec![in alloc; 0usize; width]?;
        Ok(Simulation { vm, slots })
    }

    /// Simulates the NFA of a program over the span of a match, and no byte more. If it finds the match, the slots are
    /// those of the match; otherwise they are empty.
    pub(crate) fn run(&mut self, program: &Program, hay: &[u8], found: &Match)
        requires of { HasRoomOf program.now self.old }
        requires within { found.now.end ≤ length hay.now }
        ensures slots { (trace : Trace) → trace.end ≡ found.now.end
            → run program.now.nfa hay.now (length hay.now) program.now.nfa.start found.now.start ≡ Some trace
            → self.new.slots.items
            ≡ group_cells (record { start = found.now.start; trace = trace }) (program.now.nfa.slot_count - 2) }
        ensures of { HasRoomOf program.now self.new }
    {
        let (start, end) = (found.start(), found.end());
        self.slots.fill(0);
        let _span = self
            .vm
            .find(&program.nfa, hay, start, start, end, &mut self.slots);
    }

    /// Finds the leftmost match of a program that begins from `start` on before `end`, and returns where it begins and
    /// ends. In text (`utf8`) no match begins inside a character. Other matches there, which are empty, are passed over,
    /// and each of them begins the simulation anew after it.
    pub(crate) fn find(
        &mut self,
        program: &Program,
        hay: &[u8],
        utf8: bool,
        start: usize,
        end: usize,
    ) -> Option<(usize, usize)>
        requires of { HasRoomOf program.now self.old }
        requires within { end ≤ length hay.now + 1 }
        ensures found { IsSimulatedSpan utf8 program.now hay.now start end result }
        ensures within { IfSome result (λ span. (span.0 ≤ span.1) × (span.1 ≤ length hay.now)) }
        ensures of { HasRoomOf program.now self.new }
    {
        let mut at = start;
        'starts: while at < end {
            let Some((from, to)) = self
                .vm
                .find(&program.nfa, hay, at, end - 1, hay.len(), &mut [])
            else {
                return None;
            };
            if !utf8 || is_boundary(hay, from) {
                return Some((from, to));
            }
            at = from + 1;
        }
        None
    }
}
