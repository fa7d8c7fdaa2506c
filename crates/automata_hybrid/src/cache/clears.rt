//! What a clear keeps: the start states, with their start slots, and the state from which the current step is taken.
//! They are copied to a new table, and the old one does not change.
ghost use Rattle.std.specs.Prelude.{◌≡◌, ◌+◌, ◌*◌, ◌^◌, ◌<◌, None, IfOk, OnOk, OnErr, length, sum_by};
ghost use Rattle.automata_base.specs.Powersets.Powerset.{Powerset};
ghost use Rattle.automata_hybrid.specs.Cache.Table.{id_of, Names, IsRowId, row_cost};
ghost use Rattle.automata_hybrid.specs.Private.Cache.Clears.{AllStarts, IsSlot, IsPut, KeepsSlot, KeepsAllStarts};
ghost use Rattle.automata_hybrid.specs.Private.Cache.Table.{IsSoundTable};
ghost use Rattle.automata_hybrid.specs.Cache.Ids.{offset_limit};

use crate::cache::row;
use crate::cache::table::Table;
use crate::dfa::DFA;
use crate::id::LazyStateID;
use std::alloc::AllocError;

/// Copies a row of another table, if its state is not here yet, and returns its ID here. An error changes nothing.
pub fn keep_row(kept: &mut Table, old: &Table, id: LazyStateID) -> Result<LazyStateID, AllocError>
    requires valid { IsRowId old.now id }
    requires of { kept.old.of ≡ old.now.of }
    requires fits { length kept.old.cells < offset_limit }
    requires costs { sum_by row_cost kept.old.rows + old.now.of.greatest < 2 ^ 64 }
    requires sound { IsSoundTable kept.old }
    ensures sound { OnOk result (IsSoundTable kept.new) }
    ensures row { IfOk result (λ n. IsPut old.now kept.old kept.new id n) }
    ensures named { IfOk result (λ n. (q : Powerset) → Names old.now id q → Names kept.new n q) }
    ensures absent { OnOk result ((q : Powerset) → id_of old.now q ≡ None → id_of kept.old q ≡ None
        → id_of kept.new q ≡ None) }
    ensures err { OnErr result (kept.new ≡ kept.old) }
{
    let row = old.copied_row(old.row_index(id))?;
    let key = row.state.key()?;
    if let Some(found) = kept.get(&key) {
        return Ok(found);
    }
    let bytes = row::cost(&row.state);
    let added = kept.add(row.state, row.started, bytes)?;
    Ok(added)
}

/// Copies a start slot, with its row if its ID has one. The unknown and the dead ID stay as they are.
pub fn keep_slot(
    kept: &mut Table,
    slots: &mut Vec<LazyStateID>,
    old: &Table,
    id: LazyStateID,
) -> Result<(), AllocError>
    requires leads { IsSlot old.now (length slots.old.items) id }
    requires named { AllStarts kept.old slots.old.items }
    requires of { kept.old.of ≡ old.now.of }
    requires fits { length kept.old.cells < offset_limit }
    requires costs { sum_by row_cost kept.old.rows + old.now.of.greatest < 2 ^ 64 }
    requires old { IsSoundTable old.now }
    requires sound { IsSoundTable kept.old }
    ensures sound { OnOk result (IsSoundTable kept.new) }
    ensures kept { OnOk result (KeepsSlot old.now id (record { table = kept.old; starts = slots.old.items })
        (record { table = kept.new; starts = slots.new.items })) }
{
    if id.is_fixed() {
        slots.push(id)?;
        return Ok(());
    }
    let new = keep_row(kept, old, id)?;
    slots.push(new)?;
    Ok(())
}

/// Returns a table with only the start states, and the start slots with their IDs there. The old table does not change.
pub fn keep_starts(
    dfa: &DFA,
    old: &Table,
    starts: &[LazyStateID],
) -> Result<(Table, Vec<LazyStateID>), AllocError>
    requires of { dfa.now ≡ old.now.of }
    requires named { AllStarts old.now starts.now }
    requires offsets { (length starts.now + 3) * old.now.of.stride < offset_limit }
    requires costs { (length starts.now + 1) * old.now.of.greatest < 2 ^ 64 }
    requires sound { IsSoundTable old.now }
    ensures sound { IfOk result (λ p. IsSoundTable p.0) }
    ensures kept { IfOk result (λ p. KeepsAllStarts old.now starts.now (record { table = p.0; starts = p.1.items })) }
{
    let mut table = old.emptied(dfa)?;
    let mut slots = Vec::with_capacity(dfa.get_nfa().alloc(), starts.len())?;
    for id in starts {
        keep_slot(&mut table, &mut slots, old, *id)?;
    }
    Ok((table, slots))
}
