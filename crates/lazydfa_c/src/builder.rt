//! Builders of NFAs, which a C program fills state by state.
ghost use Rattle.std.specs.Prelude.{◌≡◌, ◌⊎◌, ◌==◌, not, IfErr, IfOk, IsFalse, IsTrue, None, map, nat_lt};
ghost use Rattle.automata_base.specs.Haystacks.LookSets.{nth_look};
ghost use Rattle.lazydfa_c.specs.Drafts.{AddsToHandle, AddsTo, Changes, ChangesDraft, ChangesPattern, CreatesDraft};
ghost use Rattle.lazydfa_c.specs.Drafts.{IsNumberTold, NewsDraft, OfBuilder, OfDraft, OpensDraft, are_states};
ghost use Rattle.lazydfa_c.specs.Drafts.{answer_of_build, is_state, lead_on, state_of, transition_of, zeroed};
ghost use Rattle.lazydfa_c.specs.Statuses.{plain};
ghost use Rattle.lazydfa_c.specs.declared.builder.Added.TheVariants as add;
ghost use Rattle.lazydfa_c.specs.declared.builder.Change.TheVariants as change;
ghost use Rattle.lazydfa_c.specs.declared.code.Code.TheVariants as code;

use crate::code::Code;
use crate::handle::Handle;
use crate::object::Object;
use crate::status::Status;
use regex_automata::nfa::thompson::{BuildError, Builder, Transition};
use regex_automata::util::look::Look;
use regex_automata::util::primitives::{PatternID, StateID};
use std::alloc::Global;

/// A range of bytes and the state that it leads to.
#[repr(C)]
#[derive(Clone, Copy)]
pub struct Edge {
    pub lo: u8,
    pub hi: u8,
    pub reserved: u16,
    pub next: u32,
}

/// A state to be added.
#[derive(Clone, Copy)]
enum Added<'a> {
    Empty,
    Range(Edge),
    Sparse(&'a [Edge]),
    Look { look: u32, next: u32 },
    Union(&'a [u32]),
    UnionReverse(&'a [u32]),
    CaptureStart { next: u32, group: u32 },
    CaptureEnd { next: u32, group: u32 },
    Fail,
    Match,
    UnanchoredPrefix { start: u32 },
}

/// Returns the ID of the state of this number. It fails with `Code::Argument` if the number is not a valid state ID.
pub fn state_id(number: u32) -> Result<StateID, Status>
    ensures { result ≡ state_of number }
{
    match StateID::new(number as usize) {
        Some(id) => Ok(id),
        None => Err(Status::from(Code::Argument)),
    }
}

/// Returns the IDs of the states of these numbers. It fails with `Code::Argument` if a number is not a valid state ID.
fn state_ids(alloc: Global, numbers: &[u32]) -> Result<Vec<StateID>, Status>
    ensures ok { IfOk result (λ ids. ids.items ≡ numbers.now) }
    ensures states { IfOk result (λ ids. IsTrue (are_states numbers.now)) }
    ensures err { IfErr result (λ s. (s ≡ plain code.Memory)
        ⊎ ((s ≡ plain code.Argument) × IsFalse (are_states numbers.now))) }
{
    let mut ids = Vec::new(alloc);
    for number in numbers {
        let id = state_id(*number)?;
        ids.push(id)?;
    }
    Ok(ids)
}

/// Converts an edge as C lays it out to a transition. It fails with `Code::Argument` if the number of its state is not
/// a valid state ID.
fn transition(edge: Edge) -> Result<Transition, Status>
    ensures ok { IfOk result (λ t. t ≡ transition_of edge) }
    ensures state { IfOk result (λ t. IsTrue (is_state edge.next)) }
    ensures err { IfErr result (λ s. (s ≡ plain code.Argument) × IsFalse (is_state edge.next)) }
{
    let next = state_id(edge.next)?;
    Ok(Transition {
        lo: edge.lo,
        hi: edge.hi,
        next,
    })
}

/// Converts edges as C lays them out to transitions, in their order. It fails with `Code::Argument` if the number of a
/// state is not a valid state ID.
fn transitions(alloc: Global, edges: &[Edge]) -> Result<Vec<Transition>, Status>
    ensures ok { IfOk result (λ ts. ts.items ≡ map transition_of edges.now) }
    ensures states { IfOk result (λ ts. IsTrue (lead_on edges.now)) }
    ensures err { IfErr result (λ s. (s ≡ plain code.Memory)
        ⊎ ((s ≡ plain code.Argument) × IsFalse (lead_on edges.now))) }
{
    let mut transitions = Vec::new(alloc);
    for edge in edges {
        let transition = transition(*edge)?;
        transitions.push(transition)?;
    }
    Ok(transitions)
}

/// Returns the look of this number. It fails with `Code::Argument` if the number is not below 18.
fn look_of(number: u32) -> Result<Look, Status>
    ensures ok { IfOk result (λ l. l ≡ nth_look number) }
    ensures look { IfOk result (λ l. IsTrue (nat_lt number 18)) }
    ensures err { IfErr result (λ s. (s ≡ plain code.Argument) × IsFalse (nat_lt number 18)) }
{
    if number < 18 {
        Ok(Look::from_index(number))
    } else {
        Err(Status::from(Code::Argument))
    }
}

/// Returns the number of the state that a builder's call added, or the status of that call's error.
fn added_state(answer: Result<StateID, BuildError>) -> Result<u32, Status>
    ensures { result ≡ answer_of_build answer }
{
    match answer {
        Ok(id) => Ok(id.as_u32()),
        Err(error) => Err(Status::from(error)),
    }
}

/// Returns the number of the pattern that a builder's call started or finished, or the status of that call's error.
fn added_pattern(answer: Result<PatternID, BuildError>) -> Result<u32, Status>
    ensures { result ≡ answer_of_build answer }
{
    match answer {
        Ok(pattern) => Ok(pattern.as_u32()),
        Err(error) => Err(Status::from(error)),
    }
}

/// Returns zero for a builder's call that returns no number, or the status of that call's error.
fn patched(answer: Result<(), BuildError>) -> Result<u32, Status>
    ensures { result ≡ answer_of_build (zeroed answer) }
{
    match answer {
        Ok(()) => Ok(0),
        Err(error) => Err(Status::from(error)),
    }
}

/// Adds a state to a builder, and returns its number. It fails with `Code::Argument` if a number is not a valid state
/// ID or look-around assertion, with `Code::Memory` if a list cannot be copied, and otherwise with the status of the
/// builder's error. After an error the builder is unchanged.
fn add_to(alloc: Global, builder: &mut Builder, added: Added<'_>) -> Result<u32, Status>
    ensures { AddsTo added.entry builder.old builder.new result }
{
    match added {
        Added::Empty => added_state(builder.add_empty()),
        Added::Range(edge) => added_state(builder.add_range(transition(edge)?)),
        Added::Sparse(edges) => added_state(builder.add_sparse(transitions(alloc, edges)?)),
        Added::Look { look, next } => {
            added_state(builder.add_look(state_id(next)?, look_of(look)?))
        }
        Added::Union(alternates) => added_state(builder.add_union(state_ids(alloc, alternates)?)),
        Added::UnionReverse(alternates) => {
            added_state(builder.add_union_reverse(state_ids(alloc, alternates)?))
        }
        Added::CaptureStart { next, group } => {
            added_state(builder.add_capture_start(state_id(next)?, group))
        }
        Added::CaptureEnd { next, group } => {
            added_state(builder.add_capture_end(state_id(next)?, group))
        }
        Added::Fail => added_state(builder.add_fail()),
        Added::Match => added_state(builder.add_match()),
        Added::UnanchoredPrefix { start } => {
            added_state(builder.add_unanchored_prefix(state_id(start)?))
        }
    }
}

/// Adds a state to a builder object, and returns its number. It fails with `Code::Kind` if the object is not a builder.
fn add_in(alloc: Global, object: &mut Object, added: Added<'_>) -> Result<u32, Status>
    ensures { OfBuilder (AddsTo added.entry) object.old object.new result }
{
    match object {
        Object::Builder(builder) => add_to(alloc, builder, added),
        Object::Regex(_) | Object::Searcher(_) => Err(Status::from(Code::Kind)),
    }
}

/// Adds a state to a handle's builder, and returns its number. It fails with `Code::Closed` if the handle owns nothing,
/// and with `Code::Kind` if it does not own a builder.
fn add_behind(alloc: Global, handle: &mut Handle, added: Added<'_>) -> Result<u32, Status>
    ensures { OfDraft (AddsTo added.entry) handle.old handle.new result }
{
    let Some(mut object) = handle.take(alloc) else {
        return Err(Status::from(Code::Closed));
    };
    let result = add_in(alloc, object.as_mut(), added);
    handle.put(object);
    result
}

/// Writes the number of a result if there is one, and returns the result's status.
fn tell(answer: Result<u32, Status>, number: &mut u32) -> Status
    ensures { IsNumberTold number.old number.new answer result }
{
    match answer {
        Ok(it) => {
            *number = it;
            Status::from(Code::Done)
        }
        Err(status) => status,
    }
}

/// Adds a state to a handle's builder, and writes its ID.
fn add(alloc: Global, handle: &mut Handle, added: Added<'_>, id: &mut u32) -> Status
    ensures { AddsToHandle added.entry id.old id.new handle.old handle.new result }
{
    tell(add_behind(alloc, handle, added), id)
}

/// A change to a builder that adds no state.
#[derive(Clone, Copy)]
enum Change {
    Clear,
    StartPattern,
    FinishPattern { start: u32 },
    Patch { from: u32, to: u32 },
    Utf8(bool),
    Reverse(bool),
    LineTerminator(u8),
}

/// Changes a builder, and returns the number of the pattern that the change starts or finishes, or else zero.
fn change_to(builder: &mut Builder, change: Change) -> Result<u32, Status>
    ensures { Changes change builder.old builder.new result }
{
    match change {
        Change::Clear => builder.clear(),
        Change::StartPattern => return added_pattern(builder.start_pattern()),
        Change::FinishPattern { start } => {
            return added_pattern(builder.finish_pattern(state_id(start)?));
        }
        Change::Patch { from, to } => {
            return patched(builder.patch(state_id(from)?, state_id(to)?));
        }
        Change::Utf8(yes) => builder.set_utf8(yes),
        Change::Reverse(yes) => builder.set_reverse(yes),
        Change::LineTerminator(byte) => builder.set_line_terminator(byte),
    }
    Ok(0)
}

/// Changes a builder object, and returns the number of the pattern that the change starts or finishes, or else zero. It
/// fails with `Code::Kind` if the object is not a builder.
fn change_in(object: &mut Object, change: Change) -> Result<u32, Status>
    ensures { OfBuilder (Changes change) object.old object.new result }
{
    match object {
        Object::Builder(builder) => change_to(builder, change),
        Object::Regex(_) | Object::Searcher(_) => Err(Status::from(Code::Kind)),
    }
}

/// Changes a handle's builder, and returns the number of the pattern that the change starts or finishes, or else zero.
/// It fails with `Code::Closed` if the handle owns nothing, and with `Code::Kind` if it does not own a builder.
fn change_behind(alloc: Global, handle: &mut Handle, change: Change) -> Result<u32, Status>
    ensures { OfDraft (Changes change) handle.old handle.new result }
{
    let Some(mut object) = handle.take(alloc) else {
        return Err(Status::from(Code::Closed));
    };
    let result = change_in(object.as_mut(), change);
    handle.put(object);
    result
}

/// Changes a handle's builder. The status says whether it was changed, and if not, why.
fn changed(alloc: Global, handle: &mut Handle, wanted: Change) -> Status
    ensures { ChangesDraft wanted handle.old handle.new result }
{
    match change_behind(alloc, handle, wanted) {
        Ok(_) => Status::from(Code::Done),
        Err(status) => status,
    }
}

/// Changes a handle's builder by starting or finishing a pattern, and writes the pattern's number. After an error
/// nothing is written.
fn changed_pattern(alloc: Global, handle: &mut Handle, wanted: Change, pattern: &mut u32) -> Status
    ensures { ChangesPattern wanted pattern.old pattern.new handle.old handle.new result }
{
    tell(change_behind(alloc, handle, wanted), pattern)
}

/// Opens a handle on a builder.
fn open_builder(alloc: Global, handle: &mut Handle, builder: Builder) -> Result<(), Status>
    requires { handle.now.slot.value ≡ None }
    ensures { OpensDraft builder handle.old handle.new result }
{
    let object = Box::new(alloc, Object::Builder(builder))?;
    handle.put(object);
    Ok(())
}

/// Opens a handle on a builder without states. It fails with `Code::Open` if the handle is already open, and with
/// `Code::Memory` if the allocation fails; the handle is then unchanged.
fn new_builder(alloc: Global, handle: &mut Handle) -> Result<(), Status>
    ensures { CreatesDraft handle.old handle.new result }
{
    if handle.is_open() {
        return Err(Status::from(Code::Open));
    }
    open_builder(alloc, handle, Builder::new(alloc))
}

/// Opens a handle on a builder without states.
#[unsafe(no_mangle)]
pub extern "C" fn lazydfa_raw_builder_new(alloc: Global, builder: &mut Handle) -> Status
    ensures { NewsDraft builder.old builder.new result }
{
    Status::of(new_builder(alloc, builder))
}

/// Removes all states and patterns.
#[unsafe(no_mangle)]
pub extern "C" fn lazydfa_raw_builder_clear(alloc: Global, builder: &mut Handle) -> Status
    ensures { ChangesDraft change.Clear builder.old builder.new result }
{
    changed(alloc, builder, Change::Clear)
}

/// Starts a pattern. The match states and groups that are added until it is finished belong to it.
#[unsafe(no_mangle)]
pub extern "C" fn lazydfa_raw_start_pattern(
    alloc: Global,
    builder: &mut Handle,
    pattern: &mut u32,
) -> Status
    ensures { ChangesPattern change.StartPattern pattern.old pattern.new builder.old builder.new result }
{
    changed_pattern(alloc, builder, Change::StartPattern, pattern)
}

/// Finishes the pattern that was started, and sets the state in which its searches start.
#[unsafe(no_mangle)]
pub extern "C" fn lazydfa_raw_finish_pattern(
    alloc: Global,
    builder: &mut Handle,
    start: u32,
    pattern: &mut u32,
) -> Status
    ensures { ChangesPattern (change.FinishPattern start) pattern.old pattern.new builder.old builder.new result }
{
    changed_pattern(alloc, builder, Change::FinishPattern { start }, pattern)
}

/// Adds an edge from a state, or redirects the one that it has.
#[unsafe(no_mangle)]
pub extern "C" fn lazydfa_raw_patch(
    alloc: Global,
    builder: &mut Handle,
    from: u32,
    to: u32,
) -> Status
    ensures { ChangesDraft (change.Patch from to) builder.old builder.new result }
{
    changed(alloc, builder, Change::Patch { from, to })
}

/// Sets UTF-8 mode, in which no match splits an encoded character.
#[unsafe(no_mangle)]
pub extern "C" fn lazydfa_raw_set_utf8(alloc: Global, builder: &mut Handle, yes: u32) -> Status
    ensures { ChangesDraft (change.Utf8 (not (yes == 0))) builder.old builder.new result }
{
    changed(alloc, builder, Change::Utf8(yes != 0))
}

/// Sets whether the NFA reads its haystack backward.
#[unsafe(no_mangle)]
pub extern "C" fn lazydfa_raw_set_reverse(alloc: Global, builder: &mut Handle, yes: u32) -> Status
    ensures { ChangesDraft (change.Reverse (not (yes == 0))) builder.old builder.new result }
{
    changed(alloc, builder, Change::Reverse(yes != 0))
}

/// Sets the byte that ends a line.
#[unsafe(no_mangle)]
pub extern "C" fn lazydfa_raw_set_line_terminator(
    alloc: Global,
    builder: &mut Handle,
    byte: u8,
) -> Status
    ensures { ChangesDraft (change.LineTerminator byte) builder.old builder.new result }
{
    changed(alloc, builder, Change::LineTerminator(byte))
}

/// Adds a state with one epsilon edge.
#[unsafe(no_mangle)]
pub extern "C" fn lazydfa_raw_add_empty(alloc: Global, builder: &mut Handle, id: &mut u32) -> Status
    ensures { AddsToHandle add.Empty id.old id.new builder.old builder.new result }
{
    add(alloc, builder, Added::Empty, id)
}

/// Adds a state that reads one byte in a range.
#[unsafe(no_mangle)]
pub extern "C" fn lazydfa_raw_add_range(
    alloc: Global,
    builder: &mut Handle,
    lo: u8,
    hi: u8,
    next: u32,
    id: &mut u32,
) -> Status
    ensures { AddsToHandle (add.Range (record { lo = lo; hi = hi; reserved = 0; next = next })) id.old id.new
        builder.old builder.new result }
{
    let edge = Edge {
        lo,
        hi,
        reserved: 0,
        next,
    };
    add(alloc, builder, Added::Range(edge), id)
}

/// Adds a state that reads one byte in any of several ranges.
#[unsafe(no_mangle)]
pub extern "C" fn lazydfa_raw_add_sparse(
    alloc: Global,
    builder: &mut Handle,
    edges: &[Edge],
    id: &mut u32,
) -> Status
    ensures { AddsToHandle (add.Sparse edges.entry) id.old id.new builder.old builder.new result }
{
    add(alloc, builder, Added::Sparse(edges), id)
}

/// Adds a state with a look-around assertion.
#[unsafe(no_mangle)]
pub extern "C" fn lazydfa_raw_add_look(
    alloc: Global,
    builder: &mut Handle,
    next: u32,
    look: u32,
    id: &mut u32,
) -> Status
    ensures { AddsToHandle (add.Look look next) id.old id.new builder.old builder.new result }
{
    add(alloc, builder, Added::Look { look, next }, id)
}

/// Adds a union whose first alternate is preferred.
#[unsafe(no_mangle)]
pub extern "C" fn lazydfa_raw_add_union(
    alloc: Global,
    builder: &mut Handle,
    alternates: &[u32],
    id: &mut u32,
) -> Status
    ensures { AddsToHandle (add.Union alternates.entry) id.old id.new builder.old builder.new result }
{
    add(alloc, builder, Added::Union(alternates), id)
}

/// Adds a union whose last alternate is preferred.
#[unsafe(no_mangle)]
pub extern "C" fn lazydfa_raw_add_union_reverse(
    alloc: Global,
    builder: &mut Handle,
    alternates: &[u32],
    id: &mut u32,
) -> Status
    ensures { AddsToHandle (add.UnionReverse alternates.entry) id.old id.new builder.old builder.new result }
{
    add(alloc, builder, Added::UnionReverse(alternates), id)
}

/// Adds a state where a group begins.
#[unsafe(no_mangle)]
pub extern "C" fn lazydfa_raw_add_capture_start(
    alloc: Global,
    builder: &mut Handle,
    next: u32,
    group: u32,
    id: &mut u32,
) -> Status
    ensures { AddsToHandle (add.CaptureStart next group) id.old id.new builder.old builder.new result }
{
    add(alloc, builder, Added::CaptureStart { next, group }, id)
}

/// Adds a state where a group ends.
#[unsafe(no_mangle)]
pub extern "C" fn lazydfa_raw_add_capture_end(
    alloc: Global,
    builder: &mut Handle,
    next: u32,
    group: u32,
    id: &mut u32,
) -> Status
    ensures { AddsToHandle (add.CaptureEnd next group) id.old id.new builder.old builder.new result }
{
    add(alloc, builder, Added::CaptureEnd { next, group }, id)
}

/// Adds a state from which nothing matches.
#[unsafe(no_mangle)]
pub extern "C" fn lazydfa_raw_add_fail(alloc: Global, builder: &mut Handle, id: &mut u32) -> Status
    ensures { AddsToHandle add.Fail id.old id.new builder.old builder.new result }
{
    add(alloc, builder, Added::Fail, id)
}

/// Adds a match state of the pattern that was started.
#[unsafe(no_mangle)]
pub extern "C" fn lazydfa_raw_add_match(alloc: Global, builder: &mut Handle, id: &mut u32) -> Status
    ensures { AddsToHandle add.Match id.old id.new builder.old builder.new result }
{
    add(alloc, builder, Added::Match, id)
}

/// Adds the states that skip bytes before a start state.
#[unsafe(no_mangle)]
pub extern "C" fn lazydfa_raw_add_unanchored_prefix(
    alloc: Global,
    builder: &mut Handle,
    start: u32,
    id: &mut u32,
) -> Status
    ensures { AddsToHandle (add.UnanchoredPrefix start) id.old id.new builder.old builder.new result }
{
    add(alloc, builder, Added::UnanchoredPrefix { start }, id)
}
