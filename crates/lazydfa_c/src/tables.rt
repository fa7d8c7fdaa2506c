//! The sizes of the tables of regexes.
ghost use Rattle.std.specs.Prelude.{◌≡◌};
ghost use Rattle.lazydfa_c.specs.Calls.{ReadsHandle, WritesIfDone};
ghost use Rattle.lazydfa_c.specs.Tables.{IsSizeIn, ReportsSize, range_count, table_size};

use crate::code::Code;
use crate::handle::Handle;
use crate::object::Object;
use crate::status::Status;
use regex_automata::nfa::thompson::{NFA, State};
use std::alloc::Global;

/// Returns the number of byte ranges of a sparse state, and 0 for any other state.
fn range_count(state: &State) -> usize
    ensures { result ≡ range_count state.now }
{
    match state {
        State::Sparse(ranges) => ranges.len(),
        State::ByteRange { .. }
        | State::Dense(_)
        | State::Look { .. }
        | State::Union { .. }
        | State::BinaryUnion { .. }
        | State::Capture { .. }
        | State::Fail
        | State::Match { .. } => 0,
    }
}

/// Returns the size of an NFA's states, in bytes, or `usize::MAX` if it exceeds that.
fn table_size(nfa: &NFA) -> usize
    ensures { result ≡ table_size nfa.now.states }
{
    let mut size = 0usize;
    for state in nfa.states() {
        let ranges = range_count(state).saturating_mul(8);
        size = size.saturating_add(ranges.saturating_add(16));
    }
    size
}

/// Returns the size of the tables of a regex object. It fails with `Code::Kind` if the object is not a regex.
fn size_of(object: &Object) -> Result<usize, Status>
    ensures { IsSizeIn object.now result }
{
    match object {
        Object::Regex(shared) => Ok(table_size(shared.pattern.regex.forward().get_nfa())),
        Object::Builder(_) | Object::Searcher(_) => Err(Status::from(Code::Kind)),
    }
}

/// Returns the size of the tables of a handle's regex. It fails with `Code::Closed` if the handle owns nothing, and
/// with `Code::Kind` if it does not own a regex.
fn size_in(alloc: Global, regex: &mut Handle) -> Result<usize, Status>
    ensures { ReadsHandle IsSizeIn regex.old regex.new result }
{
    let Some(object) = regex.take(alloc) else {
        return Err(Status::from(Code::Closed));
    };
    let size = size_of(object.as_ref());
    regex.put(object);
    size
}

/// Writes the size of the tables of a handle's regex, in bytes.
#[unsafe(no_mangle)]
pub extern "C" fn lazydfa_raw_regex_size(
    alloc: Global,
    regex: &mut Handle,
    size: &mut usize,
) -> Status
    ensures reports { ReportsSize size.new regex.old regex.new result }
    ensures written { WritesIfDone size.old size.new result }
{
    match size_in(alloc, regex) {
        Ok(bytes) => {
            *size = bytes;
            Status::from(Code::Done)
        }
        Err(status) => status,
    }
}
