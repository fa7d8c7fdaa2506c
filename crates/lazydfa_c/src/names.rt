//! The groups of the patterns of a regex, by number and by name.
ghost use Rattle.std.specs.Prelude.{◌≡◌, ◌<◌, [], Err, IfErr, IfOk, MatchOption, Ok, length, slice_get};
ghost use Rattle.meta.specs.Names.{group_names};
ghost use Rattle.lazydfa_c.specs.Calls.{WritesIfDone};
ghost use Rattle.lazydfa_c.specs.Groups.{IsCountTold, IsIndexTold, IsNameTold, IsNameWritten, LooksUp, TellsOfHandle};
ghost use Rattle.lazydfa_c.specs.Groups.{groups_at, names_in};

use crate::code::Code;
use crate::handle::Handle;
use crate::object::Object;
use crate::status::Status;
use crate::text::write_message;
use meta::Programs;
use regex_automata::util::primitives::PatternID;
use std::alloc::Global;

/// Returns the ID of the pattern of this number, if there is one.
pub(crate) fn pattern_at(programs: &Programs, number: u32) -> Option<PatternID>
    ensures { MatchOption result (groups_at programs.now number ≡ [])
        (λ pattern. (pattern ≡ number) × (group_names programs.now pattern ≡ groups_at programs.now number)
        × (0 < length (group_names programs.now pattern))) }
{
    let Some(pattern) = PatternID::new(number as usize) else {
        return None;
    };
    if programs.group_len(pattern) == 0 {
        return None;
    }
    Some(pattern)
}

/// Returns the programs of a regex object, and the ID of the pattern of this number. It fails with `Code::Kind` if the
/// object is not a regex, with `Code::NoGroups` if the regex was not built for groups, and with `Code::Argument` if no
/// pattern has the number.
fn pattern_of(object: &Object, number: u32) -> Result<(&Programs, PatternID), Status>
    ensures ok { IfOk result (λ r. names_in object.now number ≡ Ok (group_names r.0.now r.1)) }
    ensures err { IfErr result (λ e. names_in object.now number ≡ Err e) }
{
    let Object::Regex(shared) = object else {
        return Err(Status::from(Code::Kind));
    };
    let Some(programs) = &shared.programs else {
        return Err(Status::from(Code::NoGroups));
    };
    match pattern_at(programs, number) {
        Some(pattern) => Ok((programs, pattern)),
        None => Err(Status::from(Code::Argument)),
    }
}

/// Writes the number of groups of a pattern of a regex object.
fn write_count(object: &Object, pattern: u32, count: &mut usize) -> Status
    ensures told { IsCountTold count.new (names_in object.now pattern) result }
    ensures written { WritesIfDone count.old count.new result }
{
    match pattern_of(object, pattern) {
        Ok((programs, pattern)) => {
            *count = programs.group_len(pattern);
            Status::from(Code::Done)
        }
        Err(status) => status,
    }
}

/// Writes the number of the group of a pattern that has this name. The status is `Code::Nothing` if no group has it,
/// and `Code::NotText` if it is not UTF-8.
fn look_up(programs: &Programs, pattern: PatternID, name: &[u8], group: &mut usize) -> Status
    ensures told { LooksUp name.now group.new (group_names programs.now pattern) result }
    ensures written { WritesIfDone group.old group.new result }
{
    let name = match str::from_utf8(name) {
        Ok(name) => name,
        Err(error) => return Status::at(Code::NotText, error.valid_up_to()),
    };
    match programs.group_index(pattern, name) {
        Some(index) => {
            *group = index;
            Status::from(Code::Done)
        }
        None => Status::from(Code::Nothing),
    }
}

/// Writes the number of the group of a pattern of a regex object that has this name.
fn write_index(object: &Object, pattern: u32, name: &[u8], group: &mut usize) -> Status
    ensures told { IsIndexTold name.now group.new (names_in object.now pattern) result }
    ensures written { WritesIfDone group.old group.new result }
{
    match pattern_of(object, pattern) {
        Ok((programs, pattern)) => look_up(programs, pattern, name, group),
        Err(status) => status,
    }
}

/// Writes the name of a group, and its length in bytes. The status is `Code::Nothing` if the group has no name, and
/// `Code::Argument` if there is no group of this number.
fn write_name_of(
    programs: &Programs,
    pattern: PatternID,
    group: usize,
    out: &mut [u8],
    length: &mut usize,
) -> Status
    ensures told { IsNameWritten out.old out.new length.new
        (slice_get (group_names programs.now pattern) group) result }
    ensures written { WritesIfDone length.old length.new result }
    ensures name { WritesIfDone out.old out.new result }
{
    match programs.group_names(pattern).get(group) {
        Some(Some(name)) => {
            write_message(name.as_str(), out);
            *length = name.len();
            Status::from(Code::Done)
        }
        Some(None) => Status::from(Code::Nothing),
        None => Status::from(Code::Argument),
    }
}

/// Writes the name of a group of a pattern of a regex object, and its length in bytes.
fn write_name(
    object: &Object,
    pattern: u32,
    group: usize,
    out: &mut [u8],
    length: &mut usize,
) -> Status
    ensures told { IsNameTold group out.old out.new length.new (names_in object.now pattern) result }
    ensures written { WritesIfDone length.old length.new result }
    ensures name { WritesIfDone out.old out.new result }
{
    match pattern_of(object, pattern) {
        Ok((programs, pattern)) => write_name_of(programs, pattern, group, out, length),
        Err(status) => status,
    }
}

/// Writes the number of groups of a pattern of a handle's regex, group 0 included.
#[unsafe(no_mangle)]
pub extern "C" fn lazydfa_raw_group_count(
    alloc: Global,
    regex: &mut Handle,
    pattern: u32,
    count: &mut usize,
) -> Status
    ensures told { TellsOfHandle (λ o status. IsCountTold count.new (names_in o pattern) status)
        regex.old regex.new result }
    ensures written { WritesIfDone count.old count.new result }
{
    let Some(object) = regex.take(alloc) else {
        return Status::from(Code::Closed);
    };
    let status = write_count(object.as_ref(), pattern, count);
    regex.put(object);
    status
}

/// Writes the number of the group of a pattern of a handle's regex that has this name.
#[unsafe(no_mangle)]
pub extern "C" fn lazydfa_raw_group_index(
    alloc: Global,
    regex: &mut Handle,
    pattern: u32,
    name: &[u8],
    group: &mut usize,
) -> Status
    ensures told { TellsOfHandle (λ o status. IsIndexTold name.now group.new (names_in o pattern) status)
        regex.old regex.new result }
    ensures written { WritesIfDone group.old group.new result }
{
    let Some(object) = regex.take(alloc) else {
        return Status::from(Code::Closed);
    };
    let status = write_index(object.as_ref(), pattern, name, group);
    regex.put(object);
    status
}

/// Writes the name of a group of a pattern of a handle's regex, and its length in bytes.
#[unsafe(no_mangle)]
pub extern "C" fn lazydfa_raw_group_name(
    alloc: Global,
    regex: &mut Handle,
    pattern: u32,
    group: usize,
    name: &mut [u8],
    length: &mut usize,
) -> Status
    ensures told { TellsOfHandle
        (λ o status. IsNameTold group name.old name.new length.new (names_in o pattern) status)
        regex.old regex.new result }
    ensures written { WritesIfDone length.old length.new result }
    ensures name { WritesIfDone name.old name.new result }
{
    let Some(object) = regex.take(alloc) else {
        return Status::from(Code::Closed);
    };
    let status = write_name(object.as_ref(), pattern, group, name, length);
    regex.put(object);
    status
}
