//! Templates, which say what matches are replaced by: bytes as they are, and groups.
ghost use Rattle.std.specs.Prelude.{◌≡◌, ◌≢◌, ◌<◌, ◌≤◌, ◌==◌, IfOk, IfSome, drop, length, option_map, position};
ghost use Rattle.std.specs.Prelude.{slice_index};
ghost use Rattle.std.specs.List.{prefix_len};
ghost use Rattle.regex.specs.Templates.{is_name_byte, name_at};
ghost use Rattle.meta.specs.Names.{group_names};
ghost use Rattle.lgrep.specs.Templates.{AreReplacements, group_for, own_group, piece_at, pieces_of};

use anyhow::{Result, bail};
use meta::Programs;
use regex_automata::util::primitives::PatternID;
use std::alloc::{AllocError, Global};
use std::str::from_utf8;

/// A piece of a template.
#[derive(Clone, Copy)]
pub enum Piece {
    /// This byte.
    Byte(u8),
    /// The bytes of the group with this number, if it took part in the match.
    Group(usize),
}

/// What the matches of a pattern are replaced by.
#[derive(Drop)]
pub struct Replacement {
    pub pieces: Vec<Piece>,
}

/// The groups that a template may refer to: those of one of several patterns.
#[derive(Clone, Copy)]
struct Scope<'p> {
    programs: &'p Programs,
    pattern: PatternID,
    /// How many groups the patterns before this one have.
    before: usize,
}

/// Whether a byte can belong to a name that is not in braces.
fn is_name_byte(byte: u8) -> bool
    ensures { result ≡ is_name_byte byte }
{
    byte.is_ascii_alphanumeric() || byte == b'_'
}

/// Returns how many bytes at the beginning can belong to a name that is not in braces.
fn name_len(rest: &[u8]) -> usize
    ensures { result ≡ prefix_len is_name_byte rest.now }
{
    for at in 0..rest.len() {
        if !is_name_byte(rest[at]) {
            return at;
        }
    }
    rest.len()
}

/// Returns the first byte, or 0 if there is none.
fn first_of(rest: &[u8]) -> u8
    ensures is { result ≡ slice_index rest.now 0 }
    ensures some { 0 < result → 0 < length rest.now }
{
    if rest.is_empty() { 0 } else { rest[0] }
}

/// Returns the bytes after the first ones.
fn after(bytes: &[u8], count: usize) -> &[u8]
    requires { count ≤ length bytes.now }
    ensures { result.now ≡ drop count bytes.now }
{
    &bytes[count..]
}

/// Returns where the first closing brace is.
fn brace_at(inside: &[u8]) -> Option<usize>
    ensures { result ≡ position (λ byte. byte == 125) inside.now }
{
    inside.iter().position(|byte| *byte == b'}')
}

/// Returns the name between braces at the beginning, and the length of the reference with both of its braces. Without a
/// closing brace there is none.
fn braced_name(rest: &[u8]) -> Option<(&str, usize)>
    requires { slice_index rest.now 0 ≡ 123 }
    ensures value { option_map (λ found. (found.0.now, found.1)) result ≡ name_at rest.now }
    ensures within { IfSome result (λ found. found.1 ≤ length rest.now) }
{
    if rest.is_empty() {
        return None;
    }
    let inside = after(rest, 1);
    let Some(end) = brace_at(inside) else {
        return None;
    };
    match from_utf8(&inside[..end]) {
        Ok(name) => Some((name, end + 2)),
        Err(_) => None,
    }
}

/// Returns the longest name at the beginning, and its length. If no byte there can belong to a name, there is none.
fn bare_name(rest: &[u8]) -> Option<(&str, usize)>
    requires { slice_index rest.now 0 ≢ 123 }
    ensures value { option_map (λ found. (found.0.now, found.1)) result ≡ name_at rest.now }
    ensures within { IfSome result (λ found. found.1 ≤ length rest.now) }
{
    let length = name_len(rest);
    if length == 0 {
        return None;
    }
    match from_utf8(&rest[..length]) {
        Ok(name) => Some((name, length)),
        Err(_) => None,
    }
}

/// Returns the name of the group to which a `$` before these bytes refers, and how many of them belong to the
/// reference. If the `$` stands for itself, there is none.
fn name_at(rest: &[u8]) -> Option<(&str, usize)>
    ensures value { option_map (λ found. (found.0.now, found.1)) result ≡ name_at rest.now }
    ensures within { IfSome result (λ found. found.1 ≤ length rest.now) }
{
    if first_of(rest) == b'{' {
        braced_name(rest)
    } else {
        bare_name(rest)
    }
}

/// Returns the number in its own pattern of the group with this number in all patterns, if it is a group of the pattern
/// or of one after it. Group 0 is the match.
fn own_group(before: usize, number: usize) -> Option<usize>
    ensures { result ≡ own_group before number }
{
    if number == 0 {
        Some(0)
    } else if number <= before {
        None
    } else {
        Some(number - before)
    }
}

impl<'p> Scope<'p> {
    /// Returns the number in the pattern of the group that has this number in all patterns, or this name.
    fn group_for(&self, name: &str) -> Option<usize>
        ensures { result
            ≡ group_for (group_names self.now.programs.now self.now.pattern) self.now.before name.now }
    {
        match name.parse::<usize>() {
            Ok(number) => own_group(self.before, number),
            Err(_) => self.programs.group_index(self.pattern, name),
        }
    }

    /// Returns the piece for a byte of a template before these bytes, and how many of them belong to it. A reference to
    /// a group that the pattern does not have is no piece.
    fn piece_at(&self, byte: u8, rest: &[u8]) -> (Option<Piece>, usize)
        ensures piece { result
            ≡ piece_at (group_for (group_names self.now.programs.now self.now.pattern) self.now.before) byte rest.now }
        ensures within { result.1 ≤ length rest.now }
    {
        if byte != b'$' {
            return (Some(Piece::Byte(byte)), 0);
        }
        if first_of(rest) == b'$' {
            return (Some(Piece::Byte(b'$')), 1);
        }
        match name_at(rest) {
            Some((name, length)) => match self.group_for(name) {
                Some(group) => (Some(Piece::Group(group)), length),
                None => (None, length),
            },
            None => (Some(Piece::Byte(byte)), 0),
        }
    }

    /// Reads a template.
    fn pieces_of(&self, alloc: Global, template: &[u8]) -> Result<Vec<Piece>, AllocError>
        ensures { IfOk result (λ pieces. pieces.items
            ≡ pieces_of (group_for (group_names self.now.programs.now self.now.pattern) self.now.before)
            template.now 0) }
    {
        let mut pieces = Vec::new(alloc);
        let mut at = 0;
        while at < template.len() {
            let rest = after(template, at + 1);
            let (piece, length) = self.piece_at(template[at], rest);
            if let Some(piece) = piece {
                pieces.push(piece)?;
            }
            at += 1 + length;
        }
        Ok(pieces)
    }
}

/// Reads a template for each of the first `count` patterns, with their groups. The groups of all patterns are numbered
/// in one sequence, in the order of the patterns; a name refers to a group of the same pattern. It fails only if there
/// is no memory, or if there are too many patterns for their numbers.
pub fn replacements_of(
    alloc: Global,
    programs: &Programs,
    count: usize,
    template: &str,
) -> Result<Vec<Replacement>>
    ensures { IfOk result (λ replacements.
        AreReplacements programs.now template.now count replacements.items) }
{
    let mut replacements = Vec::new(alloc);
    let mut before = 0usize;
    for number in 0..count {
        let Some(pattern) = PatternID::new(number) else {
            bail!("too many patterns");
        };
        let scope = Scope {
            programs,
            pattern,
            before,
        };
        let pieces = scope.pieces_of(alloc, template.as_bytes())?;
        replacements.push(Replacement { pieces })?;
        let groups = programs.group_len(pattern).saturating_sub(1);
        before = before.saturating_add(groups);
    }
    Ok(replacements)
}
