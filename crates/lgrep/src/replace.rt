//! Lines in which matches are replaced.
ghost use Rattle.std.specs.Prelude.{◌≡◌, ◌≤◌, ◌++◌, Bool, false, List, None, IfOk, IfSome, OnOk, flat_map, length};
ghost use Rattle.regex_hir.specs.Re.{Re};
ghost use Rattle.regex_automata.specs.Promises.{AreCachesOf};
ghost use Rattle.meaning.specs.Patterns.{left_any};
ghost use Rattle.patterns.specs.Patterns.{IsRegexOf};
ghost use Rattle.meta.specs.Caches.{AreRoomsOf, HaveRoomFor};
ghost use Rattle.meta.specs.Captures.{LieInMatch, span_in};
ghost use Rattle.meta.specs.Groups.{FindAllGroups};
ghost use Rattle.meta.specs.Laws.{IsOfPreferred};
ghost use Rattle.lgrep.specs.Lines.{bytewise};
ghost use Rattle.lgrep.specs.Replaced.{expansion, piece_bytes, replaced_line, span_bytes};
ghost use Rattle.lgrep.specs.Shown.{replacements_shown, shown_after};
ghost use Rattle.lgrep.specs.Templates.{pieces_for};

use crate::show::{Frame, push_after};
use crate::stats::Usage;
use crate::template::{Piece, Replacement};
use anyhow::Result;
use meta::laws::matches_are_preferred;
use meta::{Captures, Programs, Simulation};
use patterns::{Misses, Pattern};
use regex_automata::hybrid::regex::Cache;
use regex_automata::util::search::Match;
use std::alloc::{AllocError, Global};

/// Returns the bytes of a group of a match, or none if it took no part.
fn group_bytes<'l>(line: &'l [u8], found: &Match, captures: &Captures, group: usize) -> &'l [u8]
    requires within { found.now.end ≤ length line.now }
    requires lie { LieInMatch found.now captures.now }
    ensures { result.now ≡ span_bytes line.now (span_in captures.now group) }
{
    match captures.get(group) {
        Some(span) => &line[span.start..span.end],
        None => &[],
    }
}

/// Appends what a piece of a template stands for at a match.
fn push_piece(
    piece: &Piece,
    line: &[u8],
    found: &Match,
    captures: &Captures,
    bytes: &mut Vec<u8>,
) -> Result<(), AllocError>
    requires within { found.now.end ≤ length line.now }
    requires lie { LieInMatch found.now captures.now }
    ensures { OnOk result (bytes.new.items
        ≡ bytes.old.items ++ piece_bytes line.now (span_in captures.now) piece.now) }
{
    match piece {
        Piece::Byte(byte) => bytes.push(*byte)?,
        Piece::Group(group) => {
            bytes.extend_from_slice(group_bytes(line, found, captures, *group))?;
        }
    }
    Ok(())
}

/// Appends what the pieces of a template stand for at a match.
fn push_pieces(
    pieces: &[Piece],
    line: &[u8],
    found: &Match,
    captures: &Captures,
    bytes: &mut Vec<u8>,
) -> Result<(), AllocError>
    requires within { found.now.end ≤ length line.now }
    requires lie { LieInMatch found.now captures.now }
    ensures { OnOk result (bytes.new.items
        ≡ bytes.old.items ++ flat_map (piece_bytes line.now (span_in captures.now)) pieces.now) }
{
    for piece in pieces {
        push_piece(piece, line, found, captures, bytes)?;
    }
    Ok(())
}

/// Returns the pieces for the matches of a pattern; there are none if it has no replacement.
fn pieces_for(replacements: &[Replacement], pattern: usize) -> &[Piece]
    ensures { result.now ≡ pieces_for replacements.now pattern }
{
    match replacements.get(pattern) {
        Some(replacement) => replacement.pieces.as_slice(),
        None => &[],
    }
}

/// What finds the groups of matches, and the memory for it.
pub struct GroupFinder {
    programs: Programs,
    simulations: Vec<Simulation>,
    captures: Captures,
    ghost rooms: { AreRoomsOf simulations.items programs.list.items },
    ghost room: { HaveRoomFor captures programs },
}

// An owner drops this with one call, so that its proof has no step for each field.
impl Drop for GroupFinder {
    fn drop(self) {
        let Self {
            programs: _programs,
            simulations: _simulations,
            captures: _captures,
        } = self;
    }
}

impl GroupFinder {
    /// Returns what finds the groups by these programs.
    pub fn new(alloc: Global, programs: Programs) -> Result<GroupFinder, AllocError>
        ensures { IfOk result (λ groups. groups.programs ≡ programs) }
    {
        let simulations = programs.create_simulations(alloc)?;
        match programs.create_captures(alloc) {
            Ok(captures) => Ok(GroupFinder {
                programs,
                simulations,
                captures,
            }),
            Err(error) => Err(error),
        }
    }

    /// Appends what a match of a line is replaced by.
    fn push_expansion(
        &mut self,
        replacements: &[Replacement],
        line: &[u8],
        found: &Match,
        bytes: &mut Vec<u8>,
    ) -> Result<(), AllocError>
        requires { found.now.end ≤ length line.now }
        ensures same { self.new.programs ≡ self.old.programs }
        ensures expanded { OnOk result ((res : List Re) → FindAllGroups self.old.programs.list.items res
            → IsOfPreferred res line.now found.now
            → bytes.new.items ≡ bytes.old.items ++ expansion replacements.now res line.now found.now) }
    {
        self.programs
            .groups_of(&mut self.simulations, line, found, &mut self.captures);
        let pieces = pieces_for(replacements, found.pattern().as_usize());
        push_pieces(pieces, line, found, &self.captures, bytes)
    }
}

/// A pattern, its caches, and what finds the groups of its matches.
pub struct Replacer {
    pattern: Pattern,
    caches: Cache,
    groups: GroupFinder,
    /// What a line, or a match of it, is replaced by.
    bytes: Vec<u8>,
    ghost of: { AreCachesOf caches pattern.regex },
}

// An owner drops this with one call, so that its proof has no step for each field.
impl Drop for Replacer {
    fn drop(self) {
        let Self {
            pattern: _pattern,
            caches: _caches,
            groups: _groups,
            bytes: _bytes,
        } = self;
    }
}

impl Replacer {
    /// Returns a replacer with new caches for the pattern.
    pub fn new(alloc: Global, pattern: Pattern, groups: GroupFinder) -> Result<Replacer>
        ensures pattern { IfOk result (λ r. r.pattern ≡ pattern) }
        ensures groups { IfOk result (λ r. r.groups ≡ groups) }
    {
        let caches = pattern.create_cache()?;
        Ok(Replacer {
            pattern,
            caches,
            groups,
            bytes: Vec::new(alloc),
        })
    }

    /// Puts a line with each match replaced into the bytes, in place of what they were.
    fn replace(&mut self, replacements: &[Replacement], line: &[u8]) -> Result<()>
        ensures same { (self.new.pattern ≡ self.old.pattern)
            × (self.new.groups.programs ≡ self.old.groups.programs) }
        ensures replaced { OnOk result ((case_insensitive : Bool) (res : List Re)
            → IsRegexOf (bytewise case_insensitive) res self.old.pattern.regex
            → FindAllGroups self.old.groups.programs.list.items res
            → self.new.bytes.items ≡ replaced_line replacements.now res line.now) }
    {
        matches_are_preferred();
        self.bytes.clear();
        let mut last = None;
        let mut misses = Misses::none();
        'matches: while let Some(found) = self
            .pattern
            .next_match(&mut self.caches, line, last, &mut misses)?
        {
            let before = &line[last.unwrap_or(0)..found.start()];
            self.bytes.extend_from_slice(before)?;
            self.groups
                .push_expansion(replacements, line, &found, &mut self.bytes)?;
            last = Some(found.end());
        }
        let rest = &line[last.unwrap_or(0)..];
        self.bytes.extend_from_slice(rest)?;
        Ok(())
    }

    /// Appends a line with each match replaced, after the prefix and in the frame.
    pub fn push_replaced(
        &mut self,
        alloc: Global,
        replacements: &[Replacement],
        prefix: &[u8],
        frame: &Frame,
        line: &[u8],
        shown: &mut Vec<u8>,
    ) -> Result<()>
        ensures same { (self.new.pattern ≡ self.old.pattern)
            × (self.new.groups.programs ≡ self.old.groups.programs) }
        ensures shown { OnOk result ((case_insensitive : Bool) (res : List Re)
            → IsRegexOf (bytewise case_insensitive) res self.old.pattern.regex
            → FindAllGroups self.old.groups.programs.list.items res → shown.new.items
            ≡ shown.old.items ++ shown_after prefix.now frame.now 0 (replaced_line replacements.now res line.now)) }
    {
        self.replace(replacements, line)?;
        push_after(alloc, prefix, frame, 0, &self.bytes, shown)
    }

    /// Appends what each match of a line is replaced by, after the prefix and in the frame, with the offset of the
    /// match.
    pub fn push_replacements(
        &mut self,
        alloc: Global,
        replacements: &[Replacement],
        prefix: &[u8],
        frame: &Frame,
        line: &[u8],
        shown: &mut Vec<u8>,
    ) -> Result<()>
        ensures same { (self.new.pattern ≡ self.old.pattern)
            × (self.new.groups.programs ≡ self.old.groups.programs) }
        ensures shown { OnOk result ((case_insensitive : Bool) (res : List Re)
            → IsRegexOf (bytewise case_insensitive) res self.old.pattern.regex
            → FindAllGroups self.old.groups.programs.list.items res → shown.new.items
            ≡ shown.old.items ++ replacements_shown (expansion replacements.now res line.now) prefix.now frame.now
            (left_any false res line.now None)) }
    {
        matches_are_preferred();
        let mut last = None;
        let mut misses = Misses::none();
        'matches: while let Some(found) = self
            .pattern
            .next_match(&mut self.caches, line, last, &mut misses)?
        {
            self.bytes.clear();
            self.groups
                .push_expansion(replacements, line, &found, &mut self.bytes)?;
            push_after(alloc, prefix, frame, found.start(), &self.bytes, shown)?;
            last = Some(found.end());
        }
        Ok(())
    }

    /// Returns how the caches were used.
    pub fn usage(&self) -> Usage {
        let (ends, starts) = self.caches.as_parts();
        Usage::of(ends).and(Usage::of(starts))
    }
}
