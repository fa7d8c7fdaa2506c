//! The NFA of several patterns.
ghost use Rattle.std.specs.Prelude.{◌≡◌, ◌+◌, ◌-◌, ◌^◌, ◌<◌, ◌≤◌, List, [], ◌∷◌, ◌++◌, IfErr, IfOk, OnOk, length};
ghost use Rattle.std.specs.Prelude.{false, map, min, option_map, string_bytes, vec_len};
ghost use Rattle.meaning.specs.Agreeing.{HasNoUnicodeLook};
ghost use Rattle.automata_base.specs.Nfas.Engines.{any_byte};
ghost use Rattle.automata_base.specs.Nfas.Nfa.{Split};
ghost use Rattle.automata_base.specs.Nfas.Nodes as nodes;
ghost use Rattle.regex_nfa.specs.Sizes as sizes;
ghost use Rattle.regex_nfa.specs.declared.nfa.Nfa as kit_nfa;
ghost use Rattle.regex_syntax.specs.Verdict.{Reads};
ghost use Rattle.regex_syntax.specs.WellFormed.{IsWellFormed};
ghost use Rattle.patterns.specs.Drafts.{Grows, IsCompiled, IsDraftOf, IsMergedWithin, IsSimplified, JoinsDraft};
ghost use Rattle.patterns.specs.Faults.{CannotJoin, IsAddFault, IsFaultOf, IsFirstFault, IsLookFault, IsNfaFault};
ghost use Rattle.patterns.specs.Faults.{LacksRoom};
ghost use Rattle.patterns.specs.Patterns.{BeginsAnchoredIfItMay, HasNoLookCycle, IsNfaOf, IsWithinLimit, config_of};

use crate::error::{Fault, PatternError};
use crate::escapes::has_boundary_escape;
use crate::translate::{Origin, has_unicode_look, id_of, push_states, shifted};
use regex_automata::hybrid::dfa::Config as DfaConfig;
use regex_automata::nfa::thompson::{Flags, NFA, State, anchored, flattened, merged};
use regex_automata::util::primitives::{PatternID, StateID};
use regex_nfa::Nfa;
use regex_syntax::{Config, Flags as SyntaxFlags, Parsed};
use std::alloc::{AllocError, Global};
use std::mem;

/// The bytes that a state counts toward the size limit.
const STATE_BYTES: usize = 12;

/// How patterns are parsed, and how large they may become. The flags are those of Rust's `RegexBuilder` with the same
/// names; a pattern can set a flag for a part of itself with `(?flags)`.
#[derive(Clone, Copy, Debug)]
pub struct Options {
    /// The flag `u`: whether classes such as `\w` and `.` match characters, with Unicode case folding. Otherwise they
    /// match bytes, with ASCII case folding.
    pub unicode: bool,
    /// The flag `i`: whether a letter matches in both cases.
    pub case_insensitive: bool,
    /// The flag `m`: whether `^` and `$` match at the start and end of each line, not only of the haystack.
    pub multi_line: bool,
    /// The flag `s`: whether `.` matches a line feed.
    pub dot_matches_new_line: bool,
    /// The flag `R`: whether lines end in a carriage return, a line feed or both, for `^`, `$` and `.`.
    pub crlf: bool,
    /// The flag `U`: whether `a*` prefers fewer repetitions, and `a*?` more.
    pub swap_greed: bool,
    /// The flag `x`: whether whitespace in the pattern, and comments after `#`, are skipped.
    pub ignore_whitespace: bool,
    /// Whether a backslash and digits, such as `\141`, are an octal escape for a character.
    pub octal: bool,
    /// Whether text is searched, so that no match splits a character. Otherwise bytes are searched.
    pub utf8: bool,
    /// Whether the text is ASCII. Then a pattern may contain a Unicode word boundary; over other text a search for it
    /// may fail, and what it finds is not promised. Otherwise such a pattern is an error.
    pub ascii: bool,
    /// How many bytes the tables of all patterns may take, beside 24 for each pattern.
    pub size_limit: usize,
    /// How deep groups, repetitions and classes may nest. The parser recurses as deep, so a higher limit needs a larger
    /// stack.
    pub nest_limit: u32,
    /// How many bytes each cache may account for. A regex has two, one for each direction, and a set has one.
    pub cache_capacity: usize,
    /// The bytes up to which the capacity of a cache is raised for large patterns, to four times the least capacity
    /// that they need. Patterns that need more than this limit and than `cache_capacity` are an error.
    pub cache_limit: usize,
}

impl Default for Options {
    ghost use Rattle.patterns.specs.Patterns.{default_options};

    ghost is_default = { λ o. o ≡ default_options };

    fn default() -> Options {
        Options {
            unicode: true,
            case_insensitive: false,
            multi_line: false,
            dot_matches_new_line: false,
            crlf: false,
            swap_greed: false,
            ignore_whitespace: false,
            octal: false,
            utf8: true,
            ascii: false,
            size_limit: 10 << 20,
            nest_limit: 250,
            cache_capacity: 8 << 20,
            cache_limit: 256 << 20,
        }
    }
}

impl Options {
    ghost use Rattle.std.specs.Prelude.{◌≡◌};
    ghost use Rattle.patterns.specs.Patterns.{dfa_settings};

    /// Returns the settings of a DFA that these options decide: `ascii`, `cache_capacity` and `cache_limit`. Set others
    /// for `Pattern::from_nfa_with`:
    ///
    /// ```rust
    /// let config = options.dfa_config().minimum_cache_clear_count(Some(8));
    /// let pattern = Pattern::from_nfa_with(nfa, &options, config)?;
    /// ```
    pub fn dfa_config(&self) -> DfaConfig
        ensures { result ≡ dfa_settings self.now }
    {
        DfaConfig::new()
            .unicode_word_boundary(self.ascii)
            .cache_capacity(self.cache_capacity)
            .cache_limit(self.cache_limit)
    }
}

/// The states of the patterns so far, one pattern after another, and the start of each.
struct Draft {
    states: Vec<State>,
    starts: Vec<StateID>,
    room: usize,
}

// With its own `drop`, the proof of an owner has one step for it instead of one for each part.
impl Drop for Draft {
    fn drop(self) {
        let Self {
            states: _states,
            starts: _starts,
            room: _room,
        } = self;
    }
}

/// Converts the options to the parser's configuration.
fn config_of(options: &Options) -> Config
    ensures { result ≡ config_of options.now }
{
    Config {
        flags: SyntaxFlags {
            case_insensitive: options.case_insensitive,
            multi_line: options.multi_line,
            dot_matches_new_line: options.dot_matches_new_line,
            swap_greed: options.swap_greed,
            unicode: options.unicode,
            crlf: options.crlf,
            ignore_whitespace: options.ignore_whitespace,
        },
        octal: options.octal,
        utf8: options.utf8,
        nest_limit: options.nest_limit,
    }
}

/// Parses a text with the options.
pub fn parse(alloc: Global, text: &str, options: &Options) -> Result<Parsed, Fault>
    ensures read { IfOk result (λ p.
        Reads (config_of options.now) text.now p.hir (map (option_map string_bytes) p.names.items)) }
    ensures formed { IfOk result (λ p. IsWellFormed options.now.utf8 p.hir) }
    ensures groups { IfOk result (λ p. 0 < vec_len p.names) }
    ensures refused { IfErr result (IsFaultOf options.now text.now) }
{
    let config = config_of(options);
    match regex_syntax::parse(alloc, text, &config) {
        Ok(parsed) => Ok(parsed),
        Err(error) if error.kind == regex_syntax::ErrorKind::OutOfMemory => Err(Fault::OutOfMemory),
        Err(error) => Err(Fault::Syntax(error)),
    }
}

/// Compiles a pattern to the kit's NFA. Its tables take at most 24 bytes more than `room`.
fn compile(alloc: Global, text: &str, options: &Options, room: usize) -> Result<Nfa, Fault>
    ensures compiled { IfOk result (IsCompiled (config_of options.now) text.now) }
    ensures small { IfOk result (λ nfa. sizes.table_bytes nfa ≤ room + 24) }
    ensures refused { IfErr result (IsFaultOf options.now text.now) }
{
    let parsed = parse(alloc, text, options)?;
    let Ok(groups) = u32::try_from(parsed.names.len()) else {
        return Err(Fault::TooLarge);
    };
    match regex_compile::compile(alloc, &parsed.hir, groups, room) {
        Ok(nfa) => Ok(nfa),
        Err(error) => Err(Fault::from(error)),
    }
}

/// Tests that the pattern has no Unicode word boundary, unless the haystack is ASCII.
fn test_looks(text: &str, nfa: &Nfa, ascii: bool) -> Result<(), Fault>
    ensures passed { OnOk result (ascii ≡ false → HasNoUnicodeLook nfa.now) }
    ensures refused { IfErr result (IsLookFault ascii text.now nfa.now) }
{
    if ascii || !has_unicode_look(nfa) {
        return Ok(());
    }
    if has_boundary_escape(text) {
        Err(Fault::UnicodeWord)
    } else {
        Err(Fault::Malformed)
    }
}

/// Returns the number of bytes that the tables of an NFA take.
fn table_bytes(nfa: &Nfa) -> usize
    ensures { result ≡ min (sizes.table_bytes nfa.now) (2 ^ 64 - 1) }
{
    let states = nfa.states.len().saturating_mul(STATE_BYTES);
    let transitions = nfa.transitions.len().saturating_mul(8);
    states.saturating_add(transitions)
}

impl Draft {
    /// Returns a draft without patterns.
    fn new(alloc: Global, room: usize) -> Draft
        ensures states { result.states.items ≡ [] }
        ensures starts { result.starts.items ≡ [] }
        ensures room { result.room ≡ room }
    {
        Draft {
            states: Vec::new(alloc),
            starts: Vec::new(alloc),
            room,
        }
    }

    /// Adds the patterns of texts. It fails at the first text that is not a valid pattern, or that makes the patterns
    /// too large.
    fn read(&mut self, alloc: Global, texts: &[&str], options: &Options) -> Result<(), PatternError>
        requires states { self.old.states.items ≡ [] }
        requires starts { self.old.starts.items ≡ [] }
        requires room { self.old.room ≡ options.now.size_limit }
        ensures read { OnOk result (IsDraftOf options.now (map (λ text. text.now) texts.now) self.new) }
        ensures refused { IfErr result (IsFirstFault options.now (map (λ text. text.now) texts.now)) }
    {
        for text in texts {
            let number = self.starts.len();
            match self.read_one(alloc, text, options) {
                Ok(()) => {}
                Err(fault) => return Err(PatternError { number, fault }),
            }
        }
        Ok(())
    }

    /// Adds the pattern of a text.
    fn read_one(&mut self, alloc: Global, text: &str, options: &Options) -> Result<(), Fault>
        ensures read { OnOk result ((k : kit_nfa.Nfa) × IsCompiled (config_of options.now) text.now k
            × (sizes.table_bytes k ≤ self.old.room + 24) × Grows options.now.ascii self.old k self.new) }
        ensures refused { IfErr result (IsFaultOf options.now text.now) }
    {
        let nfa = compile(alloc, text, options, self.room)?;
        self.add(alloc, text, &nfa, options.ascii)
    }

    /// Adds the states of a pattern after those of the previous patterns.
    fn add(&mut self, alloc: Global, text: &str, nfa: &Nfa, ascii: bool) -> Result<(), Fault>
        ensures grows { OnOk result (Grows ascii self.old nfa.now self.new) }
        ensures refused { IfErr result (IsAddFault ascii text.now self.old nfa.now) }
    {
        test_looks(text, nfa, ascii)?;
        let Some(pattern) = PatternID::new(self.starts.len()) else {
            return Err(Fault::TooLarge);
        };
        let base = self.states.len();
        let origin = Origin { base, pattern };
        let start = shifted(&origin, nfa.start)?;
        push_states(alloc, nfa, &origin, &mut self.states)?;
        self.starts.push(start)?;
        self.room = self.room.saturating_sub(table_bytes(nfa));
        Ok(())
    }

    /// Adds a union of all starts, and a lazy loop that skips bytes and leads to it. Returns the first state of the
    /// loop.
    fn join(&mut self, alloc: Global) -> Result<StateID, Fault>
        ensures nodes { OnOk result (nodes.nodes_of self.new.states.items ≡ nodes.nodes_of self.old.states.items
            ++ Split self.old.starts.items
            ∷ Split (length self.old.states.items ∷ (length self.old.states.items + 2) ∷ [])
            ∷ any_byte (length self.old.states.items + 1) ∷ []) }
        ensures starts { OnOk result (self.new.starts ≡ self.old.starts) }
        ensures start { IfOk result (λ id. id ≡ length self.old.states.items + 1) }
        ensures refused { IfErr result (LacksRoom (length self.old.states.items + 2)) }
    {
        let union = id_of(self.states.len())?;
        let next = id_of(self.states.len() + 1)?;
        let skip = id_of(self.states.len() + 2)?;
        let alternates = Vec::from_slice(alloc, self.starts.as_slice())?;
        self.states.push(State::Union { alternates })?;
        let (alt1, alt2) = (union, skip);
        self.states.push(State::BinaryUnion { alt1, alt2 })?;
        let (lo, hi) = (0, 255);
        self.states.push(State::ByteRange { lo, hi, next })?;
        Ok(next)
    }

    /// Builds the NFA of all patterns. It takes the states from the draft.
    fn finish(&mut self, alloc: Global, utf8: bool) -> Result<NFA, Fault>
        ensures joined { IfOk result (JoinsDraft utf8 self.old) }
        ensures refused { IfErr result (CannotJoin self.old) }
    {
        let start = id_of(self.states.len())?;
        let unanchored = self.join(alloc)?;
        let flags = Flags {
            utf8,
            reverse: false,
            line_terminator: b'\n',
        };
        let states = mem::replace(&mut self.states, Vec::new(alloc));
        let starts = mem::replace(&mut self.starts, Vec::new(alloc));
        match NFA::from_states(alloc, states, start, unanchored, starts, flags) {
            Ok(nfa) => Ok(nfa),
            Err(error) => Err(Fault::from(error)),
        }
    }

    /// Builds the NFA of all patterns, and simplifies it.
    fn finish_simplified(&mut self, alloc: Global, options: &Options) -> Result<NFA, Fault>
        ensures simplified { IfOk result (λ nfa. (joined : nodes.Automaton)
            × JoinsDraft options.now.utf8 self.old joined × IsSimplified options.now.size_limit joined nfa) }
        ensures refused { IfErr result (CannotJoin self.old) }
    {
        let nfa = self.finish(alloc, options.utf8)?;
        match simplified(nfa, options.size_limit) {
            Ok(simplified) => Ok(simplified),
            Err(error) => Err(Fault::from(error)),
        }
    }
}

/// Returns the NFA with its wide unions merged, if its states then take no more bytes than the limit; otherwise it
/// returns the NFA unchanged.
fn merged_within(nfa: NFA, limit: usize) -> Result<NFA, AllocError>
    ensures { IfOk result (IsMergedWithin limit nfa) }
{
    let _states = nfa.states();
    match merged(&nfa) {
        Ok(merged) if merged.states().len() <= limit / STATE_BYTES => Ok(merged),
        Ok(_) => Ok(nfa),
        Err(error) => Err(error),
    }
}

/// Returns the NFA with its long chains of unions flattened, with its wide unions merged, if the limit leaves room for
/// that, and without its lazy loop, if its matches begin only at the start of a haystack.
fn simplified(nfa: NFA, limit: usize) -> Result<NFA, AllocError>
    ensures { IfOk result (IsSimplified limit nfa) }
{
    let flat = flattened(&nfa)?;
    let merged = merged_within(flat, limit)?;
    anchored(&merged)
}

/// Compiles patterns to one NFA, in which each pattern is numbered by its position in the list. It fails at the first
/// text that is not a valid pattern, or that makes the patterns too large.
///
/// After the states of the patterns come a union of their starts and a loop that skips bytes, even for one pattern. A
/// pattern of 32 alternatives or more gets one union of them (`flattened`). This union, and that of the starts of eight
/// patterns or more, is merged where `merged` does so, if the size limit leaves room for 12 bytes per state: states
/// that read bytes for several patterns at once come after the loop. No cycle of epsilon transitions passes a
/// look-around assertion, whatever the patterns.
///
/// If all matches begin at the start of the haystack, as those of `^abc` do without the flag `m`, the loop is not used:
/// the union is the start of unanchored searches, too. So they end where no match can follow, and not at the end of the
/// haystack. This is decided by `anchored`: the NFA has `Look::Start`, and each path from the union passes it before it
/// reads a byte or matches.
pub fn nfa_of(alloc: Global, texts: &[&str], options: &Options) -> Result<NFA, PatternError>
    ensures meant { IfOk result (IsNfaOf options.now (map (λ text. text.now) texts.now)) }
    ensures acyclic { IfOk result HasNoLookCycle }
    ensures anchored { IfOk result BeginsAnchoredIfItMay }
    ensures small { IfOk result (IsWithinLimit options.now (map (λ text. text.now) texts.now)) }
    ensures refused { IfErr result (IsNfaFault options.now (map (λ text. text.now) texts.now)) }
{
    let mut draft = Draft::new(alloc, options.size_limit);
    draft.read(alloc, texts, options)?;
    match draft.finish_simplified(alloc, options) {
        Ok(nfa) => Ok(nfa),
        Err(fault) => Err(PatternError { number: 0, fault }),
    }
}
