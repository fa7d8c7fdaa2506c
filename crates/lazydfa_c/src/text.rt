//! Regexes built from the texts of patterns.
ghost use Rattle.std.specs.Prelude.{◌≡◌, ◌↔◌, [], IfErr, IfOk, IsTrue, None, false, length, map, string_bytes, sum};
ghost use Rattle.automata_config.specs.Options.{overwritten, unset};
ghost use Rattle.patterns.specs.Patterns.{IsNfaOf, config_of};
ghost use Rattle.lazydfa_c.specs.Builds.{OpensRegex};
ghost use Rattle.lazydfa_c.specs.Limits.{admits};
ghost use Rattle.lazydfa_c.specs.Programs.{HasPrograms, HasProgramsFor};
ghost use Rattle.lazydfa_c.specs.Statuses.{fault_status};
ghost use Rattle.lazydfa_c.specs.Texts.{BuildsAnyOf, BuildsTexts, HasFirstFault, IsCutError, IsLook, IsNfaFor, IsPatternFor};
ghost use Rattle.lazydfa_c.specs.Texts.{LacksNfaFor, reading_for, settings_for};
ghost use Rattle.lazydfa_c.specs.Texts.{IsRegexErrorStatus, IsRegexFor};
ghost use Rattle.lazydfa_c.specs.Texts.{IsReportOfAll, LacksNfa, OpensTexts, OpensWithin, WritesMessage};
ghost use Rattle.lazydfa_c.specs.Texts.{nest_limit_of, none_refused};
ghost use Rattle.lazydfa_c.specs.Texts.{reading_of, refusal_at, refusal_of, size_limit_of, texts_in};

use crate::code::Code;
use crate::explain::{not_built, too_many};
use crate::forward::forward_of;
use crate::handle::Handle;
use crate::limits::class_escapes;
use crate::output::write_over;
use crate::regex::{open, regex_of};
use crate::settings::Settings;
use crate::status::Status;
use meta::Programs;
use patterns::{Fault, Options, Pattern, PatternError, nfa_of};
use regex_automata::hybrid::dfa::Config;
use regex_automata::hybrid::regex::Regex;
use regex_automata::nfa::thompson::{BuildError as NfaBuildError, NFA};
use std::alloc::{AllocError, Global};

/// How patterns are parsed, as C lays it out. The default options are all zeros. A limit is used only if its `has` is
/// not 0; the limits on size and on text are in bytes. A limit on nesting of 0 is the default limit.
#[repr(C)]
#[derive(Clone, Copy)]
pub struct TextOptions {
    pub size_limit: usize,
    /// The greatest total length of all texts.
    pub text_limit: usize,
    /// The greatest number of class escapes, such as `\w` or `\pL`, in all texts together.
    pub class_limit: usize,
    pub has_size_limit: u32,
    pub has_text_limit: u32,
    pub has_class_limit: u32,
    pub nest_limit: u32,
    /// Whether the flag `u`, which is on by default, is off.
    pub no_unicode: u32,
    pub case_insensitive: u32,
    pub multi_line: u32,
    pub dot_matches_new_line: u32,
    pub crlf: u32,
    pub swap_greed: u32,
    pub ignore_whitespace: u32,
    pub octal: u32,
    /// Whether matches may be any bytes. Otherwise they are UTF-8, and no match splits a character.
    pub bytes: u32,
    /// Whether the regex is built without the part that finds the starts of matches.
    pub forward_only: u32,
    /// Whether the regex has the programs that find the groups of matches.
    pub groups: u32,
}

/// The number of the pattern that has an error, the span of its text that the error is about, and the length of the
/// whole message, all lengths and offsets in bytes.
#[repr(C)]
#[derive(Clone, Copy)]
pub struct Refusal {
    pub pattern: usize,
    pub start: usize,
    pub end: usize,
    pub length: usize,
}

impl Refusal {
    /// The value that is written if no text has an error.
    fn none() -> Refusal
        ensures { result ≡ none_refused }
    {
        Refusal::at(0, 0)
    }

    /// The value that is written for a text that is UTF-8 only up to this offset.
    fn at(number: usize, offset: usize) -> Refusal
        ensures { result ≡ refusal_at number offset }
    {
        Refusal {
            pattern: number,
            start: offset,
            end: offset,
            length: 0,
        }
    }

    /// The value that is written for an error whose message has this length.
    fn of(error: &PatternError, length: usize) -> Refusal
        ensures { result ≡ refusal_of error.now length }
    {
        let pattern = error.number;
        match error.fault {
            Fault::Syntax(error) => Refusal {
                pattern,
                start: error.span.start,
                end: error.span.end,
                length,
            },
            _ => Refusal {
                pattern,
                start: 0,
                end: 0,
                length,
            },
        }
    }
}

/// What is reported of the texts: which one has an error, and the whole message.
struct Report {
    refusal: Refusal,
    message: String,
}

// With its own `drop`, the proof of an owner has one step for it instead of one for each part.
impl Drop for Report {
    fn drop(self) {
        let Self {
            refusal: _refusal,
            message: _message,
        } = self;
    }
}

impl Report {
    /// Returns a report that no text has an error.
    fn none(alloc: Global) -> Report
        ensures refusal { result.refusal ≡ none_refused }
        ensures message { string_bytes result.message ≡ [] }
    {
        Report {
            refusal: Refusal::none(),
            message: String::new(alloc),
        }
    }

    /// Returns the report of an error that is about all texts. Without memory for the message, it is empty.
    fn of_all(alloc: Global, message: Result<String, AllocError>) -> Report
        ensures { IsReportOfAll result }
    {
        let message = match message {
            Ok(message) => message,
            Err(_) => String::new(alloc),
        };
        let refusal = Refusal {
            pattern: 0,
            start: 0,
            end: 0,
            length: message.len(),
        };
        Report { refusal, message }
    }

    /// Returns the report of an error in one of these texts, which were read with these options. Without memory for the
    /// message, it is empty.
    fn of(alloc: Global, error: &PatternError, texts: &[&str], options: &Options) -> Report
        ensures { result.refusal ≡ refusal_of error.now (length (string_bytes result.message)) }
    {
        let text = match texts.get(error.number) {
            Some(text) => *text,
            None => "",
        };
        let message = match error.show(alloc, text, options) {
            Ok(message) => message,
            Err(_) => String::new(alloc),
        };
        let refusal = Refusal::of(error, message.len());
        Report { refusal, message }
    }
}

impl TextOptions {
    /// Returns how many bytes the tables of all patterns may take, beside 24 for each pattern.
    fn size_limit(&self) -> usize
        ensures { result ≡ size_limit_of self.now }
    {
        if self.has_size_limit != 0 {
            self.size_limit
        } else {
            10485760
        }
    }

    /// Returns how deep a pattern may nest. The default needs no more stack than a small thread has.
    fn nest_limit(&self) -> u32
        ensures { result ≡ nest_limit_of self.now }
    {
        if self.nest_limit != 0 {
            self.nest_limit
        } else {
            32
        }
    }

    /// Whether concatenated texts are within the limits on text and on class escapes.
    pub fn admits(&self, texts: &[u8]) -> bool
        ensures { result ≡ admits self.now texts.now }
    {
        (self.has_text_limit == 0 || texts.len() <= self.text_limit)
            && (self.has_class_limit == 0 || class_escapes(texts) <= self.class_limit)
    }

    /// Formats which limit concatenated texts exceed, if they are not admitted.
    fn exceeded(&self, alloc: Global, texts: &[u8]) -> Result<String, AllocError> {
        let length = texts.len();
        if self.has_text_limit != 0 && length > self.text_limit {
            too_many(alloc, length, "bytes", self.text_limit, "text_limit")
        } else {
            let count = class_escapes(texts);
            too_many(
                alloc,
                count,
                "class escapes",
                self.class_limit,
                "class_limit",
            )
        }
    }

    /// Returns the options for parsing patterns. A Unicode word boundary is allowed if the settings allow it.
    pub(crate) fn options(&self, settings: &Settings) -> Options
        ensures { result ≡ reading_of self.now settings.now }
    {
        let size_limit = self.size_limit();
        let nest_limit = self.nest_limit();
        Options {
            unicode: self.no_unicode == 0,
            case_insensitive: self.case_insensitive != 0,
            multi_line: self.multi_line != 0,
            dot_matches_new_line: self.dot_matches_new_line != 0,
            crlf: self.crlf != 0,
            swap_greed: self.swap_greed != 0,
            ignore_whitespace: self.ignore_whitespace != 0,
            octal: self.octal != 0,
            utf8: self.bytes == 0,
            ascii: settings.unicode_word_boundary != 0,
            size_limit,
            nest_limit,
            cache_capacity: settings.capacity(),
            cache_limit: settings.limit(),
        }
    }
}

/// Returns the status of an error in a pattern. For a syntax error, its offset is where the erroneous part of the text
/// begins.
pub(crate) fn status_of(error: &PatternError) -> Status
    ensures { result ≡ fault_status error.now.fault }
{
    match error.fault {
        Fault::Syntax(error) => Status::at(Code::Syntax, error.span.start),
        Fault::UnicodeWord => Status::from(Code::Unsupported),
        Fault::TooLarge => Status::from(Code::TooLarge),
        Fault::Malformed => Status::from(Code::NotCompiled),
        Fault::Refused(error) => Status::from(NfaBuildError::NFA(error)),
        Fault::Unbuilt(error) => Status::from(error),
        Fault::OutOfMemory => Status::from(Code::Memory),
    }
}

/// Splits concatenated texts by their lengths in bytes. It fails with `Code::Argument` if the lengths do not add up to
/// the length of the whole, and with `Code::NotText` and an offset in the text if a text is not UTF-8, of which the
/// refusal is then written.
fn cut<'t>(
    alloc: Global,
    texts: &'t [u8],
    lengths: &[usize],
    refusal: &mut Refusal,
) -> Result<Vec<&'t str>, Status>
    ensures parts { IfOk result (λ parts. map (λ text. text.now) parts.items ≡ texts_in texts.now lengths.now) }
    ensures whole { IfOk result (λ _. sum lengths.now ≡ length texts.now) }
    ensures kept { IfOk result (λ _. refusal.new ≡ refusal.old) }
    ensures err { IfErr result (IsCutError texts.now lengths.now refusal.old refusal.new) }
{
    let mut parts = Vec::new(alloc);
    let mut rest = texts;
    for length in lengths {
        let Some((part, more)) = rest.split_at_checked(*length) else {
            return Err(Status::from(Code::Argument));
        };
        match str::from_utf8(part) {
            Ok(text) => parts.push(text)?,
            Err(error) => {
                let offset = error.valid_up_to();
                *refusal = Refusal::at(parts.len(), offset);
                return Err(Status::at(Code::NotText, offset));
            }
        }
        rest = more;
    }
    if !rest.is_empty() {
        return Err(Status::from(Code::Argument));
    }
    Ok(parts)
}

/// Writes as many whole characters of a message as there is room for, followed by a zero.
pub(crate) fn write_message(message: &str, out: &mut [u8])
    ensures { WritesMessage message.now out.old out.new }
{
    if out.is_empty() {
        return;
    }
    let end = message.floor_char_boundary(out.len() - 1);
    write_over(&message.as_bytes()[..end], out);
    out[end] = 0;
}

/// Returns the options for these texts: if some text has a Unicode word boundary, those for ASCII haystacks.
fn for_words(options: &Options, words: bool) -> Options
    ensures { result ≡ reading_for words options.now }
{
    if words {
        Options {
            ascii: true,
            ..*options
        }
    } else {
        *options
    }
}

/// Returns the configuration for these texts: if some text has a Unicode word boundary, one that allows it.
fn config_for(config: Config, words: bool) -> Config
    ensures { overwritten unset result ≡ settings_for words (overwritten unset config) }
{
    if words {
        config.unicode_word_boundary(true)
    } else {
        config
    }
}

/// Whether a fault is only that the lazy DFAs do not support a look.
fn is_look(fault: &Fault) -> bool
    ensures { IsTrue result ↔ IsLook fault.now }
{
    matches!(fault, Fault::UnicodeWord | Fault::Malformed)
}

/// Builds the NFA of texts. If some of them has a Unicode word boundary, and the options do not allow that, it is the NFA
/// for ASCII haystacks; the flag says whether it is.
fn nfa_for(alloc: Global, texts: &[&str], options: &Options) -> Result<(NFA, bool), PatternError>
    ensures meant { IfOk result (λ made.
        IsNfaFor options.now (map (λ text. text.now) texts.now) made.1 made.0) }
    ensures refused { IfErr result (LacksNfaFor options.now (map (λ text. text.now) texts.now)) }
{
    match nfa_of(alloc, texts, options) {
        Ok(nfa) => Ok((nfa, false)),
        Err(error) if is_look(&error.fault) => {
            match nfa_of(alloc, texts, &for_words(options, true)) {
                Ok(nfa) => Ok((nfa, true)),
                Err(error) => Err(error),
            }
        }
        Err(error) => Err(error),
    }
}

/// Compiles the programs of texts, if groups are asked for or some text has a Unicode word boundary. If it fails, it
/// reports which text has an error. As `open_nfa`, it is not inlined.
#[inline(never)]
fn programs_for(
    alloc: Global,
    texts: &[&str],
    options: &Options,
    groups: u32,
    words: bool,
    report: &mut Report,
) -> Result<Option<Programs>, Status>
    ensures made { IfOk result
        (HasProgramsFor groups words (config_of options.now) (map (λ text. text.now) texts.now)) }
    ensures kept { IfOk result (λ _. report.new ≡ report.old) }
    ensures err { IfErr result (HasFirstFault options.now (map (λ text. text.now) texts.now) report.new) }
{
    if groups == 0 && !words {
        return Ok(None);
    }
    match Programs::new(alloc, texts, options) {
        Ok(programs) => Ok(Some(programs)),
        Err(error) => {
            *report = Report::of(alloc, &error, texts, options);
            Err(status_of(&error))
        }
    }
}

/// Splits concatenated texts, and builds the NFA of their patterns, and their programs if groups are asked for or some
/// text has a Unicode word boundary; the flag says whether one has. If it fails, it reports which text has an error.
fn compile_texts<'t>(
    alloc: Global,
    texts: &'t [u8],
    lengths: &[usize],
    options: &Options,
    groups: u32,
    report: &mut Report,
) -> Result<(Vec<&'t str>, NFA, Option<Programs>, bool), Status>
    ensures whole { IfOk result (λ _. sum lengths.now ≡ length texts.now) }
    ensures parts { IfOk result (λ r. map (λ text. text.now) r.0.items ≡ texts_in texts.now lengths.now) }
    ensures meant { IfOk result (λ r. IsNfaFor options.now (texts_in texts.now lengths.now) r.3 r.1) }
    ensures programs { IfOk result (λ r.
        HasProgramsFor groups r.3 (config_of options.now) (texts_in texts.now lengths.now) r.2) }
    ensures kept { IfOk result (λ _. report.new ≡ report.old) }
    ensures err { IfErr result (LacksNfa options.now texts.now lengths.now report.old report.new) }
{
    let parts = cut(alloc, texts, lengths, &mut report.refusal)?;
    match nfa_for(alloc, parts.as_slice(), options) {
        Ok((nfa, words)) => {
            match programs_for(alloc, parts.as_slice(), options, groups, words, report) {
                Ok(programs) => Ok((parts, nfa, programs, words)),
                Err(status) => Err(status),
            }
        }
        Err(error) => {
            *report = Report::of(alloc, &error, parts.as_slice(), options);
            Err(status_of(&error))
        }
    }
}

/// Builds the regex of an NFA, or one that only searches forward.
fn regex_for(alloc: Global, nfa: NFA, config: Config, forward_only: u32) -> Result<Regex, Status>
    ensures built { IfOk result (IsRegexFor forward_only (overwritten unset config) nfa) }
    ensures refused { IfErr result (IsRegexErrorStatus forward_only (overwritten unset config) nfa) }
{
    if forward_only == 0 {
        regex_of(nfa, config)
    } else {
        forward_of(alloc, nfa, config)
    }
}

/// Lets searches of a regex of texts begin at needles of these texts if there are any, and lets its iterations attempt
/// to find matches at once unless it only searches forward.
fn pattern_for(
    alloc: Global,
    regex: Regex,
    texts: &[&str],
    options: &Options,
    forward_only: u32,
) -> Pattern
    requires { IsNfaOf options.now (map (λ text. text.now) texts.now) regex.forward.nfa }
    ensures regex { result.regex ≡ regex }
    ensures waits { (forward_only ≡ 0 → ⊥) → result.attempts ≡ false }
{
    let mut pattern = Pattern::from_regex(regex);
    pattern.begin_at_needles(alloc, texts, options);
    if forward_only == 0 {
        pattern.try_first_bytes();
    }
    pattern
}

/// Opens a handle on the regex of the NFA of texts, with these programs. Its searches begin at needles of these texts if
/// there are any.
///
/// It is not inlined: its frame is large, and would be on the stack while texts are parsed.
#[inline(never)]
fn open_nfa(
    alloc: Global,
    regex: &mut Handle,
    texts: &[&str],
    options: &Options,
    nfa: NFA,
    programs: Option<Programs>,
    words: bool,
    config: Config,
    forward_only: u32,
) -> Result<(), Status>
    requires closed { regex.now.slot.value ≡ None }
    requires meant { IsNfaOf options.now (map (λ text. text.now) texts.now) nfa }
    ensures { OpensRegex (HasPrograms programs words (IsPatternFor forward_only (overwritten unset config) nfa))
        (IsRegexErrorStatus forward_only (overwritten unset config) nfa) regex.old regex.new result }
{
    match regex_for(alloc, nfa, config, forward_only) {
        Ok(built) => {
            let pattern = pattern_for(alloc, built, texts, options, forward_only);
            open(alloc, regex, pattern, programs, words)
        }
        Err(status) => Err(status),
    }
}

/// Opens a handle on the regex of the texts of patterns, with this configuration. After an error the handle is
/// unchanged.
fn open_texts(
    alloc: Global,
    regex: &mut Handle,
    texts: &[u8],
    lengths: &[usize],
    options: &TextOptions,
    settings: &Settings,
    config: Config,
    report: &mut Report,
) -> Result<(), Status>
    requires { regex.now.slot.value ≡ None }
    ensures { OpensTexts (overwritten unset config) options.now settings.now texts.now lengths.now
        regex.old regex.new report.old report.new result }
{
    let reading = options.options(settings);
    let read = compile_texts(alloc, texts, lengths, &reading, options.groups, report)?;
    let (parts, nfa, programs, words) = read;
    match open_nfa(
        alloc,
        regex,
        parts.as_slice(),
        &for_words(&reading, words),
        nfa,
        programs,
        words,
        config_for(config, words),
        options.forward_only,
    ) {
        Ok(()) => Ok(()),
        Err(status) => {
            *report = Report::of_all(alloc, not_built(alloc, status, settings));
            Err(status)
        }
    }
}

/// Opens a handle on the regex of the texts of patterns, if they are within the limits. Otherwise it fails with
/// `Code::TooLarge`, and nothing is parsed.
fn open_within(
    alloc: Global,
    regex: &mut Handle,
    texts: &[u8],
    lengths: &[usize],
    options: &TextOptions,
    settings: &Settings,
    config: Config,
    report: &mut Report,
) -> Result<(), Status>
    requires { regex.now.slot.value ≡ None }
    ensures { OpensWithin (overwritten unset config) options.now settings.now texts.now lengths.now
        regex.old regex.new report.old report.new result }
{
    if !options.admits(texts) {
        *report = Report::of_all(alloc, options.exceeded(alloc, texts));
        return Err(Status::from(Code::TooLarge));
    }
    open_texts(
        alloc, regex, texts, lengths, options, settings, config, report,
    )
}

/// Opens a handle on the regex of the texts of patterns. It fails with `Code::Open` if the handle is already open, and
/// with `Code::Argument` if the match kind is not valid.
fn build_texts(
    alloc: Global,
    regex: &mut Handle,
    texts: &[u8],
    lengths: &[usize],
    options: &TextOptions,
    settings: &Settings,
    quits: &[u8],
    report: &mut Report,
) -> Result<(), Status>
    ensures { BuildsTexts settings.now quits.now options.now texts.now lengths.now regex.old regex.new
        report.old report.new result }
{
    if regex.is_open() {
        return Err(Status::from(Code::Open));
    }
    let config = settings.config(quits)?;
    open_within(
        alloc, regex, texts, lengths, options, settings, config, report,
    )
}

/// Opens a handle on the regex of the concatenated texts of patterns. If one has an error, the error is written.
#[unsafe(no_mangle)]
pub extern "C" fn lazydfa_raw_regex_any_of(
    alloc: Global,
    regex: &mut Handle,
    texts: &[u8],
    lengths: &[usize],
    options: &TextOptions,
    settings: &Settings,
    quits: &[u8],
    refusal: &mut Refusal,
    message: &mut [u8],
) -> Status
    ensures { BuildsAnyOf settings.now quits.now options.now texts.now lengths.now regex.old regex.new
        refusal.new message.old message.new result }
{
    let mut report = Report::none(alloc);
    let done = build_texts(
        alloc,
        regex,
        texts,
        lengths,
        options,
        settings,
        quits,
        &mut report,
    );
    *refusal = report.refusal;
    write_message(report.message.as_str(), message);
    Status::of(done)
}
