//! Prints the lines of files that a pattern matches, as `grep` does:
//!
//!     lgrep [FLAG].. PATTERN [FILE]..
//!     lgrep [FLAG].. -e PATTERN.. -f FILE.. [FILE]..
//!
//! PATTERN is given only if neither `-e` nor `-f` is. All patterns are searched at once. Without a FILE, or if it is
//! `-`, standard input is searched; if there is no FILE and standard input is a terminal, or with `-r`, the files below
//! the current directory are. The status is 0 if a line is taken, 1 if none is, and 2 after an error.
//!
//! # Flags
//!
//! About patterns:
//!
//!     -e PATTERN, --regexp=PATTERN    a pattern, or several ones with line feeds between them
//!     -f FILE, --file=FILE            a file with a pattern on each line
//!     -F, --fixed-strings             patterns are literal
//!     -E, --extended-regexp, -P, --perl-regexp
//!                                     patterns have the syntax below, as they do by default
//!     -i, -y, --ignore-case           ignores case; --no-ignore-case does not
//!     -w, --word-regexp               a match has no word character before it or after it
//!     -x, --line-regexp               a match is a whole line
//!
//! About lines:
//!
//!     -v, --invert-match              takes the lines without a match
//!     -m NUM, --max-count=NUM         takes at most NUM lines of each file
//!     -z, --null-data                 a line ends in a NUL, and not in a line feed
//!
//! About lines around those that are taken:
//!
//!     -A NUM, --after-context=NUM     prints NUM lines after each line that is taken
//!     -B NUM, --before-context=NUM    prints NUM lines before it
//!     -C NUM, -NUM, --context=NUM     prints NUM lines on each side without a flag of its own
//!
//! About what is printed:
//!
//!     -c, --count                     only the number of lines taken
//!     -l, --files-with-matches        only the names of files with such a line
//!     -L, --files-without-match       only the names of files without such a line
//!     -q, --quiet, --silent           nothing
//!     -o, --only-matching             only the matches of the lines
//!     --replace=TEXT                  TEXT in place of each match; with -o only that
//!     --which                         before each line, which patterns match it
//!     -n, --line-number               line numbers
//!     -b, --byte-offset               the offset of each line, or with -o of each match
//!     -T, --initial-tab               a tab before a line, after what precedes it
//!     -H, --with-filename             file names
//!     -h, --no-filename               no file names
//!     -Z, --null                      a NUL after each file name, instead of a colon or a line feed
//!     -s, --no-messages               no messages about files that cannot be read
//!     --color=WHEN                    WHEN is never or auto: there are no colors
//!     --stats                         at the end, to standard error, what was read and how the caches were used
//!     --help                          how the program is called
//!     -V, --version                   the version
//!
//! About files:
//!
//!     -r, -R, --recursive, --dereference-recursive
//!                                     the files below a directory are searched
//!     --include=GLOB                  only files whose names the glob matches are searched
//!     --exclude=GLOB                  files whose names the glob matches are not searched
//!     --exclude-dir=GLOB              the files below directories with such a name are not searched
//!     -a, --text                      a file with a NUL is searched as text
//!     -I                              a file with a NUL has no match
//!     --binary-files=TYPE             TYPE is text or without-match, as -a and -I, or binary, the default
//!     --cache=MIB                     the capacity of each cache in MiB, which is 64 by default
//!     -U, --binary, --line-buffered   no effect
//!
//! A value is the rest of its argument or the next argument: `-m3`, `-m 3`, `--max-count=3` and `--max-count 3` are the
//! same. Letters may share an argument, as in `-rni`. `--` ends the flags. The last of `-l` and `-L` counts, and so
//! does the last of `-F` and `-E`.
//!
//! # Patterns
//!
//! A pattern has the syntax of Rust's regex crate; an invalid pattern is shown with a caret below the error. A line is
//! a run of bytes up to a line feed. It need not be text: a byte that is not part of a character matches
//! `(?-u:[\x80-\xFF])`, but not `.`. Of the matches that begin at one place `-o` prints the one that the crate prefers,
//! such as the first of several alternatives, where GNU grep prints the longest. With `-w` word characters are the
//! ASCII letters, the digits and `_`: other letters do not count, and a match may begin or end beside them. The same
//! holds of `\b`, `\B`, `\<` and `\>`.
//!
//! With `--which` a line begins, after its file name and its number, with the numbers of all patterns that match
//! somewhere in it, in increasing order, separated by commas, and a colon. Patterns are numbered from 1 in the order in
//! which they are given, so that those of one `-f FILE` have the numbers of its lines: `2,17:the line`. `--which`
//! excludes `-o` and `-v`.
//!
//! # Replacements
//!
//! With `--replace` each match is replaced by a text, in which `$1` and `${1}` stand for what group 1 matched, `$name`
//! and `${name}` for what the group with that name matched, `$0` for the match and `$$` for `$`, as in Rust's regex
//! crate and in ripgrep. A name without braces is as long as possible: `$1a` is a group with the name `1a`. A group that
//! does not exist or took no part in the match is empty, and a `$` that begins no reference stands for itself. Groups
//! are numbered from 1 over all patterns, in the order in which these are given; a name is looked up in the pattern that
//! matched. Empty matches are replaced, too. Which lines are taken does not change, nor do their numbers, offsets and
//! the lines around them. `--replace` has no short form, and excludes `--which`.
//!
//! With `-o` only what replaces the matches is printed, each on a line of its own, even if it is empty, so that with
//! `-o --replace '$1'` group 1 of each match is printed. With `-b` the offset before it is that of the match.
//!
//! # Lines around
//!
//! A line that is not taken has `-` in place of the colons after its number and its offset, and so after its file name.
//! `--` on a line of its own stands between lines that do not follow each other, also if they are of two files. With
//! `-o` only these separators are printed, and with `-c`, `-l`, `-L`, `-q` and in a binary file nothing is. After as
//! many lines as `-m` allows, no line that follows the last of them is taken.
//!
//! With `-z` what is printed of a line ends in a NUL, `.` matches a line feed, `^` and `$` match only at the ends of a
//! line, and no file is binary. Patterns are still separated by line feeds.
//!
//! # Files
//!
//! `-r` searches the files of a directory in the order of their names, and does not follow links below it. A directory
//! is an error without `-r`. It is an error if a file cannot be read, or has a line that does not fit into memory; the
//! other files are still searched.
//!
//! In a glob `*` is any text, `?` is any character, `[a-z_]` is one of these characters and `[!a-z_]` any other, and
//! `\` makes the next character itself. Below a directory a glob has to match the name of a file; of a FILE that is an
//! argument it has to match the last names of the path. The last of several globs that matches decides. If none does, a
//! file is searched unless the first of them is an `--include`.
//!
//! A file is binary from the first block on in which a NUL is read. From there on no line is printed, but if one is
//! taken, a message to standard error says that the file matches; and a NUL ends a line, as a line feed does.
//!
//! # Not supported
//!
//! Of GNU grep's flags there are no `-d`, `-D`, `-G`, `--color=always`, `--exclude-from`, `--group-separator`,
//! `--label` and `--no-group-separator`; of its syntax no back-references and no look-around, also with `-P`, and no
//! basic syntax. `-T` does not align numbers.
//!
//! # What is proved
//!
//! It is proved that a line of a text is taken exactly if some part of it is a match of some pattern, by the meaning of
//! the patterns' texts, or with `-v` exactly if none is, and with `-m` only the first of these lines; and that what is
//! shown of the lines taken and of those around them, and their count, are what the flags say (`Grep::search`). The
//! patterns' texts are those that are searched for: what `-F`, `-w`, `-x` and `-z` make of a pattern, and of its word
//! boundaries, is tested. With `--which` the numbers are those of the patterns that match the line, each by itself.
//! With `--replace` each match is replaced by what the pieces of the text stand for, with the groups that the patterns'
//! texts mean (`replaced_line`), and the pieces are those of the text by the kit's specification of the syntax of Rust's
//! regex crate (`replacements_of`).
//! Blocks are cut after the end of a line, and no byte is lost (`Blocks::take_ended`). For reading the arguments,
//! finding the files and writing, only safety is proved.
#![tactic(auto)]

ghost use Rattle.std.specs.Prelude.{◌≡◌, IfOk, IfSome, string_bytes};
ghost use Rattle.patterns.specs.Patterns.{HasNoLookCycle};
ghost use Rattle.lgrep.specs.Templates.{AreReplacements};

mod args;
mod around;
mod blocks;
mod bounds;
mod build;
mod files;
mod flags;
mod globs;
mod help;
mod lines;
mod paths;
mod position;
mod replace;
mod search;
mod sets;
mod show;
mod spans;
mod stats;
mod template;
mod texts;
mod view;

use crate::args::{Args, Request};
use crate::build::{bytewise, grep_of, patterns_nfa, programs_of, test_patterns};
use crate::files::{Filter, Search};
use crate::globs::Globs;
use crate::help::{print_help, print_version};
use crate::show::Show;
use crate::template::replacements_of;
use anyhow::Result;
use meta::Programs;
use patterns::{Fault, PatternError};
use regex_automata::nfa::thompson::NFA;
use std::alloc::Global;
use std::env;
use std::process::ExitCode;
use std::time::Instant;

/// Shows the error of a pattern, and returns the status 2.
fn report(
    rt: &HostRuntime,
    patterns: &[&str],
    case_insensitive: bool,
    error: PatternError,
) -> Result<ExitCode> {
    let pattern = patterns.get(error.number).copied().unwrap_or("");
    let shown = error.show(rt.alloc(), pattern, &bytewise(case_insensitive))?;
    eprintln!(rt; "lgrep: {shown}")?;
    Ok(ExitCode::from(2))
}

/// Returns which files and directories are searched.
fn filter_of(alloc: Global, args: &Args) -> Result<Filter> {
    let files = Globs::new(alloc, args.globs.as_slice())?;
    let directories = Globs::new(alloc, args.directories.as_slice())?;
    Ok(Filter { files, directories })
}

/// Returns what to print, where these programs find the groups of this number of patterns.
fn show_of(alloc: Global, args: &Args, programs: &Programs, count: usize) -> Result<Show>
    ensures flags { IfOk result (λ show. show.flags ≡ args.now.flags) }
    ensures replacements { IfSome args.now.template (λ template. IfOk result (λ show.
        AreReplacements programs.now (string_bytes template) count show.replacements.items)) }
{
    let replacements = match &args.template {
        Some(template) => replacements_of(alloc, programs, count, template.as_str())?,
        None => Vec::new(alloc),
    };
    Ok(Show {
        flags: args.flags,
        name: String::new(alloc),
        binary: false,
        replacements,
    })
}

/// Searches the files for the patterns of an NFA, which has these texts, and returns the status.
fn search_files(rt: &HostRuntime, args: &Args, nfa: NFA, texts: &[&str]) -> Result<ExitCode>
    requires { HasNoLookCycle nfa }
{
    let alloc = rt.alloc();
    let case_insensitive = args.wording.case_insensitive;
    let since = Instant::now(rt)?;
    let programs = programs_of(alloc, args.flags.how, texts, case_insensitive)?;
    let show = show_of(alloc, args, &programs, texts.len())?;
    let filter = filter_of(alloc, args)?;
    let grep = grep_of(alloc, show, nfa, programs, case_insensitive, args.capacity)?;
    let mut search = Search::new(rt, grep, args.reading, filter);
    search.search_all(rt, args.files.as_slice())?;
    if args.stats {
        search.print_stats(rt, since)?;
    }
    Ok(ExitCode::from(search.status()))
}

/// Returns the arguments after the program's name.
fn words(rt: &HostRuntime) -> Result<Vec<String>> {
    let mut all = Vec::new(rt.alloc());
    for argument in env::args(rt)?.skip(1) {
        all.push(argument)?;
    }
    Ok(all)
}

/// Returns the texts of the patterns.
fn texts_of<'t>(alloc: Global, patterns: &'t [String]) -> Result<Vec<&'t str>> {
    let mut texts = Vec::new(alloc);
    for pattern in patterns {
        texts.push(pattern.as_str())?;
    }
    Ok(texts)
}

/// Searches for the patterns as the flags change them. They are valid, and an error shows them as they are.
fn search_bounded(rt: &HostRuntime, args: &Args, inner: &[String]) -> Result<ExitCode> {
    let bounded = args.wording.bounded_texts(rt.alloc(), inner)?;
    let texts = texts_of(rt.alloc(), bounded.as_slice())?;
    match patterns_nfa(rt.alloc(), texts.as_slice(), args.wording.case_insensitive) {
        Ok(nfa) => search_files(rt, args, nfa, texts.as_slice()),
        Err(error) => report(rt, texts.as_slice(), args.wording.case_insensitive, error),
    }
}

/// Searches for patterns of which some have word boundaries. An invalid pattern is shown as it was given.
fn search_words(
    rt: &HostRuntime,
    args: &Args,
    inner: &[String],
    texts: &[&str],
) -> Result<ExitCode> {
    match test_patterns(rt.alloc(), texts, args.wording.case_insensitive) {
        Ok(()) => search_bounded(rt, args, inner),
        Err(error) => report(rt, texts, args.wording.case_insensitive, error),
    }
}

/// Searches for the patterns. An invalid pattern is shown as it was given, and gives the status 2.
fn search_inner(rt: &HostRuntime, args: &Args) -> Result<ExitCode> {
    let inner = args
        .wording
        .inner_texts(rt.alloc(), args.patterns.as_slice())?;
    let texts = texts_of(rt.alloc(), inner.as_slice())?;
    match patterns_nfa(rt.alloc(), texts.as_slice(), args.wording.case_insensitive) {
        Ok(nfa) if args.wording.is_plain() => search_files(rt, args, nfa, texts.as_slice()),
        Ok(_) => search_bounded(rt, args, inner.as_slice()),
        Err(error) if error.fault == Fault::UnicodeWord => {
            search_words(rt, args, inner.as_slice(), texts.as_slice())
        }
        Err(error) => report(rt, texts.as_slice(), args.wording.case_insensitive, error),
    }
}

/// Reads the arguments, and does what they ask for.
fn run(rt: &HostRuntime) -> Result<ExitCode> {
    let words = words(rt)?;
    let args = Args::read(rt, words.as_slice())?;
    match args.request {
        Some(Request::Help) => print_help(rt)?,
        Some(Request::Version) => print_version(rt)?,
        None if args.takes_nothing() => return Ok(ExitCode::from(1)),
        None => return search_inner(rt, &args),
    }
    Ok(ExitCode::SUCCESS)
}

/// Runs the program. An error is printed, and gives the status 2.
fn main(rt: HostRuntime) -> ExitCode {
    match run(&rt) {
        Ok(status) => status,
        Err(error) => {
            let _ = eprintln!(rt; "lgrep: {error}");
            ExitCode::from(2)
        }
    }
}
