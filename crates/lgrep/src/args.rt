//! The arguments of the program.
use crate::blocks::BinaryFiles;
use crate::files::Reading;
use crate::flags::{
    Switch, Value, switch_of_letter, switch_of_word, value_of_letter, value_of_word,
};
use crate::globs::Glob;
use crate::paths::is_terminal;
use crate::show::{Around, Flags, How};
use crate::texts::Wording;
use anyhow::{Result, bail};
use std::alloc::Global;
use std::fs;

/// What is printed instead of a search.
#[derive(Clone, Copy)]
pub enum Request {
    Help,
    Version,
}

/// The flags, the patterns and the files.
pub struct Args {
    pub request: Option<Request>,
    pub flags: Flags,
    pub reading: Reading,
    pub wording: Wording,
    pub stats: bool,
    /// The capacity of each cache, in bytes.
    pub capacity: usize,
    pub patterns: Vec<String>,
    /// What matches are replaced by, if they are.
    pub template: Option<String>,
    /// The globs of `--include` and `--exclude`, in the order in which they are given.
    pub globs: Vec<Glob>,
    /// The globs of `--exclude-dir`.
    pub directories: Vec<Glob>,
    pub files: Vec<String>,
    /// How many lines are shown after and before each line that is taken, and on each side without its own number.
    after: Option<u64>,
    before: Option<u64>,
    context: Option<u64>,
    /// Whether patterns were given by `-e` or `-f`.
    has_patterns: bool,
    /// The kind of value that the next argument is, if it is the value of a flag.
    awaited: Option<Value>,
    /// Whether no further argument is a flag.
    has_ended: bool,
    /// Whether the names of files are shown, if `-H` or `-h` was given.
    names: Option<bool>,
}

// An owner drops this with one call, so that its proof has no step for each field.
impl Drop for Args {
    fn drop(self) {
        let Self {
            request: _request,
            flags: _flags,
            reading: _reading,
            wording: _wording,
            stats: _stats,
            capacity: _capacity,
            patterns: _patterns,
            template: _template,
            globs: _globs,
            directories: _directories,
            files: _files,
            after: _after,
            before: _before,
            context: _context,
            has_patterns: _has_patterns,
            awaited: _awaited,
            has_ended: _has_ended,
            names: _names,
        } = self;
    }
}

/// Returns what is printed if no flag is given.
fn no_flags() -> Flags {
    Flags {
        invert: false,
        max: None,
        count: false,
        names: false,
        missing: false,
        quiet: false,
        how: How::Whole,
        numbers: false,
        named: false,
        null: false,
        offsets: false,
        tab: false,
        around: None,
        end: b'\n',
    }
}

/// Returns how files are read if no flag is given.
fn as_files() -> Reading {
    Reading {
        recursive: false,
        binary_files: BinaryFiles::Split,
        unnamed: false,
        quiet: false,
        silent: false,
    }
}

/// Returns how the patterns are read if no flag is given.
fn as_patterns() -> Wording {
    Wording {
        fixed: false,
        lines: false,
        words: false,
        dots: false,
        case_insensitive: false,
    }
}

/// Returns what is printed of each line if matches are replaced, instead of what is printed if they are not.
fn replacing(how: How) -> How {
    match how {
        How::Whole | How::Replaced => How::Replaced,
        How::Matches | How::Replacements => How::Replacements,
        How::Which => How::Which,
    }
}

/// Appends the patterns of an argument, which are separated by line feeds.
fn push_patterns(alloc: Global, text: &str, patterns: &mut Vec<String>) -> Result<()> {
    for line in text.split('\n') {
        patterns.push(String::from_str(alloc, line)?)?;
    }
    Ok(())
}

/// Appends the lines of a text to the patterns.
fn push_lines(alloc: Global, text: &str, patterns: &mut Vec<String>) -> Result<()> {
    for line in text.lines() {
        patterns.push(String::from_str(alloc, line)?)?;
    }
    Ok(())
}

/// Appends the lines of a file, or of standard input if its name is `-`, to the patterns.
fn push_file(rt: &HostRuntime, path: &str, patterns: &mut Vec<String>) -> Result<()> {
    let opened = if path == "-" { "/dev/stdin" } else { path };
    match fs::read_to_string(rt, opened) {
        Ok(text) => push_lines(rt.alloc(), text.as_str(), patterns),
        Err(error) => bail!("{path}: {error}"),
    }
}

impl Args {
    /// Returns arguments without a flag, a pattern or a file.
    fn new(alloc: Global) -> Args {
        Args {
            request: None,
            flags: no_flags(),
            reading: as_files(),
            wording: as_patterns(),
            stats: false,
            capacity: 64 << 20,
            patterns: Vec::new(alloc),
            template: None,
            globs: Vec::new(alloc),
            directories: Vec::new(alloc),
            files: Vec::new(alloc),
            after: None,
            before: None,
            context: None,
            has_patterns: false,
            awaited: None,
            has_ended: false,
            names: None,
        }
    }

    /// Takes a value that is about patterns or what replaces them, or any other value.
    fn take_value(&mut self, rt: &HostRuntime, value: Value, text: &str) -> Result<()> {
        self.awaited = None;
        match value {
            Value::Pattern => {
                self.has_patterns = true;
                push_patterns(rt.alloc(), text, &mut self.patterns)
            }
            Value::PatternFile => {
                self.has_patterns = true;
                push_file(rt, text, &mut self.patterns)
            }
            Value::Template => {
                self.template = Some(String::from_str(rt.alloc(), text)?);
                Ok(())
            }
            Value::Include | Value::Exclude | Value::ExcludeDirectory => {
                self.take_glob(rt.alloc(), value, text)
            }
            _ => self.set_value(value, text),
        }
    }

    /// Takes a glob of files or directories. The slashes at the end of a glob of directories have no effect.
    fn take_glob(&mut self, alloc: Global, value: Value, text: &str) -> Result<()> {
        let is_of_directories = matches!(value, Value::ExcludeDirectory);
        let name = if is_of_directories {
            text.trim_end_matches('/')
        } else {
            text
        };
        let glob = Glob {
            text: String::from_str(alloc, name)?,
            is_included: matches!(value, Value::Include),
        };
        if is_of_directories {
            Ok(self.directories.push(glob)?)
        } else {
            Ok(self.globs.push(glob)?)
        }
    }

    /// Sets what a flag with a value is about, other than patterns and globs.
    fn set_value(&mut self, value: Value, text: &str) -> Result<()> {
        match value {
            Value::Maximum => self.set_max(text),
            Value::BinaryFiles => self.set_binary_files(text),
            Value::Cache => self.set_capacity(text),
            Value::Color => self.set_color(text),
            _ => self.set_around(value, text),
        }
    }

    /// Sets how many lines are shown after or before a line that is taken, or on both sides; fails if the text is not a
    /// number.
    fn set_around(&mut self, value: Value, text: &str) -> Result<()> {
        let Ok(lines) = text.parse::<u64>() else {
            bail!("-A, -B and -C take a number; see lgrep --help");
        };
        match value {
            Value::After => self.after = Some(lines),
            Value::Before => self.before = Some(lines),
            _ => self.context = Some(lines),
        }
        Ok(())
    }

    /// Sets how many lines of a file are taken at most; fails if the text is not a number.
    fn set_max(&mut self, text: &str) -> Result<()> {
        match text.parse::<u64>() {
            Ok(max) => self.flags.max = Some(max),
            Err(_) => bail!("--max-count takes a number; see lgrep --help"),
        }
        Ok(())
    }

    /// Sets how binary files are searched; fails if the text is not one of the three ways.
    fn set_binary_files(&mut self, text: &str) -> Result<()> {
        match text {
            "binary" => self.reading.binary_files = BinaryFiles::Split,
            "text" => self.reading.binary_files = BinaryFiles::Text,
            "without-match" => self.reading.binary_files = BinaryFiles::Unmatched,
            _ => bail!("--binary-files takes binary, text or without-match; see lgrep --help"),
        }
        Ok(())
    }

    /// Sets the capacity of the caches, in MiB; fails if the text is not a number up to 65535.
    fn set_capacity(&mut self, text: &str) -> Result<()> {
        match text.parse::<u16>() {
            Ok(number) => self.capacity = usize::from(number) << 20,
            Err(_) => bail!("--cache takes a number of MiB up to 65535; see lgrep --help"),
        }
        Ok(())
    }

    /// Fails if colors are asked for: there are none.
    fn set_color(&mut self, text: &str) -> Result<()> {
        match text {
            "auto" | "never" => Ok(()),
            "always" => bail!("--color=always is not supported: lgrep prints no colors"),
            _ => bail!("--color takes never or auto; see lgrep --help"),
        }
    }

    /// Takes the value of a letter: the rest of its argument or, if that is empty, the next argument.
    fn begin_value(&mut self, rt: &HostRuntime, value: Value, rest: &str) -> Result<()> {
        if rest.is_empty() {
            self.awaited = Some(value);
            return Ok(());
        }
        self.take_value(rt, value, rest)
    }

    /// Sets what is printed of each line; fails if both `-o` and `--which` are given.
    fn set_how(&mut self, how: How) -> Result<()> {
        match (self.flags.how, how) {
            (How::Matches, How::Which) | (How::Which, How::Matches) => {
                bail!("-o and --which cannot be used together")
            }
            _ => self.flags.how = how,
        }
        Ok(())
    }

    /// Sets whether only the names of files are printed: of those with a line that is taken, or of those without one.
    fn set_names(&mut self, missing: bool) {
        self.flags.names = !missing;
        self.flags.missing = missing;
    }

    /// Sets a flag about what is printed, or any other flag without a value.
    fn set(&mut self, switch: Switch) -> Result<()> {
        match switch {
            Switch::Count => self.flags.count = true,
            Switch::Help => self.request = Some(Request::Help),
            Switch::Invert => self.flags.invert = true,
            Switch::Matches => self.set_how(How::Matches)?,
            Switch::Missing => self.set_names(true),
            Switch::Named => self.names = Some(true),
            Switch::Names => self.set_names(false),
            Switch::Null => self.flags.null = true,
            Switch::Numbers => self.flags.numbers = true,
            Switch::Offsets => self.flags.offsets = true,
            Switch::Stats => self.stats = true,
            Switch::Tab => self.flags.tab = true,
            Switch::Unnamed => self.names = Some(false),
            Switch::Version => self.request = Some(Request::Version),
            Switch::Which => self.set_how(How::Which)?,
            _ => self.set_reading(switch),
        }
        Ok(())
    }

    /// Sets a flag about how patterns and files are read.
    fn set_reading(&mut self, switch: Switch) {
        match switch {
            Switch::BinaryUnmatched => self.reading.binary_files = BinaryFiles::Unmatched,
            Switch::Fixed => self.wording.fixed = true,
            Switch::IgnoreCase => self.wording.case_insensitive = true,
            Switch::Lines => self.wording.lines = true,
            Switch::MatchCase => self.wording.case_insensitive = false,
            Switch::Quiet => self.reading.quiet = true,
            Switch::Recursive => self.reading.recursive = true,
            Switch::Silent => self.reading.silent = true,
            Switch::Syntax => self.wording.fixed = false,
            Switch::Text => self.reading.binary_files = BinaryFiles::Text,
            Switch::Words => self.wording.words = true,
            Switch::ZeroEnds => {
                self.flags.end = 0;
                self.wording.dots = true;
            }
            _ => {}
        }
    }

    /// Takes a flag that is a word, with the value after its `=`, if it has one; fails if there is no such flag.
    fn take_word(&mut self, rt: &HostRuntime, word: &str, given: Option<&str>) -> Result<()> {
        match (switch_of_word(word), value_of_word(word), given) {
            (Some(switch), _, None) => self.set(switch),
            (Some(_), _, Some(_)) => bail!("--{word} takes no value; see lgrep --help"),
            (None, Some(value), Some(text)) => self.take_value(rt, value, text),
            (None, Some(Value::Color), None) => Ok(()),
            (None, Some(value), None) => {
                self.awaited = Some(value);
                Ok(())
            }
            (None, None, _) => bail!("no flag --{word}; see lgrep --help"),
        }
    }

    /// Takes an argument that begins with `--`, which ends the flags if nothing follows.
    fn take_words(&mut self, rt: &HostRuntime, words: &str) -> Result<()> {
        if words.is_empty() {
            self.has_ended = true;
            return Ok(());
        }
        match words.split_once('=') {
            Some((word, value)) => self.take_word(rt, word, Some(value)),
            None => self.take_word(rt, words, None),
        }
    }

    /// Takes a digit of an argument such as `-12`, which is short for `-C 12`. Returns the number so far.
    fn take_digit(&mut self, number: Option<u64>, digit: u32) -> Option<u64> {
        let tens = number.unwrap_or(0).saturating_mul(10);
        self.context = Some(tens.saturating_add(u64::from(digit)));
        self.context
    }

    /// Takes the letters of an argument such as `-cn`. What follows a letter that takes a value is its value.
    fn take_letters(&mut self, rt: &HostRuntime, letters: &str) -> Result<()> {
        let mut number = None;
        for (at, letter) in letters.char_indices() {
            if let Some(value) = value_of_letter(letter) {
                let rest = letters.get(at.saturating_add(1)..).unwrap_or("");
                return self.begin_value(rt, value, rest);
            }
            number = match letter.to_digit(10) {
                Some(digit) => self.take_digit(number, digit),
                None => {
                    self.take_switch(letter)?;
                    None
                }
            };
        }
        Ok(())
    }

    /// Takes a letter that has no value; fails if there is no such flag.
    fn take_switch(&mut self, letter: char) -> Result<()> {
        match switch_of_letter(letter) {
            Some(switch) => self.set(switch),
            None => bail!("no flag -{letter}; see lgrep --help"),
        }
    }

    /// Takes an argument that is neither a flag nor a value: a file or, if it is the first, possibly the pattern.
    fn take_other(&mut self, alloc: Global, argument: &str) -> Result<()> {
        Ok(self.files.push(String::from_str(alloc, argument)?)?)
    }

    /// Takes the next argument.
    fn take(&mut self, rt: &HostRuntime, argument: &str) -> Result<()> {
        if let Some(value) = self.awaited {
            return self.take_value(rt, value, argument);
        }
        if self.has_ended {
            return self.take_other(rt.alloc(), argument);
        }
        match (argument.strip_prefix("--"), argument.strip_prefix('-')) {
            (Some(words), _) => self.take_words(rt, words),
            (None, Some(letters)) if !letters.is_empty() => self.take_letters(rt, letters),
            _ => self.take_other(rt.alloc(), argument),
        }
    }

    /// Fails if there is no pattern, if the value of a flag is missing, or if both `--which` and `-v` or `--replace` are
    /// given.
    fn check(&self) -> Result<()> {
        if self.awaited.is_some() {
            bail!("the last flag has no value; see lgrep --help");
        }
        if !self.has_patterns && self.files.is_empty() {
            bail!("no pattern; see lgrep --help");
        }
        if self.flags.invert && matches!(self.flags.how, How::Which) {
            bail!("-v and --which exclude each other");
        }
        if self.template.is_some() && matches!(self.flags.how, How::Which) {
            bail!("--replace and --which cannot be used together");
        }
        Ok(())
    }

    /// Ends the arguments. Without `-e` and `-f`, the first argument that is not a flag is the pattern. Without a file,
    /// standard input is searched or, with `-r` or if that is a terminal, the current directory.
    fn end(&mut self, rt: &HostRuntime) -> Result<()> {
        if !self.has_patterns && !self.files.is_empty() {
            let pattern = self.files.remove(0);
            push_patterns(rt.alloc(), pattern.as_str(), &mut self.patterns)?;
        }
        if self.files.is_empty() && !self.reading.recursive {
            if is_terminal(rt) {
                self.reading.recursive = true;
            } else {
                self.take_other(rt.alloc(), "-")?;
            }
        }
        if self.template.is_some() {
            self.flags.how = replacing(self.flags.how);
        }
        self.flags.around = self.around();
        self.flags.named = self.names.unwrap_or(self.files.len() > 1);
        self.reading.unnamed = self.names == Some(false);
        self.flags.quiet = self.reading.quiet;
        Ok(())
    }

    /// Returns how many lines around those that are taken are shown, if this is asked for.
    fn around(&self) -> Option<Around> {
        if self.after.is_none() && self.before.is_none() && self.context.is_none() {
            return None;
        }
        let both = self.context.unwrap_or(0);
        Some(Around {
            before: self.before.unwrap_or(both),
            after: self.after.unwrap_or(both),
        })
    }

    /// Whether no file has to be read, because no line is taken and no file without such a line is named.
    pub fn takes_nothing(&self) -> bool {
        self.flags.max == Some(0) && !self.flags.missing
    }

    /// Reads the arguments after the program's name, and the files of patterns. An argument that begins with `-` is a
    /// flag, except for `-` alone and for arguments after `--`.
    pub fn read(rt: &HostRuntime, arguments: &[String]) -> Result<Args> {
        let mut args = Args::new(rt.alloc());
        for argument in arguments {
            args.take(rt, argument.as_str())?;
        }
        if args.request.is_none() {
            args.check()?;
            args.end(rt)?;
        }
        Ok(args)
    }
}
