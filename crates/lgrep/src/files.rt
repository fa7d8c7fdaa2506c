//! Finds and searches the files, and determines the exit status.
use crate::blocks::BinaryFiles;
use crate::globs::Globs;
use crate::paths::{
    Found, Place, found_of, is_directory, last_name, name_of, output_place, place_of,
};
use crate::search::Grep;
use crate::stats::Stats;
use anyhow::{Error, Result, bail};
use std::alloc::Global;
use std::fs::File;
use std::time::Instant;
use std::{fs, io};

/// How files are read.
#[derive(Clone, Copy)]
pub struct Reading {
    /// Whether the files below a directory are searched.
    pub recursive: bool,
    pub binary_files: BinaryFiles,
    /// Whether file names are never shown before what is found in them.
    pub unnamed: bool,
    /// Whether nothing is printed, and the search ends as soon as a line is taken.
    pub quiet: bool,
    /// Whether no message about a file that cannot be read is printed.
    pub silent: bool,
}

/// Which files and directories are searched, by their names.
pub struct Filter {
    pub files: Globs,
    pub directories: Globs,
}

// An owner drops this with one call, so that its proof has no step for each field.
impl Drop for Filter {
    fn drop(self) {
        let Self {
            files: _files,
            directories: _directories,
        } = self;
    }
}

impl Filter {
    /// Whether a file or directory is searched, by its name.
    fn takes(&mut self, alloc: Global, path: &str, is_directory: bool) -> Result<bool> {
        if is_directory {
            self.directories.takes(alloc, path)
        } else {
            self.files.takes(alloc, path)
        }
    }
}

/// A search of files, and its result so far.
pub struct Search {
    grep: Grep,
    reading: Reading,
    filter: Filter,
    /// The file that standard output is written to, if it is a file.
    output: Option<Place>,
    stats: Stats,
    is_found: bool,
    has_failed: bool,
}

// An owner drops this with one call, so that its proof has no step for each field.
impl Drop for Search {
    fn drop(self) {
        let Self {
            grep: _grep,
            reading: _reading,
            filter: _filter,
            output: _output,
            stats: _stats,
            is_found: _is_found,
            has_failed: _has_failed,
        } = self;
    }
}

impl Search {
    /// Returns a search that has not searched any file.
    pub fn new(rt: &HostRuntime, grep: Grep, reading: Reading, filter: Filter) -> Search {
        Search {
            grep,
            reading,
            filter,
            output: output_place(rt),
            stats: Stats::new(),
            is_found: false,
            has_failed: false,
        }
    }

    /// Notes an error, and prints it after the path unless messages are not asked for.
    fn fail(&mut self, rt: &HostRuntime, path: &str, error: &Error) -> Result<()> {
        self.has_failed = true;
        if self.reading.silent {
            return Ok(());
        }
        Ok(eprintln!(rt; "lgrep: {path}: {error}")?)
    }

    /// Searches standard input or a file; fails if lines are written to this very file.
    fn run(&mut self, rt: &HostRuntime, path: &str) -> Result<()> {
        let binary_files = self.reading.binary_files;
        let mut output = io::writer(rt);
        if path == "-" {
            return self.grep.run(&mut rt.reader(), &mut output, binary_files);
        }
        let mut file = File::open(rt, path)?;
        if self.grep.shows_lines() && self.output == Some(place_of(&file)?) {
            bail!("input file is also the output");
        }
        self.grep.run(&mut file, &mut output, binary_files)
    }

    /// Searches a file, and prints its error, if any.
    fn search_file(&mut self, rt: &HostRuntime, path: &str) -> Result<()> {
        let name = name_of(path);
        self.grep.begin(String::from_str(rt.alloc(), name)?);
        let result = self.run(rt, path);
        self.stats.add(self.grep.stats());
        self.is_found = self.is_found || self.grep.count() > 0;
        match result {
            Ok(()) if self.grep.has_hidden() => {
                Ok(eprintln!(rt; "lgrep: {name}: binary file matches")?)
            }
            Ok(()) => Ok(()),
            Err(error) => self.fail_file(rt, name, &error),
        }
    }

    /// Notes an error of a file, and prints it unless the output is a pipe that nobody reads any more.
    fn fail_file(&mut self, rt: &HostRuntime, name: &str, error: &Error) -> Result<()> {
        self.has_failed = true;
        match self.grep.output_error() {
            Some(io::ErrorKind::BrokenPipe) => Ok(()),
            _ => self.fail(rt, name, error),
        }
    }

    /// Appends what is below a directory, unless it is left out by its name.
    fn push(&mut self, rt: &HostRuntime, found: Found, all: &mut Vec<Found>) -> Result<()> {
        let name = last_name(found.path.as_str());
        if self.filter.takes(rt.alloc(), name, found.is_directory)? {
            all.push(found)?;
        }
        Ok(())
    }

    /// Lists what is below a directory, in reverse order of names, and prints an error for each entry that cannot be
    /// read.
    fn list(&mut self, rt: &HostRuntime, directory: &str) -> Result<Vec<Found>> {
        let mut all = Vec::new(rt.alloc());
        let opened = if directory.is_empty() { "." } else { directory };
        for entry in fs::read_dir(rt, opened)? {
            let found = match entry {
                Ok(entry) => found_of(rt.alloc(), directory, &entry),
                Err(error) => Err(Error::from(error)),
            };
            match found {
                Ok(Some(found)) => self.push(rt, found, &mut all)?,
                Ok(None) => {}
                Err(error) => self.fail(rt, directory, &error)?,
            }
        }
        all.sort_unstable_by(|a, b| b.path.cmp(&a.path));
        Ok(all)
    }

    /// Searches a file, or appends what is below a directory to `left`.
    fn visit(&mut self, rt: &HostRuntime, found: Found, left: &mut Vec<Found>) -> Result<()> {
        let path = found.path.as_str();
        if !found.is_directory {
            return self.search_file(rt, path);
        }
        match self.list(rt, path) {
            Ok(mut below) => Ok(left.append(&mut below)?),
            Err(error) => self.fail(rt, path, &error),
        }
    }

    /// Searches the files below a directory, in the order of their names.
    fn search_below(&mut self, rt: &HostRuntime, path: &str) -> Result<()> {
        let mut left = Vec::new(rt.alloc());
        let path = String::from_str(rt.alloc(), path)?;
        left.push(Found {
            path,
            is_directory: true,
        })?;
        for _ in 0..u64::MAX {
            match left.pop() {
                Some(found) if !self.is_decided() => self.visit(rt, found, &mut left)?,
                _ => break,
            }
        }
        Ok(())
    }

    /// Searches the files below a directory, and shows their names unless `-h` is given.
    fn search_directory(&mut self, rt: &HostRuntime, path: &str) -> Result<()> {
        if !self.reading.unnamed {
            self.grep.show_names();
        }
        self.search_below(rt, path)
    }

    /// Reports that a path is a directory, and prints what is shown at the end of a file in which no line is taken.
    fn pass_directory(&mut self, rt: &HostRuntime, path: &str) -> Result<()> {
        self.has_failed = true;
        if !self.reading.silent {
            eprintln!(rt; "lgrep: {path}: Is a directory")?;
        }
        self.grep.begin(String::from_str(rt.alloc(), path)?);
        self.grep.end(&mut io::writer(rt))
    }

    /// Searches the file or directory that an argument names, unless it is left out by its name.
    fn search_given(&mut self, rt: &HostRuntime, path: &str) -> Result<()> {
        if path == "-" {
            return self.search_file(rt, path);
        }
        let is_directory = is_directory(rt, path);
        if !self.filter.takes(rt.alloc(), path, is_directory)? {
            Ok(())
        } else if !is_directory {
            self.search_file(rt, path)
        } else if self.reading.recursive {
            self.search_directory(rt, path)
        } else {
            self.pass_directory(rt, path)
        }
    }

    /// Whether the remaining files need not be searched.
    fn is_decided(&self) -> bool {
        self.reading.quiet && self.is_found || self.grep.output_error().is_some()
    }

    /// Searches what the arguments name or, if there are none, what is below the current directory.
    pub fn search_all(&mut self, rt: &HostRuntime, paths: &[String]) -> Result<()> {
        if paths.is_empty() {
            return self.search_directory(rt, "");
        }
        for path in paths {
            if !self.is_decided() {
                self.search_given(rt, path.as_str())?;
            }
        }
        Ok(())
    }

    /// Prints what was read since a time, and how the caches were used.
    pub fn print_stats(&self, rt: &HostRuntime, since: Instant) -> Result<()> {
        self.stats.print(rt, self.grep.usage(), since)
    }

    /// Returns the exit status: 2 after an error, otherwise 0 if a line was taken, otherwise 1. With `-q` it is 0 if a
    /// line was taken, even after an error.
    pub fn status(&self) -> u8 {
        if self.reading.quiet && self.is_found {
            0
        } else if self.has_failed {
            2
        } else if self.is_found {
            0
        } else {
            1
        }
    }
}
