//! Paths of files, and the entries of a directory.
use anyhow::Result;
use std::alloc::Global;
use std::fs;
use std::fs::{DirEntry, File};
use std::os::unix::fs::{FileTypeExt, MetadataExt};

/// A file or directory below a directory.
pub struct Found {
    pub path: String,
    pub is_directory: bool,
}

// An owner drops this with one call, so that its proof has no step for each field.
impl Drop for Found {
    fn drop(self) {
        let Self {
            path: _path,
            is_directory: _is_directory,
        } = self;
    }
}

/// Returns the name of a file as it is printed.
pub fn name_of(path: &str) -> &str {
    if path == "-" {
        "(standard input)"
    } else {
        path
    }
}

/// Returns the last name of a path.
pub fn last_name(path: &str) -> &str {
    match path.rsplit_once('/') {
        Some((_, name)) => name,
        None => path,
    }
}

/// Whether standard input is a terminal, by the number of its device: consoles and serial lines have the major numbers
/// 4 and 5, pseudoterminals 136 to 143.
pub fn is_terminal(rt: &HostRuntime) -> bool {
    match fs::metadata(rt, "/dev/stdin") {
        Ok(found) => found.file_type().is_char_device()
            && matches!(found.rdev() >> 8 & 0xFFF, 4 | 5 | 136..=143),
        Err(_) => false,
    }
}

/// Whether a path leads to a directory.
pub fn is_directory(rt: &HostRuntime, path: &str) -> bool {
    match fs::metadata(rt, path) {
        Ok(found) => found.is_dir(),
        Err(_) => false,
    }
}

/// Returns the path of a name in a directory. The empty path is the current directory.
fn below(alloc: Global, directory: &str, name: &str) -> Result<String> {
    let mut path = String::from_str(alloc, directory)?;
    if !directory.is_empty() && !directory.ends_with('/') {
        path.push('/')?;
    }
    path.push_str(name)?;
    Ok(path)
}

/// Returns the file or directory that a directory entry is; returns `None` for a link or anything else.
pub fn found_of(alloc: Global, directory: &str, entry: &DirEntry) -> Result<Option<Found>> {
    let kind = entry.file_type()?;
    if !kind.is_dir() && !kind.is_file() {
        return Ok(None);
    }
    let path = below(alloc, directory, entry.file_name())?;
    let is_directory = kind.is_dir();
    Ok(Some(Found { path, is_directory }))
}

/// The identity of a file, whatever its path.
#[derive(Clone, Copy, PartialEq, Eq)]
pub struct Place {
    device: u64,
    number: u64,
}

/// Returns the file that standard output is written to, if it is a file.
pub fn output_place(rt: &HostRuntime) -> Option<Place> {
    match fs::metadata(rt, "/dev/stdout") {
        Ok(found) if found.is_file() => Some(Place {
            device: found.dev(),
            number: found.ino(),
        }),
        _ => None,
    }
}

/// Returns the identity of an open file.
pub fn place_of(file: &File) -> Result<Place> {
    let found = file.metadata()?;
    Ok(Place {
        device: found.dev(),
        number: found.ino(),
    })
}
