//! The names of files: what a path leads to, all links followed.

use crate::real_files::RealFiles;
use std::io::{self, ErrorKind};
use std::os::unix::fs::MetadataExt;
use std::{fs, rt};

/// What has the path `-`: standard input.
const STDIN: &str = "/dev/stdin";

// How many links are followed to a file that isn't there, each to the next.
const MOST_LINKS: usize = 40;

// A path in two: its folder with the slash that ends it, nothing for a path without a slash; and its name there.
fn split_path(path: &str) -> (&str, &str) {
    match path.rfind('/') {
        Some(at) => path.split_at(at + 1),
        None => ("", path),
    }
}

/// The folder of a path, with the slash that ends it; nothing for a path without a slash.
pub(crate) fn folder_of(path: &str) -> &str {
    let (folder, _) = split_path(path);
    folder
}

/// The path by which the system reads what has this one.
pub(crate) fn read_path(path: &str) -> &str {
    if path == "-" { STDIN } else { path }
}

// The same folder by a path that the system takes.
fn shown_folder(path: &str) -> &str {
    match folder_of(path) {
        "" => ".",
        folder => folder,
    }
}

impl<'a, R: rt::Files> RealFiles<'a, R> {
    // Where the link at this path leads to, if one stands there.
    fn follow_link(&self, path: &str) -> io::Result<Option<String>> {
        match self.system.read_link(self.alloc, path) {
            Ok(target) if target.is_absolute() => Ok(Some(target.into_string())),
            Ok(target) => {
                let folder = folder_of(path);
                Ok(Some(format!(in self.alloc; "{folder}{}", target.as_str())?))
            }
            Err(error) if error.kind() == ErrorKind::OutOfMemory => Err(error),
            Err(_) => Ok(None),
        }
    }

    // The path at the end of the links that begin at this one.
    fn follow_links(&self, path: &str) -> io::Result<String> {
        let mut end = String::from_str(self.alloc, path)?;
        for _ in 0..MOST_LINKS {
            match self.follow_link(end.as_str())? {
                Some(next) => end = next,
                None => return Ok(end),
            }
        }
        Ok(end)
    }

    // The name of a path by its words alone.
    fn name_words(&self, path: &str) -> io::Result<String> {
        Ok(format!(in self.alloc; "path {path}")?)
    }

    // The name of a file that isn't there yet: its own in its folder.
    fn name_missing(&self, path: &str) -> io::Result<String> {
        let end = self.follow_links(path)?;
        let path = end.as_str();
        let (_, name) = split_path(path);
        match fs::metadata(self.system, shown_folder(path)) {
            Ok(folder) => {
                let (device, number) = (folder.dev(), folder.ino());
                Ok(format!(in self.alloc; "new {device} {number} {name}")?)
            }
            Err(_) => self.name_words(path),
        }
    }

    /// The name of the file that a path leads to. What is no plain file, as a device or a pipe, is named by its path, since nothing of it is lost.
    pub(crate) fn name_file(&self, path: &str) -> io::Result<String> {
        let path = read_path(path);
        match fs::metadata(self.system, path) {
            Ok(file) if file.is_file() => {
                let (device, number) = (file.dev(), file.ino());
                Ok(format!(in self.alloc; "file {device} {number}")?)
            }
            Err(error) if error.kind() == ErrorKind::NotFound => self.name_missing(path),
            Ok(_) | Err(_) => self.name_words(path),
        }
    }

    /// Whether the folder is there into which a file is written at this path, all links followed.
    pub(crate) fn find_folder(&self, path: &str) -> io::Result<()> {
        let end = self.follow_links(path)?;
        fs::metadata(self.system, shown_folder(end.as_str()))?;
        Ok(())
    }
}
