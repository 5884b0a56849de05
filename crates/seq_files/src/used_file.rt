//! The files that a command uses, and whether it would lose one of them.

use crate::error::FileError;
use crate::files::Files;
use std::alloc::Global;
use std::collections::BTreeMap;
use std::collections::btree_map::Entry;

/// How a command uses a file.
#[derive(Clone, Copy, Debug, PartialEq, Eq)]
pub enum Use {
    Read,
    Written,
}

/// A file that a command uses.
#[derive(Clone, Copy, Debug, PartialEq, Eq)]
pub struct UsedFile<'a> {
    pub path: &'a str,
    pub usage: Use,
    /// The line of the run file that names it, if one does.
    pub line: Option<usize>,
}

/// Two uses of one file, of which one would be lost.
#[derive(Clone, Copy, Debug, PartialEq, Eq)]
pub struct Clash<'a> {
    /// The use that writes the file.
    pub output: UsedFile<'a>,
    pub other: UsedFile<'a>,
}

// Enters a use by the name of its file, unless that was used before: then it is the use before.
fn enter<'a>(
    seen: &mut BTreeMap<String, UsedFile<'a>>,
    name: String,
    used: UsedFile<'a>,
) -> Result<Option<UsedFile<'a>>, FileError> {
    match seen.entry(name) {
        Ok(Entry::Occupied(first)) => Ok(Some(*first.get())),
        Ok(Entry::Vacant(free)) => {
            free.insert(used);
            Ok(None)
        }
        Err(_) => Err(FileError::OutOfMemory),
    }
}

// Enters uses of files by the names of these.
fn enter_all<'a, F: Files>(
    seen: &mut BTreeMap<String, UsedFile<'a>>,
    files: &F,
    uses: &[UsedFile<'a>],
) -> Result<(), FileError> {
    for used in uses {
        enter(seen, files.identify(used.path)?, *used)?;
    }
    Ok(())
}

/// The first of these outputs that is one file with an output before it or with one of the others, if one is, whatever their paths.
pub fn find_clash<'a, F: Files>(
    alloc: Global,
    files: &F,
    outputs: &[UsedFile<'a>],
    others: &[UsedFile<'a>],
) -> Result<Option<Clash<'a>>, FileError> {
    if outputs.is_empty() {
        return Ok(None);
    }
    let mut seen = BTreeMap::new(alloc);
    enter_all(&mut seen, files, others)?;
    for output in outputs {
        if let Some(other) = enter(&mut seen, files.identify(output.path)?, *output)? {
            let output = *output;
            return Ok(Some(Clash { output, other }));
        }
    }
    Ok(None)
}
