//! Files in memory.
ghost use Rattle.std.specs.Prelude.{◌≡◌, ◌++◌, List, Some, IfOk, OnOk, OnErr, option_map, map};
ghost use Rattle.seq_files.specs.declared.map_files.KeptFile.{KeptFile};
ghost use Rattle.seq_files.specs.Store.{Holds, with_file, with_all, written_of};
ghost use Rattle.seq_files.specs.Kept.{files_in};

use crate::converting::{Convert, NotConverted, convert_all};
use crate::error::{FileError, FileFault, NotWritten};
use crate::files::Files;
use crate::new_file::NewFile;
use std::alloc::{AllocError, Allocator, Global};

// A file in memory.
#[derive(Drop)]
struct KeptFile {
    path: String,
    bytes: Vec<u8>,
}

/// Files in memory. They count the calls, each file of several a call, and one call may be told to fail.
#[derive(Drop)]
pub struct MapFiles {
    alloc: Global,
    // A file that was made later counts before one of the same path.
    files: Vec<KeptFile>,
    calls: usize,
    bad: Option<(usize, FileError)>,
}

impl MapFiles {
    /// No files yet.
    pub fn new(alloc: Global) -> MapFiles {
        MapFiles {
            alloc,
            files: Vec::new(alloc),
            calls: 0,
            bad: None,
        }
    }

    /// Makes a file, which is no call.
    pub fn put(&mut self, path: &str, bytes: &[u8]) -> Result<(), AllocError>
        ensures written { OnOk result (Some (files_in self.new.files.items) ≡ with_file (Some (files_in self.old.files.items)) path.now bytes.now) }
        ensures stays { OnErr result (self.new.files.items ≡ self.old.files.items) }
        ensures more { (later : List KeptFile) × (self.new.files.items ≡ self.old.files.items ++ later) }
    {
        let file = KeptFile {
            path: String::from_str(self.alloc, path)?,
            bytes: bytes.to_vec(self.alloc)?,
        };
        self.files.push(file)?;
        Ok(())
    }

    /// The bytes of a file, if it is there.
    pub fn get(&self, path: &str) -> Option<&[u8]>
        ensures { option_map (λ bytes. bytes.now) result ≡ files_in self.now.files.items path.now }
    {
        let mut place = self.files.len();
        while place > 0 {
            place -= 1;
            if self.files[place].path.as_str() == path {
                return Some(self.files[place].bytes.as_slice());
            }
        }
        None
    }

    /// The call of this number, counted from 0, is to fail so, and no other.
    pub fn fail_at(&mut self, call: usize, error: FileError)
        ensures { self.new.files ≡ self.old.files }
    {
        self.bad = Some((call, error));
        self.calls = 0;
    }

    /// How many calls there were, since one was told to fail.
    pub fn calls(&self) -> usize {
        self.calls
    }

    // Counts a call, which may be the one that fails.
    fn call(&mut self) -> Result<(), FileError>
        ensures { self.new.files ≡ self.old.files }
    {
        let call = self.calls;
        self.calls = call.saturating_add(1);
        match self.bad {
            Some((bad, error)) if bad == call => Err(error),
            _ => Ok(()),
        }
    }

    // Makes a file, which is a call.
    fn make(&mut self, file: NewFile<'_, '_>) -> Result<(), FileError>
        ensures written { OnOk result (Some (files_in self.new.files.items) ≡ with_file (Some (files_in self.old.files.items)) file.entry.path.now file.entry.bytes.now) }
        ensures stays { OnErr result (self.new.files.items ≡ self.old.files.items) }
        ensures more { (later : List KeptFile) × (self.new.files.items ≡ self.old.files.items ++ later) }
    {
        self.call()?;
        self.put(file.path, file.bytes)?;
        Ok(())
    }

    // Makes one file after the other, up to one that can't be made.
    #[tactic(auto, using(crate::proofs::Several::behind))]
    fn make_each(&mut self, files: &[NewFile<'_, '_>]) -> Result<(), NotWritten>
        ensures written { OnOk result (Some (files_in self.new.files.items) ≡ with_all (map written_of files.now) (Some (files_in self.old.files.items))) }
        ensures more { (later : List KeptFile) × (self.new.files.items ≡ self.old.files.items ++ later) }
    {
        for place in 0..files.len() {
            match self.make(files[place]) {
                Ok(()) => {}
                Err(error) => return Err(NotWritten { file: place, error }),
            }
        }
        Ok(())
    }
}

impl Files for MapFiles {
    ghost use Rattle.std.specs.Prelude.{Some};
    ghost use Rattle.seq_files.specs.Kept.{files_in};

    ghost store = { λ m. Some (files_in m.files.items) };

    fn identify(&self, path: &str) -> Result<String, FileError> {
        Ok(String::from_str(self.alloc, path)?)
    }

    fn try_output(&self, _path: &str) -> Result<(), FileError> {
        Ok(())
    }

    fn read<A: Allocator>(&mut self, alloc: A, path: &str) -> Result<Vec<u8, A>, FileError> {
        self.call()?;
        match self.get(path) {
            Some(bytes) => Ok(bytes.to_vec(alloc)?),
            None => Err(FileError::Fault(FileFault::NotFound)),
        }
    }

    fn write(&mut self, path: &str, bytes: &[u8]) -> Result<(), FileError> {
        self.make(NewFile { path, bytes })
    }

    fn write_all(&mut self, files: &[NewFile<'_, '_>]) -> Result<(), NotWritten> {
        let before = self.files.len();
        let made = self.make_each(files);
        if made.is_err() {
            self.files.truncate(before);
        }
        made
    }

    fn convert<A: Allocator + Clone, C: Convert>(
        &mut self,
        alloc: A,
        source: &str,
        target: &str,
        converter: &mut C,
    ) -> Result<(), NotConverted<C::Refusal>> {
        let bytes = match self.read(self.alloc, source) {
            Ok(bytes) => bytes,
            Err(error) => return Err(NotConverted::Input(error)),
        };
        let mut made = Vec::new(self.alloc);
        match convert_all(alloc, &mut bytes.as_slice(), &mut made, converter) {
            Ok(()) => {}
            Err(error) => return Err(error),
        }
        match self.write(target, made.as_slice()) {
            Ok(()) => Ok(()),
            Err(error) => Err(NotConverted::Output(error)),
        }
    }
}
