//! The files of the system. A file comes whole or not at all, several of them all or none, as far as the system allows, and no file is touched that
//! isn't asked for.

ghost use Rattle.std.specs.Prelude.{List, ℕ, ⊤, IfErr, OnOk};
ghost use Rattle.seq_files.specs.Converting.{IsMade, IsRefused};

use crate::file_names::{folder_of, read_path};
use seq_files::{
    Convert, FileError, FileFault, Files, NewFile, NotConverted, NotWritten, convert_all,
    read_sized,
};
use std::alloc::{Allocator, Global};
use std::fs::{self, Metadata, OpenFile, OpenOptions, Permissions};
use std::io::{self, ErrorKind, Write};
use std::os::unix::fs::MetadataExt;
use std::path::PathBuf;
use std::rt;

// How many names are tried for a file in the making: killed runs may have left some.
const MOST_NAMES: usize = 1_000;

/// The files of the system.
#[derive(Clone, Copy)]
pub struct RealFiles<'a, R: rt::Files> {
    pub(crate) system: &'a R,
    pub(crate) alloc: Global,
}

// A file in the making, and the path that it is to have.
#[derive(Drop)]
struct Part {
    name: String,
    path: String,
}

// A part that isn't whole yet, and the permissions that it is to have.
#[derive(Drop)]
struct Begun<F> {
    part: Part,
    file: F,
    permissions: Option<Permissions>,
}

// A file whose bytes are in its part; one without a part is written into.
#[derive(Drop)]
struct Prepared<'p, 'b> {
    file: NewFile<'p, 'b>,
    part: Option<Part>,
}

// Why a file isn't written.
fn output_error(error: &io::Error) -> FileError {
    match error.kind() {
        ErrorKind::NotFound => FileError::Fault(FileFault::NoFolder),
        _ => FileError::of(error),
    }
}

// The file can't be made in its folder, though what stands there may still be written.
fn is_closed_folder(kind: ErrorKind) -> bool {
    matches!(
        kind,
        ErrorKind::PermissionDenied | ErrorKind::ReadOnlyFilesystem
    )
}

// How long a plain file is; what is none, as a device or a pipe, has no length.
fn length_of<F: OpenFile>(file: &F) -> usize {
    match file.metadata() {
        Ok(found) if found.is_file() => usize::try_from(found.len()).unwrap_or(usize::MAX),
        _ => 0,
    }
}

// Has the system keep a new file, with these permissions.
fn keep_file<F: OpenFile>(file: &mut F, permissions: Option<Permissions>) -> io::Result<()> {
    if let Some(permissions) = permissions {
        file.set_permissions(permissions)?;
    }
    file.sync_all()
}

impl<'a, R: rt::Files> RealFiles<'a, R> {
    /// The files of this system; names of files in the making are made with the allocator.
    pub fn new(system: &'a R, alloc: Global) -> RealFiles<'a, R> {
        RealFiles { system, alloc }
    }

    // Whether standard output goes to a file: what is written into both would be lost.
    fn is_output(&self, file: &Metadata) -> bool {
        match fs::metadata(self.system, "/dev/stdout") {
            Ok(output) => output.dev() == file.dev() && output.ino() == file.ino(),
            Err(_) => false,
        }
    }

    // Makes a file in the making in a folder, under a name that nothing has: one with this number or the next that is free.
    fn make_part(&self, folder: &str, first: usize) -> io::Result<(String, R::File)> {
        for tried in 0..MOST_NAMES {
            let number = first.saturating_add(tried);
            let part = format!(in self.alloc; "{folder}.onfiseq-part-{number}")?;
            let made = OpenOptions::new()
                .write(true)
                .create_new(true)
                .open(self.system, part.as_str());
            match made {
                Ok(file) => return Ok((part, file)),
                Err(error) if error.kind() == ErrorKind::AlreadyExists => {}
                Err(error) => return Err(error),
            }
        }
        Err(io::Error::from(ErrorKind::AlreadyExists))
    }

    // An empty file in the making for this path, which is that of the file of this place among several; it is to have these permissions.
    fn begin_part(
        &self,
        path: &str,
        place: usize,
        permissions: Option<Permissions>,
    ) -> io::Result<Begun<R::File>> {
        let path = String::from_str(self.alloc, path)?;
        let (name, file) = self.make_part(folder_of(path.as_str()), place)?;
        Ok(Begun {
            part: Part { name, path },
            file,
            permissions,
        })
    }

    // Removes a file in the making.
    fn remove_part(&self, part: &Part) {
        let _ = fs::remove_file(self.system, part.name.as_str());
    }

    // Writes into what has the path, as a shell does.
    fn write_into(&self, path: &str, bytes: &[u8]) -> io::Result<()> {
        let mut file = OpenOptions::new()
            .write(true)
            .create(true)
            .truncate(true)
            .open(self.system, path)?;
        file.write_all(bytes)
    }

    // The path of a file itself, all links to it followed.
    fn resolve_links(&self, path: &str) -> io::Result<PathBuf> {
        self.system.canonicalize(self.alloc, path)
    }

    // A file in the making in place of another, with its permissions; none in a folder where none can be made.
    fn begin_anew(
        &self,
        place: usize,
        path: &str,
        old: &Metadata,
    ) -> io::Result<Option<Begun<R::File>>> {
        if self.is_output(old) {
            return Err(io::Error::from(ErrorKind::InvalidInput));
        }
        let behind = self.resolve_links(path)?;
        match self.begin_part(behind.as_str(), place, Some(old.permissions())) {
            Ok(begun) => Ok(Some(begun)),
            Err(error) if is_closed_folder(error.kind()) => Ok(None),
            Err(error) => Err(error),
        }
    }

    // A file in the making where none was; none where a link leads nowhere, since what it leads to is made.
    fn begin_first(&self, place: usize, path: &str) -> io::Result<Option<Begun<R::File>>> {
        if fs::symlink_metadata(self.system, path).is_ok() {
            return Ok(None);
        }
        Ok(Some(self.begin_part(path, place, None)?))
    }

    // The file in the making for this path, or none where what has the path is written into.
    fn begin(&self, place: usize, path: &str) -> io::Result<Option<Begun<R::File>>> {
        match fs::metadata(self.system, path) {
            Ok(old) if old.is_file() => self.begin_anew(place, path, &old),
            Ok(_) => Ok(None),
            Err(error) if error.kind() == ErrorKind::NotFound => self.begin_first(place, path),
            Err(error) => Err(error),
        }
    }

    // Has the system keep a file in the making that is whole; where that fails it is removed.
    fn keep_part(&self, begun: Begun<R::File>) -> io::Result<Part> {
        let Begun {
            part,
            mut file,
            permissions,
        } = begun;
        match keep_file(&mut file, permissions) {
            Ok(()) => Ok(part),
            Err(error) => {
                self.remove_part(&part);
                Err(error)
            }
        }
    }

    // Fills a file in the making; where that fails it is removed.
    fn fill_part(&self, mut begun: Begun<R::File>, bytes: &[u8]) -> io::Result<Part> {
        match begun.file.write_all(bytes) {
            Ok(()) => self.keep_part(begun),
            Err(error) => {
                self.remove_part(&begun.part);
                Err(error)
            }
        }
    }

    // The filled file in the making for this path, or none where what has the path is written into.
    fn prepare(&self, place: usize, file: NewFile<'_, '_>) -> io::Result<Option<Part>> {
        match self.begin(place, file.path)? {
            Some(begun) => Ok(Some(self.fill_part(begun, file.bytes)?)),
            None => Ok(None),
        }
    }

    // Prepares one of several files.
    fn prepare_one<'p, 'b>(
        &self,
        prepared: &mut Vec<Prepared<'p, 'b>>,
        place: usize,
        file: NewFile<'p, 'b>,
    ) -> Result<(), FileError> {
        let part = match self.prepare(place, file) {
            Ok(part) => part,
            Err(error) => return Err(output_error(&error)),
        };
        match prepared.push(Prepared { file, part }) {
            Ok(()) => Ok(()),
            Err(failed) => {
                self.remove_parts(&[failed.value]);
                Err(FileError::OutOfMemory)
            }
        }
    }

    // Prepares one file after the other, up to one that can't be prepared.
    fn prepare_each<'p, 'b>(
        &self,
        prepared: &mut Vec<Prepared<'p, 'b>>,
        files: &[NewFile<'p, 'b>],
    ) -> Result<(), NotWritten> {
        for place in 0..files.len() {
            if let Err(error) = self.prepare_one(prepared, place, files[place]) {
                return Err(NotWritten { file: place, error });
            }
        }
        Ok(())
    }

    // Removes the files in the making.
    fn remove_parts(&self, prepared: &[Prepared<'_, '_>]) {
        for one in prepared {
            if let Some(part) = &one.part {
                self.remove_part(part);
            }
        }
    }

    // Writes into a file that has no part.
    fn write_open(&self, one: &Prepared<'_, '_>) -> io::Result<()> {
        match one.part {
            None => self.write_into(one.file.path, one.file.bytes),
            Some(_) => Ok(()),
        }
    }

    // Gives a part its path.
    fn rename_part(&self, part: &Part) -> io::Result<()> {
        fs::rename(self.system, part.name.as_str(), part.path.as_str())
    }

    // Gives the part of a file its path, if it has one.
    fn put_in_place(&self, one: &Prepared<'_, '_>) -> io::Result<()> {
        match &one.part {
            Some(part) => self.rename_part(part),
            None => Ok(()),
        }
    }

    // Writes into the files that have no part. Where that fails, all parts are removed.
    fn write_open_ones(&self, prepared: &[Prepared<'_, '_>]) -> Result<(), NotWritten> {
        for place in 0..prepared.len() {
            if let Err(error) = self.write_open(&prepared[place]) {
                self.remove_parts(prepared);
                let error = output_error(&error);
                return Err(NotWritten { file: place, error });
            }
        }
        Ok(())
    }

    // Gives the parts their paths. Where that fails, those that have none yet are removed.
    fn put_all_in_place(&self, prepared: &[Prepared<'_, '_>]) -> Result<(), NotWritten> {
        for place in 0..prepared.len() {
            if let Err(error) = self.put_in_place(&prepared[place]) {
                self.remove_parts(&prepared[place..]);
                let error = output_error(&error);
                return Err(NotWritten { file: place, error });
            }
        }
        Ok(())
    }

    // Fills a part for each file before the first of them gets its path.
    fn write_each(&self, files: &[NewFile<'_, '_>]) -> Result<(), NotWritten> {
        let mut prepared = Vec::new(self.alloc);
        if let Err(refused) = self.prepare_each(&mut prepared, files) {
            self.remove_parts(prepared.as_slice());
            return Err(refused);
        }
        self.write_open_ones(prepared.as_slice())?;
        self.put_all_in_place(prepared.as_slice())
    }
}

impl<'a, R: rt::Files> RealFiles<'a, R> {
    // Opens a file for reading.
    fn open(&self, path: &str) -> io::Result<R::File> {
        fs::open(self.system, read_path(path))
    }

    // Whether a file can be written at this path: a file in the making is made for it and removed again.
    fn try_begin(&self, path: &str) -> io::Result<()> {
        if fs::metadata(self.system, path).is_ok_and(|found| found.is_dir()) {
            return Err(io::Error::from(ErrorKind::IsADirectory));
        }
        match self.begin(0, path)? {
            Some(begun) => {
                self.remove_part(&begun.part);
                Ok(())
            }
            None => self.find_folder(path),
        }
    }

    // Gives a file in the making that is whole its path; where that fails it is removed.
    fn end_part(&self, begun: Begun<R::File>) -> io::Result<()> {
        let part = self.keep_part(begun)?;
        let renamed = self.rename_part(&part);
        if renamed.is_err() {
            self.remove_part(&part);
        }
        renamed
    }

    // Fills a file in the making by a converter. Where that fails it is removed.
    fn convert_part<A: Allocator + Clone, C: Convert>(
        &self,
        alloc: A,
        input: &mut R::File,
        mut begun: Begun<R::File>,
        converter: &mut C,
    ) -> Result<(), NotConverted<C::Refusal>>
        requires ready { C.is_ready converter.old }
        ensures made { OnOk result ((made : List ℕ) × IsMade (λ input. ⊤) (C.makes converter.old) made) }
        ensures refused { IfErr result (IsRefused (λ input. ⊤) (C.refuses converter.old)) }
    {
        match convert_all(alloc, input, &mut begun.file, converter) {
            Ok(()) => match self.end_part(begun) {
                Ok(()) => Ok(()),
                Err(error) => Err(NotConverted::Output(output_error(&error))),
            },
            Err(error) => {
                self.remove_part(&begun.part);
                Err(error)
            }
        }
    }

    // Writes what a converter makes into what has the path, once it is whole.
    fn convert_into<A: Allocator + Clone, C: Convert>(
        &self,
        alloc: A,
        input: &mut R::File,
        path: &str,
        converter: &mut C,
    ) -> Result<(), NotConverted<C::Refusal>>
        requires ready { C.is_ready converter.old }
        ensures made { OnOk result ((made : List ℕ) × IsMade (λ input. ⊤) (C.makes converter.old) made) }
        ensures refused { IfErr result (IsRefused (λ input. ⊤) (C.refuses converter.old)) }
    {
        let mut made = Vec::new(self.alloc);
        match convert_all(alloc, input, &mut made, converter) {
            Ok(()) => match self.write_into(path, made.as_slice()) {
                Ok(()) => Ok(()),
                Err(error) => Err(NotConverted::Output(output_error(&error))),
            },
            Err(error) => Err(error),
        }
    }
}

impl<'a, R: rt::Files> Files for RealFiles<'a, R> {
    fn identify(&self, path: &str) -> Result<String, FileError> {
        match self.name_file(path) {
            Ok(name) => Ok(name),
            Err(error) => Err(FileError::of(&error)),
        }
    }

    fn try_output(&self, path: &str) -> Result<(), FileError> {
        match self.try_begin(path) {
            Ok(()) => Ok(()),
            Err(error) => Err(output_error(&error)),
        }
    }

    fn read<A: Allocator>(&mut self, alloc: A, path: &str) -> Result<Vec<u8, A>, FileError> {
        let mut file = self.open(path)?;
        let length = length_of(&file);
        read_sized(alloc, &mut file, length)
    }

    fn write(&mut self, path: &str, bytes: &[u8]) -> Result<(), FileError> {
        match self.write_each(&[NewFile { path, bytes }]) {
            Ok(()) => Ok(()),
            Err(NotWritten { error, .. }) => Err(error),
        }
    }

    fn write_all(&mut self, files: &[NewFile<'_, '_>]) -> Result<(), NotWritten> {
        self.write_each(files)
    }

    fn convert<A: Allocator + Clone, C: Convert>(
        &mut self,
        alloc: A,
        source: &str,
        target: &str,
        converter: &mut C,
    ) -> Result<(), NotConverted<C::Refusal>> {
        let mut input = match self.open(source) {
            Ok(input) => input,
            Err(error) => return Err(NotConverted::Input(FileError::of(&error))),
        };
        match self.begin(0, target) {
            Ok(Some(begun)) => self.convert_part(alloc, &mut input, begun, converter),
            Ok(None) => self.convert_into(alloc, &mut input, target, converter),
            Err(error) => Err(NotConverted::Output(output_error(&error))),
        }
    }
}
