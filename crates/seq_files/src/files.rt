//! What a command asks of a file system.
ghost use Rattle.std.specs.Prelude.{◌≡◌, ℕ, List, Option, None, IfOk, IfErr, OnOk, OnErr, map};
ghost use Rattle.std.specs.String.{string_bytes};
ghost use Rattle.seq_files.specs.Store.{Store, Holds, IsNameOf, with_file, with_all, written_of};
ghost use Rattle.seq_files.specs.Converting.{IsMade, IsRefused};

use crate::converting::{Convert, NotConverted};
use crate::error::{FileError, NotWritten};
use crate::new_file::NewFile;
use std::alloc::Allocator;

/// Whole files, by their paths.
pub trait Files {
    /// What each path has, where that is known: the bytes of a file, or none.
    ghost store: { Self → Option Store } = { λ _. None };

    /// The name of the file that a path leads to, links followed: two paths lead to one file exactly where this is the same. `-` is standard input.
    fn identify(&self, path: &str) -> Result<String, FileError>
        ensures name { IfOk result (λ name. IsNameOf (store self.now) path.now (string_bytes name)) };

    /// Whether a file can be written at this path, as far as that can be tried without changing one.
    fn try_output(&self, path: &str) -> Result<(), FileError>;

    /// All bytes of a file.
    fn read<A: Allocator>(&mut self, alloc: A, path: &str) -> Result<Vec<u8, A>, FileError>
        ensures holds { IfOk result (λ bytes. Holds (store self.old) path.now bytes.items) }
        ensures stays { store self.new ≡ store self.old };

    /// Makes a file of these bytes, in place of one that has the path. What fails changes nothing.
    fn write(&mut self, path: &str, bytes: &[u8]) -> Result<(), FileError>
        ensures written { OnOk result (store self.new ≡ with_file (store self.old) path.now bytes.now) }
        ensures stays { OnErr result (store self.new ≡ store self.old) };

    /// Makes these files, in their order, each in place of one that has its path: all of them or none.
    fn write_all(&mut self, files: &[NewFile<'_, '_>]) -> Result<(), NotWritten>
        ensures written { OnOk result (store self.new ≡ with_all (map written_of files.now) (store self.old)) }
        ensures stays { OnErr result (store self.new ≡ store self.old) };

    /// Makes a file of what a converter makes of another, read piece by piece, in place of one that has its path. What fails changes nothing.
    fn convert<A: Allocator + Clone, C: Convert>(
        &mut self,
        alloc: A,
        source: &str,
        target: &str,
        converter: &mut C,
    ) -> Result<(), NotConverted<C::Refusal>>
        requires ready { C.is_ready converter.old }
        ensures made { OnOk result ((made : List ℕ) × IsMade (Holds (store self.old) source.now) (C.makes converter.old) made
            × (store self.new ≡ with_file (store self.old) target.now made)) }
        ensures refused { IfErr result (IsRefused (Holds (store self.old) source.now) (C.refuses converter.old)) }
        ensures stays { OnErr result (store self.new ≡ store self.old) };
}
