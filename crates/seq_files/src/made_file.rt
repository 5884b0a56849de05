//! A file that was made to be written.
ghost use Rattle.std.specs.Prelude.{◌≡◌, ◌++◌, OnOk, map};
ghost use Rattle.seq_files.specs.Store.{written_of, made_of};

use crate::new_file::NewFile;
use std::alloc::{AllocError, Allocator, Global};

/// A file that was made to be written: its path and its bytes.
#[derive(Drop)]
pub struct MadeFile<'p, A: Allocator = Global> {
    pub path: &'p str,
    pub bytes: Vec<u8, A>,
}

/// Adds files that were made to those that are to be written.
#[tactic(auto, using(crate::proofs::Made::made_more))]
pub fn list_made<'p, 'b, A: Allocator, B: Allocator>(
    files: &mut Vec<NewFile<'p, 'b>, B>,
    made: &'b [MadeFile<'p, A>],
) -> Result<(), AllocError>
    ensures { OnOk result (map written_of files.new.items ≡ map written_of files.old.items ++ map made_of made.entry.now) }
{
    for file in made {
        files.push(NewFile {
            path: file.path,
            bytes: file.bytes.as_slice(),
        })?;
    }
    Ok(())
}
