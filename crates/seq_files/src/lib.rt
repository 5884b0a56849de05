//! Files and streams as the program's commands use them.
//!
//! [`Files`] is what a command asks of a file system: whole files, read and written by their paths, several of them all or none. [`MapFiles`] has them in memory, counts
//! the calls and lets one of them fail, for tests; so do [`SlowReader`] and [`SlowWriter`]. [`read_all`] reads an input to its end, [`write_text`] writes a text, and [`convert_all`] makes an
//! output of an input piece by piece, by a [`Convert`]. [`find_clash`] finds a file that a command would lose.
#![tactic(auto)]

mod converting;
mod error;
mod files;
mod input;
mod made_file;
mod map_files;
mod new_file;
mod output;
mod slow_streams;
mod used_file;

pub use converting::{Convert, NotConverted, convert_all};
pub use error::{FileError, FileFault, NotWritten};
pub use files::Files;
pub use input::{read_all, read_sized};
pub use made_file::{MadeFile, list_made};
pub use map_files::MapFiles;
pub use new_file::NewFile;
pub use output::write_text;
pub use slow_streams::{FullWriter, SlowReader, SlowWriter};
pub use used_file::{Clash, Use, UsedFile, find_clash};
