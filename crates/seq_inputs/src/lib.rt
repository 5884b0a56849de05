//! What every command of the program stands on: what it reads and what is wrong with that, where it writes, and how it ends.
//!
//! Files are read by [`Files`](seq_files::Files) alone: parameter pages, word files, and microprograms as an assembly text or a word file. A
//! [`Fault`] has its code and its number; a [`Refusal`] is one that a command tells, and has the line that says it; a [`Stop`] is why a command isn't done,
//! with words for people. [`fail`] and [`finish`] end a command on its [`Console`], and an [`Exit`] has the status.
#![tactic(auto)]

mod console;
mod counted;
mod ending;
mod exit;
mod explaining;
mod fault;
mod headed;
mod lines;
mod page_file;
mod reading;
mod refusal;
mod stop;
mod style;
mod told;
mod words;

pub use console::Console;
pub use counted::{CountedHeader, say_counted};
pub use ending::{end_without_memory, fail, fail_as, finish, say_words};
pub use exit::Exit;
pub use explaining::{words_of, words_of_job, words_of_note, words_of_reason};
pub use fault::Fault;
pub use headed::{Headed, is_headless, read_headed, with_least_header};
pub use lines::{push_end_line, push_refusal_line};
pub use page_file::PageFile;
pub use reading::{
    VerifiedProgram, geometry_as, geometry_at, geometry_in, is_source, read_file, read_program,
    read_source, read_words, text_of, try_file, verified_at, verify_program, words_at, write_file,
    write_files,
};
pub use refusal::Refusal;
pub use stop::{MOST_BUFFER_BYTES, Stop};
pub use style::Style;
pub use told::{Place, Quoted, Told};
pub use words::Words;
