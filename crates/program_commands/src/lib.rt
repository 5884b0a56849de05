//! The commands of the program that work on microprograms: what each does to files, what it prints, and how it ends.
//!
//! Each command is a function; it reads and writes files by [`Files`](seq_files::Files) alone, and writes on a [`Console`](seq_inputs::Console). What a
//! command may be refused for, and how it ends, stands in `seq_inputs`.
#![tactic(auto)]

mod assembling;
mod assembling_for;
mod disassembling;
mod explained;
mod explaining;
mod header_lines;
mod json_lines;
mod lint_ending;
mod lint_request;
mod linting;
mod note_rules;
mod noting;
mod paged_program;
mod shown_run;
mod text_lines;
mod upgrading;
mod verify_request;
mod verifying;

pub use assembling::assemble_file;
pub use assembling_for::assemble_file_for;
pub use disassembling::disassemble_file;
pub use explaining::explain_file;
pub use lint_ending::LintEnding;
pub use lint_request::LintRequest;
pub use linting::{LintOutput, lint_file};
pub use note_rules::NoteRules;
pub use upgrading::upgrade_file;
pub use verify_request::VerifyRequest;
pub use verifying::verify_file;
