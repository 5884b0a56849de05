//! Microprograms as assembly text (docs/use/ASSEMBLY.md), read and written.
#![tactic(auto)]

mod advice;
mod assembling;
mod bad_operands;
mod bad_place;
mod fields;
mod header_line;
mod heading;
mod labels;
pub mod laws;
mod line;
mod lines;
mod message;
mod names;
mod operands;
mod progress;
mod refusal;
mod second_look;
mod statement;
mod survey;
mod takes;
mod unknown_line;
mod writing;

pub use assembling::assemble;
pub use fields::{before_comment, next_field, one_field};
pub use lines::next_line;
pub use message::AsmMessage;
pub use operands::number_of;
pub use refusal::{AsmFault, AsmRefusal};
pub use writing::disassemble;
