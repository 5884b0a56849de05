//! Text from files, and paths, as messages for people show it: cut off where it is long, and without a character that does something to a terminal.
//! And what the messages about several formats have in common: the fields of a line, what is wrong with its characters, and which name a misspelt
//! word was meant to be.
#![tactic(auto)]

mod blanks;
mod characters;
mod edits;
mod escaped;
mod fields;
mod line_trouble;
mod lines;
mod meant;
mod shown;

pub use blanks::Blanks;
pub use edits::is_near;
pub use escaped::Escaped;
pub use fields::{Fields, is_foreign_comment};
pub use line_trouble::LineTrouble;
pub use lines::{line_at, lines_before};
pub use meant::Meant;
pub use shown::Shown;
