//! The commands about parameter pages: what one declares ([`show_page`]), and one for a chip that is described by numbers ([`make_page`]).
//!
//! What is promised of them stands in `specs/Pages`. Nothing is promised of the words.
#![tactic(auto)]

mod copies;
mod declared;
mod making;
mod optional_parts;
mod showing;

pub use making::make_page;
pub use optional_parts::declared_by;
pub use showing::show_page;
