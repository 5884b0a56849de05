//! What is known of a program before a word, what is against the word then, and what is known after it.
//!
//! What is known is a [`State`]: of the [`Registers`] of the program, of its target ([`KnownTarget`]) and of its LUN ([`KnownLun`]), each part
//! a type in the file of its name with what words and loops do to it. [`State::reason_against`] tells what is against a word (`reasons`), and
//! [`State::after`] what is known after it (`after_word`, and by it `after_command` and `after_addresses`). [`State::is_within`] compares
//! what two states claim, and [`State::join`] is what both claim.
//!
//! The definitions stand in `specs/`: numbers with their bounds (`Spans`), sets of planes (`Planes`), what is known (`State`), pages to be copied (`Copies`), the tests
//! (`Against`), the reasons against a word (`Reasons`), what it leaves (`Leaves`), lines that are accepted one by one (`Accepts`), which
//! state claims less (`Order`), what two states both claim (`Joins`), and certificates of texts with loops (`Certificate`). The law is that
//! lines which are accepted from the first state are safe.
#![tactic(auto)]

mod after_addresses;
mod after_command;
mod after_word;
mod bounds;
mod cached_page;
mod copies;
mod drift;
mod flags;
mod grows;
mod growth;
mod held;
mod known_lun;
mod known_target;
mod last_closer;
pub mod laws;
mod limits;
mod loop_place;
mod named_row;
mod output_column;
mod page_range;
mod place;
mod planes;
mod queued_rows;
mod reasons;
mod refusal;
mod registers;
mod shown;
mod span;
mod state;

pub use bounds::Bounds;
pub use cached_page::CachedPage;
pub use copies::Copies;
pub use drift::{Drift, IndexMove};
pub use growth::Growth;
pub use held::Held;
pub use known_lun::KnownLun;
pub use known_target::KnownTarget;
pub use last_closer::LastCloser;
pub use limits::{bound_plus, is_at_most};
pub use loop_place::LoopPlace;
pub use named_row::NamedRow;
pub use output_column::OutputColumn;
pub use page_range::PageRange;
pub use place::{Place, first_address};
pub use planes::Planes;
pub use queued_rows::QueuedRows;
pub use reasons::cost;
pub use refusal::{Fault, Reason};
pub use registers::Registers;
pub use shown::Shown;
pub use span::Span;
pub use state::State;
