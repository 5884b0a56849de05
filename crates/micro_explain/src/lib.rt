//! What stands behind the verifier's refusal of a word, so that its author can mend the program.
//!
//! [`explain`] takes a text, its geometry and the fault that the verifier found (`micro_walk`), and tells the [`Cause`] of the fault, which displays
//! itself: it goes after the words of the fault's reason. It looks at what the verifier knows before the refused word, and tells which of the tests
//! of the reason stands (`micro_claims`, `reasons`). Which words before it had a part in that is looked up in the order of the text (`history`),
//! and in loops in the turn before. What another crate needs of that is public: [`status_shown_by`] and [`turn_around`].
#![tactic(auto)]

mod address_cause;
mod alignment_cause;
mod barred_cause;
mod busy;
mod cache_cause;
mod cause;
mod column_cause;
mod command_at;
mod command_cause;
mod copy_cause;
mod emptied;
mod explaining;
mod header_number;
mod history;
mod loops;
mod lun_cause;
mod need;
mod no_driver;
mod open;
mod output_cause;
mod outside;
mod plane_cause;
mod poll_at;
mod poll_word;
mod program_cause;
mod queue_cause;
mod read_column_cause;
mod refused;
mod rows_cause;
mod shape_cause;
mod unready_cause;
mod wanted;

pub use address_cause::AddressCause;
pub use alignment_cause::AlignmentCause;
pub use barred_cause::BarredCause;
pub use busy::Busy;
pub use cache_cause::CacheCause;
pub use cause::Cause;
pub use column_cause::ColumnCause;
pub use command_at::{CommandAt, command_of};
pub use command_cause::CommandCause;
pub use copy_cause::CopyCause;
pub use emptied::Emptied;
pub use explaining::explain;
pub use header_number::HeaderNumber;
pub use history::status_shown_by;
pub use loops::{Turn, loop_around, next_around, turn_around};
pub use lun_cause::LunCause;
pub use need::Need;
pub use no_driver::NoDriver;
pub use open::Open;
pub use output_cause::{Anew, OutputCause};
pub use plane_cause::PlaneCause;
pub use poll_at::PollAt;
pub use poll_word::PollWord;
pub use program_cause::ProgramCause;
pub use queue_cause::QueueCause;
pub use read_column_cause::ReadColumnCause;
pub use rows_cause::RowsCause;
pub use shape_cause::ShapeCause;
pub use unready_cause::UnreadyCause;
