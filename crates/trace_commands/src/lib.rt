//! The commands of the program that work on traces and captures: what each does to files, what it prints, and how it ends.
//!
//! [`check_trace`] judges a trace, [`draw_trace`] draws one, [`capture_trace`] makes one of a capture of a bus, [`write_image`] writes what a die holds after one, and
//! [`take_page`] takes a parameter page of one. Each reads and writes files by [`Files`](seq_files::Files) alone, and writes on a
//! [`Console`](seq_inputs::Console). An [`Ending`](recording::Ending) says how a command ends.
#![tactic(auto)]

mod capturing;
mod check_report;
mod check_verdict;
mod checking;
mod difference_words;
mod draw_request;
mod drawing;
mod fault_words;
mod image_request;
mod image_writing;
mod late_telling;
mod margin_words;
mod page_outputs;
mod page_request;
mod page_taking;
mod remark_words;

pub use capturing::capture_trace;
pub use checking::check_trace;
pub use draw_request::DrawRequest;
pub use drawing::draw_trace;
pub use image_request::ImageRequest;
pub use image_writing::write_image;
pub use page_request::{PageRequest, PageSource};
pub use page_taking::take_page;
