//! Files of a trace: its text, its value change dump, and its picture or a page with it.
//!
//! [`make_drawing`] draws a trace in a [`DrawForm`], and [`make_files`] makes the files that [`TraceOutputs`] name. Nothing is written here.
#![tactic(auto)]

mod draw_form;
mod drawing;
mod making;
mod outputs;

pub use draw_form::DrawForm;
pub use drawing::make_drawing;
pub use making::make_files;
pub use outputs::{Drawing, TraceOutputs};
