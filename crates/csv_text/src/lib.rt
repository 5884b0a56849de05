//! Captures of logic analyzers as CSV, read as changes of signals: the export of Saleae Logic 2 or of DSView, with a row at each change, and that of sigrok-cli
//! and PulseView, with a row at each sample.
#![tactic(auto)]

mod body;
mod fields;
mod form;
mod heading;
mod rows;
mod table;
mod times;
mod unit;

pub use body::{Body, Standing};
pub use fields::Fields;
pub use form::Form;
pub use rows::{Row, Rows, is_note, whole_lines_len};
pub use table::{Table, open_table, read_table};
pub use times::{Moment, moment_of};
pub use unit::find_unit;
