//! Traces as text: [`print`] writes one line for each item, and [`parse`] reads these lines and nothing else. [`parse_recorded`] reads the same lines
//! out of a person's own log, with comments, blanks and times, and [`print_recorded`] writes them with times.
//!
//! A line is ended by a line feed, and its fields stand apart by single spaces:
//!
//! ```text
//! CE K XX          a cycle: K is C (command), A (address), I (input) or O (output), XX its byte
//! CE R LUN FAIL    a LUN becomes ready, with failure (1) or without (0); in the profile onfi 2 is a failure of the page before, and 3 are both
//! CE Y LUN         the array of a LUN becomes ready
//! CE Y LUN 1       the same with failure, in the profile onfi
//! ```
//!
//! CE and LUN are one digit from 0 to 3, and XX is two hexadecimal digits in lower case.
#![tactic(auto)]

mod bad_number;
mod bad_shape;
mod checking;
mod data_run;
mod form;
mod item_fields;
pub mod laws;
mod line;
mod line_advice;
mod message;
mod parsing;
mod printing;
mod progress;
mod recorded_advice;
mod recorded_item;
mod recorded_lines;
mod recorded_printing;
mod recorded_reading;
mod refusal;
mod slip;
mod time;
mod timed_reading;
mod words;

pub use checking::{CheckRefusal, check, check_watched, first_broken};
pub use form::{TraceForm, parse_as};
pub use message::TraceMessage;
pub use parsing::{parse, parse_in};
pub use printing::{is_printable, print, print_bytes};
pub use progress::{CheckProgress, NoProgress};
pub use recorded_item::{RecordedItem, TimedItem};
pub use recorded_printing::{is_recording_printable, print_recorded};
pub use recorded_reading::{find_item, parse_recorded, parse_recorded_in};
pub use refusal::{TraceFault, TraceRefusal};
pub use timed_reading::parse_timed;
