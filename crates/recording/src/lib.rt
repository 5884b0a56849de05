//! Recordings of a bus: reading traces and captures with what stands beside them, and judging traces.
//!
//! [`judge_trace`] reads the trace of a [`CheckRequest`] once, passes over a vendor's sequences, and judges what is left by each question that is asked: the rules, the
//! times, the data. What it finds stands at its place in the trace. [`see_capture`] reads a capture. A [`RecordingFault`] is what can be wrong with a recording, a
//! [`RecordingStop`] why nothing is judged, and an [`Ending`] how a command on a recording ends.
#![tactic(auto)]

mod capture_converter;
mod capture_reading;
mod capture_request;
mod capture_unit;
mod capture_words;
mod check_request;
mod data_judging;
mod data_request;
mod echoed_statuses;
mod ending;
mod explained_fault;
mod explaining;
mod kept_capture;
mod kept_trace;
mod late_judging;
mod late_words;
mod latest_lines;
mod line_cursor;
mod mappings;
mod messages;
mod nanoseconds;
mod opening;
mod passed_amount;
mod past_watcher;
mod places;
mod recording_fault;
mod recording_stop;
mod remarks;
mod rules_judging;
mod tally;
mod targets;
mod time_rulers;
mod times_request;
mod timing_reading;
mod trace_judging;
mod trace_reading;
mod trace_request;
mod trace_view;
mod vendor_sequences;

pub use capture_converter::{CaptureConverter, CaptureTally, items_seen, push_text};
pub use capture_reading::see_capture;
pub use capture_request::CaptureRequest;
pub use capture_unit::{TimeUnit, unit_of};
pub use capture_words::words_of_fault;
pub use check_request::CheckRequest;
pub use data_request::{DataRequest, GivenImage};
pub use echoed_statuses::count_echoes;
pub use ending::Ending;
pub use explaining::{words_at_item, words_of_item};
pub use kept_capture::{KeptCapture, seen_at};
pub use kept_trace::{KeptTrace, keep_items, keep_timed};
pub use late_words::LateItem;
pub use line_cursor::{ItemLine, ItemLines, LineCursor};
pub use mappings::mappings_of;
pub use messages::{push_at_item, push_message};
pub use nanoseconds::{JsonNanoseconds, Nanoseconds};
pub use passed_amount::PassedAmount;
pub use past_watcher::MOST_SAID;
pub use recording_fault::RecordingFault;
pub use recording_stop::{RecordingStop, end_stopped};
pub use remarks::Remarks;
pub use tally::Tally;
pub use targets::Targets;
pub use times_request::{TimesRequest, TimingSource, undeclared_mode};
pub use timing_reading::timing_file_at;
pub use trace_judging::{CheckedTrace, judge_trace};
pub use trace_reading::{read_items, read_timed};
pub use trace_request::TraceRequest;
pub use trace_view::TraceView;
pub use vendor_sequences::{LINUX, steps_at};
