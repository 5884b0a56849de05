//! Whether the times of a recorded trace keep the pauses of a datasheet or of a timing mode (ONFI 4.x, Timing Parameters).
//!
//! [`find_violations`] goes over the items of a trace, each with its time, and tells what comes too soon ([`Violation`]), exactly as `specs/Watch` defines it.
//! [`timings_of`] has the timing modes 0 to 5, [`longest_of`] the most times of work, and [`Margins`] how near a trace comes to each time. [`ModelClock`] gives
//! times to a trace that was modelled. Which pauses there are is `onfi_pauses`.
#![tactic(auto)]

mod busy_time;
mod clock;
mod file;
mod margins;
mod model_clock;
mod modes;
mod page_times;
mod timing_fault;
mod timings;
mod violation;
mod watch;

pub use busy_time::{BusyTime, LongestTimes, longest_of};
pub use clock::{Clock, Pair};
pub use file::{TimingFile, TimingFileFault, TimingFileRefusal, read_timing_file, read_timings};
pub use margins::{Margins, Nearest};
pub use model_clock::ModelClock;
pub use modes::{TimingMode, timings_of};
pub use page_times::PageTimes;
pub use timing_fault::TimingFault;
pub use timings::{Timings, Want};
pub use violation::Violation;
pub use watch::{Ruler, TimedItem, Watch, find_violations};
