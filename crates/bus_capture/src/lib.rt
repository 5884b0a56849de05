//! A capture of the bus of a channel, read as a trace.
#![tactic(auto)]

mod ahead;
mod dump_reader;
mod fault;
mod inferring;
mod laws;
mod levels;
mod lun_ahead;
mod reading;
mod sampler;
mod sampling;
mod spans;
mod table_reader;
mod tracer;

pub use fault::{BusFault, CaptureFault, CaptureRefusal};
pub use inferring::Stamped;
pub use laws::keeps_front;
pub use levels::Levels;
pub use reading::{Capture, CaptureForm, CaptureReader, Setup, read_capture};
pub use sampler::{Observation, Observed};
pub use sampling::{Seen, Strobe, seen_of};
