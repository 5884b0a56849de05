//! What is wrong with a recording.
ghost use Rattle.std.specs.Prelude.{◌≡◌, ◌++◌, IfOk, OnOk};
ghost use Rattle.std.specs.String.{string_bytes};
ghost use Rattle.recording.specs.Recordings.{code_of, number_in, fault_line};

use bus_capture::CaptureFault;
use edge_timing::EdgeFault;
use onfi_cycle::Forbidden;
use seq_inputs::{Place, Told, Words, push_refusal_line};
use std::alloc::{AllocError, Global};
use trace_text::TraceFault;
use trace_timing::{TimingFault, TimingFileFault};
use vendor_file::VendorFault;

/// What is wrong with a trace or a capture, and where in it.
#[derive(Clone, Copy, Debug, PartialEq, Eq)]
pub enum RecordingFault {
    /// It isn't the text of a trace, at this line, counted from 1.
    Trace { fault: TraceFault, line: usize },
    /// Its trace isn't legal, by this rule first, at this item, counted from 0.
    Item { rule: Forbidden, item: usize },
    /// The vendor file beside it isn't one, at this line, counted from 1.
    Vendor { fault: VendorFault, line: usize },
    /// It isn't the capture of a bus, in a line, counted from 1, or at a time.
    Capture { fault: CaptureFault },
    /// Its times don't keep those of a chip, at this item, counted from 0.
    Time { fault: TimingFault, item: usize },
    /// An edge of the capture comes too soon after another, at this time; or no two of its edges can be compared.
    Edge { fault: EdgeFault, time: u64 },
    /// The timing file by which its times are judged has this fault, at this line, counted from 1.
    TimingFile { fault: TimingFileFault, line: usize },
    /// An output of a known page gives another byte than its die holds, at this item, counted from 0.
    Output { item: usize },
}

impl RecordingFault {
    /// The code that says what is wrong.
    pub fn code(self) -> &'static str
        ensures { result.now ≡ code_of self }
    {
        match self {
            RecordingFault::Trace { fault, .. } => fault.code(),
            RecordingFault::Item { rule, .. } => rule.code(),
            RecordingFault::Vendor { fault, .. } => fault.code(),
            RecordingFault::Capture { fault } => fault.code(),
            RecordingFault::Time { fault, .. } => fault.code(),
            RecordingFault::Edge { fault, .. } => fault.code(),
            RecordingFault::TimingFile { fault, .. } => fault.code(),
            RecordingFault::Output { .. } => "K1",
        }
    }

    /// The number of the line or of the item, or the time of a capture.
    pub fn number(self) -> usize
        ensures { result ≡ number_in self }
    {
        match self {
            RecordingFault::Trace { line, .. }
            | RecordingFault::Vendor { line, .. }
            | RecordingFault::TimingFile { line, .. } => line,
            RecordingFault::Item { item, .. }
            | RecordingFault::Time { item, .. }
            | RecordingFault::Output { item } => item,
            RecordingFault::Capture { fault } => fault.number(),
            RecordingFault::Edge { time, .. } => time as usize,
        }
    }

    // Where it stands, but for its line.
    fn place(self) -> Option<Place> {
        match self {
            // What is wrong with all of the times is said of no item.
            RecordingFault::Time {
                fault: TimingFault::NoTimes,
                ..
            }
            | RecordingFault::Edge {
                fault: EdgeFault::Pause(TimingFault::NoTimes),
                ..
            } => None,
            RecordingFault::Item { item, .. }
            | RecordingFault::Time { item, .. }
            | RecordingFault::Output { item } => Some(Place::Item(item)),
            RecordingFault::Capture {
                fault: CaptureFault::Bus { time, .. },
            }
            | RecordingFault::Edge { time, .. } => Some(Place::Time(time)),
            RecordingFault::Capture {
                fault: CaptureFault::File(_) | CaptureFault::Role(_),
            }
            | RecordingFault::Trace { .. }
            | RecordingFault::Vendor { .. }
            | RecordingFault::TimingFile { .. } => None,
        }
    }

    /// Adds the line that says it.
    pub fn push_line(self, lines: &mut String) -> Result<(), AllocError>
        ensures { OnOk result (string_bytes lines.new ≡ string_bytes lines.old ++ fault_line self) }
    {
        push_refusal_line(lines, self.code(), self.number())
    }

    /// The line that says it.
    pub fn text(self, alloc: Global) -> Result<String, AllocError>
        ensures { IfOk result (λ line. string_bytes line ≡ fault_line self) }
    {
        let mut line = String::new(alloc);
        self.push_line(&mut line)?;
        Ok(line)
    }

    /// What these words say of it, for a tool.
    pub fn tell<'a>(self, words: &'a Words<'a>) -> Told<'a, String> {
        Told {
            code: Some(self.code()),
            path: words.path,
            line: words.line,
            place: self.place(),
            time: words.time,
            message: &words.text,
        }
    }
}
