//! By what the edges of a capture are judged.
ghost use Rattle.std.specs.Prelude.{◌≡◌, IfOk, IfErr};
ghost use Rattle.recording.specs.Endings.{SaysOf};
ghost use Rattle.recording.specs.Times.{RefusesTiming};
ghost use Rattle.edge_timing.specs.Times.{AreEdgeBounded};

use bus_capture::CaptureForm;
use edge_timing::{EdgeTimes, find_unit};
use recording::{RecordingStop, TimingSource, timing_file_at};
use seq_files::Files;
use std::alloc::Global;
use trace_timing::PageTimes;

/// The least times that are asked for, for a chip whose page has these.
pub(crate) fn edge_times_at<'p, F: Files>(
    alloc: Global,
    files: &mut F,
    page: PageTimes,
    source: TimingSource<'p>,
) -> Result<EdgeTimes, RecordingStop<'p>>
    ensures bounded { IfOk result (λ t. AreEdgeBounded t) }
    ensures err { IfErr result (SaysOf (λ _. ⊥) (RefusesTiming (F.store files.old) source.entry)) }
    ensures stays { F.store files.new ≡ F.store files.old }
{
    match source {
        TimingSource::Mode(mode) => Ok(EdgeTimes::of_mode(mode, page)),
        TimingSource::File(path) => {
            let file = timing_file_at(alloc, files, path)?;
            Ok(EdgeTimes::of_file(&file, page))
        }
    }
}

/// Who says how many femtoseconds 1 of a time of a capture is.
#[derive(Clone, Copy, Debug, PartialEq, Eq)]
pub(crate) enum TimeScale {
    /// The capture does, or the caller, or both say the same.
    Told(u64),
    /// Nobody does.
    Untold,
    /// The capture says this, and the caller another.
    Contradicted(u64),
}

impl TimeScale {
    /// Of a capture, where the caller says this.
    pub(crate) fn of(given: Option<u64>, form: CaptureForm, capture: &[u8]) -> TimeScale {
        match (given, find_unit(form, capture)) {
            (None, None) => TimeScale::Untold,
            (Some(unit), None) | (None, Some(unit)) => TimeScale::Told(unit),
            (Some(given), Some(unit)) => {
                if given == unit {
                    TimeScale::Told(unit)
                } else {
                    TimeScale::Contradicted(unit)
                }
            }
        }
    }
}
