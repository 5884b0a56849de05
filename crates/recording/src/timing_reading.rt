//! Reading the times by which a trace is judged.
ghost use Rattle.std.specs.Prelude.{◌≡◌, IfOk, IfErr, OnOk};
ghost use Rattle.trace_timing.specs.Longest.{AreFinite};
ghost use Rattle.trace_timing.specs.PageTimes.{times_in};
ghost use Rattle.trace_timing.specs.Wanted.{AreBounded};
ghost use Rattle.recording.specs.Endings.{SaysOf};
ghost use Rattle.recording.specs.Times.{AreTimings, AreLongest, IsTimingFile, RefusesTiming, RefusesTimes, ruler_of, busy_ruler_of, AreRulersOf, AreRulers, AreUsable};
ghost use Rattle.recording.specs.declared.times_request.TimingSource.TheVariants.{File};
ghost use Rattle.busy_times.specs.Overruns.{AreJudgeable};

use crate::recording_fault::RecordingFault;
use crate::recording_stop::RecordingStop;
use crate::time_rulers::TimeRulers;
use crate::times_request::{TimesRequest, TimingSource};
use busy_times::BusyRuler;
use nand_geometry::Geometry;
use seq_files::Files;
use seq_inputs::{Words, read_file, text_of};
use std::alloc::Global;
use trace_timing::{
    LongestTimes, PageTimes, Ruler, TimingFile, TimingFileRefusal, Timings, longest_of,
    read_timing_file, timings_of,
};

// The least times between cycles, and the most of work.
#[derive(Clone, Copy)]
struct Limits {
    timings: Timings,
    longest: LongestTimes,
}

// The fault of a timing file.
fn fault_of(refusal: TimingFileRefusal) -> RecordingFault
    ensures { result ≡ RecordingFault.TimingFile refusal.fault refusal.line }
{
    let TimingFileRefusal { fault, line } = refusal;
    RecordingFault::TimingFile { fault, line }
}

// What is said of it.
fn words_of<'p>(alloc: Global, path: &'p str, refusal: TimingFileRefusal) -> Option<Words<'p>> {
    let TimingFileRefusal { fault, line } = refusal;
    Words::at(
        path,
        Some(line),
        format!(in alloc; "{fault} ({})", fault.code()),
    )
}

/// What the timing file at this path says.
pub fn timing_file_at<'p, F: Files>(
    alloc: Global,
    files: &mut F,
    path: &'p str,
) -> Result<TimingFile, RecordingStop<'p>>
    ensures ok { OnOk result (IsTimingFile (F.store files.old) path.entry.now) }
    ensures err { IfErr result (SaysOf (λ _. ⊥) (RefusesTiming (F.store files.old) (File path.entry))) }
    ensures stays { F.store files.new ≡ F.store files.old }
{
    let bytes = read_file(alloc, files, path)?;
    let text = text_of(path, bytes.as_slice())?;
    match read_timing_file(text) {
        Ok(file) => Ok(file),
        Err(refusal) => Err(RecordingStop::Faulty {
            fault: fault_of(refusal),
            words: words_of(alloc, path, refusal),
        }),
    }
}

// The times of this source, for a chip whose page has these.
fn limits_at<'p, F: Files>(
    alloc: Global,
    files: &mut F,
    page: PageTimes,
    source: TimingSource<'p>,
) -> Result<Limits, RecordingStop<'p>>
    ensures least { IfOk result (λ l. AreTimings (F.store files.old) source.entry page l.timings) }
    ensures most { IfOk result (λ l. AreLongest (F.store files.old) source.entry page l.longest) }
    ensures bounded { IfOk result (λ l. AreBounded l.timings) }
    ensures finite { IfOk result (λ l. AreFinite l.longest) }
    ensures err { IfErr result (SaysOf (λ _. ⊥) (RefusesTiming (F.store files.old) source.entry)) }
    ensures stays { F.store files.new ≡ F.store files.old }
{
    match source {
        TimingSource::Mode(mode) => Ok(Limits {
            timings: timings_of(mode, page),
            longest: longest_of(mode, page),
        }),
        TimingSource::File(path) => {
            let file = timing_file_at(alloc, files, path)?;
            Ok(Limits {
                timings: file.timings(page),
                longest: file.longest(page),
            })
        }
    }
}

// By what the distances of cycles are judged.
fn ruler_of(request: TimesRequest<'_>, geometry: Geometry, timings: Timings) -> Ruler
    ensures { result ≡ ruler_of request.entry geometry timings }
{
    Ruler {
        timings,
        unit: request.unit,
        slack: request.slack,
        one_lun: geometry.parts().luns == 1,
    }
}

// By what the length of work is judged.
fn busy_ruler_of(request: TimesRequest<'_>, limits: Limits) -> BusyRuler
    ensures { result ≡ busy_ruler_of request.entry limits.timings limits.longest }
{
    BusyRuler {
        longest: limits.longest,
        to_busy: limits.timings.t_wb,
        unit: request.unit,
        slack: request.slack,
    }
}

// The rulers of a request.
fn rulers_of<'p, F: Files>(
    alloc: Global,
    files: &mut F,
    request: TimesRequest<'p>,
    page: &[u8],
    geometry: Geometry,
) -> Result<TimeRulers, RecordingStop<'p>>
    ensures ok { IfOk result (λ r. AreRulersOf (F.store files.old) request.entry page.now geometry r) }
    ensures bounded { IfOk result (λ r. AreBounded r.least.timings) }
    ensures judgeable { IfOk result (λ r. AreJudgeable r.most) }
    ensures err { IfErr result (SaysOf (λ _. ⊥) (RefusesTiming (F.store files.old) request.entry.source)) }
    ensures stays { F.store files.new ≡ F.store files.old }
{
    let limits = limits_at(alloc, files, PageTimes::read(page), request.source)?;
    Ok(TimeRulers {
        least: ruler_of(request, geometry, limits.timings),
        most: busy_ruler_of(request, limits),
    })
}

/// The rulers that are asked for, if any are, for chips with this page.
pub(crate) fn rulers_at<'p, F: Files>(
    alloc: Global,
    files: &mut F,
    request: Option<TimesRequest<'p>>,
    page: &[u8],
    geometry: Geometry,
) -> Result<Option<TimeRulers>, RecordingStop<'p>>
    ensures ok { IfOk result (λ r. AreRulers (F.store files.old) request.entry page.now geometry r) }
    ensures usable { IfOk result (λ r. AreUsable r) }
    ensures err { IfErr result (SaysOf (λ _. ⊥) (RefusesTimes (F.store files.old) request.entry)) }
    ensures stays { F.store files.new ≡ F.store files.old }
{
    match request {
        None => Ok(None),
        Some(request) => match rulers_of(alloc, files, request, page, geometry) {
            Ok(rulers) => Ok(Some(rulers)),
            Err(stop) => Err(stop),
        },
    }
}
