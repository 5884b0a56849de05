//! The command that reads a capture.
ghost use Rattle.std.specs.Prelude.{◌≡◌, ◌⊎◌, ◌≤◌, [], ℕ, List, Option, Some, IfOk, IfErr, OnOk, OnErr, codes};
ghost use Rattle.std.specs.Option.{option_map};
ghost use Rattle.std.specs.Io.KnownBytes.{Appends};
ghost use Rattle.bus_capture.specs.Inside.{AreInside};
ghost use Rattle.seq_inputs.specs.declared.refusal.Refusal.{Refusal};
ghost use Rattle.seq_inputs.specs.Inputs.{PageIsRefused};
ghost use Rattle.seq_inputs.specs.Stops.{Tells};
ghost use Rattle.seq_inputs.specs.Refusals.{line_of};
ghost use Rattle.recording.specs.declared.recording_fault.RecordingFault.{RecordingFault};
ghost use Rattle.recording.specs.declared.recording_fault.RecordingFault.TheVariants.{Item as ItemAt};
ghost use Rattle.recording.specs.Captures.{seen_text, left_seen, left_broken, broken_seen, IsKeptText, IsShown, IsConverted, IsGiven, IsHandedOn, IsCaptured, text_printed, IsFirst, ConversionRefuses, CaptureRefuses, CaptureIsRefused, SaysCapture};
ghost use Rattle.recording.specs.Endings.{SaysOf};
ghost use Rattle.recording.specs.Recordings.{fault_line};

use bus_capture::{Capture, CaptureRefusal, Setup, Stamped};
use nand_geometry::Geometry;
use recording::{
    CaptureConverter, CaptureRequest, CaptureTally, Ending, KeptCapture, PassedAmount,
    RecordingFault, RecordingStop, TimeUnit, count_echoes, end_stopped, mappings_of, push_text,
    see_capture, seen_at, steps_at, unit_of, words_of_fault,
};
use seq_files::{Files, NotConverted};
use seq_inputs::{
    Console, Exit, Stop, Style, Words, end_without_memory, finish, geometry_as, read_file,
    write_file,
};
use std::alloc::{AllocError, Global};
use std::io::Write;
use trace_faults::BrokenRule;
use vendor_file::Step;

// How much a capture shows, how much of it is left out, and its text, where that is printed.
#[derive(Drop)]
struct CapturedTrace {
    tally: CaptureTally,
    amount: PassedAmount,
    printed: Option<Vec<u8>>,
}

// Why a capture isn't converted.
fn not_captured<'p>(
    alloc: Global,
    request: CaptureRequest<'p>,
    path: &'p str,
    converter: &CaptureConverter<'_>,
    refused: NotConverted<CaptureRefusal>,
) -> RecordingStop<'p>
    ensures { SaysCapture refused result }
{
    match refused {
        NotConverted::Input(error) => RecordingStop::Stop(Stop::of_file(request.input, error)),
        NotConverted::Output(error) => RecordingStop::Stop(Stop::of_file(path, error)),
        NotConverted::Refused(CaptureRefusal::OutOfMemory) => {
            RecordingStop::Stop(Stop::OutOfMemory)
        }
        NotConverted::Refused(CaptureRefusal::Fault(fault)) => {
            let words = words_of_fault(alloc, request.input, converter, fault);
            let fault = RecordingFault::Capture { fault };
            RecordingStop::Faulty { fault, words }
        }
    }
}

// Writes the trace that a capture shows to a path, piece by piece: how much that is.
fn convert_capture<'p, F: Files>(
    alloc: Global,
    files: &mut F,
    request: CaptureRequest<'p>,
    path: &'p str,
    setup: &Setup<'_>,
) -> Result<CaptureTally, RecordingStop<'p>>
    requires few { setup.now.targets ≤ 4 }
    ensures ok { OnOk result (IsConverted (F.store files.old) (F.store files.new) request.entry setup.entry.now path.entry.now) }
    ensures err { IfErr result (SaysOf (λ _. ⊥) (ConversionRefuses (F.store files.old) request.entry setup.entry.now)) }
    ensures stays { OnErr result (F.store files.new ≡ F.store files.old) }
{
    let mut converter = match CaptureConverter::new(alloc, setup, request.has_times) {
        Ok(converter) => converter,
        Err(_) => return Err(RecordingStop::Stop(Stop::OutOfMemory)),
    };
    match files.convert(alloc, request.input, path, &mut converter) {
        Ok(()) => Ok(converter.tally()),
        Err(refused) => Err(not_captured(alloc, request, path, &converter, refused)),
    }
}

// Why no trace is made of a capture that shows these items, of which one is a cycle that isn't next in a sequence.
fn stop_at<'p>(
    alloc: Global,
    path: &'p str,
    stamped: &[Stamped],
    broken: BrokenRule,
) -> RecordingStop<'p>
    ensures { SaysOf (λ _. ⊥) (λ fault. fault ≡ ItemAt broken.rule broken.item) result }
{
    let BrokenRule { item, rule } = broken;
    let time = seen_at(stamped, item).time;
    let text = format!(in alloc;
        "item {item} at {time} isn't next in a vendor sequence: {rule} ({})",
        rule.code()
    );
    RecordingStop::Faulty {
        fault: RecordingFault::Item { rule, item },
        words: Words::at(path, None, text),
    }
}

// The text of what is seen.
fn text_of(alloc: Global, has_times: bool, stamped: &[Stamped]) -> Result<Vec<u8>, AllocError>
    requires { AreInside stamped.now }
    ensures { IfOk result (λ text. text.items ≡ seen_text has_times stamped.now) }
{
    let mut text = Vec::new(alloc);
    push_text(alloc, has_times, stamped, &mut text)?;
    Ok(text)
}

// The text of a trace, how many items it has, and how much is left out.
#[derive(Drop)]
struct KeptText {
    text: Vec<u8>,
    items: usize,
    amount: PassedAmount,
}

// The text of what is seen without the items of these sequences, of which there are some, and each of which is to be whole.
#[tactic(auto, using(crate::proofs::Left::left_inside))]
fn leave_out<'p>(
    alloc: Global,
    request: CaptureRequest<'p>,
    setup: &Setup<'_>,
    steps: &[Step],
    stamped: &[Stamped],
) -> Result<KeptText, RecordingStop<'p>>
    requires few { setup.now.targets ≤ 4 }
    requires inside { AreInside stamped.now }
    ensures whole { IfOk result (λ kept. left_broken steps.now setup.now stamped.now ≡ []) }
    ensures text { IfOk result (λ kept. kept.text.items ≡ seen_text request.entry.has_times (left_seen steps.now setup.now stamped.now)) }
    ensures err { IfErr result (SaysOf (λ _. ⊥) (IsFirst (left_broken steps.now setup.now stamped.now))) }
{
    let kept = KeptCapture::of(alloc, setup, steps, stamped)?;
    let left = kept.stamped.as_slice();
    let text = text_of(alloc, request.has_times, left)?;
    match kept.broken.as_slice() {
        [first, ..] => Err(stop_at(alloc, request.input, stamped, *first)),
        [] => Ok(KeptText {
            text,
            items: left.len(),
            amount: kept.amount,
        }),
    }
}

// The text of what is seen without the items of these sequences.
fn keep_text<'p>(
    alloc: Global,
    request: CaptureRequest<'p>,
    setup: &Setup<'_>,
    steps: &[Step],
    stamped: &[Stamped],
) -> Result<KeptText, RecordingStop<'p>>
    requires few { setup.now.targets ≤ 4 }
    requires inside { AreInside stamped.now }
    ensures ok { IfOk result (λ kept. IsKeptText request.entry.has_times setup.now steps.now stamped.now kept.text.items) }
    ensures err { IfErr result (SaysOf (λ _. ⊥) (IsFirst (broken_seen steps.now setup.now stamped.now))) }
{
    match steps {
        [] => Ok(KeptText {
            text: text_of(alloc, request.has_times, stamped)?,
            items: stamped.len(),
            amount: PassedAmount {
                sequences: 0,
                items: 0,
            },
        }),
        [_, ..] => match leave_out(alloc, request, setup, steps, stamped) {
            Ok(kept) => Ok(kept),
            Err(stop) => Err(stop),
        },
    }
}

// Reads a capture whole: the trace that it shows without the items of these sequences.
fn show_capture<'p, F: Files>(
    alloc: Global,
    files: &mut F,
    request: CaptureRequest<'p>,
    setup: &Setup<'_>,
    steps: &[Step],
) -> Result<ShownTrace, RecordingStop<'p>>
    requires few { setup.now.targets ≤ 4 }
    ensures ok { IfOk result (λ shown. IsShown (F.store files.old) request.entry setup.now steps.now shown.text.items) }
    ensures err { IfErr result (SaysOf (λ _. ⊥) (CaptureRefuses (F.store files.old) request.entry setup.now steps.now)) }
    ensures stays { F.store files.new ≡ F.store files.old }
{
    let capture = read_file(alloc, files, request.input)?;
    let seen = match see_capture(alloc, request.input, setup, capture.as_slice()) {
        Ok(seen) => seen,
        Err(stop) => return Err(stop),
    };
    let unselected = seen.unselected;
    match keep_text(alloc, request, setup, steps, seen.stamped.as_slice()) {
        Ok(
            KeptText {
                text,
                items,
                amount,
            },
        ) => Ok(ShownTrace {
            text,
            tally: CaptureTally {
                items,
                unselected,
                strobe_changes: 0,
                echoes: count_echoes(seen.stamped.as_slice()),
                unit: unit_of(request.has_times, request.form, capture.as_slice()),
            },
            amount,
        }),
        Err(stop) => Err(stop),
    }
}

// The text of a trace, how much it shows, and how much is left out.
#[derive(Drop)]
struct ShownTrace {
    text: Vec<u8>,
    tally: CaptureTally,
    amount: PassedAmount,
}

// Writes the trace that a capture shows, or hands it back to be printed.
fn give_capture<'p, F: Files>(
    alloc: Global,
    files: &mut F,
    request: CaptureRequest<'p>,
    setup: &Setup<'_>,
    steps: &[Step],
) -> Result<CapturedTrace, RecordingStop<'p>>
    requires few { setup.now.targets ≤ 4 }
    ensures ok { IfOk result (λ t. IsHandedOn (F.store files.old) (F.store files.new) request.entry setup.entry.now steps.now (option_map (λ text. text.items) t.printed)) }
    ensures err { IfErr result (SaysOf (λ _. ⊥) (CaptureRefuses (F.store files.old) request.entry setup.entry.now steps.now)) }
    ensures stays { OnErr result (F.store files.new ≡ F.store files.old) }
{
    match (request.target, steps) {
        (Some(path), []) => match convert_capture(alloc, files, request, path, setup) {
            Ok(tally) => Ok(CapturedTrace {
                tally,
                amount: PassedAmount {
                    sequences: 0,
                    items: 0,
                },
                printed: None,
            }),
            Err(stop) => Err(stop),
        },
        (Some(path), [_, ..]) => {
            let shown = match show_capture(alloc, files, request, setup, steps) {
                Ok(shown) => shown,
                Err(stop) => return Err(stop),
            };
            write_file(files, path, shown.text.as_slice())?;
            Ok(CapturedTrace {
                tally: shown.tally,
                amount: shown.amount,
                printed: None,
            })
        }
        (None, _) => match show_capture(alloc, files, request, setup, steps) {
            Ok(shown) => Ok(CapturedTrace {
                tally: shown.tally,
                amount: shown.amount,
                printed: Some(shown.text),
            }),
            Err(stop) => Err(stop),
        },
    }
}

// Reads a page, a vendor file and a capture, and writes the trace that it shows, or hands it back to be printed.
fn capture_at<'p, F: Files>(
    alloc: Global,
    files: &mut F,
    request: CaptureRequest<'p>,
) -> Result<CapturedTrace, RecordingStop<'p>>
    ensures ok { IfOk result (λ t. IsCaptured (F.store files.old) (F.store files.new) request.entry (option_map (λ text. text.items) t.printed)) }
    ensures err { IfErr result (SaysOf (PageIsRefused (F.store files.old) request.entry.page.now) (CaptureIsRefused (F.store files.old) request.entry)) }
    ensures stays { OnErr result (F.store files.new ≡ F.store files.old) }
{
    let geometry = geometry_as(alloc, files, request.profile, request.page)?;
    let steps = match steps_at(alloc, files, request.profile, request.vendor) {
        Ok(steps) => steps,
        Err(stop) => return Err(stop),
    };
    let mappings = mappings_of(alloc, request.mappings)?;
    let setup = Setup {
        form: request.form,
        geometry,
        targets: request.targets.count(),
        mappings: mappings.as_slice(),
        glitch: request.glitch,
        late: request.late,
    };
    match give_capture(alloc, files, request, &setup, steps.as_slice()) {
        Ok(captured) => Ok(captured),
        Err(stop) => Err(stop),
    }
}

// A data strobe that changes more often than this is in use.
const STILL: u64 = 2;

// Says how much a capture shows.
fn say_tally<E: Write>(errors: &mut E, tally: CaptureTally) {
    let _ = writeln!(errors, "items: {}", tally.items);
    if let Some(unit) = tally.unit {
        let _ = writeln!(errors, "times in {}", TimeUnit(unit));
    }
    if tally.unselected != 0 {
        let _ = writeln!(
            errors,
            "strobes left out, as no chip of this channel was enabled: {}",
            tally.unselected
        );
    }
    if tally.echoes != 0 {
        let _ = writeln!(
            errors,
            "the first output after `70` is 70, {} times: outputs of timing modes 4 and 5 (EDO) come behind the rise of RE#, where `--outputs +N` takes them",
            tally.echoes
        );
    }
    if tally.items == 0 {
        let _ = writeln!(errors, "0 items: no cycle is in the capture");
    }
    if tally.strobe_changes > STILL {
        let _ = writeln!(
            errors,
            "DQS changes {} times: data that it strobes (NV-DDR) isn't sampled",
            tally.strobe_changes
        );
    }
    let _ = errors.flush();
}

// Says how much a capture shows, and how much of it is left out, where a vendor file is given.
fn say_captured<E: Write>(errors: &mut E, request: CaptureRequest<'_>, captured: &CapturedTrace) {
    say_tally(errors, captured.tally);
    if request.vendor.is_some() {
        let _ = writeln!(errors, "{}", captured.amount);
        let _ = errors.flush();
    }
}

// Prints the trace, or `ok` where it is written.
fn print_captured<W: Write, E: Write, P>(
    console: &mut Console<W, E, P>,
    captured: &CapturedTrace,
) -> Exit
    ensures done { result ≡ Exit.Done → Appends (W.contents console.old.output) (W.contents console.new.output) (text_printed (option_map (λ text. text.items) captured.now.printed)) }
    ensures refused { (refusal : Refusal) → result ≡ Exit.Refused refusal → ⊥ }
{
    match &captured.printed {
        None => finish(console, "ok\n"),
        Some(text) => match str::from_utf8(text.as_slice()) {
            Ok(text) => finish(console, text),
            Err(_) => end_without_memory(console),
        },
    }
}

/// Reads a capture of the bus of a channel of so many targets of the geometry of a parameter page, and writes or prints the trace that it shows, without what belongs
/// to a vendor's sequences, where a vendor file is given ([`vendor_file`]). A capture that is printed, or of which something is left out, is whole in memory.
///
/// `Done`: the trace is written, and `ok` is printed, or it is printed; how many items it has is said on the console's errors, and how much is left out. `Refused`: the
/// line `refused NAME at N` is printed, a P fault of the page, and no file is written. `Faulty`: so is it, an N fault of the vendor file with its line, a G fault of the
/// capture with its line or its time, or the first cycle that isn't next in a sequence of the vendor file, by its item in the trace with these. The page is read first,
/// then the vendor file. `FileFault`: a file couldn't be read or written, or the output couldn't be written. However it ends, files are as they were, or that one
/// file is written whole.
pub fn capture_trace<F: Files, W: Write, E: Write, P>(
    alloc: Global,
    files: &mut F,
    console: &mut Console<W, E, P>,
    request: CaptureRequest<'_>,
) -> Ending
    ensures done { result ≡ Ending.Exit Exit.Done → (handed : Option (List ℕ)) × IsCaptured (F.store files.old) (F.store files.new) request.entry handed
        × Appends (W.contents console.old.output) (W.contents console.new.output) (text_printed handed) }
    ensures flagged { result ≡ Ending.Flagged → ⊥ }
    ensures refused { (refusal : Refusal) → result ≡ Ending.Exit (Exit.Refused refusal)
        → Tells (PageIsRefused (F.store files.old) request.entry.page.now) refusal
        × (F.store files.new ≡ F.store files.old) × Appends (W.contents console.old.output) (W.contents console.new.output) (line_of refusal) }
    ensures faulty { (fault : RecordingFault) → result ≡ Ending.Faulty fault → CaptureIsRefused (F.store files.old) request.entry fault
        × (F.store files.new ≡ F.store files.old) × Appends (W.contents console.old.output) (W.contents console.new.output) (fault_line fault) }
    ensures files { (F.store files.new ≡ F.store files.old) ⊎ ((handed : Option (List ℕ)) × IsCaptured (F.store files.old) (F.store files.new) request.entry handed) }
{
    match capture_at(alloc, files, request) {
        Ok(captured) => {
            let exit = print_captured(console, &captured);
            if matches!(exit, Exit::Done) {
                say_captured(&mut console.errors, request, &captured);
            }
            Ending::Exit(exit)
        }
        Err(stop) => end_stopped(alloc, console, Style::Plain, stop),
    }
}
