//! Why a command on a recording isn't done.
ghost use Rattle.std.specs.Prelude.{◌≡◌, Some};
ghost use Rattle.std.specs.Io.KnownBytes.{Appends};
ghost use Rattle.seq_inputs.specs.declared.refusal.Refusal.{Refusal};
ghost use Rattle.seq_inputs.specs.Refusals.{line_of};
ghost use Rattle.recording.specs.Endings.{refusal_in, fault_in};
ghost use Rattle.recording.specs.Recordings.{fault_line};

use crate::ending::Ending;
use crate::recording_fault::RecordingFault;
use seq_inputs::{Console, Exit, Stop, Style, Words, end_without_memory, fail_as, finish};
use std::alloc::{AllocError, AllocFailed, Global};
use std::io::{self, Write};

/// Why a command on a trace or a capture isn't done.
#[derive(Drop)]
pub enum RecordingStop<'a> {
    /// For what stops each command of the program.
    Stop(Stop<'a>),
    /// The recording has this fault; the words say it to a person, unless there was no memory for them.
    Faulty {
        fault: RecordingFault,
        words: Option<Words<'a>>,
    },
}

impl<'a> From<Stop<'a>> for RecordingStop<'a> {
    ghost use Rattle.std.specs.Prelude.{◌≡◌};
    ghost use Rattle.recording.specs.declared.recording_stop.RecordingStop.TheVariants.{Stop as ForAll};

    ghost from_gives = { λ stop later. later ≡ ForAll stop };

    fn from(stop: Stop<'a>) -> RecordingStop<'a> {
        RecordingStop::Stop(stop)
    }
}

impl<'a> From<AllocError> for RecordingStop<'a> {
    ghost use Rattle.std.specs.Prelude.{◌≡◌};
    ghost use Rattle.seq_inputs.specs.declared.stop.Stop.TheVariants.{OutOfMemory};
    ghost use Rattle.recording.specs.declared.recording_stop.RecordingStop.TheVariants.{Stop as ForAll};

    ghost from_gives = { λ _ stop. stop ≡ ForAll OutOfMemory };

    fn from(_error: AllocError) -> RecordingStop<'a> {
        RecordingStop::Stop(Stop::OutOfMemory)
    }
}

impl<'a, T: Drop> From<AllocFailed<T>> for RecordingStop<'a> {
    ghost use Rattle.std.specs.Prelude.{◌≡◌};
    ghost use Rattle.seq_inputs.specs.declared.stop.Stop.TheVariants.{OutOfMemory};
    ghost use Rattle.recording.specs.declared.recording_stop.RecordingStop.TheVariants.{Stop as ForAll};

    ghost from_gives = { λ _ stop. stop ≡ ForAll OutOfMemory };

    fn from(_error: AllocFailed<T>) -> RecordingStop<'a> {
        RecordingStop::Stop(Stop::OutOfMemory)
    }
}

// Says in this style what is wrong with a recording. Where standard error takes nothing, standard output and the status alone say it.
fn say<E: Write>(
    errors: &mut E,
    style: Style,
    fault: RecordingFault,
    words: &Words<'_>,
) -> io::Result<()> {
    match style {
        Style::Plain => writeln!(errors, "{words}")?,
        Style::Json => writeln!(errors, "{}", fault.tell(words))?,
    }
    errors.flush()
}

// Ends a command whose recording has a fault: its line is written to the output, and its words to the errors.
fn end_faulty<W: Write, E: Write, P>(
    alloc: Global,
    console: &mut Console<W, E, P>,
    style: Style,
    fault: RecordingFault,
    words: Option<Words<'_>>,
) -> Ending
    ensures done { result ≡ Ending.Exit Exit.Done → ⊥ }
    ensures assumed { result ≡ Ending.Flagged → ⊥ }
    ensures refused { (refusal : Refusal) → result ≡ Ending.Exit (Exit.Refused refusal) → ⊥ }
    ensures faulty { (told : RecordingFault) → result ≡ Ending.Faulty told → (told ≡ fault)
        × Appends (W.contents console.old.output) (W.contents console.new.output) (fault_line fault) }
{
    let Ok(line) = fault.text(alloc) else {
        return Ending::Exit(end_without_memory(console));
    };
    match finish(console, line.as_str()) {
        Exit::Done => {
            if let Some(words) = words {
                let _ = say(&mut console.errors, style, fault, &words);
            }
            Ending::Faulty(fault)
        }
        exit => Ending::Exit(exit),
    }
}

/// Ends a command that isn't done: the line of what is refused or wrong is written to the output, and what there is to say in this style to the errors.
pub fn end_stopped<W: Write, E: Write, P>(
    alloc: Global,
    console: &mut Console<W, E, P>,
    style: Style,
    stop: RecordingStop<'_>,
) -> Ending
    ensures done { result ≡ Ending.Exit Exit.Done → ⊥ }
    ensures assumed { result ≡ Ending.Flagged → ⊥ }
    ensures refused { (refusal : Refusal) → result ≡ Ending.Exit (Exit.Refused refusal) → (refusal_in stop.entry ≡ Some refusal)
        × Appends (W.contents console.old.output) (W.contents console.new.output) (line_of refusal) }
    ensures faulty { (fault : RecordingFault) → result ≡ Ending.Faulty fault → (fault_in stop.entry ≡ Some fault)
        × Appends (W.contents console.old.output) (W.contents console.new.output) (fault_line fault) }
{
    match stop {
        RecordingStop::Stop(stop) => Ending::Exit(fail_as(alloc, console, style, stop)),
        RecordingStop::Faulty { fault, words } => end_faulty(alloc, console, style, fault, words),
    }
}
