// What a run tells beside its jobs: what there was, how long it took by a made clock, and what it does.
use crate::tests::{ask, files_of_run, is_right, none_is_wrong, play};
use seq_files::MapFiles;
use seq_inputs::Console;
use seq_run::{Phase, RunProgress, RunRequest, run_watched};
use std::alloc::Global;
use std::io::{self, Sink, sink};
use std::sync::Wait;
use std::sync::atomic::{AtomicU64, Ordering};
use std::test::Fail;
use std::thread::Threads;
use std::time::{Clock, Duration};
use trace_text::NoProgress;

// An erase at the first row.
const RUN: &str = "page one\ntargets 1\njob 0 0 0 erase - -\n";

// The files of the erase.
fn erase_files(alloc: Global) -> Result<MapFiles, Fail> {
    files_of_run(alloc, RUN.as_bytes())
}

const END: &str = "job 1 end 0\n";

// A run of the erase that tells what there was.
fn ask_stats() -> RunRequest<'static> {
    RunRequest {
        is_quiet: true,
        times: None,
        has_stats: true,
        ..ask(1)
    }
}

// One job, nine cycles without its ready, and two polls.
const WHAT_THERE_WAS: &str =
    "jobs 1, cycles 9, polls 2, bytes to the dies 0, bytes from the dies 0";

// No seconds are told without a clock.
#[test]
fn what_there_was(rt: HostRuntime) -> Result<(), Fail> {
    let mut files = erase_files(rt.alloc())?;
    let played = play(&rt, &mut files, ask_stats());
    let told = str::from_utf8(played.errors.as_slice()).unwrap_or("");
    let is_printed = played.output.as_slice() == END.as_bytes() && files.get("trace").is_none();
    is_right(is_printed && told.trim_end() == WHAT_THERE_WAS)
}

// A clock that goes on by so many nanoseconds from one reading to the next.
#[derive(Drop)]
struct MadeClock {
    step: u64,
    now: AtomicU64,
}

fn made_clock(step: u64) -> MadeClock {
    MadeClock {
        step,
        now: AtomicU64::new(0),
    }
}

impl Clock for MadeClock {
    fn monotonic(&self) -> io::Result<Duration> {
        let now = self.now.fetch_add(self.step, Ordering::SeqCst);
        Ok(Duration::from_nanos(now))
    }

    fn since_1970(&self) -> io::Result<Duration> {
        Ok(Duration::from_nanos(0))
    }
}

// What standard error says of a run with this clock, of which this is told what it does.
fn watch<R: Threads + Wait + Sync + AllocGlobal, C: Clock, P: RunProgress + Drop>(
    rt: &R,
    clock: &C,
    progress: P,
    run: &str,
) -> Result<Console<Sink, Vec<u8>, P>, Fail> {
    let mut files = files_of_run(rt.alloc(), run.as_bytes())?;
    let mut console = Console {
        output: sink(),
        errors: Vec::new(rt.alloc()),
        progress,
    };
    run_watched(rt, clock, rt.alloc(), &mut files, &mut console, ask_stats());
    Ok(console)
}

// How long the jobs take, and what is told of it.
const TIMES: &[(u64, &str)] = &[
    (12_000_000, "seconds 0.012, cycles a second 750"),
    (1_999_999_999, "seconds 1.999, cycles a second 4"),
    (1, "seconds 0.000, cycles a second 9000000000"),
    (0, "seconds 0.000, cycles a second -"),
];

// Whether this is told of so long a run.
fn tells_time<R: Threads + Wait + Sync + AllocGlobal>(
    rt: &R,
    step: u64,
    told: &str,
) -> Result<bool, Fail> {
    let want = format!(in rt.alloc(); "{WHAT_THERE_WAS}, {told}\n")?;
    let console = watch(rt, &made_clock(step), NoProgress, RUN)?;
    Ok(console.errors.as_slice() == want.as_str().as_bytes())
}

// The place of the first time that is told otherwise.
fn first_other_time<R: Threads + Wait + Sync + AllocGlobal>(rt: &R) -> Result<Option<usize>, Fail> {
    for (place, (step, told)) in TIMES.iter().enumerate() {
        if !tells_time(rt, *step, told)? {
            return Ok(Some(place));
        }
    }
    Ok(None)
}

#[test]
fn how_long_it_took(rt: HostRuntime) -> Result<(), Fail> {
    none_is_wrong(first_other_time(&rt)?)
}

// Keeps what it is told.
#[derive(Drop)]
struct Kept {
    told: Vec<Phase>,
}

impl RunProgress for Kept {
    fn begin(&mut self, phase: Phase) {
        let _ = self.told.push(phase);
    }
}

// Whether a run file goes through these phases.
fn goes_through<R: Threads + Wait + Sync + AllocGlobal>(
    rt: &R,
    run: &str,
    phases: &[Phase],
) -> Result<bool, Fail> {
    let kept = Kept {
        told: Vec::new(rt.alloc()),
    };
    let console = watch(rt, &made_clock(1), kept, run)?;
    Ok(console.progress.told.as_slice() == phases)
}

const PHASES: &[Phase] = &[Phase::Reading, Phase::Running { jobs: 1 }, Phase::Writing];

#[test]
fn what_a_run_does(rt: HostRuntime) -> Result<(), Fail> {
    let done = goes_through(&rt, RUN, PHASES)?;
    let refused = goes_through(&rt, "page one\nbad\n", &[Phase::Reading])?;
    is_right(done && refused)
}
