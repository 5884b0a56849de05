//! Running a microprogram once.
ghost use Rattle.std.specs.Prelude.{◌≡◌, ◌≤◌, false, ℕ, ◌+◌, ◌*◌, List, ◌++◌, Some, None, Ok, IfOk, OnOk, IfErr, IfSome, length};
ghost use Rattle.std.specs.Io.KnownBytes.{Appends};
ghost use Rattle.std.specs.List.{All};
ghost use Rattle.std.specs.String.{string_bytes};
ghost use Rattle.micro_program.specs.Lines.{unrolled};
ghost use Rattle.seq_inputs.specs.declared.refusal.Refusal.{Refusal};
ghost use Rattle.seq_inputs.specs.Refusals.{line_of};
ghost use Rattle.seq_core.specs.World.{fresh};
ghost use Rattle.seq_core.specs.Alone.{no_failures};
ghost use Rattle.seq_core.specs.Calls.{IsEvent};
ghost use Rattle.seq_core.specs.Event.{Ready};
ghost use Rattle.seq_core.specs.Reply.{ToReady};
ghost use Rattle.seq_core.specs.Shows.{IsAt, channel_in};
ghost use Rattle.seq_inputs.specs.Stops.{Says, Tells};
ghost use Rattle.run_once.specs.Once.{one_lun, the_lun, refused, MayBeRefused, the_channel, the_job, IsRun, IsFileRun, FileMayBeRefused, IsProgramRun, ProgramMayBeRefused};
ghost use Rattle.seq_inputs.specs.Lines.{end_line};
ghost use Rattle.run_once.specs.Runs.{EndsWithin, HasRun, IsForTheLun, IsLoaded, RanAlone, TellsRun, TookTurn};
ghost use Rattle.trace_text.specs.Line.{text, IsPrintable};

use die_model::LunDie;
use micro_word::Text;
use nand_geometry::{Geometry, Parts, SMALL_CHIP};
use onfi_cycle::{Failures, Item, Lun};
use seq_core::{Core, Job, Stepped, UnloadedJob};
use seq_files::read_all;
use seq_inputs::{
    Console, Exit, Fault, Stop, Style, fail, finish, push_end_line, read_program, read_words,
    say_counted, verify_program, words_of_job,
};
use seq_run::{Phase, RunProgress};
use std::alloc::{AllocError, Allocator};
use std::io::{Read, Write};
use target_bus::{Bus, BusFault};
use trace_text::print;

// One LUN of 8 blocks of 4 pages of 512 + 16 bytes.
const ONE_LUN: Parts = SMALL_CHIP;

// How often a word comes at most: 4,096 times in each of four loops.
const MOST_PASSES: usize = 4096 * 4096 * 4096 * 4096;

// What messages call the input.
const STREAM: &str = "-";

// Its LUN.
const THE_LUN: Lun = Lun { ce: 0, lun: 0 };

// The geometry that files run on.
fn geometry() -> Geometry
    ensures { result ≡ one_lun }
{
    match Geometry::of(ONE_LUN) {
        Ok(geometry) => geometry,
        Err(_) => unreachable!(),
    }
}

// The job of a microprogram that was read from these bytes: verified, at this base, its buffer all 00.
#[tactic(auto, using(crate::proofs::Refusing::job_said, crate::proofs::Refusing::reason_said))]
fn make_job<A: Allocator + Copy>(
    alloc: A,
    text: Text<A>,
    given: &[u8],
    base: u32,
) -> Result<Job<A>, Stop<'static, A>>
    ensures job { IfOk result (λ j. j ≡ the_job base text) }
    ensures alone { IfOk result (λ j. IsForTheLun j) }
    ensures accepted { OnOk result (refused base text ≡ None) }
    ensures refused { IfErr result (Says (MayBeRefused base text)) }
{
    let verified = match verify_program(alloc, STREAM, given, text, geometry()) {
        Ok(verified) => verified,
        Err(stop) => return Err(stop),
    };
    let buffer = vec![in alloc; 0; verified.text().buffer() as usize]?;
    match Job::new(geometry(), 1, THE_LUN, base, verified, buffer) {
        Ok(job) => Ok(job),
        Err(refused) => {
            let fault = refused.fault;
            let rows = refused.verified.text().rows();
            let words = words_of_job(alloc, STREAM, fault, &geometry(), base, rows);
            Err(Stop::refused(Fault::Job { fault }, words))
        }
    }
}

// A sequencer on a channel of one LUN to which nothing has happened.
fn new_core<A: Allocator + Copy>(alloc: A) -> Result<Core<A>, AllocError>
    ensures channel { IfOk result (λ c. channel_in c ≡ the_channel) }
    ensures fresh { IfOk result (λ c. IsAt c (fresh the_channel)) }
{
    let mut dies = Vec::with_capacity(alloc, 1)?;
    dies.push(LunDie::new(alloc, geometry())?)?;
    match Bus::new(alloc, geometry(), dies) {
        Ok(bus) => Ok(Core::new(bus)),
        Err(refused) => match refused.fault {
            BusFault::OutOfMemory => Err(AllocError),
            BusFault::DiesMissing => unreachable!(),
            BusFault::DieUnfit => unreachable!(),
        },
    }
}

// The LUN becomes ready, without failure.
fn become_ready<A: Allocator + Copy>(core: &mut Core<A>) -> bool
    ensures { IsEvent core.old (Ready the_lun no_failures) (ToReady result) core.new }
{
    let fail = Failures {
        last: false,
        before: false,
    };
    core.ready(THE_LUN, fail)
}

// The code with which a job has ended.
fn code_of<A: Allocator + Copy>(done: &UnloadedJob<A>) -> u8
    ensures { result ≡ done.now.code }
{
    done.code
}

// One turn of the one program: its next word is stepped, and its LUN becomes ready without failure if a poll says busy. It
// tells whether the program has ended.
fn turn<A: Allocator + Copy>(core: &mut Core<A>) -> Result<bool, AllocError>
    ensures { IfOk result (λ ended. TookTurn core.old ended core.new) }
{
    match core.step(THE_LUN)? {
        Stepped::Ended => Ok(true),
        Stepped::NotReady => {
            become_ready(core);
            Ok(false)
        }
        _ => Ok(false),
    }
}

// Turn after turn, until the program has ended.
fn run_to_end<A: Allocator + Copy>(core: &mut Core<A>, turns: usize) -> Result<(), AllocError>
    requires { EndsWithin core.old turns }
    ensures { OnOk result (HasRun core.old turns core.new) }
{
    for _ in 0..turns {
        if turn(core)? {
            return Ok(());
        }
    }
    unreachable!()
}

// A sequencer on which a job is loaded, and nothing else has happened.
fn load<A: Allocator + Copy>(alloc: A, job: Job<A>) -> Result<Core<A>, AllocError>
    requires { IsForTheLun job }
    ensures { IfOk result (λ core. IsLoaded job core) }
{
    let mut core = new_core(alloc)?;
    match core.load(THE_LUN, job) {
        Ok(()) => Ok(core),
        Err(_) => unreachable!(),
    }
}

// How many turns a job takes at most: two for each of its lines, its loops written out, and one more.
fn turns_of<A: Allocator>(job: &Job<A>) -> usize
    ensures { 2 * length (unrolled job.now.text.words) + 1 ≤ result }
{
    2 * MOST_PASSES * job.text().words().len() + 1
}

// A sequencer on which a job is loaded, and how many turns it takes at most to its end.
fn start<A: Allocator + Copy>(alloc: A, job: Job<A>) -> Result<(Core<A>, usize), AllocError>
    requires { IsForTheLun job }
    ensures loaded { IfOk result (λ r. IsLoaded job r.0) }
    ensures turns { IfOk result (λ r. 2 * length (unrolled job.text.words) + 1 ≤ r.1) }
    ensures ends { IfOk result (λ r. EndsWithin r.0 r.1) }
{
    let turns = turns_of(&job);
    let core = load(alloc, job)?;
    Ok((core, turns))
}

// Runs a job to its end: the sequencer, and the code with which the program has ended.
fn run_job<A: Allocator + Copy>(alloc: A, job: Job<A>) -> Result<(Core<A>, u8), AllocError>
    requires { IsForTheLun job }
    ensures { IfOk result (λ r. RanAlone job r.0.past r.1) }
{
    let (mut core, turns) = start(alloc, job)?;
    run_to_end(&mut core, turns)?;
    match core.unload(THE_LUN) {
        Ok(done) => Ok((core, code_of(&done))),
        Err(_) => unreachable!(),
    }
}

// The lines of a run: those of its trace, and that of the code.
fn lines_of<A: Allocator>(alloc: A, items: &[Item], code: u8) -> Result<String<A>, AllocError>
    requires { All IsPrintable items.now }
    ensures { IfOk result (λ lines. string_bytes lines ≡ text items.now ++ end_line code) }
{
    let mut lines = print(alloc, items)?;
    push_end_line(&mut lines, code)?;
    Ok(lines)
}

// What is written of a job that runs to its end.
fn tell_run<'a, A: Allocator>(alloc: &'a A, job: Job<&'a A>) -> Result<String<&'a A>, AllocError>
    requires { IsForTheLun job }
    ensures { IfOk result (λ lines. TellsRun job.entry (string_bytes lines)) }
{
    let (core, code) = run_job(alloc, job)?;
    lines_of(alloc, core.trace(), code)
}

// What is written of the run of a microprogram that was read from these bytes. The progress is told that it runs.
fn run_text<'a, A: Allocator, P: RunProgress>(
    alloc: &'a A,
    progress: &mut P,
    text: Text<&'a A>,
    given: &[u8],
    base: u32,
) -> Result<String<&'a A>, Stop<'static, &'a A>>
    ensures ok { IfOk result (λ lines. IsRun base text.entry (string_bytes lines)) }
    ensures err { IfErr result (Says (MayBeRefused base text.entry)) }
{
    let job = make_job(alloc, text, given, base)?;
    progress.begin(Phase::Running { jobs: 1 });
    Ok(tell_run(alloc, job)?)
}

// Runs a microprogram that was read from these bytes, and writes what becomes of it.
fn print_run<'a, A: Allocator, W: Write, E: Write, P: RunProgress>(
    alloc: &'a A,
    console: &mut Console<W, E, P>,
    text: Text<&'a A>,
    given: &[u8],
    base: u32,
) -> Exit
    ensures done { result ≡ Exit.Done → (written : List ℕ) × IsRun base text.entry written
        × Appends (W.contents console.old.output) (W.contents console.new.output) written }
    ensures refused { (refusal : Refusal) → result ≡ Exit.Refused refusal → Tells (MayBeRefused base text.entry) refusal
        × Appends (W.contents console.old.output) (W.contents console.new.output) (line_of refusal) }
{
    match run_text(alloc, &mut console.progress, text, given, base) {
        Ok(lines) => {
            console.progress.begin(Phase::Writing);
            finish(console, lines.as_str())
        }
        Err(stop) => fail(alloc, console, None, stop),
    }
}

// Runs a word file and writes what becomes of it.
fn print_file<A: Allocator, W: Write, E: Write, P: RunProgress>(
    alloc: &A,
    console: &mut Console<W, E, P>,
    file: &[u8],
    base: u32,
) -> Exit
    ensures done { result ≡ Exit.Done → (written : List ℕ) × IsFileRun base file.now written
        × Appends (W.contents console.old.output) (W.contents console.new.output) written }
    ensures refused { (refusal : Refusal) → result ≡ Exit.Refused refusal → Tells (FileMayBeRefused base file.now) refusal
        × Appends (W.contents console.old.output) (W.contents console.new.output) (line_of refusal) }
{
    match read_words(alloc, STREAM, file) {
        Ok(text) => print_run(alloc, console, text, file, base),
        Err(stop) => fail(alloc, console, None, stop),
    }
}

// The same of an assembly text or a word file.
fn print_program<A: Allocator, W: Write, E: Write, P: RunProgress>(
    alloc: &A,
    console: &mut Console<W, E, P>,
    given: &[u8],
    base: u32,
) -> Exit
    ensures done { result ≡ Exit.Done → (written : List ℕ) × IsProgramRun base given.now written
        × Appends (W.contents console.old.output) (W.contents console.new.output) written }
    ensures refused { (refusal : Refusal) → result ≡ Exit.Refused refusal → Tells (ProgramMayBeRefused base given.now) refusal
        × Appends (W.contents console.old.output) (W.contents console.new.output) (line_of refusal) }
{
    match read_program(alloc, STREAM, given, &geometry()) {
        Ok(text) => {
            say_counted(&mut console.errors, Style::Plain, STREAM, given, &text);
            print_run(alloc, console, text, given, base)
        }
        Err(stop) => fail(alloc, console, None, stop),
    }
}

/// Reads a word file from an input, and runs it on a channel of one LUN of 8 blocks of 4 pages of 512 + 16 bytes, in one plane,
/// whose pages are all FF. Its rows are counted from the index `base`; its buffer is all 00. The LUN becomes ready without failure after
/// each poll that says busy. The console's progress is told what it does.
///
/// `Done`: the output has the lines of the trace (docs/use/TRACES.md) and then `end CODE`. `Refused`: it has the line
/// `refused NAME at N`, and nothing was run: an M fault of the file with its word, a V reason against the text with its word, or an
/// S fault of the job. `FileFault`: the input couldn't be read, or has no end after 1,048,576 reads, or the output
/// couldn't be written. `ReaderGone`: nobody reads the output any more. `OutOfMemory`: nothing of a trace is written, unless it is the output
/// that asked for memory.
pub fn once_on<A: Allocator, R: Read, W: Write, E: Write, P: RunProgress>(
    alloc: &A,
    input: &mut R,
    console: &mut Console<W, E, P>,
    base: u32,
) -> Exit
    ensures done { result ≡ Exit.Done → IfSome (R.remaining input.old) (λ bytes. (written : List ℕ) × IsFileRun base bytes written
        × Appends (W.contents console.old.output) (W.contents console.new.output) written) }
    ensures refused { (refusal : Refusal) → result ≡ Exit.Refused refusal → IfSome (R.remaining input.old) (λ bytes.
        Tells (FileMayBeRefused base bytes) refusal × Appends (W.contents console.old.output) (W.contents console.new.output) (line_of refusal)) }
{
    console.progress.begin(Phase::Reading);
    match read_all(alloc, input) {
        Ok(bytes) => print_file(alloc, console, bytes.as_slice(), base),
        Err(error) => fail(alloc, console, None, Stop::<&A>::of_file(STREAM, error)),
    }
}

/// The same of a word file or an assembly text, whichever the input is. Of a text an A fault is told with its line.
pub fn run_program<A: Allocator, R: Read, W: Write, E: Write, P: RunProgress>(
    alloc: &A,
    input: &mut R,
    console: &mut Console<W, E, P>,
    base: u32,
) -> Exit
    ensures done { result ≡ Exit.Done → (written : List ℕ) × IfSome (R.remaining input.old) (λ bytes. IsProgramRun base bytes written)
        × Appends (W.contents console.old.output) (W.contents console.new.output) written }
    ensures refused { (refusal : Refusal) → result ≡ Exit.Refused refusal
        → IfSome (R.remaining input.old) (λ bytes. Tells (ProgramMayBeRefused base bytes) refusal)
        × Appends (W.contents console.old.output) (W.contents console.new.output) (line_of refusal) }
{
    console.progress.begin(Phase::Reading);
    match read_all(alloc, input) {
        Ok(bytes) => print_program(alloc, console, bytes.as_slice(), base),
        Err(error) => fail(alloc, console, None, Stop::<&A>::of_file(STREAM, error)),
    }
}
