//! Calls that take no memory: with all requests refused they answer as with ample memory, and make none. The calls of a geometry are
//! not among them, as they have no allocator to ask.
ghost use Rattle.std.specs.Prelude.{◌≡◌, [], false, IfOk};
ghost use Rattle.target_bus.specs.Bus.{is_output};

use crate::turns::Memory;
use die_model::LunDie;
use micro_program::Verified;
use micro_verify::verify;
use micro_word::{Text, Word};
use nand_geometry::{Geometry, Parts, SMALL_CHIP};
use onfi_cycle::{Cycle, Failures, Kind, Lun};
use seq_core::{Core, Job, JobFault, JobRefused, LoadFault, Stepped, UnloadFault};
use std::process::Abort;
use std::test::Fail;
use target_bus::Bus;
use test_heap::{Refusal, TestHeap};

const LUN_0: Lun = Lun { ce: 0, lun: 0 };

// A LUN that isn't there.
const LUN_1: Lun = Lun { ce: 0, lun: 1 };

// The erase of a block.
const ERASE: [Word; 5] = [
    Word::Command { byte: 0x60 },
    Word::Address { from: 2, count: 3 },
    Word::Command { byte: 0xd0 },
    Word::Wait,
    Word::End { code: 0 },
];

// The buffer of its job, of which it makes no use.
const BUFFER: [u8; 4] = [1, 2, 3, 4];

// A bus of one new die.
fn new_bus<'h>(heap: Memory<'h>, parts: Parts) -> Result<Bus<Memory<'h>>, Fail>
    ensures { IfOk result (λ bus. bus.past ≡ []) }
{
    let geometry = Geometry::of(parts)?;
    let mut dies = Vec::new(heap);
    dies.push(LunDie::new(heap, geometry)?)?;
    match Bus::new(heap, geometry, dies) {
        Ok(bus) => Ok(bus),
        Err(_) => Err("the die is refused".into()),
    }
}

// The erase, verified while all requests are refused.
fn verify_erase<'h>(heap: Memory<'h>) -> Result<Verified<Memory<'h>>, Fail> {
    let words = Vec::from_slice(heap, &ERASE)?;
    let Ok(text) = Text::of(1, 4, 5, words) else {
        return Err("the words are a text".into());
    };
    heap.refuse(Refusal::Always);
    let verified = verify(text, Geometry::of(SMALL_CHIP)?);
    heap.refuse(Refusal::Never);
    match verified {
        Ok(verified) => Ok(verified),
        Err(_) => Err("the text is refused".into()),
    }
}

// The job of the erase on a LUN, made while all requests are refused.
fn make_job<'h>(
    heap: Memory<'h>,
    lun: Lun,
) -> Result<Result<Job<Memory<'h>>, JobRefused<Memory<'h>>>, Fail> {
    let verified = verify_erase(heap)?;
    let buffer = Vec::from_slice(heap, &BUFFER)?;
    heap.refuse(Refusal::Always);
    let job = Job::new(Geometry::of(SMALL_CHIP)?, 1, lun, 4, verified, buffer);
    heap.refuse(Refusal::Never);
    Ok(job)
}

// A job that must be made.
fn new_job<'h>(heap: Memory<'h>) -> Result<Job<Memory<'h>>, Fail> {
    match make_job(heap, LUN_0)? {
        Ok(job) => Ok(job),
        Err(_) => Err("the job is refused".into()),
    }
}

// Steps LUN 0 with ample memory, which must answer so.
fn step(heap: Memory<'_>, core: &mut Core<Memory<'_>>, answers: &[Stepped]) -> Result<(), Fail> {
    heap.refuse(Refusal::Never);
    for answer in answers {
        if core.step(LUN_0)? != *answer {
            return Err("another answer".into());
        }
    }
    heap.refuse(Refusal::Always);
    Ok(())
}

// Loads an erase; a second one is refused.
fn load<'h>(
    heap: Memory<'h>,
    core: &mut Core<Memory<'h>>,
    job: Job<Memory<'h>>,
    second: Job<Memory<'h>>,
) -> Result<bool, Fail> {
    heap.refuse(Refusal::Always);
    let is_admitted = core.admits(LUN_0, &job).is_ok() && core.admits(LUN_1, &job).is_err();
    let is_loaded = core.load(LUN_0, job).is_ok();
    let is_refused = match core.load(LUN_0, second) {
        Ok(()) => false,
        Err(refused) => refused.fault == LoadFault::SlotTaken,
    };
    Ok(is_admitted && is_loaded && is_refused)
}

// A sequencer on one new die, made while all requests are refused.
fn new_core<'h>(heap: Memory<'h>) -> Result<Core<Memory<'h>>, Fail> {
    let bus = new_bus(heap, SMALL_CHIP)?;
    heap.refuse(Refusal::Always);
    let core = Core::new(bus);
    heap.refuse(Refusal::Never);
    Ok(core)
}

// Whether a job on a LUN that isn't there is refused.
fn is_missing(heap: Memory<'_>) -> Result<bool, Fail> {
    match make_job(heap, LUN_1)? {
        Ok(_) => Ok(false),
        Err(refused) => Ok(refused.fault == JobFault::NoSuchLun),
    }
}

// The numbers of the two LUNs are told.
fn has_numbers(core: &Core<Memory<'_>>) -> bool {
    core.number(LUN_0) == Some(0) && core.number(LUN_1).is_none()
}

// Loads an erase, and a second one, which is refused.
fn load_two<'h>(heap: Memory<'h>, core: &mut Core<Memory<'h>>) -> Result<bool, Fail> {
    let job = new_job(heap)?;
    let second = new_job(heap)?;
    load(heap, core, job, second)
}

// The erase begins: its LUN holds the bus up to the first poll.
fn begins(heap: Memory<'_>, core: &mut Core<Memory<'_>>) -> Result<bool, Fail> {
    step(heap, core, &[Stepped::Went, Stepped::Went, Stepped::Went])?;
    let holds = core.holder() == Some(LUN_0);
    step(heap, core, &[Stepped::NotReady])?;
    Ok(holds && core.holder().is_none())
}

// It still runs, and its LUN becomes ready once.
fn becomes_ready(core: &mut Core<Memory<'_>>) -> bool {
    let still_runs = matches!(core.unload(LUN_0), Err(UnloadFault::StillRunning));
    let is_ready = core.ready(LUN_0, Failures::default())
        && !core.ready(LUN_0, Failures::default());
    still_runs && is_ready && !core.array_ready(LUN_0, false)
}

// It ends, and gives its job back.
fn ends(heap: Memory<'_>, core: &mut Core<Memory<'_>>) -> Result<bool, Fail> {
    step(heap, core, &[Stepped::Went, Stepped::Ended])?;
    Ok(match core.unload(LUN_0) {
        Ok(done) => done.code == 0 && done.job.buffer() == BUFFER.as_slice(),
        Err(_) => false,
    })
}

// Whether an erase goes so.
fn goes_so(heap: Memory<'_>) -> Result<bool, Fail> {
    let mut core = new_core(heap)?;
    let is_loaded = has_numbers(&core) && load_two(heap, &mut core)?;
    let begins = begins(heap, &mut core)?;
    let is_ready = becomes_ready(&mut core);
    Ok(ends(heap, &mut core)? && is_loaded && begins && is_ready)
}

#[test]
fn an_erase_takes_memory_for_its_steps_alone(rt: HostRuntime) -> Result<(), Fail> {
    let heap = TestHeap::new(rt.alloc());
    let goes_so = goes_so(&heap)?;
    heap.refuse(Refusal::Never);
    let is_missing = is_missing(&heap)?;
    assert!(rt; goes_so && is_missing && heap.refused() == 0);
    Ok(())
}

// A command, and an address byte 00.
fn command(byte: u8) -> Cycle
    ensures { is_output result.kind ≡ false }
{
    Cycle {
        ce: 0,
        kind: Kind::Cmd,
        byte,
    }
}

fn address(byte: u8) -> Cycle
    ensures { is_output result.kind ≡ false }
{
    Cycle {
        ce: 0,
        kind: Kind::Adr,
        byte,
    }
}

// Puts a command with the five bytes of an address onto a bus: the first column of a row.
fn open_page(bus: &mut Bus<Memory<'_>>, byte: u8, row: u8) -> Result<(), Fail> {
    bus.put(command(byte))?;
    for byte in [0x00, 0x00, row, 0x00, 0x00].iter() {
        bus.put(address(*byte))?;
    }
    Ok(())
}

// Puts the commands of a cache read onto a bus, up to its busy array.
fn read_into_cache(bus: &mut Bus<Memory<'_>>, heap: Memory<'_>) -> Result<bool, Fail> {
    open_page(bus, 0x00, 0)?;
    bus.put(command(0x30))?;
    heap.refuse(Refusal::Always);
    let is_ready = bus.ready(LUN_0, Failures::default()) && !bus.ready(LUN_0, Failures::default());
    heap.refuse(Refusal::Never);
    bus.put(command(0x31))?;
    heap.refuse(Refusal::Always);
    Ok(is_ready)
}

// Puts the programs of both planes onto a bus, row 0 and row 4, the first of which is queued, up to its busy LUN.
fn program_two_planes(bus: &mut Bus<Memory<'_>>) -> Result<bool, Fail> {
    open_page(bus, 0x80, 0)?;
    bus.put(command(0x11))?;
    let is_ready = bus.ready(LUN_0, Failures::default());
    open_page(bus, 0x80, 4)?;
    bus.put(command(0x10))?;
    Ok(is_ready)
}

const TWO_PLANES: Parts = Parts {
    plane_bits: 1,
    multi_plane: true,
    ..SMALL_CHIP
};

// Whether a die ends the programs of two planes.
fn ends_programs(heap: Memory<'_>) -> Result<bool, Fail> {
    let mut bus = new_bus(heap, TWO_PLANES)?;
    let is_queued = program_two_planes(&mut bus)?;
    heap.refuse(Refusal::Always);
    Ok(is_queued && bus.ready(LUN_0, Failures::default()) && !bus.ready(LUN_0, Failures::default()))
}

// A die ends the programs of two planes without memory.
#[test]
fn queued_work_ends_without_memory(rt: HostRuntime) -> Result<(), Fail> {
    let heap = TestHeap::new(rt.alloc());
    let ends = ends_programs(&heap)?;
    assert!(rt; ends && heap.refused() == 0);
    Ok(())
}

const CACHED: Parts = Parts {
    cache: true,
    ..SMALL_CHIP
};

// Whether the LUN and the array of a cache read become ready.
fn cache_is_ready(heap: Memory<'_>) -> Result<bool, Fail> {
    let mut bus = new_bus(heap, CACHED)?;
    let is_read = read_into_cache(&mut bus, heap)?;
    let is_ready = bus.ready(LUN_0, Failures::default());
    Ok(is_read && is_ready && bus.array_ready(LUN_0, false) && !bus.array_ready(LUN_0, false))
}

// Whether a new die has no work to end.
fn die_is_ready(heap: Memory<'_>) -> Result<bool, Fail> {
    let mut die = LunDie::new(heap, Geometry::of(SMALL_CHIP)?)?;
    heap.refuse(Refusal::Always);
    die.finish(Failures::default());
    die.finish_array(false);
    Ok(die.is_new())
}

#[test]
fn readies_take_no_memory(rt: HostRuntime) -> Result<(), Fail> {
    let heap = TestHeap::new(rt.alloc());
    let die = die_is_ready(&heap)?;
    heap.refuse(Refusal::Never);
    let cache = cache_is_ready(&heap)?;
    assert!(rt; die && cache && heap.refused() == 0);
    Ok(())
}
