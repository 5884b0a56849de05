ghost use Rattle.std.specs.Prelude.{◌≡◌, true};
ghost use Rattle.die_model.specs.Die.{effect_of, is_row_of, row_of_work, goes_with};
ghost use Rattle.onfi_cycle.specs.Effect.{HasPlanes};
ghost use Rattle.onfi_cycle.specs.Rules.{planes_clash};

use die_model::{ImageFault, ImageRefusal, LunDie, Work};
use nand_geometry::{Geometry, Parts, SMALL_CHIP};
use onfi_cycle::{Failures, PageAddress, Queued, Status};
use std::alloc::{AllocError, Allocator, Global};
use std::process::Abort;
use std::test::Fail;

const ONE_PLANE: Parts = SMALL_CHIP;

const TWO_PLANES: Parts = Parts {
    plane_bits: 1,
    multi_plane: true,
    ..ONE_PLANE
};

// The bytes of a page.
const LEN: usize = 528;

// The rows 0 and 4 of ONE_PLANE.
const ROW_0: PageAddress = PageAddress { block: 0, page: 0 };

const ROW_4: PageAddress = PageAddress { block: 1, page: 0 };

fn geometry(parts: Parts) -> Result<Geometry, Fail> {
    Ok(Geometry::of(parts).ok().ok_or("the parts are a geometry")?)
}

fn new_die<A: Allocator + Copy>(alloc: A, parts: Parts) -> Result<LunDie<A>, Fail> {
    Ok(LunDie::new(alloc, geometry(parts)?)?)
}

// ---- what `begin` requires, looked at

fn row_of(work: Work) -> Option<PageAddress>
    ensures { result ≡ row_of_work work }
{
    match work {
        Work::Read(at)
        | Work::Copyback { page: at, .. }
        | Work::Program(at)
        | Work::CacheProgram(at)
        | Work::Erase(at)
        | Work::Queue(Queued::Erase(at))
        | Work::Queue(Queued::Program(at))
        | Work::Queue(Queued::Read(at)) => Some(at),
        Work::Identifier
        | Work::Parameters
        | Work::Identity { .. }
        | Work::UniqueId
        | Work::Features(_)
        | Work::SetFeatures(_)
        | Work::Reset
        | Work::Cache(_)
        | Work::CacheEnd => None,
    }
}

fn is_row(geometry: &Geometry, row: Option<PageAddress>) -> bool
    ensures { result ≡ is_row_of geometry.now row }
{
    let parts = geometry.parts();
    match row {
        None => true,
        Some(at) => at.block < parts.blocks && at.page < u64::from(parts.pages),
    }
}

// Two pages don't go together in one queue.
fn planes_clash(geometry: &Geometry, p: PageAddress, q: PageAddress) -> bool
    ensures { result ≡ planes_clash geometry.now p q }
{
    let planes = geometry.planes();
    let blocks_clash = !geometry.parts().optional.has_free_blocks()
        && p.block / planes != q.block / planes;
    p.block % planes == q.block % planes || p.page != q.page || blocks_clash
}

// The work goes together with a queue of one program at most.
fn goes_with(geometry: &Geometry, work: Work, queue: &[Queued]) -> bool
    ensures { result ≡ true → goes_with geometry.now work queue.now ≡ true }
{
    match queue {
        [] => true,
        [Queued::Program(first)] => match work {
            Work::Program(at) => !planes_clash(geometry, at, *first),
            Work::Reset => true,
            _ => false,
        },
        _ => false,
    }
}

// A read for a copyback is by a LUN of some planes.
fn has_planes(work: Work) -> bool
    ensures { result ≡ true → HasPlanes (effect_of work) }
{
    match work {
        Work::Copyback { planes, .. } => planes > 0,
        _ => true,
    }
}

// Begins a work. Whether there was memory for it.
fn has_begun<A: Allocator + Copy>(die: &mut LunDie<A>, work: Work) -> Result<bool, Fail> {
    die.forget_array_page();
    let geometry = die.geometry();
    let together = goes_with(&geometry, work, die.queued());
    let room = die.queued().len() < 16;
    let ready = work == Work::Reset || !die.is_busy();
    let planes = has_planes(work);
    if !(is_row(&geometry, row_of(work)) && together && ready && room && planes) {
        return Err("the work can begin".into());
    }
    Ok(die.begin(work).is_ok())
}

fn begin<A: Allocator + Copy>(die: &mut LunDie<A>, work: Work) -> Result<(), Fail> {
    if has_begun(die, work)? {
        Ok(())
    } else {
        Err("there is memory".into())
    }
}

// Fills the register of the plane with FF and one other byte.
fn put<A: Allocator + Copy>(
    die: &mut LunDie<A>,
    plane: usize,
    column: usize,
    byte: u8,
) -> Result<(), Fail> {
    let geometry = die.geometry();
    if plane >= geometry.planes() as usize || column >= geometry.page_len() as usize {
        return Err("the plane has the column".into());
    }
    die.clear(plane);
    die.fill(plane, column, byte);
    Ok(())
}

// Works through to the ready.
fn end<A: Allocator + Copy>(die: &mut LunDie<A>, work: Work, fail: bool) -> Result<(), Fail> {
    begin(die, work)?;
    die.finish(Failures {
        last: fail,
        before: false,
    });
    Ok(())
}

// A page is programmed with one byte and FF, on a die with one plane.
fn program<A: Allocator + Copy>(
    die: &mut LunDie<A>,
    at: PageAddress,
    column: usize,
    byte: u8,
) -> Result<(), Fail> {
    put(die, 0, column, byte)?;
    end(die, Work::Program(at), false)
}

// A byte of a page, read as a bus reads it.
fn read<A: Allocator + Copy>(
    die: &mut LunDie<A>,
    at: PageAddress,
    column: usize,
) -> Result<Option<u8>, Fail> {
    end(die, Work::Read(at), false)?;
    Ok(die.shown(column))
}

// Programs each page of a block.
fn program_block<A: Allocator + Copy>(die: &mut LunDie<A>, block: u32) -> Result<(), Fail> {
    for page in 0..4u64 {
        program(die, PageAddress { block, page }, 7, 0x11)?;
    }
    Ok(())
}

// Each page of a block has this byte.
fn block_has<A: Allocator + Copy>(die: &mut LunDie<A>, block: u32, byte: u8) -> Result<bool, Fail> {
    for page in 0..4u64 {
        if read(die, PageAddress { block, page }, 7)? != Some(byte) {
            return Ok(false);
        }
    }
    Ok(true)
}

// ---- images

// What an image of ONE_PLANE begins with, before its count.
const START: [u8; 20] = [
    b'N', b'D', b'I', b'1', 0, 2, 0, 0, 16, 0, 0, 0, 4, 0, 0, 0, 8, 0, 0, 0,
];

// Writes the entry of a page with this first byte, and FF behind it.
fn write_page<A: Allocator>(
    image: &mut Vec<u8, A>,
    row: [u8; 4],
    byte: u8,
) -> Result<(), AllocError> {
    image.extend_from_slice(&row)?;
    image.push(byte)?;
    for _ in 1..LEN {
        image.push(0xff)?;
    }
    Ok(())
}

// An image of pages with these rows below 256 and first bytes.
fn image_of(alloc: Global, pages: &[(u8, u8)]) -> Result<Vec<u8>, AllocError> {
    let mut image = Vec::from_slice(alloc, &START)?;
    image.extend_from_slice(&[pages.len().min(255) as u8, 0, 0, 0])?;
    for (row, byte) in pages {
        write_page(&mut image, [*row, 0, 0, 0], *byte)?;
    }
    Ok(image)
}

// The image of a die that holds the rows 0 and 4.
fn rows_0_and_4(alloc: Global) -> Result<Vec<u8>, AllocError> {
    image_of(alloc, &TWO)
}

// The die writes these bytes as its image.
fn writes<A: Allocator + Copy>(die: &LunDie<A>, bytes: &[u8]) -> Result<bool, AllocError> {
    let image = die.image()?;
    Ok(image.as_slice() == bytes)
}

// Loads an image into a new die.
fn load<A: Allocator + Copy>(
    die: &mut LunDie<A>,
    bytes: &[u8],
) -> Result<Result<(), ImageRefusal>, Fail> {
    if !die.is_new() {
        return Err("the die is new".into());
    }
    Ok(die.load_image(bytes))
}

// An image is taken.
fn takes<A: Allocator + Copy>(die: &mut LunDie<A>, bytes: &[u8]) -> Result<bool, Fail> {
    Ok(load(die, bytes)?.is_ok())
}

// ---- what is tried on a die

// What is done to a die or asked of it, and what must come of it.
#[derive(Clone, Copy)]
enum Try {
    // The die is new.
    New,
    // The status byte.
    Status(u8),
    // A page is programmed with one byte and FF, on a die with one plane.
    Program(PageAddress, usize, u8),
    // The register of a plane is filled with FF and one byte.
    Put(usize, usize, u8),
    Begin(Work),
    // The ready, with failure of its own work or without.
    Finish(bool),
    // The ready, with failure of the page before.
    FinishBefore,
    // The ready of the array, with failure or without.
    FinishArray(bool),
    // A page is read, and the byte of a column is this.
    Read(PageAddress, usize, Option<u8>),
    // The byte of a page that isn't read.
    Holds(PageAddress, usize, Option<u8>),
    // Each page of a block is programmed, or has this byte then.
    ProgramBlock(u32),
    BlockHas(u32, u8),
    // The image of these pages is written, or taken.
    Writes(&'static [(u8, u8)]),
    Takes(&'static [(u8, u8)]),
}

// Whether what is done to pages and registers comes as it must.
fn is_done<A: Allocator + Copy>(die: &mut LunDie<A>, wanted: Try) -> Result<bool, Fail> {
    match wanted {
        Try::Program(at, column, byte) => program(die, at, column, byte)?,
        Try::Put(plane, column, byte) => put(die, plane, column, byte)?,
        Try::Begin(work) => begin(die, work)?,
        Try::Finish(fail) => die.finish(Failures {
            last: fail,
            before: false,
        }),
        Try::FinishBefore => die.finish(Failures {
            last: false,
            before: true,
        }),
        Try::FinishArray(fail) => die.finish_array(fail),
        Try::ProgramBlock(block) => program_block(die, block)?,
        _ => return Ok(false),
    }
    Ok(true)
}

// Whether what is asked of a die comes as it must.
fn is_told<A: Allocator + Copy>(
    alloc: Global,
    die: &mut LunDie<A>,
    wanted: Try,
) -> Result<bool, Fail> {
    match wanted {
        Try::New => Ok(die.is_new()),
        Try::Status(byte) => Ok(die.status().0 == byte),
        Try::Read(at, column, byte) => Ok(read(die, at, column)? == byte),
        Try::Holds(at, column, byte) => Ok(die.page_byte(at, column) == byte),
        Try::BlockHas(block, byte) => block_has(die, block, byte),
        Try::Writes(pages) => Ok(writes(die, image_of(alloc, pages)?.as_slice())?),
        Try::Takes(pages) => takes(die, image_of(alloc, pages)?.as_slice()),
        _ => Ok(false),
    }
}

// Tries one thing after another on a new die. The place of one that doesn't come as it must is told.
fn try_all(rt: &impl Abort, alloc: Global, parts: Parts, tries: &[Try]) -> Result<(), Fail> {
    let mut die = new_die(alloc, parts)?;
    for (place, wanted) in tries.iter().enumerate() {
        let comes = is_done(&mut die, *wanted)? || is_told(alloc, &mut die, *wanted)?;
        assert!(rt; comes, "at {place}");
    }
    Ok(())
}

// The rows 0 and 4, with their first bytes, and others.
const TWO: [(u8, u8); 2] = [(0, 0x12), (4, 0x34)];

const LAST: [(u8, u8); 1] = [(31, 0x56)];

const BLANK: [(u8, u8); 1] = [(4, 0xff)];

const READ_AGAIN: [Try; 9] = [
    Try::Read(ROW_4, 3, Some(0xff)),
    Try::Program(ROW_4, 3, 0xa5),
    Try::Read(ROW_4, 3, Some(0xa5)),
    Try::Read(ROW_4, 2, Some(0xff)),
    Try::Read(ROW_4, LEN - 1, Some(0xff)),
    Try::Read(ROW_4, LEN, None),
    Try::Read(ROW_0, 3, Some(0xff)),
    // 1010 0101 and 0000 1111.
    Try::Program(ROW_4, 3, 0x0f),
    Try::Read(ROW_4, 3, Some(0x05)),
];

const FAILED_PROGRAM: [Try; 9] = [
    Try::Program(ROW_4, 3, 0xa5),
    Try::Status(0xe0),
    Try::Put(0, 3, 0x00),
    Try::Begin(Work::Program(ROW_4)),
    Try::Status(0x80),
    Try::Finish(true),
    Try::Status(0xe1),
    Try::Read(ROW_4, 3, Some(0xa5)),
    Try::Status(0xe0),
];

const ERASED_BLOCK: [Try; 8] = [
    Try::ProgramBlock(0),
    Try::ProgramBlock(1),
    Try::ProgramBlock(2),
    Try::Begin(Work::Erase(ROW_4)),
    Try::Finish(false),
    Try::BlockHas(0, 0x11),
    Try::BlockHas(1, 0xff),
    Try::BlockHas(2, 0x11),
];

const FAILED_ERASE: [Try; 5] = [
    Try::ProgramBlock(1),
    Try::Begin(Work::Erase(ROW_4)),
    Try::Finish(true),
    Try::Status(0xe1),
    Try::BlockHas(1, 0x11),
];

// A cache program takes effect at the ready of its array, unless that says that it failed.
const CACHED_PROGRAM: [Try; 15] = [
    Try::Put(0, 3, 0x0f),
    Try::Begin(Work::CacheProgram(ROW_4)),
    Try::Status(0x80),
    Try::Finish(false),
    Try::Status(0xc0),
    Try::Holds(ROW_4, 3, Some(0xff)),
    Try::FinishArray(false),
    Try::Status(0xe0),
    Try::Holds(ROW_4, 3, Some(0x0f)),
    Try::Put(0, 3, 0x00),
    Try::Begin(Work::CacheProgram(ROW_4)),
    Try::Finish(false),
    Try::FinishArray(true),
    Try::Status(0xe1),
    Try::Holds(ROW_4, 3, Some(0x0f)),
];

// The ready of the last program says that the page before it failed.
const FAILED_BEFORE: [Try; 9] = [
    Try::Put(0, 3, 0x0f),
    Try::Begin(Work::CacheProgram(ROW_4)),
    Try::Finish(false),
    Try::Put(0, 3, 0x33),
    Try::Begin(Work::Program(ROW_0)),
    Try::FinishBefore,
    Try::Status(0xe2),
    Try::Holds(ROW_4, 3, Some(0xff)),
    Try::Holds(ROW_0, 3, Some(0x33)),
];

const RESET_PROGRAM: [Try; 5] = [
    Try::Put(0, 0, 0x22),
    Try::Begin(Work::Program(ROW_0)),
    Try::Begin(Work::Reset),
    Try::Finish(false),
    Try::Read(ROW_0, 0, Some(0xff)),
];

const RESET_ERASE: [Try; 5] = [
    Try::Program(ROW_0, 0, 0x22),
    Try::Begin(Work::Erase(ROW_0)),
    Try::Begin(Work::Reset),
    Try::Finish(false),
    Try::Read(ROW_0, 0, Some(0x22)),
];

// A queued program is abandoned, so the one behind the reset goes alone.
const RESET_QUEUE: [Try; 10] = [
    Try::Put(0, 0, 0x00),
    Try::Put(1, 0, 0x33),
    Try::Begin(Work::Queue(Queued::Program(ROW_0))),
    Try::Finish(false),
    Try::Begin(Work::Reset),
    Try::Finish(false),
    Try::Begin(Work::Program(ROW_4)),
    Try::Finish(false),
    Try::Read(ROW_0, 0, Some(0xff)),
    Try::Read(ROW_4, 0, Some(0x33)),
];

// The rows 0 and 4 are programmed together, first with failure and then without.
const BOTH_PLANES: [Try; 21] = [
    Try::Put(0, 0, 0x44),
    Try::Put(1, 0, 0x55),
    Try::Begin(Work::Queue(Queued::Program(ROW_0))),
    Try::Finish(false),
    Try::Holds(ROW_0, 0, Some(0xff)),
    Try::Begin(Work::Program(ROW_4)),
    Try::Holds(ROW_0, 0, Some(0xff)),
    Try::Finish(true),
    Try::Status(0xe1),
    Try::Read(ROW_0, 0, Some(0xff)),
    Try::Read(ROW_4, 0, Some(0xff)),
    Try::Put(0, 0, 0x44),
    Try::Put(1, 0, 0x55),
    Try::Begin(Work::Queue(Queued::Program(ROW_0))),
    Try::Finish(false),
    Try::Holds(ROW_0, 0, Some(0xff)),
    Try::Begin(Work::Program(ROW_4)),
    Try::Holds(ROW_0, 0, Some(0xff)),
    Try::Finish(false),
    Try::Read(ROW_0, 0, Some(0x44)),
    Try::Read(ROW_4, 0, Some(0x55)),
];

const WRITTEN_IMAGE: [Try; 3] = [
    Try::Program(ROW_4, 0, 0x34),
    Try::Program(ROW_0, 0, 0x12),
    Try::Writes(&TWO),
];

const ERASED_IMAGE: [Try; 5] = [
    Try::Writes(&[]),
    Try::Program(ROW_4, 0, 0x34),
    Try::Begin(Work::Erase(ROW_4)),
    Try::Finish(false),
    Try::Writes(&[]),
];

const LOADED_IMAGE: [Try; 6] = [
    Try::Takes(&TWO),
    Try::New,
    Try::Writes(&TWO),
    Try::Read(ROW_0, 0, Some(0x12)),
    Try::Read(ROW_4, 0, Some(0x34)),
    Try::Read(ROW_4, 1, Some(0xff)),
];

// What was there before an image goes.
const WHOLE_CONTENT: [Try; 3] = [Try::Takes(&LAST), Try::Takes(&TWO), Try::Writes(&TWO)];

const BLANK_ENTRY: [Try; 4] = [
    Try::Takes(&BLANK),
    Try::Writes(&[]),
    Try::Program(ROW_4, 0, 0x34),
    Try::Read(ROW_4, 0, Some(0x34)),
];

const WORKS: &[&[Try]] = &[
    &READ_AGAIN,
    &FAILED_PROGRAM,
    &ERASED_BLOCK,
    &FAILED_ERASE,
    &CACHED_PROGRAM,
    &FAILED_BEFORE,
    &RESET_PROGRAM,
    &RESET_ERASE,
];

#[test]
fn works_take_effect(rt: HostRuntime) -> Result<(), Fail> {
    for tries in WORKS {
        try_all(&rt, rt.alloc(), ONE_PLANE, tries)?;
    }
    Ok(())
}

#[test]
fn queues_take_effect(rt: HostRuntime) -> Result<(), Fail> {
    let tables: [&[Try]; 2] = [&RESET_QUEUE, &BOTH_PLANES];
    for tries in tables {
        try_all(&rt, rt.alloc(), TWO_PLANES, tries)?;
    }
    Ok(())
}

const IMAGES: &[&[Try]] = &[
    &WRITTEN_IMAGE,
    &ERASED_IMAGE,
    &LOADED_IMAGE,
    &WHOLE_CONTENT,
    &BLANK_ENTRY,
];

#[test]
fn images_are_the_content(rt: HostRuntime) -> Result<(), Fail> {
    for tries in IMAGES {
        try_all(&rt, rt.alloc(), ONE_PLANE, tries)?;
    }
    assert_eq!(rt; rows_0_and_4(rt.alloc())?.len(), 1088);
    Ok(())
}

// ---- refused images

// A fault has this code and this text.
fn is_shown(alloc: Global, fault: ImageFault, code: &str, text: &str) -> Result<bool, Fail> {
    let shown = fault.to_string(alloc)?;
    let refused = ImageRefusal::Fault(fault).to_string(alloc)?;
    Ok(fault.code() == code && shown.as_str() == text && refused.as_str() == text)
}

#[test]
fn refusals_are_shown(rt: HostRuntime) -> Result<(), Fail> {
    let faults = [
        (
            ImageFault::Length,
            "I1",
            "the image isn't as long as its header says",
        ),
        (ImageFault::Magic, "I2", "the image doesn't begin with NDI1"),
        (
            ImageFault::Numbers,
            "I3",
            "the image is of a die with other sizes",
        ),
        (ImageFault::Order, "I4", "the rows of the image don't rise"),
        (
            ImageFault::Row,
            "I5",
            "a row of the image is outside the die",
        ),
    ];
    for (fault, code, text) in faults {
        assert!(rt; is_shown(rt.alloc(), fault, code, text)?);
    }
    let memory = ImageRefusal::OutOfMemory;
    assert_eq!(rt; memory.to_string(rt.alloc())?.as_str(), "out of memory");
    Ok(())
}
