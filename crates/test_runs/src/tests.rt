use nand_geometry::{Geometry, Parts, Profile, SMALL_CHIP};
use seq_files::MapFiles;
use seq_inputs::{Console, Exit};
use seq_run::{MOST_STEPS, RunRequest, run_on};
use std::alloc::Global;
use std::sync::Wait;
use std::test::Fail;
use std::thread::Threads;
use trace_files::TraceOutputs;
use trace_text::NoProgress;

// One LUN of 8 blocks of 4 pages of 512 + 16 bytes, in one plane.
pub(crate) const ONE_LUN: Parts = SMALL_CHIP;

// Two such LUNs, each in two planes.
pub(crate) const TWO_LUNS: Parts = Parts {
    luns: 2,
    plane_bits: 1,
    enhanced: true,
    multi_plane: true,
    ..ONE_LUN
};

// One such LUN with the cache read.
const CACHE: Parts = Parts {
    cache: true,
    ..ONE_LUN
};

// The erase of one block: cmd 60, addr 2 3, cmd d0, wait, end 0; rows 1, budget 5.
pub(crate) const ERASE: [u8; 36] = [
    0x4e, 0x4d, 0x50, 0x31, 0x05, 0x00, 0x01, 0x00, 0x00, 0x00, 0x00, 0x00, 0x05, 0x00, 0x00, 0x00,
    0x01, 0x60, 0x00, 0x00, 0x02, 0x02, 0x03, 0x00, 0x01, 0xd0, 0x00, 0x00, 0x0a, 0x00, 0x00, 0x00,
    0x00, 0x00, 0x00, 0x00,
];

// Programs two bytes of the buffer into page 0, and reads them back behind themselves: 22 words; rows 1, buffer 4, budget 19.
pub(crate) const BOTH: [u8; 104] = [
    0x4e, 0x4d, 0x50, 0x31, 22, 0, 1, 0, 4, 0, 0, 0, 19, 0, 0, 0, // the header
    8, 0, 0, 0, 9, 0, 0, 0, 6, 0, 0, 0, 5, 0, 0, 0, 1, 0x80, 0, 0, 2, 0, 5, 0, 4, 0, 2, 0, 1, 0x10,
    0, 0, 0x0a, 0, 0, 0, 0x0d, 1, 21, 0, // the program
    8, 0, 0, 0, 9, 0, 0, 0, 6, 0, 0, 0, 5, 0, 2, 0, 1, 0, 0, 0, 2, 0, 5, 0, 1, 0x30, 0, 0, 0x0a, 0,
    0, 0, 1, 0, 0, 0, 3, 0, 2, 0, // the read
    0, 0, 0, 0, 0, 1, 0, 0,
];

// The image of an erased die of the one LUN or of the two.
pub(crate) const EMPTY: [u8; 24] = [
    0x4e, 0x44, 0x49, 0x31, 0, 2, 0, 0, 16, 0, 0, 0, 4, 0, 0, 0, 8, 0, 0, 0, 0, 0, 0, 0,
];

// What became of a run: how it ended, and what it printed on standard output and on standard error.
#[derive(Drop)]
pub(crate) struct Played {
    pub end: Exit,
    pub output: Vec<u8>,
    pub errors: Vec<u8>,
}

// A run ended so, and printed and said this.
pub(crate) fn has_played(played: &Played, end: Exit, output: &str, errors: &str) -> bool {
    played.end == end
        && played.output.as_slice() == output.as_bytes()
        && played.errors.as_slice() == errors.as_bytes()
}

// No row is wrong.
pub(crate) fn none_is_wrong(wrong: Option<usize>) -> Result<(), Fail> {
    match wrong {
        None => Ok(()),
        Some(place) => Err(Fail::new(format_args!("row {place} comes to something else"))),
    }
}

// All is as it should be.
pub(crate) fn is_right(is_right: bool) -> Result<(), Fail> {
    if is_right {
        Ok(())
    } else {
        Err(Fail::from("it comes to something else"))
    }
}

// Files with the pages `one`, `two` and `cache` of these LUNs, the word files `erase` and `both`, and the image `empty`.
pub(crate) fn make_files(alloc: Global) -> Result<MapFiles, Fail> {
    let one = Geometry::of(ONE_LUN)?.page();
    let two = Geometry::of(TWO_LUNS)?.page();
    let cache = Geometry::of(CACHE)?.page();
    let mut files = MapFiles::new(alloc);
    files.put("one", &one)?;
    files.put("two", &two)?;
    files.put("cache", &cache)?;
    files.put("erase", &ERASE)?;
    files.put("both", &BOTH)?;
    files.put("empty", &EMPTY)?;
    Ok(files)
}

// A run of the file `run` with so many workers.
pub(crate) fn ask(workers: u8) -> RunRequest<'static> {
    RunRequest {
        path: "run",
        profile: Profile::Base,
        max_steps: MOST_STEPS,
        workers,
        is_quiet: false,
        times: None,
        trace: TraceOutputs::NONE,
        has_stats: false,
    }
}

// Does a run.
pub(crate) fn play<R: Threads + Wait + Sync + AllocGlobal>(
    rt: &R,
    files: &mut MapFiles,
    request: RunRequest<'_>,
) -> Played {
    let mut console = Console {
        output: Vec::new(rt.alloc()),
        errors: Vec::new(rt.alloc()),
        progress: NoProgress,
    };
    let end = run_on(rt, rt.alloc(), files, &mut console, request);
    Played {
        end,
        output: console.output,
        errors: console.errors,
    }
}

// The image of a die of the one LUN or of the two, one row of which begins with these bytes and is else erased.
pub(crate) fn make_image(alloc: Global, row: u8, first: &[u8]) -> Result<Vec<u8>, Fail> {
    let mut image = EMPTY.to_vec(alloc)?;
    image[20] = 1;
    image.extend_from_slice(&[row, 0, 0, 0])?;
    image.extend_from_slice(first)?;
    image.resize(556, 0xff)?;
    Ok(image)
}

// The files, with this run file.
pub(crate) fn files_of_run(alloc: Global, run: &[u8]) -> Result<MapFiles, Fail> {
    let mut files = make_files(alloc)?;
    files.put("run", run)?;
    Ok(files)
}
