use crate::channel::{Program, core_of, job_of, told};
use crate::live_tests::Dies;
use crate::noted_pins::{NotedChips, are_cycles_of};
use micro_word::Word;
use nand_geometry::{Geometry, Parts, SMALL_CHIP};
use onfi_cycle::{Kind, Lun};
use seq_core::LoadFault;
use seq_live::{Live, LiveJob, OutOfTurn, Pins, RunEnd, RunLimits, run_live};
use std::alloc::Global;
use std::process::Abort;
use std::test::Fail;

// Two LUNs of 8 blocks of 4 pages.
const TWO_LUNS: Parts = Parts {
    luns: 2,
    enhanced: true,
    ..SMALL_CHIP
};

// The same with a second plane, of which no job is taken.
const OTHER: Parts = Parts {
    plane_bits: 1,
    ..TWO_LUNS
};

// The pages of each die: of row 0 all 11h, of row 5 all 22h.
const PAGES: [(u8, u8); 2] = [(0, 0x11), (5, 0x22)];

// Reads four bytes of the job's page, and ends with code 7.
const READ: [Word; 7] = [
    Word::Command { byte: 0x00 },
    Word::Address { from: 0, count: 5 },
    Word::Command { byte: 0x30 },
    Word::Wait,
    Word::Command { byte: 0x00 },
    Word::Get { len: 4 },
    Word::End { code: 7 },
];

const LIMITS: RunLimits = RunLimits {
    busy_polls: 10,
    rounds: 1000,
};

// Modelled dies whose LUNs become ready at every third poll, but for one that never does.
#[derive(Drop)]
pub(crate) struct Chips {
    dies: Dies,
    dead: Option<u8>,
    polls: u32,
}

impl Chips {
    fn new(alloc: Global, dead: Option<u8>) -> Result<Chips, Fail> {
        Ok(Chips {
            dies: Dies {
                bus: core_of(alloc, TWO_LUNS, &PAGES)?.into_bus(),
                refused: 0,
            },
            dead,
            polls: 0,
        })
    }

    // A poll begins.
    fn poll(&mut self) {
        self.polls = self.polls.saturating_add(1);
        if self.polls % 3 == 0 {
            for lun in 0..TWO_LUNS.luns {
                if self.dead != Some(lun) {
                    self.dies.bus.ready(Lun { ce: 0, lun }, told(false));
                }
            }
        }
    }
}

impl Pins for Chips {
    fn give(&mut self, ce: u8, kind: Kind, bytes: &[u8]) {
        if matches!(kind, Kind::Cmd) && bytes.first() == Some(&0x78) {
            self.poll();
        }
        self.dies.give(ce, kind, bytes);
    }

    fn take(&mut self, ce: u8, bytes: &mut [u8]) {
        self.dies.take(ce, bytes);
    }
}

// What has come of a job.
#[derive(Clone, Copy, Debug, PartialEq, Eq)]
enum Came {
    Waits,
    Runs,
    // Its code, and the four bytes that it read.
    Done(u8, [u8; 4]),
    // After so many polls that said busy.
    Abandoned(u64),
    Refused(LoadFault),
}

// The first four bytes of a buffer.
fn four_bytes(buffer: &[u8]) -> [u8; 4] {
    let mut four = [0; 4];
    for place in 0..4usize {
        if let Some(byte) = buffer.get(place) {
            four[place] = *byte;
        }
    }
    four
}

fn what_came(job: &LiveJob) -> Came {
    match job {
        LiveJob::Waiting(_) => Came::Waits,
        LiveJob::Running(_) => Came::Runs,
        LiveJob::Done(done) => Came::Done(done.code, four_bytes(done.job.buffer())),
        LiveJob::Abandoned(on) => Came::Abandoned(on.busy_polls),
        LiveJob::Refused(refused) => Came::Refused(refused.fault),
    }
}

// So has come of each job.
fn have_come(jobs: &[LiveJob], wanted: &[Came]) -> bool {
    if jobs.len() != wanted.len() {
        return false;
    }
    for place in 0..jobs.len() {
        if let (Some(job), Some(wanted)) = (jobs.get(place), wanted.get(place)) {
            if what_came(job) != *wanted {
                return false;
            }
        }
    }
    true
}

// A job to be handed in: reads a row of a LUN.
fn reads(alloc: Global, parts: Parts, lun: u8, row: u32) -> Result<LiveJob, Fail> {
    let program = Program {
        rows: 1,
        buffer: 4,
        budget: 12,
        words: &READ,
        given: &[],
    };
    let job = job_of(alloc, parts, Lun { ce: 0, lun }, row, program)?.ok_or("it is refused")?;
    Ok(LiveJob::Waiting(job))
}

// Jobs that read these rows of these LUNs.
fn all_read(alloc: Global, places: &[(u8, u32)]) -> Result<Vec<LiveJob>, Fail> {
    let mut jobs = Vec::new(alloc);
    for (lun, row) in places {
        jobs.push(reads(alloc, TWO_LUNS, *lun, *row)?)?;
    }
    Ok(jobs)
}

fn new_live() -> Result<Live, Fail> {
    Ok(Live::new(Geometry::of(TWO_LUNS)?, 1).ok_or("there are too many targets")?)
}

// A run within these limits with room for so many bytes, how it ends, and what has come of each job then.
struct Run {
    limits: RunLimits,
    room: usize,
    end: Result<RunEnd, OutOfTurn>,
    come: &'static [Came],
}

// Jobs that read these rows of these LUNs, and one for another geometry; a LUN that never becomes ready; and runs, one after another.
struct Scene {
    places: &'static [(u8, u32)],
    has_other: bool,
    dead: Option<u8>,
    runs: &'static [Run],
}

const FIRST_PAGE: Came = Came::Done(7, [0x11; 4]);

const LAST_PAGE: Came = Came::Done(7, [0x22; 4]);

const TWO_JOBS: Scene = Scene {
    places: &[(0, 0), (1, 5)],
    has_other: false,
    dead: None,
    runs: &[Run {
        limits: LIMITS,
        room: 4,
        end: Ok(RunEnd::AllBack),
        come: &[FIRST_PAGE, LAST_PAGE],
    }],
};

// LUN 0 never becomes ready: its first job is abandoned after ten polls and its second handed back, and both jobs of LUN 1 end.
const DEAD_LUN: Scene = Scene {
    places: &[(0, 0), (0, 5), (1, 0), (1, 5)],
    has_other: false,
    dead: Some(0),
    runs: &[Run {
        limits: LIMITS,
        room: 4,
        end: Ok(RunEnd::AllBack),
        come: &[
            Came::Abandoned(10),
            Came::Refused(LoadFault::SlotTaken),
            FIRST_PAGE,
            LAST_PAGE,
        ],
    }],
};

// Six jobs on two LUNs, and one of another geometry, which LUN 1 hands back.
const MORE_JOBS: Scene = Scene {
    places: &[(0, 0), (0, 5), (1, 5), (0, 0), (1, 0), (1, 5)],
    has_other: true,
    dead: None,
    runs: &[Run {
        limits: LIMITS,
        room: 4,
        end: Ok(RunEnd::AllBack),
        come: &[
            FIRST_PAGE,
            LAST_PAGE,
            LAST_PAGE,
            FIRST_PAGE,
            FIRST_PAGE,
            LAST_PAGE,
            Came::Refused(LoadFault::OtherGeometry),
        ],
    }],
};

// After the first round each LUN's first job is loaded; a later run goes on where this one ended.
const GOES_ON: Scene = Scene {
    places: &[(0, 0), (0, 5), (1, 5)],
    has_other: false,
    dead: None,
    runs: &[
        Run {
            limits: RunLimits {
                busy_polls: 10,
                rounds: 1,
            },
            room: 4,
            end: Ok(RunEnd::SomeLeft),
            come: &[Came::Runs, Came::Waits, Came::Runs],
        },
        Run {
            limits: LIMITS,
            room: 4,
            end: Ok(RunEnd::AllBack),
            come: &[FIRST_PAGE, LAST_PAGE, LAST_PAGE],
        },
    ],
};

// Its `get` takes four bytes: with room for three the run stops there, and with room for four it goes on.
const LITTLE_ROOM: Scene = Scene {
    places: &[(1, 5)],
    has_other: false,
    dead: None,
    runs: &[
        Run {
            limits: LIMITS,
            room: 3,
            end: Err(OutOfTurn::NoRoom),
            come: &[Came::Runs],
        },
        Run {
            limits: LIMITS,
            room: 4,
            end: Ok(RunEnd::AllBack),
            come: &[LAST_PAGE],
        },
    ],
};

// Makes a run. Whether it ends as it must, with what must have come of each job.
fn ends_so(live: &mut Live, chips: &mut NotedChips, jobs: &mut [LiveJob], run: &Run) -> bool {
    let mut taken = [0u8; 4];
    let (room, _) = taken.split_at_mut(run.room.min(4));
    let end = run_live(live, chips, jobs, room, run.limits);
    end == run.end && have_come(jobs, run.come)
}

// How many cycles the rules were against; none if the pins have kept other cycles than came.
fn refused_of(pins: &NotedChips) -> Option<usize> {
    let trace = pins.chips.dies.bus.trace();
    if pins.has_all && are_cycles_of(pins.cycles.as_slice(), trace) {
        Some(pins.chips.dies.refused)
    } else {
        None
    }
}

// Makes the runs of a scene. The place of the first that doesn't end as it must, and how many cycles the rules were against.
fn play_scene(alloc: Global, scene: &Scene) -> Result<(Option<usize>, Option<usize>), Fail> {
    let mut live = new_live()?;
    let mut chips = NotedChips {
        chips: Chips::new(alloc, scene.dead)?,
        cycles: Vec::new(alloc),
        has_all: true,
    };
    let mut jobs = all_read(alloc, scene.places)?;
    if scene.has_other {
        jobs.push(reads(alloc, OTHER, 1, 0)?)?;
    }
    for (place, run) in scene.runs.iter().enumerate() {
        if !ends_so(&mut live, &mut chips, jobs.as_mut_slice(), run) {
            return Ok((Some(place), refused_of(&chips)));
        }
    }
    Ok((None, refused_of(&chips)))
}

const SCENES: &[Scene] = &[TWO_JOBS, DEAD_LUN, MORE_JOBS, GOES_ON, LITTLE_ROOM];

#[test]
fn runs_of_jobs(rt: HostRuntime) -> Result<(), Fail> {
    for (number, scene) in SCENES.iter().enumerate() {
        let told = play_scene(rt.alloc(), scene)?;
        assert_eq!(rt; told, (None, Some(0)), "scene {number}");
    }
    Ok(())
}
