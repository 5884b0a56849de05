// How many words the programs of a run step at most.
use crate::tests::{make_files, none_is_wrong};
use nand_geometry::Profile;
use run_file::parse_run;
use run_plan::plan_run;
use std::alloc::Global;
use std::test::Fail;

// A program without cycles in loops, and how many words it steps: counted word by word, as a reader would, and not by the code.
const LOOPS: &str =
    "rows 1\nbuffer 0\nbudget 0\nloop 3\nloop 2\nseek 0\nnext\nnext\nseek 0\nend 0\n";

const STEPS_OF_LOOPS: u64 = 21;

// Four loops of 4,096 turns each around one word.
const DEEP: &str =
    "rows 1\nbuffer 0\nbudget 0\nloop 4096\nloop 4096\nloop 4096\nloop 4096\nseek 0\nnext\nnext\nnext\nnext\nend 0\n";

const STEPS_OF_DEEP: u64 = 563_087_425_937_410;

// An erase that ends by its status: five words to the branch, and two ends, of which it comes to one.
const TELLING: &str =
    "rows 1\nbuffer 0\nbudget 5\ncmd 60\naddr 2 3\ncmd d0\nwait\nbrs 01 failed\nend 0\nfailed:\nend 1\n";

const STEPS_OF_TELLING: u64 = 7;

// How many words the jobs of a run file step at most.
fn count(alloc: Global, run: &str) -> Result<Option<u64>, Fail> {
    let mut files = make_files(alloc)?;
    files.put("loops", LOOPS.as_bytes())?;
    files.put("deep", DEEP.as_bytes())?;
    files.put("telling", TELLING.as_bytes())?;
    let text = parse_run(run, alloc)?;
    Ok(match plan_run(alloc, &mut files, Profile::Base, &text) {
        Ok(plan) => Some(plan.jobs.steps),
        Err(_) => None,
    })
}

// The jobs of a run file, and how many words they step at most.
const COUNTED: &[(&str, u64)] = &[
    ("", 0),
    ("job 0 0 0 erase - -\n", 5),
    ("job 0 0 0 loops - -\n", STEPS_OF_LOOPS),
    ("job 0 0 0 telling - -\n", STEPS_OF_TELLING),
    ("job 0 0 0 deep - -\n", STEPS_OF_DEEP),
    (
        "job 0 0 0 loops - -\njob 0 0 4 erase - -\n",
        STEPS_OF_LOOPS + 5,
    ),
];

// Whether so many are counted of these jobs.
fn is_counted(alloc: Global, jobs: &str, steps: u64) -> Result<bool, Fail> {
    let run = format!(in alloc; "page one\ntargets 1\n{jobs}")?;
    Ok(count(alloc, run.as_str())? == Some(steps))
}

// The place of the first jobs of which other steps are counted.
fn first_other(alloc: Global) -> Result<Option<usize>, Fail> {
    for (place, (jobs, steps)) in COUNTED.iter().enumerate() {
        if !is_counted(alloc, jobs, *steps)? {
            return Ok(Some(place));
        }
    }
    Ok(None)
}

#[test]
fn steps_are_counted(rt: HostRuntime) -> Result<(), Fail> {
    none_is_wrong(first_other(rt.alloc())?)
}
