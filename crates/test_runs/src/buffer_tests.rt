// How many bytes the buffers of a run have.
use crate::tests::{is_right, make_files};
use nand_geometry::Profile;
use run_file::parse_run;
use run_plan::plan_run;
use std::alloc::Global;
use std::test::Fail;

const THREE_JOBS: &str =
    "page one\ntargets 1\njob 0 0 0 both - -\njob 0 0 4 erase - -\njob 0 0 8 both - -\n";

// How many bytes the buffers of these jobs have.
fn count_bytes(alloc: Global) -> Result<Option<u64>, Fail> {
    let mut files = make_files(alloc)?;
    let text = parse_run(THREE_JOBS, alloc)?;
    Ok(match plan_run(alloc, &mut files, Profile::Base, &text) {
        Ok(plan) => Some(plan.jobs.buffer_bytes),
        Err(_) => None,
    })
}

// The buffers of all jobs are counted together, those of 4 bytes and those of none.
#[test]
fn buffers_are_counted(rt: HostRuntime) -> Result<(), Fail> {
    is_right(count_bytes(rt.alloc())? == Some(8))
}
