//! The programs of a run whose headers are counted.

use run_plan::PlannedJobs;
use seq_inputs::{CountedHeader, Style};
use std::alloc::{AllocError, Global};
use std::collections::BTreeMap;
use std::io::Write;

// The headers that are counted for the programs of jobs, each once, in the order of the run file.
fn find_counted<'a>(
    alloc: Global,
    jobs: &PlannedJobs<'a>,
) -> Result<Vec<CountedHeader<'a>>, AllocError> {
    let mut seen = BTreeMap::new(alloc);
    let mut found = Vec::new(alloc);
    for job in jobs.all.as_slice() {
        if let Some(counted) = job.counted
            && seen
                .insert(String::from_str(alloc, counted.path)?, ())?
                .is_none()
        {
            found.push(counted)?;
        }
    }
    Ok(found)
}

/// Says which headers are counted for the programs of jobs, for each program once. Where standard error takes nothing, or there is no memory, nothing is said.
pub(crate) fn say_counted_headers<E: Write>(alloc: Global, errors: &mut E, jobs: &PlannedJobs<'_>) {
    let Ok(found) = find_counted(alloc, jobs) else {
        return;
    };
    for counted in found.as_slice() {
        counted.say(errors, Style::Plain);
    }
}
