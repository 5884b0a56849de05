//! The lines `fail` of a run file that no ready met.

use crate::summary::Summary;
use run_file::{Numbered, Statement, parse_run};
use shown_text::Shown;
use std::alloc::Global;
use std::io::{self, Write};

// Says of a line that its ready didn't come.
fn say_unmet<E: Write>(
    errors: &mut E,
    run: &str,
    numbered: Numbered<'_>,
    summary: Summary,
) -> io::Result<()> {
    let Statement::Fail {
        target,
        lun,
        ready,
        ..
    } = numbered.statement
    else {
        return Ok(());
    };
    let count = summary.readies_of(target, lun);
    if u64::from(ready) <= count {
        return Ok(());
    }
    writeln!(
        errors,
        "{}:{}: nothing failed by this line: LUN {lun} of target {target} became ready {count} of {ready} times",
        Shown::path(run),
        numbered.line
    )
}

/// Says which lines `fail` of the text of a run file no ready of a run met. Where standard error takes nothing, or there is no memory, nothing is said.
pub(crate) fn say_unmet_fails<E: Write>(
    alloc: Global,
    errors: &mut E,
    run: &str,
    text: &str,
    summary: Summary,
) {
    let Ok(parsed) = parse_run(text, alloc) else {
        return;
    };
    for numbered in parsed.statements.as_slice() {
        let _ = say_unmet(errors, run, *numbered, summary);
    }
    let _ = errors.flush();
}
