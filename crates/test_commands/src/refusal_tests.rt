use crate::tests::is_right;
use seq_core::JobFault;
use seq_inputs::{Fault, Refusal, words_of};
use std::alloc::{AllocError, Global};
use std::test::Fail;

const NO_SUCH_LUN: Fault = Fault::Job {
    fault: JobFault::NoSuchLun,
};

// Whether the words of that fault are these.
fn has_fault_words(alloc: Global) -> Result<bool, Fail> {
    let words = words_of(alloc, "in", NO_SUCH_LUN).ok_or("no words")?;
    let told = format!(in alloc; "{words}")?;
    Ok(told.as_str() == "in: there is no such LUN (S2)")
}

// Whether the line of that refusal is this.
fn has_refusal_line(alloc: Global, line: Option<usize>, text: &str) -> Result<bool, AllocError> {
    let refusal = Refusal {
        fault: NO_SUCH_LUN,
        line,
    };
    let told = refusal.text(alloc)?;
    Ok(told.as_str() == text)
}

// What no file of a command is refused for, and the number that is told.
#[test]
fn refusals_of_jobs(rt: HostRuntime) -> Result<(), Fail> {
    let words = has_fault_words(rt.alloc())?;
    let none = has_refusal_line(rt.alloc(), None, "refused S2 at 0\n")?;
    let seventh = has_refusal_line(rt.alloc(), Some(7), "refused S2 at 7\n")?;
    is_right(words && none && seventh)
}
