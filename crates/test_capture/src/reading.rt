//! Reading a dump in a test, and spoiling it.

use bus_capture::{CaptureFault, Stamped};
use onfi_cycle::Item;
use std::alloc::{AllocError, Global};
use std::test::Fail;

// A status command and an output of one chip, as an analyzer records them: in nanoseconds, with DQ as a vector.
pub(crate) const STATUS: &str = "$timescale 1 ns $end\n\
$scope module top $end\n\
$var wire 1 c CE# $end\n\
$var wire 1 l CLE $end\n\
$var wire 1 a ALE $end\n\
$var wire 1 w WE# $end\n\
$var wire 1 r RE# $end\n\
$var wire 8 d DQ [7:0] $end\n\
$var wire 1 b R/B# $end\n\
$upscope $end\n\
$enddefinitions $end\n\
#0\n\
$dumpvars\n\
1c 0l 0a 1w 1r bz d 1b\n\
$end\n\
#10\n\
0c 1l b1110000 d\n\
#12\n\
0w\n\
#20\n\
1w\n\
#21\n\
0l bz d\n\
#40\n\
0r\n\
#45\n\
b11100000 d\n\
#50\n\
1r\n\
#55\n\
bz d\n\
#60\n\
1c\n";

// Its trace.
pub(crate) const STATUS_TRACE: &str = "0 C 70\n0 O e0\n";

// A text with the first place where `old` stands made `new`.
fn with_change(alloc: Global, text: &str, old: &str, new: &str) -> Result<String, Fail> {
    let Some((front, back)) = text.split_once(old) else {
        return Err(Fail::from("nothing to change"));
    };
    Ok(format!(in alloc; "{front}{new}{back}")?)
}

// A text with some changes, one after the other.
pub(crate) fn with_changes(
    alloc: Global,
    text: &str,
    changes: &[(&str, &str)],
) -> Result<String, Fail> {
    let mut changed = String::from_str(alloc, text)?;
    for (old, new) in changes {
        changed = with_change(alloc, changed.as_str(), old, new)?;
    }
    Ok(changed)
}

// The items that were captured.
pub(crate) fn items_of(alloc: Global, stamped: &[Stamped]) -> Result<Vec<Item>, AllocError> {
    stamped.iter().map(|s| s.item).collect(alloc)
}

// What is wrong, and where.
pub(crate) fn words_of(alloc: Global, fault: CaptureFault) -> Result<String, Fail> {
    Ok(match fault {
        CaptureFault::File(at) => format!(in alloc; "{} in line {}", at.fault.code(), at.line)?,
        CaptureFault::Role(role) => format!(in alloc; "G3: {role}")?,
        CaptureFault::Bus { fault, time } => format!(in alloc; "{} at {time}", fault.code())?,
    })
}
