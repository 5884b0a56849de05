use crate::notes::table::{AMPLE, TWO_PLANES, text_of, words_of};
use crate::notes::worked_tests::WORKED;
use micro_lint::{Header, least_header};
use micro_walk::examine;
use nand_geometry::{Geometry, Parts};
use std::alloc::Global;
use std::test::Fail;

// The least header of a program.
fn least_of(alloc: Global, parts: Parts, words: &str) -> Result<Option<Header>, Fail> {
    let geometry = Geometry::of(parts)?;
    let text = text_of(AMPLE, words_of(alloc, words)?)?;
    Ok(least_header(alloc, &text, &geometry)?)
}

// Whether the verifier takes the words with this header.
fn is_accepted(alloc: Global, header: Header, words: &str) -> Result<bool, Fail> {
    let geometry = Geometry::of(TWO_PLANES)?;
    let text = text_of(header, words_of(alloc, words)?)?;
    Ok(examine(&text, &geometry).is_ok())
}

// Whether the verifier refuses the words with a header that gives less.
fn needs_all(alloc: Global, least: Header, words: &str) -> Result<bool, Fail> {
    let fewer_rows = Header {
        rows: least.rows.saturating_sub(1),
        ..least
    };
    let less_buffer = Header {
        buffer: least.buffer.saturating_sub(1),
        ..least
    };
    let less_budget = Header {
        budget: least.budget.saturating_sub(1),
        ..least
    };
    Ok(
        (least.rows <= 1 || !is_accepted(alloc, fewer_rows, words)?)
            && (least.buffer == 0 || !is_accepted(alloc, less_buffer, words)?)
            && (least.budget == 0 || !is_accepted(alloc, less_budget, words)?),
    )
}

// Whether the least header of a program is enough, and none that gives less.
fn is_least(alloc: Global, words: &str) -> Result<bool, Fail> {
    match least_of(alloc, TWO_PLANES, words)? {
        Some(least) => Ok(is_accepted(alloc, least, words)? && needs_all(alloc, least, words)?),
        None => Ok(false),
    }
}

#[test]
fn no_less_is_enough(rt: HostRuntime) -> Result<(), Fail> {
    for words in WORKED {
        if !is_least(rt.alloc(), words)? {
            return Err(Fail::from(*words));
        }
    }
    Ok(())
}
