//! What is known of a LUN, in words.

use crate::span_words::write_span;
use bitflags::Flags;
use micro_claims::{Copies, Held, KnownLun, LastCloser, OutputColumn, Planes, QueuedRows, Shown};
use std::fmt;

/// Writes what the LUN may show on the bus.
pub(crate) fn write_shown<W: fmt::Write>(
    f: &mut fmt::Formatter<W>,
    shown: Option<Shown>,
) -> fmt::Result {
    f.write_str(match shown {
        None => "an output may have no driver",
        Some(shown) => match (shown.shows_status(), shown.shows_register()) {
            (true, true) => "an output gives status or data",
            (true, false) => "an output gives the status",
            (false, true) => "an output gives data",
            (false, false) => "no run comes here",
        },
    })
}

// What a register holds that surely holds something.
fn held_words(held: Held) -> &'static str {
    if held.0 == 0 {
        "no run comes here"
    } else if held.0 == Held::PAGE.0 {
        "the register holds a page"
    } else if held.0 == Held::PARAMETERS.0 {
        "the register holds the parameter page"
    } else if held.0 == Held::IDENTIFIER.0 {
        "the register holds the identifier"
    } else if held.0 == Held::IDENTITY.0 {
        "the register holds the identity at 00h"
    } else if held.0 == Held::JEDEC.0 {
        "the register holds the identity at 40h"
    } else if held.0 == Held::UNIQUE_ID.0 {
        "the register holds the unique identifier"
    } else if held.0 == Held::FEATURE.0 {
        "the register holds a feature"
    } else {
        "what the register holds depends on the way"
    }
}

/// Writes what the register of the LUN may hold.
pub(crate) fn write_register<W: fmt::Write>(
    f: &mut fmt::Formatter<W>,
    register: Option<Held>,
) -> fmt::Result {
    f.write_str(match register {
        None => "the register may be empty",
        Some(held) => held_words(held),
    })
}

/// Writes which column the next output gives.
pub(crate) fn write_output_column<W: fmt::Write>(
    f: &mut fmt::Formatter<W>,
    column: &Option<OutputColumn>,
) -> fmt::Result {
    match column {
        None => f.write_str("the next output may have no column"),
        Some(column) => {
            f.write_str("the next output is of column ")?;
            write_span(f, &column.at)
        }
    }
}

/// Writes which rows wait in the queue of the LUN.
pub(crate) fn write_queue<W: fmt::Write>(
    f: &mut fmt::Formatter<W>,
    queue: &QueuedRows,
) -> fmt::Result {
    f.write_str(match queue {
        QueuedRows::NoRows => "no row is queued",
        QueuedRows::SomeRows { erase: true, .. } => "rows to erase are queued",
        QueuedRows::SomeRows { erase: false, .. } => "rows to program are queued",
        QueuedRows::SomeReads { .. } => "rows to read are queued",
        QueuedRows::AnyRows => "any rows may be queued",
    })
}

/// Writes whether a cache read goes on.
pub(crate) fn write_cache<W: fmt::Write>(
    f: &mut fmt::Formatter<W>,
    last: LastCloser,
) -> fmt::Result {
    let may_be_another = last.may_be_30() || last.may_be_other();
    f.write_str(match (last.may_be_31(), may_be_another) {
        (true, false) => "a cache read goes on",
        (true, true) => "a cache read may go on",
        (false, _) => "no cache read goes on",
    })
}

// The numbers of planes, of which there are some.
fn write_numbers<W: fmt::Write>(f: &mut fmt::Formatter<W>, planes: Planes) -> fmt::Result {
    let mut is_first = true;
    for plane in 0..4_u8 {
        if planes.contains(Planes::just(plane)) {
            if !is_first {
                f.write_str(if plane == planes.greatest() {
                    " and "
                } else {
                    ", "
                })?;
            }
            write!(f, "{plane}")?;
            is_first = false;
        }
    }
    Ok(())
}

/// Writes which planes surely hold a page.
pub(crate) fn write_held<W: fmt::Write>(f: &mut fmt::Formatter<W>, held: Planes) -> fmt::Result {
    if held.is_one() {
        write!(f, "plane {} holds a page", held.greatest())
    } else if held.are_several() {
        f.write_str("planes ")?;
        write_numbers(f, held)?;
        f.write_str(" hold a page")
    } else {
        f.write_str("no plane surely holds a page")
    }
}

// Writes of which planes the page lies so many rows away.
fn write_away<W: fmt::Write>(
    f: &mut fmt::Formatter<W>,
    planes: Planes,
    number: &str,
) -> fmt::Result {
    if planes.is_one() {
        write!(f, "the page of plane {} lies ", planes.greatest())?;
    } else {
        f.write_str("the pages of planes ")?;
        write_numbers(f, planes)?;
        f.write_str(" lie ")?;
    }
    write!(f, "{number} number of rows away")
}

/// Writes which pages may be copied.
pub(crate) fn write_copies<W: fmt::Write>(
    f: &mut fmt::Formatter<W>,
    copies: Copies,
) -> fmt::Result {
    let is_none = copies.even.0 == 0 && copies.odd.0 == 0;
    if !copies.keeps {
        return f.write_str("no page was surely read to be copied");
    }
    if is_none {
        return f.write_str("no page surely lies an even or an odd number of rows away");
    }
    if copies.even.0 != 0 {
        write_away(f, copies.even, "an even")?;
    }
    if copies.even.0 != 0 && copies.odd.0 != 0 {
        f.write_str(", ")?;
    }
    if copies.odd.0 != 0 {
        write_away(f, copies.odd, "an odd")?;
    }
    Ok(())
}

/// Writes whether the LUN works, and whether its array may.
pub(crate) fn write_work<W: fmt::Write>(f: &mut fmt::Formatter<W>, lun: &KnownLun) -> fmt::Result {
    f.write_str(match (lun.busy, lun.programming) {
        (true, false) => "the LUN may be busy",
        (false, false) => "the LUN is ready",
        (true, true) => "the LUN may be busy, and its array may program behind `cmd 15`",
        (false, true) => "the LUN is ready, and its array may program behind `cmd 15`",
    })
}
