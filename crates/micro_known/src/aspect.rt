//! One thing that is known before a word.

use crate::lun_words::{
    write_cache, write_copies, write_held, write_output_column, write_queue, write_register,
    write_shown, write_work,
};
use crate::span_words::write_span;
use crate::tail_words::write_tail;
use micro_claims::State;
use std::fmt;

/// One thing that is known before a word.
#[derive(Clone, Copy, Debug, PartialEq, Eq)]
pub enum Aspect {
    /// The row of the program's register, counted from the row that its job begins at.
    Row,
    /// The planes that the row may be of.
    Planes,
    /// The column of the program's register.
    Column,
    /// The place in the buffer.
    Place,
    /// The cost of the words so far, in cycles.
    Cost,
    /// What is open on the target.
    Tail,
    /// Whether the LUN works.
    Work,
    /// What an output gives.
    Shown,
    /// What the register of the LUN holds.
    Register,
    /// The column of the next output.
    OutputColumn,
    /// The rows that wait in the queue of the LUN.
    Queue,
    /// Whether a cache read goes on.
    Cache,
    /// The planes that hold a page.
    Held,
    /// The pages that may be copied.
    Copies,
}

/// An aspect of a state, in words.
#[derive(Clone, Copy)]
pub struct InWords<'s> {
    pub aspect: Aspect,
    pub state: &'s State,
}

impl Aspect {
    /// What is told of each chip, in this order.
    pub const BASE: &'static [Aspect] = &[
        Aspect::Row,
        Aspect::Planes,
        Aspect::Column,
        Aspect::Place,
        Aspect::Cost,
        Aspect::Tail,
        Aspect::Work,
        Aspect::Shown,
        Aspect::Register,
        Aspect::OutputColumn,
        Aspect::Queue,
        Aspect::Cache,
    ];

    /// What is told of a chip whose programs may select a plane that holds a page.
    pub const WITH_HELD: &'static [Aspect] = &[
        Aspect::Row,
        Aspect::Planes,
        Aspect::Column,
        Aspect::Place,
        Aspect::Cost,
        Aspect::Tail,
        Aspect::Work,
        Aspect::Shown,
        Aspect::Register,
        Aspect::OutputColumn,
        Aspect::Queue,
        Aspect::Cache,
        Aspect::Held,
    ];

    /// What is told of a chip whose programs may copy pages.
    pub const ALL: &'static [Aspect] = &[
        Aspect::Row,
        Aspect::Planes,
        Aspect::Column,
        Aspect::Place,
        Aspect::Cost,
        Aspect::Tail,
        Aspect::Work,
        Aspect::Shown,
        Aspect::Register,
        Aspect::OutputColumn,
        Aspect::Queue,
        Aspect::Cache,
        Aspect::Held,
        Aspect::Copies,
    ];

    /// Its name in JSON.
    pub fn name(self) -> &'static str {
        match self {
            Aspect::Row => "row",
            Aspect::Planes => "planes",
            Aspect::Column => "column",
            Aspect::Place => "buffer",
            Aspect::Cost => "cost",
            Aspect::Tail => "open",
            Aspect::Work => "lun",
            Aspect::Shown => "output",
            Aspect::Register => "register",
            Aspect::OutputColumn => "output_column",
            Aspect::Queue => "queue",
            Aspect::Cache => "cache",
            Aspect::Held => "held",
            Aspect::Copies => "copies",
        }
    }
}

// The planes that a row may be of.
fn write_planes<W: fmt::Write>(f: &mut fmt::Formatter<W>, planes: u8) -> fmt::Result {
    match planes {
        1 => f.write_str("plane 0"),
        2 => f.write_str("plane 1"),
        4 => f.write_str("plane 2"),
        8 => f.write_str("plane 3"),
        _ => f.write_str("the plane depends on the way"),
    }
}

impl fmt::Display for InWords<'_> {
    fn fmt<W: fmt::Write>(&self, f: &mut fmt::Formatter<W>) -> fmt::Result {
        let State {
            registers,
            target,
            lun,
        } = self.state;
        match self.aspect {
            Aspect::Row => {
                f.write_str("row ")?;
                write_span(f, &registers.index)
            }
            Aspect::Planes => write_planes(f, registers.planes.0),
            Aspect::Column => {
                f.write_str("column ")?;
                write_span(f, &registers.column)
            }
            Aspect::Place => {
                f.write_str("byte ")?;
                write_span(f, &registers.place)?;
                f.write_str(" of the buffer")
            }
            Aspect::Cost => {
                f.write_str("cost ")?;
                write_span(f, &registers.cost)
            }
            Aspect::Tail => write_tail(f, target),
            Aspect::Work => write_work(f, lun),
            Aspect::Shown => write_shown(f, target.shows),
            Aspect::Register => write_register(f, lun.register),
            Aspect::OutputColumn => write_output_column(f, &lun.column),
            Aspect::Queue => write_queue(f, &lun.queue),
            Aspect::Cache => write_cache(f, lun.last),
            Aspect::Held => write_held(f, lun.held),
            Aspect::Copies => write_copies(f, lun.copies),
        }
    }
}
