//! Why an item of a trace isn't permitted: one cause.

use crate::open_sequence::{CommandAt, OpenSequence};
use onfi_cycle::PageAddress;
use std::fmt;

/// Which part of a row isn't in the geometry.
#[derive(Clone, Copy)]
pub enum RowPart {
    Lun,
    Block,
    Page,
}

impl fmt::Display for RowPart {
    fn fmt<W: fmt::Write>(&self, f: &mut fmt::Formatter<W>) -> fmt::Result {
        f.write_str(match self {
            RowPart::Lun => "LUN",
            RowPart::Block => "block",
            RowPart::Page => "page",
        })
    }
}

/// What a cycle is that its target doesn't want.
#[derive(Clone, Copy)]
pub enum Unwanted {
    Command(u8),
    Address,
    Data,
}

impl fmt::Display for Unwanted {
    fn fmt<W: fmt::Write>(&self, f: &mut fmt::Formatter<W>) -> fmt::Result {
        match *self {
            Unwanted::Command(byte) => write!(f, "`{byte:02x}` isn't wanted"),
            Unwanted::Address => f.write_str("no address is wanted"),
            Unwanted::Data => f.write_str("no data is wanted"),
        }
    }
}

/// The odd pages of a block, or the even ones.
#[derive(Clone, Copy)]
pub enum Half {
    Odd,
    Even,
}

/// Where a column is to be.
#[derive(Clone, Copy)]
pub enum Columns {
    Page,
    Register,
}

impl fmt::Display for Columns {
    fn fmt<W: fmt::Write>(&self, f: &mut fmt::Formatter<W>) -> fmt::Result {
        f.write_str(match self {
            Columns::Page => "page",
            Columns::Register => "register",
        })
    }
}

/// Since when no LUN of a target drives the bus.
#[derive(Clone, Copy)]
pub enum Undriven {
    /// Since the start: nothing was read.
    NothingRead,
    Reset(CommandAt),
    /// The past isn't known.
    Unknown,
}

/// Why an item of a trace isn't permitted.
#[derive(Clone, Copy)]
pub enum Cause {
    /// It begins a sequence outside of the profile, of which so many cycles are passed over.
    Outside {
        cycles: usize,
    },
    /// The same at an address of 90 or EC that the profile hasn't.
    OtherAddress {
        opener: CommandAt,
        cycles: usize,
    },
    /// A sequence is open on the target.
    Open(OpenSequence),
    /// The command is for a target with one LUN.
    SeveralLuns {
        command: u8,
        luns: u8,
    },
    /// Several LUNs of the target may answer the command.
    SeveralAnswer {
        command: u8,
    },
    /// No LUN answers the command while work of the whole target goes on.
    TargetWorks {
        command: u8,
        since: Option<CommandAt>,
    },
    /// The target wants something else.
    Other {
        cycle: Unwanted,
        open: OpenSequence,
    },
    /// The target wants nothing, and the command ends a sequence of this opener.
    Unopened {
        command: u8,
        opener: u8,
    },
    /// The same of `e0`, where two openers may come before it.
    NoColumnOpened {
        command: u8,
    },
    /// The same of a closer of programs, where a copyback may come before it too.
    NoProgramOpened {
        command: u8,
    },
    /// The target wants nothing.
    Nothing(Unwanted),
    /// A part of the row is past the last one.
    RowOutside {
        part: RowPart,
        number: u32,
        last: u32,
    },
    /// A LUN works since a command.
    Works {
        lun: u32,
        since: CommandAt,
    },
    /// All LUNs of the target work, the first of them since a command.
    AllWork {
        luns: u8,
        since: CommandAt,
    },
    /// No LUN drives the bus.
    NoDriver {
        since: Undriven,
    },
    /// So many LUNs drive the bus.
    Drivers {
        count: usize,
    },
    /// The LUN holds nothing that can be read, or, where its chip reads several planes, none of them is chosen.
    NoData {
        lun: u8,
        reads_planes: bool,
    },
    /// The column was lost when the status was asked for.
    ColumnLost {
        lun: u8,
        asked: Option<CommandAt>,
    },
    /// The column is past the last one.
    ColumnOutside {
        column: u64,
        of: Columns,
        length: u32,
    },
    /// The LUN holds no page of this plane, of so many, and perhaps this one of another; its chip reads several planes at once, or one.
    PlaneNotHeld {
        lun: u32,
        plane: u32,
        planes: u32,
        reads_planes: bool,
        held: Option<PageAddress>,
    },
    /// The LUN has so many rows in its queue, with which this page doesn't go together, if one was named; its chip queues reads too, or not.
    QueueStands {
        lun: u32,
        rows: usize,
        page: Option<PageAddress>,
        reads_planes: bool,
    },
    /// The LUN reads a cache.
    CacheGoesOn {
        lun: u32,
    },
    /// The LUN has read no page from which a cache read goes on, or several at once.
    NoPageAlone {
        lun: u32,
    },
    /// No page that the LUN holds may be copied to this one, in this plane of so many; of one half of the pages alone it may be, or of both.
    NoCopy {
        lun: u32,
        page: PageAddress,
        plane: u32,
        planes: u32,
        half: Option<Half>,
    },
    /// The LUN has so many pages in its queue to which others are copied.
    CopiesQueued {
        lun: u32,
        rows: usize,
    },
    /// The LUN programs a page behind a cache program.
    ProgramGoesOn {
        lun: u32,
    },
    /// The LUN has so many rows in its queue, and its chip caches no program of several planes.
    GroupNotCached {
        lun: u32,
        rows: usize,
    },
    /// The program of the LUN copies a page, and no copy is cached.
    CopyNotCached {
        lun: u32,
    },
}

// Of a sequence outside of the profile.
fn write_outside<W: fmt::Write>(f: &mut fmt::Formatter<W>, cycles: usize) -> fmt::Result {
    match cycles {
        1 => f.write_str("outside of the profile, 1 cycle passed over"),
        _ => write!(f, "outside of the profile, {cycles} cycles passed over"),
    }
}

// Of a command for a target with one LUN.
fn write_several_luns<W: fmt::Write>(
    f: &mut fmt::Formatter<W>,
    command: u8,
    luns: u8,
) -> fmt::Result {
    write!(
        f,
        "`{command:02x}` is for a target with one LUN, and this one has {luns}"
    )?;
    if command == 0x70 {
        f.write_str(": `78` asks one LUN of it for its status")?;
    }
    Ok(())
}

// Of a command that no LUN answers while work of the whole target goes on, since a command in this line.
fn write_target_works<W: fmt::Write>(
    f: &mut fmt::Formatter<W>,
    command: u8,
    since: Option<CommandAt>,
    line: Option<usize>,
) -> fmt::Result {
    f.write_str("work of the whole target goes on")?;
    if let Some(since) = since {
        f.write_str(" since ")?;
        since.write_in(f, line)?;
    }
    write!(f, ", and no LUN of it answers `{command:02x}`")
}

// Of a target that no LUN drives: since a reset in this line, or from the beginning.
fn write_no_driver<W: fmt::Write>(
    f: &mut fmt::Formatter<W>,
    since: Undriven,
    line: Option<usize>,
) -> fmt::Result {
    match since {
        Undriven::Reset(reset) => {
            f.write_str("no LUN drives the bus since ")?;
            reset.write_in(f, line)
        }
        Undriven::NothingRead => f.write_str("no LUN drives the bus: nothing was read yet"),
        Undriven::Unknown => f.write_str("no LUN drives the bus"),
    }
}

// Of a column that was lost when the status was asked for, by a command in this line.
fn write_column_lost<W: fmt::Write>(
    f: &mut fmt::Formatter<W>,
    lun: u8,
    asked: Option<CommandAt>,
    line: Option<usize>,
) -> fmt::Result {
    write!(f, "the column of LUN {lun} is lost since ")?;
    match asked {
        Some(asked) => asked.write_in(f, line)?,
        None => f.write_str("its status was asked for")?,
    }
    f.write_str(": `05` gives it a new one")
}

// Of an address of 90 or EC, which stand in this line, that the profile hasn't.
fn write_other_address<W: fmt::Write>(
    f: &mut fmt::Formatter<W>,
    opener: CommandAt,
    line: Option<usize>,
    cycles: usize,
) -> fmt::Result {
    let address = if opener.byte == 0x90 { "20" } else { "00" };
    opener.write_in(f, line)?;
    write!(f, " is modelled with address {address} alone: ")?;
    write_outside(f, cycles)
}

// Of a column.
fn write_column<W: fmt::Write>(
    f: &mut fmt::Formatter<W>,
    column: u64,
    of: Columns,
    length: u32,
) -> fmt::Result {
    match length.checked_sub(1) {
        Some(last) => write!(f, "column {column} is past the {of}, whose last is {last}"),
        None => write!(f, "column {column} is past the {of}, which is empty"),
    }
}

// Of a LUN that holds this page, or none, and is to give one of a plane of so many.
fn write_plane<W: fmt::Write>(
    f: &mut fmt::Formatter<W>,
    lun: u32,
    plane: u32,
    planes: u32,
    reads_planes: bool,
    held: Option<PageAddress>,
) -> fmt::Result {
    match held {
        Some(held) => write!(
            f,
            "LUN {lun} holds page {} of block {}, and none of plane {plane}",
            held.page, held.block
        )?,
        None if reads_planes => write!(f, "LUN {lun} holds no page of plane {plane}")?,
        None => write!(f, "LUN {lun} holds no page")?,
    }
    if planes == 1 {
        f.write_str(": `00` and `30` read one first")
    } else {
        write!(f, ": `00` and `30` read one of plane {plane} first")
    }
}

// Of a LUN that gives no data, on a chip that reads several planes or one.
fn write_no_data<W: fmt::Write>(
    f: &mut fmt::Formatter<W>,
    lun: u8,
    reads_planes: bool,
) -> fmt::Result {
    write!(f, "LUN {lun} holds no data: no page was read into it")?;
    if reads_planes {
        f.write_str(", or several were, of which `06` chooses one")?;
    }
    Ok(())
}

// Of a LUN with so many rows in its queue, with which this page doesn't go together, if one was named.
fn write_queue<W: fmt::Write>(
    f: &mut fmt::Formatter<W>,
    lun: u32,
    rows: usize,
    page: Option<PageAddress>,
    reads_planes: bool,
) -> fmt::Result {
    match rows {
        1 => write!(f, "LUN {lun} has 1 row in its queue")?,
        _ => write!(f, "LUN {lun} has {rows} rows in its queue")?,
    }
    if let Some(page) = page {
        write!(
            f,
            ", and page {} of block {} doesn't go together with that",
            page.page, page.block
        )?;
    }
    if reads_planes {
        f.write_str(": `30`, `10` or `d0` ends the queue first")
    } else {
        f.write_str(": `10` or `d0` ends the queue first")
    }
}

// Of a LUN that holds no page which may be copied to this one.
fn write_no_copy<W: fmt::Write>(
    f: &mut fmt::Formatter<W>,
    lun: u32,
    page: PageAddress,
    plane: u32,
    planes: u32,
    half: Option<Half>,
) -> fmt::Result {
    write!(
        f,
        "no page that LUN {lun} holds may be copied to page {} of block {}: `00` and `35` read ",
        page.page, page.block
    )?;
    f.write_str(match half {
        None => "one",
        Some(Half::Odd) => "an odd one",
        Some(Half::Even) => "an even one",
    })?;
    if planes == 1 {
        f.write_str(" first")
    } else {
        write!(f, " of plane {plane} first")
    }
}

// Of a LUN in whose queue copies wait.
fn write_copies<W: fmt::Write>(f: &mut fmt::Formatter<W>, lun: u32, rows: usize) -> fmt::Result {
    match rows {
        1 => write!(f, "LUN {lun} has 1 copy of a page in its queue")?,
        _ => write!(f, "LUN {lun} has {rows} copies of pages in its queue")?,
    }
    f.write_str(": `85` and `10` end the queue first")
}

// Of a LUN with so many rows in its queue, which a cache program doesn't close.
fn write_group<W: fmt::Write>(f: &mut fmt::Formatter<W>, lun: u32, rows: usize) -> fmt::Result {
    match rows {
        1 => write!(f, "LUN {lun} has 1 row in its queue")?,
        _ => write!(f, "LUN {lun} has {rows} rows in its queue")?,
    }
    f.write_str(", and `15` closes no program of several planes on this chip: `10` does")
}

impl Cause {
    /// The command that its words name, if they name one.
    pub fn named_command(self) -> Option<CommandAt> {
        match self {
            Cause::OtherAddress { opener, .. } => Some(opener),
            Cause::Open(open) | Cause::Other { open, .. } => Some(open.opener),
            Cause::Works { since, .. } | Cause::AllWork { since, .. } => Some(since),
            Cause::NoDriver {
                since: Undriven::Reset(reset),
            } => Some(reset),
            Cause::ColumnLost { asked, .. } => asked,
            Cause::TargetWorks { since, .. } => since,
            Cause::Outside { .. }
            | Cause::SeveralLuns { .. }
            | Cause::SeveralAnswer { .. }
            | Cause::Unopened { .. }
            | Cause::NoColumnOpened { .. }
            | Cause::NoProgramOpened { .. }
            | Cause::Nothing(_)
            | Cause::RowOutside { .. }
            | Cause::NoDriver {
                since: Undriven::NothingRead | Undriven::Unknown,
            }
            | Cause::Drivers { .. }
            | Cause::NoData { .. }
            | Cause::ColumnOutside { .. }
            | Cause::PlaneNotHeld { .. }
            | Cause::QueueStands { .. }
            | Cause::CacheGoesOn { .. }
            | Cause::NoPageAlone { .. }
            | Cause::NoCopy { .. }
            | Cause::CopiesQueued { .. }
            | Cause::ProgramGoesOn { .. }
            | Cause::GroupNotCached { .. }
            | Cause::CopyNotCached { .. } => None,
        }
    }
}

/// A cause in words: the command that it names stands in this line, counted from 1, where that is known.
#[derive(Clone, Copy)]
pub struct CauseInLine {
    pub cause: Cause,
    pub line: Option<usize>,
}

impl fmt::Display for CauseInLine {
    fn fmt<W: fmt::Write>(&self, f: &mut fmt::Formatter<W>) -> fmt::Result {
        let line = self.line;
        match self.cause {
            Cause::Outside { cycles } => write_outside(f, cycles),
            Cause::OtherAddress { opener, cycles } => write_other_address(f, opener, line, cycles),
            Cause::Open(open) => {
                f.write_str("a sequence is open: ")?;
                open.write_in(f, line)
            }
            Cause::SeveralLuns { command, luns } => write_several_luns(f, command, luns),
            Cause::SeveralAnswer { command } => write!(
                f,
                "`{command:02x}` may be answered by more than one LUN of this target: `78` asks one LUN of it for its status"
            ),
            Cause::TargetWorks { command, since } => write_target_works(f, command, since, line),
            Cause::Other { cycle, open } => {
                write!(f, "{cycle}: ")?;
                open.write_in(f, line)
            }
            Cause::Unopened { command, opener } => write!(
                f,
                "`{command:02x}` isn't wanted: no `{opener:02x}` is open before it"
            ),
            Cause::NoColumnOpened { command } => write!(
                f,
                "`{command:02x}` isn't wanted: no `05` or `06` is open before it"
            ),
            Cause::NoProgramOpened { command } => write!(
                f,
                "`{command:02x}` isn't wanted: no `80` or `85` is open before it"
            ),
            Cause::Nothing(cycle) => write!(f, "{cycle}: no sequence is open"),
            Cause::RowOutside { part, number, last } => {
                write!(
                    f,
                    "{part} {number} of the row isn't there: the last is {last}"
                )
            }
            Cause::Works { lun, since } => {
                write!(f, "LUN {lun} works since ")?;
                since.write_in(f, line)
            }
            Cause::AllWork { luns, since } => {
                write!(f, "all {luns} LUNs work, the first of them since ")?;
                since.write_in(f, line)
            }
            Cause::NoDriver { since } => write_no_driver(f, since, line),
            Cause::Drivers { count } => write!(f, "{count} LUNs drive the bus at once"),
            Cause::NoData { lun, reads_planes } => write_no_data(f, lun, reads_planes),
            Cause::ColumnLost { lun, asked } => write_column_lost(f, lun, asked, line),
            Cause::ColumnOutside { column, of, length } => write_column(f, column, of, length),
            Cause::PlaneNotHeld {
                lun,
                plane,
                planes,
                reads_planes,
                held,
            } => write_plane(f, lun, plane, planes, reads_planes, held),
            Cause::QueueStands {
                lun,
                rows,
                page,
                reads_planes,
            } => write_queue(f, lun, rows, page, reads_planes),
            Cause::CacheGoesOn { lun } => {
                write!(f, "LUN {lun} reads a cache: `3f` ends that first")
            }
            Cause::NoPageAlone { lun } => write!(
                f,
                "LUN {lun} has read no single page from which `31` goes on: `00` and `30` read one first"
            ),
            Cause::NoCopy {
                lun,
                page,
                plane,
                planes,
                half,
            } => write_no_copy(f, lun, page, plane, planes, half),
            Cause::CopiesQueued { lun, rows } => write_copies(f, lun, rows),
            Cause::ProgramGoesOn { lun } => write!(
                f,
                "LUN {lun} programs a page behind `15`: the ready of its array ends that first"
            ),
            Cause::GroupNotCached { lun, rows } => write_group(f, lun, rows),
            Cause::CopyNotCached { lun } => write!(
                f,
                "the program of LUN {lun} copies a page, and `15` closes no copy: `10` does"
            ),
        }
    }
}
